//! Lines of a source.

use plain_text::Text;

/// A line of a source: its number, counted from 1, and its text without its line feed.
#[derive(Debug, Drop)]
pub struct Line {
    pub number: usize,
    pub text: Text,
}
