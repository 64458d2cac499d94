//! Tests of traces, from the bytes of a model and the text of a trace: what is read, what is refused, and what a replay
//! answers. What is wanted was written down from the rules, and not from what the code answers.
#![tactic(auto)]

use plain_text::Text;
use std::alloc::{AllocError, Global};
use trace_replay::Line;

/// The lines of a text, numbered from 1, without what stands behind the last line feed.
pub fn lines_of(alloc: Global, text: &str) -> Result<Vec<Line>, AllocError> {
    let mut lines = Vec::new(alloc);
    let mut number = 0;
    for piece in text.split('\n') {
        number = 1.max(number).min(usize::MAX - 1);
        lines.push(Line {
            number,
            text: Text::from_str(alloc, piece)?,
        })?;
        number += 1;
    }
    let _behind_the_last = lines.pop();
    Ok(lines)
}

#[cfg(test)]
mod replays;
