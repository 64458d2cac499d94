//! The tokens of a text: each the longest word that stands where it stands, with its place; or why the text is refused.
#![tactic(auto)]

mod comments;
mod front;
mod lexeme;
mod numbers;
mod one_tokenization;
mod runs;
mod texts;
mod words;
mod written;

pub use lexeme::Lexeme;
pub use one_tokenization::are_tokens_once;
pub use texts::tokens;
pub use written::word_written;
