//! Phrases of tokens: what is read at the front, how far, and why not; single tokens, and names (NuSMV 2.6 User Manual,
//! 2.3.13).
//!
//! A call refuses tokens at the first that is out of place, or that opens a level too many. The other error is running
//! out of memory.
#![tactic(auto)]

mod names;
mod numbers;
mod reading;
mod token_kinds;

pub use names::{NameStart, begins_name, identifier_of, members, name, name_from, place_of};
pub use numbers::{integer_value, number_of, word_value};
pub use reading::{Stop, begins, identifier, is_identifier, is_kind, just, opening};
pub use token_kinds::kinds_are_told_apart;
