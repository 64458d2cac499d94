//! Whether an item of a program may fault: one query an item, over clauses alone, with a log where it never does and a
//! model where it may.
#![tactic(auto)]

mod asking;
pub mod searching;
pub mod soundness_of_answers;

pub use searching::{Answer, search};
