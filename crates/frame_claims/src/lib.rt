//! What one worker does with a claim of the book: it asks the claim's queries with its own solver and its own copy of
//! the lemmas, and tells the outcome (Bradley 2011). It knows of no thread and no lock.
#![tactic(auto)]

mod apart;
mod asking;
pub mod claims;

pub use apart::{are_apart, is_unspent};
pub use claims::ask;
