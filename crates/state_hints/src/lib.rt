//! Hints of states that IC3 found: of a state that leads to where is asked about, the clause of those bits that it needs
//! for that. They choose which clause is tried first, and nothing is claimed of them.
#![tactic(auto)]

mod explaining;
pub mod hints;
mod reducing;

pub use hints::Hints;
