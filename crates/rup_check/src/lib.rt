//! Checks a derivation: whether each of its clauses follows by unit propagation from the given clauses
//! and those before it, and the last is empty (Goldberg, Novikov 2003).
//!
//! The only error of a call is running out of memory.
#![tactic(auto)]

mod chains;
pub mod checking;
mod finder;
mod following;
mod links;
mod numbered;
mod passes;
mod searching;
mod steps;
mod trail;

pub use checking::{Checker, Hints, LogVerdict};
