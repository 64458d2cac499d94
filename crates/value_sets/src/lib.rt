//! Sets of values: kept as single values and runs of integers, and seen by contracts as the list of their members.
//!
//! The only error of a call is running out of memory.
#![tactic(auto)]

mod sets;
mod spans;

pub use sets::ValueSet;
