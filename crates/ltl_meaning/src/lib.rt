//! Linear temporal logic with past, over words that end in a loop: formulas, their truth at each
//! time, and its laws.
#![tactic(auto)]

pub mod formula;
mod height;
pub mod node;
pub mod temporal_equivalences;
pub mod word;
