//! Judges sound blocks, which show of the items of a program that they never fault: by unit propagation alone, with
//! no solver below (Goldberg, Novikov 2003).
#![tactic(auto)]

pub mod judging;
mod parts;
pub mod soundness_of_blocks;

pub use bit_clauses::Decided;
pub use judging::{SoundVerdict, judge};
