//! For each item of a program clauses that are met where it faults, at a valuation of the declared types, and only if
//! it faults at some. Where an item cannot fault at sight, there are none.
#![tactic(auto)]

mod cones;
mod domains;
mod faults;
mod formulas;
mod judged;
mod mending;
mod questions;
mod soundness_of_questions;
mod targets;
mod valuation;

pub use judged::judged_items;
pub use mending::mended;
pub use questions::fault_questions;
pub use soundness_of_questions::{what_is_met, what_is_never_met};
