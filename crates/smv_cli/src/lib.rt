//! The command `smvcheck`: its words, its reading of a model, its report and its status.
#![tactic(auto)]

mod checking;
mod formulas;
mod inhabited;
mod input;
mod judging;
mod listing;
mod preparing;
mod print;
mod record;
mod streams;
mod top;

pub use input::SOURCE_LIMIT;
pub use preparing::Preparation;
pub use record::{Reason, Record, SpecVerdict};
pub use top::{run, run_over_bytes};
