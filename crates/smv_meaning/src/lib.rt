//! What a model means: the values of its expressions, its initial states, its steps and its runs
//! (NuSMV 2.6 User Manual, chapter 2). The definitions are in `specs/`; the calls here compute what they say.
//!
//! The only error of a call but `eval` is running out of memory.
#![tactic(auto)]

mod evaluation;
mod formulas;
mod item_faults;
mod lasso_runs;
mod meets;
mod operators;
mod outcome;
mod readers;
mod states;
mod typed;

pub use evaluation::{eval, instance_at, outcome_at, outcomes};
pub use formulas::{is_over_formulas, is_temporal};
pub use item_faults::faults;
pub use lasso_runs::lassos;
pub use meets::{meets_init, meets_inv, meets_step};
pub use operators::applied;
pub use outcome::Evaluation;
pub use readers::{input_slots, is_claim, slots, specifications, state_slots};
pub use states::{Inputs, Path, State};
pub use typed::Typed;
