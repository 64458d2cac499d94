//! What edges of a graph tell of states and steps of a program, and what its items ask of these, as conditions (Biere
//! and others, Symbolic Model Checking without BDDs, 1999).
//!
//! A condition, a claim or a formula holds only where the edges of each slot are the code of a value: the domain stands
//! beside it.
#![tactic(auto)]

mod asking;
mod claims;
mod conditions;
mod demands;
mod inhabited;
mod justice;
mod keeping;
mod told;

pub use asking::true_at;
pub use claims::claim_edge;
pub use conditions::{first_conditions, step_conditions};
pub use justice::just_edges;
pub use told::{ToldInputs, ToldState, nowhere, told_inputs, told_moment, told_state, told_step};
