//! What expressions give, in gates: for each node of a program the value that it has and where it is a fault, and what
//! items ask of these (Biere and others, Symbolic Model Checking without BDDs, 1999).
//!
//! What is told of an outcome holds unless kinds do not fit, which in a typed program does not come.
#![tactic(auto)]

mod choosing;
mod fronts;
mod items;
mod members;
mod nodes;
mod operators;
mod told;

pub use items::{false_edge, fault_edge, outside_edge, takes_edge, true_edge};
pub use nodes::{table, untold};
pub use operators::applied;
pub use told::{Member, Told, Which, copied};
