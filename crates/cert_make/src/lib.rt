//! Makes certificates of inductive invariants that exclude bad states (Bradley 2011), with the steps that a solver
//! learned on the way.
#![tactic(auto)]

mod asking;
pub mod making;
mod parts;
mod shared;
mod trimming;

pub use making::{Made, make};
