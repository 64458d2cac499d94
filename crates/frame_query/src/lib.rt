//! Queries of IC3 (Bradley 2011) to solvers that are kept: relative induction, bad states, initial states,
//! and generalisation of proved clauses.
#![tactic(auto)]

mod attempting;
mod dropping;
mod finding;
mod following;
pub mod keeping;
mod kept_proofs;
mod lookups;
mod noting;
pub mod outcomes;
mod pushing;
mod reissuing;
mod trying;

pub use frame_solver::{Firsts, negation};
pub use keeping::FrameSolver;
pub use outcomes::{Bads, Generalised, Noted, Relative};
pub use reissuing::reissued;
