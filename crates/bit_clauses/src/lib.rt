//! Conditions on the edges of a graph as clauses that decide them, by the graph's inputs alone and by
//! unit propagation.
//!
//! A condition is a pair of edges, one of which is to be true (`Either`). Few clauses come of them: a
//! conjunction is cut into its parts, a disjunction is one clause, and where a condition joins an input
//! to a gate, the input stands for the gate's variable (Plaisted and Greenbaum 1986; Een, Mishchenko and
//! Sorensson 2007).
//!
//! The only error of a call is running out of memory.
#![tactic(auto)]

mod claims;
mod clause;
mod conditions;
mod cutting;
mod deciding;
mod either;
mod gates;
mod moving;
mod splitting;

pub use deciding::{Decided, Defined, decide, define};
pub use either::{Either, ask, ask_either, ask_same};
