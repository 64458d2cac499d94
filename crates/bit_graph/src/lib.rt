//! And-inverter graphs with gates for the exclusive or and for a choice by a condition: gates over
//! inputs and a constant, joined by edges that may negate, in which equal nodes are shared
//! (Kuehlmann, Paruthi, Krohm and Ganai 2002).
//!
//! A contract here and in the crates above speaks of every valuation of the nodes that is
//! `Consistent` with the graph as it stands after the call: what was said of an edge then holds in
//! each later graph too, by `Extends`. `Graph::one_way` ties this to the value of an edge under an
//! assignment of the inputs.
//!
//! The only error of a call is running out of memory; each edge that was made before keeps its value.
#![tactic(auto)]

mod edge;
mod evaluation;
mod graph;

pub use edge::{Edge, GraphNode};
pub use evaluation::evaluate;
pub use graph::Graph;
