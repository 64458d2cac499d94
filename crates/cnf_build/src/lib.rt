//! Clauses that say what the edges of a graph say, by a variable for each node that the edges stand
//! on (Tseitin 1968).
#![tactic(auto)]

mod cone;
mod numbers;
mod tseitin;

pub use tseitin::{Cnf, clauses};
