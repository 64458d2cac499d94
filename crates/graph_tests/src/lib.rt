//! Tests of graphs of gates, of words over them and of their clauses, through the public calls of their crates: what no
//! clause says, tables of worked cases, and each call once with ample memory.
#![tactic(auto)]

#[cfg(test)]
mod conditions;
#[cfg(test)]
mod graph_clauses;
#[cfg(test)]
mod graphs;
#[cfg(test)]
mod operators;
#[cfg(test)]
mod words;
