//! Derivations whose steps name the clauses that they follow from: with them a step is followed in the
//! time of a look at each clause that it names (Cruz-Filipe and others 2017).
#![tactic(auto)]

pub mod hinted;
pub mod hinted_derivations;
pub mod numbers;

pub use hinted::Hinted;
pub use numbers::Numbers;
