//! Tests of clauses, derivations, certificates, propagation, solvers and purses, through the public calls of their
//! crates: what no clause says, tables of worked cases, and each call once with ample memory.
#![tactic(auto)]

#[cfg(test)]
mod certificates;
#[cfg(test)]
mod clauses;
#[cfg(test)]
mod derivations;
#[cfg(test)]
mod letters;
#[cfg(test)]
mod making;
#[cfg(test)]
mod propagators;
#[cfg(test)]
mod purses;
#[cfg(test)]
mod solvers;
