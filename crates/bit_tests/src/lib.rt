//! Tests of the systems over bits of small models, through public calls alone: each assignment of the bits against what
//! the model means, and how many clauses there are.
#![tactic(auto)]

#[cfg(test)]
mod assignments;
#[cfg(test)]
mod refuting;
