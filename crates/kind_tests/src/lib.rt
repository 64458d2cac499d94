//! Tests of the kinds of expressions, through the public calls of their crate: tables of cases that were worked by
//! hand.
#![tactic(auto)]

#[cfg(test)]
mod intervals;
#[cfg(test)]
mod rules;
