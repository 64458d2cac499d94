//! Lassos of a system over bits that violate a formula, by what its monitored system and its counted system
//! have: the laws that a search of lassos and a proof by a counter rest on.
#![tactic(auto)]

pub mod absence_of_violations;
