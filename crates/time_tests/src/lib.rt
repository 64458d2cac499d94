//! Tests of temporal formulas, their tables and monitors, and of the search for lassos, through the public calls of
//! their crates: tables of worked cases, and each call once with ample memory.
#![tactic(auto)]

#[cfg(test)]
mod bounded;
#[cfg(test)]
mod formulas;
#[cfg(test)]
mod lassos;
#[cfg(test)]
mod monitors;
#[cfg(test)]
mod tables;
