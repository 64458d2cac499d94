//! Tests of what is written for a report, over texts that were made by hand.
#![tactic(auto)]

#[cfg(test)]
mod refused;
#[cfg(test)]
mod saying;
#[cfg(test)]
mod shown;
