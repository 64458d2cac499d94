//! Tests of the whole command, through its top call alone: from the words and the bytes of a source to the bytes of the
//! report and the status, over sources and sinks in memory, with calls that fail, and over std's readers and writers.
#![tactic(auto)]

#[cfg(test)]
mod arrays;
#[cfg(test)]
mod formulas;
#[cfg(test)]
mod gates;
#[cfg(test)]
mod refused;
#[cfg(test)]
mod reports;
#[cfg(test)]
mod rings;
#[cfg(test)]
mod sources;
#[cfg(test)]
mod values;
#[cfg(test)]
mod workers;
