//! Linear temporal logic by search and proof, by one worker or by several: lassos of one length after another (Biere,
//! Heljanko, Junttila, Latvala and Schuppan 2006), and k-liveness by IC3 for one counter after another (Claessen and
//! Sörensson 2012; Bradley 2011).
#![tactic(auto)]

pub mod answers;
mod beside;
mod capped;
mod climbing;
mod counting;
mod course;
pub mod effort;
mod following;
mod known;
mod leaping;
mod less_effort;
pub mod proving;
mod searching;
mod together;

pub use answers::{LtlAnswer, LtlCause, LtlDone};
pub use effort::LtlEffort;
pub use proving::prove_ltl;
