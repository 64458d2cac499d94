//! The rules of assignments: each variable is assigned once at a time, and none depends on itself at one time.
#![tactic(auto)]

mod assigned;
mod check;
mod cycles;
mod graph;
mod names;
mod reads;
mod time;
mod twice;

pub use check::{Flat, flatten};
