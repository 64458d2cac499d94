//! Cycles of directed graphs.
//!
//! The only error of a call is running out of memory.
#![tactic(auto)]

mod canonical;
mod closed;
mod find;
mod mark;
mod reach;

pub use canonical::canonical_cycle;
pub use closed::is_closed;
pub use reach::reached_from;
