//! IC3 (Bradley 2011) for one system or for several that share their lemmas, by one worker or by several: proves that
//! no bad state is reached, finds a run to one, or says why neither is known.
//!
//! The only error of a call is running out of memory.
#![tactic(auto)]

pub mod answering;
pub mod answers;
pub mod effort;
pub mod exploring;
mod playing;
mod proving;
mod together;

pub use answering::certificate_of;
pub use answers::{Answer, Cause, Done, Work};
pub use effort::Effort;
pub use exploring::explore;
pub use proving::{prove_all, prove_invariant};
