//! Certificates of invariants of a transition system: clauses, and for each of them, and for the bad states,
//! a derivation that shows it.
//!
//! The only error of a call is running out of memory.
#![tactic(auto)]

pub mod certificate;
pub mod form;
pub mod inductive_invariants;
mod parts;
pub mod sound;

pub use certificate::Certificate;
pub use form::{Form, MAX_COUNTER, MAX_VARS, Part};
pub use sound::Sound;
