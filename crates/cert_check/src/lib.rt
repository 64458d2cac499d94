//! Judges certificates, by unit propagation or by hints alone.
//!
//! The only error of a call is running out of memory.
#![tactic(auto)]

pub mod hinting;
pub mod judging;
pub mod lists;
mod parts;
pub mod upgrading;

pub use judging::{CertVerdict, check};
pub use upgrading::{Upgraded, upgrade};
