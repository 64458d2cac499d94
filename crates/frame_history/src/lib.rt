//! The history of frames that workers share: what its entries are, which state they lead to, where each may stand,
//! and what every lawful history keeps.
#![tactic(auto)]

pub mod entries;
pub mod lawful_histories;

pub use entries::{Change, Entry, Lag, Limits, Made, Subject};
