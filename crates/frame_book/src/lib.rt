//! The book that workers share: frames (Bradley 2011), the history of what became of each claim, and what may be
//! claimed. It is the value under a lock, and knows of no thread and no solver.
#![tactic(auto)]

pub mod book;
pub mod claim;
mod marks;
mod pages;
mod picking;
mod rooms;
mod settling;

pub use book::{Book, Parts};
pub use claim::{Claim, ClaimOutcome, Claiming, Returning, Settling, Unsettled};
