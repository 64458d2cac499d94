//! Several workers explore frames (Bradley 2011): they share a book under a lock, and each asks for its claims by a
//! solver of its own.
#![tactic(auto)]

mod account;
mod begun;
mod desk;
mod explored;
mod explorer;
mod exploring;
mod hand;
mod meeting;
mod playing;
mod stoppable;

pub use explored::{Explored, Met};
pub use exploring::explore_together;
pub use stoppable::Stoppable;
