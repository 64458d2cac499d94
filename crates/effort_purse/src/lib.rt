//! Effort that is paid for: numbered tickets out of a budget, for one thread or for several.
//!
//! A query of a solver, and each clause that it learns, costs a ticket. Who draws past the budget is told so,
//! from then on always. Threads that share a purse also draw bounds from it, and share a stop flag.
#![tactic(auto)]

mod draw;
mod lent;
mod plain;
mod plays;
mod purse;
mod seat;
mod shared;
mod view;

pub use draw::{Draw, NextBound};
pub use lent::Lent;
pub use plain::PlainPurse;
pub use purse::Purse;
pub use seat::Seat;
pub use shared::SharedPurse;
pub use view::{Lane, Limits, View};
