//! Workers that share a value: each takes a task of it under the lock, does it without, and puts back what came of it.
//! They run by recursive join, and what each owns is put together again afterwards.
#![tactic(auto)]

mod craft;
mod crew;

pub use craft::{Craft, Taking};
pub use crew::{Crew, fan_out, finish, work};
