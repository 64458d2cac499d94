//! How a program is refused for an item that faults: the rule, the place, and a valuation at which it does. The
//! definitions are in `specs/`.
#![tactic(auto)]

mod marks;
mod reads;
mod refusals;
mod valuations;

pub use refusals::fault_refusal;
