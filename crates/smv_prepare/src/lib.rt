//! Preparing a model: whether one of its items ever faults, in any state or step of the declared types, reached or not.
#![tactic(auto)]

mod decoding;
mod one_refused_item;
mod preparing;

pub use one_refused_item::one_item_is_refused;
pub use preparing::{Prepared, prepare};
