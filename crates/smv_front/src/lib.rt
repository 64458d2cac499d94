//! From the bytes of a source to a model that breaks no rule.
#![tactic(auto)]

mod model;
mod one_reading;

pub use model::read_model;
pub use one_reading::is_read_once;
