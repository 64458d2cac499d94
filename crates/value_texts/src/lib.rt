//! Values as they are told in texts that are read back: their texts, and values read from them by their types. The
//! definitions are in `specs/`.
//!
//! The only error of a call is running out of memory.
#![tactic(auto)]

mod reading;
mod reading_of_values;
mod symbols;
mod telling;

pub use reading::value_read;
pub use reading_of_values::what_is_read_of_a_value;
pub use symbols::Symbols;
pub use telling::told;
