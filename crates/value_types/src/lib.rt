//! The types of variables: which values are in each, how many, and by which code each is known (NuSMV 2.6 User Manual,
//! 2.1, Types Overview).
//!
//! The only error of a call is running out of memory.
#![tactic(auto)]

mod codes;
mod codes_and_intervals;
mod interval;
mod shown;
mod value_type;

pub use codes_and_intervals::{what_a_code_is, what_an_interval_holds};
pub use interval::Interval;
pub use shown::ShownType;
pub use value_type::{Element, ValueType};
