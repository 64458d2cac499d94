//! Values and the operators on them (NuSMV 2.6 User Manual, 2.2, Expressions).
#![tactic(auto)]

mod integers;
mod operations;
mod operator;
mod shown;
mod value;
mod values;
mod whole;
mod words;

pub use operations::apply;
pub use operator::{Arithmetic, Bounded, Division, Logic, Operator, Order, Shift, Temporal};
pub use shown::Shown;
pub use value::{FaultRule, Value};
pub use values::{is_value, same};
