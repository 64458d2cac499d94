//! Kinds of expressions: what each operator asks of its operands' kinds, and the kind that it gives (NuSMV 2.6 User
//! Manual, 2.1, Types Overview, and 2.2, Expressions). Intervals of integers are an own choice of this project.
#![tactic(auto)]

mod constants;
mod context;
mod intervals;
mod joining;
mod kind;
mod numbers;
mod sets;
mod table;
mod words;

pub use constants::{constant_given, constant_of};
pub use context::{kind_in_context, takes_sets};
pub use joining::takes;
pub use kind::{Discrete, Interval, Kind, KindRule, Operand, kind_of_value};
pub use table::{kind_given, next_kind};
