//! Values as edges, whichever kind they are of: whether two are the same, and one of two. The value of a variable's
//! bits, and whether a value is of a type.
//!
//! A value of an enumeration keeps its own code. Two are the same where their codes are those of one symbol. One of two
//! has a code among the symbols of both. Only a list of symbols that is not the beginning of the other costs gates.
#![tactic(auto)]

mod choices;
mod enumerations;
mod equality;
mod symbols;
mod types;
mod variables;

pub use choices::choose;
pub use equality::equal;
pub use types::is_in_type;
pub use variables::variable;
