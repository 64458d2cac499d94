//! The types of variables as they are declared, and the rules that declarations keep (NuSMV 2.6 User Manual, 2.1, Types Overview;
//! 2.3.1, Variable Declarations). The definitions are in `specs/`.
#![tactic(auto)]

mod bounds;
mod closed;
mod constant;
mod constants;
mod declarations;
mod elements;
mod judged;
mod limits;
mod place;
mod tally;
mod variable_type;
mod well_formed_types;

pub use constant::Constant;
pub use constants::{constants_of, integer_at};
pub use declarations::declared_types;
pub use variable_type::{Bounds, Declared, VariableType};
pub use well_formed_types::types_are_types;
