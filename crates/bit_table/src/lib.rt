//! The table of the operators on values as edges: what each gives of its operands, and where it faults.
#![tactic(auto)]

mod compared;
mod indices;
mod known;
mod operator_results;
mod table;

pub use operator_results::what_operators_give;
pub use table::apply;
