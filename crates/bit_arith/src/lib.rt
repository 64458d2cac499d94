//! Lists of edges as numbers: the operators on words, as graphs of gates.
//!
//! A list has the lowest bit first. Each function adds nodes to the graph and answers edges whose
//! number is the operator's, whatever the values of the inputs; each edge that was made earlier keeps
//! its value, also if memory runs out, which is the only error.
#![tactic(auto)]

mod choices;
mod products;
mod quotients;
mod shifts;
mod signs;
mod sums;

pub use choices::{compare, select};
pub use products::multiply;
pub use shifts::shift;
pub use signs::{divide, negate, remainder};
pub use sums::{add, subtract};
