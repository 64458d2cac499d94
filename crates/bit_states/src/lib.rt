//! States and inputs as bits: slot by slot the bits of its value. Where the bits stand, the law that states and their
//! bits are each other's, and the values of bits as edges of a graph.
#![tactic(auto)]

mod coding;
mod layout;
mod slots;
mod state_coding;
mod types;

pub use coding::{decoded, encoded};
pub use layout::{BuildStop, Layout, is_narrow, layout_of, numbers};
pub use slots::{domain_edge, slot_values};
pub use state_coding::what_a_coding_is;
pub use types::{input_types, state_types, width_of_all};
