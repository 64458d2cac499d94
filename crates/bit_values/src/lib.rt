//! Values as bits: a value's code in binary, the lowest bit first, in as many bits as the codes of its type need.
#![tactic(auto)]

mod coding;
mod domains;
mod values_as_bits;

pub use coding::{bits_of, from_bits, least_bits, to_bits, width};
pub use domains::{constant_edges, domain};
pub use values_as_bits::{what_a_width_is, what_bits_are};
