//! The operators on values as edges of a graph: what `smv_value` computes of values, in gates.
//!
//! An integer stands in two's complement, in as many bits as it needs. A symbol is a position in a list of symbols: a
//! variable's own bits are that position, and a symbol by itself has no bit. So neither costs a gate, and a variable
//! equals a symbol where its bits are that position's.
//!
//! The only error of a call is running out of memory.
#![tactic(auto)]

mod constants;
mod logic;
mod orders;
mod resizing;
mod sums;
mod symbolic;
mod words;

pub use constants::{integer, number_edges, symbol};
pub use logic::{alike, inverted, logical};
pub use orders::{integer_below, ordered};
pub use resizing::{resized, sign};
pub use sums::{bounded, sum_integer, summed};
pub use symbolic::{Discrete, Symbolic};
pub use words::{joined, resized_to, to_word, with_sign};
