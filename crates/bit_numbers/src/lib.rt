//! Integers and words as edges of a graph: constants, comparisons with constants, quotients, shifts, the greater and
//! the lesser, counts, and parts of words.
//!
//! A comparison with a constant that the bits cannot reach is a constant, and has no gate.
//!
//! The only error of a call is running out of memory.
#![tactic(auto)]

mod comparing;
mod constants;
mod counting;
mod division;
mod extremes;
mod parts;
mod shifts;

pub use comparing::{between, equal_bits, equal_integers, is_between, is_number};
pub use constants::{constant, integer_edges, integer_width, known_integer};
pub use counting::number_of_true;
pub use division::divided;
pub use extremes::{absolute, choose_integer, extreme, negated};
pub use parts::{constant_word, extended, selected, size, to_boolean};
pub use shifts::shifted;
