//! A counterexample over bits: the rows of a run that ends in a bad state.

ghost use Rattle.std.specs.Prelude.{◌≡◌, ◌<◌, [], length, slice_index_or};

use clause_core::Bits;
use std::marker::Model;

/// A run: for each of its states values of all bits, with which the step clauses are met, and at its end
/// the bad clauses. Contracts see the list of these values.
#[derive(Drop)]
pub struct BitRun {
    rows: Vec<Bits>,
}

impl Model for BitRun {
    ghost use Rattle.std.specs.Prelude.{List, Bool};

    ghost Value = { List (List Bool) };

    ghost view = { λ r. r.rows.items };
}

impl BitRun {
    /// The run with these values; takes no memory.
    pub fn from_vec(rows: Vec<Bits>) -> BitRun
        ensures { result ≡ rows.items }
    {
        BitRun { rows }
    }

    /// How many states it has.
    pub fn len(&self) -> usize
        ensures { result ≡ length self.now }
    {
        self.rows.as_slice().len()
    }

    /// The values at state `k`.
    pub fn row(&self, k: usize) -> &Bits
        requires { k < length self.now }
        ensures { result.now ≡ slice_index_or self.now k [] }
    {
        &self.rows[k]
    }
}
