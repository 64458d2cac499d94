//! Lemmas, the parents of a proof, and proof obligations.

use clause_core::{Bits, Clause};

/// A lemma of the frames.
#[derive(Drop)]
pub struct Lemma {
    /// The clause, over state bits.
    pub clause: Clause,
    /// It holds in each state that is reached in at most this many steps.
    pub level: u32,
    /// Whether it is live, and not retired.
    pub live: bool,
}

/// A lemma that a query used: its number, and its clause at that time.
#[derive(Drop)]
pub struct Parent {
    pub number: usize,
    pub clause: Clause,
}

/// A state that leads to a bad one, with what shows it.
#[derive(Drop)]
pub struct Obligation {
    /// The number of the system for which that one is bad.
    pub system: usize,
    /// Values of all bits: they meet the bad clauses where there is no parent, and else the step clauses,
    /// with the parent's state as the next one.
    pub values: Bits,
    /// The obligation that a step leads to.
    pub parent: Option<usize>,
    /// Whether the state is an initial state.
    pub first: bool,
}
