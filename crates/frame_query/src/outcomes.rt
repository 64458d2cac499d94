//! The answers of the queries of IC3: a proof or a counterexample to induction; a bad state or
//! none.

use frame_core::{Clear, Proved, StateWitness, Step};

/// What a query about steps finds.
#[derive(Drop)]
pub enum Relative<'a> {
    /// Initial states meet the clause, and a step from the frame below that meets it ends in it.
    Proved(Proved<'a>),
    /// A step from a state of the frame below that meets the clause, to one that does not.
    Step(Step<'a>),
    /// The purse was spent before it was known.
    Spent { drawn: u64, budget: u64 },
}

/// What a query about bad states finds.
#[derive(Drop)]
pub enum Bads<'a> {
    /// The frame has no bad state.
    Clear(Clear<'a>),
    /// A bad state of the frame.
    Found(StateWitness<'a>),
    /// The purse was spent before it was known.
    Spent { drawn: u64, budget: u64 },
}

/// Whether a state is an initial one.
#[derive(Drop)]
pub enum Noted<'a> {
    /// The state that the step leads from.
    Found(StateWitness<'a>),
    /// The purse was spent before it was known.
    Spent { drawn: u64, budget: u64 },
}

/// The outcome of a generalisation.
#[derive(Drop)]
pub enum Generalised<'a> {
    /// A proof of a part of its clause, none of whose literals can be dropped.
    Smaller(Proved<'a>),
    /// The purse was spent before that; here is the proof that was given.
    Spent {
        given: Proved<'a>,
        drawn: u64,
        budget: u64,
    },
    /// No memory was found; here is the proof that was given.
    NoMemory {
        given: Proved<'a>,
    },
}
