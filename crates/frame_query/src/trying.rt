//! The state of a generalisation: the proof at hand, the literals that are needed, and those still
//! to be tried.

use clause_core::{Clause, Lit};
use frame_core::Parent;

// The outcome of a trial: whether the smaller clause is inductive.
#[derive(Drop)]
pub enum Trial {
    // A step from a state of the frame below that meets the parents and the clause ends in this part of it, and
    // initial states meet the other part.
    Holds {
        parents: Vec<Parent>,
        part: Vec<Lit>,
        met: Clause,
    },
    // It is not inductive at this level.
    Fails,
    // The purse was spent before it was known.
    Spent {
        drawn: u64,
        budget: u64,
    },
}

// The proof at hand, taken apart.
#[derive(Drop)]
pub struct Draft {
    pub clause: Vec<Lit>,
    pub part: Vec<Lit>,
    pub parents: Vec<Parent>,
}

// A generalisation under way.
#[derive(Drop)]
pub struct Walk {
    // the literals that are needed
    pub kept: Vec<Lit>,
    // those still to be tried
    pub rest: Vec<Lit>,
    // the proof at hand
    pub draft: Draft,
    // how many clauses more may be asked about
    pub asks: usize,
    // literals that may be all that is needed, until that is tried; none, where there is no such hint
    pub hint: Vec<Lit>,
    // the clause that was tried for the hint, where it is not inductive
    pub failed: Option<Clause>,
}

// Whether one turn of a generalisation was completed.
#[derive(Drop)]
pub enum Turn {
    // The literal was dropped, or it is needed.
    Went,
    // The purse was spent before it was known.
    Spent { drawn: u64, budget: u64 },
}

// The outcome of a generalisation.
#[derive(Drop)]
pub enum Ending {
    // None of the literals of the proof can be dropped.
    Done(Draft),
    // The purse was spent before that.
    Spent { drawn: u64, budget: u64 },
}
