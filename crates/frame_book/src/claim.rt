//! Claims, and what may come of them.

use clause_core::{Bits, Clause, Lit};
use frame_core::{Clear, Proved, StateWitness, Step};
use frame_history::Subject;
use std::marker::Model;

/// A task that is out. It is spent by `settle` or `give_back` of the book that made it, and cannot be dropped.
pub struct Claim {
    pub(crate) number: usize,
    pub(crate) worker: u32,
    pub(crate) subject: Subject,
    pub(crate) level: u32,
    pub(crate) growth: usize,
    pub(crate) values: Bits,
    pub(crate) clause: Clause,
}

impl Model for Claim {
    ghost use Rattle.frame_book.specs.Claims.{ClaimView};

    ghost Value = { ClaimView };

    ghost view = { λ c. record { number = c.number; worker = c.worker; subject = c.subject; level = c.level; growth = c.growth; values = c.values; clause = c.clause } };
}

impl Claim {
    ghost use Rattle.std.specs.Prelude.{◌≡◌};

    /// The number of its entry in the history.
    pub fn number(&self) -> usize
        ensures { result ≡ self.now.number }
    {
        self.number
    }

    /// The worker that took it.
    pub fn worker(&self) -> u32
        ensures { result ≡ self.now.worker }
    {
        self.worker
    }

    /// What it asks.
    pub fn subject(&self) -> Subject
        ensures { result ≡ self.now.subject }
    {
        self.subject
    }

    /// The level at which it asks.
    pub fn level(&self) -> u32
        ensures { result ≡ self.now.level }
    {
        self.level
    }

    /// How often a lemma had been added or raised when it was made.
    pub fn growth(&self) -> usize
        ensures { result ≡ self.now.growth }
    {
        self.growth
    }

    /// Values of all bits at the obligation that is to be blocked; none for another subject.
    pub fn values(&self) -> &Bits
        ensures { result.now ≡ self.now.values }
    {
        &self.values
    }

    /// The clause of the lemma that is to be pushed; empty for another subject.
    pub fn clause(&self) -> &[Lit]
        ensures { result.now ≡ self.now.clause }
    {
        self.clause.as_slice()
    }
}

/// What came of a claim.
#[derive(Drop)]
pub enum ClaimOutcome<'a> {
    /// A clause is proved at the claim's level: one that is false in the obligation's state, or that of the
    /// lemma.
    Proved(Proved<'a>),
    /// A step leads from the frame below out of the lemma that was to be pushed.
    Step(Step<'a>),
    /// A bad state, or one of the frame below with a step to the obligation.
    Found(StateWitness<'a>),
    /// The frame of the top has no bad state.
    Clear(Clear<'a>),
    /// The purse is spent.
    Spent { drawn: u64, budget: u64 },
}

/// What the book answers to a worker that asks for a task.
pub enum Claiming {
    Task(Claim),
    /// Nothing may be claimed now, and some claim is out.
    Idle,
    /// Nothing will be claimed any more.
    Closed,
}

/// What became of a claim that was to be settled.
#[derive(Clone, Copy, PartialEq, Eq, Debug)]
pub enum Settling {
    Settled,
    /// No such claim is out here; it had this number.
    NotOut(usize),
}

/// What became of a claim that was given back.
#[derive(Clone, Copy, PartialEq, Eq, Debug)]
pub enum Returning {
    Back,
    /// No such claim is out here; it had this number.
    NotOut(usize),
}

/// A claim that could not be settled since memory ran out, and its outcome.
pub struct Unsettled<'a> {
    pub claim: Claim,
    pub outcome: ClaimOutcome<'a>,
}
