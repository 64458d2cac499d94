//! The entries of the history of frames: claims that were made, settled with some changes, or given
//! back.

use clause_core::{Bits, Clause};
use frame_core::Parent;

/// How far a book goes.
#[derive(Clone, Copy, PartialEq, Eq, Debug)]
pub struct Limits {
    /// The greatest level at which bad states are looked at and obligations are blocked.
    pub frames: u32,
}

/// What a claim asks.
#[derive(Clone, Copy, PartialEq, Eq, Debug)]
pub enum Subject {
    /// Whether the frame of the top of this system has a bad state.
    Bad(usize),
    /// Whether the state of this obligation can be left out of a frame.
    Block(usize),
    /// Whether this lemma holds one level higher.
    Push(usize),
}

/// A claim that was made.
#[derive(Clone, Copy, PartialEq, Eq, Debug)]
pub struct Made {
    pub worker: u32,
    pub subject: Subject,
    pub level: u32,
    /// How often a lemma had been added or raised.
    pub growth: usize,
    /// Whether it is out: neither settled nor given back.
    pub out: bool,
    /// Whether it was given back, or settled by an outcome that no longer applied to the frames.
    pub void: bool,
}

/// Why an outcome does not apply to the frames as they are now.
#[derive(Drop)]
pub enum Lag {
    /// This lemma, which the proof used, has this level here, which is too low; 0 where it is no lemma.
    Parent { parent: Parent, level: u32 },
    /// The state of these values is in the frame that was asked about no more.
    State(Bits),
}

/// What a settlement changes, or finds.
#[derive(Drop)]
pub enum Change {
    /// A lemma is added, shown with these lemmas.
    Add {
        clause: Clause,
        level: u32,
        parents: Vec<Parent>,
    },
    /// A lemma is raised, shown with these lemmas.
    Raise {
        lemma: usize,
        level: u32,
        parents: Vec<Parent>,
    },
    /// This lemma holds the clause at the level already.
    Held {
        lemma: usize,
        clause: Clause,
        level: u32,
    },
    /// This lemma is retired, since another covers it.
    Retire(usize),
    /// The outcome does not apply to the frames as they are now.
    Behind(Lag),
    /// The lemma that was to be pushed needs it no more, or the top was opened since.
    Dropped,
    /// A state that leads to a bad one is an obligation.
    Note {
        system: usize,
        values: Bits,
        parent: Option<usize>,
        first: bool,
    },
    /// The top of this system is opened.
    Open(usize),
    /// A step leads from a state of this level's frame out of the lemma.
    PushFailed {
        lemma: usize,
        level: u32,
    },
    /// The limit of this system is met.
    Limit(usize),
    /// The purse was spent.
    Spent,
}

/// What stands in the history: one entry for each call that answered with a claim, a settlement or a claim
/// taken back.
#[derive(Drop)]
pub enum Entry {
    /// The worker took a task.
    Claim {
        worker: u32,
        subject: Subject,
        level: u32,
    },
    /// The worker's claim, made by the entry of this number, ended with these changes.
    Settle {
        worker: u32,
        claim: usize,
        changes: Vec<Change>,
    },
    /// The worker gave that claim back.
    Back {
        worker: u32,
        claim: usize,
    },
}
