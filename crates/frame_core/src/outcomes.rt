//! What became of a lemma, a top or a proof obligation that was given to the frames, and their
//! verdict.

use crate::comparing::Place;

/// What became of a clause that was to be inserted.
#[derive(Clone, Copy, PartialEq, Eq, Debug)]
pub enum Insertion {
    /// It is lemma number n.
    Added(usize),
    /// Lemma n has a part of its literals and at least its level.
    Held(usize),
    /// This parent has this level here, which is too low.
    Behind { parent: usize, level: u32 },
    /// It speaks of another system, which differs first at this place.
    OtherSystem { place: Place },
}

/// What became of a lemma that was to be raised.
#[derive(Clone, Copy, PartialEq, Eq, Debug)]
pub enum Raising {
    /// It has the proof's level now.
    Raised,
    /// It is retired, or has at least the proof's level.
    Dropped,
    /// This parent has this level here, which is too low.
    Behind { parent: usize, level: u32 },
    /// The proof speaks of another system, which differs first at this place.
    OtherSystem { place: Place },
}

/// What became of a top that was to be opened.
#[derive(Clone, Copy, PartialEq, Eq, Debug)]
pub enum Opening {
    /// The top is one more.
    Opened,
    /// The proof is of another level than the top.
    Dropped,
    /// This parent has this level here, which is below the top.
    Behind { parent: usize, level: u32 },
    /// The proof speaks of another system, which differs first at this place.
    OtherSystem { place: Place },
}

/// What became of a state that leads to a bad one.
#[derive(Clone, Copy, PartialEq, Eq, Debug)]
pub enum Noting {
    /// It is obligation number n.
    Noted(usize),
    /// It is of another system, which differs first at this place.
    OtherSystem { place: Place },
}

/// What the frames say of the system.
#[derive(Clone, Copy, PartialEq, Eq, Debug)]
pub enum FramesVerdict {
    /// No live lemma has this level: the lemmas above are an inductive invariant that excludes bad states.
    Invariant(u32),
    /// This obligation is an initial state: a run leads from it to a bad one.
    Reached(usize),
}
