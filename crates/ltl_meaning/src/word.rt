//! Infinite words that end in a loop: the atoms that are true at each time.

ghost use Rattle.std.specs.Prelude.{◌<◌, length};

use sqlite_items::Items;
use std::marker::Model;

/// Which atoms are true at one time.
#[derive(Debug, Drop)]
pub struct AtomSet {
    truths: Vec<bool>,
}

impl Model for AtomSet {
    ghost use Rattle.std.specs.Prelude.{List, Bool};

    ghost Value = { List Bool };

    ghost view = { λ s. s.truths.items };
}

impl AtomSet {
    ghost use Rattle.std.specs.Prelude.{◌≡◌, false, slice_index_or};

    /// The atoms whose truth is `true`, by their numbers, which count from 0.
    pub fn new(truths: Vec<bool>) -> AtomSet
        ensures { result ≡ truths.items }
    {
        AtomSet { truths }
    }

    /// Whether an atom is true. One past the end is not.
    pub fn contains(&self, atom: usize) -> bool
        ensures { result ≡ slice_index_or self.now atom false }
    {
        atom < self.truths.len() && self.truths[atom]
    }
}

/// An infinite word: the atoms that are true at each time, where the last time is followed by the
/// one at `start`, for ever.
#[derive(Debug, Drop)]
pub struct Word {
    pub times: Items<AtomSet>,
    pub start: usize,
    pub ghost loops: { start < length times },
}

impl Word {
    ghost use Rattle.std.specs.Prelude.{◌≡◌, ◌↔◌, IsTrue};
    ghost use Rattle.ltl_meaning.specs.Lasso.{on, period};

    /// The loop's length.
    pub fn period(&self) -> usize
        ensures { result ≡ period self.now }
    {
        self.times.len() - self.start
    }

    /// Whether an atom is true at a time, however far.
    pub fn holds(&self, atom: usize, time: usize) -> bool
        ensures { IsTrue result ↔ on self.now atom time }
    {
        let len = self.times.len();
        let place = if time < len {
            time
        } else {
            self.start + (time - self.start) % (len - self.start)
        };
        self.times.as_slice()[place].contains(atom)
    }
}
