//! A beginning of the history that a thread knows, and how it is extended by one atomic step.

ghost use Rattle.std.specs.Prelude.{◌≡◌, ◌+◌, ◌++◌, ◌∷◌, ◌<◌, ◌^◌, true, [], length, MatchBool};
ghost use mathlib.Core.List.{IsPrefix};

use crate::counting_rule::{Adds, Law, Nothing};
use crate::line::{Line, Naming};
use logbook::{Offer, Seen};
use std::marker::{Model, PhantomData};

// no history is longer
const MOST: u64 = 1 << 62;

/// A beginning of the history. Contracts see it as its entries.
#[derive(Drop)]
pub struct Front<E, J: Naming> {
    count: u64,
    seen: Seen<E, u64, Law>,
    of: PhantomData<J>,
}

impl<E, J: Naming> Model for Front<E, J> {
    ghost use Rattle.std.specs.Prelude.{◌≡◌, List, length};

    ghost Value = { List E };

    ghost view = { λ f. f.seen.log };

    ghost invariant = { λ f. (f.count ≡ length f.seen.log) × (f.seen.book ≡ J.line) };
}

impl<E, J: Naming> Front<E, J> {
    // the beginning without entries
    pub(crate) fn first(seen: Seen<E, u64, Law>) -> Front<E, J>
        requires book { seen.book ≡ J.line }
        requires empty { seen.log ≡ [] }
        ensures { result ≡ [] }
    {
        Front {
            count: 0,
            seen,
            of: PhantomData,
        }
    }

    /// How many entries it has.
    pub fn len(&self) -> u64
        ensures { result ≡ length self.now }
    {
        self.count
    }

    /// A copy; takes no memory.
    pub fn again(&self) -> Front<E, J>
        ensures { result ≡ self.now }
    {
        Front {
            count: self.count,
            seen: self.seen.again(),
            of: PhantomData,
        }
    }

    /// Becomes the other beginning, if it goes at least as far; false: it does not, and all stays.
    pub fn advance(&mut self, other: &Front<E, J>) -> bool
        ensures { MatchBool result (IsPrefix self.old other.now × (self.new ≡ other.now)) (self.new ≡ self.old) }
    {
        if other.count < self.count {
            return false;
        }
        let mut both = self.seen.again();
        both.learn(&other.seen);
        *self = other.again();
        true
    }

    /// Becomes the one of the two beginnings that goes further, which the other begins.
    pub fn unite(&mut self, other: &Front<E, J>)
        ensures mine { IsPrefix self.old self.new }
        ensures other { IsPrefix other.now self.new }
    {
        let mut both = self.seen.again();
        both.learn(&other.seen);
        if self.count < other.count {
            *self = other.again();
        }
    }

    /// Adds an entry to the history behind this beginning; false: the history is longer by now, or as long as it
    /// may be. One atomic step.
    pub fn extend(&mut self, line: &Line<E, J>, entry: &E) -> bool
        ensures added { result ≡ true → self.new ≡ self.old ++ entry.now ∷ [] }
        ensures seen { IsPrefix self.old self.new }
    {
        if self.count >= MOST {
            return false;
        }
        self.exchange(line, entry)
    }

    // the step
    fn exchange(&mut self, line: &Line<E, J>, entry: &E) -> bool
        requires room { length self.old < 2 ^ 62 }
        ensures added { result ≡ true → self.new ≡ self.old ++ entry.now ∷ [] }
        ensures seen { IsPrefix self.old self.new }
    {
        let mut offer: Offer<E, u64, Law, Nothing> = self.seen.plain::<Nothing, E, Adds>(entry);
        let mut pen = self.seen.no_pen();
        let count = self.count;
        let found = line
            .head
            .compare_exchange::<Adds, Nothing>(
                count,
                count + 1,
                &mut self.seen,
                &mut offer,
                &mut pen,
            );
        self.count = if found == count { count + 1 } else { found };
        found == count
    }
}
