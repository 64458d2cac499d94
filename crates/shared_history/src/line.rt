//! A history without entries, the name that it gets, and the shared word that counts its entries.

ghost use Rattle.std.specs.Prelude.{◌≡◌, []};
ghost use Rattle.shared_history.specs.Rules.{head_of};

use crate::counting_rule::Law;
use crate::front::Front;
use logbook::{Seen, Start, Word};
use std::marker::{Brand, PhantomData};

/// Which history it is. Each call of a program picks it.
pub trait Naming {
    ghost use Rattle.logbook.specs.Pages.{Book};

    ghost line: { Book };
}

impl Naming for Brand {
    ghost line = { record { number = 0; log_name = 0; cells_name = 0 } };
}

/// A history without entries, which has no name yet.
pub struct Opened<E> {
    head: Word<E, u64, Law>,
    seen: Seen<E, u64, Law>,
    pub ghost empty: { seen.log ≡ [] },
    pub ghost head_is: { head ≡ head_of seen.book },
}

impl<E> Opened<E> {
    /// A history without entries; takes no memory.
    pub fn new() -> Opened<E> {
        let (seen, mut first, _second) = Seen::open(Start::alone(), 0, 0);
        Opened {
            head: Word::tracked(0, &mut first),
            seen,
        }
    }

    /// The history under a name, and the beginning that has no entry.
    pub fn named<J: Naming>(self) -> (Line<E, J>, Front<E, J>)
        requires { self.seen.book ≡ J.line }
        ensures { result.1 ≡ [] }
    {
        let Opened { head, seen } = self;
        let line = Line {
            head,
            of: PhantomData,
        };
        (line, Front::first(seen))
    }
}

/// The word that all threads share: the number of entries.
#[derive(Drop)]
pub struct Line<E, J: Naming> {
    pub(crate) head: Word<E, u64, Law>,
    of: PhantomData<J>,
    pub ghost head_is: { head ≡ head_of J.line },
}
