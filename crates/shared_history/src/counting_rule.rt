//! The rule of the shared word: it is the number of entries, and a step adds one.

use logbook::{Gain, Plain, Play, Rule};

/// The rule: the word is the number of entries.
pub struct Law;

impl<E> Rule<E, u64> for Law {
    ghost use Rattle.std.specs.Prelude.{[]};
    ghost use base.Fml.{ftrue};
    ghost use Rattle.shared_history.specs.Rules.{IsKept};

    ghost holds = { λ cells log. IsKept cells log };

    ghost first = { [] };

    ghost hinted = { λ n log. Unit {0} };

    ghost shows = { λ log. [] };

    ghost keeps = { λ names log. ftrue };

    ghost moves = { λ ask before after answer. Unit {0} };
}

// callers gain nothing from a step
pub struct Nothing;

impl<E> Gain<E, u64> for Nothing {
    ghost use base.Fml.{ftrue};

    ghost after = { λ names about answer. ftrue };
}

// a step that adds an entry
pub struct Adds;

impl<E> Play<E, u64> for Adds {
    ghost use Rattle.shared_history.specs.Rules.{AddsOne};

    ghost then = { AddsOne };
}

// what a step asks for: the entry
impl<E> Plain<E, E, u64> for Adds {
    ghost use Rattle.std.specs.Prelude.{None};

    ghost ask = { λ entry. entry };

    ghost state = { λ entry. None };
}
