//! What exploring begins with.

use std::marker::Brand;

/// What exploring begins with: the systems, how far it goes, and the lemmas. Types and proofs of workers may read it.
pub trait Begun {
    ghost use Rattle.std.specs.Prelude.{List};
    ghost use Rattle.clause_core.specs.Systems.{TransitionSystem};
    ghost use Rattle.frame_core.specs.declared.parts.Lemma.{Lemma};
    ghost use Rattle.frame_history.specs.declared.entries.Limits.{Limits};

    ghost systems: { List TransitionSystem };

    ghost limits: { Limits };

    ghost carried: { List Lemma };
}

impl Begun for Brand {
    ghost use Rattle.std.specs.Prelude.{[]};

    ghost systems = { [] };

    ghost limits = { record { frames = 0 } };

    ghost carried = { [] };
}
