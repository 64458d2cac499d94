//! What a sound block says, as contracts of functions that do nothing.

ghost use Rattle.std.specs.Prelude.{List, Option};
ghost use Rattle.bit_clauses.specs.declared.deciding.Decided.{Decided};
ghost use Rattle.hinted_log.specs.Hints.{HintedLog};
ghost use Rattle.sound_check.specs.Judgements.{IsSoundBlock};
ghost use Rattle.sound_check.specs.Questions.{AreNeverMet};

/// Where a block is sound, no assignment meets the clauses of any question.
pub fn what_is_sound_is_never_met()
    ensures { (questions : List (Option Decided)) (parts : List (Option HintedLog)) → IsSoundBlock questions parts → AreNeverMet questions }
{}
