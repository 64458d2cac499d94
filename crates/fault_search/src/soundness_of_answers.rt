//! What an answer says, as contracts of functions that do nothing.

ghost use Rattle.std.specs.Prelude.{List, Option};
ghost use Rattle.bit_clauses.specs.declared.deciding.Decided.{Decided};
ghost use Rattle.hinted_log.specs.Hints.{HintedLog};
ghost use Rattle.sound_check.specs.Judgements.{IsSoundBlock};
ghost use Rattle.sound_check.specs.Questions.{AreNeverMet};
ghost use Rattle.fault_search.specs.Answering.{AreFree};

/// A block of which the search says that no question can be met is sound, so that its judge accepts it; and no
/// question can be met.
pub fn what_is_free_is_sound()
    ensures sound { (questions : List (Option Decided)) (parts : List (Option HintedLog)) → AreFree questions parts → IsSoundBlock questions parts }
    ensures never { (questions : List (Option Decided)) (parts : List (Option HintedLog)) → AreFree questions parts → AreNeverMet questions }
{}
