//! Steps that follow by hints are a derivation, as contracts of functions that do nothing.

ghost use Rattle.std.specs.Prelude.{ℕ, List};
ghost use Rattle.clause_core.specs.declared.literal.Lit.{Lit};
ghost use Rattle.clause_core.specs.Propagation.{Follows};
ghost use Rattle.clause_core.specs.Derivations.{EndsEmpty, Derives};
ghost use Rattle.hinted_log.specs.Hints.{HintedLog, FollowsBy, IsHinted};

/// What follows by hints follows by unit propagation.
pub fn what_follows_by_hints_follows()
    ensures { (clauses : List (List Lit)) (step : List Lit) (hints : List ℕ) → FollowsBy clauses step hints → Follows clauses step }
{}

/// Hinted steps of which the last is empty are a derivation, without their hints.
pub fn hinted_steps_derive()
    ensures { (vars : ℕ) (clauses : List (List Lit)) (log : HintedLog) → IsHinted vars clauses log → EndsEmpty log.steps → Derives vars clauses log.steps }
{}
