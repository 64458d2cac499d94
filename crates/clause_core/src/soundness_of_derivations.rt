//! What follows by unit propagation is implied, and what derives the empty clause has no model: as contracts of
//! functions that do nothing.

ghost use Rattle.std.specs.Prelude.{ℕ, List, All, Bool};
ghost use Rattle.clause_core.specs.declared.literal.Lit.{Lit};
ghost use Rattle.clause_core.specs.Assignments.{ClauseTrue, Implies};
ghost use Rattle.clause_core.specs.Propagation.{Follows};
ghost use Rattle.clause_core.specs.Derivations.{Derives};

/// What follows by unit propagation is implied: each assignment that makes the clauses true makes the
/// clause true that follows from them.
pub fn what_follows_is_implied()
    ensures { (clauses : List (List Lit)) (clause : List Lit) → Follows clauses clause → Implies clauses clause }
{}

/// No assignment makes clauses true that derive the empty clause.
pub fn what_derives_the_empty_clause_has_no_model()
    ensures { (vars : ℕ) (clauses log : List (List Lit)) → Derives vars clauses log → (a : ℕ → Bool) → All (ClauseTrue a) clauses → ⊥ }
{}
