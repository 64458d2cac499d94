//! What dropping satisfied clauses keeps, as the contract of a function that does nothing.

ghost use Rattle.std.specs.Prelude.{◌∷◌, [], List, Contains};
ghost use Rattle.clause_core.specs.declared.literal.Lit.{Lit};
ghost use Rattle.clause_core.specs.Satisfied.{IsSatisfied, DropsSatisfied, PropagateAlike};

/// Clauses may be dropped that others satisfy without decisions, as by a unit clause (Eén and Sörensson 2003): what
/// follows by unit propagation stays the same, and so do the decisions that conflict. Where decisions do not conflict,
/// unit propagation sets the same literals; where they do, a dropped clause may set more.
pub fn satisfied_clauses_may_be_dropped()
    ensures alike { (all kept : List (List Lit)) → DropsSatisfied all kept → PropagateAlike all kept }
    ensures unit { (kept : List (List Lit)) (c : List Lit) (l : Lit) → Contains kept (l ∷ []) → Contains c l → IsSatisfied kept c }
{}
