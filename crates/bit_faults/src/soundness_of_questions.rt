//! The laws of questions of faults.

ghost use Rattle.std.specs.Prelude.{◌≡◌, ◌<◌, ℕ, Bool, true, List, Option, Some, All, slice_get};
ghost use Rattle.clause_core.specs.Assignments.{ClauseTrue};
ghost use Rattle.bit_clauses.specs.declared.deciding.Decided.{Decided};
ghost use Rattle.smv_tree.specs.declared.tree.Program.{Program};
ghost use Rattle.smv_resolve.specs.Items.{ResolvedItem};
ghost use Rattle.smv_meaning.specs.Faults.{IsFaultFree};
ghost use Rattle.bit_states.specs.Layouts.{HasTypes};
ghost use Rattle.bit_faults.specs.Mending.{mended};
ghost use Rattle.bit_faults.specs.Questions.{AreFaultQuestions, CanNeverBeMet, IsFaultQuestion, NeverFaults, faults_at, judged_items};

/// Where no question can be met, no item faults at any valuation of the declared types. If none of the first so many
/// can be met, none of the first so many items faults. It does nothing: its contract is the law.
pub fn what_is_never_met()
    ensures all { (p : Program) (qs : List (Option Decided)) → HasTypes p → AreFaultQuestions p qs →
        ((j : ℕ) (c : Decided) → slice_get qs j ≡ Some (Some c) → CanNeverBeMet c.clauses) → IsFaultFree p }
    ensures before { (p : Program) (qs : List (Option Decided)) (n : ℕ) → HasTypes p → AreFaultQuestions p qs →
        ((j : ℕ) (c : Decided) → j < n → slice_get qs j ≡ Some (Some c) → CanNeverBeMet c.clauses) →
        (j : ℕ) (x : ResolvedItem) → j < n → slice_get (judged_items p) j ≡ Some x → NeverFaults p x }
{}

/// Where an assignment meets a question, the item faults at the mended bits. It does nothing: its contract is the law.
pub fn what_is_met()
    ensures { (p : Program) (x : ResolvedItem) (c : Decided) (a : ℕ → Bool) → IsFaultQuestion p x (Some c) → All (ClauseTrue a) c.clauses → faults_at p x (mended p a) ≡ true }
{}
