//! What is shown holds.

ghost use Rattle.std.specs.Prelude.{◌≡◌, ℕ, Bool, List, Option, Some, slice_get, true};
ghost use Rattle.clause_core.specs.Systems.{TransitionSystem};
ghost use Rattle.hinted_log.specs.Hints.{HintedLog};
ghost use Rattle.cert_core.specs.declared.form.Part.{Part};
ghost use Rattle.cert_core.specs.Blocks.{Block};
ghost use Rattle.cert_check.specs.Judgements.{FailsFirst};
ghost use Rattle.smv_tree.specs.declared.tree.Program.{Program};
ghost use Rattle.smv_resolve.specs.Items.{ResolvedItem};
ghost use Rattle.smv_meaning.specs.Faults.{IsFaultFree};
ghost use Rattle.smv_meaning.specs.Runs.{specifications_of};
ghost use Rattle.bit_clauses.specs.declared.deciding.Decided.{Decided};
ghost use Rattle.bit_faults.specs.Questions.{AreFaultQuestions};
ghost use Rattle.sound_check.specs.Judgements.{FailsFirst as FailsFirstItem};
ghost use Rattle.bit_system.specs.Standing.{StandsFor};
ghost use Rattle.smv_recheck.specs.declared.checking.Checked.{Checked};
ghost use Rattle.smv_recheck.specs.declared.judgement.Record.{Record};
ghost use Rattle.smv_recheck.specs.Checking.{IsChecked, is_shown_false, is_shown_true};
ghost use Rattle.smv_recheck.specs.Claims.{IsRefuted, IsUpheld};
ghost use Rattle.smv_recheck.specs.Full.{HasFault, HasReason, IsFullItem, IsFullPart};

use bit_faults::what_is_never_met;
use bit_lassos::what_is_never_violated;
use bit_system::what_is_never_bad_is_unbroken;
use cert_core::inductive_invariants::no_run_reaches_bad;
use ltl_lassos::absence_of_violations::counted_systems;
use sound_check::soundness_of_blocks::what_is_sound_is_never_met;

/// What is said of a text holds, from the text alone. Where something is shown true, no item of the model faults in any state or step; no
/// run breaks an invariant that is shown true, and no fair lasso violates a temporal formula that is. Some run breaks an invariant that is
/// shown false, and some fair lasso violates a temporal formula that is. Nothing faults that is asked along these. It does nothing.
pub fn what_is_shown_holds()
    ensures fault_free { (p : Program) (text : List ℕ) (upgrade : Bool) (c : Checked) (j : ℕ) (r : Record) → IsChecked p text upgrade c
        → slice_get c.records j ≡ Some r → is_shown_true r.judgement ≡ true → IsFaultFree p }
    ensures shown_true { (p : Program) (text : List ℕ) (upgrade : Bool) (c : Checked) (j : ℕ) (spec : ResolvedItem) (r : Record) → IsChecked p text upgrade c
        → slice_get (specifications_of p) j ≡ Some spec → slice_get c.records j ≡ Some r → is_shown_true r.judgement ≡ true → IsUpheld spec.kind p spec }
    ensures shown_false { (p : Program) (text : List ℕ) (upgrade : Bool) (c : Checked) (j : ℕ) (spec : ResolvedItem) (r : Record) → IsChecked p text upgrade c
        → slice_get (specifications_of p) j ≡ Some spec → slice_get c.records j ≡ Some r → is_shown_false r.judgement ≡ true → IsRefuted spec.kind p spec }
{
    what_is_sound_is_never_met();
    what_is_never_met();
    no_run_reaches_bad();
    what_is_never_bad_is_unbroken();
    counted_systems();
    what_is_never_violated();
}

/// A part of a certificate in the plain form that is full is rejected for a reason of the program alone: some step of it sets the bits to
/// a first state, to a step, or to a state in which the specification is FALSE. So what numbers a version of the program gives to other
/// bits does not matter. It does nothing.
pub fn full_parts_are_rejected_for_a_reason()
    ensures { (p : Program) (spec : ResolvedItem) (sys : TransitionSystem) (cert : Block) (part : Part) (log : HintedLog) (full : IsFullPart p cert part log)
        → StandsFor p spec sys → FailsFirst sys cert part → HasReason p spec cert part log full }
{}

/// A part of an item in the sound block that is full is rejected for a reason of the program alone: some step of it sets the bits to
/// values at which the item faults. It does nothing.
pub fn full_items_are_rejected_for_a_reason()
    ensures { (p : Program) (questions : List (Option Decided)) (parts : List (Option HintedLog)) (item : ℕ) (log : HintedLog) (full : IsFullItem p parts item log)
        → AreFaultQuestions p questions → FailsFirstItem questions parts item → HasFault p parts item log full }
{}
