//! Laws of texts of traces: they are read in one way, and what is printed is read back.

ghost use Rattle.std.specs.Prelude.{◌≡◌, ◌<◌, ◌≤◌, ◌-◌, ◌^◌, ℕ, length, List, Option, None, Some, map, replicate, slice_set, true};
ghost use Rattle.std.specs.List.{list_all};
ghost use Rattle.smv_tree.specs.declared.refusal.Refusal.{Refusal};
ghost use Rattle.smv_tree.specs.declared.tree.Program.{Program};
ghost use Rattle.smv_value.specs.declared.value.Value.{Value};
ghost use Rattle.smv_meaning.specs.Lassos.{IsLasso, Lasso};
ghost use Rattle.smv_meaning.specs.Runs.{IsRun};
ghost use Rattle.trace_replay.specs.declared.source.Line.{Line};
ghost use Rattle.trace_replay.specs.declared.trace.Trace.{Trace};
ghost use Rattle.trace_replay.specs.Lassos.{lasso_trace};
ghost use Rattle.trace_replay.specs.Lines.{entries_of, entry_text};
ghost use Rattle.trace_replay.specs.Reading.{Holds, IsRefusedAt, in_form, texts};
ghost use Rattle.trace_replay.specs.Rows.{AreTypes, has_form, input_columns, run_trace, state_columns, terms_of};

/// The law of texts: lines hold one list of traces at most, and are not refused where they hold one. The lines that are
/// printed of a trace hold it alone, under its specification, if its names, values and numbers are such as may stand in
/// lines.
pub fn is_read_once()
    ensures once { (specs : ℕ) (lines : List (List ℕ)) (first second : List (Option Trace)) → Holds specs lines first → Holds specs lines second → first ≡ second }
    ensures apart { (specs : ℕ) (lines : List Line) (traces : List (Option Trace)) (r : Refusal) → Holds specs (texts lines) traces → IsRefusedAt specs lines r → ⊥ }
    ensures back { (specs number : ℕ) (t : Trace) → 0 < number → number ≤ specs → list_all in_form (entries_of number t) ≡ true → Holds specs (map entry_text (entries_of number t)) (slice_set (replicate specs None) (number - 1) (Some t)) }
{}

/// The law of printed runs: each line of the trace of a run is in form, if the names of slots and symbols are such as
/// may stand in lines. So the trace of a run that breaks a specification is read back as it was printed.
pub fn is_run_readable()
    ensures { (p : Program) (number : ℕ) (states inputs : List (List Value)) → IsRun p states inputs → number < 2 ^ 64 → length states ≤ 2 ^ 64 → AreTypes p → list_all (has_form (terms_of p)) (state_columns p) ≡ true → list_all (has_form (terms_of p)) (input_columns p) ≡ true → list_all in_form (entries_of number (run_trace p states inputs)) ≡ true }
{}

/// The law of printed lassos: each line of the trace of a lasso is in form, if the names of slots and symbols are such
/// as may stand in lines. So the trace of a lasso that violates a specification is read back as it was printed.
pub fn is_lasso_readable()
    ensures { (p : Program) (number : ℕ) (w : Lasso) → IsLasso p w → number < 2 ^ 64 → length w.states ≤ 2 ^ 64 → AreTypes p → list_all (has_form (terms_of p)) (state_columns p) ≡ true → list_all (has_form (terms_of p)) (input_columns p) ≡ true → list_all in_form (entries_of number (lasso_trace p w)) ≡ true }
{}
