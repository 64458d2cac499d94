//! Laws of lassos: steps go on for ever, and without the step back a lasso is a run.

ghost use Rattle.std.specs.Prelude.{ℕ, ◌+◌, ◌-◌, length, take};
ghost use Rattle.smv_tree.specs.declared.tree.Program.{Program};
ghost use Rattle.smv_meaning.specs.Lassos.{Lasso, IsLasso, place_at};
ghost use Rattle.smv_meaning.specs.Runs.{IsRun, IsStep, at_time};

/// A lasso goes on for ever: at each time a step of the program leads from the state there, with the inputs there, to
/// the state at the time after. Without the step back it is a run. It does nothing: its contract is the laws.
pub fn lassos()
    ensures steps { (p : Program) (w : Lasso) → IsLasso p w → (t : ℕ) → IsStep p (at_time w.states (place_at w t)) (at_time w.inputs (place_at w t)) (at_time w.states (place_at w (t + 1))) }
    ensures run { (p : Program) (w : Lasso) → IsLasso p w → IsRun p w.states (take (length w.states - 1) w.inputs) }
{}
