//! What the search of a monitored system says of the lassos of the system itself, as contracts of
//! functions that do nothing.

ghost use Rattle.std.specs.Prelude.{◌+◌, ◌-◌, ◌*◌, ◌≤◌, ◌↔◌, ℕ, Bool, List, All};
ghost use Rattle.clause_core.specs.declared.literal.Lit.{Lit};
ghost use Rattle.clause_core.specs.Assignments.{ClauseTrue};
ghost use Rattle.clause_core.specs.Systems.{TransitionSystem, Gives, IsSystem};
ghost use Rattle.ltl_meaning.specs.Ltl.{Ltl, past_height};
ghost use Rattle.ltl_monitor.specs.FairLasso.{Violates};
ghost use Rattle.ltl_monitor.specs.States.{Extends, justice_of, IsMonitor};
ghost use Rattle.ltl_monitor.specs.Lassos.{IsLasso, IsFair, word_of};
ghost use Rattle.lasso_search.specs.Lassos.{Lasso, state, KeepsSteps, IsFairLasso, IsOwnLasso, HasNoFairLasso};
ghost use Rattle.lasso_search.specs.Unrolling.{plan_of, unrolled};
ghost use Rattle.lasso_search.specs.Unrolled.{IsCourse, course_of, CanClose};

/// A fair lasso of the monitored system is a lasso of the system that violates the formula.
pub fn found_lassos()
    ensures { (sys m : TransitionSystem) (f : Ltl) (atoms : List Lit) → IsMonitor sys f atoms m → Gives m.state_bits m.fair m.defs → (n : ℕ) (r : Lasso) → IsFairLasso m n r → (values : ℕ → ℕ → Bool) → ((i : ℕ) → Extends sys (state r i) (values i)) → IsLasso sys (state r) n r.start × Violates (justice_of sys atoms) f (word_of sys atoms values n r.start) n r.start }
{}

/// Where the monitored system has no fair lasso of a length, no lasso of the system violates the formula
/// whose stretch, by as many passes of the loop as past operators nest, has that length.
pub fn no_lassos()
    ensures { (sys m : TransitionSystem) (f : Ltl) (atoms : List Lit) → IsMonitor sys f atoms m → Gives m.state_bits m.fair m.defs → (xs values : ℕ → ℕ → Bool) (n l : ℕ) → ((i : ℕ) → Extends sys (xs i) (values i)) → IsLasso sys xs n l → HasNoFairLasso m (n + past_height f * (n - l)) → Violates (justice_of sys atoms) f (word_of sys atoms values n l) n l → ⊥ }
{}

/// The own values of a fair lasso of the monitored system are a lasso of the system, with values of all its
/// bits with which the step clauses are met.
pub fn own_lassos()
    ensures { (sys m : TransitionSystem) (f : Ltl) (atoms : List Lit) → IsMonitor sys f atoms m → Gives sys.state_bits sys.fair sys.defs → Gives m.state_bits m.fair m.defs → (n : ℕ) (r own : Lasso) → IsFairLasso m n r → IsOwnLasso sys m r own → KeepsSteps sys own × IsLasso sys (state own) n own.start }
{}

/// A fair lasso goes on round its loop, so where there is one of some length there is one of each greater length: a
/// length that has none stands for all that are less.
pub fn shorter_lassos()
    ensures { (m : TransitionSystem) (k n : ℕ) → k ≤ n → HasNoFairLasso m n → HasNoFairLasso m k }
{}

/// The clauses of an unrolling of so many steps say that the values are those of a run of so many steps, in which a
/// loop may begin and end; and with what a query for n states assumes, they can be met exactly where there is a fair
/// lasso of n states.
pub fn unrolled_lassos()
    ensures clauses { (m : TransitionSystem) (steps : ℕ) (a : ℕ → Bool) → All (ClauseTrue a) (unrolled m steps) ↔ IsCourse m steps (course_of (plan_of m) a) }
    ensures lengths { (m : TransitionSystem) (steps n : ℕ) → IsSystem m → n ≤ steps → CanClose m steps n ↔ ((xs : ℕ → ℕ → Bool) × (l : ℕ) × IsLasso m xs n l × IsFair m xs n l) }
{}
