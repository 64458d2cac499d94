//! Laws of systems that stand for a program: they agree with it, and what they never reach no run of it does.

ghost use Rattle.std.specs.Prelude.{ℕ};
ghost use Rattle.clause_core.specs.Systems.{TransitionSystem};
ghost use Rattle.smv_tree.specs.declared.tree.Program.{Program};
ghost use Rattle.smv_resolve.specs.Items.{ResolvedItem};
ghost use Rattle.bit_system.specs.Claims.{IsUnbroken, IsUnbrokenWithin, NeverBad, NeverBadWithin};
ghost use Rattle.bit_system.specs.Standing.{AgreesWith, StandsFor};

/// A system that stands for a program and a specification has the program's initial states and steps, and as bad states
/// those in which the specification is FALSE.
pub fn what_stands_agrees()
    ensures { (p : Program) (spec : ResolvedItem) (sys : TransitionSystem) → StandsFor p spec sys → AgreesWith p spec sys }
{}

/// Where a system stands for a program and a specification and reaches no bad state, no run of the program breaks the
/// specification; and where it reaches none in n steps, no run of at most n steps does.
pub fn what_is_never_bad_is_unbroken()
    ensures all { (p : Program) (spec : ResolvedItem) (sys : TransitionSystem) → StandsFor p spec sys → NeverBad sys → IsUnbroken p spec }
    ensures within { (p : Program) (spec : ResolvedItem) (sys : TransitionSystem) (n : ℕ) → StandsFor p spec sys → NeverBadWithin sys n → IsUnbrokenWithin p spec n }
{}
