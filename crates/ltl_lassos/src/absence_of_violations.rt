//! What a monitored system and a counted one say of the lassos that violate a formula, as contracts of functions
//! that do nothing.

ghost use Rattle.std.specs.Prelude.{◌<◌, ◌≤◌, ℕ, Bool, List};
ghost use Rattle.clause_core.specs.declared.literal.Lit.{Lit};
ghost use Rattle.clause_core.specs.Systems.{TransitionSystem, Gives, ReachedWithin, BadBits};
ghost use Rattle.cert_core.specs.Blocks.{Block};
ghost use Rattle.cert_core.specs.Certificates.{Certifies};
ghost use Rattle.ltl_meaning.specs.Ltl.{Ltl, past_height};
ghost use Rattle.ltl_monitor.specs.States.{IsMonitor};
ghost use Rattle.ltl_monitor.specs.Counted.{IsCounted};
ghost use Rattle.ltl_lassos.specs.Violating.{NeverViolated, NeverViolatedWithin, HasNoneOf};

use cert_core::inductive_invariants::no_run_reaches_bad;

/// Where the system counted up to some bound reaches no bad state, or a certificate shows that it reaches none,
/// no lasso violates the formula (Claessen and Sörensson 2012).
pub fn counted_systems()
    ensures unreached { (sys m c : TransitionSystem) (f : Ltl) (atoms : List Lit) (k : ℕ) → IsMonitor sys f atoms m → IsCounted m k c → Gives sys.state_bits sys.fair sys.defs → Gives m.state_bits m.fair m.defs → ((j : ℕ) (x : ℕ → Bool) → ReachedWithin c j x → BadBits c x → ⊥) → NeverViolated sys f atoms }
    ensures certified { (sys m c : TransitionSystem) (f : Ltl) (atoms : List Lit) (k : ℕ) (cert : Block) → IsMonitor sys f atoms m → IsCounted m k c → Gives sys.state_bits sys.fair sys.defs → Gives m.state_bits m.fair m.defs → Certifies c cert → NeverViolated sys f atoms }
{
    no_run_reaches_bad();
}

/// Where the monitored system has no fair lasso of any length up to a bound, no lasso violates the formula
/// whose stretch, by as many passes of the loop as past operators nest, is no longer than the bound.
pub fn short_lassos()
    ensures { (sys m : TransitionSystem) (f : Ltl) (atoms : List Lit) (bound : ℕ) → IsMonitor sys f atoms m → Gives sys.state_bits sys.fair sys.defs → Gives m.state_bits m.fair m.defs → ((n : ℕ) → 0 < n → n ≤ bound → HasNoneOf m n) → NeverViolatedWithin sys f atoms (past_height f) bound }
{}
