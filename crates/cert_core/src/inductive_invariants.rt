//! What a certificate says of the system, as contracts of functions that do nothing.

ghost use Rattle.std.specs.Prelude.{ℕ, Bool};
ghost use Rattle.clause_core.specs.Systems.{TransitionSystem, BadBits, ReachedWithin};
ghost use Rattle.cert_core.specs.Blocks.{Block};
ghost use Rattle.cert_core.specs.Certificates.{Certifies, IsInvariant};

/// The clauses of what certifies hold in each initial state, are kept by each step, and exclude bad states.
pub fn what_is_certified_is_invariant()
    ensures { (sys : TransitionSystem) (cert : Block) → Certifies sys cert → IsInvariant sys cert.clauses }
{}

/// Where a certificate certifies, no run reaches a bad state.
pub fn no_run_reaches_bad()
    ensures { (sys : TransitionSystem) (cert : Block) → Certifies sys cert → (steps : ℕ) (x : ℕ → Bool) → ReachedWithin sys steps x → BadBits sys x → ⊥ }
{}
