//! The laws of monitors, fair lassos and counted signals.

ghost use Rattle.std.specs.Prelude.{◌≡◌, ◌+◌, ◌-◌, ◌<◌, ◌↔◌, ℕ, Bool, List};
ghost use Rattle.clause_core.specs.declared.literal.Lit.{Lit};
ghost use Rattle.clause_core.specs.Systems.{TransitionSystem, Gives, ReachedWithin, BadBits};
ghost use Rattle.ltl_meaning.specs.Ltl.{Ltl, past_height};
ghost use Rattle.ltl_monitor.specs.FairLasso.{Sequence, Loops, Violates, HasMonitor, Signals, beside};
ghost use Rattle.ltl_monitor.specs.States.{Extends, justice_of, IsMonitor};
ghost use Rattle.ltl_monitor.specs.Lassos.{IsLasso, IsFair, word_of, HasFairLasso};
ghost use Rattle.ltl_monitor.specs.Counted.{IsCounted};
ghost use Rattle.ltl_monitor.specs.Runs.{SignalsWithin, BadWithin, IsCut, IsCutOnto};

/// A lasso violates a formula exactly where its stretch, by as many passes of the loop as past
/// operators nest, has bits that make it a fair monitored lasso. Where no monitored run along it has
/// more than `k` signals, it does not violate. It does nothing: its contract is the laws.
pub fn monitors()
    ensures exact { (f : Ltl) (justice : List ℕ) (x : Sequence) (n l : ℕ) → l < n → Loops x l (n - l) → Violates justice f x n l ↔ HasMonitor justice f x n l (past_height f) }
    ensures signals { (f : Ltl) (justice : List ℕ) (x : Sequence) (n l k : ℕ) → l < n → Loops x l (n - l) → ((b : ℕ → ℕ → Bool) (m : ℕ) → Signals justice f (beside x b) m (k + 1) → ⊥) → ¬ Violates justice f x n l }
{}

/// A lasso of a system violates a formula exactly where its stretch, by as many passes of the loop as
/// past operators nest, has bits with which it is a fair lasso of the monitored system. It does
/// nothing: its contract is the law.
pub fn monitored_lassos()
    ensures { (sys m : TransitionSystem) (f : Ltl) (atoms : List Lit) → IsMonitor sys f atoms m → Gives m.state_bits m.fair m.defs → (xs values : ℕ → ℕ → Bool) (n l : ℕ) → ((i : ℕ) → Extends sys (xs i) (values i)) → IsLasso sys xs n l → Violates (justice_of sys atoms) f (word_of sys atoms values n l) n l ↔ HasFairLasso sys m xs n l (past_height f) }
{}

/// Where for some bound no bad state of the counted system is reached, the monitored system has no
/// fair lasso. It does nothing: its contract is the law.
pub fn counted_lassos()
    ensures { (m c : TransitionSystem) (k : ℕ) → IsCounted m k c → Gives m.state_bits m.fair m.defs → ((j : ℕ) (x : ℕ → Bool) → ReachedWithin c j x → BadBits c x → ⊥) → (xs : ℕ → ℕ → Bool) (n l : ℕ) → IsLasso m xs n l → IsFair m xs n l → ⊥ }
{}

/// A monitored run of at most `n` steps has more than `k` signals exactly where a bad state of the system
/// counted up to `k` is reached in at most `n` steps. It does nothing: its contract is the law.
pub fn signal_runs()
    ensures { (sys m c : TransitionSystem) (f : Ltl) (atoms : List Lit) (k n : ℕ) → IsMonitor sys f atoms m → IsCounted m k c → Gives sys.state_bits sys.fair sys.defs → Gives m.state_bits m.fair m.defs → SignalsWithin sys f atoms n (k + 1) ↔ BadWithin c n }
{}

/// A counter up to one more has one bit more, the last; cut to the others, initial states and steps are those of the
/// counter before, and all of those (`onto`): each initial state of that counter is one of the new, and from whatever
/// state the new one is in, it has each step that the one before has. It does nothing: its contract is the law.
pub fn counters()
    ensures bits { (m c d : TransitionSystem) (k : ℕ) → IsCounted m k c → IsCounted m (k + 1) d → d.state_bits ≡ c.state_bits + 1 }
    ensures cut { (m c d : TransitionSystem) (k : ℕ) → IsCounted m k c → IsCounted m (k + 1) d → Gives m.state_bits m.fair m.defs → IsCut c d }
    ensures onto { (m c d : TransitionSystem) (k : ℕ) → IsCounted m k c → IsCounted m (k + 1) d → Gives m.state_bits m.fair m.defs → IsCutOnto c d }
{}
