//! The laws of temporal operators: excluded middle, dualities, expansions and unfoldings of bounds.

ghost use Rattle.std.specs.Prelude.{◌≡◌, ◌↔◌, ℕ, Bool, true};
ghost use Rattle.ltl_meaning.specs.Ltl.{past_height};
ghost use Rattle.ltl_meaning.specs.Temporal.{Temporal, past_depth};
ghost use Rattle.ltl_meaning.specs.Truth.{IsTrueAt, Satisfies};
ghost use Rattle.ltl_meaning.specs.Unfolded.{unfolded};
ghost use Rattle.ltl_meaning.specs.Equivalent.{IsEquivalent, IsDecided, yes, no, negation, next, finally, globally, yesterday, weak_yesterday, once, historically, conjunction, disjunction, until, releases, since, triggered};

/// At each time of each word a formula is true or false. It does nothing: its contract is the law.
pub fn excluded_middle()
    ensures { (f : Temporal) → IsDecided f }
{}

/// A negation goes inwards through each temporal operator, which becomes its dual. It does nothing:
/// its contract is the laws.
pub fn dualities()
    ensures not_next { (f : Temporal) → IsEquivalent (negation (next f)) (next (negation f)) }
    ensures not_finally { (f : Temporal) → IsEquivalent (negation (finally f)) (globally (negation f)) }
    ensures not_globally { (f : Temporal) → IsEquivalent (negation (globally f)) (finally (negation f)) }
    ensures not_until { (f g : Temporal) → IsEquivalent (negation (until f g)) (releases (negation f) (negation g)) }
    ensures not_releases { (f g : Temporal) → IsEquivalent (negation (releases f g)) (until (negation f) (negation g)) }

    ensures not_yesterday { (f : Temporal) → IsEquivalent (negation (yesterday f)) (weak_yesterday (negation f)) }
    ensures not_weak_yesterday { (f : Temporal) → IsEquivalent (negation (weak_yesterday f)) (yesterday (negation f)) }
    ensures not_once { (f : Temporal) → IsEquivalent (negation (once f)) (historically (negation f)) }
    ensures not_historically { (f : Temporal) → IsEquivalent (negation (historically f)) (once (negation f)) }
    ensures not_since { (f g : Temporal) → IsEquivalent (negation (since f g)) (triggered (negation f) (negation g)) }
    ensures not_triggered { (f g : Temporal) → IsEquivalent (negation (triggered f g)) (since (negation f) (negation g)) }
{}

/// The operators with one operand are those with two at a constant, and each of these unfolds over
/// one step of time. It does nothing: its contract is the laws.
pub fn expansions()
    ensures finally_until { (f : Temporal) → IsEquivalent (finally f) (until yes f) }
    ensures globally_releases { (f : Temporal) → IsEquivalent (globally f) (releases no f) }
    ensures once_since { (f : Temporal) → IsEquivalent (once f) (since yes f) }
    ensures historically_triggered { (f : Temporal) → IsEquivalent (historically f) (triggered no f) }

    ensures until_unfolds { (f g : Temporal) → IsEquivalent (until f g) (disjunction g (conjunction f (next (until f g)))) }
    ensures releases_unfolds { (f g : Temporal) → IsEquivalent (releases f g) (conjunction g (disjunction f (next (releases f g)))) }
    ensures since_unfolds { (f g : Temporal) → IsEquivalent (since f g) (disjunction g (conjunction f (yesterday (since f g)))) }
    ensures triggered_unfolds { (f g : Temporal) → IsEquivalent (triggered f g) (conjunction g (disjunction f (weak_yesterday (triggered f g)))) }
{}

/// An operator with bounds is one without, step by step, as often as its bounds say; past operators then
/// nest as deep as the bounds look back. It does nothing: its contract is the laws.
pub fn unfoldings()
    ensures same { (x : ℕ → ℕ → Bool) (f : Temporal) (t : ℕ) → IsTrueAt (λ a u. x u a ≡ true) f t ↔ Satisfies (λ a u. x u a ≡ true) (unfolded f) t }
    ensures depth { (f : Temporal) → past_height (unfolded f) ≡ past_depth f }
{}
