//! What refutes a query before any decision: unit propagation alone, or two assumptions that are opposite.

ghost use Rattle.std.specs.Prelude.{◌≡◌, ◌<◌, ◌≤◌, ℕ, Bool, All, Contains, IfOk, OnOk, MatchOption, length, true, false};
ghost use Rattle.clause_core.specs.Literals.{Within, negate};
ghost use Rattle.clause_core.specs.Values.{unset};
ghost use Rattle.sat_prop.specs.Trails.{among, AtRest};
ghost use Rattle.sat_core.specs.Queries.{IsRefutedAtOnce};
ghost use Rattle.sat_core.specs.Searching.{PerLevel, Level, Refutes, KnowsPositives};
ghost use Rattle.sat_core.specs.Ends.{IsSeen, OutcomeSays, HasCore, NoneOpposed, RefutesOnTrail};

use crate::order::Order;
use crate::search::{SearchOutcome, Seen, choose};
use clause_core::{Lit, is_false};
use sat_prop::{Propagator, Trail};
use std::alloc::{AllocError, Global};

// An assumption that is false on the trail.
fn false_assumption(trail: &Trail, assumptions: &[Lit]) -> Option<Lit>
    requires within { Within (length trail.now.values.items) assumptions.now }
    ensures { MatchOption result (All (λ a. among trail.now.literals.items (negate a) ≡ false) assumptions.now) (λ a. Contains assumptions.now a × (among trail.now.literals.items (negate a) ≡ true)) }
{
    for j in 0..assumptions.len() {
        let a = assumptions[j];
        if is_false(&trail.values, a) {
            return Some(a);
        }
    }
    None
}

// Makes the list so long at least; what it had may be lost.
fn lengthen(alloc: Global, numbers: &mut Vec<usize>, n: usize) -> Result<(), AllocError>
    ensures { OnOk result (n ≤ length numbers.new.items) }
{
    if numbers.len() < n {
        *numbers = vec![in alloc; 0; n]?;
    }
    Ok(())
}

// An assumption whose negation is one too. `numbers` has for each variable the number of an assumption with that
// variable, if there was one; what it has at first does not matter (Briggs and Torczon 1993).
fn opposed(assumptions: &[Lit], numbers: &mut [usize]) -> Option<Lit>
    requires within { Within (length numbers.old) assumptions.now }
    ensures { MatchOption result (NoneOpposed assumptions.now) (λ a. Contains assumptions.now a × Contains assumptions.now (negate a)) }
{
    for j in 0..assumptions.len() {
        let a = assumptions[j];
        let k = numbers[a.var];
        if k < j && assumptions[k].var == a.var {
            if assumptions[k].positive != a.positive {
                return Some(a);
            }
        } else {
            numbers[a.var] = j;
        }
    }
    None
}

// A core of one assumption that is false on the trail, or of two that are opposite.
fn core_at_once(
    alloc: Global,
    trail: &Trail,
    assumptions: &[Lit],
    numbers: &mut Vec<usize>,
) -> Result<Option<Vec<Lit>>, AllocError>
    requires within { Within (length trail.now.values.items) assumptions.now }
    ensures { IfOk result (λ o. MatchOption o (All (λ a. among trail.now.literals.items (negate a) ≡ false) assumptions.now × NoneOpposed assumptions.now) (λ core. All (Contains assumptions.now) core.items × RefutesOnTrail trail.now.literals.items core.items)) }
{
    if assumptions.len() == 0 {
        return Ok(None);
    }
    if let Some(a) = false_assumption(trail, assumptions) {
        let core = vec![in alloc; a]?;
        return Ok(Some(core));
    }
    lengthen(alloc, numbers, trail.values.len())?;
    match opposed(assumptions, numbers) {
        None => Ok(None),
        Some(a) => {
            let core = vec![in alloc; a, a.negated()]?;
            Ok(Some(core))
        }
    }
}

// A core of the assumptions, if no decision stands and none is needed to refute them. Takes time linear in the assumptions.
fn core_before_decisions<P: Propagator>(
    alloc: Global,
    inner: &P,
    assumptions: &[Lit],
    numbers: &mut Vec<usize>,
) -> Result<Option<Vec<Lit>>, AllocError>
    requires within { Within (length (P.trail inner.now).values.items) assumptions.now }
    requires rest { AtRest (P.clauses inner.now) (P.trail inner.now).literals.items }
    ensures { IfOk result (λ o. MatchOption o (length (P.trail inner.now).level_starts.items ≡ 0 → IsRefutedAtOnce (P.clauses inner.now) assumptions.now → ⊥) (λ core. All (Contains assumptions.now) core.items × Refutes (P.clauses inner.now) core.items)) }
{
    let trail = inner.assignment();
    if trail.level_starts.len() == 0 {
        core_at_once(alloc, trail, assumptions, numbers)
    } else {
        Ok(None)
    }
}

// After propagation without a conflict: ends the search where the assumptions are refuted before any decision, and else
// chooses.
pub fn refute_or_choose<P: Propagator>(
    alloc: Global,
    inner: &mut P,
    positives: &[bool],
    assumptions: &[Lit],
    seen: &mut Seen,
    order: &mut Order,
) -> Result<Option<SearchOutcome>, AllocError>
    requires positives { KnowsPositives (length (P.trail inner.old).values.items) positives.now (P.clauses inner.old) }
    requires within { Within (length (P.trail inner.old).values.items) assumptions.now }
    requires seen { IsSeen (P.trail inner.old).literals.items assumptions.now seen.old }
    requires rest { AtRest (P.clauses inner.old) (P.trail inner.old).literals.items }
    requires rested { P.rested inner.old }
    requires levels { PerLevel (Level (P.clauses inner.old) assumptions.now) (P.trail inner.old).literals.items (P.trail inner.old).level_starts.items }
    ensures clauses { P.clauses inner.new ≡ P.clauses inner.old }
    ensures vars { length (P.trail inner.new).values.items ≡ length (P.trail inner.old).values.items }
    ensures levels { IfOk result (λ _. PerLevel (Level (P.clauses inner.new) assumptions.now) (P.trail inner.new).literals.items (P.trail inner.new).level_starts.items) }
    ensures seen { IfOk result (λ _. IsSeen (P.trail inner.new).literals.items assumptions.now seen.new) }
    ensures says { IfOk result (λ o. MatchOption o (unset (P.trail inner.new).values.items < unset (P.trail inner.old).values.items) (λ e. (budget : ℕ) (over : Bool) → OutcomeSays assumptions.now budget over (P.clauses inner.new) (P.trail inner.new).literals.items e)) }
    ensures at_once { IfOk result (λ o. length (P.trail inner.old).level_starts.items ≡ 0 → IsRefutedAtOnce (P.clauses inner.old) assumptions.now → MatchOption o ⊥ HasCore) }
{
    match core_before_decisions(alloc, inner, assumptions, &mut order.numbers)? {
        Some(core) => Ok(Some(SearchOutcome::Unsat(core))),
        None => choose(alloc, inner, positives, assumptions, seen, order),
    }
}
