//! The search: propagate, decide, learn from each conflict and jump back, with restarts (Eén and
//! Sörensson 2003).

ghost use Rattle.std.specs.Prelude.{Bool, ◌⊎◌, [], ◌≡◌, ◌<◌, ℕ, true, IfOk, OnOk, MatchOption, List, length, take, All, Contains};
ghost use Rattle.clause_core.specs.declared.literal.Lit.{Lit};
ghost use Rattle.clause_core.specs.Literals.{Within, negate, at};
ghost use Rattle.clause_core.specs.Values.{unset};
ghost use Rattle.sat_core.specs.Positions.{Marked};
ghost use Rattle.sat_prop.specs.Trails.{FalseOn, among, AtRest};
ghost use Rattle.sat_core.specs.Queries.{IsRefutedAtOnce};
ghost use Rattle.sat_core.specs.Searching.{MarksFalse, decided, PerLevel, Level, GrowsByLearning, PaidFor, PaysInTurn, Refutes, KnowsPositives};
ghost use Rattle.sat_core.specs.Ends.{NextSays, IsSeen, OutcomeSays, HasCore};

use crate::learn::{analyze, follow};
use crate::marks::mark;
use crate::order::Order;
use crate::positives::pick;
use crate::refute::refute_or_choose;
use clause_core::{Lit, is_false, is_set};
use effort_purse::{Draw, Purse};
use sat_prop::{Propagator, Trail};
use std::alloc::{AllocError, Global};

// What the assumptions require next.
#[derive(Clone, Copy, Drop)]
pub enum Next {
    // Nothing: all assumptions are true.
    AllTrue,
    // This assumption is unset, and is to be decided.
    Decide(Lit),
    // This assumption is false.
    Fails(Lit),
}

// How far the assumptions were looked at: the first `count` of them are true, by the first `until` literals of the trail.
#[derive(Clone, Copy, Drop)]
pub struct Seen {
    pub count: usize,
    pub until: usize,
}

// How a search ends.
#[derive(Drop)]
pub enum SearchOutcome {
    // Every positive literal is set, without a conflict: a model, in which what is not set is false.
    Sat,
    // Unit propagation refutes the clauses with this part of the assumptions: a core.
    Unsat(Vec<Lit>),
    Spent { drawn: u64, budget: u64 },
}

// The first assumption that is not true, after those that were seen to be.
fn next_of(trail: &Trail, assumptions: &[Lit], seen: &mut Seen) -> Next
    requires within { Within (length trail.now.values.items) assumptions.now }
    requires seen { IsSeen trail.now.literals.items assumptions.now seen.old }
    ensures says { NextSays trail.now.literals.items assumptions.now result }
    ensures seen { IsSeen trail.now.literals.items assumptions.now seen.new }
{
    let until = trail.literals.len();
    for j in seen.count..assumptions.len() {
        let a = assumptions[j];
        if !is_set(&trail.values, a) {
            if is_false(&trail.values, a) {
                return Next::Fails(a);
            }
            return Next::Decide(a);
        }
        *seen = Seen {
            count: j + 1,
            until,
        };
    }
    Next::AllTrue
}

// What is still known of the assumptions after a backjump: all that was, or nothing.
fn still_seen(trail: &Trail, seen: Seen) -> Seen
    ensures { (before assumptions : List Lit) (n : ℕ) → trail.now.literals.items ≡ take n before → IsSeen before assumptions seen → IsSeen trail.now.literals.items assumptions result }
{
    if seen.until <= trail.literals.len() {
        seen
    } else {
        Seen { count: 0, until: 0 }
    }
}

// Resolves a clause that is false on the trail with reasons until decisions alone are left, which go to the core.
fn trace<P: Propagator>(
    inner: &P,
    start: &[Lit],
    marks: &mut [bool],
    low: &mut Vec<usize>,
    core: &mut Vec<Lit>,
) -> Result<(), AllocError>
    requires false_on { FalseOn (P.trail inner.now).literals.items start.now }
    requires marks_len { length marks.old ≡ length (P.trail inner.now).literals.items }
    requires marks_none { (q : ℕ) → Marked marks.old q → ⊥ }
    requires low_none { low.old.items ≡ [] }
    ensures marks { IfOk result (λ _. MarksFalse (P.trail inner.now).literals.items (P.clauses inner.now) marks.new start.now) }
    ensures done { IfOk result (λ _. (q : ℕ) → Marked marks.new q → Contains core.new.items (at (P.trail inner.now).literals.items q)) }
    ensures kept { IfOk result (λ _. (x : Lit) → Contains core.old.items x → Contains core.new.items x) }
    ensures parts { IfOk result (λ _. All (λ x. Contains core.old.items x ⊎ Contains (decided (P.trail inner.now).literals.items (P.trail inner.now).level_starts.items) x) core.new.items) }
{
    let trail = inner.assignment();
    let n = trail.literals.len();
    let _ = mark(start, n, &trail.positions, marks, 0, low)?;
    for p in (0..n).rev() {
        if marks[p] {
            let reasons = trail.reasons[trail.literals[p].var];
            if reasons == 0 {
                core.push(trail.literals[p])?;
            } else {
                marks[p] = false;
                let c = inner.clause(reasons - 1);
                let _ = mark(c, p, &trail.positions, marks, 0, low)?;
            }
        }
    }
    Ok(())
}

// The core for a false assumption: that one, and the assumptions whose propagation makes it false.
fn core_of<P: Propagator>(alloc: Global, inner: &P, a: Lit) -> Result<Vec<Lit>, AllocError>
    requires off { among (P.trail inner.now).literals.items (negate a) ≡ true }
    ensures refuted { IfOk result (λ core. Refutes (P.clauses inner.now) core.items) }
    ensures parts { IfOk result (λ core. All (λ l. (a ≡ l) ⊎ Contains (decided (P.trail inner.now).literals.items (P.trail inner.now).level_starts.items) l) core.items) }
{
    let n = inner.assignment().literals.len();
    let mut low = Vec::new(alloc);
    let mut marks = vec![in alloc; false; n]?;
    let mut core = Vec::new(alloc);
    core.push(a)?;
    trace(inner, &[a], &mut marks, &mut low, &mut core)?;
    Ok(core)
}

// Restarts: undoes all decisions.
pub fn restart<P: Propagator>(
    inner: &mut P,
    positives: &[bool],
    order: &mut Order,
) -> Result<(), AllocError>
    ensures clauses { P.clauses inner.new ≡ P.clauses inner.old }
    ensures level_starts { OnOk result (length (P.trail inner.new).level_starts.items ≡ 0) }
    ensures vars { length (P.trail inner.new).values.items ≡ length (P.trail inner.old).values.items }
{
    if inner.assignment().level_starts.len() > 0 {
        order.keep(inner.assignment(), 0, positives)?;
        inner.undo(0);
    }
    Ok(())
}

// After propagation without a conflict: decides an assumption or a variable, or ends the search.
pub fn choose<P: Propagator>(
    alloc: Global,
    inner: &mut P,
    positives: &[bool],
    assumptions: &[Lit],
    seen: &mut Seen,
    order: &mut Order,
) -> Result<Option<SearchOutcome>, AllocError>
    requires positives { KnowsPositives (length (P.trail inner.old).values.items) positives.now (P.clauses inner.old) }
    requires within { Within (length (P.trail inner.old).values.items) assumptions.now }
    requires seen { IsSeen (P.trail inner.old).literals.items assumptions.now seen.old }
    requires rest { AtRest (P.clauses inner.old) (P.trail inner.old).literals.items }
    requires rested { P.rested inner.old }
    requires levels { PerLevel (Level (P.clauses inner.old) assumptions.now) (P.trail inner.old).literals.items (P.trail inner.old).level_starts.items }
    ensures clauses { P.clauses inner.new ≡ P.clauses inner.old }
    ensures vars { length (P.trail inner.new).values.items ≡ length (P.trail inner.old).values.items }
    ensures levels { IfOk result (λ _. PerLevel (Level (P.clauses inner.new) assumptions.now) (P.trail inner.new).literals.items (P.trail inner.new).level_starts.items) }
    ensures seen { IfOk result (λ _. IsSeen (P.trail inner.new).literals.items assumptions.now seen.new) }
    ensures says { IfOk result (λ o. MatchOption o (unset (P.trail inner.new).values.items < unset (P.trail inner.old).values.items) (λ e. (budget : ℕ) (over : Bool) → OutcomeSays assumptions.now budget over (P.clauses inner.new) (P.trail inner.new).literals.items e)) }
{
    match next_of(inner.assignment(), assumptions, seen) {
        Next::Fails(a) => Ok(Some(SearchOutcome::Unsat(core_of(alloc, inner, a)?))),
        Next::Decide(l) => {
            inner.decide(l)?;
            Ok(None)
        }
        Next::AllTrue => match pick(order, inner.assignment(), positives) {
            None => Ok(Some(SearchOutcome::Sat)),
            Some(var) => {
                let positive = order.sign(var);
                inner.decide(Lit { var, positive })?;
                Ok(None)
            }
        },
    }
}

// Decides and propagates, learns from each conflict and jumps back. It ends when all positive literals are set, an assumption is
// false, or a conflict comes without a decision; and before any decision, where the assumptions are refuted then. A clause
// is paid for once it is known from its conflict, and before it is kept; if memory runs out, the last one may not be.
pub fn search<P: Propagator, Q: Purse>(
    alloc: Global,
    inner: &mut P,
    positives: &mut [bool],
    assumptions: &[Lit],
    purse: &mut Q,
    order: &mut Order,
) -> Result<SearchOutcome, AllocError>
    requires positives { KnowsPositives (length (P.trail inner.old).values.items) positives.old (P.clauses inner.old) }
    requires within { Within (length (P.trail inner.old).values.items) assumptions.now }
    requires ready { Q.ready purse.old }
    ensures positives { KnowsPositives (length (P.trail inner.new).values.items) positives.new (P.clauses inner.new) }
    ensures learned { GrowsByLearning (length (P.trail inner.old).values.items) assumptions.now (P.clauses inner.old) (P.clauses inner.new) }
    ensures vars { length (P.trail inner.new).values.items ≡ length (P.trail inner.old).values.items }
    ensures kept { Q.kept purse.old purse.new }
    ensures ready { Q.ready purse.new }
    ensures budget { Q.budget purse.new ≡ Q.budget purse.old }
    ensures paid { IfOk result (λ _. PaidFor (Q.tickets purse.old) (Q.tickets purse.new) (P.clauses inner.old) (P.clauses inner.new)) }
    ensures log { PaysInTurn (length (P.trail inner.old).values.items) assumptions.now (P.clauses inner.old) (P.clauses inner.new) (Q.tickets purse.old) (Q.tickets purse.new) }
    ensures says { IfOk result (OutcomeSays assumptions.now (Q.budget purse.old) (Q.spent purse.new) (P.clauses inner.new) (P.trail inner.new).literals.items) }
    ensures at_once { IsRefutedAtOnce (P.clauses inner.old) assumptions.now → (P.clauses inner.new ≡ P.clauses inner.old) × (Q.tickets purse.new ≡ Q.tickets purse.old) × IfOk result HasCore }
{
    restart(inner, positives, order)?;
    let mut seen = Seen { count: 0, until: 0 };
    'search: loop {
        match inner.propagate()? {
            Some(k) => {
                if inner.assignment().level_starts.len() == 0 {
                    return Ok(SearchOutcome::Unsat(Vec::new(alloc)));
                }
                order.bump_all(inner.clause(k));
                let learned = analyze(alloc, inner, k, order)?;
                if let Draw::Spent { drawn, budget } = purse.draw() {
                    return Ok(SearchOutcome::Spent { drawn, budget });
                }
                follow(inner, positives, order, &learned)?;
                seen = still_seen(inner.assignment(), seen);
            }
            None => {
                if let Some(e) = refute_or_choose(
                    alloc,
                    inner,
                    positives,
                    assumptions,
                    &mut seen,
                    order,
                )? {
                    return Ok(e);
                }
            }
        }
    }
}
