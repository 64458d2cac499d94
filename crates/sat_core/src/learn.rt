//! Clause learning: the clause of the first unique implication point, and the level to jump back to
//! (Marques-Silva and Sakallah 1999).

ghost use Rattle.std.specs.Prelude.{◌+◌, ◌-◌, ◌≡◌, ◌<◌, ◌≤◌, ◌^◌, [], ℕ, IfOk, OnErr, OnOk, length, take, All, slice_index, slice_index_or};
ghost use Rattle.clause_core.specs.Literals.{Within};
ghost use Rattle.clause_core.specs.Propagation.{AllFalse};
ghost use Rattle.sat_prop.specs.Trails.{among, AtRest, StartsRise};
ghost use Rattle.sat_prop.specs.Moves.{FalseClause};
ghost use Rattle.sat_core.specs.Positions.{Marked};
ghost use Rattle.sat_core.specs.Searching.{learned_clause, PlacesFalse, LearnedFrom, decided, SettledBelow, WatchBelow, PerLevel, LearnSays, KnowsPositives};

use crate::marks::resolve;
use crate::order::Order;
use crate::positives::mark_positives;
use crate::shorten::shorten;
use clause_core::Lit;
use sat_prop::{Propagator, Trail};
use std::alloc::{AllocError, Global};

// A learned clause, the decision level to jump back to, and the place of its second watch.
#[derive(Drop)]
pub struct LearnedClause {
    pub clause: Vec<Lit>,
    pub backjump_level: usize,
    pub second_watch: usize,
}

// Puts the literals of the learned clause into an empty list.
fn push_clause(
    literals: &[Lit],
    p: usize,
    low: &[usize],
    c: &mut Vec<Lit>,
) -> Result<(), AllocError>
    requires p_in { p < length literals.now }
    requires low_in { All (λ q. q < length literals.now) low.now }
    requires empty { c.old.items ≡ [] }
    ensures { OnOk result (c.new.items ≡ learned_clause literals.now p low.now) }
{
    c.push(literals[p].negated())?;
    for x in low {
        c.push(literals[*x].negated())?;
    }
    Ok(())
}

fn clause_of(
    alloc: Global,
    literals: &[Lit],
    p: usize,
    low: &[usize],
) -> Result<Vec<Lit>, AllocError>
    requires p_in { p < length literals.now }
    requires low_in { All (λ q. q < length literals.now) low.now }
    ensures { IfOk result (λ v. v.items ≡ learned_clause literals.now p low.now) }
{
    let mut c = Vec::new(alloc);
    push_clause(literals, p, low, &mut c)?;
    Ok(c)
}

// The index of the greatest trail position.
fn greatest(low: &[usize]) -> usize
    ensures low { 0 < length low.now → result < length low.now }
    ensures fits { result + 1 < 2 ^ 64 }
{
    if low.is_empty() {
        return 0;
    }
    let mut best = 0;
    for j in 1..low.len() {
        if low[j] > low[best] {
            best = j;
        }
    }
    best
}

// The number of levels that start at or before the position.
fn jump_level(level_starts: &[usize], low: &[usize], best: usize, stay: bool) -> usize
    requires some { 0 < length level_starts.now }
    requires rising { StartsRise level_starts.now }
    ensures below { result < length level_starts.now }
    ensures seen { (i : ℕ) → i < result → (best < length low.now) × (slice_index level_starts.now i ≤ slice_index low.now best) }
{
    if !stay || best >= low.len() {
        return 0;
    }
    let mut i = level_starts.len() - 1;
    while i > 0 && level_starts[i - 1] > low[best] {
        i -= 1;
    }
    i
}

// Where the literals of a learned clause stand in the trail: that of the first unique implication point, and the others.
#[derive(Drop)]
struct Places {
    point: usize,
    others: Vec<usize>,
}

// Finds the literals of the clause that is learned from conflict k, without those that the others imply. The last level begins at
// `floor`; `marks` and `low` are room to work in.
fn resolved_places<P: Propagator>(
    alloc: Global,
    inner: &P,
    k: usize,
    floor: usize,
    marks: &mut [bool],
    low: &mut Vec<usize>,
    order: &mut Order,
) -> Result<Places, AllocError>
    requires conflict { FalseClause (P.clauses inner.now) (P.trail inner.now) k }
    requires level { 0 < length (P.trail inner.now).level_starts.items }
    requires floor { floor ≡ slice_index (P.trail inner.now).level_starts.items (length (P.trail inner.now).level_starts.items - 1) }
    requires open { AllFalse (among (take floor (P.trail inner.now).literals.items)) (slice_index_or (P.clauses inner.now) k []) → ⊥ }
    requires marks_len { length marks.old ≡ length (P.trail inner.now).literals.items }
    requires marks_none { (q : ℕ) → Marked marks.old q → ⊥ }
    requires low_none { low.old.items ≡ [] }
    ensures last { IfOk result (λ x. floor ≤ x.point) }
    ensures in_trail { IfOk result (λ x. x.point < length (P.trail inner.now).literals.items) }
    ensures below { IfOk result (λ x. All (λ q. q < floor) x.others.items) }
    ensures places { IfOk result (λ x. PlacesFalse (P.trail inner.now).literals.items (P.clauses inner.now) x.point x.others.items (slice_index_or (P.clauses inner.now) k [])) }
{
    let point = resolve(inner, inner.clause(k), floor, marks, low, order)?;
    // Literals that were set first come first in the learned clause, where propagation looks first.
    low.sort_unstable();
    let others = shorten(alloc, inner, point, floor, marks, low)?;
    Ok(Places { point, others })
}

// Finds the literals of the clause that is learned from conflict k, without those that the others imply. The last level begins at
// `floor`.
fn places_of<P: Propagator>(
    alloc: Global,
    inner: &P,
    k: usize,
    floor: usize,
    order: &mut Order,
) -> Result<Places, AllocError>
    requires conflict { FalseClause (P.clauses inner.now) (P.trail inner.now) k }
    requires level { 0 < length (P.trail inner.now).level_starts.items }
    requires floor { floor ≡ slice_index (P.trail inner.now).level_starts.items (length (P.trail inner.now).level_starts.items - 1) }
    requires open { AllFalse (among (take floor (P.trail inner.now).literals.items)) (slice_index_or (P.clauses inner.now) k []) → ⊥ }
    ensures last { IfOk result (λ x. floor ≤ x.point) }
    ensures in_trail { IfOk result (λ x. x.point < length (P.trail inner.now).literals.items) }
    ensures below { IfOk result (λ x. All (λ q. q < floor) x.others.items) }
    ensures places { IfOk result (λ x. PlacesFalse (P.trail inner.now).literals.items (P.clauses inner.now) x.point x.others.items (slice_index_or (P.clauses inner.now) k [])) }
{
    let mut marks = vec![in alloc; false; inner.assignment().literals.len()]?;
    let mut low = Vec::new(alloc);
    resolved_places(alloc, inner, k, floor, &mut marks, &mut low, order)
}

// The learned clause of these places, its second watch, and the level to jump back to.
fn learned_at(
    alloc: Global,
    trail: &Trail,
    places: &Places,
    stay: bool,
) -> Result<LearnedClause, AllocError>
    requires level { 0 < length trail.now.level_starts.items }
    requires in_trail { places.now.point < length trail.now.literals.items }
    requires others_in { All (λ q. q < length trail.now.literals.items) places.now.others.items }
    ensures clause { IfOk result (λ x. x.clause.items ≡ learned_clause trail.now.literals.items places.now.point places.now.others.items) }
    ensures level_in { IfOk result (λ x. x.backjump_level < length trail.now.level_starts.items) }
    ensures seen { IfOk result (λ x. (i : ℕ) → i < x.backjump_level → (j : ℕ) × (x.second_watch ≡ j + 1) × (j < length places.now.others.items) × (slice_index trail.now.level_starts.items i ≤ slice_index places.now.others.items j)) }
{
    let clause = clause_of(alloc, &trail.literals, places.point, &places.others)?;
    let best = greatest(&places.others);
    let backjump_level = jump_level(&trail.level_starts, &places.others, best, stay);
    Ok(LearnedClause {
        clause,
        backjump_level,
        second_watch: best + 1,
    })
}

// Analyses a conflict: returns the first-UIP clause and the level to jump back to.
pub fn analyze<P: Propagator>(
    alloc: Global,
    inner: &P,
    k: usize,
    order: &mut Order,
) -> Result<LearnedClause, AllocError>
    requires conflict { FalseClause (P.clauses inner.now) (P.trail inner.now) k }
    requires level { 0 < length (P.trail inner.now).level_starts.items }
    requires rest { PerLevel (λ low _. AtRest (P.clauses inner.now) low) (P.trail inner.now).literals.items (P.trail inner.now).level_starts.items }
    ensures within { IfOk result (λ x. Within (length (P.trail inner.now).values.items) x.clause.items) }
    ensures learned { IfOk result (λ x. LearnedFrom (P.clauses inner.now) (decided (P.trail inner.now).literals.items (P.trail inner.now).level_starts.items) x.clause.items) }
    ensures level_in { IfOk result (λ x. x.backjump_level < length (P.trail inner.now).level_starts.items) }
    ensures watch { IfOk result (λ x. WatchBelow (P.trail inner.now).literals.items (P.trail inner.now).level_starts.items x.backjump_level x.clause.items x.second_watch) }
    ensures settled { IfOk result (λ x. SettledBelow (P.trail inner.now).literals.items (P.trail inner.now).level_starts.items x.backjump_level x.clause.items) }
{
    let trail = inner.assignment();
    let floor = trail.level_starts[trail.level_starts.len() - 1];
    let places = places_of(alloc, inner, k, floor, order)?;
    let learned = learned_at(alloc, trail, &places, !order.restarts())?;
    Ok(learned)
}

// Jumps back to the backjump level and adds its learned clause.
pub fn follow<P: Propagator>(
    inner: &mut P,
    positives: &mut [bool],
    order: &mut Order,
    learned: &LearnedClause,
) -> Result<(), AllocError>
    requires positives { KnowsPositives (length (P.trail inner.old).values.items) positives.old (P.clauses inner.old) }
    requires within { Within (length (P.trail inner.old).values.items) learned.now.clause.items }
    requires learned { LearnedFrom (P.clauses inner.old) (decided (P.trail inner.old).literals.items (P.trail inner.old).level_starts.items) learned.now.clause.items }
    requires level_in { learned.now.backjump_level < length (P.trail inner.old).level_starts.items }
    requires watch { WatchBelow (P.trail inner.old).literals.items (P.trail inner.old).level_starts.items learned.now.backjump_level learned.now.clause.items learned.now.second_watch }
    requires settled { SettledBelow (P.trail inner.old).literals.items (P.trail inner.old).level_starts.items learned.now.backjump_level learned.now.clause.items }
    requires rest { PerLevel (λ low _. AtRest (P.clauses inner.old) low) (P.trail inner.old).literals.items (P.trail inner.old).level_starts.items }
    ensures positives { KnowsPositives (length (P.trail inner.new).values.items) positives.new (P.clauses inner.new) }
    ensures done { OnOk result (LearnSays (length (P.trail inner.old).values.items) (P.clauses inner.old) (P.trail inner.old).literals.items (P.trail inner.old).level_starts.items (P.clauses inner.new) (P.trail inner.new).literals.items (P.trail inner.new).level_starts.items) }
    ensures failed { OnErr result (P.clauses inner.new ≡ P.clauses inner.old) }
    ensures vars { length (P.trail inner.new).values.items ≡ length (P.trail inner.old).values.items }
{
    mark_positives(&learned.clause, positives, order)?;
    order.keep(inner.assignment(), learned.backjump_level, positives)?;
    inner.undo(learned.backjump_level);
    inner.learn(&learned.clause, learned.second_watch)?;
    order.decay();
    Ok(())
}
