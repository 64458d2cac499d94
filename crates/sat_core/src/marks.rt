//! Conflict analysis: resolves a conflict with the reasons of its literals, back to the first
//! unique implication point (Marques-Silva and Sakallah 1999).

ghost use Rattle.std.specs.Prelude.{◌+◌, ◌-◌, ◌⊎◌, [], ◌≡◌, ◌<◌, ◌≤◌, ℕ, IfOk, List, length, take, All, slice_index};
ghost use Rattle.sat_core.specs.Positions.{MarksAdded, level_marks, Marked, OnlyMark};
ghost use Rattle.clause_core.specs.declared.literal.Lit.{Lit};
ghost use Rattle.clause_core.specs.Propagation.{AllFalse};
ghost use Rattle.sat_prop.specs.Trails.{FalseOn, among};
ghost use Rattle.sat_core.specs.Searching.{LowListed, NoneFrom, OnlyNew, MarksFalse};

use crate::order::Order;
use clause_core::Lit;
use sat_prop::Propagator;
use std::alloc::AllocError;

// Marks the trail positions of the clause's variables, except `skip`. Lists the new ones below `floor`, where the conflict
// level begins, and returns how many new ones are at it or above.
pub fn mark(
    c: &[Lit],
    skip: usize,
    positions: &[usize],
    marks: &mut [bool],
    floor: usize,
    low: &mut Vec<usize>,
) -> Result<usize, AllocError>
    requires placed { All (λ m. (m.var < length positions.now) × (slice_index positions.now m.var < length marks.old ⊎ slice_index positions.now m.var ≡ skip)) c.now }
    requires low { LowListed marks.old floor low.old.items }
    ensures added { IfOk result (λ _. MarksAdded positions.now c.now skip marks.old marks.new) }
    ensures counted { IfOk result (λ n. level_marks marks.new floor ≡ level_marks marks.old floor + n) }
    ensures only { IfOk result (λ _. OnlyNew positions.now c.now (length c.now) skip marks.old marks.new) }
    ensures low { IfOk result (λ _. LowListed marks.new floor low.new.items) }
{
    let mut more: usize = 0;
    for x in c {
        let q = positions[x.var];
        if q != skip && !marks[q] {
            marks[q] = true;
            if q >= floor {
                more += 1;
            } else {
                low.push(q)?;
            }
        }
    }
    Ok(more)
}

// Resolves with the reason of the literal at p, the last one that is marked: its mark goes over to the other literals of
// the reason. Returns how many new marks are at the conflict level, which begins at `floor`.
fn resolve_at<P: Propagator>(
    inner: &P,
    p: usize,
    floor: usize,
    marks: &mut [bool],
    low: &mut Vec<usize>,
    order: &mut Order,
) -> Result<usize, AllocError>
    requires level { 0 < length (P.trail inner.now).level_starts.items }
    requires floor { floor ≡ slice_index (P.trail inner.now).level_starts.items (length (P.trail inner.now).level_starts.items - 1) }
    requires after { floor ≤ p }
    requires in_trail { p < length (P.trail inner.now).literals.items }
    requires marks_len { length marks.old ≡ length (P.trail inner.now).literals.items }
    requires marked { Marked marks.old p }
    requires last { NoneFrom marks.old (p + 1) }
    requires more { level_marks marks.old floor ≡ 1 → ⊥ }
    requires low { LowListed marks.old floor low.old.items }
    ensures marks { IfOk result (λ _. (c : List Lit) → MarksFalse (P.trail inner.now).literals.items (P.clauses inner.now) marks.old c → MarksFalse (P.trail inner.now).literals.items (P.clauses inner.now) marks.new c) }
    ensures last { IfOk result (λ _. NoneFrom marks.new p) }
    ensures counted { IfOk result (λ n. level_marks marks.new floor + 1 ≡ level_marks marks.old floor + n) }
    ensures low { IfOk result (λ _. LowListed marks.new floor low.new.items) }
{
    marks[p] = false;
    let trail = inner.assignment();
    let reason = trail.reasons[trail.literals[p].var];
    let c = inner.clause(reason - 1);
    order.bump_new(c, p, &trail.positions, marks);
    let more = mark(c, p, &trail.positions, marks, floor, low)?;
    Ok(more)
}

// Resolves a conflict clause with reasons until one literal of the conflict level is left, the first unique implication
// point. Returns its trail position; `low` lists the positions of the other literals.
pub fn resolve<P: Propagator>(
    inner: &P,
    start: &[Lit],
    floor: usize,
    marks: &mut [bool],
    low: &mut Vec<usize>,
    order: &mut Order,
) -> Result<usize, AllocError>
    requires false_on { FalseOn (P.trail inner.now).literals.items start.now }
    requires marks_len { length marks.old ≡ length (P.trail inner.now).literals.items }
    requires marks_none { (q : ℕ) → Marked marks.old q → ⊥ }
    requires low_none { low.old.items ≡ [] }
    requires level { 0 < length (P.trail inner.now).level_starts.items }
    requires floor { floor ≡ slice_index (P.trail inner.now).level_starts.items (length (P.trail inner.now).level_starts.items - 1) }
    requires open { AllFalse (among (take floor (P.trail inner.now).literals.items)) start.now → ⊥ }
    ensures marks { IfOk result (λ _. MarksFalse (P.trail inner.now).literals.items (P.clauses inner.now) marks.new start.now) }
    ensures only { IfOk result (λ p. OnlyMark marks.new floor p) }
    ensures in_trail { IfOk result (λ p. p < length (P.trail inner.now).literals.items) }
    ensures low { IfOk result (λ _. LowListed marks.new floor low.new.items) }
{
    let trail = inner.assignment();
    let n = trail.literals.len();
    let mut open = mark(start, n, &trail.positions, marks, floor, low)?;
    for p in (floor..n).rev() {
        if marks[p] {
            if open == 1 {
                return Ok(p);
            }
            open -= 1;
            let more = resolve_at(inner, p, floor, marks, low, order)?;
            open += more;
        }
    }
    unreachable!()
}
