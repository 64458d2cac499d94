//! Minimises a learned clause: drops literals that the others imply (Sörensson and Biere 2009).

ghost use Rattle.std.specs.Prelude.{◌≡◌, ◌<◌, [], IfOk, OnOk, IsTrue, length, All, slice_index};
ghost use Rattle.sat_core.specs.Positions.{OnlyMark};
ghost use Rattle.sat_core.specs.Searching.{Implied, LowListed, MarksImplied, Recovers};

use sat_prop::Propagator;
use std::alloc::{AllocError, Global};

// The greatest depth to which reasons are followed.
const DEPTH: usize = 32;

// Whether the literal at q is implied by marked ones: it stands before all decisions, or a clause forced it whose
// other literals are marked or, found in the same way, implied. What is found implied is marked.
fn is_implied<P: Propagator>(
    inner: &P,
    marks: &mut [bool],
    first: usize,
    q: usize,
    depth: usize,
) -> bool
    requires q_in { q < length (P.trail inner.now).literals.items }
    requires marks_len { length marks.old ≡ length (P.trail inner.now).literals.items }
    ensures marks { MarksImplied (P.trail inner.now) (P.clauses inner.now) first marks.old marks.new }
    ensures says { IsTrue result → Implied (P.trail inner.now) (P.clauses inner.now) marks.new first q }
{
    if q < first {
        return true;
    }
    let trail = inner.assignment();
    let reason = trail.reasons[trail.literals[q].var];
    if reason == 0 || depth == 0 {
        return false;
    }
    for x in inner.clause(reason - 1) {
        let r = trail.positions[x.var];
        if r != q && !marks[r] {
            if !is_implied(inner, marks, first, r, depth - 1) {
                return false;
            }
            marks[r] = true;
        }
    }
    true
}

// Puts the positions in `low` whose literals the others and the literal at p do not imply into an empty list.
fn push_kept<P: Propagator>(
    inner: &P,
    p: usize,
    floor: usize,
    marks: &mut [bool],
    low: &[usize],
    kept: &mut Vec<usize>,
) -> Result<(), AllocError>
    requires level { 0 < length (P.trail inner.now).level_starts.items }
    requires floor_in { floor < length (P.trail inner.now).literals.items }
    requires marks_len { length marks.old ≡ length (P.trail inner.now).literals.items }
    requires only { OnlyMark marks.old floor p }
    requires low { LowListed marks.old floor low.now }
    requires empty { kept.old.items ≡ [] }
    ensures below { OnOk result (All (λ q. q < floor) kept.new.items) }
    ensures recovers { OnOk result (Recovers (P.trail inner.now).literals.items (P.clauses inner.now) marks.old p kept.new.items) }
{
    let first = inner.assignment().level_starts[0];
    'low: for x in low {
        if !is_implied(inner, marks, first, *x, DEPTH) {
            kept.push(*x)?;
        }
    }
    Ok(())
}

// The positions in `low` whose literals the others and the literal at p do not imply (Sörensson, Biere 2009).
pub fn shorten<P: Propagator>(
    alloc: Global,
    inner: &P,
    p: usize,
    floor: usize,
    marks: &mut [bool],
    low: &[usize],
) -> Result<Vec<usize>, AllocError>
    requires level { 0 < length (P.trail inner.now).level_starts.items }
    requires floor_in { floor < length (P.trail inner.now).literals.items }
    requires marks_len { length marks.old ≡ length (P.trail inner.now).literals.items }
    requires only { OnlyMark marks.old floor p }
    requires low { LowListed marks.old floor low.now }
    ensures below { IfOk result (λ kept. All (λ q. q < floor) kept.items) }
    ensures recovers { IfOk result (λ kept. Recovers (P.trail inner.now).literals.items (P.clauses inner.now) marks.old p kept.items) }
{
    let mut kept = Vec::new(alloc);
    push_kept(inner, p, floor, marks, low, &mut kept)?;
    Ok(kept)
}
