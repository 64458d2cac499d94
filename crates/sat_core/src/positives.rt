//! Which variables are decided: those that stand in a clause as a positive literal. Each other one may be false in a
//! model, so that it needs no value.

ghost use Rattle.std.specs.Prelude.{◌≡◌, ◌<◌, ℕ, OnOk, MatchOption, length, slice_index};
ghost use Rattle.clause_core.specs.Literals.{Within};
ghost use Rattle.sat_core.specs.Positions.{Marked};
ghost use Rattle.sat_core.specs.Searching.{MarkedSet, MarksPositives};

use crate::order::Order;
use clause_core::Lit;
use sat_prop::Trail;
use std::alloc::AllocError;

// Marks the variables of the clause's positive literals; those that were not marked yet come into the heap.
pub fn mark_positives(
    c: &[Lit],
    positives: &mut [bool],
    order: &mut Order,
) -> Result<(), AllocError>
    requires { Within (length positives.old) c.now }
    ensures kept { (v : ℕ) → Marked positives.old v → Marked positives.new v }
    ensures done { OnOk result (MarksPositives positives.new c.now) }
{
    for l in c {
        if l.positive && !positives[l.var] {
            order.insert(l.var)?;
            positives[l.var] = true;
        }
    }
    Ok(())
}

// A marked variable that is not set.
fn free_var(trail: &Trail, positives: &[bool]) -> Option<usize>
    requires { length positives.now ≡ length trail.now.values.items }
    ensures { MatchOption result (MarkedSet positives.now trail.now.literals.items) (λ v. (v < length trail.now.values.items) × ((slice_index trail.now.values.items v ≡ 1 → ⊥) × (slice_index trail.now.values.items v ≡ 2 → ⊥))) }
{
    for v in 0..trail.values.len() {
        let x = trail.values[v];
        if positives[v] && x != 1 && x != 2 {
            return Some(v);
        }
    }
    None
}

// The most active marked variable that is not set.
pub fn pick(order: &mut Order, trail: &Trail, positives: &[bool]) -> Option<usize>
    requires { length positives.now ≡ length trail.now.values.items }
    ensures { MatchOption result (MarkedSet positives.now trail.now.literals.items) (λ v. (v < length trail.now.values.items) × ((slice_index trail.now.values.items v ≡ 1 → ⊥) × (slice_index trail.now.values.items v ≡ 2 → ⊥))) }
{
    for _ in 0..trail.values.len() {
        match order.next() {
            None => break,
            Some(v) => {
                if v < trail.values.len() && positives[v] {
                    let x = trail.values[v];
                    if x != 1 && x != 2 {
                        return Some(v);
                    }
                }
            }
        }
    }
    free_var(trail, positives)
}
