//! Shifts by a variable amount: one stage for each bit of the amount (barrel shifter).

ghost use Rattle.std.specs.Prelude.{◌≡◌, ◌<◌, ◌≤◌, ◌+◌, ◌-◌, ◌*◌, ◌^◌, ℕ, Bool, List, length, IfOk, replicate, take, drop, ◌++◌};
ghost use Rattle.bit_graph.specs.declared.edge.GraphNode.{GraphNode as NodeOf};
ghost use Rattle.bit_graph.specs.Meaning.{edge_value, Consistent, Stands};
ghost use Rattle.bit_graph.specs.Growth.{Extends};
ghost use Rattle.bit_arith.specs.Number.{number_of, AllStand};
ghost use Rattle.bit_arith.specs.Words.{shifted};

use crate::choices::select;
use crate::products::all_of;
use bit_graph::{Edge, Graph};
use std::alloc::{AllocError, Global};

/// `a` shifted by the number of `amount`, to the left or to the right, where `fill` comes in.
///
/// The amount may have any width and any value; from the width of `a` on, all bits are `fill`.
pub fn shift(
    alloc: Global,
    graph: &mut Graph,
    a: &[Edge],
    amount: &[Edge],
    left: bool,
    fill: Edge,
) -> Result<Vec<Edge>, AllocError>
    requires a_stand { AllStand graph.old a.now }
    requires amount_stand { AllStand graph.old amount.now }
    requires fill_stands { Stands graph.old fill }
    ensures extends { Extends graph.old graph.new }
    ensures stands { IfOk result (λ r. AllStand graph.new r.items) }
    ensures length { IfOk result (λ r. length r.items ≡ length a.now) }
    ensures value { IfOk result (λ r. (v : ℕ → Bool) → Consistent v graph.new →
        number_of v r.items ≡ shifted left (length a.now) (number_of v amount.now) (edge_value v fill) (number_of v a.now)) }
{
    let mut current = Vec::from_slice(alloc, a)?;
    let mut step = 1usize;
    'bits: for j in 0..amount.len() {
        let whole = shift_by(alloc, &current, step, left, fill)?;
        let next = select(alloc, graph, amount[j], &whole, &current)?;
        current = next;
        step = twice_below(step, a.len());
    }
    Ok(current)
}

// Twice the step as long as it is below the width: from there on each step is as good.
fn twice_below(step: usize, width: usize) -> usize
    ensures low { 2 * step ≤ width → result ≡ 2 * step }
    ensures high { width < 2 * step → width ≤ result }
    ensures bound { result ≤ 2 * step }
{
    if step <= width / 2 {
        2 * step
    } else {
        step.max(width)
    }
}

fn shift_by(
    alloc: Global,
    a: &[Edge],
    step: usize,
    left: bool,
    fill: Edge,
) -> Result<Vec<Edge>, AllocError>
    ensures length { IfOk result (λ r. length r.items ≡ length a.now) }
    ensures value { IfOk result (λ r. (v : ℕ → Bool) → number_of v r.items ≡ shifted left (length a.now) step (edge_value v fill) (number_of v a.now)) }
    ensures stands { IfOk result (λ r. (g : List NodeOf) → AllStand g a.now → Stands g fill → AllStand g r.items) }
{
    if step >= a.len() {
        let filled = all_of(alloc, fill, a)?;
        Ok(filled)
    } else if left {
        let up = shift_left_by(alloc, a, step, fill)?;
        Ok(up)
    } else {
        let down = shift_right_by(alloc, a, step, fill)?;
        Ok(down)
    }
}

fn shift_left_by(
    alloc: Global,
    a: &[Edge],
    step: usize,
    fill: Edge,
) -> Result<Vec<Edge>, AllocError>
    requires { step ≤ length a.now }
    ensures { IfOk result (λ r. r.items ≡ replicate step fill ++ take (length a.now - step) a.now) }
{
    let mut made = vec![in alloc; fill; step]?;
    made.extend_from_slice(&a[..a.len() - step])?;
    Ok(made)
}

fn shift_right_by(
    alloc: Global,
    a: &[Edge],
    step: usize,
    fill: Edge,
) -> Result<Vec<Edge>, AllocError>
    requires { step ≤ length a.now }
    ensures { IfOk result (λ r. r.items ≡ drop step a.now ++ replicate step fill) }
{
    let mut made = Vec::from_slice(alloc, &a[step..])?;
    let filled = vec![in alloc; fill; step]?;
    made.extend_from_slice(&filled)?;
    Ok(made)
}
