//! Which slots occur in an expression: the nodes that it reads are marked, and each is looked at once.

ghost use Rattle.std.specs.Prelude.{◌≡◌, false, true, length, IfOk};
ghost use Rattle.smv_resolve.specs.Resolved.{part_of};
ghost use Rattle.fault_texts.specs.Marks.{Finds, TellsSlots, number_sought, slot_of, under_next};

use crate::marks::{mark_one, spread};
use smv_resolve::ExprNode;
use std::alloc::{AllocError, Global};

/// Of each slot whether it occurs in an expression: outside of `next`, or under it.
#[derive(Drop)]
pub struct Occurrences {
    pub now: Vec<bool>,
    pub next: Vec<bool>,
}

/// What is looked for of marked nodes.
#[derive(Clone, Copy)]
pub enum Sought {
    /// The slots that they are.
    Slot,
    /// What stands under their `next`.
    Under,
}

/// Of each of so many slots whether it occurs in the node of this number. Each node is looked at three times at most.
pub fn occurring(
    alloc: Global,
    nodes: &[ExprNode],
    root: usize,
    slots: usize,
) -> Result<Occurrences, AllocError>
    ensures now { IfOk result (λ r. TellsSlots false (part_of nodes.now root) slots r.now.items) }
    ensures next { IfOk result (λ r. TellsSlots true (part_of nodes.now root) slots r.next.items) }
{
    let mut here = vec![in alloc; false; nodes.len()]?;
    mark_one(&mut here, nodes.len(), root);
    spread(nodes, &mut here);
    let now = found(alloc, nodes, &here, Sought::Slot, slots)?;
    let mut under = found(alloc, nodes, &here, Sought::Under, nodes.len())?;
    spread(nodes, &mut under);
    let next = found(alloc, nodes, &under, Sought::Slot, slots)?;
    Ok(Occurrences { now, next })
}

// Marks the numbers below `size` that marked nodes have.
fn found(
    alloc: Global,
    nodes: &[ExprNode],
    marks: &[bool],
    what: Sought,
    size: usize,
) -> Result<Vec<bool>, AllocError>
    requires long { length marks.now ≡ length nodes.now }
    ensures { IfOk result (λ r. Finds nodes.now marks.now what size r.items) }
{
    let mut found = vec![in alloc; false; size]?;
    'nodes: for k in 0..nodes.len() {
        if marks[k] {
            if let Some(n) = number_sought(what, k, nodes[k]) {
                mark_one(&mut found, size, n);
            }
        }
    }
    Ok(found)
}

fn number_sought(what: Sought, k: usize, node: ExprNode) -> Option<usize>
    ensures { result ≡ number_sought what k node }
{
    match what {
        Sought::Slot => slot_of(node),
        Sought::Under => under_next(k, node),
    }
}

// The slot that the node is, if it is one.
fn slot_of(node: ExprNode) -> Option<usize>
    ensures { result ≡ slot_of node }
{
    match node {
        ExprNode::Slot(_, n) => Some(n),
        ExprNode::Constant(..) => None,
        ExprNode::Whole(..) => None,
        ExprNode::Named(..) => None,
        ExprNode::Next(..) => None,
        ExprNode::Operand(_) => None,
        ExprNode::Apply(..) => None,
        ExprNode::Link(..) => None,
    }
}

// The node under the `next` that the node of number k is, if it is one.
fn under_next(k: usize, node: ExprNode) -> Option<usize>
    ensures { result ≡ under_next k node }
{
    match node {
        ExprNode::Next(_, a) => if a < k { Some(a) } else { None },
        ExprNode::Constant(..) => None,
        ExprNode::Slot(..) => None,
        ExprNode::Whole(..) => None,
        ExprNode::Named(..) => None,
        ExprNode::Operand(_) => None,
        ExprNode::Apply(..) => None,
        ExprNode::Link(..) => None,
    }
}
