//! The assignments of a program, and the slots that they assign.

ghost use Rattle.std.specs.Prelude.{◌≡◌, ◌<◌, ◌++◌, length, map, Some, None, IfOk, OnOk};
ghost use Rattle.smv_resolve.specs.Items.{item_by, target_by};
ghost use Rattle.smv_resolve.specs.Resolved.{part_of};
ghost use Rattle.smv_flat.specs.Assignments.{assigned_slot, assignment_in, assignments_of, target_slot};
ghost use Rattle.smv_flat.specs.Graph.{SlotFound, assigned_by, found_in};

use smv_meaning::Typed;
use smv_resolve::{ExprNode, Item, ItemKind, Naming};
use smv_tree::{AssignmentKind, Place};
use sqlite_items::at;
use std::alloc::{AllocError, Global};

/// An assignment to a slot.
#[derive(Clone, Copy, Debug)]
pub struct Assigned {
    pub slot: usize,
    pub kind: AssignmentKind,
    pub place: Place,
    /// The node of the value that is assigned.
    pub value: usize,
}

/// What a node says of the slot that it is.
#[derive(Clone, Copy, Debug)]
pub enum SlotAnswer {
    /// It is the slot of this number.
    Slot(usize),
    /// It is no slot.
    Nothing,
    /// It is what the node of this number is.
    Below(usize),
}

/// The assignments of a program, in the order of its items.
pub fn assignments_of(alloc: Global, typed: &Typed) -> Result<Vec<Assigned>, AllocError>
    ensures { IfOk result (λ all. map (assigned_by typed.now.nodes) all.items ≡ assignments_of typed.now.scope.program) }
{
    let slots = typed.slots.len();
    let nodes = typed.nodes.as_slice();
    let mut all = Vec::new(alloc);
    for item in typed.items.as_slice() {
        push_assignment(slots, nodes, *item, &mut all)?;
    }
    Ok(all)
}

// Adds the assignment that an item is, if it is one.
fn push_assignment(
    slots: usize,
    nodes: &[ExprNode],
    item: Item,
    all: &mut Vec<Assigned>,
) -> Result<(), AllocError>
    ensures { OnOk result (map (assigned_by nodes.now) all.new.items ≡ map (assigned_by nodes.now) all.old.items ++ assignment_in slots (item_by nodes.now item)) }
{
    let ItemKind::Assignment(kind) = item.kind else {
        return Ok(());
    };
    if let Some(slot) = target_slot(slots, nodes, item.target) {
        all.push(Assigned {
            slot,
            kind,
            place: item.place,
            value: item.value,
        })?;
    }
    Ok(())
}

// The slot that a target is, if it is one.
fn target_slot(slots: usize, nodes: &[ExprNode], target: Option<usize>) -> Option<usize>
    ensures { result ≡ target_slot slots (target_by nodes.now target) }
{
    match target {
        None => None,
        Some(k) => assigned_slot(slots, nodes, k),
    }
}

// The slot that a node is: itself, as what a parameter was given, or as an element.
fn assigned_slot(slots: usize, nodes: &[ExprNode], k: usize) -> Option<usize>
    ensures { result ≡ assigned_slot slots (part_of nodes.now k) }
{
    let mut here = k;
    loop {
        match find_slot(slots, nodes, here) {
            SlotAnswer::Slot(n) => return Some(n),
            SlotAnswer::Nothing => return None,
            SlotAnswer::Below(a) => here = a,
        }
    }
}

// What a node says of the slot that it is; none stands past the last.
fn find_slot(slots: usize, nodes: &[ExprNode], k: usize) -> SlotAnswer
    ensures { SlotFound slots nodes.now k result }
{
    match at(nodes, k) {
        None => SlotAnswer::Nothing,
        Some(node) => found_in(slots, k, *node),
    }
}

// What the node of number k says.
fn found_in(slots: usize, k: usize, node: ExprNode) -> SlotAnswer
    ensures { result ≡ found_in slots k node }
{
    match node {
        ExprNode::Slot(_, n) if n < slots => SlotAnswer::Slot(n),
        ExprNode::Named(_, Naming::Given | Naming::Element | Naming::Array(..), a)
        | ExprNode::Operand(a)
            if a < k => SlotAnswer::Below(a),
        _ => SlotAnswer::Nothing,
    }
}
