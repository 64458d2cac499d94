//! The variables that are assigned, and their types.

ghost use Rattle.std.specs.Prelude.{◌≡◌, List, map, option_and_then, slice_get, IfOk};
ghost use Rattle.std.specs.Option.{option_copied};
ghost use Rattle.smv_resolve.specs.declared.node.ExprNode.{ExprNode};
ghost use Rattle.smv_resolve.specs.Items.{target_by};
ghost use Rattle.smv_resolve.specs.Resolved.{parts_of};
ghost use Rattle.smv_meaning.specs.Faults.{slot_assigned, type_assigned};
ghost use Rattle.smv_meaning.specs.Tables.{slot_at, slot_by_node};

use smv_resolve::ExprNode;
use sqlite_items::at;
use std::alloc::{AllocError, Global};
use value_types::ValueType;

/// The slot that each node is, itself or as what a name stands for. The only error is running out of memory.
pub fn slots_assigned(alloc: Global, nodes: &[ExprNode]) -> Result<Vec<Option<usize>>, AllocError>
    ensures { IfOk result (λ slots. slots.items ≡ map slot_assigned (parts_of nodes.now)) }
{
    let mut made = Vec::new(alloc);
    for node in nodes {
        let slot = slot_by_node(made.as_slice(), node);
        made.push(slot)?;
    }
    Ok(made)
}

// The slot that a node is, where these are those that the nodes before it are.
fn slot_by_node(slots: &[Option<usize>], node: &ExprNode) -> Option<usize>
    ensures { result ≡ slot_by_node slots.now node.now }
{
    match *node {
        ExprNode::Slot(_, n) => Some(n),
        ExprNode::Named(_, _, a) => slot_at(slots, a),
        ExprNode::Operand(a) => slot_at(slots, a),
        ExprNode::Constant(..) => None,
        ExprNode::Whole(..) => None,
        ExprNode::Next(..) => None,
        ExprNode::Apply(..) => None,
        ExprNode::Link(..) => None,
    }
}

fn slot_at(slots: &[Option<usize>], k: usize) -> Option<usize>
    ensures { result ≡ slot_at slots.now k }
{
    match slots.get(k) {
        None => None,
        Some(slot) => *slot,
    }
}

/// The type of the variable that is assigned, if one is, where these are the types of all slots and the slots that the
/// nodes are.
pub fn type_assigned<'a>(
    types: &'a [ValueType],
    slots: &[Option<usize>],
    target: Option<usize>,
) -> Option<&'a ValueType>
    ensures { (nodes : List ExprNode) → slots.now ≡ map slot_assigned (parts_of nodes) → option_copied result ≡ type_assigned types.now (target_by nodes target) }
{
    match target {
        None => None,
        Some(k) => type_of_slot(types, slot_at(slots, k)),
    }
}

fn type_of_slot(types: &[ValueType], slot: Option<usize>) -> Option<&ValueType>
    ensures { option_copied result ≡ option_and_then (slice_get types.now) slot }
{
    match slot {
        None => None,
        Some(n) => at(types, n),
    }
}
