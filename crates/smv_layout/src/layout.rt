//! Items and expressions over slots.

ghost use Rattle.std.specs.Prelude.{◌≡◌, List, map, IfOk};
ghost use Rattle.smv_resolve.specs.declared.node.ExprNode.{ExprNode};
ghost use Rattle.smv_resolve.specs.Items.{item_by, target_by};
ghost use Rattle.smv_resolve.specs.Resolved.{part_of, parts_of};
ghost use Rattle.smv_declared.specs.declared.variable_type.VariableType.{VariableType};
ghost use Rattle.smv_layout.specs.Layout.{laid, laid_item, laid_target, laid_value};
ghost use Rattle.smv_layout.specs.Nodes.{AreLaid};
ghost use Rattle.smv_layout.specs.Answers.{LaysItems, LaysOne};

use crate::entries::value_at;
use crate::expressions::{LaidOut, lay_out_nodes};
use smv_declared::VariableType;
use smv_resolve::{Item, Resolution, Single};
use sqlite_items::Items;
use std::alloc::{AllocError, Global};

/// The same items over slots, where the variables have these types: elements of arrays have slots of their own, an
/// index that is no constant chooses among the elements, and bounds of `F G O H` are integers (NuSMV 2.6 User Manual,
/// 2.1.6, Array Types; 2.2.3, Index Subscript Operator; 2.4.3, LTL Specifications). A number of a slot is that of a
/// variable before, and of a slot afterwards. What is no element and no bounds stays as it is written, and has no kind.
///
/// Linear in the nodes, and in the elements that indices reach which are no constants: some five nodes each.
///
/// The error is that memory was refused, which may come at any time.
pub fn lay_out_items(
    alloc: Global,
    variables: &[VariableType],
    resolution: &Resolution,
) -> Result<Resolution, AllocError>
    ensures { IfOk result (λ laid. LaysItems variables.now resolution.now laid) }
{
    let to = lay_out_nodes(alloc, variables, resolution.nodes.as_slice())?;
    let mut items = Items::new(alloc);
    for item in resolution.items.as_slice() {
        items.push(laid_item(&to, *item))?;
    }
    Ok(Resolution {
        nodes: to.nodes,
        items,
    })
}

/// The same of one expression.
pub fn lay_out_expression(
    alloc: Global,
    variables: &[VariableType],
    single: &Single,
) -> Result<Single, AllocError>
    ensures { IfOk result (λ laid. LaysOne variables.now single.now laid) }
{
    let to = lay_out_nodes(alloc, variables, single.nodes.as_slice())?;
    let root = laid_node(&to, single.root);
    Ok(Single {
        nodes: to.nodes,
        root,
    })
}

// An item over the nodes that are laid out.
fn laid_item(to: &LaidOut, item: Item) -> Item
    ensures { (vs : List VariableType) (from : List ExprNode) → AreLaid to.now.nodes to.now.entries.items (map (laid vs) (parts_of from))
        → item_by to.now.nodes result ≡ laid_item vs (item_by from item) }
{
    Item {
        at: item.at,
        kind: item.kind,
        place: item.place,
        begins: item.begins,
        target: laid_target(to, item.target),
        value: laid_node(to, item.value),
    }
}

// What it assigns.
fn laid_target(to: &LaidOut, target: Option<usize>) -> Option<usize>
    ensures { (vs : List VariableType) (from : List ExprNode) → AreLaid to.now.nodes to.now.entries.items (map (laid vs) (parts_of from))
        → target_by to.now.nodes result ≡ laid_target vs (target_by from target) }
{
    match target {
        None => None,
        Some(k) => Some(laid_node(to, k)),
    }
}

// The node of what stands for the node of this number.
fn laid_node(to: &LaidOut, k: usize) -> usize
    ensures { (vs : List VariableType) (from : List ExprNode) → AreLaid to.now.nodes to.now.entries.items (map (laid vs) (parts_of from))
        → part_of to.now.nodes result ≡ laid_value vs (part_of from k) }
{
    value_at(&to.nodes, to.entries.as_slice(), k)
}
