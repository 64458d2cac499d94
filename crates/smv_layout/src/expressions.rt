//! Lists of nodes, laid out node for node.

ghost use Rattle.std.specs.Prelude.{◌≡◌, [], ◌∷◌, List, None, map, slice_get, slice_index_or, IfOk, OnOk};
ghost use Rattle.std.specs.List.{All};
ghost use Rattle.smv_resolve.specs.declared.node.Naming.TheVariants as given;
ghost use Rattle.smv_resolve.specs.Resolved.{Resolved, parts_of, resolved_by};
ghost use Rattle.smv_resolve.specs.Finding.{Grows};
ghost use Rattle.smv_layout.specs.declared.laid.LaidNode.TheVariants.{Array as LaidArray};
ghost use Rattle.smv_layout.specs.Layout.{Laid, applied, array_given, array_of, laid, named, slot_laid, subscript_given};
ghost use Rattle.smv_layout.specs.Nodes.{AreLaid, AreSubscripts, IsLaid, Knows, Stands, SubscriptsStand, laid_at, laid_by, subarray_by, subscript_by};
ghost use Rattle.smv_layout.specs.Sizes.{first_slots};

use crate::entries::{copy_at, push_value, value_at};
use crate::indices::{index_at, indices_of};
use crate::laid::{LaidNode, SubarrayNode, SubscriptNode};
use crate::nodes::push;
use crate::operators::{apply, bounds_in};
use crate::sizes::{first_at, first_slots};
use smv_declared::{Constant, VariableType, constants_of};
use smv_resolve::{ExprNode, Naming, first, last};
use smv_tree::Place;
use smv_value::Operator;
use sqlite_items::{Items, at};
use std::alloc::{AllocError, Global};

/// Nodes that are laid out, and what stands for each node of the list from which they come.
#[derive(Drop)]
pub struct LaidOut {
    pub nodes: Items<ExprNode>,
    pub entries: Vec<LaidNode>,
}

/// Nodes over variables of these types, laid out.
pub fn lay_out_nodes(
    alloc: Global,
    variables: &[VariableType],
    from: &[ExprNode],
) -> Result<LaidOut, AllocError>
    ensures { IfOk result (λ to. AreLaid to.nodes to.entries.items (map (laid variables.now) (parts_of from.now))) }
{
    let firsts = first_slots(alloc, variables)?;
    let constants = constants_of(alloc, from)?;
    let indices = indices_of(alloc, from)?;
    let mut nodes = Items::new(alloc);
    let mut entries = Vec::new(alloc);
    for (i, node) in from.iter().enumerate() {
        let entry = lay_out_node(
            alloc,
            variables,
            firsts.as_slice(),
            first(constants.as_slice(), i),
            first(indices.as_slice(), i),
            &mut nodes,
            entries.as_slice(),
            *node,
        )?;
        entries.push(entry)?;
    }
    Ok(LaidOut { nodes, entries })
}

// A node, over what stands for the nodes before it.
fn lay_out_node(
    alloc: Global,
    variables: &[VariableType],
    firsts: &[usize],
    constants: &[Constant],
    indices: &[Option<i64>],
    nodes: &mut Items<ExprNode>,
    entries: &[LaidNode],
    node: ExprNode,
) -> Result<LaidNode, AllocError>
    requires firsts { firsts.now ≡ first_slots variables.now }
    requires stand { All (Stands nodes.old) entries.now }
    ensures grows { OnOk result (Grows nodes.old nodes.new) }
    ensures laid { IfOk result (λ x. (parts : List Resolved) → Knows constants.now indices.now parts
        → map (laid_by nodes.old) entries.now ≡ map (laid variables.now) parts → IsLaid nodes.new x (laid variables.now (resolved_by parts node))) }
{
    match node {
        ExprNode::Constant(..) | ExprNode::Whole(..) => push_value(nodes, node),
        ExprNode::Slot(place, n) => lay_out_variable(alloc, variables, firsts, nodes, place, n),
        ExprNode::Named(place, naming, a) => lay_out_name(alloc, nodes, entries, place, naming, a),
        ExprNode::Next(place, a) => {
            let inner = value_at(nodes, entries, a);
            push_value(nodes, ExprNode::Next(place, inner))
        }
        ExprNode::Operand(a) => copy_at(alloc, nodes, entries, a),
        ExprNode::Apply(place, operator, count) => apply(
            alloc,
            variables,
            firsts,
            nodes,
            place,
            operator,
            bounds_in(last(constants, count)),
            last(indices, count),
            last(entries, count),
        ),
        ExprNode::Link(place, operator, a, b) => {
            link(
                alloc, variables, firsts, indices, nodes, entries, place, operator, a, b,
            )
        }
    }
}

// A link of a chain, over two nodes.
fn link(
    alloc: Global,
    variables: &[VariableType],
    firsts: &[usize],
    indices: &[Option<i64>],
    nodes: &mut Items<ExprNode>,
    entries: &[LaidNode],
    place: Place,
    operator: Operator,
    a: usize,
    b: usize,
) -> Result<LaidNode, AllocError>
    requires firsts { firsts.now ≡ first_slots variables.now }
    requires stand { All (Stands nodes.old) entries.now }
    ensures grows { OnOk result (Grows nodes.old nodes.new) }
    ensures laid { IfOk result (λ x. IsLaid nodes.new x (applied variables.now place operator
        None (slice_index_or indices.now a None ∷ slice_index_or indices.now b None ∷ [])
        (laid_at nodes.old entries.now a ∷ laid_at nodes.old entries.now b ∷ []))) }
{
    let left = copy_at(alloc, nodes, entries, a)?;
    let right = copy_at(alloc, nodes, entries, b)?;
    let indices = [index_at(indices, a), index_at(indices, b)];
    let operands = [left, right];
    apply(
        alloc, variables, firsts, nodes, place, operator, None, &indices, &operands,
    )
}

// A variable: its slot, or its array.
fn lay_out_variable(
    alloc: Global,
    variables: &[VariableType],
    firsts: &[usize],
    nodes: &mut Items<ExprNode>,
    place: Place,
    n: usize,
) -> Result<LaidNode, AllocError>
    requires firsts { firsts.now ≡ first_slots variables.now }
    ensures grows { OnOk result (Grows nodes.old nodes.new) }
    ensures laid { IfOk result (λ x. IsLaid nodes.new x (slot_laid variables.now place n (slice_get variables.now n))) }
{
    match at(variables, n) {
        None => push_value(nodes, ExprNode::Slot(place, n)),
        Some(variable) => match variable.dimensions.as_slice() {
            [] => push_value(nodes, ExprNode::Slot(place, first_at(firsts, n))),
            [..] => push_array(alloc, nodes, place, n, first_at(firsts, n)),
        },
    }
}

// An array without indices, whose first element has the slot `first`.
fn push_array(
    alloc: Global,
    nodes: &mut Items<ExprNode>,
    place: Place,
    n: usize,
    first: usize,
) -> Result<LaidNode, AllocError>
    ensures grows { OnOk result (Grows nodes.old nodes.new) }
    ensures laid { IfOk result (λ x. IsLaid nodes.new x (Laid.Array (array_of first place n))) }
{
    let array = push(nodes, ExprNode::Apply(place, Operator::WholeArray, 0))?;
    let whole = push(
        nodes,
        ExprNode::Named(place, Naming::Array(place, first), array),
    )?;
    Ok(LaidNode::Array(SubarrayNode {
        variable: n,
        place,
        subscripts: Items::new(alloc),
        whole,
    }))
}

// What a name stands for.
fn lay_out_name(
    alloc: Global,
    nodes: &mut Items<ExprNode>,
    entries: &[LaidNode],
    place: Place,
    naming: Naming,
    a: usize,
) -> Result<LaidNode, AllocError>
    requires stand { All (Stands nodes.old) entries.now }
    ensures grows { OnOk result (Grows nodes.old nodes.new) }
    ensures laid { IfOk result (λ x. IsLaid nodes.new x (named place naming (laid_at nodes.old entries.now a))) }
{
    match naming {
        Naming::Given => lay_out_given(alloc, nodes, entries, place, a),
        Naming::Defined | Naming::Element | Naming::Array(..) | Naming::Passed => {
            let inner = value_at(nodes, entries, a);
            push_value(nodes, ExprNode::Named(place, naming, inner))
        }
    }
}

// What a parameter was given: a value, or an array.
fn lay_out_given(
    alloc: Global,
    nodes: &mut Items<ExprNode>,
    entries: &[LaidNode],
    place: Place,
    a: usize,
) -> Result<LaidNode, AllocError>
    requires stand { All (Stands nodes.old) entries.now }
    ensures grows { OnOk result (Grows nodes.old nodes.new) }
    ensures laid { IfOk result (λ x. IsLaid nodes.new x (named place given.Given (laid_at nodes.old entries.now a))) }
{
    match at(entries, a) {
        Some(LaidNode::Array(array)) => push_given(alloc, nodes, place, array),
        Some(LaidNode::Value(n)) => push_value(nodes, ExprNode::Named(place, Naming::Given, *n)),
        None => {
            let past = nodes.len();
            push_value(nodes, ExprNode::Named(place, Naming::Given, past))
        }
    }
}

// An array that a parameter was given.
fn push_given(
    alloc: Global,
    nodes: &mut Items<ExprNode>,
    place: Place,
    array: &SubarrayNode,
) -> Result<LaidNode, AllocError>
    requires { Stands nodes.old (LaidArray array.now) }
    ensures grows { OnOk result (Grows nodes.old nodes.new) }
    ensures laid { IfOk result (λ x. IsLaid nodes.new x (Laid.Array (array_given place (subarray_by nodes.old array.now)))) }
{
    let whole = push(nodes, ExprNode::Named(place, Naming::Given, array.whole))?;
    let subscripts = give_subscripts(alloc, nodes, place, array.subscripts.as_slice())?;
    Ok(LaidNode::Array(SubarrayNode {
        variable: array.variable,
        place: array.place,
        subscripts,
        whole,
    }))
}

// Its indices.
fn give_subscripts(
    alloc: Global,
    nodes: &mut Items<ExprNode>,
    place: Place,
    subscripts: &[SubscriptNode],
) -> Result<Items<SubscriptNode>, AllocError>
    requires { SubscriptsStand nodes.old subscripts.now }
    ensures grows { OnOk result (Grows nodes.old nodes.new) }
    ensures subscripts { IfOk result (λ given. AreSubscripts nodes.new given (map (subscript_given place) (map (subscript_by nodes.old) subscripts.now))) }
{
    let mut given = Items::new(alloc);
    for x in subscripts {
        let node = push(nodes, ExprNode::Named(place, Naming::Passed, x.node))?;
        given.push(SubscriptNode {
            place: x.place,
            node,
            constant: x.constant,
        })?;
    }
    Ok(given)
}
