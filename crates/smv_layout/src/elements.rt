//! The nodes of elements of arrays, by their indices.

ghost use Rattle.std.specs.Prelude.{◌≡◌, ◌<◌, ◌+◌, ◌*◌, [], ◌∷◌, ℤ, List, length, map, IfOk, OnOk};
ghost use Rattle.smv_value.specs.declared.operator.Operator.TheVariants as operator;
ghost use Rattle.smv_value.specs.declared.value.Value.TheVariants as value;
ghost use Rattle.smv_resolve.specs.Resolved.{Resolved, operands_of};
ghost use Rattle.smv_resolve.specs.Finding.{Grows};
ghost use Rattle.smv_tree.specs.declared.place.Place.{Place};
ghost use Rattle.smv_declared.specs.Types.{size_of};
ghost use Rattle.smv_layout.specs.Arrays.{choice, element, index_at, is_index, is_inside, never, nowhere, position_in, spanning, turns};
ghost use Rattle.smv_layout.specs.Nodes.{AreNodes, IsNode, SubscriptsStand, subscript_by};

use crate::laid::SubscriptNode;
use crate::nodes::{push, push_apply};
use crate::sizes::{size_of, slot_at};
use smv_declared::Bounds;
use smv_resolve::{ExprNode, Naming};
use smv_tree::Place;
use smv_value::{FaultRule, Operator, Value};
use sqlite_items::Items;
use std::alloc::{AllocError, Global};
use value_types::ValueType;

/// The element with these indices of an array of these dimensions, whose first element has the slot `first`. An index
/// that is no constant takes some five nodes for each element that it reaches.
#[cycle(elements)]
pub fn push_element(
    alloc: Global,
    nodes: &mut Items<ExprNode>,
    t: &ValueType,
    place: Place,
    dimensions: &[Bounds],
    subscripts: &[SubscriptNode],
    first: usize,
) -> Result<usize, AllocError>
    requires { SubscriptsStand nodes.old subscripts.now }
    ensures grows { OnOk result (Grows nodes.old nodes.new) }
    ensures node { IfOk result (λ n. IsNode nodes.new n (element t.now place dimensions.now (map (subscript_by nodes.old) subscripts.now) first)) }
{
    match dimensions.split_first() {
        None => {
            let n = push(nodes, ExprNode::Slot(place, first))?;
            Ok(n)
        }
        Some((dimension, below)) => match subscripts.split_first() {
            None => {
                let n = push(nodes, ExprNode::Slot(place, first))?;
                Ok(n)
            }
            Some((subscript, further)) => {
                let n = push_at(
                    alloc, nodes, t, place, *dimension, below, *subscript, further, first,
                )?;
                Ok(n)
            }
        },
    }
}

// The same where there is a dimension and an index for it.
#[cycle(elements)]
fn push_at(
    alloc: Global,
    nodes: &mut Items<ExprNode>,
    t: &ValueType,
    place: Place,
    dimension: Bounds,
    below: &[Bounds],
    subscript: SubscriptNode,
    further: &[SubscriptNode],
    first: usize,
) -> Result<usize, AllocError>
    requires index { subscript.node < length nodes.old }
    requires further { SubscriptsStand nodes.old further.now }
    ensures grows { OnOk result (Grows nodes.old nodes.new) }
    ensures node { IfOk result (λ n. IsNode nodes.new n (element t.now place (dimension ∷ below.now)
        (subscript_by nodes.old subscript ∷ map (subscript_by nodes.old) further.now) first)) }
{
    match subscript.constant {
        None => {
            let n = push_choices(
                alloc, nodes, t, place, dimension, below, subscript, further, first,
            )?;
            Ok(n)
        }
        Some(index) => match position_in(dimension, index) {
            None => {
                let n = push_outside(alloc, nodes, t, dimension, below, subscript, further)?;
                Ok(n)
            }
            Some(position) => {
                let size = size_of(below)?;
                let slot = slot_at(first, position, size)?;
                let inner = push_element(alloc, nodes, t, place, below, further, slot)?;
                let n = push(
                    nodes,
                    ExprNode::Named(subscript.place, Naming::Element, inner),
                )?;
                Ok(n)
            }
        },
    }
}

// An element for each index of the outermost dimension.
#[cycle(elements)]
fn push_choices(
    alloc: Global,
    nodes: &mut Items<ExprNode>,
    t: &ValueType,
    place: Place,
    dimension: Bounds,
    below: &[Bounds],
    subscript: SubscriptNode,
    further: &[SubscriptNode],
    first: usize,
) -> Result<usize, AllocError>
    requires index { subscript.node < length nodes.old }
    requires further { SubscriptsStand nodes.old further.now }
    ensures grows { OnOk result (Grows nodes.old nodes.new) }
    ensures node { IfOk result (λ n. IsNode nodes.new n (choice subscript.place (turns (subscript_by nodes.old subscript) dimension
        (λ k. element t.now place below.now (map (subscript_by nodes.old) further.now) (first + k * size_of below.now))))) }
{
    let size = size_of(below)?;
    let index = push_apply(
        nodes,
        subscript.place,
        Operator::Subscript,
        &[subscript.node],
    )?;
    let mut turns = Vec::new(alloc);
    for k in 0..dimension.count {
        let v = index_at(dimension, k)?;
        let slot = slot_at(first, k, size)?;
        let condition = push_equal(nodes, subscript.place, index, v)?;
        let branch = push_element(alloc, nodes, t, place, below, further, slot)?;
        turns.push(condition)?;
        turns.push(branch)?;
    }
    let n = push_choice(nodes, subscript.place, turns.as_slice())?;
    Ok(n)
}

// What stands at no index.
#[cycle(nowhere)]
fn push_nowhere(
    alloc: Global,
    nodes: &mut Items<ExprNode>,
    t: &ValueType,
    place: Place,
    dimensions: &[Bounds],
    subscripts: &[SubscriptNode],
) -> Result<usize, AllocError>
    requires { SubscriptsStand nodes.old subscripts.now }
    ensures grows { OnOk result (Grows nodes.old nodes.new) }
    ensures node { IfOk result (λ n. IsNode nodes.new n (nowhere t.now place dimensions.now (map (subscript_by nodes.old) subscripts.now))) }
{
    match dimensions.split_first() {
        None => {
            let n = push_never(alloc, nodes, place, t)?;
            Ok(n)
        }
        Some((dimension, below)) => match subscripts.split_first() {
            None => {
                let n = push_never(alloc, nodes, place, t)?;
                Ok(n)
            }
            Some((subscript, further)) => {
                let n = push_beyond(alloc, nodes, t, *dimension, below, *subscript, further)?;
                Ok(n)
            }
        },
    }
}

// The same where there is a dimension and an index for it.
#[cycle(nowhere)]
fn push_beyond(
    alloc: Global,
    nodes: &mut Items<ExprNode>,
    t: &ValueType,
    dimension: Bounds,
    below: &[Bounds],
    subscript: SubscriptNode,
    further: &[SubscriptNode],
) -> Result<usize, AllocError>
    requires index { subscript.node < length nodes.old }
    requires further { SubscriptsStand nodes.old further.now }
    ensures grows { OnOk result (Grows nodes.old nodes.new) }
    ensures node { IfOk result (λ n. (place : Place) → IsNode nodes.new n (nowhere t.now place (dimension ∷ below.now)
        (subscript_by nodes.old subscript ∷ map (subscript_by nodes.old) further.now))) }
{
    if is_inside(Some(dimension), subscript.constant) {
        let inner = push_nowhere(alloc, nodes, t, subscript.place, below, further)?;
        let n = push(
            nodes,
            ExprNode::Named(subscript.place, Naming::Element, inner),
        )?;
        Ok(n)
    } else {
        let n = push_outside(alloc, nodes, t, dimension, below, subscript, further)?;
        Ok(n)
    }
}

// The same where the index is no constant, or outside.
#[cycle(nowhere)]
fn push_outside(
    alloc: Global,
    nodes: &mut Items<ExprNode>,
    t: &ValueType,
    dimension: Bounds,
    below: &[Bounds],
    subscript: SubscriptNode,
    further: &[SubscriptNode],
) -> Result<usize, AllocError>
    requires index { subscript.node < length nodes.old }
    requires further { SubscriptsStand nodes.old further.now }
    ensures grows { OnOk result (Grows nodes.old nodes.new) }
    ensures node { IfOk result (λ n. IsNode nodes.new n (choice subscript.place (is_index (subscript_by nodes.old subscript) dimension.low
        ∷ nowhere t.now subscript.place below.now (map (subscript_by nodes.old) further.now) ∷ []))) }
{
    let condition = push_is_index(nodes, subscript, first_index(dimension))?;
    let branch = push_nowhere(alloc, nodes, t, subscript.place, below, further)?;
    let n = push_choice(nodes, subscript.place, &[condition, branch])?;
    Ok(n)
}

// A choice of these conditions and branches by turns.
fn push_choice(
    nodes: &mut Items<ExprNode>,
    place: Place,
    turns: &[usize],
) -> Result<usize, AllocError>
    ensures grows { OnOk result (Grows nodes.old nodes.new) }
    ensures node { IfOk result (λ n. (rs : List Resolved) → AreNodes nodes.old turns.now rs → IsNode nodes.new n (choice place rs)) }
{
    push_apply(
        nodes,
        place,
        Operator::Choice(FaultRule::IndexOutside),
        turns,
    )
}

// The condition that an index is this integer.
fn push_is_index(
    nodes: &mut Items<ExprNode>,
    x: SubscriptNode,
    v: Value,
) -> Result<usize, AllocError>
    requires { x.node < length nodes.old }
    ensures grows { OnOk result (Grows nodes.old nodes.new) }
    ensures node { IfOk result (λ n. (z : ℤ) → v ≡ value.Int z → IsNode nodes.new n (is_index (subscript_by nodes.old x) z)) }
{
    let index = push_apply(nodes, x.place, Operator::Subscript, &[x.node])?;
    let n = push_equal(nodes, x.place, index, v)?;
    Ok(n)
}

// The condition that the node of this number is this integer.
fn push_equal(
    nodes: &mut Items<ExprNode>,
    place: Place,
    index: usize,
    v: Value,
) -> Result<usize, AllocError>
    ensures grows { OnOk result (Grows nodes.old nodes.new) }
    ensures node { IfOk result (λ n. (r : Resolved) → IsNode nodes.old index r
        → IsNode nodes.new n (Resolved.Apply place operator.Equal (operands_of (r ∷ Resolved.Constant place v ∷ [])))) }
{
    let constant = push(nodes, ExprNode::Constant(place, v))?;
    let n = push(
        nodes,
        ExprNode::Link(place, Operator::Equal, index, constant),
    )?;
    Ok(n)
}

// No choice of the values that tell the kind of a type.
fn push_never(
    alloc: Global,
    nodes: &mut Items<ExprNode>,
    place: Place,
    t: &ValueType,
) -> Result<usize, AllocError>
    ensures grows { OnOk result (Grows nodes.old nodes.new) }
    ensures node { IfOk result (λ n. IsNode nodes.new n (choice place (never place (spanning t.now)))) }
{
    let values = spanning(alloc, t)?;
    let mut turns = Vec::new(alloc);
    for v in values.as_slice() {
        let condition = push(nodes, ExprNode::Constant(place, Value::Bool(false)))?;
        let branch = push(nodes, ExprNode::Constant(place, *v))?;
        turns.push(condition)?;
        turns.push(branch)?;
    }
    let n = push_choice(nodes, place, turns.as_slice())?;
    Ok(n)
}

// Some values that tell the kind of a type.
fn spanning(alloc: Global, t: &ValueType) -> Result<Vec<Value>, AllocError>
    ensures { IfOk result (λ values. values.items ≡ spanning t.now) }
{
    match t {
        ValueType::Boolean => Vec::from_slice(alloc, &[Value::Bool(false)]),
        ValueType::Word { signed, width } => {
            let zero = Value::Word {
                signed: *signed,
                width: *width,
                bits: 0,
            };
            Vec::from_slice(alloc, &[zero])
        }
        ValueType::Range { low, high } => {
            let limits = [Value::Int(i64::from(*low)), Value::Int(i64::from(*high))];
            Vec::from_slice(alloc, &limits)
        }
        ValueType::Enumeration(elements) => {
            let mut values = Vec::new(alloc);
            for element in elements.as_slice() {
                values.push(element.value())?;
            }
            Ok(values)
        }
    }
}

// The first index of a dimension.
fn first_index(dimension: Bounds) -> Value
    ensures { result ≡ value.Int dimension.low }
{
    Value::Int(i64::from(dimension.low))
}

// The index at this position of a dimension. Memory is refused where it has more than 64 bits.
fn index_at(dimension: Bounds, position: usize) -> Result<Value, AllocError>
    ensures { IfOk result (λ v. v ≡ value.Int (index_at dimension position)) }
{
    let Ok(offset) = i64::try_from(position) else {
        return Err(AllocError);
    };
    match i64::from(dimension.low).checked_add(offset) {
        Some(index) => Ok(Value::Int(index)),
        None => Err(AllocError),
    }
}

/// An index is a constant, and one of its dimension.
pub(crate) fn is_inside(dimension: Option<Bounds>, constant: Option<i64>) -> bool
    ensures { result ≡ is_inside dimension constant }
{
    match (dimension, constant) {
        (Some(dimension), Some(index)) => position_in(dimension, index).is_some(),
        _ => false,
    }
}

// The position of an index in a dimension, if it is one of that dimension.
fn position_in(dimension: Bounds, index: i64) -> Option<usize>
    ensures { result ≡ position_in dimension index }
{
    let low = i64::from(dimension.low);
    if index < low {
        return None;
    }
    let position = index.abs_diff(low) as usize;
    if position < dimension.count {
        Some(position)
    } else {
        None
    }
}
