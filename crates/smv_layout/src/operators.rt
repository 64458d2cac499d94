//! Operators: indices of arrays, and bounds of temporal operators.

ghost use Rattle.std.specs.Prelude.{◌≡◌, ◌<◌, [], ◌∷◌, ◌++◌, drop, is_some, length, map, IfOk, IfSome, OnOk, Some};
ghost use Rattle.std.specs.List.{All};
ghost use Rattle.smv_value.specs.Results.{natural};
ghost use Rattle.smv_resolve.specs.Resolved.{Resolved};
ghost use Rattle.smv_resolve.specs.Finding.{Grows};
ghost use Rattle.smv_layout.specs.declared.laid.LaidNode.TheVariants.{Array as LaidArray};
ghost use Rattle.smv_layout.specs.Layout.{Laid, applied, both_bounds, bounded, bounds_in, dimension_at, index_in, is_bound, index_laid, indexed, subscripted, values_of};
ghost use Rattle.smv_layout.specs.Nodes.{IsLaid, IsNode, Stands, laid_by, subarray_by, subscript_by};
ghost use Rattle.smv_layout.specs.Sizes.{first_slots};

use crate::elements::{is_inside, push_element};
use crate::entries::{push_value, value_of, values_of};
use crate::indices::index_at;
use crate::laid::{LaidNode, SubarrayNode, SubscriptNode};
use crate::nodes::{push, push_apply};
use crate::sizes::first_at;
use smv_declared::{Bounds, Constant, VariableType};
use smv_resolve::{ExprNode, Naming};
use smv_tree::Place;
use smv_value::{Bounded, Operator};
use sqlite_items::{Items, at};
use std::alloc::{AllocError, Global};
use whole_numbers::WholeNumber;

/// An operator over what stands for its operands, where it is told what bounds and indices they are as constants.
pub fn apply(
    alloc: Global,
    variables: &[VariableType],
    firsts: &[usize],
    nodes: &mut Items<ExprNode>,
    place: Place,
    operator: Operator,
    bounds: Option<(u32, u32)>,
    indices: &[Option<i64>],
    operands: &[LaidNode],
) -> Result<LaidNode, AllocError>
    requires firsts { firsts.now ≡ first_slots variables.now }
    requires stand { All (Stands nodes.old) operands.now }
    ensures grows { OnOk result (Grows nodes.old nodes.new) }
    ensures laid { IfOk result (λ x. IsLaid nodes.new x (applied variables.now place operator bounds indices.now (map (laid_by nodes.old) operands.now))) }
{
    match operator {
        Operator::Index => {
            apply_index(
                alloc,
                variables,
                firsts,
                nodes,
                place,
                index_at(indices, 1),
                operands,
            )
        }
        Operator::Window(o) => apply_window(alloc, nodes, place, o, bounds, operands),
        _ => apply_plain(alloc, nodes, place, operator, operands),
    }
}

// An operator that stays.
fn apply_plain(
    alloc: Global,
    nodes: &mut Items<ExprNode>,
    place: Place,
    operator: Operator,
    operands: &[LaidNode],
) -> Result<LaidNode, AllocError>
    requires stand { All (Stands nodes.old) operands.now }
    ensures grows { OnOk result (Grows nodes.old nodes.new) }
    ensures laid { IfOk result (λ x. IsLaid nodes.new x (Laid.Value (Resolved.Apply place operator (values_of (map (laid_by nodes.old) operands.now))))) }
{
    if let [a, b] = operands {
        return push_value(
            nodes,
            ExprNode::Link(place, operator, value_of(a), value_of(b)),
        );
    }
    let values = values_of(alloc, operands)?;
    let n = push_apply(nodes, place, operator, values.as_slice())?;
    Ok(LaidNode::Value(n))
}

// `F G O H` with bounds, if these are its bounds.
fn apply_window(
    alloc: Global,
    nodes: &mut Items<ExprNode>,
    place: Place,
    o: Bounded,
    bounds: Option<(u32, u32)>,
    operands: &[LaidNode],
) -> Result<LaidNode, AllocError>
    requires stand { All (Stands nodes.old) operands.now }
    ensures grows { OnOk result (Grows nodes.old nodes.new) }
    ensures laid { IfOk result (λ x. IsLaid nodes.new x (Laid.Value (bounded place o bounds (map (laid_by nodes.old) operands.now)))) }
{
    match bounds {
        Some((low, high)) => {
            let operator = Operator::Bounded(o, low, high);
            apply_plain(alloc, nodes, place, operator, behind_bounds(operands))
        }
        None => apply_plain(alloc, nodes, place, Operator::Window(o), operands),
    }
}

// What follows the two bounds.
fn behind_bounds(operands: &[LaidNode]) -> &[LaidNode]
    ensures { result.now ≡ drop 2 operands.now }
{
    if operands.len() < 2 {
        &[]
    } else {
        &operands[2..]
    }
}

/// The bounds before a formula, where they are constants of 32 bits without a sign.
pub fn bounds_in(constants: &[Constant]) -> Option<(u32, u32)>
    ensures { result ≡ bounds_in constants.now }
{
    match constants {
        [low, high, _] => both_bounds(low, high),
        _ => None,
    }
}

fn both_bounds(low: &Constant, high: &Constant) -> Option<(u32, u32)>
    ensures { result ≡ both_bounds low.now high.now }
{
    let (Constant::Integer(low), Constant::Integer(high)) = (low, high) else {
        return None;
    };
    match (bound_by(low), bound_by(high)) {
        (Some(low), Some(high)) => Some((low, high)),
        _ => None,
    }
}

// The bound, if it is one.
fn bound_by(z: &WholeNumber) -> Option<u32>
    ensures bound { IfSome result (λ n. n ≡ natural z.now) }
    ensures is_one { is_some result ≡ is_bound z.now }
{
    match z.to_i64() {
        Some(n) if 0 <= n && n <= 4_294_967_295 => Some(n as u32),
        _ => None,
    }
}

// `a[i]`, where this is the integer that i is.
fn apply_index(
    alloc: Global,
    variables: &[VariableType],
    firsts: &[usize],
    nodes: &mut Items<ExprNode>,
    place: Place,
    constant: Option<i64>,
    operands: &[LaidNode],
) -> Result<LaidNode, AllocError>
    requires firsts { firsts.now ≡ first_slots variables.now }
    requires stand { All (Stands nodes.old) operands.now }
    ensures grows { OnOk result (Grows nodes.old nodes.new) }
    ensures laid { IfOk result (λ x. IsLaid nodes.new x (index_laid variables.now place constant (map (laid_by nodes.old) operands.now))) }
{
    match operands {
        [LaidNode::Array(array), index] => {
            let subscript = SubscriptNode {
                place,
                node: value_of(index),
                constant,
            };
            push_indexed(alloc, variables, firsts, nodes, place, array, subscript)
        }
        _ => apply_plain(alloc, nodes, place, Operator::Index, operands),
    }
}

// An array with one index more: an element where there is one for each dimension.
fn push_indexed(
    alloc: Global,
    variables: &[VariableType],
    firsts: &[usize],
    nodes: &mut Items<ExprNode>,
    place: Place,
    array: &SubarrayNode,
    subscript: SubscriptNode,
) -> Result<LaidNode, AllocError>
    requires firsts { firsts.now ≡ first_slots variables.now }
    requires stands { Stands nodes.old (LaidArray array.now) }
    requires index { subscript.node < length nodes.old }
    ensures grows { OnOk result (Grows nodes.old nodes.new) }
    ensures laid { IfOk result (λ x. IsLaid nodes.new x (indexed variables.now place (subarray_by nodes.old array.now) (subscript_by nodes.old subscript))) }
{
    let mut subscripts = Items::from_slice(alloc, array.subscripts.as_slice())?;
    subscripts.push(subscript)?;
    match at(variables, array.variable) {
        None => push_subarray(nodes, place, None, array, subscript, subscripts),
        Some(variable) => if variable.dimensions.len() == subscripts.len() {
            let first = first_at(firsts, array.variable);
            let element = push_element(
                alloc,
                nodes,
                &variable.element,
                array.place,
                variable.dimensions.as_slice(),
                subscripts.as_slice(),
                first,
            )?;
            let naming = Naming::Array(array.place, first);
            let n = push(nodes, ExprNode::Named(place, naming, element))?;
            Ok(LaidNode::Value(n))
        } else {
            let dimension = dimension_at(variable, array.subscripts.len());
            push_subarray(nodes, place, dimension, array, subscript, subscripts)
        },
    }
}

// The dimension of this number, if the variable has it.
fn dimension_at(variable: &VariableType, k: usize) -> Option<Bounds>
    ensures { result ≡ dimension_at (Some variable.now) k }
{
    match at(variable.dimensions.as_slice(), k) {
        None => None,
        Some(dimension) => Some(*dimension),
    }
}

// An index of this dimension, where no element is meant.
fn push_index(
    nodes: &mut Items<ExprNode>,
    dimension: Option<Bounds>,
    x: SubscriptNode,
) -> Result<usize, AllocError>
    requires { x.node < length nodes.old }
    ensures grows { OnOk result (Grows nodes.old nodes.new) }
    ensures node { IfOk result (λ n. IsNode nodes.new n (index_in dimension (subscript_by nodes.old x))) }
{
    if is_inside(dimension, x.constant) {
        push(nodes, ExprNode::Named(x.place, Naming::Element, x.node))
    } else {
        Ok(x.node)
    }
}

// An array with one index more, of this dimension and these indices.
fn push_subarray(
    nodes: &mut Items<ExprNode>,
    place: Place,
    dimension: Option<Bounds>,
    array: &SubarrayNode,
    subscript: SubscriptNode,
    subscripts: Items<SubscriptNode>,
) -> Result<LaidNode, AllocError>
    requires stands { Stands nodes.old (LaidArray array.now) }
    requires index { subscript.node < length nodes.old }
    requires subscripts { subscripts ≡ array.now.subscripts ++ subscript ∷ [] }
    ensures grows { OnOk result (Grows nodes.old nodes.new) }
    ensures laid { IfOk result (λ x. IsLaid nodes.new x (Laid.Array (subscripted place dimension (subarray_by nodes.old array.now) (subscript_by nodes.old subscript)))) }
{
    let index = push_index(nodes, dimension, subscript)?;
    let link = ExprNode::Link(place, Operator::Index, array.whole, index);
    let whole = push(nodes, link)?;
    Ok(LaidNode::Array(SubarrayNode {
        variable: array.variable,
        place: array.place,
        subscripts,
        whole,
    }))
}
