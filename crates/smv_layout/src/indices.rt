//! The constants that indices are.

ghost use Rattle.std.specs.Prelude.{◌≡◌, List, map, IfOk, None, slice_index_or};
ghost use Rattle.smv_resolve.specs.Resolved.{Resolved, parts_of, resolved_by};
ghost use Rattle.smv_layout.specs.Indices.{index_by, index_of, index_of_value};

use smv_kinds::{Kind, Operand, constant_given};
use smv_resolve::{ExprNode, last};
use smv_value::{Operator, Value, is_value};
use std::alloc::{AllocError, Global};

/// The integer that each node is, if it is a constant.
pub fn indices_of(alloc: Global, nodes: &[ExprNode]) -> Result<Vec<Option<i64>>, AllocError>
    ensures { IfOk result (λ table. table.items ≡ map index_of (parts_of nodes.now)) }
{
    let mut table = Vec::new(alloc);
    for node in nodes {
        let index = index_by_node(*node, table.as_slice());
        table.push(index)?;
    }
    Ok(table)
}

// The same of a node, over the integers of the nodes before it.
fn index_by_node(node: ExprNode, table: &[Option<i64>]) -> Option<i64>
    ensures { (parts : List Resolved) → table.now ≡ map index_of parts → result ≡ index_of (resolved_by parts node) }
{
    match node {
        ExprNode::Constant(_, value) => index_of_value(value),
        ExprNode::Named(_, _, a) => index_at(table, a),
        ExprNode::Operand(a) => index_at(table, a),
        ExprNode::Apply(_, operator, count) => index_by(operator, last(table, count)),
        ExprNode::Link(_, operator, a, b) => {
            index_by(operator, &[index_at(table, a), index_at(table, b)])
        }
        ExprNode::Slot(..) | ExprNode::Whole(..) | ExprNode::Next(..) => None,
    }
}

/// The integer of this number.
pub fn index_at(table: &[Option<i64>], k: usize) -> Option<i64>
    ensures { result ≡ slice_index_or table.now k None }
{
    match table.get(k) {
        None => None,
        Some(index) => *index,
    }
}

fn index_of_value(value: Value) -> Option<i64>
    ensures { result ≡ index_of_value value }
{
    match value {
        Value::Int(z) => if is_value(value) { Some(z) } else { None },
        Value::Bool(_) | Value::Sym(_) | Value::Word { .. } => None,
    }
}

// What an operator gives of integers.
fn index_by(operator: Operator, indices: &[Option<i64>]) -> Option<i64>
    ensures { result ≡ index_by operator indices.now }
{
    match indices {
        [a] => constant_given(operator, &[told(*a)]),
        [a, b] => constant_given(operator, &[told(*a), told(*b)]),
        _ => None,
    }
}

fn told(constant: Option<i64>) -> Operand
    ensures { result.constant ≡ constant }
{
    Operand {
        kind: Kind::Nothing,
        constant,
    }
}
