//! Where temporal operators stand.

ghost use Rattle.std.specs.Prelude.{◌≡◌, Bool, IfOk};
ghost use Rattle.std.specs.List.{list_any};
ghost use Rattle.smv_formulas.specs.Marks.{mark_at, mark_by, marks_of};

use smv_meaning::is_temporal;
use smv_resolve::{ExprNode, last};
use std::alloc::{AllocError, Global};

/// Whether a temporal operator stands in the part of each node.
pub fn marks_of(alloc: Global, nodes: &[ExprNode]) -> Result<Vec<bool>, AllocError>
    ensures { IfOk result (λ marks. marks.items ≡ marks_of nodes.now) }
{
    let mut marks = Vec::new(alloc);
    for node in nodes {
        let mark = mark_by(marks.as_slice(), node);
        marks.push(mark)?;
    }
    Ok(marks)
}

/// The mark of a node, by those of the nodes before it.
pub fn mark_by(marks: &[bool], node: &ExprNode) -> bool
    ensures { result ≡ mark_by marks.now node.now }
{
    match *node {
        ExprNode::Constant(..) => false,
        ExprNode::Slot(..) => false,
        ExprNode::Whole(..) => false,
        ExprNode::Named(_, _, a) => mark_at(marks, a),
        ExprNode::Next(_, a) => mark_at(marks, a),
        ExprNode::Operand(a) => mark_at(marks, a),
        ExprNode::Apply(_, operator, count) => is_temporal(operator)
            || is_some_marked(last(marks, count)),
        ExprNode::Link(_, operator, a, b) => {
            is_temporal(operator) || (mark_at(marks, a) || mark_at(marks, b))
        }
    }
}

fn is_some_marked(marks: &[bool]) -> bool
    ensures { result ≡ list_any (λ (mark : Bool). mark) marks.now }
{
    marks.iter().any(|mark| *mark)
}

/// The mark of the node of this number.
pub fn mark_at(marks: &[bool], k: usize) -> bool
    ensures { result ≡ mark_at marks.now k }
{
    k < marks.len() && marks[k]
}
