//! Whether the operators of formulas have as many operands as they take.

ghost use Rattle.std.specs.Prelude.{◌≡◌, Bool, IfOk};
ghost use Rattle.std.specs.List.{list_all};
ghost use Rattle.smv_formulas.specs.Formed.{formed_at, formed_by, formed_of, formed_over};

use crate::forms::{Form, form_of};
use crate::marks::{mark_at, mark_by};
use smv_resolve::{ExprNode, last};
use std::alloc::{AllocError, Global};

/// Whether the propositions and the temporal operators in the part of each node have as many operands as they take. It
/// is false, too, where a name stands for what has a temporal operator.
pub fn formed_of(alloc: Global, nodes: &[ExprNode]) -> Result<Vec<bool>, AllocError>
    ensures { IfOk result (λ formed. formed.items ≡ formed_of nodes.now) }
{
    let mut marks = Vec::new(alloc);
    let mut formed = Vec::new(alloc);
    for node in nodes {
        let is = formed_by(marks.as_slice(), formed.as_slice(), node);
        let mark = mark_by(marks.as_slice(), node);
        marks.push(mark)?;
        formed.push(is)?;
    }
    Ok(formed)
}

// The same of a node, by the marks of the nodes before it.
fn formed_by(marks: &[bool], formed: &[bool], node: &ExprNode) -> bool
    ensures { result ≡ formed_by marks.now formed.now node.now }
{
    match *node {
        ExprNode::Constant(..) => true,
        ExprNode::Slot(..) => true,
        ExprNode::Whole(..) => true,
        ExprNode::Named(_, _, a) => !mark_at(marks, a),
        ExprNode::Next(..) => true,
        ExprNode::Operand(a) => formed_at(formed, a),
        ExprNode::Apply(_, operator, count) => {
            let operands = last(formed, count);
            formed_over(form_of(operator), operands.len(), are_all_formed(operands))
        }
        ExprNode::Link(_, operator, a, b) => {
            formed_over(
                form_of(operator),
                2,
                formed_at(formed, a) && formed_at(formed, b),
            )
        }
    }
}

// The same of an operator over so many operands, by whether these are.
fn formed_over(form: Form, count: usize, operands: bool) -> bool
    ensures { result ≡ formed_over form count operands }
{
    match form {
        Form::One(_) | Form::Within(..) => count == 1 && operands,
        Form::Two(_) => count == 2 && operands,
        Form::Neither => true,
    }
}

fn are_all_formed(formed: &[bool]) -> bool
    ensures { result ≡ list_all (λ (b : Bool). b) formed.now }
{
    formed.iter().all(|is| *is)
}

/// Whether the part of the node of this number is formed.
pub fn formed_at(formed: &[bool], k: usize) -> bool
    ensures { result ≡ formed_at formed.now k }
{
    k >= formed.len() || formed[k]
}
