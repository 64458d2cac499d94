//! Expressions as trees of formulas.

ghost use Rattle.std.specs.Prelude.{◌≡◌, ◌≤◌, ℕ, Bool, IfOk, length, true};
ghost use Rattle.std.specs.List.{list_all};
ghost use Rattle.smv_meaning.specs.Lassos.{Holds};
ghost use Rattle.ltl_meaning.specs.Temporal.{formula_of};
ghost use Rattle.ltl_meaning.specs.Truth.{binary_truth};
ghost use Rattle.smv_formulas.specs.Known.{AreSound, IsSound, IsSoundJoint, KeepsKnown};
ghost use Rattle.smv_formulas.specs.Marks.{marks_of};
ghost use Rattle.smv_formulas.specs.Trees.{Grows, IsAtom, IsMaybeJoint, IsWithin, SaysOn, TellsOn, joint_holds, part_below};

use crate::forms::Form;
use crate::numbering::number_of;
use crate::pieces::{Piece, piece_at};
use ltl_meaning::node::{BinaryOperator, BoundedOperator, FormulaNode, Link, Window};
use smv_resolve::ExprNode;
use sqlite_items::Items;
use std::alloc::{AllocError, Global};

/// An operator between two parts.
#[derive(Clone, Copy, Debug)]
pub struct Joint {
    pub operator: BinaryOperator,
    pub left: usize,
    pub right: usize,
}

/// The tree of a part that is one of the first so many. The nodes of its atoms are in `atoms`, where those are added
/// that were not there yet.
///
/// It calls itself a few times for each level of nesting, which texts keep to 2000; a chain takes no more of the stack
/// than its operands, however long it is.
#[cycle(trees)]
pub fn tree(
    alloc: Global,
    nodes: &[ExprNode],
    marks: &[bool],
    limit: usize,
    k: usize,
    atoms: &mut Vec<usize>,
) -> Result<FormulaNode, AllocError>
    requires inside { limit ≤ length nodes.now }
    requires marked { marks.now ≡ marks_of nodes.now }
    ensures grows { IfOk result (λ tree. Grows atoms.old.items atoms.new.items) }
    ensures says { IfOk result (λ tree. SaysOn nodes.now atoms.new.items (formula_of tree) (part_below nodes.now limit k)) }
    ensures known { IfOk result (λ tree. KeepsKnown nodes.now atoms.old.items atoms.new.items (λ slots s u. IsSound slots s u (part_below nodes.now limit k))) }
{
    match piece_at(nodes, marks, limit, k) {
        Piece::Never => Ok(FormulaNode::Constant(false)),
        Piece::Atom => atom(k, atoms),
        Piece::Same(a) => tree(alloc, nodes, marks, k, a, atoms),
        Piece::Joined(form, left, right) => {
            joined(alloc, nodes, marks, k, form, left, right, atoms)
        }
    }
}

// The tree of an operator over parts of the first so many; an operator over one takes the left one.
#[cycle(trees)]
fn joined(
    alloc: Global,
    nodes: &[ExprNode],
    marks: &[bool],
    limit: usize,
    form: Form,
    left: usize,
    right: usize,
    atoms: &mut Vec<usize>,
) -> Result<FormulaNode, AllocError>
    requires inside { limit ≤ length nodes.now }
    requires marked { marks.now ≡ marks_of nodes.now }
    ensures grows { IfOk result (λ tree. Grows atoms.old.items atoms.new.items) }
    ensures tells { IfOk result (λ tree. TellsOn nodes.now atoms.new.items (formula_of tree) (joint_holds nodes.now limit form left right)) }
    ensures known { IfOk result (λ tree. KeepsKnown nodes.now atoms.old.items atoms.new.items (λ slots s u. AreSound form slots s u (part_below nodes.now limit left) (part_below nodes.now limit right))) }
{
    match form {
        Form::One(operator) => {
            let operand = tree(alloc, nodes, marks, limit, left, atoms)?;
            let whole = FormulaNode::unary(alloc, operator, operand)?;
            Ok(whole)
        }
        Form::Within(operator, low, high) => {
            let operand = tree(alloc, nodes, marks, limit, left, atoms)?;
            let whole = bounded(alloc, operator, low, high, operand)?;
            Ok(whole)
        }
        Form::Two(operator) => {
            let joint = Joint {
                operator,
                left,
                right,
            };
            chain(alloc, nodes, marks, limit, joint, atoms)
        }
        Form::Neither => Ok(FormulaNode::Constant(false)),
    }
}

// The tree of an operator between two parts, which goes on through the links of a chain on its left.
#[cycle(trees)]
fn chain(
    alloc: Global,
    nodes: &[ExprNode],
    marks: &[bool],
    limit: usize,
    joint: Joint,
    atoms: &mut Vec<usize>,
) -> Result<FormulaNode, AllocError>
    requires inside { limit ≤ length nodes.now }
    requires marked { marks.now ≡ marks_of nodes.now }
    ensures grows { IfOk result (λ tree. Grows atoms.old.items atoms.new.items) }
    ensures tells { IfOk result (λ tree. TellsOn nodes.now atoms.new.items (formula_of tree) (λ p w. binary_truth joint.operator (Holds p w (part_below nodes.now limit joint.left)) (Holds p w (part_below nodes.now limit joint.right)))) }
    ensures known { IfOk result (λ tree. KeepsKnown nodes.now atoms.old.items atoms.new.items (λ slots s u. IsSound slots s u (part_below nodes.now limit joint.left) × IsSound slots s u (part_below nodes.now limit joint.right))) }
{
    let mut links = Vec::new(alloc);
    let mut before = limit;
    let mut left = joint.left;
    let operand = tree(alloc, nodes, marks, limit, joint.right, atoms)?;
    links.push(Link {
        operator: joint.operator,
        operand,
    })?;
    while let Some(next) = joint_at(nodes, marks, before, left) {
        before = left;
        left = next.left;
        let operand = tree(alloc, nodes, marks, before, next.right, atoms)?;
        links.push(Link {
            operator: next.operator,
            operand,
        })?;
    }
    links.reverse();
    let first = tree(alloc, nodes, marks, before, left, atoms)?;
    let whole = FormulaNode::chain(alloc, first, Items::from_vec(links))?;
    Ok(whole)
}

// The operator and the operands of a part that is an operator between two.
fn joint_at(nodes: &[ExprNode], marks: &[bool], limit: usize, k: usize) -> Option<Joint>
    requires inside { limit ≤ length nodes.now }
    requires marked { marks.now ≡ marks_of nodes.now }
    ensures joint { IsMaybeJoint nodes.now limit k result }
    ensures sound { IsSoundJoint nodes.now limit k result }
{
    match piece_at(nodes, marks, limit, k) {
        Piece::Joined(Form::Two(operator), left, right) => Some(Joint {
            operator,
            left,
            right,
        }),
        _ => None,
    }
}

// The tree of an atom.
fn atom(node: usize, atoms: &mut Vec<usize>) -> Result<FormulaNode, AllocError>
    ensures grows { IfOk result (λ tree. Grows atoms.old.items atoms.new.items) }
    ensures atom { IfOk result (λ tree. IsAtom atoms.new.items node (formula_of tree)) }
    ensures passes { IfOk result (λ tree. (test : ℕ → Bool) → list_all test atoms.old.items ≡ true → test node ≡ true → list_all test atoms.new.items ≡ true) }
{
    let a = number_of(atoms, node)?;
    Ok(FormulaNode::Atom(a))
}

// An operator with bounds over its operand. Other bounds than `low <= high <= 255` count as running out of memory.
fn bounded(
    alloc: Global,
    operator: BoundedOperator,
    low: u32,
    high: u32,
    operand: FormulaNode,
) -> Result<FormulaNode, AllocError>
    ensures { IfOk result (λ tree. IsWithin operator low high (formula_of operand) (formula_of tree)) }
{
    let Ok(from) = u8::try_from(low) else {
        return Err(AllocError)
    };
    let Ok(to) = u8::try_from(high) else {
        return Err(AllocError)
    };
    if from > to {
        return Err(AllocError);
    }
    let window = Window {
        low: from,
        high: to,
    };
    let whole = FormulaNode::bounded(alloc, operator, window, operand)?;
    Ok(whole)
}
