//! What parts are to the formulas around them.

ghost use Rattle.std.specs.Prelude.{◌≡◌, ◌+◌, ◌<◌, ◌≤◌, ◌^◌, List, length, slice_get, take, true};
ghost use Rattle.smv_resolve.specs.Resolved.{Resolved, resolved_by};
ghost use Rattle.smv_meaning.specs.Formulas.{has_temporal};
ghost use Rattle.smv_formulas.specs.Known.{IsSoundBelow, IsSoundPiece};
ghost use Rattle.smv_formulas.specs.Marks.{marks_of};
ghost use Rattle.smv_formulas.specs.Pieces.{IsPiece, IsPieceBelow};

use crate::forms::{Form, form_of};
use crate::marks::mark_at;
use smv_resolve::{ExprNode, first};

/// What a part is to the formula around it.
#[derive(Clone, Copy, Debug)]
pub enum Piece {
    /// It never holds, since there is no such part.
    Never,
    Atom,
    /// The same as that part.
    Same(usize),
    /// An operator over these two parts, of which an operator over one takes the left.
    Joined(Form, usize, usize),
}

/// What a part is that is one of the first so many.
pub fn piece_at(nodes: &[ExprNode], marks: &[bool], limit: usize, k: usize) -> Piece
    requires inside { limit ≤ length nodes.now }
    requires marked { marks.now ≡ marks_of nodes.now }
    ensures piece { IsPieceBelow nodes.now limit k result }
    ensures sound { IsSoundBelow nodes.now limit k result }
{
    let Some(node) = node_below(nodes, limit, k) else {
        return Piece::Never
    };
    if mark_at(marks, k) {
        marked_piece(k, node)
    } else {
        Piece::Atom
    }
}

// The node of this number, if it is one of the first so many.
fn node_below(nodes: &[ExprNode], limit: usize, k: usize) -> Option<ExprNode>
    ensures { result ≡ slice_get (take limit nodes.now) k }
{
    first(nodes, limit).get(k).copied()
}

// What a node is, before which there are k others, if a temporal operator stands in its part.
fn marked_piece(k: usize, node: ExprNode) -> Piece
    requires { k + 1 < 2 ^ 64 }
    ensures piece { (parts : List Resolved) → length parts ≡ k → has_temporal (resolved_by parts node) ≡ true → IsPiece parts (resolved_by parts node) result }
    ensures sound { (parts : List Resolved) → length parts ≡ k → has_temporal (resolved_by parts node) ≡ true → IsSoundPiece parts (resolved_by parts node) result }
{
    match node {
        ExprNode::Constant(..) => Piece::Atom,
        ExprNode::Slot(..) => Piece::Atom,
        ExprNode::Whole(..) => Piece::Atom,
        ExprNode::Next(..) => Piece::Atom,
        ExprNode::Named(_, _, a) => Piece::Same(a),
        ExprNode::Operand(a) => Piece::Same(a),
        ExprNode::Apply(_, operator, count) => {
            let left = k.saturating_sub(count);
            Piece::Joined(form_of(operator), left, left + 1)
        }
        ExprNode::Link(_, operator, a, b) => Piece::Joined(form_of(operator), a, b),
    }
}
