//! Nodes that are pushed one behind the other.

ghost use Rattle.std.specs.Prelude.{◌≡◌, [], ◌∷◌, ◌++◌, List, IfOk, OnOk};
ghost use Rattle.smv_resolve.specs.Resolved.{Resolved, operands_of, parts_of, resolved_by};
ghost use Rattle.smv_resolve.specs.Finding.{Grows};
ghost use Rattle.smv_layout.specs.Nodes.{AreNodes, IsNode};

use smv_resolve::ExprNode;
use smv_tree::Place;
use smv_value::Operator;
use sqlite_items::Items;
use std::alloc::AllocError;

/// One node more, over those before it.
pub fn push(nodes: &mut Items<ExprNode>, node: ExprNode) -> Result<usize, AllocError>
    ensures grows { OnOk result (Grows nodes.old nodes.new) }
    ensures parts { OnOk result (parts_of nodes.new ≡ parts_of nodes.old ++ resolved_by (parts_of nodes.old) node ∷ []) }
    ensures node { IfOk result (λ n. IsNode nodes.new n (resolved_by (parts_of nodes.old) node)) }
{
    let number = nodes.len();
    nodes.push(node)?;
    Ok(number)
}

/// An operator over the nodes of these numbers.
pub fn push_apply(
    nodes: &mut Items<ExprNode>,
    place: Place,
    operator: Operator,
    operands: &[usize],
) -> Result<usize, AllocError>
    ensures grows { OnOk result (Grows nodes.old nodes.new) }
    ensures node { IfOk result (λ n. (rs : List Resolved) → AreNodes nodes.old operands.now rs → IsNode nodes.new n (Resolved.Apply place operator (operands_of rs))) }
{
    for k in operands {
        push(nodes, ExprNode::Operand(*k))?;
    }
    let node = push(nodes, ExprNode::Apply(place, operator, operands.len()))?;
    Ok(node)
}
