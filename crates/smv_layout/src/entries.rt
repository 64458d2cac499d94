//! What stands for the nodes before one.

ghost use Rattle.std.specs.Prelude.{◌≡◌, map, IfOk, OnOk};
ghost use Rattle.std.specs.List.{All};
ghost use Rattle.smv_resolve.specs.Resolved.{part_of, parts_of, resolved_by};
ghost use Rattle.smv_resolve.specs.Finding.{Grows};
ghost use Rattle.smv_layout.specs.Layout.{Laid, value_of};
ghost use Rattle.smv_layout.specs.Nodes.{IsLaid, Stands, laid_at, node_of};

use crate::laid::LaidNode;
use crate::nodes::push;
use smv_resolve::ExprNode;
use sqlite_items::{Items, at};
use std::alloc::{AllocError, Global};

/// A node more, which is a value.
pub fn push_value(nodes: &mut Items<ExprNode>, node: ExprNode) -> Result<LaidNode, AllocError>
    ensures grows { OnOk result (Grows nodes.old nodes.new) }
    ensures laid { IfOk result (λ x. IsLaid nodes.new x (Laid.Value (resolved_by (parts_of nodes.old) node))) }
{
    let n = push(nodes, node)?;
    Ok(LaidNode::Value(n))
}

/// The node of a value, or of what stands for an array where no element is meant.
pub fn value_of(x: &LaidNode) -> usize
    ensures { result ≡ node_of x.now }
{
    match x {
        LaidNode::Value(n) => *n,
        LaidNode::Array(array) => array.whole,
    }
}

/// Those of several.
pub fn values_of(alloc: Global, xs: &[LaidNode]) -> Result<Vec<usize>, AllocError>
    ensures { IfOk result (λ values. values.items ≡ map node_of xs.now) }
{
    let mut values = Vec::new(alloc);
    for x in xs {
        values.push(value_of(x))?;
    }
    Ok(values)
}

/// The node of what stands for the node of this number. Where there is none before, it is the number of none.
pub fn value_at(nodes: &Items<ExprNode>, entries: &[LaidNode], k: usize) -> usize
    ensures { part_of nodes.now result ≡ value_of (laid_at nodes.now entries.now k) }
{
    match at(entries, k) {
        None => nodes.len(),
        Some(x) => value_of(x),
    }
}

/// What stands for the node of this number. Where there is none before, what stands for it is stuck.
pub fn copy_at(
    alloc: Global,
    nodes: &mut Items<ExprNode>,
    entries: &[LaidNode],
    k: usize,
) -> Result<LaidNode, AllocError>
    requires { All (Stands nodes.old) entries.now }
    ensures grows { OnOk result (Grows nodes.old nodes.new) }
    ensures laid { IfOk result (λ x. IsLaid nodes.new x (laid_at nodes.old entries.now k)) }
{
    match at(entries, k) {
        None => {
            let past = nodes.len();
            push_value(nodes, ExprNode::Operand(past))
        }
        Some(x) => x.copied(alloc),
    }
}
