//! Marks of nodes: those that are read by marked nodes are marked too, from the last node to the first.

ghost use Rattle.std.specs.Prelude.{◌≡◌, ◌≤◌, ◌-◌, ◌==◌, ◌||◌, ◌&&◌, length, nat_lt, nat_le};
ghost use Rattle.fault_texts.specs.Marks.{Marks, Spreads, reads};

use smv_resolve::ExprNode;

/// Marks all nodes that these lead to, outside of `next`. It takes the time of the nodes and their operands.
pub fn spread(nodes: &[ExprNode], marks: &mut Vec<bool>)
    requires long { length marks.old.items ≡ length nodes.now }
    ensures { Spreads nodes.now marks.old.items marks.new.items }
{
    'nodes: for k in (0..nodes.len()).rev() {
        if marks[k] {
            mark_read(marks, k, nodes[k]);
        }
    }
}

// Marks the nodes that the node of number k reads.
fn mark_read(marks: &mut Vec<bool>, k: usize, node: ExprNode)
    requires within { k ≤ length marks.old.items }
    ensures { Marks (reads k node) marks.old.items marks.new.items }
{
    match node {
        ExprNode::Constant(..) => {}
        ExprNode::Slot(..) => {}
        ExprNode::Whole(..) => {}
        ExprNode::Named(_, _, a) => mark_one(marks, k, a),
        ExprNode::Next(..) => {}
        ExprNode::Operand(a) => mark_one(marks, k, a),
        ExprNode::Apply(_, _, count) => mark_last(marks, k, count),
        ExprNode::Link(_, _, a, b) => mark_two(marks, k, a, b),
    }
}

/// Marks a node, if it stands before number k.
pub fn mark_one(marks: &mut Vec<bool>, k: usize, a: usize)
    requires within { k ≤ length marks.old.items }
    ensures { Marks (λ j. nat_lt j k && j == a) marks.old.items marks.new.items }
{
    if a < k {
        marks[a] = true;
    }
}

// Marks two nodes, each if it stands before number k.
fn mark_two(marks: &mut Vec<bool>, k: usize, a: usize, b: usize)
    requires within { k ≤ length marks.old.items }
    ensures { Marks (λ j. nat_lt j k && (j == a || j == b)) marks.old.items marks.new.items }
{
    mark_one(marks, k, a);
    mark_one(marks, k, b);
}

// Marks so many nodes right before number k.
fn mark_last(marks: &mut Vec<bool>, k: usize, count: usize)
    requires within { k ≤ length marks.old.items }
    ensures { Marks (λ j. nat_lt j k && nat_le (k - count) j) marks.old.items marks.new.items }
{
    let first = k.saturating_sub(count);
    for j in first..k {
        marks[j] = true;
    }
}
