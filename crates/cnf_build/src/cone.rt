//! The cone of influence of some roots: the nodes that they depend on.

ghost use Rattle.std.specs.Prelude.{◌≡◌, ◌<◌, ◌≤◌, ℕ, Bool, true, length, IfOk, All};
ghost use Rattle.bit_graph.specs.Meaning.{Stands, IsBelow};
ghost use Rattle.cnf_build.specs.Cone.{marked, IsCone, RootsLive, AllReached, Included, Reaches};

use bit_graph::{Edge, Graph, GraphNode};
use std::alloc::{AllocError, Global};

// Marks the nodes that the roots reach: an operand is before its node, so one pass down is enough.
pub fn cone(alloc: Global, graph: &Graph, roots: &[Edge]) -> Result<Vec<bool>, AllocError>
    requires { All (Stands graph.now) roots.now }
    ensures size { IfOk result (λ m. length m.items ≡ length graph.now) }
    ensures cone { IfOk result (λ m. IsCone (marked m.items) graph.now) }
    ensures roots { IfOk result (λ m. RootsLive (marked m.items) roots.now) }
    ensures reached { IfOk result (λ m. AllReached (marked m.items) graph.now roots.now) }
{
    let size = graph.len();
    let mut marks = vec![in alloc; false; size]?;
    'roots: for e in roots {
        mark(&mut marks, e.node);
    }
    'nodes: for k in (0..size).rev() {
        if marks[k] {
            mark_operands(&mut marks, k, graph.node(k));
        }
    }
    Ok(marks)
}

fn mark(marks: &mut Vec<bool>, node: usize)
    requires { node < length marks.old.items }
    ensures size { length marks.new.items ≡ length marks.old.items }
    ensures grows { Included (marked marks.old.items) (marked marks.new.items) }
    ensures marks { marked marks.new.items node ≡ true }
    ensures same { (j : ℕ) → node < j → marked marks.new.items j ≡ marked marks.old.items j }
    ensures least { (live : ℕ → Bool) → live node ≡ true → Included (marked marks.old.items) live → Included (marked marks.new.items) live }
{
    marks[node] = true;
}

fn mark_operands(marks: &mut Vec<bool>, k: usize, node: GraphNode)
    requires size { k < length marks.old.items }
    requires below { IsBelow k node }
    ensures size { length marks.new.items ≡ length marks.old.items }
    ensures grows { Included (marked marks.old.items) (marked marks.new.items) }
    ensures same { (j : ℕ) → k ≤ j → marked marks.new.items j ≡ marked marks.old.items j }
    ensures reaches { Reaches (marked marks.new.items) node }
    ensures least { (live : ℕ → Bool) → Reaches live node → Included (marked marks.old.items) live → Included (marked marks.new.items) live }
{
    match node {
        GraphNode::False | GraphNode::Input => {}
        GraphNode::And(a, b) => {
            mark(marks, a.node);
            mark(marks, b.node);
        }
        GraphNode::Xor(a, b) => {
            mark(marks, a);
            mark(marks, b);
        }
        GraphNode::Choice(c, a, b) => {
            mark(marks, c);
            mark(marks, a);
            mark(marks, b.node);
        }
    }
}
