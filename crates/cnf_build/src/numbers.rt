//! Numbers the inputs and the marked nodes of a graph: their variables.

ghost use Rattle.std.specs.Prelude.{◌≡◌, ◌≤◌, ◌+◌, length, IfOk, if◌then◌else◌, ◌||◌};
ghost use Rattle.cnf_build.specs.Cone.{marked};
ghost use Rattle.cnf_build.specs.Numbering.{is_input, is_named, count_below, AreNumbers};

use bit_graph::{Graph, GraphNode};
use std::alloc::{AllocError, Global};

// For each node the number of inputs and marked nodes before it, and how many there are in all.
pub fn numbers(
    alloc: Global,
    graph: &Graph,
    marks: &[bool],
) -> Result<(Vec<usize>, usize), AllocError>
    requires { length marks.now ≡ length graph.now }
    ensures size { IfOk result (λ r. length r.0.items ≡ length graph.now) }
    ensures numbers { IfOk result (λ r. AreNumbers (is_named (marked marks.now) graph.now) r.0.items) }
    ensures count { IfOk result (λ r. r.1 ≡ count_below (is_named (marked marks.now) graph.now) (length graph.now)) }
{
    let mut names = Vec::new(alloc);
    let mut count = 0;
    'nodes: for k in 0..graph.len() {
        names.push(count)?;
        count += one_if(marks[k] || is_input(graph.node(k)));
    }
    Ok((names, count))
}

fn one_if(named: bool) -> usize
    ensures { result ≡ (if named then 1 else 0) }
{
    if named { 1 } else { 0 }
}

fn is_input(node: GraphNode) -> bool
    ensures { result ≡ is_input node }
{
    match node {
        GraphNode::Input => true,
        GraphNode::False | GraphNode::And(..) | GraphNode::Xor(..) | GraphNode::Choice(..) => false,
    }
}
