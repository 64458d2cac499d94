//! The values of a graph's nodes under an assignment of its inputs.

ghost use Rattle.std.specs.Prelude.{◌≡◌, ◌<◌, ℕ, false, length, IfOk, slice_index_or};
ghost use Rattle.bit_graph.specs.Meaning.{IsBelow, edge_value};
ghost use Rattle.bit_graph.specs.Values.{assigned, node_value, values};

use crate::edge::{Edge, GraphNode};
use crate::graph::Graph;
use std::alloc::{AllocError, Global};

/// The values of all nodes, where the inputs have these values; an input past their end is false.
pub fn evaluate(alloc: Global, graph: &Graph, inputs: &[bool]) -> Result<Vec<bool>, AllocError>
    ensures length { IfOk result (λ r. length r.items ≡ length graph.now) }
    ensures value { IfOk result (λ r. (k : ℕ) → k < length graph.now → assigned r.items k ≡ values (assigned inputs.now) graph.now k) }
{
    let size = graph.len();
    let mut known = Vec::new(alloc);
    'nodes: for k in 0..size {
        let value = value_at(graph.node(k), k, &known, inputs);
        known.push(value)?;
    }
    Ok(known)
}

fn value_at(node: GraphNode, number: usize, known: &[bool], inputs: &[bool]) -> bool
    requires count { length known.now ≡ number }
    requires below { IsBelow number node }
    ensures { result ≡ node_value (assigned inputs.now) (assigned known.now) number node }
{
    match node {
        GraphNode::False => false,
        GraphNode::Input => input_at(inputs, number),
        GraphNode::And(a, b) => {
            let first = edge_at(known, a);
            let second = edge_at(known, b);
            first && second
        }
        GraphNode::Xor(a, b) => { if known[a] { !known[b] } else { known[b] } }
        GraphNode::Choice(c, a, b) => {
            if known[c] {
                known[a]
            } else {
                edge_at(known, b)
            }
        }
    }
}

fn input_at(inputs: &[bool], number: usize) -> bool
    ensures { result ≡ assigned inputs.now number }
{
    if number < inputs.len() {
        inputs[number]
    } else {
        false
    }
}

fn edge_at(known: &[bool], e: Edge) -> bool
    requires { e.node < length known.now }
    ensures { result ≡ edge_value (assigned known.now) e }
{
    if e.negated {
        !known[e.node]
    } else {
        known[e.node]
    }
}
