//! The part of a graph that edges read, as a graph of its own.

ghost use Rattle.std.specs.Prelude.{◌<◌, ℕ, Bool, ◌&&◌, List, length, All, IfOk, OnOk, if◌then◌else◌};
ghost use Rattle.bit_graph.specs.declared.edge.GraphNode.{GraphNode as Gate};
ghost use Rattle.bit_graph.specs.Growth.{Extends};
ghost use Rattle.bit_graph.specs.Meaning.{HasInputs, IsBelow, Stands, exclusive_or};
ghost use Rattle.bit_graph.specs.Values.{value_under, values};
ghost use Rattle.bit_faults.specs.Cones.{Copies, IsCopy, Takes};
ghost use Rattle.bit_faults.specs.Formulas.{StandsIfAny};

use bit_graph::{Edge, Graph, GraphNode};
use std::alloc::{AllocError, Global};
use std::collections::HashMap;

/// A graph into which parts of another are taken over, with the same inputs.
#[derive(Drop)]
pub struct Cone {
    pub graph: Graph,
    // for each node that was taken over the edge that has its value
    pub places: HashMap<usize, Edge>,
    /// The inputs that are read by what was taken over.
    pub read: Vec<usize>,
}

impl Cone {
    /// A graph with so many inputs, into which nothing is taken over yet. The only error is running out of memory.
    pub fn new(alloc: Global, inputs: usize) -> Result<Cone, AllocError>
        ensures copies { IfOk result (λ x. (g : List Gate) → Copies inputs g x) }
    {
        let graph = Graph::new(alloc, inputs)?;
        Ok(Cone {
            graph,
            places: HashMap::new(alloc),
            read: Vec::new(alloc),
        })
    }
}

/// Takes an edge of the graph over into the cone, with all that it leads to, and gives the edge that has its value
/// there.
///
/// Time and memory grow with the nodes that the edge leads to and that were not taken over before. The only error is
/// running out of memory.
pub fn take_over(
    alloc: Global,
    graph: &Graph,
    cone: &mut Cone,
    inputs: usize,
    edge: Edge,
) -> Result<Edge, AllocError>
    requires inputs { HasInputs inputs graph.now }
    requires copies { Copies inputs graph.now cone.old }
    requires stands { Stands graph.now edge }
    ensures copies { OnOk result (Copies inputs graph.now cone.new) }
    ensures extends { OnOk result (Extends cone.old.graph cone.new.graph) }
    ensures taken { IfOk result (λ e. IsCopy cone.new.graph cone.new.read.items e (λ a. value_under a graph.now edge)) }
{
    let mut rest = Vec::new(alloc);
    rest.push(edge.node)?;
    'nodes: for _ in 0..usize::MAX {
        match rest.pop() {
            None => break,
            Some(node) => take_next(graph, cone, inputs, &mut rest, node)?,
        }
    }
    // The node is there: one is left alone only once it is.
    match taken(cone, edge) {
        Some(copy) => Ok(copy),
        None => Err(AllocError),
    }
}

// Takes a node over, if its operands are. If not, these are next, and then the node.
fn take_next(
    graph: &Graph,
    cone: &mut Cone,
    inputs: usize,
    rest: &mut Vec<usize>,
    node: usize,
) -> Result<(), AllocError>
    requires inputs { HasInputs inputs graph.now }
    requires copies { Copies inputs graph.now cone.old }
    requires node { node < length graph.now }
    requires rest { All (λ k. k < length graph.now) rest.old.items }
    ensures copies { OnOk result (Copies inputs graph.now cone.new) }
    ensures extends { OnOk result (Extends cone.old.graph cone.new.graph) }
    ensures rest { OnOk result (All (λ k. k < length graph.now) rest.new.items) }
{
    if taken(cone, Edge::to(node)).is_some() {
        return Ok(());
    }
    match copy_of(graph, cone, inputs, node)? {
        Some(copy) => {
            cone.places.insert(node, copy)?;
            Ok(())
        }
        None => {
            rest.push(node)?;
            push_operands(rest, graph.node(node))?;
            Ok(())
        }
    }
}

// Adds the operands of a node.
fn push_operands(rest: &mut Vec<usize>, node: GraphNode) -> Result<(), AllocError>
    ensures { OnOk result ((n k : ℕ) → IsBelow k node → k < n → All (λ i. i < n) rest.old.items → All (λ i. i < n) rest.new.items) }
{
    match node {
        GraphNode::False | GraphNode::Input => {}
        GraphNode::And(a, b) => {
            rest.push(a.node)?;
            rest.push(b.node)?;
        }
        GraphNode::Xor(a, b) => {
            rest.push(a)?;
            rest.push(b)?;
        }
        GraphNode::Choice(c, a, b) => {
            rest.push(c)?;
            rest.push(a)?;
            rest.push(b.node)?;
        }
    }
    Ok(())
}

// The edge in the cone that has the value of a node, if its operands are there. An input that it is is noted.
fn copy_of(
    graph: &Graph,
    cone: &mut Cone,
    inputs: usize,
    node: usize,
) -> Result<Option<Edge>, AllocError>
    requires inputs { HasInputs inputs graph.now }
    requires copies { Copies inputs graph.now cone.old }
    requires node { node < length graph.now }
    ensures copies { OnOk result (Copies inputs graph.now cone.new) }
    ensures extends { OnOk result (Extends cone.old.graph cone.new.graph) }
    ensures taken { IfOk result (λ copy. Takes cone.new.graph cone.new.read.items copy (λ a. values a graph.now node)) }
{
    graph.one_way();
    match graph.node(node) {
        GraphNode::False => Ok(Some(cone.graph.constant(false))),
        GraphNode::Input => {
            cone.read.push(node)?;
            Ok(Some(Edge::to(node)))
        }
        GraphNode::And(a, b) => {
            let one = taken(cone, a);
            let other = taken(cone, b);
            let copy = both(&mut cone.graph, one, other)?;
            Ok(copy)
        }
        GraphNode::Xor(a, b) => {
            let one = taken(cone, Edge::to(a));
            let other = taken(cone, Edge::to(b));
            let copy = just_one(&mut cone.graph, one, other)?;
            Ok(copy)
        }
        GraphNode::Choice(c, a, b) => {
            let condition = taken(cone, Edge::to(c));
            let one = taken(cone, Edge::to(a));
            let other = taken(cone, b);
            let copy = chosen(&mut cone.graph, condition, one, other)?;
            Ok(copy)
        }
    }
}

// The edge that has the value of an edge of the other graph, if it is there.
fn taken(cone: &Cone, edge: Edge) -> Option<Edge>
    ensures { (n : ℕ) (g : List Gate) → Copies n g cone.now → Takes cone.now.graph cone.now.read.items result (λ a. value_under a g edge) }
{
    match cone.places.get(&edge.node) {
        None => None,
        Some(copy) => Some(Edge {
            node: copy.node,
            negated: copy.negated ^ edge.negated,
        }),
    }
}

// The edge that is true where both are, if they are there.
fn both(
    graph: &mut Graph,
    one: Option<Edge>,
    other: Option<Edge>,
) -> Result<Option<Edge>, AllocError>
    requires one { StandsIfAny graph.old one }
    requires other { StandsIfAny graph.old other }
    ensures extends { Extends graph.old graph.new }
    ensures taken { IfOk result (λ r. (read : List ℕ) (f h : (ℕ → Bool) → Bool) → Takes graph.old read one f → Takes graph.old read other h →
        Takes graph.new read r (λ a. f a && h a)) }
{
    match one {
        None => Ok(None),
        Some(one) => match other {
            None => Ok(None),
            Some(other) => {
                let edge = graph.and(one, other)?;
                Ok(Some(edge))
            }
        },
    }
}

// The edge that is true where just one of them is, if they are there.
fn just_one(
    graph: &mut Graph,
    one: Option<Edge>,
    other: Option<Edge>,
) -> Result<Option<Edge>, AllocError>
    requires one { StandsIfAny graph.old one }
    requires other { StandsIfAny graph.old other }
    ensures extends { Extends graph.old graph.new }
    ensures taken { IfOk result (λ r. (read : List ℕ) (f h : (ℕ → Bool) → Bool) → Takes graph.old read one f → Takes graph.old read other h →
        Takes graph.new read r (λ a. exclusive_or (f a) (h a))) }
{
    match one {
        None => Ok(None),
        Some(one) => match other {
            None => Ok(None),
            Some(other) => {
                let edge = graph.xor(one, other)?;
                Ok(Some(edge))
            }
        },
    }
}

// The edge that is the first of two where the condition is true, else the second, if they are there.
fn chosen(
    graph: &mut Graph,
    condition: Option<Edge>,
    one: Option<Edge>,
    other: Option<Edge>,
) -> Result<Option<Edge>, AllocError>
    requires condition { StandsIfAny graph.old condition }
    requires one { StandsIfAny graph.old one }
    requires other { StandsIfAny graph.old other }
    ensures extends { Extends graph.old graph.new }
    ensures taken { IfOk result (λ r. (read : List ℕ) (c f h : (ℕ → Bool) → Bool) → Takes graph.old read condition c → Takes graph.old read one f →
        Takes graph.old read other h → Takes graph.new read r (λ a. if c a then f a else h a)) }
{
    match condition {
        None => Ok(None),
        Some(condition) => match one {
            None => Ok(None),
            Some(one) => match other {
                None => Ok(None),
                Some(other) => {
                    let edge = graph.choose(condition, one, other)?;
                    Ok(Some(edge))
                }
            },
        },
    }
}
