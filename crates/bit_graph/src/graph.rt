//! And-inverter graphs with gates for exclusive or and choice, in which equal gates are shared
//! (Kuehlmann, Paruthi, Krohm and Ganai 2002).

ghost use Rattle.std.specs.Prelude.{◌≡◌, ◌<◌, ◌≤◌, ◌+◌, ℕ, Bool, ◌&&◌, ◌||◌, ◌⊎◌, false, List, length, IfOk, IfSome, IsSome, ◌↔◌, slice_index_or, if◌then◌else◌, ◌++◌, ◌∷◌, [], replicate};
ghost use Rattle.bit_graph.specs.declared.edge.GraphNode.TheVariants.{False, Input};
ghost use Rattle.bit_graph.specs.Meaning.{edge_value, exclusive_or, gate_value, IsGate, IsNode, Consistent, Stands, Acyclic, IsNew, Denotes, HasInputs, IsBelow};
ghost use Rattle.bit_graph.specs.Growth.{Extends};
ghost use Rattle.bit_graph.specs.Sharing.{IsConstant, IsFalse, Folded, IsReduced};
ghost use Rattle.bit_graph.specs.Values.{OneWay};

use crate::edge::{Edge, GraphNode};
use std::alloc::{AllocError, AllocFailed, Global};
use std::collections::HashMap;
use std::marker::Model;

/// A graph of gates over inputs. Contracts see it as the list of its nodes.
///
/// Each gate's operands come before it, so that each assignment of the inputs gives each node one
/// value (`one_way`), and no two gates are the same (`reduced`).
#[derive(Drop)]
pub struct Graph {
    nodes: Vec<GraphNode>,
    // the number of a node that is always false
    falsehood: usize,
    // the number of each gate
    shared: HashMap<GraphNode, usize>,
}

impl Model for Graph {
    ghost use Rattle.std.specs.Prelude.{List};
    ghost use Rattle.bit_graph.specs.declared.edge.GraphNode.{GraphNode};
    ghost use Rattle.bit_graph.specs.declared.edge.GraphNode.TheVariants.{False};
    ghost use Rattle.bit_graph.specs.Meaning.{Acyclic, IsNode};
    ghost use Rattle.bit_graph.specs.Sharing.{IsFolded, SharesIn};

    ghost Value = { List GraphNode };

    ghost view = { λ g. g.nodes.items };

    ghost invariant = { λ g. Acyclic g.nodes.items × SharesIn g.nodes.items g.shared.entries × IsNode g.nodes.items g.falsehood False × IsFolded g.nodes.items };
}

impl Graph {
    /// A graph whose first `inputs` nodes are its inputs, and no other node.
    pub fn new(alloc: Global, inputs: usize) -> Result<Graph, AllocError>
        ensures inputs { IfOk result (λ g. HasInputs inputs g) }
        ensures length { IfOk result (λ g. inputs < length g) }
    {
        let nodes = first_nodes(alloc, inputs)?;
        Ok(Graph {
            nodes,
            falsehood: inputs,
            shared: HashMap::new(alloc),
        })
    }

    /// An edge that is always `value`.
    pub fn constant(&self, value: bool) -> Edge
        ensures stands { Stands self.now result }
        ensures constant { IsConstant self.now result }
        ensures value { Denotes self.now result (λ v. value) }
    {
        Edge {
            node: self.falsehood,
            negated: value,
        }
    }

    /// The value of an edge to a constant, and `None` where it leads to an input or a gate.
    pub fn as_constant(&self, a: Edge) -> Option<bool>
        requires { Stands self.now a }
        ensures constant { IsSome result ↔ IsConstant self.now a }
        ensures value { IfSome result (λ b. Denotes self.now a (λ v. b)) }
    {
        match self.node(a.node) {
            GraphNode::False => Some(a.negated),
            GraphNode::Input | GraphNode::And(..) | GraphNode::Xor(..) | GraphNode::Choice(..) =>
                None,
        }
    }

    /// The edge that is true where both are.
    ///
    /// Constants fold, and a gate that stands already is found again. If memory runs out, every
    /// earlier edge keeps its value.
    pub fn and(&mut self, a: Edge, b: Edge) -> Result<Edge, AllocError>
        requires a_stands { Stands self.old a }
        requires b_stands { Stands self.old b }
        ensures extends { Extends self.old self.new }
        ensures stands { IfOk result (λ e. Stands self.new e) }
        ensures value { IfOk result (λ e. Denotes self.new e (λ v. edge_value v a && edge_value v b)) }
    {
        match self.as_constant(a) {
            Some(true) => return Ok(b),
            Some(false) => return Ok(a),
            None => {}
        }
        match self.as_constant(b) {
            Some(true) => return Ok(a),
            Some(false) => return Ok(b),
            None => {}
        }
        if a.node < b.node {
            Ok(Edge::to(self.find_or_grow(GraphNode::And(a, b))?))
        } else if b.node < a.node {
            Ok(Edge::to(self.find_or_grow(GraphNode::And(b, a))?))
        } else if a.negated == b.negated {
            Ok(a)
        } else {
            Ok(self.constant(false))
        }
    }

    /// The edge that is true where one of them is; as `and`.
    pub fn or(&mut self, a: Edge, b: Edge) -> Result<Edge, AllocError>
        requires a_stands { Stands self.old a }
        requires b_stands { Stands self.old b }
        ensures extends { Extends self.old self.new }
        ensures stands { IfOk result (λ e. Stands self.new e) }
        ensures value { IfOk result (λ e. Denotes self.new e (λ v. edge_value v a || edge_value v b)) }
    {
        let neither = self.and(a.negation(), b.negation())?;
        Ok(neither.negation())
    }

    /// The edge that is true where just one of them is; as `and`.
    pub fn xor(&mut self, a: Edge, b: Edge) -> Result<Edge, AllocError>
        requires a_stands { Stands self.old a }
        requires b_stands { Stands self.old b }
        ensures extends { Extends self.old self.new }
        ensures stands { IfOk result (λ e. Stands self.new e) }
        ensures value { IfOk result (λ e. Denotes self.new e (λ v. exclusive_or (edge_value v a) (edge_value v b))) }
    {
        match self.as_constant(a) {
            Some(true) => return Ok(b.negation()),
            Some(false) => return Ok(b),
            None => {}
        }
        match self.as_constant(b) {
            Some(true) => return Ok(a.negation()),
            Some(false) => return Ok(a),
            None => {}
        }
        let negated = a.negated ^ b.negated;
        if a.node < b.node {
            let node = self.find_or_grow(GraphNode::Xor(a.node, b.node))?;
            Ok(Edge { node, negated })
        } else if b.node < a.node {
            let node = self.find_or_grow(GraphNode::Xor(b.node, a.node))?;
            Ok(Edge { node, negated })
        } else {
            Ok(self.constant(negated))
        }
    }

    /// The edge that is `a` where the condition is true, else `b`; as `and`.
    pub fn choose(&mut self, condition: Edge, a: Edge, b: Edge) -> Result<Edge, AllocError>
        requires condition_stands { Stands self.old condition }
        requires a_stands { Stands self.old a }
        requires b_stands { Stands self.old b }
        ensures extends { Extends self.old self.new }
        ensures stands { IfOk result (λ e. Stands self.new e) }
        ensures value { IfOk result (λ e. Denotes self.new e (λ v. if edge_value v condition then edge_value v a else edge_value v b)) }
    {
        match self.as_constant(condition) {
            Some(true) => Ok(a),
            Some(false) => Ok(b),
            None if condition.negated => self.choose_by(condition.node, b, a),
            None => self.choose_by(condition.node, a, b),
        }
    }

    // as `choose`, by a node
    fn choose_by(&mut self, node: usize, a: Edge, b: Edge) -> Result<Edge, AllocError>
        requires stands { node < length self.old }
        requires varies { IsFalse self.old node → ⊥ }
        requires a_stands { Stands self.old a }
        requires b_stands { Stands self.old b }
        ensures extends { Extends self.old self.new }
        ensures stands { IfOk result (λ e. Stands self.new e) }
        ensures value { IfOk result (λ e. Denotes self.new e (λ v. if v node then edge_value v a else edge_value v b)) }
    {
        let condition = Edge::to(node);
        let a = self.known(a, node, true);
        let b = self.known(b, node, false);
        match self.as_constant(a) {
            Some(true) => return self.or(condition, b),
            Some(false) => return self.and(condition.negation(), b),
            None => {}
        }
        match self.as_constant(b) {
            Some(true) => return self.or(condition.negation(), a),
            Some(false) => return self.and(condition, a),
            None => {}
        }
        if a.node != b.node {
            self.choice(node, a, b)
        } else if a.negated == b.negated {
            Ok(a)
        } else {
            self.xor(condition.negation(), a)
        }
    }

    // the edge as it is where the node has this value: a constant, if it leads to the node
    fn known(&self, e: Edge, node: usize, value: bool) -> Edge
        requires { Stands self.now e }
        ensures stands { Stands self.now result }
        ensures value { (v : ℕ → Bool) → Consistent v self.now → v node ≡ value → edge_value v result ≡ edge_value v e }
        ensures apart { IsConstant self.now result ⊎ (node ≡ result.node → ⊥) }
    {
        if e.node == node {
            self.constant(value ^ e.negated)
        } else {
            e
        }
    }

    fn choice(&mut self, node: usize, a: Edge, b: Edge) -> Result<Edge, AllocError>
        requires stands { node < length self.old }
        requires a_stands { Stands self.old a }
        requires b_stands { Stands self.old b }
        requires varies { IsFalse self.old node → ⊥ }
        requires a_varies { IsConstant self.old a → ⊥ }
        requires b_varies { IsConstant self.old b → ⊥ }
        requires other_a { node ≡ a.node → ⊥ }
        requires other_b { node ≡ b.node → ⊥ }
        requires apart { a.node ≡ b.node → ⊥ }
        ensures extends { Extends self.old self.new }
        ensures stands { IfOk result (λ e. Stands self.new e) }
        ensures value { IfOk result (λ e. Denotes self.new e (λ v. if v node then edge_value v a else edge_value v b)) }
    {
        let other = if a.negated { b.negation() } else { b };
        let chosen = self.find_or_grow(GraphNode::Choice(node, a.node, other))?;
        Ok(Edge {
            node: chosen,
            negated: a.negated,
        })
    }

    /// The node with this number.
    pub fn node(&self, number: usize) -> GraphNode
        requires { number < length self.now }
        ensures value { result ≡ slice_index_or self.now number Input }
        ensures below { IsBelow number result }
    {
        self.nodes[number]
    }

    /// The number of nodes; each node's operands come before it.
    pub fn len(&self) -> usize
        ensures value { result ≡ length self.now }
        ensures acyclic { Acyclic self.now }
    {
        self.nodes.len()
    }

    /// Whether there is no node: never so, as the constant is one.
    pub fn is_empty(&self) -> bool
        ensures { result ≡ false }
    {
        self.nodes.is_empty()
    }

    /// A law: each assignment of the inputs extends to the nodes in one way.
    pub fn one_way(&self)
        ensures law { OneWay self.now }
    {
        let _ = self.len();
    }

    /// A law: no two gates are the same, and the operands of each are different nodes and no
    /// constants.
    pub fn reduced(&self)
        ensures law { IsReduced self.now }
    {
        let _ = &self.shared;
    }

    fn find_or_grow(&mut self, gate: GraphNode) -> Result<usize, AllocError>
        requires gate { IsGate gate }
        requires below { IsBelow (length self.old) gate }
        requires folded { Folded self.old gate }
        ensures extends { Extends self.old self.new }
        ensures stands { IfOk result (λ k. k < length self.new) }
        ensures value { IfOk result (λ k. (v : ℕ → Bool) → Consistent v self.new → v k ≡ gate_value v gate) }
    {
        match self.shared.get(&gate) {
            Some(node) => Ok(*node),
            None => self.grow(gate),
        }
    }

    fn grow(&mut self, gate: GraphNode) -> Result<usize, AllocError>
        requires gate { IsGate gate }
        requires below { IsBelow (length self.old) gate }
        requires folded { Folded self.old gate }
        requires new { IsNew self.old gate }
        ensures extends { Extends self.old self.new }
        ensures stands { IfOk result (λ k. k < length self.new) }
        ensures value { IfOk result (λ k. (v : ℕ → Bool) → Consistent v self.new → v k ≡ gate_value v gate) }
    {
        let node = self.nodes.as_slice().len();
        self.nodes.push(gate)?;
        match self.shared.insert(gate, node) {
            Ok(_) => Ok(node),
            Err(failed) => {
                self.nodes.pop();
                Err(failed.into())
            }
        }
    }
}

// So many inputs, and behind them the node that is always false.
fn first_nodes(alloc: Global, inputs: usize) -> Result<Vec<GraphNode>, AllocError>
    ensures { IfOk result (λ r. r.items ≡ replicate inputs Input ++ False ∷ []) }
{
    let mut nodes = vec![in alloc; GraphNode::Input; inputs]?;
    nodes.push(GraphNode::False)?;
    Ok(nodes)
}
