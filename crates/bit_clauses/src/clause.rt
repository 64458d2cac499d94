//! Disjunctions of edges as clauses over the nodes of the graph.

ghost use Rattle.std.specs.Prelude.{◌≡◌, ◌<◌, ◌&&◌, ◌||◌, ℕ, Bool, List, true, length, All, Contains, IfOk, OnOk};
ghost use Rattle.bit_graph.specs.Meaning.{Consistent, Stands, edge_value};
ghost use Rattle.clause_core.specs.Literals.{Within};
ghost use Rattle.bit_graph.specs.declared.edge.GraphNode.{GraphNode as NodeOf};
ghost use Rattle.bit_clauses.specs.Asserted.{holds};
ghost use Rattle.bit_clauses.specs.Nodes.{all_true, any_edge, any_true};

use crate::either::Either;
use crate::splitting::{Split, halves};
use bit_graph::{Edge, Graph, GraphNode};
use clause_core::{Clauses, Lit};
use std::alloc::{AllocError, Global};

// Into how many parts a disjunction is opened at most, so that a clause has no more literals than one more.
const OPENED: usize = 64;

/// Adds what says that one of the two edges is true.
///
/// Where one leads to an input and the other to a gate, the gate's operands stand in its place.
pub fn push_either(
    alloc: Global,
    graph: &Graph,
    made: &mut Clauses,
    one: Edge,
    other: Edge,
) -> Result<(), AllocError>
    requires one { Stands graph.now one }
    requires other { Stands graph.now other }
    requires within { All (Within (length graph.now)) made.old }
    ensures within { OnOk result (All (Within (length graph.now)) made.new) }
    ensures value { OnOk result ((v : ℕ → Bool) → Consistent v graph.now → all_true v made.new ≡ (all_true v made.old && (edge_value v one || edge_value v other))) }
{
    if is_input(graph, one) {
        push_with(alloc, graph, made, one, other)
    } else if is_input(graph, other) {
        push_with(alloc, graph, made, other, one)
    } else {
        push_any(alloc, graph, made, &[one, other])
    }
}

fn is_input(graph: &Graph, edge: Edge) -> bool
    requires { Stands graph.now edge }
{
    match graph.node(edge.node) {
        GraphNode::Input => true,
        GraphNode::False | GraphNode::And(..) | GraphNode::Xor(..) | GraphNode::Choice(..) => false,
    }
}

// Adds what says that one of the two edges is true, by the operands of the second.
fn push_with(
    alloc: Global,
    graph: &Graph,
    made: &mut Clauses,
    one: Edge,
    other: Edge,
) -> Result<(), AllocError>
    requires one { Stands graph.now one }
    requires other { Stands graph.now other }
    requires within { All (Within (length graph.now)) made.old }
    ensures within { OnOk result (All (Within (length graph.now)) made.new) }
    ensures value { OnOk result ((v : ℕ → Bool) → Consistent v graph.now → all_true v made.new ≡ (all_true v made.old && (edge_value v one || edge_value v other))) }
{
    match halves(graph, other) {
        None => push_any(alloc, graph, made, &[one, other]),
        Some(
            Split {
                first,
                second: None,
            },
        ) => push_joined(alloc, graph, made, one, first),
        Some(
            Split {
                first,
                second: Some(second),
            },
        ) => {
            push_joined(alloc, graph, made, one, first)?;
            push_joined(alloc, graph, made, one, second)?;
            Ok(())
        }
    }
}

// Adds that the edge is true or the condition holds.
fn push_joined(
    alloc: Global,
    graph: &Graph,
    made: &mut Clauses,
    edge: Edge,
    either: Either,
) -> Result<(), AllocError>
    requires edge { Stands graph.now edge }
    requires one { Stands graph.now either.one }
    requires other { Stands graph.now either.other }
    requires within { All (Within (length graph.now)) made.old }
    ensures within { OnOk result (All (Within (length graph.now)) made.new) }
    ensures value { OnOk result ((v : ℕ → Bool) → Consistent v graph.now → all_true v made.new ≡ (all_true v made.old && (edge_value v edge || (edge_value v either.one || edge_value v either.other)))) }
{
    push_any(alloc, graph, made, &[edge, either.one, either.other])
}

/// Adds a clause that says that one of the edges is true, in which parts that are disjunctions are opened.
#[tactic(auto, using(crate::proofs::Pushing::all_true_more))]
pub fn push_any(
    alloc: Global,
    graph: &Graph,
    made: &mut Clauses,
    edges: &[Edge],
) -> Result<(), AllocError>
    requires stand { All (Stands graph.now) edges.now }
    requires within { All (Within (length graph.now)) made.old }
    ensures within { OnOk result (All (Within (length graph.now)) made.new) }
    ensures value { OnOk result ((v : ℕ → Bool) → Consistent v graph.now → all_true v made.new ≡ (all_true v made.old && any_edge v edges.now)) }
{
    let clause = opened(alloc, graph, edges)?;
    made.push(&clause)
}

// The literals of the edges, in which parts that are disjunctions are opened.
fn opened(alloc: Global, graph: &Graph, edges: &[Edge]) -> Result<Vec<Lit>, AllocError>
    requires { All (Stands graph.now) edges.now }
    ensures within { IfOk result (λ c. Within (length graph.now) c.items) }
    ensures value { IfOk result (λ c. (v : ℕ → Bool) → Consistent v graph.now → any_true v c.items ≡ any_edge v edges.now) }
{
    let mut parts = Vec::from_slice(alloc, edges)?;
    let mut clause = Vec::new(alloc);
    'parts: for _ in 0..OPENED {
        open_last(graph, &mut parts, &mut clause)?;
    }
    'rest: for e in &parts {
        add(&mut clause, *e)?;
    }
    Ok(clause)
}

// Opens the last edge, or takes it over into the clause.
fn open_last(graph: &Graph, parts: &mut Vec<Edge>, clause: &mut Vec<Lit>) -> Result<(), AllocError>
    requires stand { All (Stands graph.now) parts.old.items }
    requires within { Within (length graph.now) clause.old.items }
    ensures stand { OnOk result (All (Stands graph.now) parts.new.items) }
    ensures within { OnOk result (Within (length graph.now) clause.new.items) }
    ensures value { OnOk result ((v : ℕ → Bool) → Consistent v graph.now → (any_true v clause.new.items || any_edge v parts.new.items) ≡ (any_true v clause.old.items || any_edge v parts.old.items)) }
{
    match parts.pop() {
        None => Ok(()),
        Some(edge) => match halves(graph, edge) {
            Some(
                Split {
                    first,
                    second: None,
                },
            ) => push_both(parts, first),
            Some(
                Split {
                    second: Some(_),
                    ..
                },
            )
            | None => add(clause, edge),
        },
    }
}

#[tactic(auto, using(crate::proofs::Pushing::any_edge_more, crate::proofs::Pushing::stand_more))]
fn push_both(parts: &mut Vec<Edge>, either: Either) -> Result<(), AllocError>
    ensures stand { OnOk result ((g : List NodeOf) → All (Stands g) parts.old.items → Stands g either.one → Stands g either.other → All (Stands g) parts.new.items) }
    ensures value { OnOk result ((v : ℕ → Bool) → any_edge v parts.new.items ≡ (any_edge v parts.old.items || holds v either)) }
{
    parts.push(either.one)?;
    parts.push(either.other)?;
    Ok(())
}

// Adds the edge's literal, where it is not among them.
#[tactic(auto, using(crate::proofs::Pushing::any_true_edge, crate::proofs::Pushing::any_true_has))]
fn add(clause: &mut Vec<Lit>, edge: Edge) -> Result<(), AllocError>
    ensures within { OnOk result ((n : ℕ) → edge.node < n → Within n clause.old.items → Within n clause.new.items) }
    ensures value { OnOk result ((v : ℕ → Bool) → any_true v clause.new.items ≡ (any_true v clause.old.items || edge_value v edge)) }
{
    let literal = Lit::new(edge.node, !edge.negated);
    if !has(clause, literal) {
        clause.push(literal)?;
    }
    Ok(())
}

fn has(clause: &[Lit], literal: Lit) -> bool
    ensures { result ≡ true → Contains clause.now literal }
{
    for l in clause {
        if l.is_same(literal) {
            return true;
        }
    }
    false
}
