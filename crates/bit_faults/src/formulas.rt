//! Where temporal formulas fault, as edges: one pass over the nodes.

ghost use Rattle.std.specs.Prelude.{◌≡◌, [], ℕ, Bool, List, None, IfOk, slice_index_or};
ghost use Rattle.bit_graph.specs.declared.edge.GraphNode.{GraphNode as Gate};
ghost use Rattle.bit_graph.specs.Growth.{Extends};
ghost use Rattle.bit_graph.specs.Meaning.{Consistent};
ghost use Rattle.smv_value.specs.declared.value.Value.{Value};
ghost use Rattle.smv_slots.specs.declared.slot.Slot.{Slot};
ghost use Rattle.smv_resolve.specs.Resolved.{Resolved, parts_of, resolved_by};
ghost use Rattle.smv_meaning.specs.declared.outcome.Evaluation.{Evaluation};
ghost use Rattle.smv_meaning.specs.Tables.{outcome_at, outcomes_of};
ghost use Rattle.smv_meaning.specs.Values.{outcome};
ghost use Rattle.bit_outcomes.specs.Telling.{AllTold, Tells, TellsAll, ToldStands};
ghost use Rattle.bit_faults.specs.Formulas.{AllStandIfAny, StandsIfAny, TellsFormula, TellsFormulas, TellsOwn, TellsSome};

use bit_graph::{Edge, Graph};
use bit_outcomes::{Told, fault_edge};
use smv_meaning::is_over_formulas;
use smv_resolve::{ExprNode, last};
use sqlite_items::Items;
use std::alloc::{AllocError, Global};

/// For each node the edge that is true where some part of it faults, as a temporal formula, in a state with inputs,
/// where `here` tells of the nodes there. There is none where nothing is told.
///
/// It takes a gate for each operand of a temporal operator or a proposition. The only error is running out of memory.
pub fn formula_edges(
    alloc: Global,
    graph: &mut Graph,
    nodes: &[ExprNode],
    here: &[Told],
) -> Result<Items<Option<Edge>>, AllocError>
    requires { AllTold graph.old here.now }
    ensures extends { Extends graph.old graph.new }
    ensures stand { IfOk result (λ es. AllStandIfAny graph.new es) }
    ensures told { IfOk result (λ es. (v : ℕ → Bool) (slots : List Slot) (s u : List Value) → Consistent v graph.new → TellsAll v here.now (outcomes_of slots s u [] nodes.now) →
        TellsFormulas v slots s u es (parts_of nodes.now)) }
{
    let mut made = Items::new(alloc);
    for (i, node) in nodes.iter().enumerate() {
        let mine = own_fault(here, i);
        let edge = edge_of_node(graph, mine, made.as_slice(), node)?;
        made.push(edge)?;
    }
    Ok(made)
}

// The edge that is true where the node of this number faults, if something is told of it.
fn own_fault(here: &[Told], k: usize) -> Option<Edge>
    ensures stands { (g : List Gate) → AllTold g here.now → StandsIfAny g result }
    ensures told { (v : ℕ → Bool) (os : List Evaluation) → TellsAll v here.now os → TellsOwn v result (outcome_at os k) }
{
    if k < here.len() {
        fault_if_told(&here[k])
    } else {
        None
    }
}

fn fault_if_told(told: &Told) -> Option<Edge>
    ensures stands { (g : List Gate) → ToldStands g told.now → StandsIfAny g result }
    ensures told { (v : ℕ → Bool) (o : Evaluation) → Tells v told.now o → TellsOwn v result o }
{
    match fault_edge(told) {
        Ok(edge) => Some(edge),
        Err(_) => None,
    }
}

// The edge of a node, by those of the nodes before it and that of its own outcome.
fn edge_of_node(
    graph: &mut Graph,
    mine: Option<Edge>,
    edges: &[Option<Edge>],
    node: &ExprNode,
) -> Result<Option<Edge>, AllocError>
    requires mine { StandsIfAny graph.old mine }
    requires edges { AllStandIfAny graph.old edges.now }
    ensures extends { Extends graph.old graph.new }
    ensures stands { IfOk result (λ r. StandsIfAny graph.new r) }
    ensures told { IfOk result (λ r. (v : ℕ → Bool) (slots : List Slot) (s u : List Value) (parts : List Resolved) → Consistent v graph.new → TellsFormulas v slots s u edges.now parts →
        TellsOwn v mine (outcome slots s u [] (resolved_by parts node.now)) → TellsFormula v slots s u r (resolved_by parts node.now)) }
{
    match *node {
        ExprNode::Constant(..) => Ok(Some(graph.constant(false))),
        ExprNode::Slot(..) => Ok(Some(graph.constant(false))),
        ExprNode::Whole(..) => Ok(None),
        ExprNode::Named(..) => Ok(mine),
        ExprNode::Next(..) => Ok(None),
        ExprNode::Operand(a) => Ok(edge_at(edges, a)),
        ExprNode::Apply(_, operator, count) => if is_over_formulas(operator) {
            let some = some_fault(graph, last(edges, count))?;
            Ok(some)
        } else {
            Ok(mine)
        },
        ExprNode::Link(_, operator, a, b) => if is_over_formulas(operator) {
            let some = some_fault(graph, &[edge_at(edges, a), edge_at(edges, b)])?;
            Ok(some)
        } else {
            Ok(mine)
        },
    }
}

/// The edge of the node of this number, if there is one.
pub fn edge_at(edges: &[Option<Edge>], k: usize) -> Option<Edge>
    ensures { result ≡ slice_index_or edges.now k None }
{
    match edges.get(k) {
        None => None,
        Some(edge) => *edge,
    }
}

// The edge that is true where one of these is, if there are all.
fn some_fault(graph: &mut Graph, edges: &[Option<Edge>]) -> Result<Option<Edge>, AllocError>
    requires { AllStandIfAny graph.old edges.now }
    ensures extends { Extends graph.old graph.new }
    ensures stands { IfOk result (λ r. StandsIfAny graph.new r) }
    ensures told { IfOk result (λ r. (v : ℕ → Bool) (slots : List Slot) (s u : List Value) (parts : List Resolved) → Consistent v graph.new → TellsFormulas v slots s u edges.now parts →
        TellsSome v slots s u r parts) }
{
    let mut any = graph.constant(false);
    for edge in edges {
        match *edge {
            None => return Ok(None),
            Some(other) => {
                let more = graph.or(any, other)?;
                any = more;
            }
        }
    }
    Ok(Some(any))
}
