//! What is told of the nodes of a list.

ghost use Rattle.std.specs.Prelude.{◌≡◌, ◌∷◌, [], ℕ, Bool, List, IfOk, length, slice_get};
ghost use Rattle.bit_graph.specs.declared.edge.GraphNode.{GraphNode as Gate};
ghost use Rattle.bit_graph.specs.Growth.{Extends};
ghost use Rattle.bit_graph.specs.Meaning.{Consistent};
ghost use Rattle.smv_tree.specs.declared.place.Place.{Place};
ghost use Rattle.smv_value.specs.declared.value.Value.{Value};
ghost use Rattle.smv_slots.specs.Slots.{item_of};
ghost use Rattle.smv_resolve.specs.Resolved.{last_of};
ghost use Rattle.smv_meaning.specs.declared.outcome.Evaluation.{Evaluation};
ghost use Rattle.smv_meaning.specs.Outcomes.{applied, one, valued};
ghost use Rattle.smv_meaning.specs.Tables.{outcome_at, outcome_by, outcomes_of};
ghost use Rattle.bit_numbers.specs.Counts.{AllStandIn, AreDenoted};
ghost use Rattle.bit_outcomes.specs.Telling.{AllTold, Tells, TellsAll, ToldStands};

use crate::operators::applied;
use crate::told::{Told, copied, copied_value};
use bit_graph::Graph;
use bit_numbers::constant;
use bit_operators::Symbolic;
use smv_resolve::{ExprNode, first, last};
use smv_slots::Slot;
use smv_tree::VariableKind;
use smv_value::{Operator, Value, is_value};
use sqlite_items::Items;
use std::alloc::{AllocError, Global};

/// Nothing of each node, which is so of whatever outcomes. The only error is running out of memory.
pub fn untold(alloc: Global, nodes: &[ExprNode]) -> Result<Items<Told>, AllocError>
    ensures stand { IfOk result (λ ts. (g : List Gate) → AllTold g ts) }
    ensures told { IfOk result (λ ts. (v : ℕ → Bool) (os : List Evaluation) → length os ≡ length nodes.now → TellsAll v ts os) }
{
    let mut made = with_room(alloc, nodes.len())?;
    'nodes: for i in 0..nodes.len() {
        made.push(Told::Untold)?;
    }
    Ok(made)
}

// Nothing so far, with room for so many.
fn with_room(alloc: Global, count: usize) -> Result<Items<Told>, AllocError>
    ensures { IfOk result (λ r. r ≡ []) }
{
    let made = Vec::with_capacity(alloc, count)?;
    Ok(Items::from_vec(made))
}

/// What is told of each node in a state of these values with inputs of these, where `later` tells of the nodes in the
/// next state. The only error is running out of memory, or operands whose kinds do not fit.
pub fn table(
    alloc: Global,
    graph: &mut Graph,
    slots: &[Slot],
    nodes: &[ExprNode],
    state: &[Symbolic],
    inputs: &[Symbolic],
    later: &[Told],
) -> Result<Items<Told>, AllocError>
    requires state { AllStandIn graph.old state.now }
    requires inputs { AllStandIn graph.old inputs.now }
    requires later { AllTold graph.old later.now }
    ensures extends { Extends graph.old graph.new }
    ensures stand { IfOk result (λ ts. AllTold graph.new ts) }
    ensures told { IfOk result (λ ts. (v : ℕ → Bool) (s u t : List Value) → Consistent v graph.new → AreDenoted v state.now s → AreDenoted v inputs.now u →
        TellsAll v later.now (outcomes_of slots.now t [] [] nodes.now) → TellsAll v ts (outcomes_of slots.now s u t nodes.now)) }
{
    let mut made = with_room(alloc, nodes.len())?;
    for (i, node) in nodes.iter().enumerate() {
        let before = first(later, i);
        let told = told_of_node(
            alloc,
            graph,
            slots,
            state,
            inputs,
            made.as_slice(),
            before,
            node,
        )?;
        made.push(told)?;
    }
    Ok(made)
}

// What is told of a node, by what is told of those before it.
fn told_of_node(
    alloc: Global,
    graph: &mut Graph,
    slots: &[Slot],
    state: &[Symbolic],
    inputs: &[Symbolic],
    here: &[Told],
    later: &[Told],
    node: &ExprNode,
) -> Result<Told, AllocError>
    requires state { AllStandIn graph.old state.now }
    requires inputs { AllStandIn graph.old inputs.now }
    requires here { AllTold graph.old here.now }
    requires later { AllTold graph.old later.now }
    ensures extends { Extends graph.old graph.new }
    ensures stands { IfOk result (λ r. ToldStands graph.new r) }
    ensures told { IfOk result (λ r. (v : ℕ → Bool) (s u : List Value) (os ps : List Evaluation) → Consistent v graph.new → AreDenoted v state.now s → AreDenoted v inputs.now u →
        TellsAll v here.now os → TellsAll v later.now ps → Tells v r (outcome_by slots.now s u os ps node.now)) }
{
    match *node {
        ExprNode::Constant(_, v) => of_constant(alloc, graph, v),
        ExprNode::Slot(_, n) => of_slot(alloc, graph, slots, state, inputs, n),
        ExprNode::Whole(..) => Ok(Told::Untold),
        ExprNode::Named(_, _, a) => told_at(alloc, here, a),
        ExprNode::Next(_, a) => told_at(alloc, later, a),
        ExprNode::Operand(a) => told_at(alloc, here, a),
        ExprNode::Apply(_, operator, count) => applied_at(alloc, graph, here, operator, count),
        ExprNode::Link(_, operator, a, b) => linked_at(alloc, graph, here, operator, a, b),
    }
}

fn of_constant(alloc: Global, graph: &Graph, value: Value) -> Result<Told, AllocError>
    ensures stands { IfOk result (λ r. ToldStands graph.now r) }
    ensures told { IfOk result (λ r. (v : ℕ → Bool) → Consistent v graph.now → Tells v r (one value)) }
{
    if is_value(value) {
        let symbolic = constant(alloc, graph, value)?;
        Ok(Told::One(graph.constant(false), symbolic))
    } else {
        Ok(Told::Untold)
    }
}

// The value of the slot of this number, which is one of the state or of the inputs.
fn of_slot(
    alloc: Global,
    graph: &Graph,
    slots: &[Slot],
    state: &[Symbolic],
    inputs: &[Symbolic],
    n: usize,
) -> Result<Told, AllocError>
    requires state { AllStandIn graph.now state.now }
    requires inputs { AllStandIn graph.now inputs.now }
    ensures stands { IfOk result (λ r. ToldStands graph.now r) }
    ensures told { IfOk result (λ r. (v : ℕ → Bool) (s u : List Value) → Consistent v graph.now → AreDenoted v state.now s → AreDenoted v inputs.now u →
        Tells v r (valued (item_of slots.now s u n))) }
{
    match slots.get(n) {
        None => Ok(Told::Untold),
        Some(slot) => match slot.kind {
            VariableKind::Input => value_at(alloc, graph, inputs, slot.index),
            VariableKind::State | VariableKind::Frozen => {
                value_at(alloc, graph, state, slot.index)
            }
        },
    }
}

fn value_at(alloc: Global, graph: &Graph, values: &[Symbolic], i: usize) -> Result<Told, AllocError>
    requires { AllStandIn graph.now values.now }
    ensures stands { IfOk result (λ r. ToldStands graph.now r) }
    ensures told { IfOk result (λ r. (v : ℕ → Bool) (xs : List Value) → Consistent v graph.now → AreDenoted v values.now xs → Tells v r (valued (slice_get xs i))) }
{
    if i < values.len() {
        let copy = copied_value(alloc, &values[i])?;
        Ok(Told::One(graph.constant(false), copy))
    } else {
        Ok(Told::Untold)
    }
}

/// What is told of the node of this number.
pub fn told_at(alloc: Global, told: &[Told], k: usize) -> Result<Told, AllocError>
    ensures stands { IfOk result (λ r. (g : List Gate) → AllTold g told.now → ToldStands g r) }
    ensures told { IfOk result (λ r. (v : ℕ → Bool) (os : List Evaluation) → TellsAll v told.now os → Tells v r (outcome_at os k)) }
{
    if k < told.len() {
        let copy = copied(alloc, &told[k])?;
        Ok(copy)
    } else {
        Ok(Told::Untold)
    }
}

// An operator over as many of the last nodes.
fn applied_at(
    alloc: Global,
    graph: &mut Graph,
    here: &[Told],
    operator: Operator,
    count: usize,
) -> Result<Told, AllocError>
    requires { AllTold graph.old here.now }
    ensures extends { Extends graph.old graph.new }
    ensures stands { IfOk result (λ r. ToldStands graph.new r) }
    ensures told { IfOk result (λ r. (place : Place) (v : ℕ → Bool) (os : List Evaluation) → Consistent v graph.new → TellsAll v here.now os → Tells v r (applied operator place (last_of count os))) }
{
    let told = applied(alloc, graph, operator, last(here, count))?;
    Ok(told)
}

// An operator over two nodes.
fn linked_at(
    alloc: Global,
    graph: &mut Graph,
    here: &[Told],
    operator: Operator,
    a: usize,
    b: usize,
) -> Result<Told, AllocError>
    requires { AllTold graph.old here.now }
    ensures extends { Extends graph.old graph.new }
    ensures stands { IfOk result (λ r. ToldStands graph.new r) }
    ensures told { IfOk result (λ r. (place : Place) (v : ℕ → Bool) (os : List Evaluation) → Consistent v graph.new → TellsAll v here.now os →
        Tells v r (applied operator place (outcome_at os a ∷ outcome_at os b ∷ []))) }
{
    let one = told_at(alloc, here, a)?;
    let other = told_at(alloc, here, b)?;
    let told = applied(alloc, graph, operator, &[one, other])?;
    Ok(told)
}
