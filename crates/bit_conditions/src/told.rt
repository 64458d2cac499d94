//! What edges tell of a state, of inputs, and of the nodes of a program there.

ghost use Rattle.std.specs.Prelude.{◌≡◌, List, length, IfOk};
ghost use Rattle.bit_graph.specs.declared.edge.GraphNode.{GraphNode};
ghost use Rattle.bit_graph.specs.Growth.{Extends};
ghost use Rattle.bit_arith.specs.Number.{AllStand};
ghost use Rattle.bit_states.specs.Layouts.{input_types, input_width, state_types, state_width};
ghost use Rattle.bit_conditions.specs.Told.{TellsInputs, TellsMoment, TellsNowhere, TellsState, TellsStep};

use crate::inhabited::some_inputs;
use bit_graph::{Edge, Graph};
use bit_operators::Symbolic;
use bit_outcomes::{Told, table, untold};
use bit_states::{domain_edge, slot_values};
use smv_meaning::Typed;
use sqlite_items::Items;
use std::alloc::{AllocError, Global};
use value_types::ValueType;

/// A state as edges.
#[derive(Debug, Drop)]
pub struct ToldState {
    /// One for each bit of the state.
    pub bits: Items<Edge>,
    /// True where the bits are those of a state.
    pub valid: Edge,
    /// The values of the slots, where they are.
    pub values: Items<Symbolic>,
    /// What is told of each node there.
    pub told: Items<Told>,
}

/// Inputs of a step as edges.
#[derive(Debug, Drop)]
pub struct ToldInputs {
    /// One for each bit of the inputs.
    pub bits: Items<Edge>,
    /// True where the bits are those of inputs.
    pub valid: Edge,
    /// The values of the input slots, where they are.
    pub values: Items<Symbolic>,
}

/// What is told of each node where there is no state: nothing, in whatever graph. No item that speaks of a state has a
/// `next`, so no more is asked. The only error is running out of memory.
pub fn nowhere(alloc: Global, typed: &Typed) -> Result<Items<Told>, AllocError>
    ensures { IfOk result (λ r. (g : List GraphNode) → TellsNowhere g typed.now r) }
{
    let told = untold(alloc, typed.nodes.as_slice())?;
    Ok(told)
}

/// The state whose bits have these edges, where the types are those of its slots.
///
/// Operators over values of many bits have gates as circuits do. Time and memory grow with the nodes. The only error is
/// running out of memory, or operands whose kinds do not fit, which in a typed program does not come. Out of memory is
/// answered too where an input slot is of a type with no value, an enumeration with no element, which no source can
/// write.
pub fn told_state(
    alloc: Global,
    graph: &mut Graph,
    typed: &Typed,
    types: &[ValueType],
    nowhere: &[Told],
    bits: Items<Edge>,
) -> Result<ToldState, AllocError>
    requires types { types.now ≡ state_types typed.now.scope.program }
    requires nowhere { TellsNowhere graph.old typed.now nowhere.now }
    requires stand { AllStand graph.old bits }
    requires width { length bits ≡ state_width typed.now.scope.program }
    ensures extends { Extends graph.old graph.new }
    ensures bits { IfOk result (λ state. state.bits ≡ bits) }
    ensures told { IfOk result (TellsState graph.new typed.now) }
{
    some_inputs(alloc, typed)?;
    let valid = domain_edge(alloc, graph, types, bits.as_slice())?;
    let values = slot_values(alloc, graph, types, bits.as_slice())?;
    let told = table(
        alloc,
        graph,
        typed.slots.as_slice(),
        typed.nodes.as_slice(),
        values.as_slice(),
        &[],
        nowhere,
    )?;
    Ok(ToldState {
        bits,
        valid,
        values,
        told,
    })
}

/// The inputs whose bits have these edges, where the types are those of the input slots. The only error is running out
/// of memory.
pub fn told_inputs(
    alloc: Global,
    graph: &mut Graph,
    typed: &Typed,
    types: &[ValueType],
    bits: Items<Edge>,
) -> Result<ToldInputs, AllocError>
    requires types { types.now ≡ input_types typed.now.scope.program }
    requires stand { AllStand graph.old bits }
    requires width { length bits ≡ input_width typed.now.scope.program }
    ensures extends { Extends graph.old graph.new }
    ensures bits { IfOk result (λ inputs. inputs.bits ≡ bits) }
    ensures told { IfOk result (TellsInputs graph.new typed.now) }
{
    let valid = domain_edge(alloc, graph, types, bits.as_slice())?;
    let values = slot_values(alloc, graph, types, bits.as_slice())?;
    Ok(ToldInputs {
        bits,
        valid,
        values,
    })
}

/// What is told of each node in the step with these inputs from the one state to the other. The errors are as of
/// `told_state`.
pub fn told_step(
    alloc: Global,
    graph: &mut Graph,
    typed: &Typed,
    from: &ToldState,
    inputs: &ToldInputs,
    to: &ToldState,
) -> Result<Items<Told>, AllocError>
    requires from { TellsState graph.old typed.now from.now }
    requires inputs { TellsInputs graph.old typed.now inputs.now }
    requires to { TellsState graph.old typed.now to.now }
    ensures extends { Extends graph.old graph.new }
    ensures told { IfOk result (TellsStep graph.new typed.now from.now inputs.now to.now) }
{
    let told = table(
        alloc,
        graph,
        typed.slots.as_slice(),
        typed.nodes.as_slice(),
        from.values.as_slice(),
        inputs.values.as_slice(),
        to.told.as_slice(),
    )?;
    Ok(told)
}

/// What is told of each node in the state with these inputs, where no next state is spoken of. The errors are as of
/// `told_state`.
pub fn told_moment(
    alloc: Global,
    graph: &mut Graph,
    typed: &Typed,
    nowhere: &[Told],
    state: &ToldState,
    inputs: &ToldInputs,
) -> Result<Items<Told>, AllocError>
    requires nowhere { TellsNowhere graph.old typed.now nowhere.now }
    requires state { TellsState graph.old typed.now state.now }
    requires inputs { TellsInputs graph.old typed.now inputs.now }
    ensures extends { Extends graph.old graph.new }
    ensures told { IfOk result (TellsMoment graph.new typed.now state.now inputs.now) }
{
    let told = table(
        alloc,
        graph,
        typed.slots.as_slice(),
        typed.nodes.as_slice(),
        state.values.as_slice(),
        inputs.values.as_slice(),
        nowhere,
    )?;
    Ok(told)
}
