//! States and inputs whose bits are inputs of a graph.

ghost use Rattle.std.specs.Prelude.{◌≡◌, length, IfOk};
ghost use Rattle.bit_graph.specs.Growth.{Extends};
ghost use Rattle.bit_arith.specs.Number.{AllStand};
ghost use Rattle.bit_states.specs.Layouts.{input_types, input_width, state_types, state_width};
ghost use Rattle.bit_conditions.specs.Told.{TellsInputs, TellsNowhere, TellsState};
ghost use Rattle.bit_system.specs.Conditions.{edges_of};

use bit_conditions::{ToldInputs, ToldState, told_inputs, told_state};
use bit_graph::{Edge, Graph};
use bit_outcomes::Told;
use smv_meaning::Typed;
use sqlite_items::Items;
use std::alloc::{AllocError, Global};
use value_types::ValueType;

/// The edges of these inputs of a graph. The only error is running out of memory.
pub fn edges_of(alloc: Global, bits: &[usize]) -> Result<Items<Edge>, AllocError>
    ensures { IfOk result (λ r. r ≡ edges_of bits.now) }
{
    let mut edges = Vec::new(alloc);
    for bit in bits {
        edges.push(Edge::to(*bit))?;
    }
    Ok(Items::from_vec(edges))
}

/// The state whose bits are these inputs of the graph. Each edge that was made earlier keeps its value, also where
/// memory runs out, which is the only error.
pub fn framed_state(
    alloc: Global,
    graph: &mut Graph,
    typed: &Typed,
    types: &[ValueType],
    nowhere: &[Told],
    bits: &[usize],
) -> Result<ToldState, AllocError>
    requires types { types.now ≡ state_types typed.now.scope.program }
    requires nowhere { TellsNowhere graph.old typed.now nowhere.now }
    requires width { length bits.now ≡ state_width typed.now.scope.program }
    requires stand { AllStand graph.old (edges_of bits.now) }
    ensures extends { Extends graph.old graph.new }
    ensures bits { IfOk result (λ state. state.bits ≡ edges_of bits.now) }
    ensures told { IfOk result (TellsState graph.new typed.now) }
{
    let edges = edges_of(alloc, bits)?;
    let state = told_state(alloc, graph, typed, types, nowhere, edges)?;
    Ok(state)
}

/// The inputs of a step whose bits are these inputs of the graph. Each edge that was made earlier keeps its value, also
/// after running out of memory, which is the only error.
pub fn framed_inputs(
    alloc: Global,
    graph: &mut Graph,
    typed: &Typed,
    types: &[ValueType],
    bits: &[usize],
) -> Result<ToldInputs, AllocError>
    requires types { types.now ≡ input_types typed.now.scope.program }
    requires width { length bits.now ≡ input_width typed.now.scope.program }
    requires stand { AllStand graph.old (edges_of bits.now) }
    ensures extends { Extends graph.old graph.new }
    ensures bits { IfOk result (λ inputs. inputs.bits ≡ edges_of bits.now) }
    ensures told { IfOk result (TellsInputs graph.new typed.now) }
{
    let edges = edges_of(alloc, bits)?;
    let inputs = told_inputs(alloc, graph, typed, types, edges)?;
    Ok(inputs)
}
