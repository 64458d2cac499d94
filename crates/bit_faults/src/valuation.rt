//! A valuation of the declared types as edges, and what is told of the nodes there.

ghost use Rattle.std.specs.Prelude.{◌≡◌, ◌≤◌, ℕ, Bool, List, true, length, IfOk};
ghost use Rattle.std.specs.List.{list_any};
ghost use Rattle.bit_arith.specs.Number.{AllStand};
ghost use Rattle.bit_graph.specs.declared.edge.GraphNode.{GraphNode as Gate};
ghost use Rattle.bit_graph.specs.Growth.{Extends};
ghost use Rattle.bit_graph.specs.Meaning.{Consistent};
ghost use Rattle.smv_value.specs.declared.value.Value.{Value};
ghost use Rattle.smv_slots.specs.declared.slot.Slot.{Slot};
ghost use Rattle.smv_slots.specs.Slots.{slots_of};
ghost use Rattle.smv_resolve.specs.declared.item.Item.{Item as ItemOf};
ghost use Rattle.smv_resolve.specs.Resolved.{parts_of};
ghost use Rattle.smv_meaning.specs.Faults.{speaks_of_paths};
ghost use Rattle.smv_meaning.specs.Runs.{are_inputs, is_state};
ghost use Rattle.bit_states.specs.Coding.{inputs_of, state_of};
ghost use Rattle.bit_states.specs.Layouts.{input_types, input_width, layout_of, named_width, state_types, state_width};
ghost use Rattle.bit_conditions.specs.Told.{TellsInputs, TellsNowhere, TellsState};
ghost use Rattle.bit_faults.specs.Formulas.{AllStandIfAny, TellsFormulas};
ghost use Rattle.bit_faults.specs.Valuations.{TellsSides, TellsValuation, edges_of};

use crate::formulas::formula_edges;
use crate::judged::speaks_of_paths;
use bit_conditions::{
    ToldInputs, ToldState, nowhere, told_inputs, told_moment, told_state, told_step,
};
use bit_graph::{Edge, Graph};
use bit_outcomes::Told;
use bit_states::Layout;
use smv_meaning::Typed;
use smv_resolve::{ExprNode, Item};
use sqlite_items::Items;
use std::alloc::{AllocError, Global};
use value_types::ValueType;

/// A step as edges: two states and inputs.
#[derive(Debug, Drop)]
pub struct Sides {
    pub from: ToldState,
    pub inputs: ToldInputs,
    pub to: ToldState,
}

/// A valuation as edges, and what is told of the nodes there.
#[derive(Debug, Drop)]
pub struct Valuation {
    pub sides: Sides,
    /// What is told of each node in the step.
    pub step: Items<Told>,
    /// Where each node faults as a temporal formula, in the first state with the inputs, if some item speaks of paths.
    pub formulas: Items<Option<Edge>>,
}

/// The valuation whose bits are the first inputs of the graph. Of operators over values of many bits there are gates as
/// in circuits. The only error is running out of memory.
pub fn valuation_of(
    alloc: Global,
    graph: &mut Graph,
    typed: &Typed,
    layout: &Layout,
) -> Result<Valuation, AllocError>
    requires layout { layout.now ≡ layout_of typed.now.scope.program }
    requires room { named_width typed.now.scope.program ≤ length graph.old }
    ensures extends { Extends graph.old graph.new }
    ensures told { IfOk result (TellsValuation graph.new typed.now) }
{
    let nowhere = nowhere(alloc, typed)?;
    let sides = sides_of(alloc, graph, typed, layout, nowhere.as_slice())?;
    let step = told_step(alloc, graph, typed, &sides.from, &sides.inputs, &sides.to)?;
    let formulas = formulas_of(alloc, graph, typed, nowhere.as_slice(), &sides)?;
    Ok(Valuation {
        sides,
        step,
        formulas,
    })
}

// Where each node faults as a temporal formula, in the first state with the inputs. Nothing is told of them where no
// item speaks of paths.
fn formulas_of(
    alloc: Global,
    graph: &mut Graph,
    typed: &Typed,
    nowhere: &[Told],
    sides: &Sides,
) -> Result<Items<Option<Edge>>, AllocError>
    requires nowhere { TellsNowhere graph.old typed.now nowhere.now }
    requires sides { TellsSides graph.old typed.now sides.now }
    ensures extends { Extends graph.old graph.new }
    ensures stand { IfOk result (λ es. AllStandIfAny graph.new es) }
    ensures told { IfOk result (λ es. (v : ℕ → Bool) → Consistent v graph.new → is_state typed.now.scope.program (state_of typed.now.scope.program v) ≡ true →
        are_inputs typed.now.scope.program (inputs_of typed.now.scope.program v) ≡ true →
        TellsFormulas v (slots_of typed.now.scope.program) (state_of typed.now.scope.program v) (inputs_of typed.now.scope.program v) es (parts_of typed.now.nodes)) }
{
    if some_paths(typed.items.as_slice()) {
        let formulas = formulas_at(alloc, graph, typed, nowhere, sides)?;
        Ok(formulas)
    } else {
        let none = no_formulas(alloc, typed.nodes.as_slice())?;
        Ok(none)
    }
}

// Whether one of these items speaks of paths.
fn some_paths(items: &[Item]) -> bool
    ensures { result ≡ list_any (λ (x : ItemOf). speaks_of_paths x.kind) items.now }
{
    items.iter().any(|item| speaks_of_paths(item.kind))
}

// Nothing of each node.
fn no_formulas(alloc: Global, nodes: &[ExprNode]) -> Result<Items<Option<Edge>>, AllocError>
    ensures stand { IfOk result (λ es. (g : List Gate) → AllStandIfAny g es) }
    ensures told { IfOk result (λ es. (v : ℕ → Bool) (slots : List Slot) (s u : List Value) → TellsFormulas v slots s u es (parts_of nodes.now)) }
{
    let mut made = Items::new(alloc);
    'nodes: for i in 0..nodes.len() {
        made.push(None)?;
    }
    Ok(made)
}

// Where each node faults as a temporal formula, in the first state with the inputs.
fn formulas_at(
    alloc: Global,
    graph: &mut Graph,
    typed: &Typed,
    nowhere: &[Told],
    sides: &Sides,
) -> Result<Items<Option<Edge>>, AllocError>
    requires nowhere { TellsNowhere graph.old typed.now nowhere.now }
    requires sides { TellsSides graph.old typed.now sides.now }
    ensures extends { Extends graph.old graph.new }
    ensures stand { IfOk result (λ es. AllStandIfAny graph.new es) }
    ensures told { IfOk result (λ es. (v : ℕ → Bool) → Consistent v graph.new → is_state typed.now.scope.program (state_of typed.now.scope.program v) ≡ true →
        are_inputs typed.now.scope.program (inputs_of typed.now.scope.program v) ≡ true →
        TellsFormulas v (slots_of typed.now.scope.program) (state_of typed.now.scope.program v) (inputs_of typed.now.scope.program v) es (parts_of typed.now.nodes)) }
{
    let moment = told_moment(alloc, graph, typed, nowhere, &sides.from, &sides.inputs)?;
    let formulas = formula_edges(alloc, graph, typed.nodes.as_slice(), moment.as_slice())?;
    Ok(formulas)
}

// The states and the inputs whose bits are the first inputs of the graph.
fn sides_of(
    alloc: Global,
    graph: &mut Graph,
    typed: &Typed,
    layout: &Layout,
    nowhere: &[Told],
) -> Result<Sides, AllocError>
    requires layout { layout.now ≡ layout_of typed.now.scope.program }
    requires room { named_width typed.now.scope.program ≤ length graph.old }
    requires nowhere { TellsNowhere graph.old typed.now nowhere.now }
    ensures extends { Extends graph.old graph.new }
    ensures told { IfOk result (TellsSides graph.new typed.now) }
{
    let types = layout.state_types();
    let from = state_at(alloc, graph, typed, types, nowhere, layout.state())?;
    let to = state_at(alloc, graph, typed, types, nowhere, layout.next())?;
    let inputs = inputs_at(alloc, graph, typed, layout.input_types(), layout.inputs())?;
    Ok(Sides { from, inputs, to })
}

// The state whose bits are these inputs of the graph.
fn state_at(
    alloc: Global,
    graph: &mut Graph,
    typed: &Typed,
    types: &[ValueType],
    nowhere: &[Told],
    bits: &[usize],
) -> Result<ToldState, AllocError>
    requires types { types.now ≡ state_types typed.now.scope.program }
    requires nowhere { TellsNowhere graph.old typed.now nowhere.now }
    requires stand { AllStand graph.old (edges_of bits.now) }
    requires width { length bits.now ≡ state_width typed.now.scope.program }
    ensures extends { Extends graph.old graph.new }
    ensures bits { IfOk result (λ state. state.bits ≡ edges_of bits.now) }
    ensures told { IfOk result (TellsState graph.new typed.now) }
{
    let edges = edges_of(alloc, bits)?;
    let state = told_state(alloc, graph, typed, types, nowhere, edges)?;
    Ok(state)
}

// The inputs of a step whose bits are these inputs of the graph.
fn inputs_at(
    alloc: Global,
    graph: &mut Graph,
    typed: &Typed,
    types: &[ValueType],
    bits: &[usize],
) -> Result<ToldInputs, AllocError>
    requires types { types.now ≡ input_types typed.now.scope.program }
    requires stand { AllStand graph.old (edges_of bits.now) }
    requires width { length bits.now ≡ input_width typed.now.scope.program }
    ensures extends { Extends graph.old graph.new }
    ensures bits { IfOk result (λ inputs. inputs.bits ≡ edges_of bits.now) }
    ensures told { IfOk result (TellsInputs graph.new typed.now) }
{
    let edges = edges_of(alloc, bits)?;
    let inputs = told_inputs(alloc, graph, typed, types, edges)?;
    Ok(inputs)
}

/// The edges of these inputs of a graph. The only error is running out of memory.
pub fn edges_of(alloc: Global, bits: &[usize]) -> Result<Items<Edge>, AllocError>
    ensures { IfOk result (λ edges. edges ≡ edges_of bits.now) }
{
    let mut made = Items::new(alloc);
    for bit in bits {
        made.push(Edge::to(*bit))?;
    }
    Ok(made)
}
