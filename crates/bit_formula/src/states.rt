//! What is asked of states with inputs, as conditions of edges.

ghost use Rattle.std.specs.Prelude.{◌≡◌, ℕ, ◌+◌, ◌<◌, ◌≤◌, ◌^◌, ◌&&◌, ◌++◌, Bool, List, true, [], length, map, IfOk};
ghost use Rattle.bit_arith.specs.Number.{AllStand, values_of};
ghost use Rattle.bit_graph.specs.Growth.{Extends};
ghost use Rattle.bit_graph.specs.Meaning.{Consistent, Denotes, Stands, edge_value};
ghost use Rattle.bit_outcomes.specs.Telling.{AllTold, TellsAll};
ghost use Rattle.smv_resolve.specs.Resolved.{Resolved};
ghost use Rattle.smv_slots.specs.Slots.{slots_of};
ghost use Rattle.smv_formulas.specs.Says.{atom_parts};
ghost use Rattle.smv_meaning.specs.declared.outcome.Evaluation.{Evaluation};
ghost use Rattle.smv_meaning.specs.Runs.{are_inputs, is_first_state, is_given, is_state, is_true};
ghost use Rattle.smv_meaning.specs.Tables.{outcome_at};
ghost use Rattle.smv_meaning.specs.Values.{outcome};
ghost use Rattle.bit_states.specs.Layouts.{input_types, input_width};
ghost use Rattle.bit_conditions.specs.Asked.{is_just_in, justices_of};
ghost use Rattle.bit_conditions.specs.Told.{Tells, TellsInputs, TellsNowhere, TellsState, inputs_under, state_under};
ghost use Rattle.bit_formula.specs.Coding.{joint_layout, joint_width, kept_below};
ghost use Rattle.bit_formula.specs.Conditions.{AreGiven, TellsAtoms, TellsJoint, TellsRead};

use bit_clauses::{Either, ask};
use bit_conditions::{
    ToldInputs, ToldState, first_conditions, just_edges, nowhere, told_inputs, told_moment,
};
use bit_graph::{Edge, Graph};
use bit_outcomes::{Told, true_edge};
use bit_states::Layout;
use bit_system::framed_state;
use smv_meaning::Typed;
use sqlite_items::Items;
use std::alloc::{AllocError, Global};
use value_types::ValueType;

/// What is asked of a state with inputs, over a graph with an input for each of its bits.
#[derive(Drop)]
pub struct JointConditions {
    pub graph: Graph,
    /// What is asked of an initial state.
    pub first: Vec<Either>,
    /// The formulas of JUSTICE, and then the atoms.
    pub defined: Vec<Edge>,
    /// How many of those are formulas of JUSTICE.
    pub justices: usize,
}

// The edge of the bit at this place among so many, which begin at `start`; past them it is the constant FALSE.
fn read_edge(graph: &Graph, place: usize, joint: usize, start: usize) -> Edge
    requires room { start + joint ≤ length graph.now }
    requires fits { start + joint < 2 ^ 64 }
    ensures stands { Stands graph.now result }
    ensures value { Denotes graph.now result (λ v. kept_below joint (λ (k : ℕ). v (start + k)) place) }
{
    if place < joint {
        Edge::to(start + place)
    } else {
        graph.constant(false)
    }
}

// The edges of the bits at these places.
fn read_edges(
    alloc: Global,
    graph: &Graph,
    places: &[usize],
    joint: usize,
    start: usize,
) -> Result<Items<Edge>, AllocError>
    requires room { start + joint ≤ length graph.now }
    requires fits { start + joint < 2 ^ 64 }
    ensures long { IfOk result (λ r. length r ≡ length places.now) }
    ensures stand { IfOk result (λ r. AllStand graph.now r) }
    ensures value { IfOk result (λ r. (v : ℕ → Bool) → Consistent v graph.now → values_of v r ≡ map (kept_below joint (λ (k : ℕ). v (start + k))) places.now) }
{
    let mut edges = Vec::new(alloc);
    for place in places {
        edges.push(read_edge(graph, *place, joint, start))?;
    }
    Ok(Items::from_vec(edges))
}

/// The inputs that are read in a state with inputs of so many bits, which begin at `start`. The places are those of all
/// inputs. Each edge that was made earlier keeps its value, also where memory runs out, which is the only error.
pub fn read_inputs(
    alloc: Global,
    graph: &mut Graph,
    typed: &Typed,
    types: &[ValueType],
    places: &[usize],
    joint: usize,
    start: usize,
) -> Result<ToldInputs, AllocError>
    requires types { types.now ≡ input_types typed.now.scope.program }
    requires width { length places.now ≡ input_width typed.now.scope.program }
    requires room { start + joint ≤ length graph.old }
    requires fits { start + joint < 2 ^ 64 }
    ensures extends { Extends graph.old graph.new }
    ensures told { IfOk result (TellsInputs graph.new typed.now) }
    ensures value { IfOk result (λ inputs. TellsRead graph.new typed.now.scope.program inputs (λ v. map (kept_below joint (λ (k : ℕ). v (start + k))) places.now)) }
{
    let edges = read_edges(alloc, graph, places, joint, start)?;
    let inputs = told_inputs(alloc, graph, typed, types, edges)?;
    Ok(inputs)
}

// The edge that is true where the node of this number is TRUE. Out of memory is answered too where there is no such
// node.
fn true_at(graph: &mut Graph, told: &[Told], k: usize) -> Result<Edge, AllocError>
    requires { AllTold graph.old told.now }
    ensures extends { Extends graph.old graph.new }
    ensures stands { IfOk result (λ e. Stands graph.new e) }
    ensures value { IfOk result (λ e. (v : ℕ → Bool) (os : List Evaluation) → Consistent v graph.new → TellsAll v told.now os → is_given (outcome_at os k) ≡ true →
        edge_value v e ≡ is_true (outcome_at os k)) }
{
    if k < told.len() {
        let edge = true_edge(graph, &told[k])?;
        Ok(edge)
    } else {
        Err(AllocError)
    }
}

// The edge that is true where the node is TRUE and `valid` is. There its outcome is given.
fn atom_edge(graph: &mut Graph, told: &[Told], valid: Edge, atom: usize) -> Result<Edge, AllocError>
    requires told { AllTold graph.old told.now }
    requires valid { Stands graph.old valid }
    ensures extends { Extends graph.old graph.new }
    ensures stands { IfOk result (λ e. Stands graph.new e) }
    ensures value { IfOk result (λ e. (v : ℕ → Bool) (os : List Evaluation) → Consistent v graph.new → (edge_value v valid ≡ true → TellsAll v told.now os × (is_given (outcome_at os atom) ≡ true))
        → edge_value v e ≡ (edge_value v valid && is_true (outcome_at os atom))) }
{
    let truth = true_at(graph, told, atom)?;
    let edge = graph.and(valid, truth)?;
    Ok(edge)
}

// An edge for each atom, that is true where it is TRUE and `valid` is; atoms are numbers of nodes. There their outcomes
// are given.
fn atom_edges(
    alloc: Global,
    graph: &mut Graph,
    told: &[Told],
    valid: Edge,
    atoms: &[usize],
) -> Result<Vec<Edge>, AllocError>
    requires told { AllTold graph.old told.now }
    requires valid { Stands graph.old valid }
    ensures extends { Extends graph.old graph.new }
    ensures stand { IfOk result (λ r. AllStand graph.new r.items) }
    ensures value { IfOk result (λ r. TellsAtoms graph.new told.now valid atoms.now r.items) }
{
    let mut edges = Vec::new(alloc);
    for atom in atoms {
        edges.push(atom_edge(graph, told, valid, *atom)?)?;
    }
    Ok(edges)
}

// An edge for each atom in a state with inputs, that is true where the edges are those of these and it is TRUE.
fn framed_atoms(
    alloc: Global,
    graph: &mut Graph,
    typed: &Typed,
    nowhere: &[Told],
    state: &ToldState,
    inputs: &ToldInputs,
    atoms: &[usize],
) -> Result<Vec<Edge>, AllocError>
    requires nowhere { TellsNowhere graph.old typed.now nowhere.now }
    requires state { TellsState graph.old typed.now state.now }
    requires inputs { TellsInputs graph.old typed.now inputs.now }
    requires given { AreGiven typed.now.scope.program (atom_parts typed.now.nodes atoms.now) }
    ensures extends { Extends graph.old graph.new }
    ensures stand { IfOk result (λ r. AllStand graph.new r.items) }
    ensures told { IfOk result (λ r. (v : ℕ → Bool) → Consistent v graph.new → map (edge_value v) r.items ≡ map (λ (e : Resolved).
        (is_state typed.now.scope.program (state_under typed.now.scope.program v state.now.bits) && are_inputs typed.now.scope.program (inputs_under typed.now.scope.program v inputs.now.bits))
        && is_true (outcome (slots_of typed.now.scope.program) (state_under typed.now.scope.program v state.now.bits) (inputs_under typed.now.scope.program v inputs.now.bits) [] e))
        (atom_parts typed.now.nodes atoms.now)) }
{
    let told = told_moment(alloc, graph, typed, nowhere, state, inputs)?;
    let valid = graph.and(state.valid, inputs.valid)?;
    let edges = atom_edges(alloc, graph, told.as_slice(), valid, atoms)?;
    Ok(edges)
}

// Edges of what is defined of a state.
#[derive(Drop)]
struct Defined {
    // Those of JUSTICE, and behind them those of the atoms.
    edges: Vec<Edge>,
    // How many are of JUSTICE.
    justices: usize,
}

// The edges of JUSTICE, and behind them those of the atoms.
fn defined_edges(
    alloc: Global,
    graph: &mut Graph,
    typed: &Typed,
    nowhere: &[Told],
    state: &ToldState,
    inputs: &ToldInputs,
    atoms: &[usize],
) -> Result<Defined, AllocError>
    requires nowhere { TellsNowhere graph.old typed.now nowhere.now }
    requires state { TellsState graph.old typed.now state.now }
    requires inputs { TellsInputs graph.old typed.now inputs.now }
    requires given { AreGiven typed.now.scope.program (atom_parts typed.now.nodes atoms.now) }
    ensures extends { Extends graph.old graph.new }
    ensures stand { IfOk result (λ r. AllStand graph.new r.edges.items) }
    ensures told { IfOk result (λ r. (v : ℕ → Bool) → Consistent v graph.new → map (edge_value v) r.edges.items
        ≡ map (is_just_in typed.now.scope.program (state_under typed.now.scope.program v state.now.bits)) (justices_of typed.now.scope.program)
        ++ map (λ (e : Resolved).
        (is_state typed.now.scope.program (state_under typed.now.scope.program v state.now.bits) && are_inputs typed.now.scope.program (inputs_under typed.now.scope.program v inputs.now.bits))
        && is_true (outcome (slots_of typed.now.scope.program) (state_under typed.now.scope.program v state.now.bits) (inputs_under typed.now.scope.program v inputs.now.bits) [] e))
        (atom_parts typed.now.nodes atoms.now)) }
    ensures justices { IfOk result (λ r. r.justices ≡ length (justices_of typed.now.scope.program)) }
    ensures within { IfOk result (λ r. r.justices ≤ length r.edges.items) }
{
    let more = framed_atoms(alloc, graph, typed, nowhere, state, inputs, atoms)?;
    let mut edges = just_edges(alloc, graph, typed, state)?;
    graph.one_way();
    let justices = edges.as_slice().len();
    edges.extend_from_slice(&more)?;
    Ok(Defined { edges, justices })
}

// What is asked of an initial state with inputs.
fn first_with_inputs(
    alloc: Global,
    graph: &mut Graph,
    typed: &Typed,
    state: &ToldState,
    inputs: &ToldInputs,
) -> Result<Vec<Either>, AllocError>
    requires state { TellsState graph.old typed.now state.now }
    requires inputs { TellsInputs graph.old typed.now inputs.now }
    ensures extends { Extends graph.old graph.new }
    ensures told { IfOk result (λ r. Tells graph.new r.items (λ v. is_first_state typed.now.scope.program (state_under typed.now.scope.program v state.now.bits)
        && are_inputs typed.now.scope.program (inputs_under typed.now.scope.program v inputs.now.bits))) }
{
    let mut first = first_conditions(alloc, graph, typed, state)?;
    ask(graph, &mut first, inputs.valid)?;
    Ok(first)
}

/// What is asked of a state with the inputs of these numbers, and what is defined there: the formulas of JUSTICE and
/// the atoms, which are numbers of nodes. A state has so many bits with these inputs.
pub fn state_conditions(
    alloc: Global,
    typed: &Typed,
    layout: &Layout,
    reads: &[usize],
    atoms: &[usize],
    joint: usize,
) -> Result<JointConditions, AllocError>
    requires layout { layout.now ≡ joint_layout typed.now.scope.program reads.now }
    requires joint { joint ≡ joint_width typed.now.scope.program reads.now }
    requires given { AreGiven typed.now.scope.program (atom_parts typed.now.nodes atoms.now) }
    ensures { IfOk result (TellsJoint typed.now.scope.program reads.now (atom_parts typed.now.nodes atoms.now)) }
{
    let bits = layout.state();
    let types = layout.state_types();
    let mut graph = Graph::new(alloc, joint)?;
    let none = nowhere(alloc, typed)?;
    let state = framed_state(alloc, &mut graph, typed, types, none.as_slice(), bits)?;
    let inputs = read_inputs(
        alloc,
        &mut graph,
        typed,
        layout.input_types(),
        layout.inputs(),
        joint,
        0,
    )?;
    let defined = defined_edges(
        alloc,
        &mut graph,
        typed,
        none.as_slice(),
        &state,
        &inputs,
        atoms,
    )?;
    let first = first_with_inputs(alloc, &mut graph, typed, &state, &inputs)?;
    Ok(JointConditions {
        graph,
        first,
        defined: defined.edges,
        justices: defined.justices,
    })
}
