//! The clauses of states and of steps.

ghost use Rattle.std.specs.Prelude.{◌≡◌, ◌≤◌, ◌+◌, map, All, IfOk};
ghost use Rattle.clause_core.specs.Literals.{Within};
ghost use Rattle.bit_graph.specs.Meaning.{HasInputs, Stands};
ghost use Rattle.bit_graph.specs.Values.{value_under};
ghost use Rattle.bit_clauses.specs.Deciding.{Decides};
ghost use Rattle.smv_resolve.specs.Items.{item_by};
ghost use Rattle.smv_meaning.specs.Runs.{is_step, specifications_of};
ghost use Rattle.bit_states.specs.Coding.{inputs_of, next_of, state_of};
ghost use Rattle.bit_states.specs.Layouts.{layout_of, named_width, state_width};
ghost use Rattle.bit_conditions.specs.Told.{Tells};
ghost use Rattle.bit_system.specs.Conditions.{TellsStates};
ghost use Rattle.bit_system.specs.Sharing.{DecidesEdge, IsStateSide, IsStepSide};

use crate::claims::bad_edges;
use crate::framing::{framed_inputs, framed_state};
use bit_clauses::{Decided, Either, ask, decide, define};
use bit_conditions::{first_conditions, just_edges, nowhere, step_conditions};
use bit_graph::{Edge, Graph};
use bit_states::Layout;
use clause_core::{Clause, Clauses};
use smv_meaning::Typed;
use smv_resolve::Item;
use std::alloc::{AllocError, Global};

/// What is asked of a state, over a graph with an input for each of its bits.
#[derive(Drop)]
pub struct StateConditions {
    pub graph: Graph,
    /// What is asked of an initial state.
    pub first: Vec<Either>,
    /// The formulas of JUSTICE.
    pub fair: Vec<Edge>,
    /// The bad states of each specification.
    pub bad: Vec<Edge>,
}

/// What is asked of a step, over a graph with an input for each bit of the state, of the next one and of the inputs.
#[derive(Drop)]
pub struct StepConditions {
    /// The gates over these inputs.
    pub graph: Graph,
    /// The conditions, all of which are asked; each is a pair of edges, one of which is to be true.
    pub step: Vec<Either>,
}

/// The clauses of initial states and of what is defined of a state, each with gates of its own.
#[derive(Drop)]
pub struct StateSide {
    pub vars: usize,
    pub init: Clauses,
    pub defs: Clauses,
    /// The literals of the formulas of JUSTICE.
    pub fair: Clause,
}

/// The clauses of a specification, each list with gates of its own.
#[derive(Drop)]
pub struct Claim {
    pub vars: usize,
    pub bad: Clauses,
    pub good: Clauses,
}

/// What is asked of a state, with an edge for each of the specifications.
pub fn state_side_conditions(
    alloc: Global,
    typed: &Typed,
    layout: &Layout,
    specs: &[Item],
) -> Result<StateConditions, AllocError>
    requires layout { layout.now ≡ layout_of typed.now.scope.program }
    requires specs { map (item_by typed.now.nodes) specs.now ≡ specifications_of typed.now.scope.program }
    ensures { IfOk result (TellsStates typed.now.scope.program) }
{
    let bits = layout.state();
    let types = layout.state_types();
    let mut graph = Graph::new(alloc, bits.len())?;
    let none = nowhere(alloc, typed)?;
    let state = framed_state(alloc, &mut graph, typed, types, none.as_slice(), bits)?;
    let fair = just_edges(alloc, &mut graph, typed, &state)?;
    let bad = bad_edges(alloc, &mut graph, typed, &state, specs)?;
    let first = first_conditions(alloc, &mut graph, typed, &state)?;
    Ok(StateConditions {
        graph,
        first,
        fair,
        bad,
    })
}

// What is asked of a step, of so many bits.
fn step_side_conditions(
    alloc: Global,
    typed: &Typed,
    layout: &Layout,
    named: usize,
) -> Result<StepConditions, AllocError>
    requires layout { layout.now ≡ layout_of typed.now.scope.program }
    requires named { named ≡ named_width typed.now.scope.program }
    ensures inputs { IfOk result (λ r. HasInputs named r.graph) }
    ensures step { IfOk result (λ r. Tells r.graph r.step.items (λ v. is_step typed.now.scope.program (state_of typed.now.scope.program v) (inputs_of typed.now.scope.program v) (next_of typed.now.scope.program v))) }
{
    let types = layout.state_types();
    let given = layout.input_types();
    let first = layout.state();
    let second = layout.next();
    let between = layout.inputs();
    let mut graph = Graph::new(alloc, named)?;
    let none = nowhere(alloc, typed)?;
    let from = framed_state(alloc, &mut graph, typed, types, none.as_slice(), first)?;
    let to = framed_state(alloc, &mut graph, typed, types, none.as_slice(), second)?;
    let inputs = framed_inputs(alloc, &mut graph, typed, given, between)?;
    let step = step_conditions(alloc, &mut graph, typed, &from, &inputs, &to)?;
    Ok(StepConditions { graph, step })
}

/// A number that neither of these is above.
pub fn higher(a: usize, b: usize) -> usize
    ensures first { a ≤ result }
    ensures second { b ≤ result }
{
    if a < b { b } else { a }
}

/// The clauses of initial states and of the formulas of JUSTICE. The variables behind the bits of the state, which are
/// so many, are moved up by `by`.
pub fn state_side(
    alloc: Global,
    typed: &Typed,
    parts: &StateConditions,
    width: usize,
    by: usize,
) -> Result<StateSide, AllocError>
    requires parts { TellsStates typed.now.scope.program parts.now }
    requires width { width ≡ state_width typed.now.scope.program }
    ensures side { IfOk result (IsStateSide typed.now.scope.program) }
    ensures room { IfOk result (λ r. width + by ≤ r.vars) }
{
    parts.graph.one_way();
    let init = decide(alloc, &parts.graph, width, &parts.first, by)?;
    let defs = define(alloc, &parts.graph, width, &parts.fair, by)?;
    let vars = higher(init.vars, defs.vars);
    Ok(StateSide {
        vars,
        init: init.clauses,
        defs: defs.clauses,
        fair: defs.literals,
    })
}

// The clauses that decide whether the edge is true, by the inputs of the graph, which are so many.
fn clauses_of(
    alloc: Global,
    graph: &Graph,
    width: usize,
    by: usize,
    edge: Edge,
) -> Result<Decided, AllocError>
    requires inputs { HasInputs width graph.now }
    requires stands { Stands graph.now edge }
    ensures decides { IfOk result (λ r. Decides width r.clauses (λ x. value_under x graph.now edge)) }
    ensures within { IfOk result (λ r. All (Within r.vars) r.clauses) }
{
    graph.one_way();
    let mut asked = Vec::new(alloc);
    ask(graph, &mut asked, edge)?;
    let decided = decide(alloc, graph, width, &asked, by)?;
    Ok(decided)
}

/// The clauses of states in which the edge is true, and those of states in which it is not. The variables behind the
/// inputs of the graph, which are so many, are moved up by `by`.
pub fn claim_side(
    alloc: Global,
    graph: &Graph,
    width: usize,
    by: usize,
    edge: Edge,
) -> Result<Claim, AllocError>
    requires inputs { HasInputs width graph.now }
    requires stands { Stands graph.now edge }
    ensures { IfOk result (DecidesEdge width graph.now edge) }
{
    let bad = clauses_of(alloc, graph, width, by, edge)?;
    let good = clauses_of(alloc, graph, width, by, edge.negation())?;
    let vars = higher(bad.vars, good.vars);
    Ok(Claim {
        vars,
        bad: bad.clauses,
        good: good.clauses,
    })
}

/// The clauses of steps, whose bits are so many.
pub fn step_side(
    alloc: Global,
    typed: &Typed,
    layout: &Layout,
    named: usize,
) -> Result<Decided, AllocError>
    requires layout { layout.now ≡ layout_of typed.now.scope.program }
    requires named { named ≡ named_width typed.now.scope.program }
    ensures { IfOk result (IsStepSide typed.now.scope.program) }
{
    let parts = step_side_conditions(alloc, typed, layout, named)?;
    parts.graph.one_way();
    let step = decide(alloc, &parts.graph, named, &parts.step, 0)?;
    Ok(step)
}
