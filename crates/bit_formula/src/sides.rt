//! The clauses of states with inputs, and of the steps between them.

ghost use Rattle.std.specs.Prelude.{◌≡◌, ◌+◌, ◌≤◌, ◌++◌, All, IfOk, drop, length, take};
ghost use Rattle.bit_graph.specs.Meaning.{HasInputs};
ghost use Rattle.clause_core.specs.Literals.{Within};
ghost use Rattle.clause_core.specs.Systems.{Gives};
ghost use Rattle.bit_arith.specs.Number.{AllStand};
ghost use Rattle.bit_clauses.specs.Asserted.{EithersStand};
ghost use Rattle.bit_clauses.specs.Gated.{DecidesGroup, DefinesEdges};
ghost use Rattle.bit_conditions.specs.Told.{Tells};
ghost use Rattle.bit_formula.specs.Coding.{joint_layout, joint_named, joint_width};
ghost use Rattle.bit_formula.specs.Sides.{IsJointStep};
ghost use Rattle.bit_formula.specs.Standing.{is_step_at};

use crate::states::{JointConditions, read_inputs};
use bit_clauses::{Decided, ask, decide, define};
use bit_conditions::{nowhere, step_conditions};
use bit_graph::Graph;
use bit_states::Layout;
use bit_system::{StepConditions, framed_inputs, framed_state, higher};
use clause_core::{Clause, Clauses, Lit};
use smv_meaning::Typed;
use std::alloc::{AllocError, Global};

/// The clauses of initial states and of what is defined of a state, each with gates of its own.
#[derive(Drop)]
pub struct JointSide {
    pub vars: usize,
    pub init: Clauses,
    pub defs: Clauses,
    /// The literals of the formulas of JUSTICE.
    pub fair: Clause,
    /// The literals of the atoms.
    pub atoms: Vec<Lit>,
}

// Literals in two lists.
#[derive(Drop)]
struct Literals {
    fair: Clause,
    atoms: Vec<Lit>,
}

// The first so many literals, and those behind them.
fn split(alloc: Global, literals: &[Lit], count: usize) -> Result<Literals, AllocError>
    requires { count ≤ length literals.now }
    ensures fair { IfOk result (λ r. r.fair ≡ take count literals.now) }
    ensures atoms { IfOk result (λ r. r.atoms.items ≡ drop count literals.now) }
{
    let fair = Clause::from_slice(alloc, &literals[..count])?;
    let atoms = Vec::from_slice(alloc, &literals[count..])?;
    Ok(Literals { fair, atoms })
}

/// The clauses of initial states, and of what is defined of a state of so many bits. The variables behind these bits
/// are moved up by `by`.
pub fn joint_side(
    alloc: Global,
    parts: &JointConditions,
    width: usize,
    by: usize,
) -> Result<JointSide, AllocError>
    requires inputs { HasInputs width parts.now.graph }
    requires first { EithersStand parts.now.graph parts.now.first.items }
    requires defined { AllStand parts.now.graph parts.now.defined.items }
    requires justices { parts.now.justices ≤ length parts.now.defined.items }
    ensures init { IfOk result (λ r. DecidesGroup width parts.now.graph parts.now.first.items r.init) }
    ensures gives { IfOk result (λ r. Gives width (r.fair ++ r.atoms.items) r.defs) }
    ensures defines { IfOk result (λ r. DefinesEdges width parts.now.graph parts.now.defined.items r.defs (r.fair ++ r.atoms.items)) }
    ensures justices { IfOk result (λ r. length r.fair ≡ parts.now.justices) }
    ensures room { IfOk result (λ r. width + by ≤ r.vars) }
    ensures init_within { IfOk result (λ r. All (Within r.vars) r.init) }
    ensures defs_within { IfOk result (λ r. All (Within r.vars) r.defs) }
    ensures literals_within { IfOk result (λ r. Within r.vars (r.fair ++ r.atoms.items)) }
{
    let init = decide(alloc, &parts.graph, width, &parts.first, by)?;
    let defs = define(alloc, &parts.graph, width, &parts.defined, by)?;
    let vars = higher(init.vars, defs.vars);
    let literals = split(alloc, defs.literals.as_slice(), parts.justices)?;
    Ok(JointSide {
        vars,
        init: init.clauses,
        defs: defs.clauses,
        fair: literals.fair,
        atoms: literals.atoms,
    })
}

// What is asked of a step, of so many bits, and of the inputs that are read in the state to which it leads, of so many.
fn conditions_of_step(
    alloc: Global,
    typed: &Typed,
    layout: &Layout,
    reads: &[usize],
    joint: usize,
    named: usize,
) -> Result<StepConditions, AllocError>
    requires layout { layout.now ≡ joint_layout typed.now.scope.program reads.now }
    requires joint { joint ≡ joint_width typed.now.scope.program reads.now }
    requires named { named ≡ joint_named typed.now.scope.program reads.now }
    ensures inputs { IfOk result (λ r. HasInputs named r.graph) }
    ensures step { IfOk result (λ r. Tells r.graph r.step.items (is_step_at typed.now.scope.program reads.now)) }
{
    let types = layout.state_types();
    let given = layout.input_types();
    let first = layout.state();
    let second = layout.next();
    let between = layout.inputs();
    let mut graph = Graph::new(alloc, named)?;
    let none = nowhere(alloc, typed)?;
    let from = framed_state(alloc, &mut graph, typed, types, none.as_slice(), first)?;
    let to = framed_state(alloc, &mut graph, typed, types, none.as_slice(), second)?;
    let inputs = framed_inputs(alloc, &mut graph, typed, given, between)?;
    let read = read_inputs(alloc, &mut graph, typed, given, between, joint, joint)?;
    let mut step = step_conditions(alloc, &mut graph, typed, &from, &inputs, &to)?;
    ask(&graph, &mut step, read.valid)?;
    Ok(StepConditions { graph, step })
}

/// The clauses of steps, whose bits are so many, between states with inputs, of so many.
pub fn step_side(
    alloc: Global,
    typed: &Typed,
    layout: &Layout,
    reads: &[usize],
    joint: usize,
    named: usize,
) -> Result<Decided, AllocError>
    requires layout { layout.now ≡ joint_layout typed.now.scope.program reads.now }
    requires joint { joint ≡ joint_width typed.now.scope.program reads.now }
    requires named { named ≡ joint_named typed.now.scope.program reads.now }
    ensures { IfOk result (IsJointStep typed.now.scope.program reads.now) }
{
    let parts = conditions_of_step(alloc, typed, layout, reads, joint, named)?;
    parts.graph.one_way();
    let step = decide(alloc, &parts.graph, named, &parts.step, 0)?;
    Ok(step)
}
