//! The run of a program that a run over bits is.

ghost use Rattle.std.specs.Prelude.{◌≡◌, ◌-◌, ℕ, List, Bool, Some, length, map, slice_get, take, true, IfOk};
ghost use Rattle.clause_core.specs.Assignments.{assignment_of};
ghost use Rattle.smv_tree.specs.declared.tree.Program.{Program};
ghost use Rattle.smv_resolve.specs.Items.{ResolvedItem};
ghost use Rattle.smv_meaning.specs.Runs.{Breaks, specifications_of};
ghost use Rattle.frame_core.specs.Runs.{IsBadRun};
ghost use Rattle.bit_system.specs.Building.{IsBuilt, system_of};
ghost use Rattle.bit_conditions.specs.Asked.{is_invariant};
ghost use Rattle.bit_states.specs.Coding.{decoded};
ghost use Rattle.bit_runs.specs.Running.{inputs_in, states_in};

use bit_system::Built;
use frame_core::BitRun;
use smv_meaning::{Inputs, State};
use sqlite_items::Items;
use std::alloc::{AllocError, Global};

/// A run of a program: its states, and the inputs of the steps between them.
#[derive(Debug, Drop)]
pub struct Run {
    pub states: Items<State>,
    pub inputs: Items<Inputs>,
}

/// The run of the program that a run over bits is.
///
/// Where the run over bits leads to a bad state of the system of an invariant, that run breaks the invariant. Time and
/// memory grow with the values of the states and inputs. The only error is running out of memory.
pub fn run_of(alloc: Global, built: &Built, run: &BitRun) -> Result<Run, AllocError>
    ensures states { (p : Program) → IsBuilt p built.now → IfOk result (λ r. r.states ≡ states_in p run.now) }
    ensures inputs { (p : Program) → IsBuilt p built.now → IfOk result (λ r. r.inputs ≡ inputs_in p run.now) }
    ensures breaks { (p : Program) (j : ℕ) (spec : ResolvedItem) → IsBuilt p built.now → slice_get (specifications_of p) j ≡ Some spec → is_invariant spec.kind ≡ true
        → IsBadRun (system_of built.now j) run.now → IfOk result (λ r. Breaks p spec r.states r.inputs) }
{
    let states = decoded_states(alloc, built, run)?;
    let inputs = decoded_inputs(alloc, built, run)?;
    Ok(Run { states, inputs })
}

// The states of the rows.
fn decoded_states(alloc: Global, built: &Built, run: &BitRun) -> Result<Items<State>, AllocError>
    ensures { IfOk result (λ r. r ≡ map (λ (x : List Bool). decoded built.now.layout.state_types built.now.layout.state (assignment_of x)) run.now) }
{
    let mut states = Vec::new(alloc);
    for k in 0..run.len() {
        states.push(built.decode(alloc, run.row(k))?)?;
    }
    Ok(Items::from_vec(states))
}

// The inputs of all rows but the last.
fn decoded_inputs(alloc: Global, built: &Built, run: &BitRun) -> Result<Items<Inputs>, AllocError>
    ensures { IfOk result (λ r. r ≡ map (λ (x : List Bool). decoded built.now.layout.input_types built.now.layout.inputs (assignment_of x)) (take (length run.now - 1) run.now)) }
{
    let steps = run.len().saturating_sub(1);
    let mut inputs = Vec::new(alloc);
    for k in 0..steps {
        inputs.push(built.decode_inputs(alloc, run.row(k))?)?;
    }
    Ok(Items::from_vec(inputs))
}
