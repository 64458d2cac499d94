//! The words of lassos.

ghost use Rattle.std.specs.Prelude.{◌≡◌, ◌<◌, length, map, IfOk};
ghost use Rattle.smv_slots.specs.Slots.{slots_of};
ghost use Rattle.smv_meaning.specs.Lassos.{Lasso};
ghost use Rattle.smv_meaning.specs.Runs.{is_true};
ghost use Rattle.smv_meaning.specs.Tables.{outcome_at};
ghost use Rattle.smv_formulas.specs.Says.{atom_parts};
ghost use Rattle.smv_formulas.specs.Words.{IsWordOf, truths_at};

use ltl_meaning::word::{AtomSet, Word};
use smv_meaning::{Evaluation, Inputs, State, Typed, outcome_at, outcomes, slots};
use sqlite_items::Items;
use std::alloc::{AllocError, Global};

/// The word of a lasso: the states, each with the inputs of the step from it, and the number of the state at which the
/// last step goes on. The atoms are numbers of nodes of the program's list.
///
/// The error is running out of memory. The time is that of evaluating the nodes in each state.
pub fn word_of(
    alloc: Global,
    typed: &Typed,
    atoms: &[usize],
    states: &[State],
    inputs: &[Inputs],
    start: usize,
) -> Result<Word, AllocError>
    requires long { length states.now ≡ length inputs.now }
    requires inside { start < length states.now }
    ensures { IfOk result (λ word. IsWordOf typed.now.scope.program (atom_parts typed.now.nodes atoms.now) (record { states = states.now; inputs = inputs.now; start = start }) word) }
{
    let mut times = Vec::new(alloc);
    for (i, state) in states.iter().enumerate() {
        times.push(atoms_at(alloc, typed, atoms, state, &inputs[i])?)?;
    }
    Ok(Word {
        times: Items::from_vec(times),
        start,
    })
}

// The atoms that are true in a state with these inputs.
fn atoms_at(
    alloc: Global,
    typed: &Typed,
    atoms: &[usize],
    state: &State,
    inputs: &Inputs,
) -> Result<AtomSet, AllocError>
    ensures { IfOk result (λ set. set ≡ truths_at (slots_of typed.now.scope.program) state.now inputs.now (atom_parts typed.now.nodes atoms.now)) }
{
    let nodes = typed.nodes.as_slice();
    let here = outcomes(
        alloc,
        slots(typed),
        nodes,
        state.as_slice(),
        inputs.as_slice(),
        &[],
    )?;
    let mut truths = Vec::new(alloc);
    for atom in atoms {
        truths.push(is_true_at(here.as_slice(), *atom))?;
    }
    Ok(AtomSet::new(truths))
}

// Whether the outcome of this number is TRUE.
fn is_true_at(outcomes: &[Evaluation], k: usize) -> bool
    ensures { result ≡ is_true (outcome_at outcomes.now k) }
{
    match outcome_at(outcomes, k) {
        None => false,
        Some(outcome) => match outcome.truth() {
            Some(b) => b,
            None => false,
        },
    }
}
