//! The refusal of an item whose question is met: the states and inputs that the bits of a model are.

ghost use Rattle.std.specs.Prelude.{◌≡◌, IfOk};
ghost use Rattle.clause_core.specs.Assignments.{assignment_of};
ghost use Rattle.bit_states.specs.Layouts.{layout_of};
ghost use Rattle.bit_faults.specs.Questions.{AreFaultQuestions};
ghost use Rattle.fault_search.specs.Answering.{IsFaulty};
ghost use Rattle.smv_prepare.specs.Decoding.{IsValuation};
ghost use Rattle.smv_prepare.specs.Preparing.{IsRefusedByFaults};

use bit_clauses::Decided;
use bit_faults::{judged_items, mended, what_is_met, what_is_never_met};
use bit_states::{Layout, decoded};
use clause_core::Bits;
use fault_texts::fault_refusal;
use smv_meaning::{Inputs, State, Typed};
use smv_tree::Refusal;
use std::alloc::{AllocError, Global};

/// A state, inputs, and a next state.
#[derive(Drop)]
pub struct Valuation {
    pub state: State,
    pub inputs: Inputs,
    pub next: State,
}

/// The refusal of the item of this number, whose question the model meets, where none before it is ever met. In slots
/// of which the question does not speak the model's bits may be those of no value: there it tells the first value of
/// the type.
pub fn refusal_of(
    alloc: Global,
    typed: &Typed,
    layout: &Layout,
    questions: &[Option<Decided>],
    number: usize,
    model: &Bits,
) -> Result<Refusal, AllocError>
    requires layout { layout.now ≡ layout_of typed.now.scope.program }
    requires questions { AreFaultQuestions typed.now.scope.program questions.now }
    requires faulty { IsFaulty questions.now number model.now }
    ensures { IfOk result (IsRefusedByFaults typed.now.scope.program) }
{
    what_is_met();
    what_is_never_met();
    let bits = mended(alloc, typed, layout, model.as_slice())?;
    let at = meant_by(alloc, layout, &bits)?;
    let items = judged_items(alloc, typed)?;
    let item = items.as_slice()[number];
    match fault_refusal(alloc, typed, &item, &at.state, &at.inputs, &at.next)? {
        Some(refusal) => Ok(refusal),
        None => unreachable!(),
    }
}

// What the bits mean.
fn meant_by(alloc: Global, layout: &Layout, values: &[bool]) -> Result<Valuation, AllocError>
    ensures { IfOk result (IsValuation layout.now (assignment_of values.now)) }
{
    let state = layout.decode(alloc, values)?;
    let inputs = layout.decode_inputs(alloc, values)?;
    let next = decoded(alloc, layout.state_types(), layout.next(), values)?;
    Ok(Valuation {
        state,
        inputs,
        next,
    })
}
