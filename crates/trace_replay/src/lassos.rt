//! The replay of the trace of a temporal specification. A test whose evaluation faults fails, but that of a JUSTICE: it
//! asks for one state in which the JUSTICE is TRUE.

ghost use Rattle.std.specs.Prelude.{◌≡◌, ◌↔◌, ◌<◌, List, map, length, IfOk, IsTrue};
ghost use Rattle.std.specs.List.{list_any};
ghost use Rattle.smv_value.specs.declared.value.Value.{Value};
ghost use Rattle.smv_resolve.specs.Items.{item_by};
ghost use Rattle.smv_slots.specs.Slots.{slots_of};
ghost use Rattle.smv_meaning.specs.Lassos.{Holds, Lasso};
ghost use Rattle.smv_meaning.specs.Runs.{is_true};
ghost use Rattle.smv_meaning.specs.Values.{outcome_in};
ghost use Rattle.trace_replay.specs.Faultless.{is_evaluated};
ghost use Rattle.trace_replay.specs.Lassos.{IsLassoReplay, IsLassoTold, is_fair, is_justice, is_loop, justices_of};
ghost use Rattle.trace_replay.specs.Rows.{AreTypes};
ghost use Rattle.trace_replay.specs.Telling.{IsFirstFailing};

use crate::faultless::{is_faultless, steps_well};
use crate::replaying::{failing_first, failing_inv, failing_step, outcome_in, rejected};
use crate::telling::{Telling, Told, tell_lasso};
use crate::{ReplayRule, Replayed, Trace};
use ltl_table::table::Table;
use smv_formulas::{formula_of, word_of};
use smv_meaning::{Evaluation, Inputs, State, Typed};
use smv_resolve::{Item, ItemKind, first, last};
use smv_tree::ConstraintKind;
use sqlite_items::Items;
use std::alloc::{AllocError, Global};

/// What comes of the tests of a trace of this specification.
pub fn judge_lasso(
    alloc: Global,
    typed: &Typed,
    spec: &Item,
    trace: &Trace,
) -> Result<Replayed, AllocError>
    requires types { AreTypes typed.now.scope.program }
    ensures { IfOk result (IsLassoReplay typed.now.scope.program (item_by typed.now.nodes spec.now) trace.now) }
{
    match tell_lasso(alloc, typed, trace)? {
        Telling::Unfit(number) => Ok(rejected(ReplayRule::Values, number)),
        Telling::Fit(told) => judge_values(alloc, typed, spec, trace, &told),
    }
}

// The same, where all values are told as they should be.
fn judge_values(
    alloc: Global,
    typed: &Typed,
    spec: &Item,
    trace: &Trace,
    told: &Told,
) -> Result<Replayed, AllocError>
    requires { IsLassoTold typed.now.scope.program trace.now told.now }
    ensures { IfOk result (IsLassoReplay typed.now.scope.program (item_by typed.now.nodes spec.now) trace.now) }
{
    let (states, inputs) = (told.states.as_slice(), told.inputs.as_slice());
    if let Some(number) = failing_first(alloc, typed, states)? {
        return Ok(rejected(ReplayRule::First, number));
    }
    if let Some(number) = failing_inv(alloc, typed, states)? {
        return Ok(rejected(ReplayRule::Inv, number));
    }
    let between = first(inputs, states.len() - 1);
    if let Some(number) = failing_step(alloc, typed, states, between)? {
        return Ok(rejected(ReplayRule::Step, number));
    }
    let Some(start) = trace.start else {
        return Ok(rejected(ReplayRule::Loop, 0))
    };
    if !is_loop(alloc, typed, states, inputs, start)? {
        return Ok(rejected(ReplayRule::Loop, start));
    }
    let in_loop = last(states, states.len() - start);
    if let Some(number) = failing_fair(alloc, typed, in_loop)? {
        return Ok(rejected(ReplayRule::Fair, number));
    }
    if let Some(_) = failing_time(alloc, typed, spec, states, inputs)? {
        return Ok(rejected(ReplayRule::Spec, 0));
    }
    if holds_at_first(alloc, typed, spec, states, inputs, start)? {
        return Ok(rejected(ReplayRule::Spec, 0));
    }
    Ok(Replayed::Accepted)
}

// Whether there is a step from the last state to this one.
fn is_loop(
    alloc: Global,
    typed: &Typed,
    states: &[State],
    inputs: &[Inputs],
    start: usize,
) -> Result<bool, AllocError>
    requires some { 0 < length states.now }
    requires long { length states.now ≡ length inputs.now }
    ensures { IfOk result (λ met. met ≡ is_loop typed.now.scope.program states.now inputs.now start) }
{
    if start >= states.len() {
        return Ok(false);
    }
    let last = states.len() - 1;
    let met = steps_well(alloc, typed, &states[last], &inputs[last], &states[start])?;
    Ok(met)
}

// The first JUSTICE that is TRUE in none of these states.
fn failing_fair(alloc: Global, typed: &Typed, states: &[State]) -> Result<Option<usize>, AllocError>
    ensures { IfOk result (IsFirstFailing (is_fair typed.now.scope.program states.now)) }
{
    let justices = justices(alloc, typed)?;
    for (i, justice) in justices.as_slice().iter().enumerate() {
        if !is_met(alloc, typed, justice, states)? {
            return Ok(Some(i));
        }
    }
    Ok(None)
}

// The JUSTICE constraints, in the order of the items.
fn justices(alloc: Global, typed: &Typed) -> Result<Items<Item>, AllocError>
    ensures { IfOk result (λ justices. map (item_by typed.now.nodes) justices ≡ justices_of typed.now.scope.program) }
{
    let mut justices = Vec::new(alloc);
    for item in typed.items.as_slice() {
        if is_justice(item.kind) {
            justices.push(*item)?;
        }
    }
    Ok(Items::from_vec(justices))
}

fn is_justice(kind: ItemKind) -> bool
    ensures { result ≡ is_justice kind }
{
    match kind {
        ItemKind::Constraint(ConstraintKind::Justice) => true,
        _ => false,
    }
}

// Whether the item is TRUE in some of these states.
fn is_met(alloc: Global, typed: &Typed, item: &Item, states: &[State]) -> Result<bool, AllocError>
    ensures { IfOk result (λ met. met ≡ list_any (λ (s : List Value). is_true (outcome_in (slots_of typed.now.scope.program) s (item_by typed.now.nodes item.now).value)) states.now) }
{
    for state in states {
        let outcome = outcome_in(alloc, typed, item, state)?;
        if is_true(&outcome) {
            return Ok(true);
        }
    }
    Ok(false)
}

fn is_true(outcome: &Evaluation) -> bool
    ensures { result ≡ is_true outcome.now }
{
    match outcome.truth() {
        None => false,
        Some(b) => b,
    }
}

// The first time of a lasso at which the specification faults.
fn failing_time(
    alloc: Global,
    typed: &Typed,
    spec: &Item,
    states: &[State],
    inputs: &[Inputs],
) -> Result<Option<usize>, AllocError>
    requires { length states.now ≡ length inputs.now }
    ensures { IfOk result (IsFirstFailing (is_evaluated typed.now.scope.program (item_by typed.now.nodes spec.now) states.now inputs.now)) }
{
    for (i, inputs) in inputs.iter().enumerate() {
        if !is_faultless(alloc, typed, spec, &states[i], inputs)? {
            return Ok(Some(i));
        }
    }
    Ok(None)
}

// Whether the specification holds at the first time of a lasso.
fn holds_at_first(
    alloc: Global,
    typed: &Typed,
    spec: &Item,
    states: &[State],
    inputs: &[Inputs],
    start: usize,
) -> Result<bool, AllocError>
    requires long { length states.now ≡ length inputs.now }
    requires inside { start < length states.now }
    ensures { IfOk result (λ holds. IsTrue holds ↔ Holds typed.now.scope.program (record { states = states.now; inputs = inputs.now; start = start }) (item_by typed.now.nodes spec.now).value 0) }
{
    let specified = formula_of(alloc, typed, spec)?;
    let word = word_of(
        alloc,
        typed,
        specified.atoms.as_slice(),
        states,
        inputs,
        start,
    )?;
    let table = Table::make(alloc, &specified.formula, &word)?;
    Ok(table.value(0))
}
