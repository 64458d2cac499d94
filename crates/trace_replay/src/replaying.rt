//! The replay of a trace: its states and steps are judged by the meaning of the program, as `smv_meaning` computes it.
//! A test whose evaluation faults fails.

ghost use Rattle.std.specs.Prelude.{◌≡◌, ◌+◌, ◌<◌, ◌≤◌, ◌↔◌, length, IfOk, IfSome};
ghost use Rattle.smv_resolve.specs.Items.{item_by};
ghost use Rattle.smv_slots.specs.Slots.{slots_of};
ghost use Rattle.smv_meaning.specs.Runs.{specifications_of};
ghost use Rattle.smv_meaning.specs.Values.{outcome_in};
ghost use Rattle.trace_replay.specs.Lassos.{IsReplayOf, Shows};
ghost use Rattle.trace_replay.specs.Rows.{AreTypes};
ghost use Rattle.trace_replay.specs.Telling.{IsFirstFailing, IsTold};
ghost use Rattle.trace_replay.specs.Tests.{IsReplay, ShowsBroken, begins, ends, goes_on, is_false, specification_at, stays};

use crate::faultless::{begins_well, stays_well, steps_well};
use crate::lassos::judge_lasso;
use crate::telling::{Telling, Told, tell};
use crate::{ReplayRule, Replayed, Trace};
use smv_meaning::{Evaluation, Inputs, State, Typed, outcomes, slots, specifications};
use smv_resolve::{Item, ItemKind};
use smv_tree::SpecificationKind;
use std::alloc::{AllocError, Global};

/// What comes of the tests of a trace of the specification of this number, counted from 1: it is accepted, or rejected
/// by the first test that fails. The trace of an invariant is accepted just where it is that of a run that breaks it.
/// The trace of a temporal specification is accepted just where it is that of a lasso that violates it. Nothing that a
/// test asks of an accepted trace faults.
///
/// Memory may be refused. The time is that of the tests, each of them in the size of the model; that of a temporal
/// specification is that of its formula's table.
pub fn replay(
    alloc: Global,
    typed: &Typed,
    spec: usize,
    trace: &Trace,
) -> Result<Replayed, AllocError>
    requires first { 0 < spec }
    requires last { spec ≤ length (specifications_of typed.now.scope.program) }
    ensures judged { IfOk result (λ r. IfSome (specification_at typed.now.scope.program spec) (λ x. IsReplayOf x.kind typed.now.scope.program x trace.now r)) }
    ensures accepted { IfOk result (λ r. IfSome (specification_at typed.now.scope.program spec) (λ x. Shows x.kind typed.now.scope.program x trace.now r)) }
{
    let specs = specifications(alloc, typed)?;
    let item = specs.as_slice()[spec - 1];
    judge(alloc, typed, &item, trace)
}

/// The same of the trace of a run, where the specification of this number is taken as an invariant: it is accepted just
/// where it is that of a run in whose last state the specification is FALSE, and nothing that is asked along it faults.
pub fn replay_run(
    alloc: Global,
    typed: &Typed,
    spec: usize,
    trace: &Trace,
) -> Result<Replayed, AllocError>
    requires first { 0 < spec }
    requires last { spec ≤ length (specifications_of typed.now.scope.program) }
    ensures judged { IfOk result (λ r. IfSome (specification_at typed.now.scope.program spec) (λ x. IsReplay typed.now.scope.program x trace.now r)) }
    ensures accepted { IfOk result (λ r. IfSome (specification_at typed.now.scope.program spec) (λ x. (r ≡ Replayed.Accepted) ↔ ShowsBroken typed.now.scope.program x trace.now)) }
{
    let specs = specifications(alloc, typed)?;
    let item = specs.as_slice()[spec - 1];
    judge_run(alloc, typed, &item, trace)
}

// What comes of the tests of a trace of this specification.
fn judge(alloc: Global, typed: &Typed, spec: &Item, trace: &Trace) -> Result<Replayed, AllocError>
    requires types { AreTypes typed.now.scope.program }
    ensures { IfOk result (IsReplayOf spec.now.kind typed.now.scope.program (item_by typed.now.nodes spec.now) trace.now) }
{
    match spec.kind {
        ItemKind::Specification(SpecificationKind::Temporal) => {
            judge_lasso(alloc, typed, spec, trace)
        }
        ItemKind::Specification(SpecificationKind::Invariant) => {
            judge_run(alloc, typed, spec, trace)
        }
        ItemKind::Assignment(_) => judge_run(alloc, typed, spec, trace),
        ItemKind::Constraint(_) => judge_run(alloc, typed, spec, trace),
    }
}

// What comes of the tests of a trace of a run.
fn judge_run(
    alloc: Global,
    typed: &Typed,
    spec: &Item,
    trace: &Trace,
) -> Result<Replayed, AllocError>
    requires types { AreTypes typed.now.scope.program }
    ensures { IfOk result (IsReplay typed.now.scope.program (item_by typed.now.nodes spec.now) trace.now) }
{
    match tell(alloc, typed, trace)? {
        Telling::Unfit(number) => Ok(Replayed::Rejected {
            rule: ReplayRule::Values,
            number,
        }),
        Telling::Fit(told) => judge_values(alloc, typed, spec, trace, &told),
    }
}

// The same, where all values are told as they should be.
fn judge_values(
    alloc: Global,
    typed: &Typed,
    spec: &Item,
    trace: &Trace,
    told: &Told,
) -> Result<Replayed, AllocError>
    requires { IsTold typed.now.scope.program trace.now told.now }
    ensures { IfOk result (IsReplay typed.now.scope.program (item_by typed.now.nodes spec.now) trace.now) }
{
    let (states, inputs) = (told.states.as_slice(), told.inputs.as_slice());
    if let Some(number) = failing_first(alloc, typed, states)? {
        return Ok(rejected(ReplayRule::First, number));
    }
    if let Some(number) = failing_inv(alloc, typed, states)? {
        return Ok(rejected(ReplayRule::Inv, number));
    }
    if let Some(number) = failing_step(alloc, typed, states, inputs)? {
        return Ok(rejected(ReplayRule::Step, number));
    }
    if let Some(number) = trace.start {
        return Ok(rejected(ReplayRule::Loop, number));
    }
    if let Some(number) = failing_spec(alloc, typed, spec, states)? {
        return Ok(rejected(ReplayRule::Spec, number));
    }
    Ok(Replayed::Accepted)
}

pub fn rejected(rule: ReplayRule, number: usize) -> Replayed
    ensures { result ≡ Replayed.Rejected rule number }
{
    Replayed::Rejected { rule, number }
}

// Whether the first state is none of the program.
pub fn failing_first(
    alloc: Global,
    typed: &Typed,
    states: &[State],
) -> Result<Option<usize>, AllocError>
    requires { 0 < length states.now }
    ensures { IfOk result (IsFirstFailing (begins typed.now.scope.program states.now)) }
{
    if begins_well(alloc, typed, &states[0])? {
        return Ok(None);
    }
    Ok(Some(0))
}

// The first state that does not have what invariants ask.
pub fn failing_inv(
    alloc: Global,
    typed: &Typed,
    states: &[State],
) -> Result<Option<usize>, AllocError>
    ensures { IfOk result (IsFirstFailing (stays typed.now.scope.program states.now)) }
{
    for (i, state) in states.iter().enumerate() {
        if !stays_well(alloc, typed, state)? {
            return Ok(Some(i));
        }
    }
    Ok(None)
}

// The first state from which there is no step to the next.
pub fn failing_step(
    alloc: Global,
    typed: &Typed,
    states: &[State],
    inputs: &[Inputs],
) -> Result<Option<usize>, AllocError>
    requires { length states.now ≡ length inputs.now + 1 }
    ensures { IfOk result (IsFirstFailing (goes_on typed.now.scope.program states.now inputs.now)) }
{
    for (i, inputs) in inputs.iter().enumerate() {
        if !steps_well(alloc, typed, &states[i], inputs, &states[i + 1])? {
            return Ok(Some(i));
        }
    }
    Ok(None)
}

// Whether the specification is not FALSE in the last state.
fn failing_spec(
    alloc: Global,
    typed: &Typed,
    spec: &Item,
    states: &[State],
) -> Result<Option<usize>, AllocError>
    requires { 0 < length states.now }
    ensures { IfOk result (IsFirstFailing (ends typed.now.scope.program (item_by typed.now.nodes spec.now) states.now)) }
{
    let outcome = outcome_in(alloc, typed, spec, &states[states.len() - 1])?;
    if is_false(&outcome) {
        return Ok(None);
    }
    Ok(Some(0))
}

// The outcome of the specification in a state.
pub fn outcome_in(
    alloc: Global,
    typed: &Typed,
    spec: &Item,
    state: &State,
) -> Result<Evaluation, AllocError>
    ensures { IfOk result (λ o. o ≡ outcome_in (slots_of typed.now.scope.program) state.now (item_by typed.now.nodes spec.now).value) }
{
    let nodes = typed.nodes.as_slice();
    let all = outcomes(alloc, slots(typed), nodes, state.as_slice(), &[], &[])?;
    match all.get(spec.value) {
        None => Ok(Evaluation::Nothing),
        Some(outcome) => outcome.copied(alloc),
    }
}

fn is_false(outcome: &Evaluation) -> bool
    ensures { result ≡ is_false outcome.now }
{
    match outcome.truth() {
        None => false,
        Some(b) => !b,
    }
}
