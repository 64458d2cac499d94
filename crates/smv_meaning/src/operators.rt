//! What operators give of the outcomes of their operands.

ghost use Rattle.std.specs.Prelude.{◌≡◌, [], ◌∷◌, IfOk};
ghost use Rattle.smv_value.specs.Results.{result_of};
ghost use Rattle.smv_meaning.specs.Outcomes.{applied, choice, given, included, integers_between, operated, ranged, united};

use crate::Evaluation;
use crate::outcome::{failed, given, one};
use smv_tree::Place;
use smv_value::{FaultRule, Operator, Value, apply};
use std::alloc::{AllocError, Global};
use value_sets::ValueSet;

/// An operator at this place over the outcomes of its operands. Sets take memory, and so do more than two operands.
pub fn applied(
    alloc: Global,
    operator: Operator,
    place: Place,
    operands: &[Evaluation],
) -> Result<Evaluation, AllocError>
    ensures { IfOk result (λ o. o ≡ applied operator place operands.now) }
{
    match operator {
        Operator::Choice(rule) => choice(alloc, rule, place, operands),
        Operator::Members => united(alloc, operands),
        Operator::Union => united(alloc, operands),
        Operator::Range => match operands {
            [a, b] => ranged(alloc, a, b),
            _ => Ok(Evaluation::Nothing),
        },
        Operator::In => match operands {
            [a, b] => Ok(included(a, b)),
            _ => Ok(Evaluation::Nothing),
        },
        other => operated(alloc, other, place, operands),
    }
}

// An operator over operands that have one value each, or the first fault. One or two operands need no memory.
fn operated(
    alloc: Global,
    operator: Operator,
    place: Place,
    operands: &[Evaluation],
) -> Result<Evaluation, AllocError>
    ensures { IfOk result (λ o. o ≡ operated (λ vs. given place (result_of operator vs)) [] operands.now) }
{
    match operands {
        [a] => Ok(operated_one(operator, place, a)),
        [a, b] => Ok(operated_two(operator, place, a, b)),
        _ => gathered(alloc, operator, place, operands),
    }
}

fn operated_one(operator: Operator, place: Place, a: &Evaluation) -> Evaluation
    ensures { result ≡ operated (λ vs. given place (result_of operator vs)) [] (a.now ∷ []) }
{
    match a.value() {
        None => failed(a),
        Some(v) => given(place, apply(operator, &[v])),
    }
}

fn operated_two(operator: Operator, place: Place, a: &Evaluation, b: &Evaluation) -> Evaluation
    ensures { result ≡ operated (λ vs. given place (result_of operator vs)) [] (a.now ∷ b.now ∷ []) }
{
    match (a.value(), b.value()) {
        (None, _) => failed(a),
        (Some(_), None) => failed(b),
        (Some(v), Some(w)) => given(place, apply(operator, &[v, w])),
    }
}

// The same, over however many operands.
fn gathered(
    alloc: Global,
    operator: Operator,
    place: Place,
    operands: &[Evaluation],
) -> Result<Evaluation, AllocError>
    ensures { IfOk result (λ o. o ≡ operated (λ vs. given place (result_of operator vs)) [] operands.now) }
{
    let mut values = Vec::new(alloc);
    for operand in operands {
        match operand.value() {
            None => return Ok(failed(operand)),
            Some(v) => values.push(v)?,
        }
    }
    Ok(given(place, apply(operator, values.as_slice())))
}

// The values of all operands one after another, or the first fault.
fn united(alloc: Global, operands: &[Evaluation]) -> Result<Evaluation, AllocError>
    ensures { IfOk result (λ o. o ≡ united [] operands.now) }
{
    let mut all = ValueSet::none(alloc);
    for operand in operands {
        match operand {
            Evaluation::Values(values) => all = all.with(alloc, values)?,
            Evaluation::Nothing => return Ok(Evaluation::Nothing),
            Evaluation::Fault(rule, place) => return Ok(Evaluation::Fault(*rule, *place)),
        }
    }
    Ok(Evaluation::Values(all))
}

// The integers from one to the other.
fn ranged(alloc: Global, a: &Evaluation, b: &Evaluation) -> Result<Evaluation, AllocError>
    ensures { IfOk result (λ o. o ≡ ranged a.now b.now) }
{
    match (a.value(), b.value()) {
        (None, _) => Ok(failed(a)),
        (Some(_), None) => Ok(failed(b)),
        (Some(v), Some(w)) => integers_between(alloc, v, w),
    }
}

fn integers_between(alloc: Global, v: Value, w: Value) -> Result<Evaluation, AllocError>
    ensures { IfOk result (λ o. o ≡ integers_between v w) }
{
    match (v, w) {
        (Value::Int(low), Value::Int(high)) => {
            let integers = ValueSet::range(alloc, low, high)?;
            Ok(Evaluation::Values(integers))
        }
        _ => Ok(Evaluation::Nothing),
    }
}

// Whether the value is one of the others.
fn included(a: &Evaluation, b: &Evaluation) -> Evaluation
    ensures { result ≡ included a.now b.now }
{
    match (a.value(), b) {
        (None, _) => failed(a),
        (Some(v), Evaluation::Values(values)) => one(Value::Bool(values.contains(v))),
        (Some(_), Evaluation::Nothing) => Evaluation::Nothing,
        (Some(_), Evaluation::Fault(rule, place)) => Evaluation::Fault(*rule, *place),
    }
}

// The branch of the first condition that is TRUE, or a last branch that has none; else a fault by the rule.
fn choice(
    alloc: Global,
    rule: FaultRule,
    place: Place,
    operands: &[Evaluation],
) -> Result<Evaluation, AllocError>
    ensures { IfOk result (λ o. o ≡ choice rule place operands.now) }
{
    let mut at = 0;
    while at + 1 < operands.len() {
        let condition = &operands[at];
        match condition.truth() {
            Some(true) => return operands[at + 1].copied(alloc),
            Some(false) => at += 2,
            None => return Ok(failed(condition)),
        }
    }
    match operands.get(at) {
        None => Ok(Evaluation::Fault(rule, place)),
        Some(last) => last.copied(alloc),
    }
}
