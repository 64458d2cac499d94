//! The column of each operator from those of its operands.

ghost use Rattle.std.specs.Prelude.{◌≡◌, ◌+◌, ◌-◌, ◌<◌, ℕ, length, IfOk, vec_len, if◌then◌else◌, nat_lt};
ghost use Rattle.ltl_table.specs.Columns.{at, always, combine, forth, looped, unary_value, binary_value};

use crate::constant::constant;
use crate::loops::{backward, forward};
use crate::pointwise::{negation, next, pointwise, yesterday};
use crate::rules::{Connective, Step};
use ltl_meaning::node::{BinaryOperator, UnaryOperator};
use std::alloc::{AllocError, Global};

// The column of an operand joined with that of the next time, where the last time is followed by `start`.
fn beside_next(
    alloc: Global,
    connective: Connective,
    operand: &[bool],
    start: usize,
) -> Result<Vec<bool>, AllocError>
    requires { start < length operand.now }
    ensures len { IfOk result (λ c. vec_len c ≡ length operand.now) }
    ensures each { IfOk result (λ c. (t : ℕ) → t < length operand.now → at c.items t ≡ combine connective (at operand.now t) (at operand.now (if nat_lt (t + 1) (length operand.now) then t + 1 else start))) }
{
    let after = next(alloc, operand, start)?;
    beside(alloc, connective, operand, after)
}

// The column of an operand joined with that of the time before, and with `first` at the first time.
fn beside_previous(
    alloc: Global,
    connective: Connective,
    operand: &[bool],
    first: bool,
) -> Result<Vec<bool>, AllocError>
    ensures len { IfOk result (λ c. vec_len c ≡ length operand.now) }
    ensures each { IfOk result (λ c. (t : ℕ) → t < length operand.now → at c.items t ≡ combine connective (at operand.now t) (if nat_lt 0 t then at operand.now (t - 1) else first)) }
{
    let before = yesterday(alloc, operand, first)?;
    beside(alloc, connective, operand, before)
}

// The column of an operand joined with that of a neighbouring time.
fn beside(
    alloc: Global,
    connective: Connective,
    operand: &[bool],
    neighbour: Vec<bool>,
) -> Result<Vec<bool>, AllocError>
    requires { length operand.now ≡ vec_len neighbour }
    ensures len { IfOk result (λ c. vec_len c ≡ length operand.now) }
    ensures each { IfOk result (λ c. (t : ℕ) → t < length operand.now → at c.items t ≡ combine connective (at operand.now t) (at neighbour.items t)) }
{
    let column = pointwise(alloc, connective, operand, neighbour.as_slice())?;
    Ok(column)
}

// A future operator's column, where its left operand is always `left`.
fn ahead(
    alloc: Global,
    step: Step,
    left: bool,
    right: &[bool],
    start: usize,
) -> Result<Vec<bool>, AllocError>
    requires { start < length right.now }
    ensures len { IfOk result (λ c. vec_len c ≡ length right.now) }
    ensures each { IfOk result (λ c. (t : ℕ) → t < length right.now → at c.items t ≡ looped step (always right.now left) right.now start t) }
{
    let left = constant(alloc, left, right.len())?;
    backward(alloc, step, left.as_slice(), right, start)
}

// A past operator's column, where its left operand is always `left`.
fn behind(alloc: Global, step: Step, left: bool, right: &[bool]) -> Result<Vec<bool>, AllocError>
    ensures len { IfOk result (λ c. vec_len c ≡ length right.now) }
    ensures each { IfOk result (λ c. (t : ℕ) → t < length right.now → at c.items t ≡ forth step (always right.now left) right.now (t + 1)) }
{
    let left = constant(alloc, left, right.len())?;
    forward(alloc, step, left.as_slice(), right)
}

// The column of an operator over its operand's, where the last time is followed by `start`.
pub fn unary(
    alloc: Global,
    operator: UnaryOperator,
    operand: &[bool],
    start: usize,
) -> Result<Vec<bool>, AllocError>
    requires { start < length operand.now }
    ensures len { IfOk result (λ c. vec_len c ≡ length operand.now) }
    ensures each { IfOk result (λ c. (t : ℕ) → t < length operand.now → at c.items t ≡ unary_value operator operand.now start t) }
{
    match operator {
        UnaryOperator::Not => negation(alloc, operand),
        UnaryOperator::Next => next(alloc, operand, start),
        UnaryOperator::Finally => ahead(alloc, Step::Until, true, operand, start),
        UnaryOperator::Globally => ahead(alloc, Step::Releases, false, operand, start),
        UnaryOperator::Yesterday => yesterday(alloc, operand, false),
        UnaryOperator::WeakYesterday => yesterday(alloc, operand, true),
        UnaryOperator::Once => behind(alloc, Step::Until, true, operand),
        UnaryOperator::Historically => behind(alloc, Step::Releases, false, operand),
        UnaryOperator::NowOrNext => beside_next(alloc, Connective::Or, operand, start),
        UnaryOperator::NowAndNext => beside_next(alloc, Connective::And, operand, start),
        UnaryOperator::NowOrBefore => beside_previous(alloc, Connective::Or, operand, false),
        UnaryOperator::NowAndBefore => beside_previous(alloc, Connective::And, operand, true),
    }
}

// The column of an operator over its operands', where the last time is followed by `start`.
pub fn binary(
    alloc: Global,
    operator: BinaryOperator,
    left: &[bool],
    right: &[bool],
    start: usize,
) -> Result<Vec<bool>, AllocError>
    requires same_length { length left.now ≡ length right.now }
    requires within { start < length right.now }
    ensures len { IfOk result (λ c. vec_len c ≡ length right.now) }
    ensures each { IfOk result (λ c. (t : ℕ) → t < length right.now → at c.items t ≡ binary_value operator left.now right.now start t) }
{
    match operator {
        BinaryOperator::And => pointwise(alloc, Connective::And, left, right),
        BinaryOperator::Or => pointwise(alloc, Connective::Or, left, right),
        BinaryOperator::Xor => pointwise(alloc, Connective::Xor, left, right),
        BinaryOperator::Xnor => pointwise(alloc, Connective::Iff, left, right),
        BinaryOperator::Implies => pointwise(alloc, Connective::Implies, left, right),
        BinaryOperator::Iff => pointwise(alloc, Connective::Iff, left, right),
        BinaryOperator::Until => backward(alloc, Step::Until, left, right, start),
        BinaryOperator::Releases => backward(alloc, Step::Releases, left, right, start),
        BinaryOperator::Since => forward(alloc, Step::Until, left, right),
        BinaryOperator::Triggered => forward(alloc, Step::Releases, left, right),
    }
}
