//! Columns of Boolean operators, and of the next time and the time before.

ghost use Rattle.std.specs.Prelude.{◌≡◌, ◌+◌, ◌-◌, ◌<◌, ℕ, not, length, IfOk, vec_len, if◌then◌else◌, nat_lt};
ghost use Rattle.ltl_table.specs.Columns.{at, combine};

use crate::rules::{Connective, combine};
use std::alloc::{AllocError, Global};

pub fn negation(alloc: Global, operand: &[bool]) -> Result<Vec<bool>, AllocError>
    ensures len { IfOk result (λ c. vec_len c ≡ length operand.now) }
    ensures each { IfOk result (λ c. (t : ℕ) → t < length operand.now → at c.items t ≡ not (at operand.now t)) }
{
    let mut column = Vec::new(alloc);
    for i in 0..operand.len() {
        column.push(!operand[i])?;
    }
    Ok(column)
}

// The next time's value, where the last time is followed by `start`.
pub fn next(alloc: Global, operand: &[bool], start: usize) -> Result<Vec<bool>, AllocError>
    requires { start < length operand.now }
    ensures len { IfOk result (λ c. vec_len c ≡ length operand.now) }
    ensures each { IfOk result (λ c. (t : ℕ) → t < length operand.now → at c.items t ≡ at operand.now (if nat_lt (t + 1) (length operand.now) then t + 1 else start)) }
{
    let mut column = Vec::new(alloc);
    for i in 0..operand.len() {
        column.push(operand[if i + 1 < operand.len() { i + 1 } else { start }])?;
    }
    Ok(column)
}

// The value at the time before, and `first` at the first time.
pub fn yesterday(alloc: Global, operand: &[bool], first: bool) -> Result<Vec<bool>, AllocError>
    ensures len { IfOk result (λ c. vec_len c ≡ length operand.now) }
    ensures each { IfOk result (λ c. (t : ℕ) → t < length operand.now → at c.items t ≡ (if nat_lt 0 t then at operand.now (t - 1) else first)) }
{
    let mut column = Vec::new(alloc);
    for i in 0..operand.len() {
        column.push(if 0 < i { operand[i - 1] } else { first })?;
    }
    Ok(column)
}

pub fn pointwise(
    alloc: Global,
    connective: Connective,
    left: &[bool],
    right: &[bool],
) -> Result<Vec<bool>, AllocError>
    requires { length left.now ≡ length right.now }
    ensures len { IfOk result (λ c. vec_len c ≡ length right.now) }
    ensures each { IfOk result (λ c. (t : ℕ) → t < length right.now → at c.items t ≡ combine connective (at left.now t) (at right.now t)) }
{
    let mut column = Vec::new(alloc);
    for i in 0..right.len() {
        let value = combine(connective, left[i], right[i]);
        column.push(value)?;
    }
    Ok(column)
}
