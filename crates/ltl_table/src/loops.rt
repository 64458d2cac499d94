//! Columns of until and since and of their duals: backward over time, the loop twice, or forward.

ghost use Rattle.std.specs.Prelude.{◌≡◌, ◌+◌, ◌-◌, ◌<◌, ◌≤◌, ℕ, length, IfOk, vec_len};
ghost use Rattle.ltl_table.specs.Columns.{at, outset, back, looped, forth};

use crate::rules::{Step, outset, stepped};
use std::alloc::{AllocError, Global};

// The value at `from`, where `end` is that after the last time.
fn value_at(step: Step, left: &[bool], right: &[bool], from: usize, end: bool) -> bool
    requires same_length { length left.now ≡ length right.now }
    requires within { from ≤ length right.now }
    ensures { result ≡ back step left.now right.now from (length right.now - from) end }
{
    let mut value = end;
    let mut i = right.len();
    while i > from {
        i -= 1;
        value = stepped(step, left[i], right[i], value);
    }
    value
}

// A future operator's column, where the last time is followed by `start`: the loop is gone through
// twice, first for the value at its start.
pub fn backward(
    alloc: Global,
    step: Step,
    left: &[bool],
    right: &[bool],
    start: usize,
) -> Result<Vec<bool>, AllocError>
    requires same_length { length left.now ≡ length right.now }
    requires within { start ≤ length right.now }
    ensures len { IfOk result (λ c. vec_len c ≡ length right.now) }
    ensures each { IfOk result (λ c. (t : ℕ) → t < length right.now → at c.items t ≡ looped step left.now right.now start t) }
{
    let mut value = value_at(step, left, right, start, outset(step));
    let mut column = Vec::from_elem(alloc, false, right.len())?;
    let mut i = right.len();
    while i > 0 {
        i -= 1;
        value = stepped(step, left[i], right[i], value);
        column[i] = value;
    }
    Ok(column)
}

// A past operator's column.
pub fn forward(
    alloc: Global,
    step: Step,
    left: &[bool],
    right: &[bool],
) -> Result<Vec<bool>, AllocError>
    requires { length left.now ≡ length right.now }
    ensures len { IfOk result (λ c. vec_len c ≡ length right.now) }
    ensures each { IfOk result (λ c. (t : ℕ) → t < length right.now → at c.items t ≡ forth step left.now right.now (t + 1)) }
{
    let mut column = Vec::new(alloc);
    let mut value = outset(step);
    for i in 0..right.len() {
        value = stepped(step, left[i], right[i], value);
        column.push(value)?;
    }
    Ok(column)
}
