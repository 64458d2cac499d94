//! The rules of widths and of the size of bounds, and what limits that keep them give.

ghost use Rattle.std.specs.Prelude.{◌≡◌, ◌+ℤ◌, ◌-ℤ◌, pos, map, is_some, IfOk, IfSome};
ghost use Rattle.smv_value.specs.Results.{is_int, is_width, natural};
ghost use Rattle.smv_verdicts.specs.Verdicts.{Judges, first_of};
ghost use Rattle.smv_declared.specs.Limits.{bounds_in, high_in, low_in, width_in};
ghost use Rattle.smv_declared.specs.Refusals.{no_width, no_width_of, too_wide, wide_limits, wide_of};
ghost use Rattle.smv_declared.specs.Types.{number_of};

use crate::limits::{ElementLimits, Limits};
use crate::{Bounds, Constant};
use smv_tree::{Place, Refusal, Rule, TextStop};
use smv_verdicts::refused;
use sqlite_items::Items;
use std::alloc::Global;
use whole_numbers::WholeNumber;

// The width of a word; 0 of what is none.
pub(crate) fn width_in(alloc: Global, element: &ElementLimits) -> Result<u32, TextStop>
    ensures judged { Judges result (no_width_of element.now) }
    ensures width { IfOk result (λ w. w ≡ width_in element.now) }
{
    match element {
        ElementLimits::Width(place, width) => width_of(alloc, *place, width),
        ElementLimits::Absent | ElementLimits::Range(_) => Ok(0),
    }
}

// The width of a word, which stands at this place.
fn width_of(alloc: Global, place: Place, width: &Constant) -> Result<u32, TextStop>
    ensures judged { Judges result (no_width place width.now) }
    ensures width { IfOk result (λ w. w ≡ natural (number_of width.now)) }
{
    match width {
        Constant::NotConstant => Ok(0),
        Constant::Integer(z) => match width_by(z) {
            Some(bits) => Ok(bits),
            None => {
                let detail = z.to_text(alloc)?;
                Err(TextStop::Refused(Refusal {
                    rule: Rule::WordWidth,
                    place,
                    detail: Some(detail),
                }))
            }
        },
    }
}

// The width, if it is one.
fn width_by(z: &WholeNumber) -> Option<u32>
    ensures width { IfSome result (λ w. w ≡ natural z.now) }
    ensures is_one { is_some result ≡ is_width (natural z.now) }
{
    match z.to_i64() {
        Some(n) if 1 <= n && n <= 128 => Some(n as u32),
        _ => None,
    }
}

// The indices of each dimension.
pub(crate) fn bounds_of(alloc: Global, all: &[Limits]) -> Result<Items<Bounds>, TextStop>
    ensures judged { Judges result (first_of wide_limits all.now) }
    ensures bounds { IfOk result (λ bounds. bounds ≡ map bounds_in all.now) }
{
    let mut bounds = Items::new(alloc);
    for limits in all {
        let dimension = bounds_in(limits)?;
        bounds.push(dimension)?;
    }
    Ok(bounds)
}

// The indices of a dimension.
fn bounds_in(limits: &Limits) -> Result<Bounds, TextStop>
    ensures judged { Judges result (wide_limits limits.now) }
    ensures bounds { IfOk result (λ bounds. bounds ≡ bounds_in limits.now) }
{
    let (low, high) = range_of(limits)?;
    let count = count_between(low, high);
    Ok(Bounds { low, count })
}

// How many integers there are from the one to the other.
fn count_between(low: i32, high: i32) -> usize
    ensures { result ≡ natural (high -ℤ low +ℤ pos 1) }
{
    if low <= high {
        (i64::from(high) - i64::from(low) + 1) as usize
    } else {
        0
    }
}

// The first and the last integer of a range; 0 of what is none.
pub(crate) fn range_in(element: &ElementLimits) -> Result<(i32, i32), TextStop>
    ensures judged { Judges result (wide_of element.now) }
    ensures low { IfOk result (λ r. r.0 ≡ low_in element.now) }
    ensures high { IfOk result (λ r. r.1 ≡ high_in element.now) }
{
    match element {
        ElementLimits::Range(limits) => range_of(limits),
        ElementLimits::Absent | ElementLimits::Width(..) => Ok((0, 0)),
    }
}

fn range_of(limits: &Limits) -> Result<(i32, i32), TextStop>
    ensures judged { Judges result (wide_limits limits.now) }
    ensures low { IfOk result (λ r. r.0 ≡ number_of limits.now.low) }
    ensures high { IfOk result (λ r. r.1 ≡ number_of limits.now.high) }
{
    let low = bound_in(limits.low_place, &limits.low)?;
    let high = bound_in(limits.high_place, &limits.high)?;
    Ok((low, high))
}

// The bound, if it has 32 bits.
fn bound_in(place: Place, bound: &Constant) -> Result<i32, TextStop>
    ensures judged { Judges result (too_wide place bound.now) }
    ensures number { IfOk result (λ z. z ≡ number_of bound.now) }
{
    match bound {
        Constant::NotConstant => Ok(0),
        Constant::Integer(z) => match integer_by(z) {
            Some(n) => Ok(n),
            None => Err(refused(Rule::IntWidth, place)),
        },
    }
}

// The integer, if it has 32 bits.
fn integer_by(z: &WholeNumber) -> Option<i32>
    ensures number { IfSome result (λ n. n ≡ z.now) }
    ensures is_one { is_some result ≡ is_int z.now }
{
    match z.to_i64() {
        Some(n) if -2147483648 <= n && n <= 2147483647 => Some(n as i32),
        _ => None,
    }
}
