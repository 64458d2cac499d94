//! Intervals of integers, reckoned in 64 bits.

ghost use Rattle.std.specs.Prelude.{◌≡◌};
ghost use Rattle.std.specs.Int.{int_max, int_min};
ghost use Rattle.smv_value.specs.Results.{is_int, sum_of};
ghost use Rattle.smv_kinds.specs.Intervals.{absolute_interval, around, corners, division_interval, extent, hull, hull_of, opposite_interval, spanned, sum_interval};
ghost use Rattle.smv_kinds.specs.Kinds.{integers, integers_in};
ghost use Rattle.smv_kinds.specs.Spans.{as_interval};

use crate::{Discrete, Interval, Kind, KindRule};
use smv_value::{Arithmetic, Division};

/// The integers from `low` to `high`, which may pass 32 bits.
#[derive(Clone, Copy)]
pub struct Span {
    pub low: i64,
    pub high: i64,
}

// The kind of these integers.
pub fn integers(interval: Interval) -> Kind
    ensures { result ≡ integers interval }
{
    Kind::Discrete(Discrete {
        integers: Some(interval),
        symbols: false,
    })
}

// The same, if they have 32 bits.
pub fn integers_in(span: Span) -> Result<Kind, KindRule>
    ensures { result ≡ integers_in (as_interval span) }
{
    if is_int(span.low) && is_int(span.high) {
        Ok(integers(Interval {
            low: span.low as i32,
            high: span.high as i32,
        }))
    } else {
        Err(KindRule::IntWidth)
    }
}

pub fn is_int(z: i64) -> bool
    ensures { result ≡ is_int z }
{
    -2147483648 <= z && z <= 2147483647
}

// The least interval that has both.
pub fn hull(a: Interval, b: Interval) -> Interval
    ensures { result ≡ hull a b }
{
    Interval {
        low: a.low.min(b.low),
        high: a.high.max(b.high),
    }
}

// Both, where there are two.
pub fn hull_of(a: Option<Interval>, b: Option<Interval>) -> Option<Interval>
    ensures { result ≡ hull_of a b }
{
    match (a, b) {
        (None, _) => b,
        (Some(_), None) => a,
        (Some(i), Some(j)) => Some(hull(i, j)),
    }
}

// The least interval that has these four.
#[tactic(auto, unfolding(crate::specs::Intervals::spanned))]
fn spanned(a: i64, b: i64, c: i64, d: i64) -> Span
    ensures { as_interval result ≡ spanned a b c d }
{
    Span {
        low: lesser(lesser(a, b), lesser(c, d)),
        high: greater(greater(a, b), greater(c, d)),
    }
}

fn lesser(a: i64, b: i64) -> i64
    ensures { result ≡ int_min a b }
{
    a.min(b)
}

fn greater(a: i64, b: i64) -> i64
    ensures { result ≡ int_max a b }
{
    a.max(b)
}

// The greatest absolute value.
fn extent(interval: Interval) -> u32
    ensures { result ≡ extent interval }
{
    interval
        .low
        .unsigned_abs()
        .max(interval.high.unsigned_abs())
}

// `+ - *`
pub fn sum_span(o: Arithmetic, a: Interval, b: Interval) -> Span
    ensures { as_interval result ≡ sum_interval o a b }
{
    spanned(
        sum_of(o, a.low, b.low),
        sum_of(o, a.low, b.high),
        sum_of(o, a.high, b.low),
        sum_of(o, a.high, b.high),
    )
}

fn sum_of(o: Arithmetic, a: i32, b: i32) -> i64
    ensures { result ≡ sum_of o a b }
{
    let (a, b) = (i64::from(a), i64::from(b));
    match o {
        Arithmetic::Add => a + b,
        Arithmetic::Subtract => a - b,
        Arithmetic::Multiply => a * b,
    }
}

// `max`
pub fn greatest_span(a: Interval, b: Interval) -> Span
    ensures { as_interval result ≡ corners int_max a b }
{
    spanned(
        greatest(a.low, b.low),
        greatest(a.low, b.high),
        greatest(a.high, b.low),
        greatest(a.high, b.high),
    )
}

fn greatest(a: i32, b: i32) -> i64
    ensures { result ≡ int_max a b }
{
    i64::from(a.max(b))
}

// `min`
pub fn least_span(a: Interval, b: Interval) -> Span
    ensures { as_interval result ≡ corners int_min a b }
{
    spanned(
        least(a.low, b.low),
        least(a.low, b.high),
        least(a.high, b.low),
        least(a.high, b.high),
    )
}

fn least(a: i32, b: i32) -> i64
    ensures { result ≡ int_min a b }
{
    i64::from(a.min(b))
}

// `/ mod`
pub fn division_span(o: Division, a: Interval, b: Interval) -> Span
    ensures { as_interval result ≡ division_interval o a b }
{
    match o {
        Division::Quotient => around(extent(a)),
        Division::Remainder => around(extent(b).saturating_sub(1)),
    }
}

// Up to so much, in both directions.
fn around(most: u32) -> Span
    ensures { as_interval result ≡ around most }
{
    Span {
        low: -i64::from(most),
        high: i64::from(most),
    }
}

// The unary `-`.
pub fn opposite_span(a: Interval) -> Span
    ensures { as_interval result ≡ opposite_interval a }
{
    Span {
        low: -i64::from(a.high),
        high: -i64::from(a.low),
    }
}

// `abs`
pub fn absolute_span(a: Interval) -> Span
    ensures { as_interval result ≡ absolute_interval a }
{
    Span {
        low: 0,
        high: i64::from(extent(a)),
    }
}
