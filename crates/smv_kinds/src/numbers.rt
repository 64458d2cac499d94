//! Operators on booleans and numbers.

ghost use Rattle.std.specs.Prelude.{◌≡◌};
ghost use Rattle.std.specs.Int.{int_max, int_min};
ghost use Rattle.smv_kinds.specs.Intervals.{absolute_interval, corners, division_interval, opposite_interval, sum_interval};
ghost use Rattle.std.specs.List.{list_all};
ghost use Rattle.smv_kinds.specs.declared.kind.Operand.{Operand};
ghost use Rattle.smv_kinds.specs.Kinds.{booleans, inverted, is_boolean, is_ordered, kind_of_count, logical, of_integer, of_integers, of_number, of_numbers, operands_of_temporal};

use crate::intervals::{
    Span, absolute_span, division_span, greatest_span, integers_in, least_span, opposite_span,
    sum_span,
};
use crate::joining::{alike, boolean_if, given, integers_of, is_boolean, is_integer, kind_if};
use crate::{Kind, KindRule, Operand};
use smv_value::{Arithmetic, Division, Temporal};

// `!`
pub fn inverted(a: Kind) -> Kind
    ensures { result ≡ inverted a }
{
    match a {
        Kind::Boolean => a,
        Kind::Word { .. } => a,
        _ => Kind::Nothing,
    }
}

// `& | xor xnor -> <->`
pub fn logical(a: Kind, b: Kind) -> Kind
    ensures { result ≡ logical a b }
{
    match (a, b) {
        (Kind::Boolean, Kind::Boolean) => Kind::Boolean,
        (
            Kind::Word { signed, width },
            Kind::Word {
                signed: other_signed,
                width: other_width,
            },
        ) => kind_if(alike(signed, width, other_signed, other_width), a),
        _ => Kind::Nothing,
    }
}

// Whether one may be less than the other.
pub fn is_ordered(a: Kind, b: Kind) -> bool
    ensures { result ≡ is_ordered a b }
{
    match (a, b) {
        (
            Kind::Word { signed, width },
            Kind::Word {
                signed: other_signed,
                width: other_width,
            },
        ) => alike(signed, width, other_signed, other_width),
        _ => is_integer(a) && is_integer(b),
    }
}

// The unary `-`.
pub fn negated(a: Kind) -> Result<Kind, KindRule>
    ensures { result ≡ of_number opposite_interval a }
{
    match a {
        Kind::Word { .. } => Ok(a),
        _ => match integers_of(a) {
            Some(i) => integers_in(opposite_span(i)),
            None => Err(KindRule::TypeMismatch),
        },
    }
}

// `abs`
pub fn absolute(a: Kind) -> Result<Kind, KindRule>
    ensures { result ≡ of_integer absolute_interval a }
{
    match integers_of(a) {
        Some(i) => integers_in(absolute_span(i)),
        None => Err(KindRule::TypeMismatch),
    }
}

// `+ - *`
pub fn summed(o: Arithmetic, a: Kind, b: Kind) -> Result<Kind, KindRule>
    ensures { result ≡ of_numbers (sum_interval o) a b }
{
    match (a, b) {
        (
            Kind::Word { signed, width },
            Kind::Word {
                signed: other_signed,
                width: other_width,
            },
        ) => given(kind_if(alike(signed, width, other_signed, other_width), a)),
        _ => sum_of_integers(o, a, b),
    }
}

fn sum_of_integers(o: Arithmetic, a: Kind, b: Kind) -> Result<Kind, KindRule>
    ensures { result ≡ of_integers (sum_interval o) a b }
{
    match (integers_of(a), integers_of(b)) {
        (Some(i), Some(j)) => integers_in(sum_span(o, i, j)),
        _ => Err(KindRule::TypeMismatch),
    }
}

// `/ mod`
pub fn divided(o: Division, a: Kind, b: Kind) -> Result<Kind, KindRule>
    ensures { result ≡ of_numbers (division_interval o) a b }
{
    match (a, b) {
        (
            Kind::Word { signed, width },
            Kind::Word {
                signed: other_signed,
                width: other_width,
            },
        ) => given(kind_if(alike(signed, width, other_signed, other_width), a)),
        _ => quotient_of_integers(o, a, b),
    }
}

fn quotient_of_integers(o: Division, a: Kind, b: Kind) -> Result<Kind, KindRule>
    ensures { result ≡ of_integers (division_interval o) a b }
{
    match (integers_of(a), integers_of(b)) {
        (Some(i), Some(j)) => integers_in(division_span(o, i, j)),
        _ => Err(KindRule::TypeMismatch),
    }
}

// `max`
pub fn greatest(a: Kind, b: Kind) -> Result<Kind, KindRule>
    ensures { result ≡ of_integers (corners int_max) a b }
{
    match (integers_of(a), integers_of(b)) {
        (Some(i), Some(j)) => integers_in(greatest_span(i, j)),
        _ => Err(KindRule::TypeMismatch),
    }
}

// `min`
pub fn least(a: Kind, b: Kind) -> Result<Kind, KindRule>
    ensures { result ≡ of_integers (corners int_min) a b }
{
    match (integers_of(a), integers_of(b)) {
        (Some(i), Some(j)) => integers_in(least_span(i, j)),
        _ => Err(KindRule::TypeMismatch),
    }
}

// `count`
pub fn kind_of_count(operands: &[Operand]) -> Result<Kind, KindRule>
    ensures { result ≡ kind_of_count operands.now }
{
    if !all_booleans(operands) {
        return Err(KindRule::TypeMismatch);
    }
    if operands.len() > 2147483647 {
        return Err(KindRule::IntWidth);
    }
    integers_in(Span {
        low: 0,
        high: operands.len() as i64,
    })
}

// So many booleans give one.
pub fn booleans(count: usize, operands: &[Operand]) -> Kind
    ensures { result ≡ booleans count operands.now }
{
    boolean_if(operands.len() == count && all_booleans(operands))
}

fn all_booleans(operands: &[Operand]) -> bool
    ensures { result ≡ list_all (λ (x : Operand). is_boolean x.kind) operands.now }
{
    operands.iter().copied().all(has_boolean)
}

fn has_boolean(operand: Operand) -> bool
    ensures { result ≡ is_boolean operand.kind }
{
    is_boolean(operand.kind)
}

pub fn operands_of_temporal(operator: Temporal) -> usize
    ensures { result ≡ operands_of_temporal operator }
{
    match operator {
        Temporal::Until | Temporal::Releases | Temporal::Since | Temporal::Triggered => 2,
        _ => 1,
    }
}
