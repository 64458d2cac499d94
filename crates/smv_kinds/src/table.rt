//! The table: the kind of each operator over operands.

ghost use Rattle.std.specs.Prelude.{◌≡◌};
ghost use Rattle.smv_kinds.specs.Kinds.{bounded_by, given, booleans, kind_given, next_kind, window, window_over};

use crate::joining::{boolean_if, fit, given, is_boolean, joined, set_of, takes};
use crate::numbers::{
    absolute, booleans, divided, greatest, inverted, is_ordered, kind_of_count, least, logical,
    negated, operands_of_temporal, summed,
};
use crate::sets::{chosen, indexed, members, ranged, subscript, whole_array};
use crate::words::{
    concatenated, constant_word, extended, resized, selected, shifted, size, to_boolean, to_word,
    with_sign,
};
use crate::{Kind, KindRule, Operand};
use smv_value::Operator;

/// The bounds of a temporal operator are no greater.
const GREATEST_BOUND: u32 = 255;

/// The kind that an operator gives of operands of these kinds. The error is the first rule that the operands break.
/// Linear in the number of operands.
pub fn kind_given(operator: Operator, operands: &[Operand]) -> Result<Kind, KindRule>
    ensures { result ≡ kind_given operator operands.now }
{
    match operator {
        Operator::Not => match operands {
            [a] => given(inverted(a.kind)),
            _ => Err(KindRule::TypeMismatch),
        },
        Operator::Logic(_) => match operands {
            [a, b] => given(logical(a.kind, b.kind)),
            _ => Err(KindRule::TypeMismatch),
        },
        Operator::Equal => match operands {
            [a, b] => given(boolean_if(fit(a.kind, b.kind))),
            _ => Err(KindRule::TypeMismatch),
        },
        Operator::NotEqual => match operands {
            [a, b] => given(boolean_if(fit(a.kind, b.kind))),
            _ => Err(KindRule::TypeMismatch),
        },
        Operator::Order(_) => match operands {
            [a, b] => given(boolean_if(is_ordered(a.kind, b.kind))),
            _ => Err(KindRule::TypeMismatch),
        },
        Operator::Negate => match operands {
            [a] => negated(a.kind),
            _ => Err(KindRule::TypeMismatch),
        },
        Operator::Arithmetic(o) => match operands {
            [a, b] => summed(o, a.kind, b.kind),
            _ => Err(KindRule::TypeMismatch),
        },
        Operator::Division(o) => match operands {
            [a, b] => divided(o, a.kind, b.kind),
            _ => Err(KindRule::TypeMismatch),
        },
        Operator::Absolute => match operands {
            [a] => absolute(a.kind),
            _ => Err(KindRule::TypeMismatch),
        },
        Operator::Maximum => match operands {
            [a, b] => greatest(a.kind, b.kind),
            _ => Err(KindRule::TypeMismatch),
        },
        Operator::Minimum => match operands {
            [a, b] => least(a.kind, b.kind),
            _ => Err(KindRule::TypeMismatch),
        },
        Operator::Count => kind_of_count(operands),
        Operator::Shift(_) => match operands {
            [a, b] => given(shifted(a.kind, b.kind)),
            _ => Err(KindRule::TypeMismatch),
        },
        Operator::Join => match operands {
            [a, b] => concatenated(a.kind, b.kind),
            _ => Err(KindRule::TypeMismatch),
        },
        Operator::Select => match operands {
            [a, high, low] => selected(*a, *high, *low),
            _ => Err(KindRule::TypeMismatch),
        },
        Operator::Index => match operands {
            [a, i] => given(indexed(a.kind, i.kind)),
            _ => Err(KindRule::TypeMismatch),
        },
        Operator::WholeArray => whole_array(operands),
        Operator::Subscript => match operands {
            [i] => given(subscript(i.kind)),
            _ => Err(KindRule::TypeMismatch),
        },
        Operator::Members => given(members(operands)),
        Operator::Union => match operands {
            [a, b] => given(joined(set_of(a.kind), set_of(b.kind))),
            _ => Err(KindRule::TypeMismatch),
        },
        Operator::Range => match operands {
            [a, b] => given(ranged(a.kind, b.kind)),
            _ => Err(KindRule::TypeMismatch),
        },
        Operator::In => match operands {
            [a, b] => given(boolean_if(takes(a.kind, b.kind))),
            _ => Err(KindRule::TypeMismatch),
        },
        Operator::Choice(_) => given(chosen(operands)),
        Operator::ToWord => match operands {
            [a] => given(to_word(a.kind)),
            _ => Err(KindRule::TypeMismatch),
        },
        Operator::ToBoolean => match operands {
            [a] => given(to_boolean(a.kind)),
            _ => Err(KindRule::TypeMismatch),
        },
        Operator::Signed => match operands {
            [a] => given(with_sign(true, a.kind)),
            _ => Err(KindRule::TypeMismatch),
        },
        Operator::Unsigned => match operands {
            [a] => given(with_sign(false, a.kind)),
            _ => Err(KindRule::TypeMismatch),
        },
        Operator::Extend => match operands {
            [a, by] => extended(*a, *by),
            _ => Err(KindRule::TypeMismatch),
        },
        Operator::Resize => match operands {
            [a, to] => resized(*a, *to),
            _ => Err(KindRule::TypeMismatch),
        },
        Operator::Size => match operands {
            [a] => size(a.kind),
            _ => Err(KindRule::TypeMismatch),
        },
        Operator::UnsignedConstant => match operands {
            [z, width] => constant_word(false, *z, *width),
            _ => Err(KindRule::TypeMismatch),
        },
        Operator::SignedConstant => match operands {
            [z, width] => constant_word(true, *z, *width),
            _ => Err(KindRule::TypeMismatch),
        },
        Operator::Temporal(o) => given(booleans(operands_of_temporal(o), operands)),
        Operator::Bounded(_, low, high) => bounded(low, high, operands),
        Operator::Window(_) => match operands {
            [low, high, a] => window_over(a.kind, low.constant, high.constant),
            _ => Err(KindRule::TypeMismatch),
        },
    }
}

// `F [a, b]`, and so on.
fn bounded(low: u32, high: u32, operands: &[Operand]) -> Result<Kind, KindRule>
    ensures { result ≡ bounded_by low high (given (booleans 1 operands.now)) }
{
    let kind = given(booleans(1, operands))?;
    if low <= high && high <= GREATEST_BOUND {
        Ok(kind)
    } else {
        Err(KindRule::BadBound)
    }
}

// The same with bounds that are no constants, or negative, or of more than 32 bits.
fn window(low: Option<i64>, high: Option<i64>) -> Result<Kind, KindRule>
    ensures { result ≡ window low high }
{
    match (low, high) {
        (Some(_), Some(_)) => Err(KindRule::BadBound),
        _ => Err(KindRule::NotConstant),
    }
}

// The same over a formula, whose kind is asked first.
fn window_over(kind: Kind, low: Option<i64>, high: Option<i64>) -> Result<Kind, KindRule>
    ensures { result ≡ window_over kind low high }
{
    if is_boolean(kind) {
        window(low, high)
    } else {
        Err(KindRule::TypeMismatch)
    }
}

/// The kind of `next(e)`, where `e` has this kind. The error is that `e` has no single value.
pub fn next_kind(kind: Kind) -> Result<Kind, KindRule>
    ensures { result ≡ next_kind kind }
{
    match kind {
        Kind::Boolean => Ok(kind),
        Kind::Word { .. } => Ok(kind),
        Kind::Discrete(_) => Ok(kind),
        _ => Err(KindRule::TypeMismatch),
    }
}
