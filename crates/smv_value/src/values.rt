//! Operators on values.

ghost use Rattle.std.specs.Prelude.{◌≡◌, Bool, IsTrue, false, pos, nat_lt, neg_ℤ, unsigned_abs, Some};
ghost use Rattle.std.specs.Int.{int_max, int_min};
ghost use Rattle.smv_value.specs.declared.value.FaultRule.TheVariants.{DivisorZero, ShiftTooFar};
ghost use Rattle.smv_value.specs.Results.{alike, constant_word, number_of_word, divided, extended, fault_if, inverted, is_too_far, is_true, is_value, is_word, is_zero, joined, logical, logic_truth, moved, of_integer, of_integers, of_number, of_numbers, ordered, resized, same, selected, shifted, size, sum_of, to_boolean, to_word, unless, word, with_sign};

use crate::integers::{integer, is_int, natural};
use crate::whole::{all_ones, number_of_word, whole_of};
use crate::{Arithmetic, Division, FaultRule, Logic, Order, Shift, Value, integers, whole, words};

/// Whether the numbers in it are those of a value. A word has from 1 to 128 bits, and none is set past its width.
pub fn is_value(v: Value) -> bool
    ensures { result ≡ is_value v }
{
    match v {
        Value::Bool(_) => true,
        Value::Int(z) => is_int(z),
        Value::Sym(_) => true,
        Value::Word { width, bits, .. } => is_word(width, bits),
    }
}

fn is_word(width: u32, bits: u128) -> bool
    ensures { result ≡ is_word width bits }
{
    1 <= width && width <= 128 && bits <= all_ones(width)
}

pub fn is_true(v: Value) -> bool
    ensures { result ≡ is_true v }
{
    match v {
        Value::Bool(b) => b,
        Value::Int(_) | Value::Sym(_) | Value::Word { .. } => false,
    }
}

// Whether two word types are one.
fn alike(signed: bool, width: u32, other_signed: bool, other_width: u32) -> bool
    ensures { result ≡ alike signed width other_signed other_width }
{
    signed == other_signed && width == other_width
}

/// Whether two values are the same, as `=` compares them. Words of two types are not; it takes no memory.
pub fn same(a: Value, b: Value) -> bool
    ensures { result ≡ same a b }
{
    match (a, b) {
        (Value::Bool(a), Value::Bool(b)) => a == b,
        (Value::Int(a), Value::Int(b)) => a <= b && b <= a,
        (Value::Sym(a), Value::Sym(b)) => a == b,
        (
            Value::Word {
                signed,
                width,
                bits,
            },
            Value::Word {
                signed: other_signed,
                width: other_width,
                bits: other_bits,
            },
        ) => alike(signed, width, other_signed, other_width) && bits == other_bits,
        _ => false,
    }
}

pub fn inverted(a: Value) -> Option<Value>
    requires { IsTrue (is_value a) }
    ensures { result ≡ inverted a }
{
    match a {
        Value::Bool(a) => Some(Value::Bool(!a)),
        Value::Word {
            signed,
            width,
            bits,
        } => Some(Value::Word {
            signed,
            width,
            bits: all_ones(width) ^ bits,
        }),
        Value::Int(_) | Value::Sym(_) => None,
    }
}

pub fn logical(o: Logic, a: Value, b: Value) -> Option<Value>
    requires left { IsTrue (is_value a) }
    ensures { result ≡ logical o a b }
{
    match (a, b) {
        (Value::Bool(a), Value::Bool(b)) => Some(Value::Bool(logic_truth(o, a, b))),
        (
            Value::Word {
                signed,
                width,
                bits,
            },
            Value::Word {
                signed: other_signed,
                width: other_width,
                bits: other_bits,
            },
        ) => if alike(signed, width, other_signed, other_width) {
            Some(Value::Word {
                signed,
                width,
                bits: words::logic_bits(o, width, bits, other_bits),
            })
        } else {
            None
        },
        _ => None,
    }
}

fn logic_truth(o: Logic, a: bool, b: bool) -> bool
    ensures { result ≡ logic_truth o a b }
{
    match o {
        Logic::And => a && b,
        Logic::Or => a || b,
        Logic::Xor => a != b,
        Logic::Xnor => a == b,
        Logic::Implies => !a || b,
        Logic::Iff => a == b,
    }
}

pub fn ordered(o: Order, a: Value, b: Value) -> Option<Value>
    requires left { IsTrue (is_value a) }
    requires right { IsTrue (is_value b) }
    ensures { result ≡ ordered o a b }
{
    match (a, b) {
        (Value::Int(a), Value::Int(b)) => Some(Value::Bool(integers::stands(o, a, b))),
        (
            Value::Word {
                signed,
                width,
                bits,
            },
            Value::Word {
                signed: other_signed,
                width: other_width,
                bits: other_bits,
            },
        ) => if alike(signed, width, other_signed, other_width) {
            let left = number_of_word(signed, width, bits);
            let right = number_of_word(signed, width, other_bits);
            Some(Value::Bool(whole::stands(o, left, right)))
        } else {
            None
        },
        _ => None,
    }
}

pub fn negated(a: Value) -> Option<Value>
    requires { IsTrue (is_value a) }
    ensures { result ≡ of_number neg_ℤ a }
{
    match a {
        Value::Int(z) => integer(-z),
        Value::Word {
            signed,
            width,
            bits,
        } => Some(Value::Word {
            signed,
            width,
            bits: words::negative_bits(width, bits),
        }),
        Value::Bool(_) | Value::Sym(_) => None,
    }
}

pub fn absolute(a: Value) -> Option<Value>
    requires { IsTrue (is_value a) }
    ensures { result ≡ of_integer (λ z. pos (unsigned_abs z)) a }
{
    match a {
        Value::Int(z) => integer(z.abs()),
        Value::Bool(_) | Value::Sym(_) | Value::Word { .. } => None,
    }
}

// An index of an array.
pub fn subscript(a: Value) -> Option<Value>
    ensures { result ≡ of_integer (λ z. z) a }
{
    match a {
        Value::Int(z) => integer(z),
        Value::Bool(_) | Value::Sym(_) | Value::Word { .. } => None,
    }
}

pub fn greatest(a: Value, b: Value) -> Option<Value>
    ensures { result ≡ of_integers int_max a b }
{
    match (a, b) {
        (Value::Int(a), Value::Int(b)) => integer(a.max(b)),
        _ => None,
    }
}

pub fn least(a: Value, b: Value) -> Option<Value>
    ensures { result ≡ of_integers int_min a b }
{
    match (a, b) {
        (Value::Int(a), Value::Int(b)) => integer(a.min(b)),
        _ => None,
    }
}

// `+ - *`
pub fn summed(o: Arithmetic, a: Value, b: Value) -> Option<Value>
    requires left { IsTrue (is_value a) }
    requires right { IsTrue (is_value b) }
    ensures { result ≡ of_numbers (sum_of o) a b }
{
    match (a, b) {
        (Value::Int(a), Value::Int(b)) => integer(integers::sum_of(o, a, b)),
        (
            Value::Word {
                signed,
                width,
                bits,
            },
            Value::Word {
                signed: other_signed,
                width: other_width,
                bits: other_bits,
            },
        ) => if alike(signed, width, other_signed, other_width) {
            Some(Value::Word {
                signed,
                width,
                bits: words::sum_bits(o, width, bits, other_bits),
            })
        } else {
            None
        },
        _ => None,
    }
}

// Whether a number is 0.
fn is_zero(a: Value) -> bool
    ensures { result ≡ is_zero a }
{
    match a {
        Value::Int(z) => 0 <= z && z <= 0,
        Value::Word { bits, .. } => bits == 0,
        Value::Bool(_) | Value::Sym(_) => false,
    }
}

// `/ mod`
pub fn divided(o: Division, a: Value, b: Value) -> Result<Option<Value>, FaultRule>
    requires left { IsTrue (is_value a) }
    requires right { IsTrue (is_value b) }
    ensures { result ≡ unless (fault_if (is_zero b) DivisorZero) (of_numbers (divided o) a b) }
{
    if is_zero(b) {
        Err(FaultRule::DivisorZero)
    } else {
        Ok(quotient(o, a, b))
    }
}

fn quotient(o: Division, a: Value, b: Value) -> Option<Value>
    requires left { IsTrue (is_value a) }
    requires right { IsTrue (is_value b) }
    requires some { is_zero b ≡ false }
    ensures { result ≡ of_numbers (divided o) a b }
{
    match (a, b) {
        (Value::Int(a), Value::Int(b)) => integer(integers::divided(o, a, b)),
        (
            Value::Word {
                signed,
                width,
                bits,
            },
            Value::Word {
                signed: other_signed,
                width: other_width,
                bits: other_bits,
            },
        ) => if alike(signed, width, other_signed, other_width) {
            Some(Value::Word {
                signed,
                width,
                bits: words::division_bits(o, signed, width, bits, other_bits),
            })
        } else {
            None
        },
        _ => None,
    }
}

// `<< >>`
pub fn shifted(o: Shift, a: Value, b: Value) -> Result<Option<Value>, FaultRule>
    requires left { IsTrue (is_value a) }
    ensures { result ≡ unless (fault_if (is_too_far a b) ShiftTooFar) (shifted o a b) }
{
    match (a, b) {
        (
            Value::Word {
                signed,
                width,
                bits,
            },
            Value::Int(by),
        ) => {
            if by < 0 {
                Err(FaultRule::ShiftTooFar)
            } else {
                moved_by(o, signed, width, bits, by as u128)
            }
        }
        (
            Value::Word {
                signed,
                width,
                bits,
            },
            Value::Word {
                signed: false,
                bits: by,
                ..
            },
        ) => moved_by(o, signed, width, bits, by),
        _ => Ok(None),
    }
}

// A word moved by so many places, of which it has that many.
fn moved_by(
    o: Shift,
    signed: bool,
    width: u32,
    bits: u128,
    by: u128,
) -> Result<Option<Value>, FaultRule>
    requires { IsTrue (is_word width bits) }
    ensures { result ≡ unless (fault_if (nat_lt width by) ShiftTooFar) (Some (word signed width (moved o (number_of_word signed width bits) by))) }
{
    if u128::from(width) < by {
        Err(FaultRule::ShiftTooFar)
    } else {
        Ok(Some(words::moved(o, signed, width, bits, by as u32)))
    }
}

// `a :: b`
pub fn joined(a: Value, b: Value) -> Option<Value>
    requires left { IsTrue (is_value a) }
    requires right { IsTrue (is_value b) }
    ensures { result ≡ joined a b }
{
    match (a, b) {
        (
            Value::Word { width, bits, .. },
            Value::Word {
                width: low_width,
                bits: low_bits,
                ..
            },
        ) => words::joined(width, bits, low_width, low_bits),
        _ => None,
    }
}

// `a[high:low]`
pub fn selected(a: Value, high: Value, low: Value) -> Option<Value>
    requires { IsTrue (is_value a) }
    ensures { result ≡ selected a high low }
{
    match (a, high, low) {
        (Value::Word { width, bits, .. }, Value::Int(high), Value::Int(low)) => {
            words::bits_from(width, bits, high, low)
        }
        _ => None,
    }
}

// `extend`
pub fn extended(a: Value, by: Value) -> Option<Value>
    requires left { IsTrue (is_value a) }
    requires right { IsTrue (is_value by) }
    ensures { result ≡ extended a by }
{
    match (a, by) {
        (
            Value::Word {
                signed,
                width,
                bits,
            },
            Value::Int(by),
        ) => words::word_of(
            signed,
            u64::from(width) + natural(by),
            number_of_word(signed, width, bits),
        ),
        _ => None,
    }
}

// `resize`
pub fn resized(a: Value, to: Value) -> Option<Value>
    requires { IsTrue (is_value a) }
    ensures { result ≡ resized a to }
{
    match (a, to) {
        (
            Value::Word {
                signed,
                width,
                bits,
            },
            Value::Int(to),
        ) => words::word_of(signed, natural(to), number_of_word(signed, width, bits)),
        _ => None,
    }
}

// `uwconst`, and `swconst`
pub fn constant_word(signed: bool, z: Value, width: Value) -> Option<Value>
    ensures { result ≡ constant_word signed z width }
{
    match (z, width) {
        (Value::Int(z), Value::Int(width)) => words::word_of(signed, natural(width), whole_of(z)),
        _ => None,
    }
}

// `signed`, and `unsigned`
pub fn with_sign(signed: bool, a: Value) -> Option<Value>
    ensures { result ≡ with_sign signed a }
{
    match a {
        Value::Word { width, bits, .. } => Some(Value::Word {
            signed,
            width,
            bits,
        }),
        Value::Bool(_) | Value::Int(_) | Value::Sym(_) => None,
    }
}

// `sizeof`
pub fn size(a: Value) -> Option<Value>
    ensures { result ≡ size a }
{
    match a {
        Value::Word { width, .. } => Some(Value::Int(i64::from(width))),
        Value::Bool(_) | Value::Int(_) | Value::Sym(_) => None,
    }
}

// `word1`
pub fn to_word(a: Value) -> Option<Value>
    ensures { result ≡ to_word a }
{
    match a {
        Value::Bool(b) => Some(Value::Word {
            signed: false,
            width: 1,
            bits: if b { 1 } else { 0 },
        }),
        Value::Int(_) | Value::Sym(_) | Value::Word { .. } => None,
    }
}

// `bool`
pub fn to_boolean(a: Value) -> Option<Value>
    ensures { result ≡ to_boolean a }
{
    match a {
        Value::Word { bits, .. } => Some(Value::Bool(bits == 1)),
        Value::Bool(_) | Value::Int(_) | Value::Sym(_) => None,
    }
}
