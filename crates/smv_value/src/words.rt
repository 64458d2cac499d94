//! Operators on words.

ghost use Rattle.std.specs.Prelude.{◌≡◌, ◌+◌, ◌-◌, ◌*◌, ◌^◌, ◌<◌, ◌≤◌, Bool, IsTrue, false, neg_ℤ, pos};
ghost use Rattle.smv_value.specs.Results.{bits_from, number_of_word, divided, is_width, is_word, logic_bits, low_bits, moved, sum_of, word, word_of};
ghost use Rattle.smv_value.specs.Wholes.{number};

use crate::whole::{
    Whole, all_ones, halved, low, low_of, number_of_word, quotient, remainder, shifted_left,
    shifted_right,
};
use crate::{Arithmetic, Division, Logic, Shift, Value};

// Bit by bit.
pub fn logic_bits(o: Logic, width: u32, a: u128, b: u128) -> u128
    requires { IsTrue (is_width width) }
    ensures { result ≡ logic_bits (2 ^ width - 1) o a b }
{
    let all = all_ones(width);
    match o {
        Logic::And => a & b,
        Logic::Or => a | b,
        Logic::Xor => a ^ b,
        Logic::Xnor => all ^ (a ^ b),
        Logic::Implies => (all ^ a) | b,
        Logic::Iff => all ^ (a ^ b),
    }
}

// The low bits of a sum, whatever the sign of the words.
pub fn sum_bits(o: Arithmetic, width: u32, a: u128, b: u128) -> u128
    requires left { IsTrue (is_word width a) }
    requires right { IsTrue (is_word width b) }
    ensures { (s : Bool) → result ≡ low_bits width (sum_of o (number_of_word s width a) (number_of_word s width b)) }
{
    match o {
        Arithmetic::Add => low(width, a.wrapping_add(b)),
        Arithmetic::Subtract => low(width, a.wrapping_sub(b)),
        Arithmetic::Multiply => low(width, a.wrapping_mul(b)),
    }
}

// The low bits of what is left of nothing.
pub fn negative_bits(width: u32, a: u128) -> u128
    requires { IsTrue (is_word width a) }
    ensures { (s : Bool) → result ≡ low_bits width (neg_ℤ (number_of_word s width a)) }
{
    low(width, 0u128.wrapping_sub(a))
}

// The low bits of a quotient or a remainder.
pub fn division_bits(o: Division, signed: bool, width: u32, a: u128, b: u128) -> u128
    requires left { IsTrue (is_word width a) }
    requires right { IsTrue (is_word width b) }
    requires some { 0 < b }
    ensures { result ≡ low_bits width (divided o (number_of_word signed width a) (number_of_word signed width b)) }
{
    let (a, b) = (
        number_of_word(signed, width, a),
        number_of_word(signed, width, b),
    );
    match o {
        Division::Quotient => low_of(width, quotient(a, b)),
        Division::Remainder => low_of(width, remainder(a, b)),
    }
}

// A word moved by so many places.
pub fn moved(o: Shift, signed: bool, width: u32, bits: u128, by: u32) -> Value
    requires fits { IsTrue (is_word width bits) }
    requires near { by ≤ 128 }
    ensures { result ≡ word signed width (moved o (number_of_word signed width bits) by) }
{
    match o {
        Shift::Left => Value::Word {
            signed,
            width,
            bits: low(width, shifted_left(bits, by)),
        },
        Shift::Right => Value::Word {
            signed,
            width,
            bits: low_of(width, halved(number_of_word(signed, width, bits), by)),
        },
    }
}

// The word of a number, if there is one of this width.
pub fn word_of(signed: bool, width: u64, z: Whole) -> Option<Value>
    ensures { result ≡ word_of signed width (number z) }
{
    if 1 <= width && width <= 128 {
        let width = width as u32;
        Some(Value::Word {
            signed,
            width,
            bits: low_of(width, z),
        })
    } else {
        None
    }
}

// Two words as one, the first in the high bits.
pub fn joined(width: u32, a: u128, low_width: u32, b: u128) -> Option<Value>
    requires left { IsTrue (is_word width a) }
    requires right { IsTrue (is_word low_width b) }
    ensures { result ≡ word_of false (width + low_width) (pos (a * 2 ^ low_width + b)) }
{
    if width + low_width <= 128 {
        Some(Value::Word {
            signed: false,
            width: width + low_width,
            bits: (a << low_width) + b,
        })
    } else {
        None
    }
}

// Bits `high` to `low`, both among them.
pub fn bits_from(width: u32, bits: u128, high: i64, low_bit: i64) -> Option<Value>
    requires { IsTrue (is_word width bits) }
    ensures { result ≡ bits_from width bits high low_bit }
{
    if 0 <= low_bit && low_bit <= high && high < i64::from(width) {
        let chosen = (high as u32 - low_bit as u32) + 1;
        Some(Value::Word {
            signed: false,
            width: chosen,
            bits: low(chosen, shifted_right(bits, low_bit as u32)),
        })
    } else {
        None
    }
}
