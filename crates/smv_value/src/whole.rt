//! Integers of up to 128 bits beside a sign, which hold what any word counts.

ghost use Rattle.std.specs.Prelude.{◌≡◌, ◌^◌, ◌<◌, ◌≤◌, ◌*◌, ◌/◌, ◌%◌, ◌-◌, IsTrue, int_lt, int_div, int_rem};
ghost use Rattle.std.specs.Int.{int_shr};
ghost use Rattle.smv_value.specs.Results.{number_of_word, is_width, is_word, low_bits, order_truth};
ghost use Rattle.smv_value.specs.Wholes.{number, IsProper};

use crate::Order;

/// An integer by its sign and its size.
#[derive(Clone, Copy, Debug)]
pub struct Whole {
    pub negative: bool,
    pub size: u128,
}

// The number with the lowest bits set, so many.
pub fn all_ones(width: u32) -> u128
    requires { IsTrue (is_width width) }
    ensures { result ≡ 2 ^ width - 1 }
{
    u128::MAX >> (128 - width)
}

// The lowest bits, so many.
pub fn low(width: u32, n: u128) -> u128
    requires { IsTrue (is_width width) }
    ensures { result ≡ n % 2 ^ width }
{
    n & all_ones(width)
}

// What a word counts.
pub fn number_of_word(signed: bool, width: u32, bits: u128) -> Whole
    requires { IsTrue (is_word width bits) }
    ensures value { number result ≡ number_of_word signed width bits }
    ensures proper { IsProper result }
{
    let all = all_ones(width);
    if signed && all - bits < bits {
        Whole {
            negative: true,
            size: all - bits + 1,
        }
    } else {
        Whole {
            negative: false,
            size: bits,
        }
    }
}

// The low bits of a number.
pub fn low_of(width: u32, z: Whole) -> u128
    requires { IsTrue (is_width width) }
    ensures { result ≡ low_bits width (number z) }
{
    if z.negative {
        low(width, 0u128.wrapping_sub(z.size))
    } else {
        low(width, z.size)
    }
}

// An integer of 64 bits.
pub fn whole_of(z: i64) -> Whole
    ensures { number result ≡ z }
{
    Whole {
        negative: z < 0,
        size: u128::from(z.unsigned_abs()),
    }
}

// Which of two numbers comes first.
fn less(a: Whole, b: Whole) -> bool
    requires left { IsProper a }
    requires right { IsProper b }
    ensures { result ≡ int_lt (number a) (number b) }
{
    if a.negative {
        !b.negative || b.size < a.size
    } else {
        !b.negative && a.size < b.size
    }
}

// How two numbers stand to each other.
pub fn stands(o: Order, a: Whole, b: Whole) -> bool
    requires left { IsProper a }
    requires right { IsProper b }
    ensures { result ≡ order_truth o (number a) (number b) }
{
    match o {
        Order::Less => less(a, b),
        Order::AtMost => !less(b, a),
        Order::Greater => less(b, a),
        Order::AtLeast => !less(a, b),
    }
}

// The quotient, rounded toward zero.
pub fn quotient(a: Whole, b: Whole) -> Whole
    requires left { IsProper a }
    requires right { IsProper b }
    requires some { 0 < b.size }
    ensures { number result ≡ int_div (number a) (number b) }
{
    Whole {
        negative: a.negative != b.negative,
        size: a.size / b.size,
    }
}

// What is left of it.
pub fn remainder(a: Whole, b: Whole) -> Whole
    requires left { IsProper a }
    requires right { IsProper b }
    requires some { 0 < b.size }
    ensures { number result ≡ int_rem (number a) (number b) }
{
    Whole {
        negative: a.negative,
        size: a.size % b.size,
    }
}

// So many bits less, rounded down.
pub fn halved(a: Whole, by: u32) -> Whole
    requires proper { IsProper a }
    requires near { by ≤ 128 }
    ensures { number result ≡ int_shr (number a) by }
{
    if a.negative {
        Whole {
            negative: true,
            size: shifted_right(a.size - 1, by) + 1,
        }
    } else {
        Whole {
            negative: false,
            size: shifted_right(a.size, by),
        }
    }
}

// So many bits less.
pub fn shifted_right(n: u128, by: u32) -> u128
    requires { by ≤ 128 }
    ensures { result ≡ n / 2 ^ by }
{
    if by < 128 { n >> by } else { 0 }
}

// So many bits more, of which 128 stay.
pub fn shifted_left(n: u128, by: u32) -> u128
    requires { by ≤ 128 }
    ensures { result ≡ (n * 2 ^ by) % 2 ^ 128 }
{
    if by < 128 { n << by } else { 0 }
}
