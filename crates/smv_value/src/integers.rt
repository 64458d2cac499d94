//! Operators on integers.

ghost use Rattle.std.specs.Prelude.{◌≡◌, ◌≢◌, IsTrue, pos};
ghost use Rattle.smv_value.specs.Results.{divided, integer, is_int, natural, order_truth, sum_of};

use crate::{Arithmetic, Division, Order, Value};

// The integer, if it is a value.
pub fn integer(z: i64) -> Option<Value>
    ensures { result ≡ integer z }
{
    if is_int(z) { Some(Value::Int(z)) } else { None }
}

pub fn is_int(z: i64) -> bool
    ensures { result ≡ is_int z }
{
    -2147483648 <= z && z <= 2147483647
}

pub fn sum_of(o: Arithmetic, a: i64, b: i64) -> i64
    requires left { IsTrue (is_int a) }
    requires right { IsTrue (is_int b) }
    ensures { result ≡ sum_of o a b }
{
    match o {
        Arithmetic::Add => a + b,
        Arithmetic::Subtract => a - b,
        Arithmetic::Multiply => a * b,
    }
}

pub fn divided(o: Division, a: i64, b: i64) -> i64
    requires left { IsTrue (is_int a) }
    requires right { IsTrue (is_int b) }
    requires some { b ≢ pos 0 }
    ensures { result ≡ divided o a b }
{
    match o {
        Division::Quotient => a / b,
        Division::Remainder => a % b,
    }
}

pub fn stands(o: Order, a: i64, b: i64) -> bool
    ensures { result ≡ order_truth o a b }
{
    match o {
        Order::Less => a < b,
        Order::AtMost => a <= b,
        Order::Greater => b < a,
        Order::AtLeast => b <= a,
    }
}

// The number, or 0 where it is negative.
pub fn natural(z: i64) -> u64
    ensures { result ≡ natural z }
{
    if z < 0 { 0 } else { z as u64 }
}
