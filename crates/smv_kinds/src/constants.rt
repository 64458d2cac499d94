//! Constants: integers that are known before any state is.

ghost use Rattle.std.specs.Prelude.{◌≡◌, Some};
ghost use Rattle.smv_kinds.specs.Constants.{are_integers, constant_given, constant_of, constant_of_one, constant_of_two, integer_in, is_constant};

use crate::Operand;
use smv_value::{Operator, Value, apply};

/// The constant that an operator gives of these constants: of integers, by `-`, `+`, `*`, `/` and `mod`, and of one as
/// an index. There is none where it faults or passes 32 bits.
pub fn constant_of(operator: Operator, operands: &[Value]) -> Option<Value>
    ensures { result ≡ constant_of operator operands.now }
{
    if !is_constant(operator) || !are_integers(operands) {
        return None;
    }
    match apply(operator, operands) {
        Ok(value) => value,
        Err(_) => None,
    }
}

/// The same of what operands are told as.
pub fn constant_given(operator: Operator, operands: &[Operand]) -> Option<i64>
    ensures { result ≡ constant_given operator operands.now }
{
    match operands {
        [a] => constant_of_one(operator, a.constant),
        [a, b] => constant_of_two(operator, a.constant, b.constant),
        _ => None,
    }
}

fn constant_of_one(operator: Operator, a: Option<i64>) -> Option<i64>
    ensures { result ≡ constant_of_one operator a }
{
    match a {
        None => None,
        Some(a) => integer_in(constant_of(operator, &[Value::Int(a)])),
    }
}

fn constant_of_two(operator: Operator, a: Option<i64>, b: Option<i64>) -> Option<i64>
    ensures { result ≡ constant_of_two operator a b }
{
    match (a, b) {
        (Some(a), Some(b)) => integer_in(constant_of(operator, &[Value::Int(a), Value::Int(b)])),
        _ => None,
    }
}

fn integer_in(value: Option<Value>) -> Option<i64>
    ensures { result ≡ integer_in value }
{
    match value {
        Some(Value::Int(z)) => Some(z),
        _ => None,
    }
}

// The operators of constants.
fn is_constant(operator: Operator) -> bool
    ensures { result ≡ is_constant operator }
{
    match operator {
        Operator::Negate => true,
        Operator::Arithmetic(_) => true,
        Operator::Division(_) => true,
        Operator::Subscript => true,
        _ => false,
    }
}

// Whether they are one integer, or two.
fn are_integers(operands: &[Value]) -> bool
    ensures { result ≡ are_integers operands.now }
{
    match operands {
        [Value::Int(_)] => true,
        [Value::Int(_), Value::Int(_)] => true,
        _ => false,
    }
}
