//! Operators on lists of operands.

ghost use Rattle.std.specs.Prelude.{◌≡◌, ◌≢◌, ◌∷◌, [], IsTrue, count_by, pos};
ghost use Rattle.std.specs.List.{list_all};
ghost use Rattle.smv_value.specs.declared.operator.Operator.TheVariants.{Count};
ghost use Rattle.smv_value.specs.Results.{fault_of, integer, is_true, is_value, result_of, unless, value_of};

use crate::values::{
    absolute, constant_word, divided, extended, greatest, inverted, is_true, is_value, joined,
    least, logical, negated, ordered, resized, same, selected, shifted, size, subscript, summed,
    to_boolean, to_word, with_sign,
};
use crate::{FaultRule, Operator, Value, integers};

/// What an operator gives of one value of each operand: a value, or nothing where their kinds do not fit or it gives
/// sets. The error is a fault.
pub fn apply(operator: Operator, operands: &[Value]) -> Result<Option<Value>, FaultRule>
    ensures { result ≡ result_of operator operands.now }
{
    if !all_values(operands) {
        return Ok(None);
    }
    match operator {
        Operator::Count => Ok(number_of_true(operands)),
        _ => match operands {
            [a] => Ok(of_one(operator, *a)),
            [a, b] => of_two(operator, *a, *b),
            [a, b, c] => Ok(of_three(operator, *a, *b, *c)),
            _ => Ok(None),
        },
    }
}

fn of_one(operator: Operator, a: Value) -> Option<Value>
    requires value { IsTrue (is_value a) }
    requires not_count { operator ≢ Count }
    ensures { result ≡ value_of operator (a ∷ []) }
{
    match operator {
        Operator::Not => inverted(a),
        Operator::Negate => negated(a),
        Operator::Absolute => absolute(a),
        Operator::Subscript => subscript(a),
        Operator::ToWord => to_word(a),
        Operator::ToBoolean => to_boolean(a),
        Operator::Signed => with_sign(true, a),
        Operator::Unsigned => with_sign(false, a),
        Operator::Size => size(a),
        _ => None,
    }
}

fn of_two(operator: Operator, a: Value, b: Value) -> Result<Option<Value>, FaultRule>
    requires left { IsTrue (is_value a) }
    requires right { IsTrue (is_value b) }
    requires not_count { operator ≢ Count }
    ensures { result ≡ unless (fault_of operator (a ∷ b ∷ [])) (value_of operator (a ∷ b ∷ [])) }
{
    match operator {
        Operator::Division(o) => divided(o, a, b),
        Operator::Shift(o) => shifted(o, a, b),
        Operator::Logic(o) => Ok(logical(o, a, b)),
        Operator::Equal => Ok(Some(Value::Bool(same(a, b)))),
        Operator::NotEqual => Ok(Some(Value::Bool(!same(a, b)))),
        Operator::Order(o) => Ok(ordered(o, a, b)),
        Operator::Arithmetic(o) => Ok(summed(o, a, b)),
        Operator::Maximum => Ok(greatest(a, b)),
        Operator::Minimum => Ok(least(a, b)),
        Operator::Join => Ok(joined(a, b)),
        Operator::Extend => Ok(extended(a, b)),
        Operator::Resize => Ok(resized(a, b)),
        Operator::UnsignedConstant => Ok(constant_word(false, a, b)),
        Operator::SignedConstant => Ok(constant_word(true, a, b)),
        _ => Ok(None),
    }
}

fn of_three(operator: Operator, a: Value, b: Value, c: Value) -> Option<Value>
    requires value { IsTrue (is_value a) }
    requires not_count { operator ≢ Count }
    ensures { result ≡ value_of operator (a ∷ b ∷ c ∷ []) }
{
    match operator {
        Operator::Select => selected(a, b, c),
        _ => None,
    }
}

fn all_values(operands: &[Value]) -> bool
    ensures { result ≡ list_all is_value operands.now }
{
    operands.iter().all(|v| is_value(*v))
}

// `count`
fn number_of_true(operands: &[Value]) -> Option<Value>
    ensures { result ≡ integer (pos (count_by is_true operands.now)) }
{
    let count = operands.iter().filter(|v| is_true(**v)).count();
    if count <= 2147483647 {
        integers::integer(count as i64)
    } else {
        None
    }
}
