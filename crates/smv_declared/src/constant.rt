//! Constants of types, and what operators give of them.

ghost use Rattle.std.specs.Prelude.{◌≡◌, ◌≢◌, pos, IfOk};
ghost use Rattle.std.specs.Option.{option_copied};
ghost use Rattle.smv_value.specs.Results.{divided, sum_of};
ghost use Rattle.smv_declared.specs.declared.constant.Constant.TheVariants.{Integer};
ghost use Rattle.smv_declared.specs.Constants.{constant_of_value, integer_of, operated, operated_by_one, operated_by_two, quotient, summed};

use smv_value::{Arithmetic, Division, Operator, Value};
use std::alloc::{AllocError, Global};
use whole_numbers::WholeNumber;

/// What is known of an expression before any state is.
#[derive(Debug, Drop)]
pub enum Constant {
    /// It is no constant.
    NotConstant,
    Integer(WholeNumber),
}

impl Constant {
    /// The integer, if it is one.
    pub fn integer(&self) -> Option<&WholeNumber>
        ensures { option_copied result ≡ integer_of self.now }
    {
        match self {
            Constant::NotConstant => None,
            Constant::Integer(z) => Some(z),
        }
    }

    // The same constant again.
    pub(crate) fn copy(&self, alloc: Global) -> Result<Constant, AllocError>
        ensures { IfOk result (λ c. c ≡ self.now) }
    {
        match self {
            Constant::NotConstant => Ok(Constant::NotConstant),
            Constant::Integer(z) => Ok(Constant::Integer(z.copy(alloc)?)),
        }
    }
}

pub(crate) fn constant_of_value(value: Value) -> Constant
    ensures { result ≡ constant_of_value value }
{
    match value {
        Value::Int(z) => Constant::Integer(WholeNumber::new(z)),
        Value::Bool(_) | Value::Sym(_) | Value::Word { .. } => Constant::NotConstant,
    }
}

// What an operator gives of constants.
pub(crate) fn operated(
    alloc: Global,
    operator: Operator,
    operands: &[Constant],
) -> Result<Constant, AllocError>
    ensures { IfOk result (λ c. c ≡ operated operator operands.now) }
{
    match operands {
        [a] => operated_by_one(alloc, operator, a),
        [a, b] => operated_by_two(alloc, operator, a, b),
        _ => Ok(Constant::NotConstant),
    }
}

fn operated_by_one(alloc: Global, operator: Operator, a: &Constant) -> Result<Constant, AllocError>
    ensures { IfOk result (λ c. c ≡ operated_by_one operator a.now) }
{
    match (operator, a) {
        (Operator::Negate, Constant::Integer(a)) => Ok(Constant::Integer(a.negated(alloc)?)),
        _ => Ok(Constant::NotConstant),
    }
}

pub(crate) fn operated_by_two(
    alloc: Global,
    operator: Operator,
    a: &Constant,
    b: &Constant,
) -> Result<Constant, AllocError>
    ensures { IfOk result (λ c. c ≡ operated_by_two operator a.now b.now) }
{
    let (Constant::Integer(a), Constant::Integer(b)) = (a, b) else {
        return Ok(Constant::NotConstant);
    };
    match operator {
        Operator::Arithmetic(o) => Ok(Constant::Integer(sum_of(alloc, o, a, b)?)),
        Operator::Division(o) => quotient(alloc, o, a, b),
        _ => Ok(Constant::NotConstant),
    }
}

fn sum_of(
    alloc: Global,
    o: Arithmetic,
    a: &WholeNumber,
    b: &WholeNumber,
) -> Result<WholeNumber, AllocError>
    ensures { IfOk result (λ z. z ≡ sum_of o a.now b.now) }
{
    match o {
        Arithmetic::Add => a.plus(alloc, b),
        Arithmetic::Subtract => a.minus(alloc, b),
        Arithmetic::Multiply => a.times(alloc, b),
    }
}

fn quotient(
    alloc: Global,
    o: Division,
    a: &WholeNumber,
    b: &WholeNumber,
) -> Result<Constant, AllocError>
    ensures { IfOk result (λ c. c ≡ quotient o (Integer a.now) (Integer b.now)) }
{
    if b.is_zero() {
        Ok(Constant::NotConstant)
    } else {
        Ok(Constant::Integer(divided(alloc, o, a, b)?))
    }
}

fn divided(
    alloc: Global,
    o: Division,
    a: &WholeNumber,
    b: &WholeNumber,
) -> Result<WholeNumber, AllocError>
    requires { b.now ≢ pos 0 }
    ensures { IfOk result (λ z. z ≡ divided o a.now b.now) }
{
    match o {
        Division::Quotient => a.quotient(alloc, b),
        Division::Remainder => a.remainder(alloc, b),
    }
}
