//! The bits of a value, and the value of bits.

ghost use Rattle.std.specs.Prelude.{◌≡◌, ◌≤◌, Bool, IfOk, length};
ghost use Rattle.bit_arith.specs.Number.{number};
ghost use Rattle.bit_values.specs.Bits.{bits_of, encoded, least_bits, value_of_bits, width_of};

use smv_value::Value;
use std::alloc::{AllocError, Global};
use value_types::ValueType;

/// How many bits a value of the type has: a boolean 1, a word its width, any other the least number that counts the
/// type's values.
pub fn width(declared: &ValueType) -> usize
    ensures { result ≡ width_of declared.now }
{
    match declared {
        ValueType::Boolean => 1,
        ValueType::Word { width, .. } => *width as usize,
        ValueType::Range { .. } | ValueType::Enumeration(_) => match declared.discrete_count() {
            Some(count) => least_bits(count),
            None => 0,
        },
    }
}

/// The least number of bits that count so many codes.
pub fn least_bits(count: u64) -> usize
    ensures { result ≡ least_bits count }
{
    if count <= 1 {
        0
    } else {
        1 + least_bits(count / 2 + count % 2)
    }
}

/// The bits of a value of the type. The only error is running out of memory.
pub fn to_bits(alloc: Global, declared: &ValueType, value: Value) -> Result<Vec<bool>, AllocError>
    ensures { IfOk result (λ bits. bits.items ≡ encoded declared.now value) }
{
    let code = declared.code_of(value).unwrap_or(0);
    bits_of(alloc, width(declared), code)
}

/// The low bits of a number, so many, the lowest first. The only error is running out of memory.
pub fn bits_of(alloc: Global, width: usize, number: u128) -> Result<Vec<bool>, AllocError>
    ensures { IfOk result (λ bits. bits.items ≡ bits_of width number) }
{
    let mut bits = Vec::new(alloc);
    let mut rest = number;
    'bits: for _ in 0..width {
        bits.push(rest % 2 == 1)?;
        rest /= 2;
    }
    Ok(bits)
}

/// The value of the type that has these bits.
///
/// Where they are the bits of no value it is FALSE.
pub fn from_bits(declared: &ValueType, bits: &[bool]) -> Value
    requires { length bits.now ≤ 128 }
    ensures { result ≡ value_of_bits declared.now bits.now }
{
    match declared.value_at(number(bits)) {
        Some(v) => v,
        None => Value::Bool(false),
    }
}

fn number(bits: &[bool]) -> u128
    requires { length bits.now ≤ 128 }
    ensures { result ≡ number (λ b. b) bits.now }
{
    let mut value = 0;
    'bits: for i in (0..bits.len()).rev() {
        value = 2 * value + if bits[i] { 1 } else { 0 };
    }
    value
}
