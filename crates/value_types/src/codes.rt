//! Codes of values: the position in a range or an enumeration, the bits of a word.

ghost use Rattle.std.specs.Prelude.{◌≡◌, ◌+ℤ◌, ◌-ℤ◌, pos, position, slice_get};
ghost use Rattle.std.specs.Option.{option_map};
ghost use Rattle.smv_value.specs.Results.{natural};
ghost use Rattle.value_types.specs.Types.{element_value, is_element};
ghost use Rattle.value_types.specs.Codes.{boolean_code, code_of, discrete_count, range_code, range_value, value_at, word_code, word_value};

use crate::value_type::{is_element, is_word_of};
use crate::{Element, ValueType};
use smv_value::{Value, is_value};

impl ValueType {
    /// How many values a range or an enumeration has; `None` for booleans and words.
    pub fn discrete_count(&self) -> Option<u64>
        ensures { result ≡ discrete_count self.now }
    {
        match self {
            ValueType::Boolean | ValueType::Word { .. } => None,
            ValueType::Range { low, high } => Some(range_count(*low, *high)),
            ValueType::Enumeration(elements) => Some(elements.len() as u64),
        }
    }

    /// The code of a value of the type, and `None` for any other. In an enumeration of n elements it takes n steps.
    pub fn code_of(&self, v: Value) -> Option<u128>
        ensures { result ≡ code_of self.now v }
    {
        match self {
            ValueType::Boolean => boolean_code(v),
            ValueType::Word { signed, width } => word_code(*signed, *width, v),
            ValueType::Range { low, high } => range_code(*low, *high, v),
            ValueType::Enumeration(elements) => enumeration_code(elements.as_slice(), v),
        }
    }

    /// The value of this code, if it is one.
    pub fn value_at(&self, code: u128) -> Option<Value>
        ensures { result ≡ value_at self.now code }
    {
        match self {
            ValueType::Boolean => if code < 2 {
                Some(Value::Bool(code == 1))
            } else {
                None
            },
            ValueType::Word { signed, width } => word_value(*signed, *width, code),
            ValueType::Range { low, high } => range_value(*low, *high, code),
            ValueType::Enumeration(elements) => enumeration_value(elements.as_slice(), code),
        }
    }
}

fn range_count(low: i32, high: i32) -> u64
    ensures { result ≡ natural (high -ℤ low +ℤ pos 1) }
{
    if low <= high {
        (i64::from(high) - i64::from(low) + 1) as u64
    } else {
        0
    }
}

fn boolean_code(v: Value) -> Option<u128>
    ensures { result ≡ boolean_code v }
{
    match v {
        Value::Bool(b) => Some(if b { 1 } else { 0 }),
        Value::Int(_) | Value::Sym(_) | Value::Word { .. } => None,
    }
}

fn word_code(signed: bool, width: u32, v: Value) -> Option<u128>
    ensures { result ≡ word_code signed width v }
{
    match v {
        Value::Word { bits, .. } => if is_word_of(signed, width, v) {
            Some(bits)
        } else {
            None
        },
        Value::Bool(_) | Value::Int(_) | Value::Sym(_) => None,
    }
}

fn range_code(low: i32, high: i32, v: Value) -> Option<u128>
    ensures { result ≡ range_code low high v }
{
    match v {
        Value::Int(z) => if i64::from(low) <= z && z <= i64::from(high) {
            Some((z - i64::from(low)) as u128)
        } else {
            None
        },
        Value::Bool(_) | Value::Sym(_) | Value::Word { .. } => None,
    }
}

fn enumeration_code(elements: &[Element], v: Value) -> Option<u128>
    ensures { result ≡ position (is_element v) elements.now }
{
    match place(elements, v) {
        Some(k) => Some(k as u128),
        None => None,
    }
}

// The place of the first element that the value is.
fn place(elements: &[Element], v: Value) -> Option<usize>
    ensures { result ≡ position (is_element v) elements.now }
{
    elements.iter().position(|e| is_element(v, *e))
}

fn word_value(signed: bool, width: u32, code: u128) -> Option<Value>
    ensures { result ≡ word_value signed width code }
{
    let v = Value::Word {
        signed,
        width,
        bits: code,
    };
    if is_value(v) { Some(v) } else { None }
}

fn range_value(low: i32, high: i32, code: u128) -> Option<Value>
    ensures { result ≡ range_value low high code }
{
    if code < u128::from(range_count(low, high)) {
        Some(Value::Int(i64::from(low) + code as i64))
    } else {
        None
    }
}

fn enumeration_value(elements: &[Element], code: u128) -> Option<Value>
    ensures { result ≡ option_map element_value (slice_get elements.now code) }
{
    if code < elements.len() as u128 {
        Some(elements[code as usize].value())
    } else {
        None
    }
}
