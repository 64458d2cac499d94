//! Types, and the values in them.

ghost use Rattle.std.specs.Prelude.{◌≡◌, IfOk};
ghost use Rattle.std.specs.List.{list_any};
ghost use Rattle.value_types.specs.Types.{element_value, is_between, is_boolean, is_element, is_of_type, is_word_of};

use smv_value::{Value, is_value, same};
use sqlite_items::Items;
use std::alloc::{AllocError, Global};

/// An element of an enumeration.
#[derive(Clone, Copy, Debug, Drop, PartialEq, Eq)]
pub enum Element {
    Int(i32),
    /// The symbol of this number.
    Sym(u32),
}

/// The type of a variable that has a value (manual 2.1).
#[derive(Debug, Drop)]
pub enum ValueType {
    Boolean,
    Word { signed: bool, width: u32 },
    /// The integers from `low` to `high`, both among them.
    Range { low: i32, high: i32 },
    /// These elements, in the order in which they were declared.
    Enumeration(Items<Element>),
}

impl Element {
    /// The element as a value.
    pub fn value(self) -> Value
        ensures { result ≡ element_value self }
    {
        match self {
            Element::Int(z) => Value::Int(i64::from(z)),
            Element::Sym(n) => Value::Sym(n),
        }
    }
}

impl ValueType {
    /// Whether the value is one of the type. In an enumeration of n elements it takes n steps.
    pub fn contains(&self, v: Value) -> bool
        ensures { result ≡ is_of_type v self.now }
    {
        match self {
            ValueType::Boolean => is_boolean(v),
            ValueType::Word { signed, width } => is_word_of(*signed, *width, v),
            ValueType::Range { low, high } => is_between(*low, *high, v),
            ValueType::Enumeration(elements) => is_among(elements.as_slice(), v),
        }
    }

    /// The same type.
    pub fn copied(&self, alloc: Global) -> Result<ValueType, AllocError>
        ensures { IfOk result (λ copy. copy ≡ self.now) }
    {
        match self {
            ValueType::Boolean => Ok(ValueType::Boolean),
            ValueType::Word { signed, width } => Ok(ValueType::Word {
                signed: *signed,
                width: *width,
            }),
            ValueType::Range { low, high } => Ok(ValueType::Range {
                low: *low,
                high: *high,
            }),
            ValueType::Enumeration(elements) => {
                let copy = Items::from_slice(alloc, elements.as_slice())?;
                Ok(ValueType::Enumeration(copy))
            }
        }
    }
}

fn is_boolean(v: Value) -> bool
    ensures { result ≡ is_boolean v }
{
    match v {
        Value::Bool(_) => true,
        Value::Int(_) | Value::Sym(_) | Value::Word { .. } => false,
    }
}

// Whether it is a word of this type.
pub fn is_word_of(signed: bool, width: u32, v: Value) -> bool
    ensures { result ≡ is_word_of signed width v }
{
    match v {
        Value::Word {
            signed: its_sign,
            width: its_width,
            ..
        } => signed == its_sign && width == its_width && is_value(v),
        Value::Bool(_) | Value::Int(_) | Value::Sym(_) => false,
    }
}

fn is_between(low: i32, high: i32, v: Value) -> bool
    ensures { result ≡ is_between low high v }
{
    match v {
        Value::Int(z) => i64::from(low) <= z && z <= i64::from(high),
        Value::Bool(_) | Value::Sym(_) | Value::Word { .. } => false,
    }
}

fn is_among(elements: &[Element], v: Value) -> bool
    ensures { result ≡ list_any (is_element v) elements.now }
{
    elements.iter().any(|e| is_element(v, *e))
}

// Whether the value is this element.
pub fn is_element(v: Value, e: Element) -> bool
    ensures { result ≡ is_element v e }
{
    same(v, e.value())
}
