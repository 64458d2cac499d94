//! Values read from texts.

ghost use Rattle.std.specs.Prelude.{◌≡◌, ◌++◌, ℕ, List, true, bytes_eq, string_bytes, IfOk};
ghost use Rattle.std.specs.Fmt.{signed_decimal};
ghost use Rattle.smv_value.specs.declared.value.Value.TheVariants as value;
ghost use Rattle.smv_value.specs.Results.{is_value};
ghost use Rattle.value_types.specs.declared.value_type.ValueType.TheVariants as type;
ghost use Rattle.value_types.specs.Types.{element_value, is_between, is_type};
ghost use Rattle.value_texts.specs.Read.{IsIntRead, IsNumberRead, IsRead, is_element_told, value_read, word_front};

use crate::Symbols;
use crate::symbols::is_symbol_text;
use smv_value::{Value, is_value};
use std::alloc::{AllocError, Global};
use value_types::{Element, ValueType};

/// The value of this type that is told so, if there is one.
pub fn value_read(
    alloc: Global,
    symbols: &Symbols,
    declared: &ValueType,
    text: &str,
) -> Result<Option<Value>, AllocError>
    requires { is_type declared.now ≡ true }
    ensures { IfOk result (λ read. read ≡ value_read symbols.now.names.now declared.now text.now) }
{
    read_by(alloc, symbols, declared, text)
}

// The same by the kind of the type.
fn read_by(
    alloc: Global,
    symbols: &Symbols,
    declared: &ValueType,
    text: &str,
) -> Result<Option<Value>, AllocError>
    requires { is_type declared.now ≡ true }
    ensures { IfOk result (IsRead symbols.now.names.now declared.now text.now) }
{
    match declared {
        ValueType::Boolean => Ok(boolean_read(text)),
        ValueType::Word { signed, width } => word_read(alloc, *signed, *width, text),
        ValueType::Range { low, high } => {
            let number = int_read(alloc, text)?;
            Ok(between(*low, *high, number))
        }
        ValueType::Enumeration(elements) => {
            let number = int_read(alloc, text)?;
            Ok(element_read(symbols, number, elements.as_slice(), text))
        }
    }
}

fn boolean_read(text: &str) -> Option<Value>
    ensures { (names : List (List ℕ)) → IsRead names type.Boolean text.now result }
{
    if text == "TRUE" {
        Some(Value::Bool(true))
    } else if text == "FALSE" {
        Some(Value::Bool(false))
    } else {
        None
    }
}

// The integer of 32 bits that is printed so.
fn int_read(alloc: Global, text: &str) -> Result<Option<i32>, AllocError>
    ensures { IfOk result (IsIntRead text.now) }
{
    let Ok(z) = text.parse::<i32>() else {
        return Ok(None);
    };
    let printed = z.to_string(alloc)?;
    if printed.as_str() == text {
        Ok(Some(z))
    } else {
        Ok(None)
    }
}

// The number of 128 bits that is printed so.
fn number_read(alloc: Global, text: &str) -> Result<Option<u128>, AllocError>
    ensures { IfOk result (IsNumberRead text.now) }
{
    let Ok(n) = text.parse::<u128>() else {
        return Ok(None);
    };
    let printed = n.to_string(alloc)?;
    if printed.as_str() == text {
        Ok(Some(n))
    } else {
        Ok(None)
    }
}

// The integer, where it is between these.
fn between(low: i32, high: i32, number: Option<i32>) -> Option<Value>
    requires { is_type (type.Range low high) ≡ true }
    ensures { (names : List (List ℕ)) (text : List ℕ) → IsIntRead text number → IsRead names (type.Range low high) text result }
{
    let z = number?;
    if is_between(low, high, z) {
        Some(Value::Int(i64::from(z)))
    } else {
        None
    }
}

fn is_between(low: i32, high: i32, z: i32) -> bool
    ensures { result ≡ is_between low high (value.Int z) }
{
    low <= z && z <= high
}

fn word_read(
    alloc: Global,
    signed: bool,
    width: u32,
    text: &str,
) -> Result<Option<Value>, AllocError>
    ensures { IfOk result (λ read. (names : List (List ℕ)) → IsRead names (type.Word signed width) text.now read) }
{
    let front = word_front(alloc, signed, width)?;
    let Some(digits) = text.strip_prefix(front.as_str()) else {
        return Ok(None);
    };
    let bits = number_read(alloc, digits)?;
    Ok(word_of(signed, width, bits))
}

// What stands before the bits of a word.
fn word_front(alloc: Global, signed: bool, width: u32) -> Result<String, AllocError>
    ensures { IfOk result (λ front. string_bytes front ≡ word_front signed width) }
{
    let kind = if signed { "0sd" } else { "0ud" };
    format!(in alloc; "{kind}{width}_")
}

// The word of these bits, where they are of its width.
fn word_of(signed: bool, width: u32, bits: Option<u128>) -> Option<Value>
    ensures { (names : List (List ℕ)) (digits : List ℕ) → IsNumberRead digits bits → IsRead names (type.Word signed width) (word_front signed width ++ digits) result }
{
    let bits = bits?;
    let word = Value::Word {
        signed,
        width,
        bits,
    };
    if is_value(word) { Some(word) } else { None }
}

// The first element that is told so, where the text is that of this integer, or of none.
fn element_read(
    symbols: &Symbols,
    number: Option<i32>,
    elements: &[Element],
    text: &str,
) -> Option<Value>
    requires read { IsIntRead text.now number }
    requires typed { is_type (type.Enumeration elements.now) ≡ true }
    ensures { IsRead symbols.now.names.now (type.Enumeration elements.now) text.now result }
{
    for e in elements {
        if is_element_text(symbols, number, *e, text) {
            return Some(e.value());
        }
    }
    None
}

// Whether the text is that of an element.
fn is_element_text(symbols: &Symbols, number: Option<i32>, e: Element, text: &str) -> bool
    requires read { IsIntRead text.now number }
    requires typed { is_value (element_value e) ≡ true }
    ensures { result ≡ is_element_told symbols.now.names.now text.now e }
{
    match e {
        Element::Int(z) => is_int_text(number, z),
        Element::Sym(n) => is_symbol_text(symbols, n, text),
    }
}

// Whether this is the integer that was read of a text.
fn is_int_text(number: Option<i32>, z: i32) -> bool
    ensures { (text : List ℕ) → IsIntRead text number → result ≡ bytes_eq (signed_decimal z) text }
{
    match number {
        None => false,
        Some(k) => k == z,
    }
}
