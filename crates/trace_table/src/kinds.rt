//! The kinds of values, which their texts tell.

ghost use Rattle.std.specs.Prelude.{◌≡◌, ◌≤◌, ◌++◌, ◌^◌, ℕ, List, nat_lt, map, slice_get, string_bytes, IfOk, IfSome, OnOk};
ghost use Rattle.std.specs.Borrow.{Bor};
ghost use Rattle.std.specs.Char.{is_ascii_digit};
ghost use Rattle.std.specs.List.{list_all};
ghost use Rattle.std.specs.Option.{option_copied};
ghost use Rattle.plain_text.specs.Decimals.{is_numeral};
ghost use Rattle.trace_table.specs.Cells.{value_of};
ghost use Rattle.trace_table.specs.Kinds as kinds;
ghost use Rattle.trace_lines.specs.Reading.{head_row};

use crate::cells::value_at;
use plain_text::{Text, number_up_to};
use sqlite_items::Items;
use std::alloc::{AllocError, Global};
use trace_lines::{Binding, head_row, pieces};

/// A kind of values.
#[derive(Clone, Copy, Debug)]
pub enum Kind {
    /// TRUE and FALSE.
    Bit,
    /// Words of this width.
    Bits(u32),
    /// Integers.
    Number,
    /// All others.
    Symbol,
}

/// A word: its width, and its bits as a number.
#[derive(Clone, Copy, Debug)]
pub struct Word {
    pub width: u32,
    pub bits: u128,
}

fn are_digits(bytes: &[u8]) -> bool
    ensures { result ≡ list_all is_ascii_digit bytes.now }
{
    bytes.iter().all(|byte| byte.is_ascii_digit())
}

fn is_numeral(bytes: &[u8]) -> bool
    ensures { result ≡ is_numeral bytes.now }
{
    0 < bytes.len() && are_digits(bytes)
}

fn without_sign(text: &[u8]) -> &[u8]
    ensures { result.now ≡ kinds.without_sign text.now }
{
    match text {
        [b'-', digits @ ..] => digits,
        _ => text,
    }
}

fn is_integer(text: &[u8]) -> bool
    ensures { result ≡ kinds.is_integer text.now }
{
    is_numeral(without_sign(text))
}

fn with_digit(n: u128, d: u8) -> Option<u128>
    ensures { result ≡ kinds.with_digit n d }
{
    if !d.is_ascii_digit() {
        return None;
    }
    match n.checked_mul(10) {
        None => None,
        Some(tens) => tens.checked_add(u128::from(d - b'0')),
    }
}

fn digits_read(digits: &[u8]) -> Option<u128>
    ensures { result ≡ kinds.digits_from 0 digits.now }
{
    let mut n = 0;
    for d in digits {
        match with_digit(n, *d) {
            None => return None,
            Some(more) => n = more,
        }
    }
    Some(n)
}

fn width_of(front: &[u8]) -> Option<u32>
    ensures width { result ≡ kinds.width_of front.now }
    ensures small { IfSome result (λ w. w ≤ 128) }
{
    let [a, b, c, width @ ..] = front else {
        return None;
    };
    if *a == b'0' && ((*b == b'u' || *b == b's') && *c == b'd') {
        match number_up_to(128, width) {
            None => None,
            Some(w) => Some(w as u32),
        }
    } else {
        None
    }
}

fn fits(width: u32, bits: u128) -> bool
    requires { width ≤ 128 }
    ensures { result ≡ nat_lt bits (2 ^ width) }
{
    match 2u128.checked_pow(width) {
        None => true,
        Some(limit) => bits < limit,
    }
}

fn fitting(width: u32, bits: Option<u128>) -> Option<Word>
    requires { width ≤ 128 }
    ensures { result ≡ kinds.fitting width bits }
{
    match bits {
        None => None,
        Some(bits) => {
            if 0 < width && fits(width, bits) {
                Some(Word { width, bits })
            } else {
                None
            }
        }
    }
}

fn word_from(width: Option<u32>, digits: &[u8]) -> Option<Word>
    requires { IfSome width (λ w. w ≤ 128) }
    ensures { result ≡ kinds.word_from width digits.now }
{
    match width {
        None => None,
        Some(width) => {
            if digits.is_empty() {
                None
            } else {
                fitting(width, digits_read(digits))
            }
        }
    }
}

fn word_in(parts: &[&[u8]]) -> Option<Word>
    ensures { result ≡ kinds.word_in (map (λ (x : Bor (List ℕ)). x.now) parts.now) }
{
    let [front, digits] = parts else {
        return None;
    };
    word_from(width_of(front), digits)
}

/// The word that the text writes, as `0ud8_255`, if it is one.
#[tactic(auto, unfolding(crate::specs::Kinds::word_of))]
pub fn word_of(alloc: Global, text: &[u8]) -> Result<Option<Word>, AllocError>
    ensures { IfOk result (λ w. w ≡ kinds.word_of text.now) }
{
    let parts = pieces(alloc, text, b'_')?;
    Ok(word_in(&parts))
}

fn bit_text(n: u128) -> &'static str
    ensures { result.now ≡ kinds.bit_text n }
{
    if n % 2 == 1 { "1" } else { "0" }
}

/// Writes the bits of a number, of this width, the highest first.
pub fn write_bits(out: &mut String, width: u32, bits: u128) -> Result<(), AllocError>
    ensures { OnOk result (string_bytes out.new ≡ string_bytes out.old ++ kinds.bits_text width bits) }
{
    if width == 0 {
        return Ok(());
    }
    write_bits(out, width - 1, bits / 2)?;
    out.push_str(bit_text(bits))
}

fn kind_by(word: Option<Word>, text: &[u8]) -> Kind
    ensures { result ≡ kinds.kind_by word text.now }
{
    match word {
        Some(word) => Kind::Bits(word.width),
        None if is_integer(text) => Kind::Number,
        None => Kind::Symbol,
    }
}

#[tactic(auto, unfolding(crate::specs::Kinds::kind_of))]
fn kind_of(alloc: Global, text: &str) -> Result<Kind, AllocError>
    ensures { IfOk result (λ k. k ≡ kinds.kind_of text.now) }
{
    if text == "TRUE" || text == "FALSE" {
        return Ok(Kind::Bit);
    }
    let word = word_of(alloc, text.as_bytes())?;
    Ok(kind_by(word, text.as_bytes()))
}

fn kind_shown(alloc: Global, value: Option<&Text>) -> Result<Kind, AllocError>
    ensures { IfOk result (λ k. k ≡ kinds.kind_shown (option_copied value.entry)) }
{
    match value {
        None => Ok(Kind::Symbol),
        Some(text) => kind_of(alloc, text.as_str()),
    }
}

fn joined(a: Kind, b: Kind) -> Kind
    ensures { result ≡ kinds.joined a b }
{
    match (a, b) {
        (Kind::Bit, Kind::Bit) => Kind::Bit,
        (Kind::Bits(w), Kind::Bits(v)) if w == v => Kind::Bits(w),
        (Kind::Number, Kind::Number) => Kind::Number,
        _ => Kind::Symbol,
    }
}

fn value_of(row: &[Binding], j: usize) -> Option<&Text>
    ensures { option_copied result ≡ value_of (slice_get row.now j) }
{
    match row.get(j) {
        None => None,
        Some(binding) => Some(&binding.value),
    }
}

/// The kind of all values of a column.
pub fn column_kind(alloc: Global, rows: &[Items<Binding>], j: usize) -> Result<Kind, AllocError>
    ensures { IfOk result (λ k. k ≡ kinds.column_kind rows.now j) }
{
    let mut kind = kind_shown(alloc, value_at(rows, 0, j))?;
    for row in rows {
        kind = joined(kind, kind_shown(alloc, value_of(row.as_slice(), j))?);
    }
    Ok(kind)
}

/// The kinds of the columns.
pub fn column_kinds(alloc: Global, rows: &[Items<Binding>]) -> Result<Vec<Kind>, AllocError>
    ensures { IfOk result (λ ks. ks.items ≡ kinds.kinds_from rows.now 0 (head_row rows.now)) }
{
    let mut kinds = Vec::new(alloc);
    for (j, _) in head_row(rows).iter().enumerate() {
        kinds.push(column_kind(alloc, rows, j)?)?;
    }
    Ok(kinds)
}
