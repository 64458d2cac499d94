//! What a line of a trace says: words with a space between, and behind a colon bindings with a comma between.

ghost use Rattle.std.specs.Prelude.{◌≡◌, ℕ, List, [], true, map, codes, bytes_eq, IfOk};
ghost use Rattle.std.specs.Borrow.{Bor};
ghost use Rattle.std.specs.List.{list_all};
ghost use Rattle.std.specs.Option.{option_map};
ghost use Rattle.trace_lines.specs.Lines.{begins_name, binding_of, bindings_in, bindings_of, bound, entry_of, entry_read, in_name, in_value, is_name, is_trace_line, is_value, long_entry, long_keyed, number_of, pieces, short_entry, short_keyed};

use plain_text::{Text, number_up_to};
use sqlite_items::Items;
use std::alloc::{AllocError, Global};

/// A name and its value, as they stand in a line.
#[derive(Debug, Drop)]
pub struct Binding {
    pub name: Text,
    pub value: Text,
}

/// What a line of a trace says.
#[derive(Debug, Drop)]
pub enum TraceLine {
    /// A trace of the specification of this number begins.
    Spec(usize),
    /// The state of this number has these values.
    State(usize, Items<Binding>),
    /// The step from the state of this number has these inputs.
    Input(usize, Items<Binding>),
    /// The loop begins at the state of this number.
    Loop(usize),
}

/// The pieces of the bytes between those that equal `by`.
pub fn pieces(alloc: Global, bytes: &[u8], by: u8) -> Result<Vec<&[u8]>, AllocError>
    ensures { IfOk result (λ v. map (λ (x : Bor (List ℕ)). x.now) v.items ≡ pieces by bytes.now) }
{
    bytes.split(|b| *b == by).collect(alloc)
}

fn begins_name(b: u8) -> bool
    ensures { result ≡ begins_name b }
{
    b.is_ascii_alphabetic() || b == b'_'
}

fn in_value(b: u8) -> bool
    ensures { result ≡ in_value b }
{
    b.is_ascii_alphanumeric() || b == b'_' || b == b'$' || b == b'#' || b == b'-'
}

fn in_name(b: u8) -> bool
    ensures { result ≡ in_name b }
{
    in_value(b) || b == b'.' || b == b'[' || b == b']'
}

fn are_in_name(bytes: &[u8]) -> bool
    ensures { result ≡ list_all in_name bytes.now }
{
    bytes.iter().all(|b| in_name(*b))
}

fn are_in_value(bytes: &[u8]) -> bool
    ensures { result ≡ list_all in_value bytes.now }
{
    bytes.iter().all(|b| in_value(*b))
}

fn is_name(text: &[u8]) -> bool
    ensures { result ≡ is_name text.now }
{
    match text {
        [] => false,
        [b, more @ ..] => begins_name(*b) && are_in_name(more),
    }
}

fn is_value(text: &[u8]) -> bool
    ensures { result ≡ is_value text.now }
{
    0 < text.len() && are_in_value(text)
}

/// The number of 64 bits that the word writes, with no leading zero.
pub fn number_of(word: &[u8]) -> Option<usize>
    ensures { result ≡ number_of word.now }
{
    if 1 < word.len() && word[0] == b'0' {
        return None;
    }
    match number_up_to(u64::MAX, word) {
        None => None,
        Some(n) => Some(n as usize),
    }
}

/// Whether the bytes are those of this text.
pub fn is(word: &[u8], text: &[u8]) -> bool
    ensures { result ≡ bytes_eq word.now text.now }
{
    word == text
}

fn name_text(alloc: Global, name: &[u8]) -> Result<Text, AllocError>
    requires { is_name name.now ≡ true }
    ensures { IfOk result (λ text. text ≡ name.now) }
{
    Text::from_ascii(alloc, name)
}

fn value_text(alloc: Global, value: &[u8]) -> Result<Text, AllocError>
    requires { is_value value.now ≡ true }
    ensures { IfOk result (λ text. text ≡ value.now) }
{
    Text::from_ascii(alloc, value)
}

fn bound(alloc: Global, name: &[u8], value: &[u8]) -> Result<Option<Binding>, AllocError>
    ensures { IfOk result (λ b. b ≡ bound name.now value.now) }
{
    if !is_name(name) || !is_value(value) {
        return Ok(None);
    }
    Ok(Some(Binding {
        name: name_text(alloc, name)?,
        value: value_text(alloc, value)?,
    }))
}

fn binding_of(alloc: Global, words: &[&[u8]]) -> Result<Option<Binding>, AllocError>
    ensures { IfOk result (λ b. b ≡ binding_of (map (λ (x : Bor (List ℕ)). x.now) words.now)) }
{
    let [lead, name, equals, value] = words else {
        return Ok(None);
    };
    if !is(lead, b"") || !is(equals, b"=") {
        return Ok(None);
    }
    bound(alloc, name, value)
}

fn binding_in(alloc: Global, piece: &[u8]) -> Result<Option<Binding>, AllocError>
    ensures { IfOk result (λ b. b ≡ binding_of (pieces 32 piece.now)) }
{
    let words = pieces(alloc, piece, b' ')?;
    binding_of(alloc, &words)
}

fn bindings_of(alloc: Global, pieces: &[&[u8]]) -> Result<Option<Vec<Binding>>, AllocError>
    ensures { IfOk result (λ o. option_map (λ v. v.items) o ≡ bindings_of (map (λ (x : Bor (List ℕ)). x.now) pieces.now)) }
{
    let mut row = Vec::new(alloc);
    for piece in pieces {
        match binding_in(alloc, piece)? {
            None => return Ok(None),
            Some(binding) => row.push(binding)?,
        }
    }
    Ok(Some(row))
}

fn bindings_in(alloc: Global, rest: &[u8]) -> Result<Option<Items<Binding>>, AllocError>
    ensures { IfOk result (λ o. o ≡ bindings_in rest.now) }
{
    if rest.is_empty() {
        return Ok(Some(Items::new(alloc)));
    }
    let pieces = pieces(alloc, rest, b',')?;
    match bindings_of(alloc, &pieces)? {
        None => Ok(None),
        Some(row) => Ok(Some(Items::from_vec(row))),
    }
}

fn short_keyed(key: &[u8], number: Option<usize>) -> Option<TraceLine>
    ensures { result ≡ short_keyed key.now number }
{
    let n = number?;
    if is(key, b"spec") {
        Some(TraceLine::Spec(n))
    } else if is(key, b"loop") {
        Some(TraceLine::Loop(n))
    } else {
        None
    }
}

fn long_keyed(key: &[u8], number: Option<usize>, row: Option<Items<Binding>>) -> Option<TraceLine>
    ensures { result ≡ long_keyed key.now number row }
{
    let n = number?;
    let row = row?;
    if is(key, b"state") {
        Some(TraceLine::State(n, row))
    } else if is(key, b"input") {
        Some(TraceLine::Input(n, row))
    } else {
        None
    }
}

fn short_entry(words: &[&[u8]]) -> Option<TraceLine>
    ensures { result ≡ short_entry (map (λ (x : Bor (List ℕ)). x.now) words.now) }
{
    let [mark, key, number] = words else {
        return None;
    };
    if is(mark, b"--@") {
        short_keyed(key, number_of(number))
    } else {
        None
    }
}

fn long_entry(words: &[&[u8]], row: Option<Items<Binding>>) -> Option<TraceLine>
    ensures { result ≡ long_entry (map (λ (x : Bor (List ℕ)). x.now) words.now) row }
{
    let [mark, key, number] = words else {
        return None;
    };
    if is(mark, b"--@") {
        long_keyed(key, number_of(number), row)
    } else {
        None
    }
}

fn entry_of(alloc: Global, parts: &[&[u8]]) -> Result<Option<TraceLine>, AllocError>
    ensures { IfOk result (λ e. e ≡ entry_of (map (λ (x : Bor (List ℕ)). x.now) parts.now)) }
{
    match parts {
        [front] => Ok(short_entry(&pieces(alloc, front, b' ')?)),
        [front, rest] => {
            let row = bindings_in(alloc, rest)?;
            Ok(long_entry(&pieces(alloc, front, b' ')?, row))
        }
        _ => Ok(None),
    }
}

/// What a line says, if it is in form.
#[tactic(auto, unfolding(crate::specs::Lines::entry_read))]
pub fn entry_read(alloc: Global, line: &[u8]) -> Result<Option<TraceLine>, AllocError>
    ensures { IfOk result (λ e. e ≡ entry_read line.now) }
{
    let parts = pieces(alloc, line, b':')?;
    entry_of(alloc, &parts)
}

/// Whether the line is one of a trace.
pub fn is_trace_line(line: &[u8]) -> bool
    ensures { result ≡ is_trace_line line.now }
{
    3 <= line.len() && is(&line[..3], b"--@")
}
