//! The longest lexeme at the front of some bytes.

ghost use Rattle.std.specs.Prelude.{◌≡◌, ◌<◌, ◌≤◌, ◌^◌, length, take, slice_index, true, false, None, nat_le, if◌then◌else◌};
ghost use Rattle.std.specs.Char.{is_ascii_digit};
ghost use Rattle.longest_match.specs.Lexemes.{IsLongest};
ghost use Rattle.smv_text.specs.Words.{symbol_of};
ghost use Rattle.smv_text.specs.Comments.{begins_line_comment, begins_comment};
ghost use Rattle.smv_text.specs.Lexemes.{begins_word, is_white, byte_lexeme, shape_of};

use crate::Lexeme;
use crate::comments::{begins_comment, begins_line_comment, end_of};
use crate::numbers::{begins_constant, constant_len, constant_of, integer_of};
use crate::runs::{Run, begins_word, run_len};
use crate::words::{kind_of_word, symbol_of};
use smv_tree::{Rule, TokenKind};

/// The word at the front, and its length.
fn word(bytes: &[u8]) -> (Lexeme, usize)
    requires some { 0 < length bytes.now }
    requires word { begins_word (slice_index bytes.now 0) ≡ true }
    ensures { IsLongest shape_of bytes.now result.1 result.0 }
{
    let (_, rest) = bytes.split_at(1);
    let len = run_len(Run::Word, rest) + 1;
    let (text, _) = bytes.split_at(len);
    (Lexeme::Token(kind_of_word(text)), len)
}

/// The number at the front, and its length.
fn number(bytes: &[u8]) -> (Lexeme, usize)
    requires few { length bytes.now < 2 ^ 32 }
    requires some { 0 < length bytes.now }
    requires other { begins_word (slice_index bytes.now 0) ≡ false }
    requires digit { is_ascii_digit (slice_index bytes.now 0) ≡ true }
    ensures { IsLongest shape_of bytes.now result.1 result.0 }
{
    if begins_constant(bytes) {
        let len = constant_len(bytes);
        let (text, _) = bytes.split_at(len);
        return (constant_of(text), len);
    }
    let len = run_len(Run::Digits, bytes);
    let (text, _) = bytes.split_at(len);
    (integer_of(text), len)
}

/// The comment to the end of the line at the front, and its length.
fn line_comment(bytes: &[u8]) -> (Lexeme, usize)
    requires few { length bytes.now < 2 ^ 32 }
    requires comment { begins_line_comment bytes.now ≡ true }
    ensures { IsLongest shape_of bytes.now result.1 result.0 }
{
    let (_, rest) = bytes.split_at(2);
    (Lexeme::Blank, run_len(Run::Line, rest) + 2)
}

/// The comment at the front, which may be open, and its length.
fn comment(bytes: &[u8]) -> (Lexeme, usize)
    requires few { length bytes.now < 2 ^ 32 }
    requires comment { begins_comment bytes.now ≡ true }
    ensures { IsLongest shape_of bytes.now result.1 result.0 }
{
    let (_, rest) = bytes.split_at(3);
    match end_of(rest) {
        Some(len) => (Lexeme::Blank, len + 3),
        None => (Lexeme::Flaw(Rule::OpenComment), bytes.len()),
    }
}

/// The symbol that the first `len` bytes are.
fn symbol_of_len(bytes: &[u8], len: usize) -> Option<TokenKind>
    ensures { result ≡ (if nat_le len (length bytes.now) then symbol_of (take len bytes.now) else None) }
{
    if len > bytes.len() {
        return None;
    }
    let (text, _) = bytes.split_at(len);
    symbol_of(text)
}

fn is_white(byte: u8) -> bool
    ensures { result ≡ is_white byte }
{
    byte == b' ' || (9 <= byte && byte <= 13)
}

/// What a byte is that begins no longer lexeme.
fn byte_lexeme(byte: u8) -> Lexeme
    ensures { result ≡ byte_lexeme byte }
{
    if is_white(byte) {
        Lexeme::Blank
    } else {
        Lexeme::Flaw(Rule::BadByte)
    }
}

/// The symbol or the byte at the front, where nothing else begins, and its length.
fn symbol(bytes: &[u8]) -> (Lexeme, usize)
    requires some { 0 < length bytes.now }
    requires no_word { begins_word (slice_index bytes.now 0) ≡ false }
    requires no_number { is_ascii_digit (slice_index bytes.now 0) ≡ false }
    requires no_line_comment { begins_line_comment bytes.now ≡ false }
    requires no_comment { begins_comment bytes.now ≡ false }
    ensures { IsLongest shape_of bytes.now result.1 result.0 }
{
    if let Some(kind) = symbol_of_len(bytes, 3) {
        return (Lexeme::Token(kind), 3);
    }
    if let Some(kind) = symbol_of_len(bytes, 2) {
        return (Lexeme::Token(kind), 2);
    }
    if let Some(kind) = symbol_of_len(bytes, 1) {
        return (Lexeme::Token(kind), 1);
    }
    (byte_lexeme(bytes[0]), 1)
}

/// What the longest lexeme at the front is, and its length.
pub fn longest(bytes: &[u8]) -> (Lexeme, usize)
    requires few { length bytes.now < 2 ^ 32 }
    requires some { 0 < length bytes.now }
    ensures { IsLongest shape_of bytes.now result.1 result.0 }
{
    let first = bytes[0];
    if begins_word(first) {
        word(bytes)
    } else if first.is_ascii_digit() {
        number(bytes)
    } else if begins_line_comment(bytes) {
        line_comment(bytes)
    } else if begins_comment(bytes) {
        comment(bytes)
    } else {
        symbol(bytes)
    }
}
