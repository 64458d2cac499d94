//! Integers and word constants.

ghost use Rattle.std.specs.Prelude.{◌≡◌, ◌≤◌, ◌<◌, ◌+◌, ◌*◌, ◌^◌, length, SomeIff, true, ◌==◌, ◌||◌};
ghost use Rattle.std.specs.Char.{digit_value, is_digit};
ghost use Rattle.smv_text.specs.Numbers.{underscore, number_in, base_and_rest, behind_sign, constant_len, sign_len, is_base, base_of, has_base, begins_constant, bits_of_digit, digits_in, width_of, fits_width, are_digits, fits_behind, is_in_form, is_word_constant};
ghost use Rattle.smv_text.specs.Lexemes.{integer_of, constant_of};

use crate::Lexeme;
use crate::runs::{Run, run_len};
use smv_tree::{Rule, TokenKind};

/// The greatest integer that a source may write.
const GREATEST_INTEGER: u128 = 2147483647;

/// The value of a digit or a letter; 36 for any other byte.
fn digit_value(byte: u8) -> u32
    ensures bound { result ≤ 36 }
    ensures value { result ≡ digit_value byte }
{
    match (byte as char).to_digit(36) {
        Some(value) => value,
        None => 36,
    }
}

/// The number with one more digit, where it is below 2^128.
fn with_digit(base: u32, n: u128, byte: u8) -> Option<u128>
    ensures { SomeIff result (n * base + digit_value byte < 2 ^ 128) (n * base + digit_value byte) }
{
    match n.checked_mul(base as u128) {
        Some(n) => n.checked_add(digit_value(byte) as u128),
        None => None,
    }
}

/// The number that digits write in a base, where it is below 2^128. Underscores are skipped.
pub fn number_in(base: u32, digits: &[u8]) -> Option<u128>
    requires { 2 ≤ base }
    ensures { SomeIff result (number_in base digits.now < 2 ^ 128) (number_in base digits.now) }
{
    let mut n = 0;
    for digit in digits {
        if *digit != b'_' {
            match with_digit(base, n, *digit) {
                Some(more) => n = more,
                None => return None,
            }
        }
    }
    Some(n)
}

/// How many bytes the sign of a word constant has.
pub fn sign_len(text: &[u8]) -> usize
    ensures { result ≡ sign_len text.now }
{
    match text {
        [sign, ..] if *sign == b'u' || *sign == b's' => 1,
        _ => 0,
    }
}

/// The text behind the sign of a word constant.
pub fn behind_sign(text: &[u8]) -> &[u8]
    ensures { result.now ≡ behind_sign text.now }
{
    let (_, rest) = text.split_at(sign_len(text));
    rest
}

/// Whether the letter says a base.
fn is_base(letter: u8) -> bool
    ensures { result ≡ is_base letter }
{
    matches!(
        letter,
        b'b' | b'B' | b'o' | b'O' | b'd' | b'D' | b'h' | b'H'
    )
}

/// The base that a letter says.
pub fn base_of(letter: u8) -> u32
    ensures bounds { 2 ≤ result }
    ensures most { result ≤ 16 }
    ensures value { result ≡ base_of letter }
{
    match letter {
        b'b' | b'B' => 2,
        b'o' | b'O' => 8,
        b'd' | b'D' => 10,
        _ => 16,
    }
}

fn bits_of_digit(letter: u8) -> usize
    ensures most { result ≤ 4 }
    ensures value { result ≡ bits_of_digit letter }
{
    match letter {
        b'b' | b'B' => 1,
        b'o' | b'O' => 3,
        b'd' | b'D' => 0,
        _ => 4,
    }
}

fn has_base(text: &[u8]) -> bool
    ensures { result ≡ has_base text.now }
{
    match text {
        [letter, ..] => is_base(*letter),
        [] => false,
    }
}

/// Whether `0`, the sign and the letter of a base stand at the front.
pub fn begins_constant(text: &[u8]) -> bool
    ensures { result ≡ begins_constant text.now }
{
    match text {
        [first, rest @ ..] => *first == b'0' && has_base(behind_sign(rest)),
        [] => false,
    }
}

/// How many digits there are: underscores are skipped.
fn digits_in(digits: &[u8]) -> usize
    ensures within { result ≤ length digits.now }
    ensures value { result ≡ digits_in digits.now }
{
    digits.iter().filter(|digit| **digit != b'_').count()
}

fn is_digit(base: u32, byte: u8) -> bool
    ensures { result ≡ (byte == underscore || is_digit byte base) }
{
    byte == b'_' || digit_value(byte) < base
}

/// Whether all are digits of the base, or underscores.
fn are_digits(letter: u8, digits: &[u8]) -> bool
    ensures { result ≡ are_digits letter digits.now }
{
    let base = base_of(letter);
    digits.iter().all(|digit| is_digit(base, *digit))
}

/// How many bits a word constant has, where that is below 2^128.
pub fn width_of(letter: u8, width: &[u8], digits: &[u8]) -> Option<u128>
    ensures { SomeIff result (width_of letter width.now digits.now < 2 ^ 128) (width_of letter width.now digits.now) }
{
    if width.is_empty() {
        Some(bits_of_digit(letter) as u128 * digits_in(digits) as u128)
    } else {
        number_in(10, width)
    }
}

/// Whether the digits write a number of so many bits.
pub fn fits_width(letter: u8, bits: u128, digits: &[u8]) -> bool
    ensures { result ≡ fits_width letter bits digits.now }
{
    if bits < 1 || 128 < bits {
        return false;
    }
    match number_in(base_of(letter), digits) {
        None => false,
        Some(n) => bits == 128 || n < 2u128.pow(bits as u32),
    }
}

/// Whether the digits write a number of as many bits as the word constant has.
fn fits_own_width(letter: u8, width: &[u8], digits: &[u8]) -> bool
    ensures { result ≡ fits_width letter (width_of letter width.now digits.now) digits.now }
{
    match width_of(letter, width, digits) {
        Some(bits) => fits_width(letter, bits, digits),
        None => false,
    }
}

/// Whether `_` and digits that fit stand behind the width.
fn fits_behind(letter: u8, width: &[u8], text: &[u8]) -> bool
    requires { length text.now < 2 ^ 32 }
    ensures { result ≡ fits_behind letter width.now text.now }
{
    match text {
        [first, digits @ ..] => {
            *first == b'_'
                && are_digits(letter, digits)
                && 1 <= digits_in(digits)
                && fits_own_width(letter, width, digits)
        }
        [] => false,
    }
}

/// Whether a width or none, `_` and digits stand behind the letter of the base, and all fit.
fn is_in_form(letter: u8, text: &[u8]) -> bool
    requires { length text.now < 2 ^ 32 }
    ensures { result ≡ is_in_form letter text.now }
{
    let (width, rest) = text.split_at(run_len(Run::Digits, text));
    fits_behind(letter, width, rest)
}

fn base_in_form(text: &[u8]) -> bool
    requires { length text.now < 2 ^ 32 }
    ensures { result ≡ base_and_rest is_in_form text.now }
{
    match text {
        [letter, rest @ ..] => is_base(*letter) && is_in_form(*letter, rest),
        [] => false,
    }
}

/// Whether the text is a word constant in form.
#[tactic(auto, unfolding(crate::specs::Numbers::is_word_constant))]
fn is_word_constant(text: &[u8]) -> bool
    requires { length text.now < 2 ^ 32 }
    ensures { result ≡ is_word_constant text.now }
{
    match text {
        [first, rest @ ..] => *first == b'0' && base_in_form(behind_sign(rest)),
        [] => false,
    }
}

/// What a text of digits is.
pub fn integer_of(text: &[u8]) -> Lexeme
    ensures { result ≡ integer_of text.now }
{
    match number_in(10, text) {
        Some(n) if n <= GREATEST_INTEGER => Lexeme::Token(TokenKind::Integer),
        _ => Lexeme::Flaw(Rule::IntTooLarge),
    }
}

/// What a word constant is.
pub fn constant_of(text: &[u8]) -> Lexeme
    requires { length text.now < 2 ^ 32 }
    ensures { result ≡ constant_of text.now }
{
    if is_word_constant(text) {
        Lexeme::Token(TokenKind::WordConstant)
    } else {
        Lexeme::Flaw(Rule::BadWordConstant)
    }
}

/// How many bytes the word constant at the front has.
pub fn constant_len(text: &[u8]) -> usize
    requires some { begins_constant text.now ≡ true }
    requires few { length text.now < 2 ^ 32 }
    ensures within { result ≤ length text.now }
    ensures value { result ≡ constant_len text.now }
{
    let (_, rest) = text.split_at(1);
    let start = sign_len(rest) + 2;
    let (_, rest) = text.split_at(start);
    start + run_len(Run::Constant, rest)
}
