//! The words that word constants write.

ghost use Rattle.std.specs.Prelude.{◌≡◌, ◌≤◌, suc, length, drop};
ghost use Rattle.smv_text.specs.Numbers.{width_len};
ghost use Rattle.smv_text.specs.Written.{word_of, word_behind_sign, is_signed, word_written};

use crate::numbers::{base_of, behind_sign, fits_width, number_in, width_of};
use crate::runs::{Run, run_len};
use smv_value::Value;

/// The word of these digits and so many bits, where they fit.
fn word_of(signed: bool, letter: u8, bits: u128, digits: &[u8]) -> Option<Value>
    ensures { result ≡ word_of signed letter bits digits.now }
{
    if !fits_width(letter, bits, digits) {
        return None;
    }
    match number_in(base_of(letter), digits) {
        Some(number) => Some(Value::Word {
            signed,
            width: bits as u32,
            bits: number,
        }),
        None => None,
    }
}

/// The digits behind a width or none and `_`.
fn digits_behind(width: usize, text: &[u8]) -> &[u8]
    requires { width ≤ length text.now }
    ensures { result.now ≡ drop (suc width) text.now }
{
    let (_, rest) = text.split_at(width);
    match rest {
        [_, digits @ ..] => digits,
        [] => rest,
    }
}

/// The word that the text writes from the letter of the base on.
fn word_behind_sign(signed: bool, text: &[u8]) -> Option<Value>
    ensures { result ≡ word_behind_sign signed text.now }
{
    match text {
        [letter, rest @ ..] => {
            let len = run_len(Run::Digits, rest);
            let (width, _) = rest.split_at(len);
            let digits = digits_behind(len, rest);
            match width_of(*letter, width, digits) {
                Some(bits) => word_of(signed, *letter, bits, digits),
                None => None,
            }
        }
        [] => None,
    }
}

/// Whether the sign of a word constant is `s`.
fn is_signed(text: &[u8]) -> bool
    ensures { result ≡ is_signed text.now }
{
    match text {
        [sign, ..] => *sign == b's',
        [] => false,
    }
}

/// The word that a word constant in form writes: its sign, its width and its bits (NuSMV 2.6 User Manual, 2.1, Word
/// Constants). `None` where the digits do not fit the width, or the width is none from 1 to 128. The time is linear in
/// the text, and no memory is taken.
#[tactic(auto, unfolding(crate::specs::Written::word_written))]
pub fn word_written(text: &[u8]) -> Option<Value>
    ensures { result ≡ word_written text.now }
{
    match text {
        [_, rest @ ..] => word_behind_sign(is_signed(rest), behind_sign(rest)),
        [] => None,
    }
}
