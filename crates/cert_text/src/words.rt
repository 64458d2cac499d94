//! Recognises one word of a certificate line as a keyword or a number.

ghost use Rattle.std.specs.Prelude.{◌≡◌, true, bytes_eq};
ghost use Rattle.std.specs.List.{list_all};
ghost use Rattle.std.specs.Char.{is_ascii_digit};
ghost use Rattle.cert_text.specs.Tokens.{number_token, number_after, number_of, negative_of, kind_of, part_word, head_word, keyword_of, signed_or, token_of};

use crate::token::Token;

fn all_digits(word: &[u8]) -> bool
    ensures { result ≡ list_all is_ascii_digit word.now }
{
    word.iter().all(|b| b.is_ascii_digit())
}

// The number that these digits write; one past 128 bits counts as the greatest of these.
fn value_of(digits: &[u8]) -> u128
    ensures { result ≡ number_after 0 digits.now }
{
    let mut value: u128 = 0;
    for b in digits {
        value = value
            .saturating_mul(10)
            .saturating_add(u128::from(b.saturating_sub(48)));
    }
    value
}

// The number that the word is, if it is one.
fn number(word: &[u8]) -> Option<u128>
    ensures { result ≡ number_of word.now }
{
    let several = word.len() > 1 && word[0] != 48;
    if all_digits(word) && (word.len() == 1 || several) {
        Some(value_of(word))
    } else {
        None
    }
}

fn is(word: &[u8], text: &[u8]) -> bool
    ensures { result ≡ bytes_eq word.now text.now }
{
    word == text
}

fn kind(word: &[u8]) -> Option<Token>
    ensures { result ≡ kind_of word.now }
{
    if is(word, b"step") {
        Some(Token::Step)
    } else if is(word, b"clause") {
        Some(Token::Clause)
    } else if is(word, b"part") {
        Some(Token::Part)
    } else if is(word, b"cert") {
        Some(Token::Cert)
    } else if is(word, b"sound") {
        Some(Token::Sound)
    } else if is(word, b"end") {
        Some(Token::End)
    } else {
        None
    }
}

fn part(word: &[u8]) -> Option<Token>
    ensures { result ≡ part_word word.now }
{
    if is(word, b"item") {
        Some(Token::Item)
    } else if is(word, b"shared") {
        Some(Token::Shared)
    } else if is(word, b"first") {
        Some(Token::First)
    } else if is(word, b"kept") {
        Some(Token::Kept)
    } else if is(word, b"safe") {
        Some(Token::Safe)
    } else {
        None
    }
}

fn head(word: &[u8]) -> Option<Token>
    ensures { result ≡ head_word word.now }
{
    if is(word, b"--%") {
        Some(Token::Mark)
    } else if is(word, b"spec") {
        Some(Token::Spec)
    } else if is(word, b"counter") {
        Some(Token::Counter)
    } else if is(word, b"none") {
        Some(Token::NoCounter)
    } else {
        None
    }
}

fn keyword(word: &[u8]) -> Option<Token>
    ensures { result ≡ keyword_of word.now }
{
    if let Some(t) = kind(word) {
        return Some(t);
    }
    if let Some(t) = part(word) {
        return Some(t);
    }
    head(word)
}

// The greatest number of 64 bits.
const GREATEST: u128 = 18446744073709551615;

fn number_token(n: u128) -> Token
    ensures { result ≡ number_token n }
{
    if n <= GREATEST {
        Token::Number(n as usize)
    } else {
        Token::Past
    }
}

fn negative(n: Option<u128>) -> Option<Token>
    ensures { result ≡ negative_of n }
{
    let n = n?;
    if n == 0 || n > GREATEST {
        None
    } else {
        Some(Token::Negative(n as usize))
    }
}

// The number behind a minus sign that the word is, if it is one, or else the keyword.
fn signed(word: &[u8]) -> Option<Token>
    ensures { result ≡ signed_or word.now (keyword_of word.now) }
{
    if let [45, rest @ ..] = word {
        if let Some(t) = negative(number(rest)) {
            return Some(t);
        }
    }
    keyword(word)
}

// The token that the word is, if it is one.
pub(crate) fn token(word: &[u8]) -> Option<Token>
    ensures { result ≡ token_of word.now }
{
    match number(word) {
        Some(n) => Some(number_token(n)),
        None => signed(word),
    }
}
