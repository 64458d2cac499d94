//! What integers and word constants are worth.

ghost use Rattle.std.specs.Prelude.{◌≡◌, ◌≤◌};
ghost use Rattle.smv_phrases.specs.Numbers.{number_of, integer_value, word_value};

use plain_text::number_up_to;
use smv_text::word_written;
use smv_tree::Token;
use smv_value::Value;

// The number of the greatest integer tokens.
const GREATEST: u64 = 2147483647;

/// The number that an integer token writes, at most the greatest.
pub fn number_of(token: &Token) -> u32
    ensures bound { result ≤ 2147483647 }
    ensures value { result ≡ number_of token.now }
{
    match number_up_to(GREATEST, token.text.as_str().as_bytes()) {
        Some(number) => number as u32,
        None => GREATEST as u32,
    }
}

/// The value of an integer token.
pub fn integer_value(token: &Token) -> Value
    ensures { result ≡ integer_value token.now }
{
    Value::Int(number_of(token) as i64)
}

/// The value of a word constant.
pub fn word_value(token: &Token) -> Value
    ensures { result ≡ word_value token.now }
{
    match word_written(token.text.as_str().as_bytes()) {
        Some(word) => word,
        None => Value::Word {
            signed: false,
            width: 1,
            bits: 0,
        },
    }
}
