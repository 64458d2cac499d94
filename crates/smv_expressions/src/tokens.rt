//! Tokens that phrases begin with, functions, and constants.

ghost use Rattle.std.specs.Prelude.{◌≡◌, false};
ghost use Rattle.phrase_forms.specs.Forms.{head, token};
ghost use Rattle.smv_phrases.specs.Reading.{Gives};
ghost use Rattle.smv_expressions.specs.Operators.{function_of, is_function, named_function, names_function};
ghost use Rattle.smv_expressions.specs.Tokens.{is_truth, begins_literal, begins_bracket, begins_primary, begins_inverted, begins_denied, begins_expression, begins_limit_start, goes_on_limit};
ghost use Rattle.smv_expressions.specs.Expressions.{truth_of, integer_of, word_of};

use crate::ranks::Rank;
use crate::temporal::{is_step_operator, is_timed_operator};
use phrase_forms::Fault;
use smv_phrases::{Stop, begins_name, integer_value, is_kind, word_value};
use smv_tree::{Expr, Token, TokenKind};
use smv_value::{Operator, Value};

/// The function whose name is a reserved word of this kind.
pub fn function_of(kind: TokenKind) -> Option<Operator>
    ensures { result ≡ function_of kind }
{
    match kind {
        TokenKind::Word1 => Some(Operator::ToWord),
        TokenKind::Bool => Some(Operator::ToBoolean),
        TokenKind::Signed => Some(Operator::Signed),
        TokenKind::Unsigned => Some(Operator::Unsigned),
        TokenKind::Extend => Some(Operator::Extend),
        TokenKind::Resize => Some(Operator::Resize),
        TokenKind::Sizeof => Some(Operator::Size),
        TokenKind::Uwconst => Some(Operator::UnsignedConstant),
        TokenKind::Swconst => Some(Operator::SignedConstant),
        _ => None,
    }
}

/// The function that a word of this kind names before `(`, and that is an identifier elsewhere.
pub fn named_function(kind: TokenKind) -> Option<Operator>
    ensures { result ≡ named_function kind }
{
    match kind {
        TokenKind::Abs => Some(Operator::Absolute),
        TokenKind::Max => Some(Operator::Maximum),
        TokenKind::Min => Some(Operator::Minimum),
        TokenKind::Count => Some(Operator::Count),
        _ => None,
    }
}

/// Whether the token is a reserved word that names a function.
pub fn is_function(token: &Token) -> bool
    ensures { result ≡ is_function token.now }
{
    function_of(token.kind).is_some()
}

/// Whether the token is a word that names a function before `(`, and is an identifier elsewhere.
pub fn names_function(token: &Token) -> bool
    ensures { result ≡ names_function token.now }
{
    named_function(token.kind).is_some()
}

/// A reserved word that names a function, and the tokens behind it.
pub fn function_token(tokens: &[Token]) -> Result<(&Token, &[Token]), Stop<'_>>
    ensures { Gives (λ x. (x.0.now, x.1.now)) result ((token false is_function).parse tokens.now) }
{
    match tokens {
        [first, rest @ ..] if is_function(first) => Ok((first, rest)),
        _ => Err(Stop::Refused(Fault::Unexpected, tokens)),
    }
}

/// A word that names a function before `(`, and the tokens behind it.
pub fn named_function_token(tokens: &[Token]) -> Result<(&Token, &[Token]), Stop<'_>>
    ensures { Gives (λ x. (x.0.now, x.1.now)) result ((token false names_function).parse tokens.now) }
{
    match tokens {
        [first, rest @ ..] if names_function(first) => Ok((first, rest)),
        _ => Err(Stop::Refused(Fault::Unexpected, tokens)),
    }
}

/// Whether the token is `TRUE` or `FALSE`.
pub fn is_truth(token: &Token) -> bool
    ensures { result ≡ is_truth token.now }
{
    is_kind(TokenKind::True, token) || is_kind(TokenKind::False, token)
}

/// The constant of a token `TRUE` or `FALSE`.
pub fn truth_of(token: &Token) -> Expr
    ensures { result ≡ truth_of token.now }
{
    Expr::Constant(token.place, Value::Bool(is_kind(TokenKind::True, token)))
}

/// The constant of an integer.
pub fn integer_of(token: &Token) -> Expr
    ensures { result ≡ integer_of token.now }
{
    Expr::Constant(token.place, integer_value(token))
}

/// The constant of a word constant.
pub fn word_of(token: &Token) -> Expr
    ensures { result ≡ word_of token.now }
{
    Expr::Constant(token.place, word_value(token))
}

fn begins_literal(token: &Token) -> bool
    ensures { result ≡ begins_literal token.now }
{
    is_truth(token) || is_kind(TokenKind::Integer, token) || is_kind(TokenKind::WordConstant, token)
}

fn begins_bracket(token: &Token) -> bool
    ensures { result ≡ begins_bracket token.now }
{
    is_kind(TokenKind::LeftParen, token)
        || is_kind(TokenKind::LeftBrace, token)
        || is_kind(TokenKind::Case, token)
}

fn begins_primary(token: &Token) -> bool
    ensures { result ≡ begins_primary token.now }
{
    begins_literal(token)
        || begins_name(token)
        || begins_bracket(token)
        || is_kind(TokenKind::Next, token)
        || is_function(token)
}

fn begins_inverted(token: &Token) -> bool
    ensures { result ≡ begins_inverted token.now }
{
    is_kind(TokenKind::Not, token) || begins_primary(token)
}

fn begins_denied(token: &Token) -> bool
    ensures { result ≡ begins_denied token.now }
{
    is_step_operator(token) || is_timed_operator(token) || begins_inverted(token)
}

/// Whether an expression begins with this token.
pub fn begins_expression(token: &Token) -> bool
    ensures { result ≡ begins_expression token.now }
{
    is_kind(TokenKind::Minus, token) || begins_denied(token)
}

/// Whether an expression begins here.
pub fn expression_begins(tokens: &[Token]) -> bool
    ensures { result ≡ head begins_expression tokens.now }
{
    match tokens {
        [first, ..] => begins_expression(first),
        [] => false,
    }
}

/// Whether a limit of a type begins with this token that is no name of the module's own.
pub fn begins_limit_start(token: &Token) -> bool
    ensures { result ≡ begins_limit_start token.now }
{
    is_kind(TokenKind::Minus, token)
        || is_kind(TokenKind::Integer, token)
        || is_kind(TokenKind::LeftParen, token)
        || is_kind(TokenKind::SelfName, token)
}

/// Whether the token may go on a whole limit of a type.
pub fn goes_on_limit(token: &Token) -> bool
    ensures { result ≡ goes_on_limit token.now }
{
    Rank::LimitSum.operator_of(token.kind).is_some()
        || Rank::LimitProduct.operator_of(token.kind).is_some()
        || is_kind(TokenKind::Dot, token)
}
