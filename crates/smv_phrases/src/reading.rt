//! One token at the front of others, and why a phrase is not read.

ghost use Rattle.std.specs.Prelude.{◌≡◌, false};
ghost use Rattle.phrase_forms.specs.Forms.{head};
ghost use Rattle.smv_tree.specs.Kinds.{is_kind, is_identifier};
ghost use Rattle.smv_phrases.specs.declared.reading.Stop.TheVariants.{NoMemory};
ghost use Rattle.smv_phrases.specs.Names.{just, opening, identifier};
ghost use Rattle.smv_phrases.specs.Reading.{Gives};

use phrase_forms::Fault;
use smv_tree::{Token, TokenKind};
use std::alloc::AllocError;

/// Why tokens are no phrase.
#[derive(Debug, Drop)]
pub enum Stop<'a> {
    /// For this fault of the first of these tokens; of the end, where there is none.
    Refused(Fault, &'a [Token]),
    /// Memory was refused.
    NoMemory,
}

impl<'a> From<AllocError> for Stop<'a> {
    ghost from_gives = { λ _ e. e ≡ NoMemory };

    fn from(_error: AllocError) -> Stop<'a> {
        Stop::NoMemory
    }
}

/// Whether the token is of this kind.
#[tactic(auto, using(crate::proofs::KindNumbers::same_kinds))]
pub fn is_kind(kind: TokenKind, token: &Token) -> bool
    ensures { result ≡ is_kind kind token.now }
{
    kind == token.kind
}

/// Whether the token is an identifier: the words that name a function before `(` are identifiers elsewhere.
pub fn is_identifier(token: &Token) -> bool
    ensures { result ≡ is_identifier token.now }
{
    is_kind(TokenKind::Identifier, token)
        || is_kind(TokenKind::Abs, token)
        || is_kind(TokenKind::Max, token)
        || is_kind(TokenKind::Min, token)
        || is_kind(TokenKind::Count, token)
}

/// Whether a token of this kind stands at the front.
pub fn begins(kind: TokenKind, tokens: &[Token]) -> bool
    ensures { result ≡ head (is_kind kind) tokens.now }
{
    match tokens {
        [first, ..] => is_kind(kind, first),
        [] => false,
    }
}

/// A token of this kind, and the tokens behind it. Where another token stands at the front, or none, it is refused
/// there as unexpected. No memory is taken.
pub fn just(kind: TokenKind, tokens: &[Token]) -> Result<(&Token, &[Token]), Stop<'_>>
    ensures { Gives (λ x. (x.0.now, x.1.now)) result ((just kind).parse tokens.now) }
{
    match tokens {
        [first, rest @ ..] if is_kind(kind, first) => Ok((first, rest)),
        _ => Err(Stop::Refused(Fault::Unexpected, tokens)),
    }
}

/// A token of this kind, which opens a level, and the tokens behind it. Where `closed` is true, none may be opened, and
/// a token of this kind is refused as too deep. Any other is refused as unexpected. No memory is taken.
pub fn opening(
    closed: bool,
    kind: TokenKind,
    tokens: &[Token],
) -> Result<(&Token, &[Token]), Stop<'_>>
    ensures { Gives (λ x. (x.0.now, x.1.now)) result ((opening closed kind).parse tokens.now) }
{
    match tokens {
        [first, ..] if closed && is_kind(kind, first) => Err(Stop::Refused(Fault::TooDeep, tokens)),
        _ => just(kind, tokens),
    }
}

/// An identifier, and the tokens behind it. Where another token stands at the front, or none, it is refused there as
/// unexpected. No memory is taken.
pub fn identifier(tokens: &[Token]) -> Result<(&Token, &[Token]), Stop<'_>>
    ensures { Gives (λ x. (x.0.now, x.1.now)) result (identifier.parse tokens.now) }
{
    match tokens {
        [first, rest @ ..] if is_identifier(first) => Ok((first, rest)),
        _ => Err(Stop::Refused(Fault::Unexpected, tokens)),
    }
}
