//! Temporal operators with one operand, and what they are with bounds (NuSMV 2.6 User Manual, 2.4.3, LTL
//! Specifications).

ghost use Rattle.std.specs.Prelude.{◌≡◌, [], ◌∷◌, IfOk};
ghost use Rattle.phrase_forms.specs.Forms.{token};
ghost use Rattle.smv_expressions.specs.Operators.{step_operator, is_step_operator, timed_operator, is_timed_operator, unbounded};
ghost use Rattle.smv_expressions.specs.Expressions.{stepping, timing, timed_by, below};
ghost use Rattle.smv_phrases.specs.Reading.{Gives};

use crate::nodes::{one, over_all, two};
use phrase_forms::Fault;
use smv_phrases::Stop;
use smv_tree::{Expr, Place, Token, TokenKind};
use smv_value::{Bounded, Operator, Temporal};
use sqlite_items::Items;
use std::alloc::{AllocError, Global};

/// The operator of a token `X`, `Y` or `Z`.
fn step_operator(kind: TokenKind) -> Option<Temporal>
    ensures { result ≡ step_operator kind }
{
    match kind {
        TokenKind::NextTime => Some(Temporal::Next),
        TokenKind::PreviousTime => Some(Temporal::Previously),
        TokenKind::WeakPreviousTime => Some(Temporal::WeaklyPreviously),
        _ => None,
    }
}

/// The operator of a token `F`, `G`, `O` or `H`.
fn timed_operator(kind: TokenKind) -> Option<Bounded>
    ensures { result ≡ timed_operator kind }
{
    match kind {
        TokenKind::Finally => Some(Bounded::Finally),
        TokenKind::Globally => Some(Bounded::Globally),
        TokenKind::Once => Some(Bounded::Once),
        TokenKind::Historically => Some(Bounded::Historically),
        _ => None,
    }
}

/// The operator without bounds.
fn unbounded(operator: Bounded) -> Temporal
    ensures { result ≡ unbounded operator }
{
    match operator {
        Bounded::Finally => Temporal::Finally,
        Bounded::Globally => Temporal::Globally,
        Bounded::Once => Temporal::Once,
        Bounded::Historically => Temporal::Historically,
    }
}

/// Whether the token is `X`, `Y` or `Z`.
pub fn is_step_operator(token: &Token) -> bool
    ensures { result ≡ is_step_operator token.now }
{
    step_operator(token.kind).is_some()
}

/// Whether the token is `F`, `G`, `O` or `H`.
pub fn is_timed_operator(token: &Token) -> bool
    ensures { result ≡ is_timed_operator token.now }
{
    timed_operator(token.kind).is_some()
}

/// `X`, `Y` or `Z`, which opens a level.
pub fn step_token(closed: bool, tokens: &[Token]) -> Result<(&Token, &[Token]), Stop<'_>>
    ensures { Gives (λ x. (x.0.now, x.1.now)) result ((token closed is_step_operator).parse tokens.now) }
{
    match tokens {
        [first, ..] if closed && is_step_operator(first) => {
            Err(Stop::Refused(Fault::TooDeep, tokens))
        }
        [first, rest @ ..] if is_step_operator(first) => Ok((first, rest)),
        _ => Err(Stop::Refused(Fault::Unexpected, tokens)),
    }
}

/// `F`, `G`, `O` or `H`, which opens a level.
pub fn timed_token(closed: bool, tokens: &[Token]) -> Result<(&Token, &[Token]), Stop<'_>>
    ensures { Gives (λ x. (x.0.now, x.1.now)) result ((token closed is_timed_operator).parse tokens.now) }
{
    match tokens {
        [first, ..] if closed && is_timed_operator(first) => {
            Err(Stop::Refused(Fault::TooDeep, tokens))
        }
        [first, rest @ ..] if is_timed_operator(first) => Ok((first, rest)),
        _ => Err(Stop::Refused(Fault::Unexpected, tokens)),
    }
}

/// The operator of a token `X`, `Y` or `Z`; `X` of any other.
pub fn stepping(kind: TokenKind) -> Temporal
    ensures { result ≡ stepping kind }
{
    step_operator(kind).unwrap_or(Temporal::Next)
}

/// The operator of a token `F`, `G`, `O` or `H`; `F` of any other.
pub fn timing(kind: TokenKind) -> Bounded
    ensures { result ≡ timing kind }
{
    timed_operator(kind).unwrap_or(Bounded::Finally)
}

/// An operator over an operand a level below.
pub fn below(
    alloc: Global,
    place: Place,
    operator: Operator,
    operand: Expr,
) -> Result<Expr, AllocError>
    ensures { IfOk result (λ e. e ≡ below place operator operand) }
{
    let operands = one(alloc, operand)?;
    Ok(over_all(alloc, place, operator, operands))
}

/// The bounds of an operator, and its operand.
fn bounded(alloc: Global, low: Expr, high: Expr, operand: Expr) -> Result<Items<Expr>, AllocError>
    ensures { IfOk result (λ es. es ≡ low ∷ high ∷ operand ∷ []) }
{
    let mut operands = two(alloc, low, high)?;
    operands.push(operand)?;
    Ok(operands)
}

/// `F`, `G`, `O` or `H` over its operand, with bounds or without.
pub fn timed_by(
    alloc: Global,
    place: Place,
    operator: Bounded,
    bounds: Option<(Expr, Expr)>,
    operand: Expr,
) -> Result<Expr, AllocError>
    ensures { IfOk result (λ e. e ≡ timed_by place operator (bounds, operand)) }
{
    match bounds {
        None => below(
            alloc,
            place,
            Operator::Temporal(unbounded(operator)),
            operand,
        ),
        Some((low, high)) => {
            let operands = bounded(alloc, low, high, operand)?;
            let operator = Operator::Window(operator);
            Ok(over_all(alloc, place, operator, operands))
        }
    }
}
