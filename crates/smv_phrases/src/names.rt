//! Names, read from the front of tokens (NuSMV 2.6 User Manual, 2.3.13, References to Module Components).

ghost use Rattle.std.specs.Prelude.{◌≡◌, false, IfOk};
ghost use Rattle.phrase_forms.specs.Forms.{token, many, to};
ghost use Rattle.smv_phrases.specs.Names.{identifier_of, begins_name, start_of, starts_name, member, name_from, name, place_of};
ghost use Rattle.smv_phrases.specs.Reading.{Gives};

use crate::reading::{Stop, begins, identifier, is_identifier, is_kind, just};
use phrase_forms::Fault;
use smv_tree::{Identifier, Name, Place, Start, Token, TokenKind};
use sqlite_items::Items;
use std::alloc::{AllocError, Global};

/// The identifier that the token is.
pub fn identifier_of(alloc: Global, token: &Token) -> Result<Identifier, AllocError>
    ensures { IfOk result (λ i. i ≡ identifier_of token.now) }
{
    Ok(Identifier {
        place: token.place,
        name: token.text.copy(alloc)?,
    })
}

/// Whether a name begins with this token: an identifier, or `self`.
pub fn begins_name(token: &Token) -> bool
    ensures { result ≡ begins_name token.now }
{
    is_identifier(token) || is_kind(TokenKind::SelfName, token)
}

/// What the name begins with that this token begins.
fn start_of(alloc: Global, token: &Token) -> Result<Start, AllocError>
    ensures { IfOk result (λ s. s ≡ start_of token.now) }
{
    if is_identifier(token) {
        Ok(Start::Own(identifier_of(alloc, token)?))
    } else {
        Ok(Start::Itself(token.place))
    }
}

/// What a name may begin with.
#[derive(Clone, Copy, Debug, PartialEq, Eq)]
pub enum NameStart {
    /// An identifier, or `self`.
    Any,
    /// An identifier that names no function before `(`, or `self`.
    Plain,
    /// An identifier.
    Own,
    /// `self`
    Itself,
}

impl NameStart {
    /// Whether the name may begin with this token.
    pub fn may_be(self, token: &Token) -> bool
        ensures { result ≡ starts_name self token.now }
    {
        match self {
            NameStart::Any => begins_name(token),
            NameStart::Plain => {
                is_kind(TokenKind::Identifier, token) || is_kind(TokenKind::SelfName, token)
            }
            NameStart::Own => is_identifier(token),
            NameStart::Itself => is_kind(TokenKind::SelfName, token),
        }
    }
}

/// The first token of a name.
fn start<'a>(
    alloc: Global,
    which: NameStart,
    tokens: &'a [Token],
) -> Result<(Start, &'a [Token]), Stop<'a>>
    ensures { Gives (λ x. (x.0, x.1.now)) result ((to start_of (token false (starts_name which))).parse tokens.now) }
{
    match tokens {
        [first, rest @ ..] if which.may_be(first) => Ok((start_of(alloc, first)?, rest)),
        _ => Err(Stop::Refused(Fault::Unexpected, tokens)),
    }
}

/// `.` identifier
#[tactic(auto, unfolding(crate::specs::Names::member))]
fn member<'a>(alloc: Global, tokens: &'a [Token]) -> Result<(Identifier, &'a [Token]), Stop<'a>>
    ensures { Gives (λ x. (x.0, x.1.now)) result (member.parse tokens.now) }
{
    let (_, tokens) = just(TokenKind::Dot, tokens)?;
    let (named, tokens) = identifier(tokens)?;
    let named = identifier_of(alloc, named)?;
    Ok((named, tokens))
}

/// As many members as there are: each a dot and an identifier.
pub fn members<'a>(
    alloc: Global,
    tokens: &'a [Token],
) -> Result<(Items<Identifier>, &'a [Token]), Stop<'a>>
    ensures { Gives (λ x. (x.0, x.1.now)) result ((many member).parse tokens.now) }
{
    let mut all = Items::new(alloc);
    let mut rest = tokens;
    'phrases: while begins(TokenKind::Dot, rest) {
        let (one, after) = member(alloc, rest)?;
        all.push(one)?;
        rest = after;
    }
    Ok((all, rest))
}

/// The name at the front of the tokens, and the tokens behind it: a first token, and members behind dots. It is refused
/// as unexpected at the first token that is out of place, or at the end. Memory may be refused at any time. The time is
/// linear in the tokens of the name and their texts.
#[tactic(auto, unfolding(crate::specs::Names::name_from))]
pub fn name_from<'a>(
    alloc: Global,
    which: NameStart,
    tokens: &'a [Token],
) -> Result<(Name, &'a [Token]), Stop<'a>>
    ensures { Gives (λ x. (x.0, x.1.now)) result ((name_from which).parse tokens.now) }
{
    let (start, tokens) = start(alloc, which, tokens)?;
    let (members, tokens) = members(alloc, tokens)?;
    Ok((Name { start, members }, tokens))
}

/// The name at the front of the tokens, and the tokens behind it: an identifier or `self`, and members behind dots.
pub fn name<'a>(alloc: Global, tokens: &'a [Token]) -> Result<(Name, &'a [Token]), Stop<'a>>
    ensures { Gives (λ x. (x.0, x.1.now)) result (name.parse tokens.now) }
{
    name_from(alloc, NameStart::Any, tokens)
}

/// The place of the name's first token.
pub fn place_of(name: &Name) -> Place
    ensures { result ≡ place_of name.now }
{
    match &name.start {
        Start::Own(identifier) => identifier.place,
        Start::Itself(place) => *place,
    }
}
