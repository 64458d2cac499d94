//! Declarations, read from the front of tokens (NuSMV 2.6 User Manual, 2.3.1 and 2.3.4).

ghost use Rattle.std.specs.Prelude.{◌≡◌, false};
ghost use Rattle.phrase_forms.specs.Forms.{token, to, many, head, ◌▹◌, ◌◃◌};
ghost use Rattle.smv_tree.specs.declared.token.TokenKind.TheVariants as kind;
ghost use Rattle.smv_phrases.specs.Names.{just, identifier, identifier_of};
ghost use Rattle.smv_phrases.specs.Lists.{further, listed};
ghost use Rattle.smv_phrases.specs.Reading.{Gives};
ghost use Rattle.smv_expressions.specs.Expressions.{most_levels};
ghost use Rattle.smv_parse.specs.Types.{written_type};
ghost use Rattle.smv_parse.specs.Programs.{declaration, declares, kind_declared, variables, constants};

use crate::edges::{begins_identifier, followed_by};
use crate::types::{MOST_LEVELS, Written, written_type};
use phrase_forms::Fault;
use smv_phrases::{Stop, begins, identifier, identifier_of, just};
use smv_tree::{Identifier, Section, Token, TokenKind, Variable, VariableKind};
use sqlite_items::Items;
use std::alloc::Global;

/// `:` type `;`
fn declared_type<'a>(alloc: Global, tokens: &'a [Token]) -> Result<(Written, &'a [Token]), Stop<'a>>
    ensures { Gives (λ x. ((x.0.0, x.0.1), x.1.now)) result ((just kind.Colon ▹ written_type 0 most_levels ◃ just kind.Semicolon).parse tokens.now) }
{
    let (_, tokens) = just(TokenKind::Colon, tokens)?;
    let (declared, tokens) = written_type(alloc, MOST_LEVELS, tokens)?;
    followed_by(TokenKind::Semicolon, declared, tokens)
}

/// Identifier `:` type `;`
#[tactic(auto, unfolding(crate::specs::Programs::declaration))]
fn declaration<'a>(alloc: Global, tokens: &'a [Token]) -> Result<(Variable, &'a [Token]), Stop<'a>>
    ensures { Gives (λ x. (x.0, x.1.now)) result ((declaration 0).parse tokens.now) }
{
    let (named, tokens) = identifier(tokens)?;
    let name = named.text.copy(alloc)?;
    let ((dimensions, declared), tokens) = declared_type(alloc, tokens)?;
    let variable = Variable {
        place: named.place,
        name,
        dimensions,
        declared,
    };
    Ok((variable, tokens))
}

/// As many declarations as there are.
fn declarations<'a>(
    alloc: Global,
    tokens: &'a [Token],
) -> Result<(Items<Variable>, &'a [Token]), Stop<'a>>
    ensures { Gives (λ x. (x.0, x.1.now)) result ((many (declaration 0)).parse tokens.now) }
{
    let mut all = Items::new(alloc);
    let mut rest = tokens;
    'phrases: while begins_identifier(rest) {
        let (one, after) = declaration(alloc, rest)?;
        all.push(one)?;
        rest = after;
    }
    Ok((all, rest))
}

/// What the variables are that this keyword declares.
fn kind_declared(keyword: TokenKind) -> Option<VariableKind>
    ensures { result ≡ kind_declared keyword }
{
    match keyword {
        TokenKind::Var => Some(VariableKind::State),
        TokenKind::Ivar => Some(VariableKind::Input),
        TokenKind::FrozenVar => Some(VariableKind::Frozen),
        _ => None,
    }
}

/// Whether the token is `VAR`, `IVAR` or `FROZENVAR`.
pub fn declares(token: &Token) -> bool
    ensures { result ≡ declares token.now }
{
    kind_declared(token.kind).is_some()
}

/// Whether variables are declared here.
pub fn begins_variables(tokens: &[Token]) -> bool
    ensures { result ≡ head declares tokens.now }
{
    match tokens {
        [first, ..] => declares(first),
        [] => false,
    }
}

/// `VAR`, `IVAR` or `FROZENVAR`.
fn declaring(tokens: &[Token]) -> Result<(&Token, &[Token]), Stop<'_>>
    ensures { Gives (λ x. (x.0.now, x.1.now)) result ((token false declares).parse tokens.now) }
{
    match tokens {
        [first, rest @ ..] if declares(first) => Ok((first, rest)),
        _ => Err(Stop::Refused(Fault::Unexpected, tokens)),
    }
}

/// `VAR`, `IVAR` or `FROZENVAR`, and declarations.
#[tactic(auto, unfolding(crate::specs::Programs::variables))]
pub fn variables<'a>(alloc: Global, tokens: &'a [Token]) -> Result<(Section, &'a [Token]), Stop<'a>>
    ensures { Gives (λ x. (x.0, x.1.now)) result ((variables 0).parse tokens.now) }
{
    let (keyword, tokens) = declaring(tokens)?;
    let kind = kind_declared(keyword.kind).unwrap_or(VariableKind::State);
    let (declarations, tokens) = declarations(alloc, tokens)?;
    Ok((Section::Variables(kind, declarations), tokens))
}

/// An identifier.
fn constant<'a>(alloc: Global, tokens: &'a [Token]) -> Result<(Identifier, &'a [Token]), Stop<'a>>
    ensures { Gives (λ x. (x.0, x.1.now)) result ((to identifier_of identifier).parse tokens.now) }
{
    let (named, tokens) = identifier(tokens)?;
    let constant = identifier_of(alloc, named)?;
    Ok((constant, tokens))
}

/// `,` identifier
fn further_constant<'a>(
    alloc: Global,
    tokens: &'a [Token],
) -> Result<(Identifier, &'a [Token]), Stop<'a>>
    ensures { Gives (λ x. (x.0, x.1.now)) result ((further (to identifier_of identifier)).parse tokens.now) }
{
    let (_, tokens) = just(TokenKind::Comma, tokens)?;
    constant(alloc, tokens)
}

/// Identifiers with commas between them.
fn listed_constants<'a>(
    alloc: Global,
    tokens: &'a [Token],
) -> Result<(Items<Identifier>, &'a [Token]), Stop<'a>>
    ensures { Gives (λ x. (x.0, x.1.now)) result ((listed (to identifier_of identifier)).parse tokens.now) }
{
    let (first, tokens) = constant(alloc, tokens)?;
    let mut all = Items::new(alloc);
    all.push(first)?;
    let mut rest = tokens;
    'phrases: while begins(TokenKind::Comma, rest) {
        let (one, after) = further_constant(alloc, rest)?;
        all.push(one)?;
        rest = after;
    }
    Ok((all, rest))
}

/// `CONSTANTS`, identifiers with commas between them, and `;`.
#[tactic(auto, unfolding(crate::specs::Programs::constants))]
pub fn constants<'a>(alloc: Global, tokens: &'a [Token]) -> Result<(Section, &'a [Token]), Stop<'a>>
    ensures { Gives (λ x. (x.0, x.1.now)) result (constants.parse tokens.now) }
{
    let (_, tokens) = just(TokenKind::Constants, tokens)?;
    let (constants, tokens) = listed_constants(alloc, tokens)?;
    let (_, tokens) = just(TokenKind::Semicolon, tokens)?;
    Ok((Section::Constants(constants), tokens))
}
