//! Types as they are written, read from the front of tokens (NuSMV 2.6 User Manual, 2.1). Of each phrase `room` says
//! how many levels may be opened in it.

ghost use Rattle.std.specs.Prelude.{◌≡◌, ◌<◌, ◌++◌, false, IfOk};
ghost use Rattle.phrase_forms.specs.Forms.{token, to, head, ◌⨾◌};
ghost use Rattle.smv_tree.specs.declared.token.TokenKind.TheVariants as kind;
ghost use Rattle.smv_tree.specs.declared.tree.TypeExpr.TheVariants as type;
ghost use Rattle.smv_phrases.specs.Names.{just, opening, identifier};
ghost use Rattle.smv_phrases.specs.Lists.{further, listed, maybe_listed};
ghost use Rattle.smv_phrases.specs.Reading.{Gives};
ghost use Rattle.smv_expressions.specs.Tokens.{begins_expression};
ghost use Rattle.smv_expressions.specs.Expressions.{is_zero, chained, limit_within, limited_within, expression_within};
ghost use Rattle.smv_parse.specs.Types.{width, word_type, is_sign, signed_type, symbol_of, integer_of, negative_of, element, enumeration, upper, instance_of, given, goes_on_range, named_range, range_of, behind_identifier, identifier_type, range_type, plain_type, dimension, array_head, written_type};

use crate::edges::{begins_identifier, followed_by};
use phrase_forms::Fault;
use plain_text::Text;
use smv_expressions::{
    begins_expression, goes_on_limit, is_closed, limit, limit_start, limited, listed,
};
use smv_phrases::{
    Stop, begins, identifier, identifier_of, is_kind, just, members, number_of, opening,
};
use smv_tree::{Dimension, Expr, Name, Place, Start, Token, TokenKind, TypeExpr, WrittenElement};
use sqlite_items::Items;
use std::alloc::{AllocError, Global};

/// So many levels may be open at one place.
pub const MOST_LEVELS: usize = 256;

/// The dimensions of an array, the outermost first, and the type of its elements; or no dimension and a type.
pub type Written = (Items<Dimension>, TypeExpr);

/// `[` limit `]`
fn width<'a>(
    alloc: Global,
    room: usize,
    tokens: &'a [Token],
) -> Result<(Expr, &'a [Token]), Stop<'a>>
    ensures { Gives (λ x. (x.0, x.1.now)) result ((width 0 room).parse tokens.now) }
{
    let (_, tokens) = opening(is_closed(room), TokenKind::LeftBracket, tokens)?;
    let (width, tokens) = limit(alloc, room - 1, tokens)?;
    followed_by(TokenKind::RightBracket, width, tokens)
}

/// `word` width
#[tactic(auto, unfolding(crate::specs::Types::word_type))]
fn word_type<'a>(
    alloc: Global,
    room: usize,
    tokens: &'a [Token],
) -> Result<(TypeExpr, &'a [Token]), Stop<'a>>
    ensures { Gives (λ x. (x.0, x.1.now)) result ((word_type 0 room).parse tokens.now) }
{
    let (word, tokens) = just(TokenKind::Word, tokens)?;
    let (width, tokens) = width(alloc, room, tokens)?;
    Ok((TypeExpr::Word(word.place, false, width), tokens))
}

/// Whether the token is `unsigned` or `signed`.
fn is_sign(token: &Token) -> bool
    ensures { result ≡ is_sign token.now }
{
    is_kind(TokenKind::Unsigned, token) || is_kind(TokenKind::Signed, token)
}

/// Whether `unsigned` or `signed` stands here.
fn begins_sign(tokens: &[Token]) -> bool
    ensures { result ≡ head is_sign tokens.now }
{
    match tokens {
        [first, ..] => is_sign(first),
        [] => false,
    }
}

/// `unsigned` or `signed`.
fn sign(tokens: &[Token]) -> Result<(&Token, &[Token]), Stop<'_>>
    ensures { Gives (λ x. (x.0.now, x.1.now)) result ((token false is_sign).parse tokens.now) }
{
    match tokens {
        [first, rest @ ..] if is_sign(first) => Ok((first, rest)),
        _ => Err(Stop::Refused(Fault::Unexpected, tokens)),
    }
}

/// `unsigned` or `signed`, and `word` width.
#[tactic(auto, unfolding(crate::specs::Types::signed_type))]
fn signed_type<'a>(
    alloc: Global,
    room: usize,
    tokens: &'a [Token],
) -> Result<(TypeExpr, &'a [Token]), Stop<'a>>
    ensures { Gives (λ x. (x.0, x.1.now)) result ((signed_type 0 room).parse tokens.now) }
{
    let (sign, tokens) = sign(tokens)?;
    let (_, tokens) = just(TokenKind::Word, tokens)?;
    let (width, tokens) = width(alloc, room, tokens)?;
    let signed = is_kind(TokenKind::Signed, sign);
    Ok((TypeExpr::Word(sign.place, signed, width), tokens))
}

/// Two texts, one behind the other.
fn joined(alloc: Global, first: &Text, second: &Text) -> Result<Text, AllocError>
    ensures { IfOk result (λ text. text ≡ first.now ++ second.now) }
{
    let mut text = String::from_str(alloc, first.as_str())?;
    text.push_str(second.as_str())?;
    Text::from_str(alloc, text.as_str())
}

/// The element that `-` and an integer are.
fn negative_of(alloc: Global, minus: &Token, token: &Token) -> Result<WrittenElement, AllocError>
    ensures { IfOk result (λ e. e ≡ negative_of (minus.now, token.now)) }
{
    Ok(WrittenElement {
        place: minus.place,
        text: joined(alloc, &minus.text, &token.text)?,
        number: Some(-(number_of(token) as i32)),
    })
}

/// An identifier.
fn symbol<'a>(alloc: Global, tokens: &'a [Token]) -> Result<(WrittenElement, &'a [Token]), Stop<'a>>
    ensures { Gives (λ x. (x.0, x.1.now)) result ((to symbol_of identifier).parse tokens.now) }
{
    let (word, tokens) = identifier(tokens)?;
    let symbol = WrittenElement {
        place: word.place,
        text: word.text.copy(alloc)?,
        number: None,
    };
    Ok((symbol, tokens))
}

/// An integer.
fn integer<'a>(
    alloc: Global,
    tokens: &'a [Token],
) -> Result<(WrittenElement, &'a [Token]), Stop<'a>>
    ensures { Gives (λ x. (x.0, x.1.now)) result ((to integer_of (just kind.Integer)).parse tokens.now) }
{
    let (token, tokens) = just(TokenKind::Integer, tokens)?;
    let integer = WrittenElement {
        place: token.place,
        text: token.text.copy(alloc)?,
        number: Some(number_of(token) as i32),
    };
    Ok((integer, tokens))
}

/// `-` integer, where no level may be opened if `closed` is true.
fn negative<'a>(
    alloc: Global,
    closed: bool,
    tokens: &'a [Token],
) -> Result<(WrittenElement, &'a [Token]), Stop<'a>>
    ensures { Gives (λ x. (x.0, x.1.now)) result ((to negative_of (opening closed kind.Minus ⨾ just kind.Integer)).parse tokens.now) }
{
    let (minus, tokens) = opening(closed, TokenKind::Minus, tokens)?;
    let (number, tokens) = just(TokenKind::Integer, tokens)?;
    let negative = negative_of(alloc, minus, number)?;
    Ok((negative, tokens))
}

/// Identifier, integer, or `-` integer, where no level may be opened if `closed` is true.
#[tactic(auto, using(crate::proofs::Choices::element_reads))]
fn element<'a>(
    alloc: Global,
    closed: bool,
    tokens: &'a [Token],
) -> Result<(WrittenElement, &'a [Token]), Stop<'a>>
    ensures { Gives (λ x. (x.0, x.1.now)) result ((element closed).parse tokens.now) }
{
    if begins_identifier(tokens) {
        symbol(alloc, tokens)
    } else if begins(TokenKind::Integer, tokens) {
        integer(alloc, tokens)
    } else {
        negative(alloc, closed, tokens)
    }
}

/// `,` element
fn further_element<'a>(
    alloc: Global,
    closed: bool,
    tokens: &'a [Token],
) -> Result<(WrittenElement, &'a [Token]), Stop<'a>>
    ensures { Gives (λ x. (x.0, x.1.now)) result ((further (element closed)).parse tokens.now) }
{
    let (_, tokens) = just(TokenKind::Comma, tokens)?;
    element(alloc, closed, tokens)
}

/// Elements with commas between them.
fn listed_elements<'a>(
    alloc: Global,
    closed: bool,
    tokens: &'a [Token],
) -> Result<(Items<WrittenElement>, &'a [Token]), Stop<'a>>
    ensures { Gives (λ x. (x.0, x.1.now)) result ((listed (element closed)).parse tokens.now) }
{
    let (first, tokens) = element(alloc, closed, tokens)?;
    let mut all = Items::new(alloc);
    all.push(first)?;
    let mut rest = tokens;
    'phrases: while begins(TokenKind::Comma, rest) {
        let (one, after) = further_element(alloc, closed, rest)?;
        all.push(one)?;
        rest = after;
    }
    Ok((all, rest))
}

/// `{`, elements with commas between them, and `}`.
#[tactic(auto, unfolding(crate::specs::Types::enumeration))]
fn enumeration<'a>(
    alloc: Global,
    room: usize,
    tokens: &'a [Token],
) -> Result<(TypeExpr, &'a [Token]), Stop<'a>>
    ensures { Gives (λ x. (x.0, x.1.now)) result ((enumeration room).parse tokens.now) }
{
    let (brace, tokens) = opening(is_closed(room), TokenKind::LeftBrace, tokens)?;
    let (elements, tokens) = listed_elements(alloc, is_closed(room - 1), tokens)?;
    let enumeration = TypeExpr::Enumeration(brace.place, elements);
    followed_by(TokenKind::RightBrace, enumeration, tokens)
}

/// `..` limit
fn upper<'a>(
    alloc: Global,
    room: usize,
    tokens: &'a [Token],
) -> Result<(Expr, &'a [Token]), Stop<'a>>
    ensures { Gives (λ x. (x.0, x.1.now)) result ((upper 0 room).parse tokens.now) }
{
    let (_, tokens) = just(TokenKind::DotDot, tokens)?;
    limit(alloc, room, tokens)
}

/// Whether an expression begins here.
fn expression_begins(tokens: &[Token]) -> bool
    ensures { result ≡ head begins_expression tokens.now }
{
    match tokens {
        [first, ..] => begins_expression(first),
        [] => false,
    }
}

/// Expressions with commas between them, or nothing.
#[tactic(auto, unfolding(smv_expressions::specs::Expressions::expression_within))]
fn maybe_arguments<'a>(
    alloc: Global,
    room: usize,
    tokens: &'a [Token],
) -> Result<(Items<Expr>, &'a [Token]), Stop<'a>>
    ensures { Gives (λ x. (x.0, x.1.now)) result ((maybe_listed (expression_within 0 room)).parse tokens.now) }
{
    if expression_begins(tokens) {
        listed(alloc, room, tokens)
    } else {
        Ok((Items::new(alloc), tokens))
    }
}

/// `(`, what an instance is given, and `)`.
fn given<'a>(
    alloc: Global,
    room: usize,
    tokens: &'a [Token],
) -> Result<(Items<Expr>, &'a [Token]), Stop<'a>>
    ensures { Gives (λ x. (x.0, x.1.now)) result ((given 0 room).parse tokens.now) }
{
    let (_, tokens) = opening(is_closed(room), TokenKind::LeftParen, tokens)?;
    let (given, tokens) = maybe_arguments(alloc, room - 1, tokens)?;
    followed_by(TokenKind::RightParen, given, tokens)
}

/// The instance of the module of this name, and what it is given.
fn instance<'a>(
    alloc: Global,
    room: usize,
    word: &Token,
    tokens: &'a [Token],
) -> Result<(TypeExpr, &'a [Token]), Stop<'a>>
    ensures { Gives (λ x. (x.0, x.1.now)) result ((to (instance_of word.now) (given 0 room)).parse tokens.now) }
{
    let name = word.text.copy(alloc)?;
    let (given, tokens) = given(alloc, room, tokens)?;
    Ok((TypeExpr::Instance(word.place, name, given), tokens))
}

/// The range at this place whose first limit begins with this expression: what goes on that limit, and the other one.
fn range_at<'a>(
    alloc: Global,
    room: usize,
    place: Place,
    first: Expr,
    tokens: &'a [Token],
) -> Result<(TypeExpr, &'a [Token]), Stop<'a>>
    ensures { Gives (λ x. (x.0, x.1.now)) result ((to (λ y. type.Range place (chained first y.0) y.1) (limited_within 0 room ⨾ upper 0 room)).parse tokens.now) }
{
    let (lower, tokens) = limited(alloc, room, first, tokens)?;
    let (upper, tokens) = upper(alloc, room, tokens)?;
    Ok((TypeExpr::Range(place, lower, upper), tokens))
}

/// The range whose first limit begins with this identifier.
#[tactic(auto, unfolding(crate::specs::Types::named_range))]
fn range_of<'a>(
    alloc: Global,
    room: usize,
    word: &Token,
    tokens: &'a [Token],
) -> Result<(TypeExpr, &'a [Token]), Stop<'a>>
    ensures { Gives (λ x. (x.0, x.1.now)) result ((to (range_of word.now) (named_range 0 room)).parse tokens.now) }
{
    let (members, tokens) = members(alloc, tokens)?;
    let start = Start::Own(identifier_of(alloc, word)?);
    let first = Expr::Name(Name { start, members });
    range_at(alloc, room, word.place, first, tokens)
}

/// Whether a range goes on an identifier here.
fn goes_on_range(tokens: &[Token]) -> bool
    ensures { result ≡ head goes_on_range tokens.now }
{
    match tokens {
        [first, ..] => is_kind(TokenKind::DotDot, first) || goes_on_limit(first),
        [] => false,
    }
}

/// What this identifier begins: an instance, or a range.
#[tactic(auto, unfolding(crate::specs::Types::behind_identifier))]
fn behind_identifier<'a>(
    alloc: Global,
    room: usize,
    word: &Token,
    tokens: &'a [Token],
) -> Result<(TypeExpr, &'a [Token]), Stop<'a>>
    ensures { Gives (λ x. (x.0, x.1.now)) result ((behind_identifier 0 room word.now).parse tokens.now) }
{
    if begins(TokenKind::LeftParen, tokens) {
        return instance(alloc, room, word, tokens);
    }
    if goes_on_range(tokens) {
        return range_of(alloc, room, word, tokens);
    }
    let name = word.text.copy(alloc)?;
    let none = Items::new(alloc);
    Ok((TypeExpr::Instance(word.place, name, none), tokens))
}

/// A type that begins with an identifier.
#[tactic(auto, unfolding(crate::specs::Types::identifier_type))]
fn identifier_type<'a>(
    alloc: Global,
    room: usize,
    tokens: &'a [Token],
) -> Result<(TypeExpr, &'a [Token]), Stop<'a>>
    ensures { Gives (λ x. (x.0, x.1.now)) result ((identifier_type 0 room).parse tokens.now) }
{
    let (word, tokens) = identifier(tokens)?;
    let (written, tokens) = behind_identifier(alloc, room, word, tokens)?;
    Ok((written, tokens))
}

/// A range that begins with no identifier.
#[tactic(auto, unfolding(crate::specs::Types::range_type))]
fn range_type<'a>(
    alloc: Global,
    room: usize,
    tokens: &'a [Token],
) -> Result<(TypeExpr, &'a [Token]), Stop<'a>>
    ensures { Gives (λ x. (x.0, x.1.now)) result ((range_type 0 room).parse tokens.now) }
{
    let ((place, first), tokens) = limit_start(alloc, room, tokens)?;
    range_at(alloc, room, place, first, tokens)
}

/// `boolean`
fn boolean(tokens: &[Token]) -> Result<(TypeExpr, &[Token]), Stop<'_>>
    ensures { Gives (λ x. (x.0, x.1.now)) result ((to (λ t. type.Boolean t.place) (just kind.Boolean)).parse tokens.now) }
{
    let (word, tokens) = just(TokenKind::Boolean, tokens)?;
    Ok((TypeExpr::Boolean(word.place), tokens))
}

/// `boolean`, a word, an enumeration, an instance of a module, or a range.
#[tactic(auto, using(crate::proofs::Choices::type_reads))]
fn plain_type<'a>(
    alloc: Global,
    room: usize,
    tokens: &'a [Token],
) -> Result<(TypeExpr, &'a [Token]), Stop<'a>>
    ensures { Gives (λ x. (x.0, x.1.now)) result ((plain_type 0 room).parse tokens.now) }
{
    if begins(TokenKind::Boolean, tokens) {
        boolean(tokens)
    } else if begins(TokenKind::Word, tokens) {
        word_type(alloc, room, tokens)
    } else if begins_sign(tokens) {
        signed_type(alloc, room, tokens)
    } else if begins(TokenKind::LeftBrace, tokens) {
        enumeration(alloc, room, tokens)
    } else if begins_identifier(tokens) {
        identifier_type(alloc, room, tokens)
    } else {
        range_type(alloc, room, tokens)
    }
}

/// Limit `..` limit
fn dimension<'a>(
    alloc: Global,
    room: usize,
    tokens: &'a [Token],
) -> Result<(Dimension, &'a [Token]), Stop<'a>>
    ensures { Gives (λ x. (x.0, x.1.now)) result ((dimension (limit_within 0 room)).parse tokens.now) }
{
    let (low, tokens) = limit(alloc, room, tokens)?;
    let (high, tokens) = upper(alloc, room, tokens)?;
    Ok((Dimension { low, high }, tokens))
}

/// `array` dimension `of`
#[tactic(auto, unfolding(crate::specs::Types::array_head))]
fn array_head<'a>(
    alloc: Global,
    room: usize,
    tokens: &'a [Token],
) -> Result<(Dimension, &'a [Token]), Stop<'a>>
    ensures room { IfOk result (λ x. 0 < room) }
    ensures read { Gives (λ x. (x.0, x.1.now)) result ((array_head 0 room).parse tokens.now) }
{
    let (_, tokens) = opening(is_closed(room), TokenKind::Array, tokens)?;
    let (dimension, tokens) = dimension(alloc, room - 1, tokens)?;
    followed_by(TokenKind::Of, dimension, tokens)
}

/// An array, or a type that is none.
pub fn written_type<'a>(
    alloc: Global,
    room: usize,
    tokens: &'a [Token],
) -> Result<(Written, &'a [Token]), Stop<'a>>
    ensures { Gives (λ x. ((x.0.0, x.0.1), x.1.now)) result ((written_type 0 room).parse tokens.now) }
{
    let mut dimensions = Items::new(alloc);
    let mut room = room;
    let mut rest = tokens;
    'dimensions: while begins(TokenKind::Array, rest) {
        let (dimension, after) = array_head(alloc, room, rest)?;
        dimensions.push(dimension)?;
        room -= 1;
        rest = after;
    }
    let (declared, rest) = plain_type(alloc, room, rest)?;
    Ok(((dimensions, declared), rest))
}
