//! Expressions and the limits of types, read from the front of tokens (NuSMV 2.6 User Manual, 2.2).

ghost use Rattle.std.specs.Prelude.{◌≡◌, [], ◌∷◌, false, Some, None};
ghost use Rattle.phrase_forms.specs.Forms.{token, to, maybe, head, ◌⨾◌, ◌▹◌, ◌◃◌};
ghost use Rattle.smv_tree.specs.declared.tree.Expr.TheVariants as expr;
ghost use Rattle.smv_tree.specs.declared.token.TokenKind.TheVariants as kind;
ghost use Rattle.smv_phrases.specs.declared.names.NameStart.TheVariants as may;
ghost use Rattle.smv_phrases.specs.Names.{just, name_from, opening};
ghost use Rattle.smv_phrases.specs.Lists.{further, listed};
ghost use Rattle.smv_phrases.specs.Reading.{Gives};
ghost use Rattle.smv_expressions.specs.Operators.{is_function, is_step_operator, is_timed_operator};
ghost use Rattle.smv_expressions.specs.Expressions.{Link, integers, range_of, parenthesised, group_of, members, set_of, branch, turns, cases, case_of, arguments, call_of, function_or_name, next_or_call, compound, primary, selection, selected_by, selected, inverted, negated, negation, bounds_end, bounds, denied_again, stepped, timed_of, denied, chain_of, chained, compared, temporal, timed, choices, chosen_by, conditional, implication_of, placed_minus, placed_group, limit_start, limit_negation, limited, is_zero, under, expression_within, limit_within, limit_start_within, limited_within, index_within};
ghost use Rattle.smv_expressions.specs.Ranks.{operand_within, link_within, links_within, phrase_within};

use crate::nodes::{
    Link, bounds_of, chain_of, chosen_by, implication_of, one, over_all, range_of, selected_by, two,
};
use crate::ranks::Rank;
use crate::temporal::{
    below, is_step_operator, is_timed_operator, step_token, stepping, timed_by, timed_token, timing,
};
use crate::tokens::{
    begins_limit_start, expression_begins, function_of, function_token, integer_of, is_function,
    is_truth, named_function, named_function_token, names_function, truth_of, word_of,
};
use phrase_forms::Fault;
use smv_phrases::{
    NameStart, Stop, begins, identifier_of, is_kind, just, name_from, opening, place_of,
};
use smv_tree::{Expr, Name, Place, Start, Token, TokenKind};
use smv_value::{FaultRule, Operator};
use sqlite_items::{Boxed, Items};
use std::alloc::Global;

/// Whether no level may be opened.
pub fn is_closed(room: usize) -> bool
    ensures { result ≡ is_zero room }
{
    room == 0
}

/// A name that begins with an identifier, or with `self`; one that may name a function is left out.
fn plain_name<'a>(alloc: Global, tokens: &'a [Token]) -> Result<(Expr, &'a [Token]), Stop<'a>>
    ensures { Gives (λ x. (x.0, x.1.now)) result ((to expr.Name (name_from may.Plain)).parse tokens.now) }
{
    let (name, tokens) = name_from(alloc, NameStart::Plain, tokens)?;
    Ok((Expr::Name(name), tokens))
}

/// `..` integer, behind an integer.
fn range<'a>(
    alloc: Global,
    first: &Token,
    tokens: &'a [Token],
) -> Result<(Expr, &'a [Token]), Stop<'a>>
    ensures { Gives (λ x. (x.0, x.1.now)) result ((to (λ x. range_of (first.now, Some x)) (just kind.DotDot ⨾ just kind.Integer)).parse tokens.now) }
{
    let (dots, tokens) = just(TokenKind::DotDot, tokens)?;
    let (last, tokens) = just(TokenKind::Integer, tokens)?;
    let range = range_of(alloc, first, dots, last)?;
    Ok((range, tokens))
}

/// Integer, or integer `..` integer.
#[tactic(auto, unfolding(crate::specs::Expressions::integers))]
fn integers<'a>(alloc: Global, tokens: &'a [Token]) -> Result<(Expr, &'a [Token]), Stop<'a>>
    ensures { Gives (λ x. (x.0, x.1.now)) result (integers.parse tokens.now) }
{
    let (first, tokens) = just(TokenKind::Integer, tokens)?;
    if begins(TokenKind::DotDot, tokens) {
        range(alloc, first, tokens)
    } else {
        Ok((integer_of(first), tokens))
    }
}

/// `,` expression
#[cycle(expressions)]
fn further<'a>(
    alloc: Global,
    room: usize,
    tokens: &'a [Token],
) -> Result<(Expr, &'a [Token]), Stop<'a>>
    ensures { Gives (λ x. (x.0, x.1.now)) result ((further (expression_within 0 room)).parse tokens.now) }
{
    let (_, tokens) = just(TokenKind::Comma, tokens)?;
    let (more, tokens) = expression(alloc, room, tokens)?;
    Ok((more, tokens))
}

/// Expressions with commas between them.
#[cycle(expressions)]
pub fn listed<'a>(
    alloc: Global,
    room: usize,
    tokens: &'a [Token],
) -> Result<(Items<Expr>, &'a [Token]), Stop<'a>>
    ensures { Gives (λ x. (x.0, x.1.now)) result ((listed (expression_within 0 room)).parse tokens.now) }
{
    let (first, tokens) = expression(alloc, room, tokens)?;
    let mut all = one(alloc, first)?;
    let mut rest = tokens;
    'phrases: while begins(TokenKind::Comma, rest) {
        let (more, after) = further(alloc, room, rest)?;
        all.push(more)?;
        rest = after;
    }
    Ok((all, rest))
}

/// `(` expression `)`: the opening token and the expression.
#[cycle(expressions)]
#[tactic(auto, using(crate::proofs::Levels::under_expression))]
fn parenthesised<'a>(
    alloc: Global,
    room: usize,
    tokens: &'a [Token],
) -> Result<((&'a Token, Expr), &'a [Token]), Stop<'a>>
    ensures { Gives (λ x. ((x.0.0.now, x.0.1), x.1.now)) result ((parenthesised (is_zero room) (under 0 room).expression).parse tokens.now) }
{
    let (parenthesis, tokens) = opening(is_closed(room), TokenKind::LeftParen, tokens)?;
    let (inner, tokens) = expression(alloc, room - 1, tokens)?;
    let (_, tokens) = just(TokenKind::RightParen, tokens)?;
    Ok(((parenthesis, inner), tokens))
}

/// An expression in parentheses.
#[cycle(expressions)]
fn group<'a>(
    alloc: Global,
    room: usize,
    tokens: &'a [Token],
) -> Result<(Expr, &'a [Token]), Stop<'a>>
    ensures { Gives (λ x. (x.0, x.1.now)) result ((to group_of (parenthesised (is_zero room) (under 0 room).expression)).parse tokens.now) }
{
    let ((parenthesis, inner), tokens) = parenthesised(alloc, room, tokens)?;
    let inner = Boxed::new(alloc, inner)?;
    Ok((Expr::Group(parenthesis.place, inner), tokens))
}

/// `{`, expressions with commas between them, and `}`.
#[cycle(expressions)]
#[tactic(auto, using(crate::proofs::Levels::under_listed))]
fn set<'a>(alloc: Global, room: usize, tokens: &'a [Token]) -> Result<(Expr, &'a [Token]), Stop<'a>>
    ensures { Gives (λ x. (x.0, x.1.now)) result ((to set_of (members (is_zero room) (under 0 room).expression)).parse tokens.now) }
{
    let (brace, tokens) = opening(is_closed(room), TokenKind::LeftBrace, tokens)?;
    let (all, tokens) = listed(alloc, room - 1, tokens)?;
    let (_, tokens) = just(TokenKind::RightBrace, tokens)?;
    Ok((over_all(alloc, brace.place, Operator::Members, all), tokens))
}

/// `:` expression `;`
#[cycle(expressions)]
fn branch_value<'a>(
    alloc: Global,
    room: usize,
    tokens: &'a [Token],
) -> Result<(Expr, &'a [Token]), Stop<'a>>
    ensures { Gives (λ x. (x.0, x.1.now)) result ((just kind.Colon ▹ expression_within 0 room ◃ just kind.Semicolon).parse tokens.now) }
{
    let (_, tokens) = just(TokenKind::Colon, tokens)?;
    let (value, tokens) = expression(alloc, room, tokens)?;
    let (_, tokens) = just(TokenKind::Semicolon, tokens)?;
    Ok((value, tokens))
}

/// Expression `:` expression `;`
#[cycle(expressions)]
fn branch<'a>(
    alloc: Global,
    room: usize,
    tokens: &'a [Token],
) -> Result<((Expr, Expr), &'a [Token]), Stop<'a>>
    ensures { Gives (λ x. ((x.0.0, x.0.1), x.1.now)) result ((branch (expression_within 0 room)).parse tokens.now) }
{
    let (condition, tokens) = expression(alloc, room, tokens)?;
    let (value, tokens) = branch_value(alloc, room, tokens)?;
    Ok(((condition, value), tokens))
}

/// Branches: their conditions and values by turns.
#[cycle(expressions)]
fn turns<'a>(
    alloc: Global,
    room: usize,
    tokens: &'a [Token],
) -> Result<(Items<Expr>, &'a [Token]), Stop<'a>>
    ensures { Gives (λ x. (x.0, x.1.now)) result ((turns (expression_within 0 room)).parse tokens.now) }
{
    let ((condition, value), tokens) = branch(alloc, room, tokens)?;
    let mut all = two(alloc, condition, value)?;
    let mut rest = tokens;
    'branches: while expression_begins(rest) {
        let ((condition, value), after) = branch(alloc, room, rest)?;
        let more = two(alloc, condition, value)?;
        all.append(more)?;
        rest = after;
    }
    Ok((all, rest))
}

/// `case`, branches, and `esac`.
#[cycle(expressions)]
#[tactic(auto, using(crate::proofs::Levels::under_turns))]
fn case<'a>(
    alloc: Global,
    room: usize,
    tokens: &'a [Token],
) -> Result<(Expr, &'a [Token]), Stop<'a>>
    ensures { Gives (λ x. (x.0, x.1.now)) result ((to case_of (cases (is_zero room) (under 0 room).expression)).parse tokens.now) }
{
    let (case, tokens) = opening(is_closed(room), TokenKind::Case, tokens)?;
    let (all, tokens) = turns(alloc, room - 1, tokens)?;
    let (_, tokens) = just(TokenKind::Esac, tokens)?;
    let operator = Operator::Choice(FaultRule::CaseOpen);
    Ok((over_all(alloc, case.place, operator, all), tokens))
}

/// What a function is given: `(`, expressions with commas between them, and `)`.
#[cycle(expressions)]
#[tactic(auto, using(crate::proofs::Levels::under_listed))]
fn arguments<'a>(
    alloc: Global,
    room: usize,
    tokens: &'a [Token],
) -> Result<(Items<Expr>, &'a [Token]), Stop<'a>>
    ensures { Gives (λ x. (x.0, x.1.now)) result ((arguments (is_zero room) (under 0 room).expression).parse tokens.now) }
{
    let (_, tokens) = opening(is_closed(room), TokenKind::LeftParen, tokens)?;
    let (all, tokens) = listed(alloc, room - 1, tokens)?;
    let (_, tokens) = just(TokenKind::RightParen, tokens)?;
    Ok((all, tokens))
}

/// A function whose name is a reserved word, and what it is given.
#[cycle(expressions)]
fn call<'a>(
    alloc: Global,
    room: usize,
    tokens: &'a [Token],
) -> Result<(Expr, &'a [Token]), Stop<'a>>
    ensures { Gives (λ x. (x.0, x.1.now)) result ((to call_of (token false is_function ⨾ arguments (is_zero room) (under 0 room).expression)).parse tokens.now) }
{
    let (word, tokens) = function_token(tokens)?;
    let (given, tokens) = arguments(alloc, room, tokens)?;
    let function = function_of(word.kind).unwrap_or(Operator::Not);
    Ok((over_all(alloc, word.place, function, given), tokens))
}

/// A word that names a function before `(`: the function and what it is given, or a name.
#[cycle(expressions)]
#[tactic(auto, unfolding(crate::specs::Expressions::function_or_name))]
fn function_or_name<'a>(
    alloc: Global,
    room: usize,
    tokens: &'a [Token],
) -> Result<(Expr, &'a [Token]), Stop<'a>>
    ensures { Gives (λ x. (x.0, x.1.now)) result ((function_or_name (is_zero room) (under 0 room).expression).parse tokens.now) }
{
    let (word, tokens) = named_function_token(tokens)?;
    if begins(TokenKind::LeftParen, tokens) {
        let (given, tokens) = arguments(alloc, room, tokens)?;
        let function = named_function(word.kind).unwrap_or(Operator::Not);
        return Ok((over_all(alloc, word.place, function, given), tokens));
    }
    let (members, tokens) = smv_phrases::members(alloc, tokens)?;
    let start = Start::Own(identifier_of(alloc, word)?);
    Ok((Expr::Name(Name { start, members }), tokens))
}

/// `next` `(` expression `)`, or a function whose name is a reserved word and what it is given.
#[cycle(expressions)]
#[tactic(auto, unfolding(crate::specs::Expressions::next_or_call))]
fn next_or_call<'a>(
    alloc: Global,
    room: usize,
    tokens: &'a [Token],
) -> Result<(Expr, &'a [Token]), Stop<'a>>
    ensures { Gives (λ x. (x.0, x.1.now)) result ((next_or_call (is_zero room) (under 0 room).expression).parse tokens.now) }
{
    if !begins(TokenKind::Next, tokens) {
        return call(alloc, room, tokens);
    }
    let (next, tokens) = just(TokenKind::Next, tokens)?;
    let ((_, inner), tokens) = parenthesised(alloc, room, tokens)?;
    let inner = Boxed::new(alloc, inner)?;
    Ok((Expr::Next(next.place, inner), tokens))
}

/// A primary expression in brackets, between `case` and `esac`, behind `next` or behind a function.
#[cycle(expressions)]
#[tactic(auto, unfolding(crate::specs::Expressions::compound))]
fn compound<'a>(
    alloc: Global,
    room: usize,
    tokens: &'a [Token],
) -> Result<(Expr, &'a [Token]), Stop<'a>>
    ensures { Gives (λ x. (x.0, x.1.now)) result ((compound (is_zero room) (under 0 room).expression).parse tokens.now) }
{
    match tokens {
        [first, ..] if is_kind(TokenKind::LeftParen, first) => group(alloc, room, tokens),
        [first, ..] if is_kind(TokenKind::LeftBrace, first) => set(alloc, room, tokens),
        [first, ..] if is_kind(TokenKind::Case, first) => case(alloc, room, tokens),
        _ => next_or_call(alloc, room, tokens),
    }
}

/// A constant, a name, a function and what it is given, or an expression between words or brackets.
#[cycle(expressions)]
#[tactic(auto, unfolding(crate::specs::Expressions::primary, crate::specs::Expressions::integers, crate::specs::Expressions::function_or_name, smv_phrases::specs::Names::name_from))]
fn primary<'a>(
    alloc: Global,
    room: usize,
    tokens: &'a [Token],
) -> Result<(Expr, &'a [Token]), Stop<'a>>
    ensures { Gives (λ x. (x.0, x.1.now)) result ((primary (is_zero room) (under 0 room)).parse tokens.now) }
{
    match tokens {
        [first, rest @ ..] if is_truth(first) => Ok((truth_of(first), rest)),
        [first, ..] if is_kind(TokenKind::Integer, first) => integers(alloc, tokens),
        [first, rest @ ..] if is_kind(TokenKind::WordConstant, first) => {
            Ok((word_of(first), rest))
        }
        [first, ..] if names_function(first) => function_or_name(alloc, room, tokens),
        [first, ..] if NameStart::Plain.may_be(first) => plain_name(alloc, tokens),
        _ => compound(alloc, room, tokens),
    }
}

/// `:` expression, or nothing.
#[cycle(expressions)]
#[tactic(auto, unfolding(crate::specs::Expressions::expression_within))]
fn low<'a>(
    alloc: Global,
    room: usize,
    tokens: &'a [Token],
) -> Result<(Option<Expr>, &'a [Token]), Stop<'a>>
    ensures { Gives (λ x. (x.0, x.1.now)) result ((maybe (just kind.Colon ▹ expression_within 0 room)).parse tokens.now) }
{
    if !begins(TokenKind::Colon, tokens) {
        return Ok((None, tokens));
    }
    let (_, tokens) = just(TokenKind::Colon, tokens)?;
    let (low, tokens) = expression(alloc, room, tokens)?;
    Ok((Some(low), tokens))
}

/// `:` expression, or nothing; and `]`.
#[cycle(expressions)]
fn selection_end<'a>(
    alloc: Global,
    room: usize,
    tokens: &'a [Token],
) -> Result<(Option<Expr>, &'a [Token]), Stop<'a>>
    ensures { Gives (λ x. (x.0, x.1.now)) result ((maybe (just kind.Colon ▹ expression_within 0 room) ◃ just kind.RightBracket).parse tokens.now) }
{
    let (low, tokens) = low(alloc, room, tokens)?;
    let (_, tokens) = just(TokenKind::RightBracket, tokens)?;
    Ok((low, tokens))
}

/// Expression, `:` expression or nothing, and `]`.
#[cycle(expressions)]
fn selection_inner<'a>(
    alloc: Global,
    room: usize,
    tokens: &'a [Token],
) -> Result<((Expr, Option<Expr>), &'a [Token]), Stop<'a>>
    ensures { Gives (λ x. ((x.0.0, x.0.1), x.1.now)) result ((expression_within 0 room ⨾ maybe (just kind.Colon ▹ expression_within 0 room) ◃ just kind.RightBracket).parse tokens.now) }
{
    let (first, tokens) = expression(alloc, room, tokens)?;
    let (second, tokens) = selection_end(alloc, room, tokens)?;
    Ok(((first, second), tokens))
}

/// `[` expression `]`, or `[` expression `:` expression `]`: the opening token and the expressions.
#[cycle(expressions)]
fn selection<'a>(
    alloc: Global,
    room: usize,
    tokens: &'a [Token],
) -> Result<((&'a Token, Expr, Option<Expr>), &'a [Token]), Stop<'a>>
    ensures { Gives (λ x. ((x.0.0.now, (x.0.1, x.0.2)), x.1.now)) result ((selection (is_zero room) (under 0 room).expression).parse tokens.now) }
{
    let (bracket, tokens) = opening(is_closed(room), TokenKind::LeftBracket, tokens)?;
    let ((first, second), tokens) = selection_inner(alloc, room - 1, tokens)?;
    Ok(((bracket, first, second), tokens))
}

/// What is selected of this expression between `[` and `]`.
#[cycle(expressions)]
fn selected_part<'a>(
    alloc: Global,
    room: usize,
    whole: Expr,
    tokens: &'a [Token],
) -> Result<(Expr, &'a [Token]), Stop<'a>>
    ensures { Gives (λ x. (x.0, x.1.now)) result ((to (selected_by whole) (selection (is_zero room) (under 0 room).expression)).parse tokens.now) }
{
    let ((bracket, first, second), tokens) = selection(alloc, room, tokens)?;
    let selected = selected_by(alloc, whole, bracket, first, second)?;
    Ok((selected, tokens))
}

// So many selections may stand in a row, as `w[7:4][1:0]` has two; of more the nodes would stand too deep one in
// another.
const MOST_SELECTIONS: usize = 2000;

/// A primary expression, and what is selected of it. More than 2000 selections in a row are answered as out of memory.
#[cycle(expressions)]
#[tactic(auto, unfolding(crate::specs::Expressions::selected))]
fn selected<'a>(
    alloc: Global,
    room: usize,
    tokens: &'a [Token],
) -> Result<(Expr, &'a [Token]), Stop<'a>>
    ensures { Gives (λ x. (x.0, x.1.now)) result ((selected (is_zero room) (under 0 room)).parse tokens.now) }
{
    let (primary, tokens) = primary(alloc, room, tokens)?;
    let mut whole = primary;
    let mut rest = tokens;
    let mut count = 0;
    'selections: while begins(TokenKind::LeftBracket, rest) {
        if count >= MOST_SELECTIONS {
            return Err(Stop::NoMemory);
        }
        count += 1;
        let (more, after) = selected_part(alloc, room, whole, rest)?;
        whole = more;
        rest = after;
    }
    Ok((whole, rest))
}

/// `!` inverted, or a primary expression and what is selected of it.
#[cycle(expressions)]
#[tactic(auto, using(crate::proofs::Levels::under_inverted), unfolding(crate::specs::Expressions::inverted))]
fn inverted<'a>(
    alloc: Global,
    room: usize,
    tokens: &'a [Token],
) -> Result<(Expr, &'a [Token]), Stop<'a>>
    ensures { Gives (λ x. (x.0, x.1.now)) result ((inverted (is_zero room) (under 0 room)).parse tokens.now) }
{
    if !begins(TokenKind::Not, tokens) {
        return selected(alloc, room, tokens);
    }
    let (not, tokens) = opening(is_closed(room), TokenKind::Not, tokens)?;
    let (inner, tokens) = inverted(alloc, room - 1, tokens)?;
    let whole = below(alloc, not.place, Operator::Not, inner)?;
    Ok((whole, tokens))
}

/// `-` negation
#[cycle(expressions)]
#[tactic(auto, using(crate::proofs::Levels::under_negation))]
fn negated<'a>(
    alloc: Global,
    room: usize,
    tokens: &'a [Token],
) -> Result<(Expr, &'a [Token]), Stop<'a>>
    ensures { Gives (λ x. (x.0, x.1.now)) result ((negated (is_zero room) (under 0 room)).parse tokens.now) }
{
    let (minus, tokens) = opening(is_closed(room), TokenKind::Minus, tokens)?;
    let (inner, tokens) = negation(alloc, room - 1, tokens)?;
    let whole = below(alloc, minus.place, Operator::Negate, inner)?;
    Ok((whole, tokens))
}

/// `-` negation, or words that are joined.
#[cycle(expressions)]
#[tactic(auto, unfolding(crate::specs::Expressions::negation, crate::specs::Expressions::concatenation, crate::specs::Ranks::phrase_within, crate::specs::Ranks::operand_within))]
fn negation<'a>(
    alloc: Global,
    room: usize,
    tokens: &'a [Token],
) -> Result<(Expr, &'a [Token]), Stop<'a>>
    ensures { Gives (λ x. (x.0, x.1.now)) result ((negation (is_zero room) (under 0 room)).parse tokens.now) }
{
    if begins(TokenKind::Minus, tokens) {
        negated(alloc, room, tokens)
    } else {
        phrase_of(alloc, Rank::Concatenation, room, tokens)
    }
}

/// `!` and what it denies.
#[cycle(expressions)]
#[tactic(auto, using(crate::proofs::Levels::under_denied))]
fn denied_again<'a>(
    alloc: Global,
    room: usize,
    tokens: &'a [Token],
) -> Result<((bool, Expr), &'a [Token]), Stop<'a>>
    ensures { Gives (λ x. ((x.0.0, x.0.1), x.1.now)) result ((to denied_again (opening (is_zero room) kind.Not ⨾ (under 0 room).denied)).parse tokens.now) }
{
    let (not, tokens) = opening(is_closed(room), TokenKind::Not, tokens)?;
    let ((temporal, inner), tokens) = denied(alloc, room - 1, tokens)?;
    let whole = below(alloc, not.place, Operator::Not, inner)?;
    Ok(((temporal, whole), tokens))
}

/// `X`, `Y` or `Z` and its operand.
#[cycle(expressions)]
#[tactic(auto, using(crate::proofs::Levels::under_temporal))]
fn stepped<'a>(
    alloc: Global,
    room: usize,
    tokens: &'a [Token],
) -> Result<((bool, Expr), &'a [Token]), Stop<'a>>
    ensures { Gives (λ x. ((x.0.0, x.0.1), x.1.now)) result ((to stepped (token (is_zero room) is_step_operator ⨾ (under 0 room).temporal)).parse tokens.now) }
{
    let (first, tokens) = step_token(is_closed(room), tokens)?;
    let (inner, tokens) = temporal(alloc, room - 1, tokens)?;
    let operator = Operator::Temporal(stepping(first.kind));
    let whole = below(alloc, first.place, operator, inner)?;
    Ok(((true, whole), tokens))
}

/// `F`, `G`, `O` or `H`, its bounds, if it has some, and its operand.
#[cycle(expressions)]
#[tactic(auto, using(crate::proofs::Levels::under_timed))]
fn timed_of<'a>(
    alloc: Global,
    room: usize,
    tokens: &'a [Token],
) -> Result<((bool, Expr), &'a [Token]), Stop<'a>>
    ensures { Gives (λ x. ((x.0.0, x.0.1), x.1.now)) result ((to timed_of (token (is_zero room) is_timed_operator ⨾ (under 0 room).timed)).parse tokens.now) }
{
    let (first, tokens) = timed_token(is_closed(room), tokens)?;
    let ((bounds, inner), tokens) = timed(alloc, room - 1, tokens)?;
    let whole = timed_by(alloc, first.place, timing(first.kind), bounds, inner)?;
    Ok(((true, whole), tokens))
}

/// What `!` may deny: a temporal operator and its operand, or a primary expression and what is selected of it.
#[cycle(expressions)]
#[tactic(auto, unfolding(crate::specs::Expressions::denied))]
fn denied<'a>(
    alloc: Global,
    room: usize,
    tokens: &'a [Token],
) -> Result<((bool, Expr), &'a [Token]), Stop<'a>>
    ensures { Gives (λ x. ((x.0.0, x.0.1), x.1.now)) result ((denied (is_zero room) (under 0 room)).parse tokens.now) }
{
    match tokens {
        [first, ..] if is_kind(TokenKind::Not, first) => denied_again(alloc, room, tokens),
        [first, ..] if is_step_operator(first) => stepped(alloc, room, tokens),
        [first, ..] if is_timed_operator(first) => timed_of(alloc, room, tokens),
        _ => {
            let (plain, tokens) = selected(alloc, room, tokens)?;
            Ok(((false, plain), tokens))
        }
    }
}

/// A negation, and what makes it a relation.
#[cycle(expressions)]
#[tactic(auto, using(crate::proofs::Linked::compared_reads))]
fn compared<'a>(
    alloc: Global,
    room: usize,
    first: Expr,
    tokens: &'a [Token],
) -> Result<(Expr, &'a [Token]), Stop<'a>>
    ensures { Gives (λ x. (x.0, x.1.now)) result ((to (chained first) (compared (is_zero room) (under 0 room))).parse tokens.now) }
{
    let (product, tokens) = linked(alloc, Rank::Product, room, first, tokens)?;
    let (sum, tokens) = linked(alloc, Rank::Sum, room, product, tokens)?;
    let (shifted, tokens) = linked(alloc, Rank::Shift, room, sum, tokens)?;
    let (union, tokens) = linked(alloc, Rank::Union, room, shifted, tokens)?;
    let (membership, tokens) = linked(alloc, Rank::Membership, room, union, tokens)?;
    linked(alloc, Rank::Relation, room, membership, tokens)
}

/// An operand of temporal operators: `!` is over a temporal operator as a whole, and over the first operand of a
/// relation.
#[cycle(expressions)]
#[tactic(auto, using(crate::proofs::Temporals::temporal_reads))]
fn temporal<'a>(
    alloc: Global,
    room: usize,
    tokens: &'a [Token],
) -> Result<(Expr, &'a [Token]), Stop<'a>>
    ensures { Gives (λ x. (x.0, x.1.now)) result ((temporal (is_zero room) (under 0 room)).parse tokens.now) }
{
    if begins(TokenKind::Minus, tokens) {
        let (first, tokens) = negated(alloc, room, tokens)?;
        return compared(alloc, room, first, tokens);
    }
    let ((is_temporal, first), tokens) = denied(alloc, room, tokens)?;
    if is_temporal {
        return Ok((first, tokens));
    }
    let (first, tokens) = linked(alloc, Rank::Concatenation, room, first, tokens)?;
    compared(alloc, room, first, tokens)
}

/// `,` limit `]`
#[cycle(expressions)]
fn upper_bound<'a>(
    alloc: Global,
    room: usize,
    tokens: &'a [Token],
) -> Result<(Expr, &'a [Token]), Stop<'a>>
    ensures { Gives (λ x. (x.0, x.1.now)) result ((just kind.Comma ▹ limit_within 0 room ◃ just kind.RightBracket).parse tokens.now) }
{
    let (_, tokens) = just(TokenKind::Comma, tokens)?;
    let (high, tokens) = limit(alloc, room, tokens)?;
    let (_, tokens) = just(TokenKind::RightBracket, tokens)?;
    Ok((high, tokens))
}

/// Limit `,` limit `]`
#[cycle(expressions)]
fn bounds_end<'a>(
    alloc: Global,
    room: usize,
    tokens: &'a [Token],
) -> Result<((Expr, Expr), &'a [Token]), Stop<'a>>
    ensures { Gives (λ x. ((x.0.0, x.0.1), x.1.now)) result ((bounds_end (limit_within 0 room)).parse tokens.now) }
{
    let (low, tokens) = limit(alloc, room, tokens)?;
    let (high, tokens) = upper_bound(alloc, room, tokens)?;
    Ok(((low, high), tokens))
}

/// `[` limit `,` limit `]`
#[cycle(expressions)]
#[tactic(auto, using(crate::proofs::Levels::under_bounds_end), unfolding(crate::specs::Expressions::bounds))]
fn bounds<'a>(
    alloc: Global,
    room: usize,
    tokens: &'a [Token],
) -> Result<((Expr, Expr), &'a [Token]), Stop<'a>>
    ensures { Gives (λ x. ((x.0.0, x.0.1), x.1.now)) result ((bounds (is_zero room) (under 0 room)).parse tokens.now) }
{
    let (bracket, tokens) = opening(is_closed(room), TokenKind::LeftBracket, tokens)?;
    let (bounds, tokens) = bounds_end(alloc, room - 1, tokens)?;
    let bounds = bounds_of(alloc, bracket, bounds)?;
    Ok((bounds, tokens))
}

/// Bounds, or nothing.
#[cycle(expressions)]
#[tactic(auto, unfolding(crate::specs::Expressions::bounds))]
fn maybe_bounds<'a>(
    alloc: Global,
    room: usize,
    tokens: &'a [Token],
) -> Result<(Option<(Expr, Expr)>, &'a [Token]), Stop<'a>>
    ensures { Gives (λ x. (x.0, x.1.now)) result ((maybe (bounds (is_zero room) (under 0 room))).parse tokens.now) }
{
    if !begins(TokenKind::LeftBracket, tokens) {
        return Ok((None, tokens));
    }
    let (bounds, tokens) = bounds(alloc, room, tokens)?;
    Ok((Some(bounds), tokens))
}

/// Bounds, if there are some, and an operand.
#[cycle(expressions)]
#[tactic(auto, unfolding(crate::specs::Expressions::timed))]
fn timed<'a>(
    alloc: Global,
    room: usize,
    tokens: &'a [Token],
) -> Result<((Option<(Expr, Expr)>, Expr), &'a [Token]), Stop<'a>>
    ensures { Gives (λ x. ((x.0.0, x.0.1), x.1.now)) result ((timed (is_zero room) (under 0 room)).parse tokens.now) }
{
    let (bounds, tokens) = maybe_bounds(alloc, room, tokens)?;
    let (operand, tokens) = temporal(alloc, room, tokens)?;
    Ok(((bounds, operand), tokens))
}

/// An operand of the rank: a phrase of the rank below, or of a level that stands between the two.
#[cycle(expressions)]
#[tactic(auto, unfolding(crate::specs::Ranks::operand_within, crate::specs::Ranks::phrase_within, crate::specs::Expressions::product, crate::specs::Expressions::sum, crate::specs::Expressions::shifted, crate::specs::Expressions::union, crate::specs::Expressions::membership, crate::specs::Expressions::connection, crate::specs::Expressions::conjunction, crate::specs::Expressions::limit_product))]
fn operand_of<'a>(
    alloc: Global,
    rank: Rank,
    room: usize,
    tokens: &'a [Token],
) -> Result<(Expr, &'a [Token]), Stop<'a>>
    ensures { Gives (λ x. (x.0, x.1.now)) result ((operand_within rank room).parse tokens.now) }
{
    match rank {
        Rank::Concatenation => inverted(alloc, room, tokens),
        Rank::Product => negation(alloc, room, tokens),
        Rank::Sum => phrase_of(alloc, Rank::Product, room, tokens),
        Rank::Shift => phrase_of(alloc, Rank::Sum, room, tokens),
        Rank::Union => phrase_of(alloc, Rank::Shift, room, tokens),
        Rank::Membership => phrase_of(alloc, Rank::Union, room, tokens),
        Rank::Relation => phrase_of(alloc, Rank::Membership, room, tokens),
        Rank::Connection => temporal(alloc, room, tokens),
        Rank::Conjunction => phrase_of(alloc, Rank::Connection, room, tokens),
        Rank::Disjunction => phrase_of(alloc, Rank::Conjunction, room, tokens),
        Rank::Equivalence => conditional(alloc, room, tokens),
        Rank::LimitProduct => limit_negation(alloc, room, tokens),
        Rank::LimitSum => phrase_of(alloc, Rank::LimitProduct, room, tokens),
    }
}

/// An operator of the rank and its right operand.
#[cycle(expressions)]
#[tactic(auto, unfolding(crate::specs::Ranks::link_within))]
fn link<'a>(
    alloc: Global,
    rank: Rank,
    room: usize,
    tokens: &'a [Token],
) -> Result<(Link, &'a [Token]), Stop<'a>>
    ensures { Gives (λ x. (x.0, x.1.now)) result ((link_within rank room).parse tokens.now) }
{
    let ((place, operator), tokens) = rank.operator(tokens)?;
    let (right, tokens) = operand_of(alloc, rank, room, tokens)?;
    Ok(((place, operator, right), tokens))
}

/// Any number of operators of the rank and their right operands.
#[cycle(expressions)]
#[tactic(auto, using(crate::proofs::Links::link_shorter))]
fn links<'a>(
    alloc: Global,
    rank: Rank,
    room: usize,
    tokens: &'a [Token],
) -> Result<(Items<Link>, &'a [Token]), Stop<'a>>
    ensures { Gives (λ x. (x.0, x.1.now)) result ((links_within rank room).parse tokens.now) }
{
    let mut links = Items::new(alloc);
    let mut rest = tokens;
    'links: while rank.goes_on(rest) {
        let (link, after) = link(alloc, rank, room, rest)?;
        links.push(link)?;
        rest = after;
    }
    Ok((links, rest))
}

/// This operand of the rank, and any number more behind its operators.
#[cycle(expressions)]
fn linked<'a>(
    alloc: Global,
    rank: Rank,
    room: usize,
    first: Expr,
    tokens: &'a [Token],
) -> Result<(Expr, &'a [Token]), Stop<'a>>
    ensures { Gives (λ x. (x.0, x.1.now)) result ((to (chain_of first) (links_within rank room)).parse tokens.now) }
{
    let (links, tokens) = links(alloc, rank, room, tokens)?;
    let whole = chain_of(alloc, first, links)?;
    Ok((whole, tokens))
}

/// An operand of the rank, and any number more behind its operators.
#[cycle(expressions)]
#[tactic(auto, using(crate::proofs::Linked::phrase_reads))]
fn phrase_of<'a>(
    alloc: Global,
    rank: Rank,
    room: usize,
    tokens: &'a [Token],
) -> Result<(Expr, &'a [Token]), Stop<'a>>
    ensures { Gives (λ x. (x.0, x.1.now)) result ((phrase_within rank room).parse tokens.now) }
{
    let (first, tokens) = operand_of(alloc, rank, room, tokens)?;
    linked(alloc, rank, room, first, tokens)
}

/// `:` conditional
#[cycle(expressions)]
fn otherwise<'a>(
    alloc: Global,
    room: usize,
    tokens: &'a [Token],
) -> Result<(Expr, &'a [Token]), Stop<'a>>
    ensures { Gives (λ x. (x.0, x.1.now)) result ((just kind.Colon ▹ conditional (is_zero room) (under 0 room)).parse tokens.now) }
{
    let (_, tokens) = just(TokenKind::Colon, tokens)?;
    let (second, tokens) = conditional(alloc, room, tokens)?;
    Ok((second, tokens))
}

/// Expression `:` conditional
#[cycle(expressions)]
fn choices_inner<'a>(
    alloc: Global,
    room: usize,
    tokens: &'a [Token],
) -> Result<((Expr, Expr), &'a [Token]), Stop<'a>>
    ensures { Gives (λ x. ((x.0.0, x.0.1), x.1.now)) result ((expression_within 0 room ⨾ just kind.Colon ▹ conditional (is_zero room) (under 0 room)).parse tokens.now) }
{
    let (first, tokens) = expression(alloc, room, tokens)?;
    let (second, tokens) = otherwise(alloc, room, tokens)?;
    Ok(((first, second), tokens))
}

/// `?` expression `:` conditional
#[cycle(expressions)]
fn choices<'a>(
    alloc: Global,
    room: usize,
    tokens: &'a [Token],
) -> Result<((&'a Token, Expr, Expr), &'a [Token]), Stop<'a>>
    ensures { Gives (λ x. ((x.0.0.now, (x.0.1, x.0.2)), x.1.now)) result ((choices (is_zero room) (under 0 room)).parse tokens.now) }
{
    let (question, tokens) = opening(is_closed(room), TokenKind::Question, tokens)?;
    let ((first, second), tokens) = choices_inner(alloc, room - 1, tokens)?;
    Ok(((question, first, second), tokens))
}

/// The branches of this condition.
#[cycle(expressions)]
fn chosen<'a>(
    alloc: Global,
    room: usize,
    condition: Expr,
    tokens: &'a [Token],
) -> Result<(Expr, &'a [Token]), Stop<'a>>
    ensures { Gives (λ x. (x.0, x.1.now)) result ((to (chosen_by condition) (choices (is_zero room) (under 0 room))).parse tokens.now) }
{
    let ((question, first, second), tokens) = choices(alloc, room, tokens)?;
    let chosen = chosen_by(alloc, condition, question, first, second)?;
    Ok((chosen, tokens))
}

/// A condition, and its branches where a `?` stands behind it.
#[cycle(expressions)]
#[tactic(auto, using(crate::proofs::Conditionals::conditional_reads))]
fn conditional<'a>(
    alloc: Global,
    room: usize,
    tokens: &'a [Token],
) -> Result<(Expr, &'a [Token]), Stop<'a>>
    ensures { Gives (λ x. (x.0, x.1.now)) result ((conditional (is_zero room) (under 0 room)).parse tokens.now) }
{
    let (condition, tokens) = phrase_of(alloc, Rank::Disjunction, room, tokens)?;
    if begins(TokenKind::Question, tokens) {
        chosen(alloc, room, condition, tokens)
    } else {
        Ok((condition, tokens))
    }
}

/// `->` expression: the arrow and the expression.
#[cycle(expressions)]
fn right_side<'a>(
    alloc: Global,
    room: usize,
    tokens: &'a [Token],
) -> Result<((&'a Token, Expr), &'a [Token]), Stop<'a>>
    ensures { Gives (λ x. ((x.0.0.now, x.0.1), x.1.now)) result ((opening (is_zero room) kind.Implies ⨾ (under 0 room).expression).parse tokens.now) }
{
    let (arrow, tokens) = opening(is_closed(room), TokenKind::Implies, tokens)?;
    let (right, tokens) = expression(alloc, room - 1, tokens)?;
    Ok(((arrow, right), tokens))
}

/// What this left side implies.
#[cycle(expressions)]
fn implied<'a>(
    alloc: Global,
    room: usize,
    left: Expr,
    tokens: &'a [Token],
) -> Result<(Expr, &'a [Token]), Stop<'a>>
    ensures { Gives (λ x. (x.0, x.1.now)) result ((to (λ x. implication_of (left, Some x)) (opening (is_zero room) kind.Implies ⨾ (under 0 room).expression)).parse tokens.now) }
{
    let ((arrow, right), tokens) = right_side(alloc, room, tokens)?;
    let whole = implication_of(alloc, left, arrow, right)?;
    Ok((whole, tokens))
}

/// The expression at the front of the tokens, and the tokens behind it (NuSMV 2.6 User Manual, 2.2, Expressions). At
/// most `room` levels are open at one place in it: each `(`, `[`, `{`, `case`, `!` and unary `-`, each temporal
/// operator with one operand, what stands behind each `?` and the right side of each `->` opens one, so `? :` and `->`
/// associate to the right.
///
/// It is refused as unexpected from the first token with which the tokens no longer begin an expression, or from their
/// end; as too deep from the first token that opens a level too many. Memory may be refused at any time.
#[cycle(expressions)]
#[tactic(auto, using(crate::proofs::Levels::expression_reads))]
pub fn expression<'a>(
    alloc: Global,
    room: usize,
    tokens: &'a [Token],
) -> Result<(Expr, &'a [Token]), Stop<'a>>
    ensures { Gives (λ x. (x.0, x.1.now)) result ((expression_within 0 room).parse tokens.now) }
{
    let (left, tokens) = phrase_of(alloc, Rank::Equivalence, room, tokens)?;
    if begins(TokenKind::Implies, tokens) {
        implied(alloc, room, left, tokens)
    } else {
        Ok((left, tokens))
    }
}

/// `-` and the limit that it negates, and its place.
#[cycle(expressions)]
#[tactic(auto, using(crate::proofs::Levels::under_limit_negation))]
fn limit_negated<'a>(
    alloc: Global,
    room: usize,
    tokens: &'a [Token],
) -> Result<((Place, Expr), &'a [Token]), Stop<'a>>
    ensures { Gives (λ x. ((x.0.0, x.0.1), x.1.now)) result ((to placed_minus (opening (is_zero room) kind.Minus ⨾ (under 0 room).limit_negation)).parse tokens.now) }
{
    let (minus, tokens) = opening(is_closed(room), TokenKind::Minus, tokens)?;
    let (inner, tokens) = limit_negation(alloc, room - 1, tokens)?;
    let whole = below(alloc, minus.place, Operator::Negate, inner)?;
    Ok(((minus.place, whole), tokens))
}

/// `(` limit `)`: the opening token and the limit.
#[cycle(expressions)]
#[tactic(auto, using(crate::proofs::Levels::under_limit))]
fn limit_parenthesised<'a>(
    alloc: Global,
    room: usize,
    tokens: &'a [Token],
) -> Result<((&'a Token, Expr), &'a [Token]), Stop<'a>>
    ensures { Gives (λ x. ((x.0.0.now, x.0.1), x.1.now)) result ((parenthesised (is_zero room) (under 0 room).limit).parse tokens.now) }
{
    let (parenthesis, tokens) = opening(is_closed(room), TokenKind::LeftParen, tokens)?;
    let (inner, tokens) = limit(alloc, room - 1, tokens)?;
    let (_, tokens) = just(TokenKind::RightParen, tokens)?;
    Ok(((parenthesis, inner), tokens))
}

/// `(` limit `)`, and its place.
#[cycle(expressions)]
fn limit_group<'a>(
    alloc: Global,
    room: usize,
    tokens: &'a [Token],
) -> Result<((Place, Expr), &'a [Token]), Stop<'a>>
    ensures { Gives (λ x. ((x.0.0, x.0.1), x.1.now)) result ((to placed_group (parenthesised (is_zero room) (under 0 room).limit)).parse tokens.now) }
{
    let ((parenthesis, inner), tokens) = limit_parenthesised(alloc, room, tokens)?;
    let inner = Boxed::new(alloc, inner)?;
    let group = Expr::Group(parenthesis.place, inner);
    Ok(((parenthesis.place, group), tokens))
}

/// The first operand of a limit that begins with no name of the module's own, and its place: `-` and what it negates,
/// an integer, `(` limit `)`, or a name that begins with `self`. At most `room` levels are open at one place in it.
#[cycle(expressions)]
#[tactic(auto, unfolding(crate::specs::Expressions::limit_start, crate::specs::Expressions::limit_start_within))]
pub fn limit_start<'a>(
    alloc: Global,
    room: usize,
    tokens: &'a [Token],
) -> Result<((Place, Expr), &'a [Token]), Stop<'a>>
    ensures { Gives (λ x. ((x.0.0, x.0.1), x.1.now)) result ((limit_start_within 0 room).parse tokens.now) }
{
    match tokens {
        [first, ..] if is_kind(TokenKind::Minus, first) => limit_negated(alloc, room, tokens),
        [first, rest @ ..] if is_kind(TokenKind::Integer, first) => {
            Ok(((first.place, integer_of(first)), rest))
        }
        [first, ..] if is_kind(TokenKind::LeftParen, first) => limit_group(alloc, room, tokens),
        _ => {
            let (name, tokens) = name_from(alloc, NameStart::Itself, tokens)?;
            Ok(((place_of(&name), Expr::Name(name)), tokens))
        }
    }
}

/// One operand of a limit: a name, or one that begins with none.
#[cycle(expressions)]
#[tactic(auto, unfolding(crate::specs::Expressions::limit_negation, crate::specs::Expressions::limit_start, crate::specs::Expressions::limit_start_within, smv_phrases::specs::Names::name_from))]
fn limit_negation<'a>(
    alloc: Global,
    room: usize,
    tokens: &'a [Token],
) -> Result<(Expr, &'a [Token]), Stop<'a>>
    ensures { Gives (λ x. (x.0, x.1.now)) result ((limit_negation (is_zero room) (under 0 room)).parse tokens.now) }
{
    match tokens {
        [first, ..] if begins_limit_start(first) => {
            let ((_, start), tokens) = limit_start(alloc, room, tokens)?;
            Ok((start, tokens))
        }
        _ => {
            let (name, tokens) = name_from(alloc, NameStart::Own, tokens)?;
            Ok((Expr::Name(name), tokens))
        }
    }
}

/// The limit of a type at the front of the tokens, an end of a range or a width, and the tokens behind it: sums of
/// products of integers and names, with `-` and parentheses. At most `room` levels are open at one place in it.
#[cycle(expressions)]
#[tactic(auto, using(crate::proofs::Levels::limit_reads))]
pub fn limit<'a>(
    alloc: Global,
    room: usize,
    tokens: &'a [Token],
) -> Result<(Expr, &'a [Token]), Stop<'a>>
    ensures { Gives (λ x. (x.0, x.1.now)) result ((limit_within 0 room).parse tokens.now) }
{
    phrase_of(alloc, Rank::LimitSum, room, tokens)
}

/// The limit whose first operand was read, and the tokens behind it.
#[tactic(auto, using(crate::proofs::Linked::limited_reads))]
pub fn limited<'a>(
    alloc: Global,
    room: usize,
    first: Expr,
    tokens: &'a [Token],
) -> Result<(Expr, &'a [Token]), Stop<'a>>
    ensures { Gives (λ x. (x.0, x.1.now)) result ((to (chained first) (limited_within 0 room)).parse tokens.now) }
{
    let (product, tokens) = linked(alloc, Rank::LimitProduct, room, first, tokens)?;
    linked(alloc, Rank::LimitSum, room, product, tokens)
}

/// `[` expression `]`: the opening token and the expression.
#[tactic(auto, using(crate::proofs::Levels::under_expression))]
fn index<'a>(
    alloc: Global,
    room: usize,
    tokens: &'a [Token],
) -> Result<((&'a Token, Expr), &'a [Token]), Stop<'a>>
    ensures { Gives (λ x. ((x.0.0.now, x.0.1), x.1.now)) result ((opening (is_zero room) kind.LeftBracket ⨾ (under 0 room).expression ◃ just kind.RightBracket).parse tokens.now) }
{
    let (bracket, tokens) = opening(is_closed(room), TokenKind::LeftBracket, tokens)?;
    let (index, tokens) = expression(alloc, room - 1, tokens)?;
    let (_, tokens) = just(TokenKind::RightBracket, tokens)?;
    Ok(((bracket, index), tokens))
}

/// The part of an array at an index: `[` expression `]` behind what is read already. At most `room` levels are open at
/// one place, that of the bracket among them.
#[tactic(auto, unfolding(crate::specs::Expressions::index_within))]
pub fn indexed<'a>(
    alloc: Global,
    room: usize,
    whole: Expr,
    tokens: &'a [Token],
) -> Result<(Expr, &'a [Token]), Stop<'a>>
    ensures { Gives (λ x. (x.0, x.1.now)) result ((to (selected_by whole) (index_within 0 room)).parse tokens.now) }
{
    let ((bracket, index), tokens) = index(alloc, room, tokens)?;
    let part = selected_by(alloc, whole, bracket, index, None)?;
    Ok((part, tokens))
}
