//! Tokens and refusals of small texts; what stands here was written down from the rules and not from what the code
//! answers.

use smv_text::tokens;
use smv_tree::TokenKind::*;
use smv_tree::{Place, Rule, TextStop, Token, TokenKind};
use std::alloc::Global;
use std::test::Fail;

// Whether the tokens are of these kinds.
fn are_of(tokens: &[Token], kinds: &[TokenKind]) -> bool {
    tokens.len() == kinds.len()
        && tokens
            .iter()
            .zip(kinds.iter())
            .all(|(token, kind)| token.kind == *kind)
}

// Whether the tokens have these texts.
fn are_written(tokens: &[Token], texts: &[&[u8]]) -> bool {
    tokens.len() == texts.len()
        && tokens
            .iter()
            .zip(texts.iter())
            .all(|(token, text)| token.text.as_str().as_bytes() == *text)
}

/// A text, and the kinds and the texts of its tokens.
struct Lexed(
    &'static [u8],
    &'static [TokenKind],
    &'static [&'static [u8]],
);

fn is_lexed(alloc: Global, row: &Lexed) -> bool {
    match tokens(alloc, row.0) {
        Ok(found) => {
            let tokens = found.items.as_slice();
            let answer = are_of(tokens, row.1) && are_written(tokens, row.2);
            drop(found);
            answer
        }
        Err(_) => false,
    }
}

const LEXED: [Lexed; 15] = [
    Lexed(b"a-1", &[Identifier], &[b"a-1"]),
    Lexed(
        b"p->q",
        &[Identifier, Greater, Identifier],
        &[b"p-", b">", b"q"],
    ),
    Lexed(
        b"p -> q",
        &[Identifier, Implies, Identifier],
        &[b"p", b"->", b"q"],
    ),
    Lexed(
        b"a<->b",
        &[Identifier, Iff, Identifier],
        &[b"a", b"<->", b"b"],
    ),
    Lexed(b"<-", &[Less, Minus], &[b"<", b"-"]),
    Lexed(
        b"<<=>=",
        &[ShiftLeft, Equal, GreaterEqual],
        &[b"<<", b"=", b">="],
    ),
    Lexed(
        b":::=.. .",
        &[Concat, Becomes, DotDot, Dot],
        &[b"::", b":=", b"..", b"."],
    ),
    Lexed(b"x -- y\n-->z", &[Identifier], &[b"x"]),
    Lexed(
        b"a/-- /-- b --/c/",
        &[Identifier, Identifier, Divide],
        &[b"a", b"c", b"/"],
    ),
    Lexed(
        b"INIT init Init",
        &[InitSection, Init, Identifier],
        &[b"INIT", b"init", b"Init"],
    ),
    Lexed(
        b"abs AG xnor",
        &[Abs, Unsupported, Xnor],
        &[b"abs", b"AG", b"xnor"],
    ),
    Lexed(
        b"007 2147483647",
        &[Integer, Integer],
        &[b"007", b"2147483647"],
    ),
    Lexed(b"0U8_1", &[Integer, Identifier], &[b"0", b"U8_1"]),
    Lexed(
        b"0ub8_0000_1111 0sD8_255 0h_fF",
        &[WordConstant, WordConstant, WordConstant],
        &[b"0ub8_0000_1111", b"0sD8_255", b"0h_fF"],
    ),
    Lexed(
        b"0d128_340282366920938463463374607431768211455",
        &[WordConstant],
        &[b"0d128_340282366920938463463374607431768211455"],
    ),
];

fn wrong_tokens(alloc: Global) -> Option<usize> {
    LEXED.iter().position(|row| !is_lexed(alloc, row))
}

#[test]
fn longest_words(rt: HostRuntime) -> Result<(), Fail> {
    let wrong = wrong_tokens(rt.alloc());
    assert_eq!(rt; wrong, None);
    Ok(())
}

/// A text, the rule by which it is refused, and the line and the column.
struct Refused(&'static [u8], Rule, usize, usize);

const REFUSED: [Refused; 16] = [
    Refused(b"a \x01b", Rule::BadByte, 1, 3),
    Refused(b"a\n\t\"", Rule::BadByte, 2, 2),
    Refused(b"a\r\n $", Rule::BadByte, 2, 2),
    Refused(b"/-- a", Rule::OpenComment, 1, 1),
    Refused(b"a /--/", Rule::OpenComment, 1, 3),
    Refused(b"2147483648", Rule::IntTooLarge, 1, 1),
    Refused(b"0bool", Rule::BadWordConstant, 1, 1),
    Refused(b"0b8_", Rule::BadWordConstant, 1, 1),
    Refused(b"0b8_2", Rule::BadWordConstant, 1, 1),
    Refused(b"0d_1", Rule::BadWordConstant, 1, 1),
    Refused(b"0d8_256", Rule::BadWordConstant, 1, 1),
    Refused(b"0b0_0", Rule::BadWordConstant, 1, 1),
    Refused(b"0d129_0", Rule::BadWordConstant, 1, 1),
    Refused(b"0sb1_10", Rule::BadWordConstant, 1, 1),
    Refused(b"0b8_1 99999999999 \"", Rule::IntTooLarge, 1, 7),
    Refused(
        b"0d128_340282366920938463463374607431768211456",
        Rule::BadWordConstant,
        1,
        1,
    ),
];

fn is_refused(alloc: Global, row: &Refused) -> bool {
    match tokens(alloc, row.0) {
        Err(TextStop::Refused(refusal)) => {
            refusal.rule == row.1 && refusal.place.line == row.2 && refusal.place.column == row.3
        }
        _ => false,
    }
}

fn wrong_refusal(alloc: Global) -> Option<usize> {
    REFUSED.iter().position(|row| !is_refused(alloc, row))
}

#[test]
fn refusals(rt: HostRuntime) -> Result<(), Fail> {
    let wrong = wrong_refusal(rt.alloc());
    assert_eq!(rt; wrong, None);
    Ok(())
}

const PLACED: &[u8] = b"VAR\n  x :\r\n boolean;";

/// Where the tokens of the text above stand, and where it ends.
const PLACES: [Place; 5] = [
    Place { line: 1, column: 1 },
    Place { line: 2, column: 3 },
    Place { line: 2, column: 5 },
    Place { line: 3, column: 2 },
    Place { line: 3, column: 9 },
];

const END: Place = Place {
    line: 3,
    column: 10,
};

fn stand_there(tokens: &[Token]) -> bool {
    tokens.len() == PLACES.len()
        && tokens
            .iter()
            .zip(PLACES.iter())
            .all(|(token, place)| token.place == *place)
}

fn are_placed(alloc: Global) -> bool {
    match tokens(alloc, PLACED) {
        Ok(found) => {
            let answer = stand_there(found.items.as_slice()) && found.end == END;
            drop(found);
            answer
        }
        Err(_) => false,
    }
}

#[test]
fn places(rt: HostRuntime) -> Result<(), Fail> {
    let right = are_placed(rt.alloc());
    assert!(rt; right);
    Ok(())
}
