//! Cuts a text into its tokens.

ghost use Rattle.std.specs.Prelude.{◌≡◌, ◌≤◌, ◌<◌, ◌+◌, ◌^◌, ◌++◌, ◌∷◌, [], length, map, Some, None, IfOk, IfErr, OnOk};
ghost use Rattle.smv_tree.specs.Places.{behind};
ghost use Rattle.smv_text.specs.Lexemes.{shape_of};
ghost use Rattle.smv_text.specs.Texts.{good, pieces_of, IsText, IsTextStop};
ghost use Rattle.smv_text.specs.Runs.{IsFlawStop};
ghost use Rattle.smv_text.specs.declared.lexeme.Lexeme.TheVariants as kinds;
ghost use Rattle.smv_tree.specs.declared.refusal.TextStop.TheVariants.{Refused};

use crate::Lexeme;
use crate::front::longest;
use plain_text::Text;
use smv_tree::{Place, Refusal, Rule, TextStop, Token, TokenKind, Tokens};
use sqlite_items::Items;
use std::alloc::{AllocError, Global};

/// A source has at most this many bytes.
const SOURCE_LIMIT: usize = 16777216;

/// The place of the first byte.
const START: Place = Place { line: 1, column: 1 };

/// The refusal by a rule without a detail.
fn refused(rule: Rule, place: Place) -> TextStop
    ensures { result ≡ Refused (record { rule = rule; place = place; detail = None }) }
{
    TextStop::Refused(Refusal {
        rule,
        place,
        detail: None,
    })
}

/// The place behind some bytes.
fn behind(place: Place, text: &[u8]) -> Place
    requires line { place.line + length text.now < 2 ^ 33 }
    requires column { place.column + length text.now < 2 ^ 33 }
    ensures line { result.line ≤ place.line + length text.now }
    ensures column { result.column ≤ place.column + length text.now }
    ensures moved { result ≡ behind place text.now }
{
    let mut line = place.line;
    let mut column = place.column;
    for byte in text {
        if *byte == b'\n' {
            line += 1;
            column = 1;
        } else {
            column += 1;
        }
    }
    Place { line, column }
}

/// Adds a token.
fn push(
    alloc: Global,
    tokens: &mut Vec<Token>,
    kind: TokenKind,
    place: Place,
    text: &[u8],
) -> Result<(), AllocError>
    requires { shape_of text.now ≡ Some (kinds.Token kind) }
    ensures { OnOk result (tokens.new.items ≡ tokens.old.items ++ record { kind = kind; text = text.now; place = place } ∷ []) }
{
    let text = Text::from_ascii(alloc, text)?;
    tokens.push(Token { kind, text, place })?;
    Ok(())
}

/// Adds the token of a lexeme, unless it is blank or breaks a rule.
fn add(
    alloc: Global,
    tokens: &mut Vec<Token>,
    lexeme: Lexeme,
    place: Place,
    text: &[u8],
) -> Result<(), TextStop>
    requires { shape_of text.now ≡ Some lexeme }
    ensures added { OnOk result (map good tokens.new.items ≡ map good tokens.old.items ++ pieces_of lexeme place text.now) }
    ensures refused { IfErr result (IsFlawStop lexeme place) }
{
    match lexeme {
        Lexeme::Blank => {}
        Lexeme::Token(kind) => push(alloc, tokens, kind, place, text)?,
        Lexeme::Flaw(rule) => return Err(refused(rule, place)),
    }
    Ok(())
}

/// The tokens of a text in order, and the place of its end (NuSMV 2.6 User Manual, 2.1, Lexical Structure). Each is the
/// longest word that stands where it stands; white space and comments part them.
///
/// A text of more than 16777216 bytes is refused as too large, at its beginning. Another text is refused at its first
/// flaw: a byte that begins no token, a comment without an end, a word constant that is not in form, or an integer
/// greater than 2147483647. Memory may be refused at any time.
pub fn tokens(alloc: Global, text: &[u8]) -> Result<Tokens, TextStop>
    ensures read { IfOk result (IsText text.now) }
    ensures refused { IfErr result (IsTextStop text.now) }
{
    if text.len() > SOURCE_LIMIT {
        return Err(refused(Rule::SourceTooLarge, START));
    }
    let mut items = Vec::new(alloc);
    let mut place = START;
    let mut rest = text;
    while !rest.is_empty() {
        let (lexeme, len) = longest(rest);
        let (word, after) = rest.split_at(len);
        add(alloc, &mut items, lexeme, place, word)?;
        place = behind(place, word);
        rest = after;
    }
    Ok(Tokens {
        items: Items::from_vec(items),
        end: place,
    })
}
