//! The program that tokens spell, or why they are refused.

ghost use Rattle.std.specs.Prelude.{◌≡◌, IfOk, IfErr};
ghost use Rattle.phrase_forms.specs.Language.{read_all};
ghost use Rattle.smv_parse.specs.Programs.{program};
ghost use Rattle.smv_phrases.specs.Reading.{Gives};
ghost use Rattle.smv_parse.specs.Spelling.{IsSpelling, first_place, first_text, fault_refusal, unsupported_refusal, IsParseStop};

use crate::programs::program;
use crate::unsupported::first_unsupported;
use phrase_forms::Fault;
use plain_text::Text;
use smv_phrases::Stop;
use smv_tree::{Place, Program, Refusal, Rule, TextStop, Token, Tokens};
use std::alloc::{AllocError, Global};

/// The program that all of the tokens are.
fn whole_program<'a>(alloc: Global, tokens: &'a [Token]) -> Result<Program, Stop<'a>>
    ensures { Gives (λ p. p) result (read_all (program 0) tokens.now) }
{
    let (program, rest) = program(alloc, tokens)?;
    if rest.is_empty() {
        Ok(program)
    } else {
        Err(Stop::Refused(Fault::Unexpected, rest))
    }
}

/// The place of the first token, or of the end.
fn first_place(tokens: &[Token], end: Place) -> Place
    ensures { result ≡ first_place tokens.now end }
{
    match tokens {
        [first, ..] => first.place,
        [] => end,
    }
}

/// The text of the first token, or `end`.
fn first_text(alloc: Global, tokens: &[Token]) -> Result<Text, AllocError>
    ensures { IfOk result (λ text. text ≡ first_text tokens.now) }
{
    match tokens {
        [first, ..] => first.text.copy(alloc),
        [] => Text::from_str(alloc, "end"),
    }
}

/// How tokens are refused for this fault of the first of these, or of the end.
fn fault_refusal(
    alloc: Global,
    fault: Fault,
    rest: &[Token],
    end: Place,
) -> Result<Refusal, AllocError>
    ensures { IfOk result (λ refusal. refusal ≡ fault_refusal fault rest.now end) }
{
    let place = first_place(rest, end);
    match fault {
        Fault::Unexpected => Ok(Refusal {
            rule: Rule::Unexpected,
            place,
            detail: Some(first_text(alloc, rest)?),
        }),
        Fault::TooDeep => Ok(Refusal {
            rule: Rule::TooDeep,
            place,
            detail: None,
        }),
    }
}

/// How tokens are refused for this one, which has no place in the language.
fn unsupported_refusal(alloc: Global, token: &Token) -> Result<Refusal, AllocError>
    ensures { IfOk result (λ refusal. refusal ≡ unsupported_refusal token.now) }
{
    Ok(Refusal {
        rule: Rule::Unsupported,
        place: token.place,
        detail: Some(token.text.copy(alloc)?),
    })
}

/// The program that the tokens of a source spell (NuSMV 2.6 User Manual, chapter 2; the
/// levels of precedence, a `;` that may be left out behind the formula of a constraint or a specification, and at
/// most 256 levels that are open at one place are own choices of this project).
///
/// Tokens that spell no program are refused at one place:
/// - `Unsupported`: the first token that is a word of NuSMV without a place in the language, whatever stands before it.
///   Its text is the detail.
/// - `Unexpected`, where none does: the first token with which the tokens no longer begin a program of any depth; its
///   text is the detail. Where they begin one and end too early, the end, with the detail `end`.
/// - `TooDeep`, where none does: the first token that opens a 257th level, if the tokens up to it begin a program of
///   greater depth. There is no detail.
///
/// Memory may be refused at any time.
pub fn parse(alloc: Global, tokens: &Tokens) -> Result<Program, TextStop>
    ensures spelled { IfOk result (IsSpelling tokens.now.items) }
    ensures refused { IfErr result (IsParseStop tokens.now) }
{
    let items = tokens.items.as_slice();
    if let Some(token) = first_unsupported(items) {
        let refusal = unsupported_refusal(alloc, token)?;
        return Err(TextStop::Refused(refusal));
    }
    match whole_program(alloc, items) {
        Ok(program) => Ok(program),
        Err(Stop::NoMemory) => Err(TextStop::NoMemory),
        Err(Stop::Refused(fault, rest)) => {
            let refusal = fault_refusal(alloc, fault, rest, tokens.end)?;
            Err(TextStop::Refused(refusal))
        }
    }
}
