//! Splits bytes at a separator and words into tokens; reads literals and hints up to the zero that
//! ends them.

ghost use Rattle.std.specs.Prelude.{◌≡◌, ◌≤◌, IfOk, IfSome, MatchOption, None, Some, drop, length, map};
ghost use Rattle.std.specs.Option.{option_map};
ghost use Rattle.clause_core.specs.Literals.{Within};
ghost use Rattle.cert_text.specs.Tokens.{tokens_of, pieces_of, words_of};
ghost use Rattle.cert_text.specs.Lines.{literals_of, hints_of};

use crate::line::{hint_of, is_zero, literal_of};
use crate::token::Token;
use crate::words::token;
use cert_core::MAX_VARS;
use clause_core::Lit;
use std::alloc::{AllocError, Global};

// The pieces of the bytes between those that equal `by`.
pub(crate) fn pieces(alloc: Global, bytes: &[u8], by: u8) -> Result<Vec<&[u8]>, AllocError>
    ensures { IfOk result (λ v. map (λ x. x.now) v.items ≡ pieces_of by bytes.now) }
{
    bytes.split(|b| *b == by).collect(alloc)
}

// The tokens of these words, if all are tokens.
fn tokens_in(alloc: Global, words: &[&[u8]]) -> Result<Option<Vec<Token>>, AllocError>
    ensures { IfOk result (λ o. option_map (λ v. v.items) o ≡ tokens_of (map (λ x. x.now) words.now)) }
{
    let mut tokens = Vec::new(alloc);
    for word in words {
        match token(word) {
            None => return Ok(None),
            Some(t) => tokens.push(t)?,
        }
    }
    Ok(Some(tokens))
}

// The tokens of the line's words, if all are tokens.
pub(crate) fn tokens(alloc: Global, line: &[u8]) -> Result<Option<Vec<Token>>, AllocError>
    ensures { IfOk result (λ o. option_map (λ v. v.items) o ≡ tokens_of (words_of line.now)) }
{
    let words = pieces(alloc, line, 32)?;
    tokens_in(alloc, &words)
}

// Literals, and how many words they take with the zero that ends them.
#[derive(Drop)]
pub(crate) struct ReadLiterals {
    pub(crate) lits: Vec<Lit>,
    pub(crate) words: usize,
}

// The literals with which the words begin, up to a zero.
pub(crate) fn literals(alloc: Global, tokens: &[Token]) -> Result<Option<ReadLiterals>, AllocError>
    ensures says { IfOk result (λ o. MatchOption o (literals_of tokens.now ≡ None) (λ f. literals_of tokens.now ≡ Some record { lits = f.lits.items; rest = drop f.words tokens.now })) }
    ensures within { IfOk result (λ o. IfSome o (λ f. Within MAX_VARS f.lits.items)) }
    ensures words { IfOk result (λ o. IfSome o (λ f. f.words ≤ length tokens.now)) }
{
    let mut lits = Vec::new(alloc);
    for (i, t) in tokens.iter().enumerate() {
        if is_zero(*t) {
            return Ok(Some(ReadLiterals { lits, words: i + 1 }));
        }
        match literal_of(*t) {
            None => return Ok(None),
            Some(l) => lits.push(l)?,
        }
    }
    Ok(None)
}

// The hints that the words are, up to a zero with which they end.
pub(crate) fn hints(alloc: Global, tokens: &[Token]) -> Result<Option<Vec<usize>>, AllocError>
    ensures { IfOk result (λ o. option_map (λ v. v.items) o ≡ hints_of tokens.now) }
{
    let mut hints = Vec::new(alloc);
    for (i, t) in tokens.iter().enumerate() {
        if is_zero(*t) {
            return Ok(if i + 1 == tokens.len() {
                Some(hints)
            } else {
                None
            });
        }
        match hint_of(*t) {
            None => return Ok(None),
            Some(h) => hints.push(h)?,
        }
    }
    Ok(None)
}
