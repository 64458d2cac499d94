//! Tests of the crates that read a model, through their public calls alone: the tokens of small texts, and from the
//! text of a source to its program: how operators group, where tokens are refused, how many levels may be opened, where
//! declarations stand, and what operators give of values that were worked by hand. What is wanted was written down from
//! the grammar, and not from what the code answers.
#![tactic(auto)]

use smv_parse::parse;
use smv_text::tokens;
use smv_tree::{Program, TextStop};
use std::alloc::Global;

/// The program of a source, or why it is refused.
pub fn program_of(alloc: Global, source: &[u8]) -> Result<Program, TextStop> {
    let tokens = tokens(alloc, source)?;
    parse(alloc, &tokens)
}

#[cfg(test)]
mod cycles;
#[cfg(test)]
mod lexemes;
#[cfg(test)]
mod places;
#[cfg(test)]
mod shapes;
#[cfg(test)]
mod texts;
#[cfg(test)]
mod values;
#[cfg(test)]
mod verdicts;
