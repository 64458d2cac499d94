//! Symbols by their names.

ghost use Rattle.std.specs.Prelude.{◌≡◌, ◌+◌, ◌==◌, ℕ, List, bytes_eq, replicate, IfOk};
ghost use Rattle.std.specs.HashMap.{get_by_text};
ghost use Rattle.std.specs.List.{list_all};
ghost use Rattle.value_texts.specs.Told.{begins_identifier, is_named, is_number, is_proper, number_of, symbol_text};

use indexmap::IndexMap;
use plain_text::Text;
use std::alloc::{AllocError, Global};

/// The names of symbols, and the number of the first symbol of each name.
#[derive(Clone, Copy, Debug)]
pub struct Symbols<'a> {
    pub names: &'a [Text],
    pub numbers: &'a IndexMap<String, usize>,
    pub ghost numbered: { (name : List ℕ) → get_by_text numbers.now name ≡ number_of names.now name },
}

fn begins_identifier(b: u8) -> bool
    ensures { result ≡ begins_identifier b }
{
    b.is_ascii_alphabetic() || b == b'_'
}

fn is_named(name: &[u8]) -> bool
    ensures { result ≡ is_named name.now }
{
    match name {
        [] => false,
        [b, ..] => begins_identifier(*b),
    }
}

fn is_number(n: u32, number: Option<usize>) -> bool
    ensures { result ≡ is_number n number }
{
    match number {
        None => false,
        Some(k) => k == n as usize,
    }
}

// Whether the symbol is told by its name.
#[tactic(auto, unfolding(crate::specs::Told::is_proper))]
fn is_proper(symbols: &Symbols, n: u32) -> bool
    ensures { result ≡ is_proper symbols.now.names.now n }
{
    match symbols.names.get(n as usize) {
        None => false,
        Some(name) => {
            let number = symbols.numbers.get(name.as_str()).copied();
            is_named(name.as_str().as_bytes()) && is_number(n, number)
        }
    }
}

/// The text of a symbol.
#[tactic(auto, unfolding(crate::specs::Told::symbol_text))]
pub fn symbol_text(alloc: Global, symbols: &Symbols, n: u32) -> Result<Text, AllocError>
    ensures { IfOk result (λ text. text ≡ symbol_text symbols.now.names.now n) }
{
    if !is_proper(symbols, n) {
        return marks(alloc, n as usize + 1);
    }
    match symbols.names.get(n as usize) {
        None => Text::from_str(alloc, ""),
        Some(name) => name.copy(alloc),
    }
}

// So many `$`.
fn marks(alloc: Global, count: usize) -> Result<Text, AllocError>
    ensures { IfOk result (λ text. text ≡ replicate count 36) }
{
    let mut text = String::new(alloc);
    for k in 0..count {
        text.push_str("$")?;
    }
    Text::from_str(alloc, text.as_str())
}

/// Whether the text is that of a symbol.
#[tactic(auto, unfolding(crate::specs::Told::symbol_text))]
pub fn is_symbol_text(symbols: &Symbols, n: u32, text: &str) -> bool
    ensures { result ≡ bytes_eq (symbol_text symbols.now.names.now n) text.now }
{
    if is_proper(symbols, n) {
        match symbols.names.get(n as usize) {
            None => text.is_empty(),
            Some(name) => name.as_str() == text,
        }
    } else {
        are_marks(n as usize + 1, text)
    }
}

// Whether the text is so many `$`.
fn are_marks(count: usize, text: &str) -> bool
    ensures { result ≡ bytes_eq (replicate count 36) text.now }
{
    text.len() == count && are_all_marks(text.as_bytes())
}

fn are_all_marks(text: &[u8]) -> bool
    ensures { result ≡ list_all (λ b. b == 36) text.now }
{
    text.iter().all(|b| *b == b'$')
}
