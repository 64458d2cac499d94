//! What a line says, by its words: a word ends at each space.

ghost use Rattle.std.specs.Prelude.{◌≡◌, ℕ, List, ◌∷◌, map, codes, bytes_eq, IfOk};
ghost use Rattle.std.specs.Option.{option_copied};
ghost use Rattle.std.specs.Borrow.{Bor};
ghost use Rattle.trace_replay.specs.Words.{AreWordsOf, IsLineOf, IsNumber, IsNumbered, binding_in, bindings_in, bound, is_end, without_last, words};

use crate::forms::{is_name, is_value};
use crate::{Binding, TraceLine};
use plain_text::Text;
use sqlite_items::Items;
use std::alloc::{AllocError, Global};

/// What a line says, if it is in form.
pub fn entry_read(alloc: Global, line: &Text) -> Result<Option<TraceLine>, AllocError>
    ensures { IfOk result (IsLineOf line.now) }
{
    let words = words(alloc, line.as_str())?;
    entry_of(alloc, words.as_slice())
}

// The words of a text.
fn words(alloc: Global, text: &str) -> Result<Items<Text>, AllocError>
    ensures { IfOk result (λ ws. ws ≡ words text.now) }
{
    let pieces = pieces(alloc, text)?;
    let mut words = Vec::new(alloc);
    for piece in &pieces {
        words.push(Text::from_str(alloc, piece)?)?;
    }
    Ok(Items::from_vec(words))
}

fn pieces(alloc: Global, text: &str) -> Result<Vec<&str>, AllocError>
    ensures { IfOk result (λ v. map (λ (x : Bor (List ℕ)). x.now) v.items ≡ words text.now) }
{
    text.split(' ').collect(alloc)
}

// What words say.
fn entry_of(alloc: Global, words: &[Text]) -> Result<Option<TraceLine>, AllocError>
    ensures { IfOk result (AreWordsOf words.now) }
{
    if words.len() < 3 {
        return Ok(None);
    }
    let (front, more) = words.split_at(3);
    keyed(alloc, &front[0], &front[1], &front[2], more)
}

// The same of three words with more behind them.
fn keyed(
    alloc: Global,
    mark: &Text,
    keyword: &Text,
    number: &Text,
    more: &[Text],
) -> Result<Option<TraceLine>, AllocError>
    ensures { IfOk result (AreWordsOf (mark.now ∷ keyword.now ∷ number.now ∷ more.now)) }
{
    if !is(mark, "--@") {
        return Ok(None);
    }
    if is(keyword, "spec") {
        return spec_entry(alloc, number, more);
    }
    if is(keyword, "state") {
        return state_entry(alloc, number, more);
    }
    if is(keyword, "input") {
        return input_entry(alloc, number, more);
    }
    if is(keyword, "loop") {
        return loop_entry(alloc, number, more);
    }
    Ok(None)
}

fn is(word: &Text, text: &str) -> bool
    ensures { result ≡ bytes_eq word.now text.now }
{
    word.as_str() == text
}

fn spec_entry(alloc: Global, number: &Text, more: &[Text]) -> Result<Option<TraceLine>, AllocError>
    ensures { IfOk result (AreWordsOf (codes "--@" ∷ codes "spec" ∷ number.now ∷ more.now)) }
{
    if !more.is_empty() {
        return Ok(None);
    }
    match number_read(alloc, number.as_str())? {
        None => Ok(None),
        Some(n) => Ok(Some(TraceLine::Spec(n))),
    }
}

fn loop_entry(alloc: Global, number: &Text, more: &[Text]) -> Result<Option<TraceLine>, AllocError>
    ensures { IfOk result (AreWordsOf (codes "--@" ∷ codes "loop" ∷ number.now ∷ more.now)) }
{
    if !more.is_empty() {
        return Ok(None);
    }
    match number_read(alloc, number.as_str())? {
        None => Ok(None),
        Some(n) => Ok(Some(TraceLine::Loop(n))),
    }
}

fn state_entry(alloc: Global, number: &Text, more: &[Text]) -> Result<Option<TraceLine>, AllocError>
    ensures { IfOk result (AreWordsOf (codes "--@" ∷ codes "state" ∷ number.now ∷ more.now)) }
{
    let Some(n) = numbered_read(alloc, number.as_str())? else {
        return Ok(None);
    };
    match bindings_in(alloc, more)? {
        None => Ok(None),
        Some(bindings) => Ok(Some(TraceLine::State(n, bindings))),
    }
}

fn input_entry(alloc: Global, number: &Text, more: &[Text]) -> Result<Option<TraceLine>, AllocError>
    ensures { IfOk result (AreWordsOf (codes "--@" ∷ codes "input" ∷ number.now ∷ more.now)) }
{
    let Some(n) = numbered_read(alloc, number.as_str())? else {
        return Ok(None);
    };
    match bindings_in(alloc, more)? {
        None => Ok(None),
        Some(bindings) => Ok(Some(TraceLine::Input(n, bindings))),
    }
}

// The number that is printed so.
fn number_read(alloc: Global, text: &str) -> Result<Option<usize>, AllocError>
    ensures { IfOk result (IsNumber text.now) }
{
    let Ok(n) = text.parse::<usize>() else {
        return Ok(None);
    };
    let printed = n.to_string(alloc)?;
    if printed.as_str() == text {
        Ok(Some(n))
    } else {
        Ok(None)
    }
}

// The same before a colon.
fn numbered_read(alloc: Global, text: &str) -> Result<Option<usize>, AllocError>
    ensures { IfOk result (IsNumbered text.now) }
{
    match without_colon(text) {
        None => Ok(None),
        Some(number) => number_read(alloc, number),
    }
}

fn without_colon(text: &str) -> Option<&str>
    ensures { option_copied result ≡ without_last 58 text.now }
{
    text.strip_suffix(':')
}

fn without_comma(text: &str) -> Option<&str>
    ensures { option_copied result ≡ without_last 44 text.now }
{
    text.strip_suffix(',')
}

// The bindings that the words are, three words each.
fn bindings_in(alloc: Global, words: &[Text]) -> Result<Option<Items<Binding>>, AllocError>
    ensures { IfOk result (λ bs. bs ≡ bindings_in words.now) }
{
    if words.len() % 3 != 0 {
        return Ok(None);
    }
    let mut bindings = Vec::new(alloc);
    for i in 0..words.len() / 3 {
        let last = 3 * i + 3 == words.len();
        match binding_in(
            alloc,
            &words[3 * i],
            &words[3 * i + 1],
            &words[3 * i + 2],
            last,
        )? {
            None => return Ok(None),
            Some(binding) => bindings.push(binding)?,
        }
    }
    Ok(Some(Items::from_vec(bindings)))
}

// The binding that three words are; a comma stands behind the value unless it is the last.
fn binding_in(
    alloc: Global,
    name: &Text,
    equals: &Text,
    value: &Text,
    last: bool,
) -> Result<Option<Binding>, AllocError>
    ensures { IfOk result (λ b. b ≡ binding_in name.now equals.now value.now last) }
{
    if equals.as_str() != "=" {
        return Ok(None);
    }
    if last {
        return bound(alloc, name, value.as_str());
    }
    match without_comma(value.as_str()) {
        None => Ok(None),
        Some(value) => bound(alloc, name, value),
    }
}

fn bound(alloc: Global, name: &Text, value: &str) -> Result<Option<Binding>, AllocError>
    ensures { IfOk result (λ b. b ≡ bound name.now (Some value.now)) }
{
    if !is_name(name.as_str().as_bytes()) || !is_value(value.as_bytes()) {
        return Ok(None);
    }
    Ok(Some(Binding {
        name: name.copy(alloc)?,
        value: Text::from_str(alloc, value)?,
    }))
}
