//! The text of a valuation: the slots that occur in an expression, with their values.

ghost use Rattle.std.specs.Prelude.{◌≡◌, ◌++◌, false, map, filter, codes, slice_get, slice_index_or, string_bytes, IfOk, OnOk};
ghost use Rattle.std.specs.List.{flat_map};
ghost use Rattle.smv_flat.specs.Assignments.{name_of_slot, slot_numbers};
ghost use Rattle.smv_resolve.specs.Resolved.{part_of};
ghost use Rattle.smv_slots.specs.Slots.{item_of};
ghost use Rattle.fault_texts.specs.Valuations.{listed, shown, told, told_all, valuation_text, with_name};

use crate::reads::occurring;
use plain_text::Text;
use smv_meaning::Typed;
use smv_slots::{Slot, slot_name};
use smv_tree::VariableKind;
use smv_value::Value;
use std::alloc::{AllocError, Global};
use value_texts::Symbols;

/// The text of a valuation, as far as the expression of this node looks at it: the slots that occur in it, in their
/// order, first those of the state and the inputs, as `x = V`, and then those of the next state, as `next(x) = V`.
/// There is none where no slot occurs.
#[tactic(auto, unfolding(crate::specs::Valuations::valuation_text))]
pub fn valuation_text(
    alloc: Global,
    typed: &Typed,
    value: usize,
    s: &[Value],
    u: &[Value],
    next: &[Value],
) -> Result<Option<Text>, AllocError>
    ensures { IfOk result (λ text. text ≡ valuation_text typed.now.scope.program s.now u.now next.now (part_of typed.now.nodes value)) }
{
    let texts = told_all(alloc, typed, value, s, u, next)?;
    listed(alloc, &texts)
}

// The texts of the slots that occur in the expression of a node.
fn told_all(
    alloc: Global,
    typed: &Typed,
    value: usize,
    s: &[Value],
    u: &[Value],
    next: &[Value],
) -> Result<Vec<Text>, AllocError>
    ensures { IfOk result (λ texts. texts.items ≡ told_all typed.now.scope.program s.now u.now next.now (part_of typed.now.nodes value)) }
{
    let slots = typed.slots.len();
    let found = occurring(alloc, typed.nodes.as_slice(), value, slots)?;
    let mut texts = Vec::new(alloc);
    push_told(alloc, typed, false, &found.now, s, u, &mut texts)?;
    push_told(alloc, typed, true, &found.next, next, &[], &mut texts)?;
    Ok(texts)
}

// Adds the texts of the slots that are marked.
fn push_told(
    alloc: Global,
    typed: &Typed,
    ahead: bool,
    marks: &[bool],
    s: &[Value],
    u: &[Value],
    texts: &mut Vec<Text>,
) -> Result<(), AllocError>
    ensures { OnOk result (texts.new.items ≡ texts.old.items ++ map (told typed.now.scope.program ahead s.now u.now) (filter (λ n. slice_index_or marks.now n false) (slot_numbers typed.now.scope.program))) }
{
    for n in 0..typed.slots.len() {
        if is_marked(marks, n) {
            let text = told(alloc, typed, ahead, s, u, n)?;
            texts.push(text)?;
        }
    }
    Ok(())
}

fn is_marked(marks: &[bool], n: usize) -> bool
    ensures { result ≡ slice_index_or marks.now n false }
{
    match marks.get(n) {
        None => false,
        Some(mark) => *mark,
    }
}

// A slot with its value.
fn told(
    alloc: Global,
    typed: &Typed,
    ahead: bool,
    s: &[Value],
    u: &[Value],
    n: usize,
) -> Result<Text, AllocError>
    ensures { IfOk result (λ text. text ≡ told typed.now.scope.program ahead s.now u.now n) }
{
    let name = name_of_slot(alloc, typed, n)?;
    let value = shown(alloc, typed, value_of(typed.slots.as_slice(), s, u, n))?;
    with_name(alloc, ahead, &name, &value)
}

fn with_name(alloc: Global, ahead: bool, name: &Text, value: &Text) -> Result<Text, AllocError>
    ensures { IfOk result (λ text. text ≡ with_name ahead name.now value.now) }
{
    let text = if ahead {
        format!(in alloc; "next({name}) = {value}")?
    } else {
        format!(in alloc; "{name} = {value}")?
    };
    Text::from_str(alloc, text.as_str())
}

// The name of the slot of this number; no text where there is no such slot.
fn name_of_slot(alloc: Global, typed: &Typed, n: usize) -> Result<Text, AllocError>
    ensures { IfOk result (λ name. name ≡ name_of_slot typed.now.scope.program n) }
{
    match typed.slots.get(n) {
        Some(slot) => slot_name(alloc, &typed.scope, typed.variables.as_slice(), slot),
        None => Text::from_str(alloc, ""),
    }
}

// The value of the slot of this number, if there is one.
fn value_of(slots: &[Slot], s: &[Value], u: &[Value], n: usize) -> Option<Value>
    ensures { result ≡ item_of slots.now s.now u.now n }
{
    match slots.get(n) {
        None => None,
        Some(slot) => match slot.kind {
            VariableKind::Input => value_at(u, slot.index),
            VariableKind::State | VariableKind::Frozen => value_at(s, slot.index),
        },
    }
}

fn value_at(values: &[Value], i: usize) -> Option<Value>
    ensures { result ≡ slice_get values.now i }
{
    match values.get(i) {
        None => None,
        Some(value) => Some(*value),
    }
}

// The text of a value; none where there is no value.
fn shown(alloc: Global, typed: &Typed, value: Option<Value>) -> Result<Text, AllocError>
    ensures { IfOk result (λ text. text ≡ shown typed.now.scope.program value) }
{
    let symbols = Symbols {
        names: typed.scope.symbol_names.as_slice(),
        numbers: &typed.scope.symbol_numbers,
    };
    match value {
        None => Text::from_str(alloc, ""),
        Some(value) => value_texts::told(alloc, &symbols, value),
    }
}

// Texts with commas between them, if there are some.
fn listed(alloc: Global, texts: &[Text]) -> Result<Option<Text>, AllocError>
    ensures { IfOk result (λ text. text ≡ listed texts.now) }
{
    let [first, more @ ..] = texts else {
        return Ok(None);
    };
    let mut text = String::new(alloc);
    text.push_str(first.as_str())?;
    push_more(&mut text, more)?;
    let whole = Text::from_str(alloc, text.as_str())?;
    Ok(Some(whole))
}

// Adds texts, each behind a comma.
fn push_more(text: &mut String, more: &[Text]) -> Result<(), AllocError>
    ensures { OnOk result (string_bytes text.new ≡ string_bytes text.old ++ flat_map (λ x. codes ", " ++ x) more.now) }
{
    for x in more {
        text.push_str(", ")?;
        text.push_str(x.as_str())?;
    }
    Ok(())
}
