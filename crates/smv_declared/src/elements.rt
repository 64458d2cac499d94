//! The elements of enumerations.

ghost use Rattle.std.specs.Prelude.{◌≡◌, ◌||◌, [], false, map, not, None, IfOk, OnOk};
ghost use Rattle.smv_verdicts.specs.Verdicts.{Judges, first_of};
ghost use Rattle.value_types.specs.declared.value_type.Element.{Element};
ghost use Rattle.value_types.specs.Types.{element_value, is_element};
ghost use Rattle.smv_declared.specs.Refusals.{repeated, wide_element};
ghost use Rattle.smv_declared.specs.Seen.{has_seen};
ghost use Rattle.smv_declared.specs.Types.{element_by, element_of};

use plain_text::Text;
use smv_scope::{Scope, symbol_number};
use smv_tree::{Rule, TextStop, WrittenElement};
use smv_verdicts::refuse_name;
use sqlite_items::Items;
use std::alloc::{AllocError, Global};
use std::collections::HashSet;
use value_types::Element;

// Elements, to look up whether one is among them.
#[derive(Drop)]
pub(crate) struct Seen {
    integers: HashSet<i32>,
    symbols: HashSet<u32>,
}

// The elements of an enumeration, none of which stands twice.
pub(crate) fn elements_of(
    alloc: Global,
    scope: &Scope,
    written: &[WrittenElement],
) -> Result<Items<Element>, TextStop>
    ensures judged { Judges result (repeated (element_of scope.now.program) [] written.now) }
    ensures elements { IfOk result (λ elements. elements ≡ map (element_of scope.now.program) written.now) }
    ensures narrow { IfOk result (λ elements. first_of wide_element written.now ≡ None) }
{
    let mut seen = no_elements(alloc);
    let mut elements = Items::new(alloc);
    for x in written {
        let element = element_of(scope, x)?;
        if !add(&mut seen, element)? {
            refuse_name(alloc, Rule::DuplicateElement, x.place, &x.text)?;
        }
        elements.push(element)?;
    }
    Ok(elements)
}

fn no_elements(alloc: Global) -> Seen
    ensures { (e : Element) → has_seen result e ≡ false }
{
    Seen {
        integers: HashSet::new(alloc),
        symbols: HashSet::new(alloc),
    }
}

// Adds an element, and says whether it is new.
fn add(seen: &mut Seen, element: Element) -> Result<bool, AllocError>
    ensures fresh { IfOk result (λ fresh. fresh ≡ not (has_seen seen.old element)) }
    ensures known { OnOk result ((e : Element) → has_seen seen.new e ≡ (is_element (element_value e) element || has_seen seen.old e)) }
{
    match element {
        Element::Int(z) => Ok(seen.integers.insert(z)?),
        Element::Sym(n) => Ok(seen.symbols.insert(n)?),
    }
}

// An element as it is meant. Memory is refused where there are more symbols than have numbers.
fn element_of(scope: &Scope, x: &WrittenElement) -> Result<Element, AllocError>
    ensures element { IfOk result (λ element. element ≡ element_of scope.now.program x.now) }
    ensures narrow { IfOk result (λ element. wide_element x.now ≡ None) }
{
    match x.number {
        Some(z) => Ok(Element::Int(z)),
        None => symbol_of(scope, &x.text),
    }
}

fn symbol_of(scope: &Scope, name: &Text) -> Result<Element, AllocError>
    ensures { IfOk result (λ element. element ≡ element_by scope.now.program name.now None) }
{
    match symbol_number(scope, name.as_str()) {
        None => Ok(Element::Sym(0)),
        Some(n) => if n <= 4294967295 {
            Ok(Element::Sym(n as u32))
        } else {
            Err(AllocError)
        },
    }
}
