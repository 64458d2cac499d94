//! The symbols of a program: the names among the elements of its enumerations and of `CONSTANTS`, in the modules of
//! which there is an instance.

ghost use Rattle.std.specs.Prelude.{◌≡◌, ◌==◌, ◌++◌, ℕ, List, IfOk, OnOk, map, position, bytes_eq};
ghost use Rattle.std.specs.List.{flat_map};
ghost use Rattle.std.specs.HashMap.{get, get_by_text};
ghost use Rattle.smv_tree.specs.declared.tree.Identifier.{Identifier};
ghost use Rattle.smv_tree.specs.declared.tree.Variable.{Variable};
ghost use Rattle.smv_scope.specs.Enumerated.{first_instance, symbol_in, symbols_in, symbols_in_type, symbols_if, symbols_from};

use crate::Instance;
use crate::named::first_numbers;
use crate::symbols::number_first;
use indexmap::IndexMap;
use plain_text::Text;
use smv_tree::{Identifier, Module, Section, TypeExpr, Variable, WrittenElement};
use sqlite_items::Items;
use std::alloc::{AllocError, Global};
use std::collections::HashMap;

/// The symbols of a program with these modules and instances, as often as they are named, and the number of each: where
/// it is named first.
pub fn numbered_symbols(
    alloc: Global,
    modules: &[Module],
    tree: &[Instance],
) -> Result<(Items<Text>, IndexMap<String, usize>), AllocError>
    ensures all { IfOk result (λ symbols. symbols.0 ≡ symbols_from tree.now 0 modules.now) }
    ensures numbers { IfOk result (λ symbols. (name : List ℕ) → get_by_text symbols.1 name ≡ position (λ (symbol : List ℕ). bytes_eq name symbol) (symbols_from tree.now 0 modules.now)) }
{
    let all = symbols_of(alloc, modules, tree)?;
    let numbers = first_numbers(alloc, all.as_slice())?;
    Ok((all, numbers))
}

// The symbols, as often as they are named.
fn symbols_of(
    alloc: Global,
    modules: &[Module],
    tree: &[Instance],
) -> Result<Items<Text>, AllocError>
    ensures { IfOk result (λ all. all ≡ symbols_from tree.now 0 modules.now) }
{
    let first = first_instances(alloc, tree)?;
    let mut all = Items::new(alloc);
    push_symbols_by(alloc, &mut all, modules, tree, &first)?;
    Ok(all)
}

// The same by the number of the first instance of each module that has one.
fn push_symbols_by(
    alloc: Global,
    all: &mut Items<Text>,
    modules: &[Module],
    _tree: &[Instance],
    first: &HashMap<usize, usize>,
) -> Result<(), AllocError>
    requires { (m : ℕ) → get (λ x y. x == y) first.now m ≡ first_instance _tree.now m }
    ensures { OnOk result (all.new ≡ all.old ++ symbols_from _tree.now 0 modules.now) }
{
    for (m, module) in modules.iter().enumerate() {
        let instance = first.get(&m).copied();
        push_symbols_if(alloc, all, instance, module.sections.as_slice())?;
    }
    Ok(())
}

// The number of the first instance of each module that has one.
fn first_instances(alloc: Global, tree: &[Instance]) -> Result<HashMap<usize, usize>, AllocError>
    ensures { IfOk result (λ table. (m : ℕ) → get (λ x y. x == y) table m ≡ first_instance tree.now m) }
{
    let mut table = HashMap::new(alloc);
    for (k, x) in tree.iter().enumerate() {
        number_first(&mut table, x.of_module, k)?;
    }
    Ok(table)
}

// The symbols of the sections of a module, if it has an instance.
fn push_symbols_if(
    alloc: Global,
    all: &mut Items<Text>,
    instance: Option<usize>,
    sections: &[Section],
) -> Result<(), AllocError>
    ensures { OnOk result (all.new ≡ all.old ++ symbols_if instance sections.now) }
{
    match instance {
        None => Ok(()),
        Some(_) => push_symbols(alloc, all, sections),
    }
}

fn push_symbols(
    alloc: Global,
    all: &mut Items<Text>,
    sections: &[Section],
) -> Result<(), AllocError>
    ensures { OnOk result (all.new ≡ all.old ++ flat_map symbols_in sections.now) }
{
    for section in sections {
        push_symbols_in(alloc, all, section)?;
    }
    Ok(())
}

// The symbols that a section names.
fn push_symbols_in(
    alloc: Global,
    all: &mut Items<Text>,
    section: &Section,
) -> Result<(), AllocError>
    ensures { OnOk result (all.new ≡ all.old ++ symbols_in section.now) }
{
    match section {
        Section::Variables(_, variables) => push_declared(alloc, all, variables.as_slice()),
        Section::Constants(names) => push_names(alloc, all, names.as_slice()),
        _ => Ok(()),
    }
}

fn push_declared(
    alloc: Global,
    all: &mut Items<Text>,
    variables: &[Variable],
) -> Result<(), AllocError>
    ensures { OnOk result (all.new ≡ all.old ++ flat_map (λ (v : Variable). symbols_in_type v.declared) variables.now) }
{
    for variable in variables {
        push_symbols_in_type(alloc, all, &variable.declared)?;
    }
    Ok(())
}

fn push_symbols_in_type(
    alloc: Global,
    all: &mut Items<Text>,
    declared: &TypeExpr,
) -> Result<(), AllocError>
    ensures { OnOk result (all.new ≡ all.old ++ symbols_in_type declared.now) }
{
    match declared {
        TypeExpr::Enumeration(_, elements) => push_elements(alloc, all, elements.as_slice()),
        _ => Ok(()),
    }
}

// The elements that are no numbers.
fn push_elements(
    alloc: Global,
    all: &mut Items<Text>,
    elements: &[WrittenElement],
) -> Result<(), AllocError>
    ensures { OnOk result (all.new ≡ all.old ++ flat_map symbol_in elements.now) }
{
    for element in elements {
        push_element(alloc, all, element)?;
    }
    Ok(())
}

fn push_element(
    alloc: Global,
    all: &mut Items<Text>,
    element: &WrittenElement,
) -> Result<(), AllocError>
    ensures { OnOk result (all.new ≡ all.old ++ symbol_in element.now) }
{
    match element.number {
        None => all.push(element.text.copy(alloc)?),
        Some(_) => Ok(()),
    }
}

fn push_names(alloc: Global, all: &mut Items<Text>, names: &[Identifier]) -> Result<(), AllocError>
    ensures { OnOk result (all.new ≡ all.old ++ map (λ (x : Identifier). x.name) names.now) }
{
    for x in names {
        all.push(x.name.copy(alloc)?)?;
    }
    Ok(())
}
