//! Modules, and what they declare.

ghost use Rattle.std.specs.Prelude.{◌≡◌, ◌++◌, IfOk, OnOk, map, option_map, position, slice_get, bytes_eq};
ghost use Rattle.std.specs.Borrow.{Bor};
ghost use Rattle.std.specs.List.{flat_map};
ghost use Rattle.std.specs.Option.{option_copied, option_and_then};
ghost use Rattle.smv_tree.specs.declared.tree.Variable.{Variable};
ghost use Rattle.smv_tree.specs.declared.tree.VariableKind.{VariableKind};
ghost use Rattle.smv_tree.specs.declared.tree.Definition.{Definition};
ghost use Rattle.smv_tree.specs.declared.tree.Parameter.{Parameter};
ghost use Rattle.smv_scope.specs.Modules.{sections_of, parameters_of, variables_in, definitions_in, variables_of, definitions_of};
ghost use Rattle.smv_scope.specs.Symbols.{declared_at};

use crate::Scope;
use crate::symbols::Spot;
use smv_tree::{Definition, Program, Section, Variable, VariableKind};
use sqlite_items::at;
use std::alloc::{AllocError, Global};

/// The sections of the module of this number.
pub fn sections_of(program: &Program, m: usize) -> &[Section]
    ensures { result.now ≡ sections_of program.now m }
{
    match program.modules.get(m) {
        None => &[],
        Some(found) => found.sections.as_slice(),
    }
}

/// The variables of a section, and their kind.
pub fn variables_in(section: &Section) -> (VariableKind, &[Variable])
    ensures { variables_in section.now ≡ map (λ (v : Variable). (result.0, v)) result.1.now }
{
    match section {
        Section::Variables(kind, variables) => (*kind, variables.as_slice()),
        _ => (VariableKind::State, &[]),
    }
}

/// The definitions of a section.
pub fn definitions_in(section: &Section) -> &[Definition]
    ensures { result.now ≡ definitions_in section.now }
{
    match section {
        Section::Definitions(definitions) => definitions.as_slice(),
        _ => &[],
    }
}

/// The number of the first parameter of this name that a module has.
pub fn parameter_named(scope: &Scope, m: usize, name: &str) -> Option<usize>
    ensures { result ≡ position (λ (x : Parameter). bytes_eq name.now x.name) (parameters_of scope.now.program m) }
{
    match scope.symbols.get(m) {
        None => None,
        Some(table) => table.parameters.get(name).copied(),
    }
}

/// The number of the first variable of this name that a module has.
pub fn variable_named(scope: &Scope, m: usize, name: &str) -> Option<usize>
    ensures { result ≡ position (λ (x : VariableKind × Variable). bytes_eq name.now x.1.name) (variables_of scope.now.program m) }
{
    match scope.symbols.get(m) {
        None => None,
        Some(table) => table.variables.get(name).copied(),
    }
}

/// The number of the first definition of this name that a module has.
pub fn definition_named(scope: &Scope, m: usize, name: &str) -> Option<usize>
    ensures { result ≡ position (λ (d : Definition). bytes_eq name.now d.name) (definitions_of scope.now.program m) }
{
    match scope.symbols.get(m) {
        None => None,
        Some(table) => table.definitions.get(name).copied(),
    }
}

/// The variable of this number of a module.
pub fn variable_at(scope: &Scope, m: usize, v: usize) -> Option<&Variable>
    ensures { option_copied result ≡ option_map (λ (x : VariableKind × Variable). x.1) (slice_get (variables_of scope.now.program m) v) }
{
    let spot = variable_spot(scope, m, v)?;
    let section = at(sections_of(&scope.program, m), spot.section)?;
    at(variables_in(section).1, spot.index)
}

// Where the variable of this number of a module stands.
fn variable_spot(scope: &Scope, m: usize, v: usize) -> Option<Spot>
    ensures { option_and_then (declared_at variables_in (sections_of scope.now.program m)) result ≡ slice_get (variables_of scope.now.program m) v }
{
    match scope.symbols.get(m) {
        None => None,
        Some(table) => table.variable_spots.get(v).copied(),
    }
}

/// The definition of this number of a module.
pub fn definition_at(scope: &Scope, m: usize, k: usize) -> Option<&Definition>
    ensures { option_copied result ≡ slice_get (definitions_of scope.now.program m) k }
{
    let spot = definition_spot(scope, m, k)?;
    let section = at(sections_of(&scope.program, m), spot.section)?;
    at(definitions_in(section), spot.index)
}

// Where the definition of this number of a module stands.
fn definition_spot(scope: &Scope, m: usize, k: usize) -> Option<Spot>
    ensures { option_and_then (declared_at definitions_in (sections_of scope.now.program m)) result ≡ slice_get (definitions_of scope.now.program m) k }
{
    match scope.symbols.get(m) {
        None => None,
        Some(table) => table.definition_spots.get(k).copied(),
    }
}

/// The variables of sections, each with its kind, in the order of the source.
pub fn variables_of<'a>(
    alloc: Global,
    sections: &'a [Section],
) -> Result<Vec<(VariableKind, &'a Variable)>, AllocError>
    ensures { IfOk result (λ all. map (λ (x : VariableKind × Bor Variable). (x.0, x.1.now)) all.items ≡ flat_map variables_in sections.now) }
{
    let mut all = Vec::new(alloc);
    push_variables_of(&mut all, sections)?;
    Ok(all)
}

fn push_variables_of<'a>(
    all: &mut Vec<(VariableKind, &'a Variable)>,
    sections: &'a [Section],
) -> Result<(), AllocError>
    ensures { OnOk result (map {B = VariableKind × Variable} (λ (x : VariableKind × Bor Variable). (x.0, x.1.now)) all.new.items
        ≡ map {B = VariableKind × Variable} (λ (x : VariableKind × Bor Variable). (x.0, x.1.now)) all.old.items ++ flat_map variables_in sections.now) }
{
    for section in sections {
        let (kind, variables) = variables_in(section);
        push_variables(all, kind, variables)?;
    }
    Ok(())
}

// The variables of a section of this kind.
fn push_variables<'a>(
    all: &mut Vec<(VariableKind, &'a Variable)>,
    kind: VariableKind,
    variables: &'a [Variable],
) -> Result<(), AllocError>
    ensures { OnOk result (map {B = VariableKind × Variable} (λ (x : VariableKind × Bor Variable). (x.0, x.1.now)) all.new.items
        ≡ map {B = VariableKind × Variable} (λ (x : VariableKind × Bor Variable). (x.0, x.1.now)) all.old.items ++ map {B = VariableKind × Variable} (λ (v : Variable). (kind, v)) variables.now) }
{
    for variable in variables {
        all.push((kind, variable))?;
    }
    Ok(())
}

/// The definitions of sections, in the order of the source.
pub fn definitions_of<'a>(
    alloc: Global,
    sections: &'a [Section],
) -> Result<Vec<&'a Definition>, AllocError>
    ensures { IfOk result (λ all. map (λ (d : Bor Definition). d.now) all.items ≡ flat_map definitions_in sections.now) }
{
    let mut all = Vec::new(alloc);
    push_definitions_of(&mut all, sections)?;
    Ok(all)
}

fn push_definitions_of<'a>(
    all: &mut Vec<&'a Definition>,
    sections: &'a [Section],
) -> Result<(), AllocError>
    ensures { OnOk result (map (λ (d : Bor Definition). d.now) all.new.items ≡ map (λ (d : Bor Definition). d.now) all.old.items ++ flat_map definitions_in sections.now) }
{
    for section in sections {
        push_definitions(all, definitions_in(section))?;
    }
    Ok(())
}

fn push_definitions<'a>(
    all: &mut Vec<&'a Definition>,
    definitions: &'a [Definition],
) -> Result<(), AllocError>
    ensures { OnOk result (map (λ (d : Bor Definition). d.now) all.new.items ≡ map (λ (d : Bor Definition). d.now) all.old.items ++ definitions.now) }
{
    for definition in definitions {
        all.push(definition)?;
    }
    Ok(())
}
