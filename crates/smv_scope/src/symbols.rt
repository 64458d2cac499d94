//! Symbol tables: which declaration a name is, found without a search.

ghost use Rattle.std.specs.Prelude.{◌≡◌, ◌==◌, ◌&&◌, ◌++◌, ℕ, List, [], None, Some, IfOk, OnOk, position, slice_get, bytes_eq};
ghost use Rattle.std.specs.List.{flat_map};
ghost use Rattle.std.specs.HashMap.{get, get_by_text};
ghost use Rattle.smv_tree.specs.declared.tree.Parameter.{Parameter};
ghost use Rattle.smv_tree.specs.declared.tree.Variable.{Variable};
ghost use Rattle.smv_tree.specs.declared.tree.VariableKind.{VariableKind};
ghost use Rattle.smv_tree.specs.declared.tree.Definition.{Definition};
ghost use Rattle.smv_scope.specs.declared.instance.Parent.{Parent};
ghost use Rattle.smv_scope.specs.Modules.{sections_of, parameters_of, variables_in, definitions_in};
ghost use Rattle.smv_scope.specs.Instances.{is_declared_by};
ghost use Rattle.smv_scope.specs.declared.instance.Instance.{Instance};
ghost use Rattle.smv_scope.specs.Symbols.{first_of, same_variable, spots_in, spots_of, AreNumbered, IsTableOf};

use crate::holders::push_ranks_of;
use crate::modules::{definitions_in, definitions_of, variables_in, variables_of};
use crate::named::{first_numbers, note_names};
use crate::{Instance, Parent};
use indexmap::IndexMap;
use smv_tree::{Definition, Module, Parameter, Program, Section, Variable, VariableKind};
use sqlite_items::Items;
use std::alloc::{AllocError, Global};
use std::collections::HashMap;
use std::hash::Hash;

/// The number of the first module of each name.
pub type ModuleNumbers = IndexMap<String, usize>;

/// Where a declaration stands: the number of its section, and its own number there.
#[derive(Clone, Copy, Debug)]
pub struct Spot {
    pub section: usize,
    pub index: usize,
}

/// For each name of a module the number of the first parameter, variable and definition that bears it; where each
/// variable and each definition stands; and which variables have values.
#[derive(Debug, Drop)]
pub struct SymbolTable {
    pub parameters: IndexMap<String, usize>,
    pub variables: IndexMap<String, usize>,
    pub definitions: IndexMap<String, usize>,
    pub variable_spots: Items<Spot>,
    pub definition_spots: Items<Spot>,
    /// For each variable how many of those before it have values.
    pub ranks: Items<usize>,
    /// So many variables have values.
    pub holders: usize,
}

/// The symbol tables of the modules.
pub fn symbol_tables(alloc: Global, program: &Program) -> Result<Items<SymbolTable>, AllocError>
    ensures { IfOk result (λ tables. (m : ℕ) → IsTableOf (parameters_of program.now m) (sections_of program.now m) (slice_get tables m)) }
{
    let mut tables = Items::new(alloc);
    push_tables(alloc, &mut tables, program)?;
    Ok(tables)
}

fn push_tables(
    alloc: Global,
    tables: &mut Items<SymbolTable>,
    program: &Program,
) -> Result<(), AllocError>
    requires { tables.old ≡ [] }
    ensures { OnOk result ((m : ℕ) → IsTableOf (parameters_of program.now m) (sections_of program.now m) (slice_get tables.new m)) }
{
    for module in program.modules.as_slice() {
        let parameters = module.parameters.as_slice();
        let table = symbol_table(alloc, parameters, module.sections.as_slice())?;
        tables.push(table)?;
    }
    Ok(())
}

fn symbol_table(
    alloc: Global,
    parameters: &[Parameter],
    sections: &[Section],
) -> Result<SymbolTable, AllocError>
    ensures { IfOk result (λ table. IsTableOf parameters.now sections.now (Some table)) }
{
    let mut table = empty_table(alloc);
    declare(alloc, &mut table, parameters, sections)?;
    Ok(table)
}

// The table of a module that declares nothing.
fn empty_table(alloc: Global) -> SymbolTable
    ensures { IsTableOf [] [] (Some result) }
{
    SymbolTable {
        parameters: IndexMap::new(alloc),
        variables: IndexMap::new(alloc),
        definitions: IndexMap::new(alloc),
        variable_spots: Items::new(alloc),
        definition_spots: Items::new(alloc),
        ranks: Items::new(alloc),
        holders: 0,
    }
}

// What a module declares comes into an empty table.
fn declare(
    alloc: Global,
    table: &mut SymbolTable,
    parameters: &[Parameter],
    sections: &[Section],
) -> Result<(), AllocError>
    requires { IsTableOf [] [] (Some table.old) }
    ensures { OnOk result (IsTableOf parameters.now sections.now (Some table.new)) }
{
    note_names(alloc, &mut table.parameters, parameters)?;
    note_variables(alloc, &mut table.variables, sections)?;
    note_definitions(alloc, &mut table.definitions, sections)?;
    push_variable_spots(&mut table.variable_spots, sections)?;
    push_definition_spots(&mut table.definition_spots, sections)?;
    table.holders = push_ranks_of(alloc, &mut table.ranks, sections)?;
    Ok(())
}

/// The number of the first module of each name.
pub fn module_numbers(alloc: Global, modules: &[Module]) -> Result<ModuleNumbers, AllocError>
    ensures { IfOk result (λ table. AreNumbered modules.now table) }
{
    first_numbers(alloc, modules)
}

// A name that has no number yet gets that of the first variable that bears it.
fn note_variables(
    alloc: Global,
    table: &mut IndexMap<String, usize>,
    sections: &[Section],
) -> Result<(), AllocError>
    ensures { OnOk result ((name : List ℕ) → get_by_text table.old name ≡ None → get_by_text table.new name ≡ position (λ (x : VariableKind × Variable). bytes_eq name x.1.name) (flat_map variables_in sections.now)) }
{
    let variables = variables_of(alloc, sections)?;
    note_names(alloc, table, variables.as_slice())
}

// A name that has no number yet gets that of the first definition that bears it.
fn note_definitions(
    alloc: Global,
    table: &mut IndexMap<String, usize>,
    sections: &[Section],
) -> Result<(), AllocError>
    ensures { OnOk result ((name : List ℕ) → get_by_text table.old name ≡ None → get_by_text table.new name ≡ position (λ (d : Definition). bytes_eq name d.name) (flat_map definitions_in sections.now)) }
{
    let definitions = definitions_of(alloc, sections)?;
    note_names(alloc, table, definitions.as_slice())
}

// Where each variable stands.
fn push_variable_spots(spots: &mut Items<Spot>, sections: &[Section]) -> Result<(), AllocError>
    ensures { OnOk result (spots.new ≡ spots.old ++ spots_of variables_in 0 sections.now) }
{
    for (k, section) in sections.iter().enumerate() {
        let (_, variables) = variables_in(section);
        push_spots(spots, k, variables.len())?;
    }
    Ok(())
}

// Where each definition stands.
fn push_definition_spots(spots: &mut Items<Spot>, sections: &[Section]) -> Result<(), AllocError>
    ensures { OnOk result (spots.new ≡ spots.old ++ spots_of definitions_in 0 sections.now) }
{
    for (k, section) in sections.iter().enumerate() {
        push_spots(spots, k, definitions_in(section).len())?;
    }
    Ok(())
}

// The spots of so many declarations of a section.
fn push_spots(spots: &mut Items<Spot>, section: usize, count: usize) -> Result<(), AllocError>
    ensures { OnOk result (spots.new ≡ spots.old ++ spots_in section count) }
{
    for index in 0..count {
        spots.push(Spot { section, index })?;
    }
    Ok(())
}

/// The number of the instance that each variable is that is one.
pub fn child_numbers(alloc: Global, tree: &[Instance]) -> Result<HashMap<Parent, usize>, AllocError>
    ensures { IfOk result (λ table. (x : Parent) → get same_variable table x ≡ position (λ (y : Instance). is_declared_by x.instance x.variable y.parent) tree.now) }
{
    let mut table = HashMap::new(alloc);
    note_parents(&mut table, tree)?;
    Ok(table)
}

// A variable that has no number yet gets that of the first instance that it is.
fn note_parents(table: &mut HashMap<Parent, usize>, tree: &[Instance]) -> Result<(), AllocError>
    ensures { OnOk result ((x : Parent) → get same_variable table.old x ≡ None → get same_variable table.new x ≡ position (λ (y : Instance). is_declared_by x.instance x.variable y.parent) tree.now) }
{
    for (k, x) in tree.iter().enumerate() {
        note_parent(table, x.parent, k)?;
    }
    Ok(())
}

fn note_parent(
    table: &mut HashMap<Parent, usize>,
    parent: Option<Parent>,
    number: usize,
) -> Result<(), AllocError>
    ensures { OnOk result ((q : Parent) → get same_variable table.new q ≡ first_of (get same_variable table.old q) (is_declared_by q.instance q.variable parent) number) }
{
    match parent {
        None => Ok(()),
        Some(variable) => number_first(table, variable, number),
    }
}

/// A key that has no number yet gets this one.
pub fn number_first<K: Copy + Drop + Eq + Hash>(
    numbers: &mut HashMap<K, usize>,
    key: K,
    number: usize,
) -> Result<(), AllocError>
    ensures { OnOk result ((q : K) → get K.eq numbers.new q ≡ first_of (get K.eq numbers.old q) (K.eq key q) number) }
{
    if numbers.contains_key(&key) {
        return Ok(());
    }
    numbers.insert(key, number)?;
    Ok(())
}
