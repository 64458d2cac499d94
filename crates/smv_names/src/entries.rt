//! Words for expressions: what parameters were given, and definitions.

ghost use Rattle.std.specs.Prelude.{◌≡◌, ◌++◌, slice_get, IfOk, OnOk};
ghost use Rattle.smv_names.specs.Defined.{body_of, defined_entries, entries_by, entries_named, entries_of, entry_graph, given_entries, owner_of};
ghost use Rattle.smv_names.specs.DefinitionLists.{listed_in, AreListed};
ghost use Rattle.smv_names.specs.Entries.{AreEntryNumbers, read_entries, read_entry};
ghost use Rattle.smv_tree.specs.Occurring.{read};

use crate::definition_lists::definition_lists;
use crate::graph::push_some;
use crate::numbers::{EntryNumbers, entry_numbered, entry_numbers};
use smv_scope::{Parent, Scope, arguments_by, name_target};
use smv_tree::{Definition, Expr, names_in};
use sqlite_items::Items;
use std::alloc::{AllocError, Global};

/// An entry in the graph of definitions: a word for an expression.
#[derive(Clone, Copy, Debug)]
pub(crate) enum DefinitionEntry<'a> {
    /// What the parameter of this number of the instance `at` was given, an expression that stands in the instance
    /// `owner`.
    Given {
        at: usize,
        parameter: usize,
        owner: usize,
        argument: &'a Expr,
    },
    /// The definition of this number of the instance `at`.
    Defined {
        at: usize,
        number: usize,
        definition: &'a Definition,
    },
}

/// The entries of a program.
pub(crate) fn entries_of<'a>(
    alloc: Global,
    scope: &'a Scope,
) -> Result<Vec<DefinitionEntry<'a>>, AllocError>
    ensures { IfOk result (λ entries. read_entries entries.items ≡ entries_of scope.now.program) }
{
    let lists = definition_lists(alloc, &scope.program)?;
    let mut entries = Vec::new(alloc);
    push_entries(&mut entries, scope, lists.as_slice())?;
    Ok(entries)
}

// Adds them by the definitions of each module.
fn push_entries<'a>(
    entries: &mut Vec<DefinitionEntry<'a>>,
    scope: &'a Scope,
    lists: &[Vec<&'a Definition>],
) -> Result<(), AllocError>
    requires { AreListed scope.now.program lists.now }
    ensures { OnOk result (read_entries entries.new.items ≡ read_entries entries.old.items ++ entries_of scope.now.program) }
{
    for (n, x) in scope.tree.as_slice().iter().enumerate() {
        push_given(entries, scope, n, x.parent)?;
        push_listed(entries, lists, n, x.of_module)?;
    }
    Ok(())
}

// Adds what the parameters of an instance were given by its parent.
fn push_given<'a>(
    entries: &mut Vec<DefinitionEntry<'a>>,
    scope: &'a Scope,
    at: usize,
    parent: Option<Parent>,
) -> Result<(), AllocError>
    ensures { OnOk result (read_entries entries.new.items ≡ read_entries entries.old.items ++ entries_by scope.now.program at parent) }
{
    match parent {
        None => Ok(()),
        Some(parent) => push_arguments(entries, at, parent.instance, arguments_by(scope, parent)),
    }
}

fn push_arguments<'a>(
    entries: &mut Vec<DefinitionEntry<'a>>,
    at: usize,
    owner: usize,
    arguments: &'a [Expr],
) -> Result<(), AllocError>
    ensures { OnOk result (read_entries entries.new.items ≡ read_entries entries.old.items ++ given_entries at owner 0 arguments.now) }
{
    for (parameter, argument) in arguments.iter().enumerate() {
        entries.push(DefinitionEntry::Given {
            at,
            parameter,
            owner,
            argument,
        })?;
    }
    Ok(())
}

// Adds the definitions of an instance of the module of this number.
fn push_listed<'a>(
    entries: &mut Vec<DefinitionEntry<'a>>,
    lists: &[Vec<&'a Definition>],
    at: usize,
    m: usize,
) -> Result<(), AllocError>
    ensures { OnOk result (read_entries entries.new.items ≡ read_entries entries.old.items ++ defined_entries at 0 (listed_in (slice_get lists.now m))) }
{
    match sqlite_items::at(lists, m) {
        None => Ok(()),
        Some(list) => push_defined(entries, at, list.as_slice()),
    }
}

fn push_defined<'a>(
    entries: &mut Vec<DefinitionEntry<'a>>,
    at: usize,
    definitions: &[&'a Definition],
) -> Result<(), AllocError>
    ensures { OnOk result (read_entries entries.new.items ≡ read_entries entries.old.items ++ defined_entries at 0 (read definitions.now)) }
{
    for (number, definition) in definitions.iter().enumerate() {
        entries.push(DefinitionEntry::Defined {
            at,
            number,
            definition: *definition,
        })?;
    }
    Ok(())
}

/// The graph of entries: each leads to those that it names.
#[tactic(auto, unfolding(crate::specs::Defined::entry_graph))]
pub(crate) fn entry_graph(
    alloc: Global,
    scope: &Scope,
    entries: &[DefinitionEntry],
) -> Result<Vec<Items<usize>>, AllocError>
    requires { read_entries entries.now ≡ entries_of scope.now.program }
    ensures { IfOk result (λ g. g.items ≡ entry_graph scope.now.program) }
{
    let numbers = entry_numbers(alloc, entries)?;
    let mut graph = Vec::new(alloc);
    for x in entries {
        let named = entries_named(alloc, scope, &numbers, x)?;
        graph.push(named)?;
    }
    Ok(graph)
}

// The entries that the expression of an entry names.
fn entries_named(
    alloc: Global,
    scope: &Scope,
    numbers: &EntryNumbers,
    x: &DefinitionEntry,
) -> Result<Items<usize>, AllocError>
    requires { AreEntryNumbers (entries_of scope.now.program) numbers.now }
    ensures { IfOk result (λ named. named ≡ entries_named scope.now.program (read_entry x.now)) }
{
    let owner = owner_of(x);
    let names = names_in(alloc, body_of(x))?;
    let mut named = Vec::new(alloc);
    for name in names.as_slice() {
        push_some(
            &mut named,
            entry_numbered(numbers, name_target(scope, owner, name)),
        )?;
    }
    Ok(Items::from_vec(named))
}

fn owner_of(x: &DefinitionEntry) -> usize
    ensures { result ≡ owner_of (read_entry x.now) }
{
    match x {
        DefinitionEntry::Given { owner, .. } => *owner,
        DefinitionEntry::Defined { at, .. } => *at,
    }
}

fn body_of<'a>(x: &DefinitionEntry<'a>) -> &'a Expr
    ensures { result.now ≡ body_of (read_entry x.now) }
{
    match x {
        DefinitionEntry::Given { argument, .. } => *argument,
        DefinitionEntry::Defined { definition, .. } => &definition.body,
    }
}
