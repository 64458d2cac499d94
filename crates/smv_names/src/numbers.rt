//! The numbers of entries, found without a search.

ghost use Rattle.std.specs.Prelude.{◌≡◌, List, false, true, IfOk, position};
ghost use Rattle.std.specs.HashMap.{get};
ghost use Rattle.smv_scope.specs.Targets.{shared_eq};
ghost use Rattle.smv_scope.specs.Targets.{seen};
ghost use Rattle.smv_names.specs.Defined.{Entry, is_entry};
ghost use Rattle.smv_names.specs.Entries.{AreEntryNumbers, key_of, read_entries, read_entry};

use crate::entries::DefinitionEntry;
use smv_scope::{NameTarget, Shared, number_first};
use std::alloc::{AllocError, Global};
use std::collections::HashMap;

/// The number of the first entry for what names share.
pub(crate) type EntryNumbers = HashMap<Shared, usize>;

/// The number of the first entry for what names share.
pub(crate) fn entry_numbers(
    alloc: Global,
    entries: &[DefinitionEntry],
) -> Result<EntryNumbers, AllocError>
    ensures { IfOk result (λ numbers. AreEntryNumbers (read_entries entries.now) numbers) }
{
    let mut numbers = HashMap::new(alloc);
    for (n, x) in entries.iter().enumerate() {
        number_first(&mut numbers, key_of(x), n)?;
    }
    Ok(numbers)
}

/// The number of the entry that a target is, if it is one.
pub(crate) fn entry_numbered(numbers: &EntryNumbers, target: NameTarget) -> Option<usize>
    ensures { (entries : List Entry) → AreEntryNumbers entries numbers.now → result ≡ position (is_entry (seen target.entry)) entries }
{
    match target {
        NameTarget::Given { at, parameter, .. } => number_of(numbers, given_key(at, parameter)),
        NameTarget::Defined { at, definition, .. } => {
            number_of(numbers, defined_key(at, definition))
        }
        _ => None,
    }
}

fn number_of(numbers: &EntryNumbers, key: Shared) -> Option<usize>
    ensures { result ≡ get shared_eq numbers.now key }
{
    numbers.get(&key).copied()
}

fn key_of(x: &DefinitionEntry) -> Shared
    ensures { result ≡ key_of (read_entry x.now) }
{
    match x {
        DefinitionEntry::Given { at, parameter, .. } => given_key(*at, *parameter),
        DefinitionEntry::Defined { at, number, .. } => defined_key(*at, *number),
    }
}

// What the parameter of this number of the instance `at` was given.
fn given_key(at: usize, number: usize) -> Shared
    ensures { result ≡ record { is_definition = false; at = at; number = number } }
{
    Shared {
        is_definition: false,
        at,
        number,
    }
}

// The definition of this number of the instance `at`.
fn defined_key(at: usize, number: usize) -> Shared
    ensures { result ≡ record { is_definition = true; at = at; number = number } }
{
    Shared {
        is_definition: true,
        at,
        number,
    }
}
