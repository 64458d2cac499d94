//! Types of variables that are counted as they come, and kept while they have few slots.

ghost use Rattle.std.specs.Prelude.{◌≡◌, ◌+◌, [], ◌∷◌, ◌++◌, List, true, min, OnOk};
ghost use Rattle.smv_declared.specs.declared.variable_type.VariableType.{VariableType};
ghost use Rattle.smv_declared.specs.Tally.{Tallies};
ghost use Rattle.smv_declared.specs.Types.{Tells, most_slots, size_of};

use crate::{Bounds, Declared, VariableType};
use sqlite_items::Items;
use std::alloc::{AllocError, Global};

/// A program has at most this many slots.
const MOST_SLOTS: usize = 65536;

// The types so far. Where they have more slots than a program may have, one more than those is counted, and no type is added.
#[derive(Debug, Drop)]
pub(crate) struct Tally {
    slots: usize,
    types: Items<VariableType>,
}

pub(crate) fn no_types(alloc: Global) -> Tally
    ensures { Tallies [] result }
{
    Tally {
        slots: 0,
        types: Items::new(alloc),
    }
}

pub(crate) fn add(tally: &mut Tally, declared: VariableType) -> Result<(), AllocError>
    ensures { (all : List VariableType) → Tallies all tally.old → OnOk result (Tallies (all ++ declared ∷ []) tally.new) }
{
    let size = size_of(declared.dimensions.as_slice());
    tally.slots = tally.slots.saturating_add(size).min(MOST_SLOTS + 1);
    if tally.slots <= MOST_SLOTS {
        tally.types.push(declared)?;
    }
    Ok(())
}

// Whether they have more slots than a program may have. More types change nothing then.
pub(crate) fn is_full(tally: &Tally) -> bool
    ensures { result ≡ true → (all more : List VariableType) → Tallies all tally.now → Tallies (all ++ more) tally.now }
{
    tally.slots > MOST_SLOTS
}

// How many elements an array of these dimensions has, if those are few.
fn size_of(dimensions: &[Bounds]) -> usize
    ensures { result ≡ min (size_of dimensions.now) (most_slots + 1) }
{
    let mut size: usize = 1;
    for bounds in dimensions {
        size = size.saturating_mul(bounds.count).min(MOST_SLOTS + 1);
    }
    size
}

pub(crate) fn declared_by(tally: Tally) -> Declared
    ensures { (all : List VariableType) → Tallies all tally → Tells all result }
{
    if tally.slots <= MOST_SLOTS {
        Declared::Types(tally.types)
    } else {
        Declared::TooMany
    }
}
