//! The types of slots.

ghost use Rattle.std.specs.Prelude.{◌≡◌, ◌++◌, IfOk, OnOk};
ghost use Rattle.smv_tree.specs.declared.tree.Program.{Program};
ghost use Rattle.smv_declared.specs.Types.{variable_types_of};
ghost use Rattle.smv_slots.specs.Slots.{slot_types, types_of, types_with};

use crate::sizes::size_of;
use smv_declared::VariableType;
use sqlite_items::Items;
use std::alloc::{AllocError, Global};
use value_types::ValueType;

/// The type of each slot of a program, whose variables that have values are of these types: that of an element, once
/// for each.
///
/// Linear in the slots and in the elements of their enumerations. Memory is also refused where there are more slots
/// than can be counted.
#[tactic(auto, unfolding(crate::specs::Slots::types_of))]
pub fn types_of(alloc: Global, variables: &[VariableType]) -> Result<Items<ValueType>, AllocError>
    ensures { IfOk result (λ types. (p : Program) → variables.now ≡ variable_types_of p → types ≡ types_of p) }
{
    slot_types(alloc, variables)
}

fn slot_types(alloc: Global, variables: &[VariableType]) -> Result<Items<ValueType>, AllocError>
    ensures { IfOk result (λ types. types ≡ slot_types variables.now) }
{
    let mut types = Items::new(alloc);
    for declared in variables {
        push_types(alloc, &mut types, declared)?;
    }
    Ok(types)
}

// The type of each slot of a variable.
fn push_types(
    alloc: Global,
    types: &mut Items<ValueType>,
    declared: &VariableType,
) -> Result<(), AllocError>
    ensures { OnOk result (types.new ≡ types.old ++ types_with declared.now) }
{
    let size = size_of(declared.dimensions.as_slice())?;
    for k in 0..size {
        types.push(declared.element.copied(alloc)?)?;
    }
    Ok(())
}
