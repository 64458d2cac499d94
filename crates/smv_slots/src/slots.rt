//! The slots of a program: its variables that have values, the elements of each, and their numbers.

ghost use Rattle.std.specs.Prelude.{◌≡◌, ◌++◌, map, IfOk, OnOk};
ghost use Rattle.std.specs.List.{flat_map, range_with_len, zip};
ghost use Rattle.smv_scope.specs.Modules.{variables_in};
ghost use Rattle.smv_declared.specs.Types.{variable_types_of};
ghost use Rattle.smv_slots.specs.Slots.{element_at, elements_of, holders_from, holders_of, holders_with, indexed, slots_of};

use crate::sizes::size_of;
use crate::{Holder, Slot};
use smv_declared::VariableType;
use smv_scope::{Scope, holds, sections_of, variables_of};
use smv_tree::{Section, Variable, VariableKind};
use sqlite_items::Items;
use std::alloc::{AllocError, Global};

/// The slots of a program, instance by instance in the order of the source, those of an array with its last index
/// fastest (NuSMV 2.6 User Manual, 2.1.6 and 2.3.1). The variables that have values are of these types, in their order.
///
/// Linear in the declarations of all instances and in the slots. Memory is also refused where there are more slots than
/// can be counted.
#[tactic(auto, unfolding(crate::specs::Slots::slots_of))]
pub fn slots_of(
    alloc: Global,
    scope: &Scope,
    variables: &[VariableType],
) -> Result<Items<Slot>, AllocError>
    requires { variables.now ≡ variable_types_of scope.now.program }
    ensures { IfOk result (λ slots. slots ≡ slots_of scope.now.program) }
{
    let holders = holders_of(alloc, scope)?;
    let slots = all_elements(alloc, holders.as_slice(), variables)?;
    indexed(alloc, slots.as_slice())
}

// The variables that have values.
fn holders_of(alloc: Global, scope: &Scope) -> Result<Items<Holder>, AllocError>
    ensures { IfOk result (λ holders. holders ≡ holders_of scope.now.program) }
{
    let mut holders = Items::new(alloc);
    for (at, x) in scope.tree.as_slice().iter().enumerate() {
        let sections = sections_of(&scope.program, x.of_module);
        push_holders(alloc, &mut holders, at, sections)?;
    }
    Ok(holders)
}

// Those of an instance of a module with these sections.
fn push_holders(
    alloc: Global,
    holders: &mut Items<Holder>,
    at: usize,
    sections: &[Section],
) -> Result<(), AllocError>
    ensures { OnOk result (holders.new ≡ holders.old ++ holders_from at 0 (flat_map variables_in sections.now)) }
{
    let variables = variables_of(alloc, sections)?;
    for (v, x) in variables.iter().enumerate() {
        push_holder(holders, at, v, x.0, x.1)?;
    }
    Ok(())
}

// A variable, if it has a value.
fn push_holder(
    holders: &mut Items<Holder>,
    at: usize,
    v: usize,
    kind: VariableKind,
    variable: &Variable,
) -> Result<(), AllocError>
    ensures { OnOk result (holders.new ≡ holders.old ++ holders_with at v kind variable.now) }
{
    if !holds(variable) {
        return Ok(());
    }
    holders.push(Holder {
        instance: at,
        variable: v,
        kind,
    })
}

// The slots of variables of these types, before they are numbered.
fn all_elements(
    alloc: Global,
    holders: &[Holder],
    types: &[VariableType],
) -> Result<Items<Slot>, AllocError>
    ensures { IfOk result (λ slots. slots ≡ flat_map elements_of (zip holders.now types.now)) }
{
    let mut slots = Items::new(alloc);
    for (holder, declared) in holders.iter().zip(types) {
        let size = size_of(declared.dimensions.as_slice())?;
        push_elements(&mut slots, *holder, size)?;
    }
    Ok(slots)
}

// So many elements of a variable.
fn push_elements(slots: &mut Items<Slot>, holder: Holder, size: usize) -> Result<(), AllocError>
    ensures { OnOk result (slots.new ≡ slots.old ++ map (element_at holder) (range_with_len 0 size)) }
{
    for element in 0..size {
        slots.push(Slot {
            instance: holder.instance,
            variable: holder.variable,
            kind: holder.kind,
            element,
            declared: 0,
            index: 0,
        })?;
    }
    Ok(())
}

// Each slot with its own number, and with that among the inputs, or among the slots of the state.
fn indexed(alloc: Global, slots: &[Slot]) -> Result<Items<Slot>, AllocError>
    ensures { IfOk result (λ all. all ≡ indexed 0 0 slots.now) }
{
    let mut all = Items::new(alloc);
    let mut held = 0;
    let mut inputs = 0;
    for slot in slots {
        if slot.kind == VariableKind::Input {
            all.push(Slot {
                declared: held + inputs,
                index: inputs,
                ..*slot
            })?;
            inputs += 1;
        } else {
            all.push(Slot {
                declared: held + inputs,
                index: held,
                ..*slot
            })?;
            held += 1;
        }
    }
    Ok(all)
}
