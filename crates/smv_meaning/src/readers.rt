//! Parts of a program that callers look for.

ghost use Rattle.std.specs.Prelude.{◌≡◌, true, map, All, IfOk};
ghost use Rattle.smv_tree.specs.declared.tree.VariableKind.{VariableKind};
ghost use Rattle.smv_resolve.specs.Items.{item_by};
ghost use Rattle.smv_slots.specs.Slots.{is_input, slots_of};
ghost use Rattle.smv_meaning.specs.Runs.{input_slots, is_claim, specifications_of, state_slots};

use crate::Typed;
use smv_resolve::{Item, ItemKind};
use smv_slots::Slot;
use smv_tree::VariableKind;
use sqlite_items::Items;
use std::alloc::{AllocError, Global};

/// The slots of a program, in their order.
pub fn slots(typed: &Typed) -> &[Slot]
    ensures { result.now ≡ slots_of typed.now.scope.program }
{
    typed.slots.as_slice()
}

/// Those of these slots that a state has, in their order.
pub fn state_slots(alloc: Global, slots: &[Slot]) -> Result<Items<Slot>, AllocError>
    ensures { IfOk result (λ found. found ≡ state_slots slots.now) }
{
    let mut found = Vec::new(alloc);
    for slot in slots {
        if !is_input(slot.kind) {
            found.push(*slot)?;
        }
    }
    Ok(Items::from_vec(found))
}

/// Those of them that are inputs, in their order.
pub fn input_slots(alloc: Global, slots: &[Slot]) -> Result<Items<Slot>, AllocError>
    ensures { IfOk result (λ found. found ≡ input_slots slots.now) }
{
    let mut found = Vec::new(alloc);
    for slot in slots {
        if is_input(slot.kind) {
            found.push(*slot)?;
        }
    }
    Ok(Items::from_vec(found))
}

/// The specifications of a program, in the order of its items.
pub fn specifications(alloc: Global, typed: &Typed) -> Result<Items<Item>, AllocError>
    ensures resolved { IfOk result (λ specs. map (item_by typed.now.nodes) specs ≡ specifications_of typed.now.scope.program) }
    ensures claims { IfOk result (All (λ item. is_claim item.kind ≡ true)) }
{
    let mut specifications = Vec::new(alloc);
    for item in typed.items.as_slice() {
        if is_claim(item.kind) {
            specifications.push(*item)?;
        }
    }
    Ok(Items::from_vec(specifications))
}

fn is_input(kind: VariableKind) -> bool
    ensures { result ≡ is_input kind }
{
    match kind {
        VariableKind::Input => true,
        VariableKind::State | VariableKind::Frozen => false,
    }
}

/// Whether an item of this kind is a specification.
pub fn is_claim(kind: ItemKind) -> bool
    ensures { result ≡ is_claim kind }
{
    match kind {
        ItemKind::Specification(_) => true,
        ItemKind::Assignment(_) | ItemKind::Constraint(_) => false,
    }
}
