//! The types of the values of a state and of inputs, and their bits.

ghost use Rattle.std.specs.Prelude.{◌≡◌, ◌<◌, ◌≤◌, map, IfOk, MatchOption, slice_get, unwrap_or};
ghost use Rattle.value_types.specs.declared.value_type.ValueType.TheVariants.{Boolean};
ghost use Rattle.bit_states.specs.Layouts.{bit_limit, input_types, state_types, type_of_slot};
ghost use Rattle.bit_states.specs.Values.{width_of_all};

use bit_values::width;
use smv_meaning::{Typed, input_slots, state_slots};
use smv_slots::Slot;
use sqlite_items::{Items, at};
use std::alloc::{AllocError, Global};
use value_types::ValueType;

// How many bits a state and the inputs of a step may have together.
const MOST: usize = 65_536;

/// The types of the values of a state, in their order. The only error is running out of memory.
pub fn state_types(alloc: Global, typed: &Typed) -> Result<Items<ValueType>, AllocError>
    ensures { IfOk result (λ r. r ≡ state_types typed.now.scope.program) }
{
    let slots = state_slots(alloc, typed.slots.as_slice())?;
    types_of_slots(alloc, typed.types.as_slice(), slots.as_slice())
}

/// The types of the inputs of a step, in their order. The only error is running out of memory.
pub fn input_types(alloc: Global, typed: &Typed) -> Result<Items<ValueType>, AllocError>
    ensures { IfOk result (λ r. r ≡ input_types typed.now.scope.program) }
{
    let slots = input_slots(alloc, typed.slots.as_slice())?;
    types_of_slots(alloc, typed.types.as_slice(), slots.as_slice())
}

// The types of these slots, where these are the types of all slots.
fn types_of_slots(
    alloc: Global,
    types: &[ValueType],
    slots: &[Slot],
) -> Result<Items<ValueType>, AllocError>
    ensures { IfOk result (λ r. r ≡ map (type_of_slot types.now) slots.now) }
{
    let mut made = Vec::new(alloc);
    for slot in slots {
        let declared = type_at(alloc, types, slot.declared)?;
        made.push(declared)?;
    }
    Ok(Items::from_vec(made))
}

// The type of this number.
fn type_at(alloc: Global, types: &[ValueType], number: usize) -> Result<ValueType, AllocError>
    ensures { IfOk result (λ t. t ≡ unwrap_or (slice_get types.now number) Boolean) }
{
    match at(types, number) {
        Some(declared) => declared.copied(alloc),
        None => Ok(ValueType::Boolean),
    }
}

/// How many bits values of these types have, one of each; `None` if that is more than 65536.
pub fn width_of_all(types: &[ValueType]) -> Option<usize>
    ensures { MatchOption result (bit_limit < width_of_all types.now) (λ n. (n ≡ width_of_all types.now) × (n ≤ bit_limit)) }
{
    let mut total = 0;
    for declared in types {
        let more = width(declared);
        if more > MOST - total {
            return None;
        }
        total += more;
    }
    Some(total)
}
