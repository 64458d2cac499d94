//! The names of slots.

ghost use Rattle.std.specs.Prelude.{◌≡◌, IfOk};
ghost use Rattle.smv_flat.specs.Assignments.{name_of_slot};

use plain_text::Text;
use smv_meaning::Typed;
use smv_slots::slot_name;
use std::alloc::{AllocError, Global};

/// The name of the slot of this number; no text where there is no such slot.
pub fn name_of_slot(alloc: Global, typed: &Typed, n: usize) -> Result<Text, AllocError>
    ensures { IfOk result (λ name. name ≡ name_of_slot typed.now.scope.program n) }
{
    match typed.slots.as_slice().get(n) {
        Some(slot) => slot_name(alloc, &typed.scope, typed.variables.as_slice(), slot),
        None => Text::from_str(alloc, ""),
    }
}
