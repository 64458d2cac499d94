//! The names of slots, and by what values are told.

ghost use Rattle.std.specs.Prelude.{◌≡◌, map, IfOk};
ghost use Rattle.trace_replay.specs.Rows.{column_of, input_columns, state_columns, terms_of};

use plain_text::Text;
use smv_meaning::{Typed, input_slots, state_slots};
use smv_slots::{Slot, slot_name};
use sqlite_items::Items;
use std::alloc::{AllocError, Global};
use value_texts::Symbols;

/// The name of a slot, and the number of its type.
#[derive(Debug, Drop)]
pub struct Column {
    pub name: Text,
    pub declared: usize,
}

/// Those of the slots of a state.
pub fn state_columns(alloc: Global, typed: &Typed) -> Result<Items<Column>, AllocError>
    ensures { IfOk result (λ columns. columns ≡ state_columns typed.now.scope.program) }
{
    let slots = state_slots(alloc, typed.slots.as_slice())?;
    columns_of(alloc, typed, slots.as_slice())
}

/// Those of the input slots.
pub fn input_columns(alloc: Global, typed: &Typed) -> Result<Items<Column>, AllocError>
    ensures { IfOk result (λ columns. columns ≡ input_columns typed.now.scope.program) }
{
    let slots = input_slots(alloc, typed.slots.as_slice())?;
    columns_of(alloc, typed, slots.as_slice())
}

fn columns_of(alloc: Global, typed: &Typed, slots: &[Slot]) -> Result<Items<Column>, AllocError>
    ensures { IfOk result (λ columns. columns ≡ map (column_of typed.now.scope.program) slots.now) }
{
    let mut columns = Vec::new(alloc);
    for slot in slots {
        columns.push(Column {
            name: slot_name(alloc, &typed.scope, typed.variables.as_slice(), slot)?,
            declared: slot.declared,
        })?;
    }
    Ok(Items::from_vec(columns))
}

/// The names of symbols.
#[tactic(auto, unfolding(crate::specs::Rows::terms_of))]
pub fn symbols(typed: &Typed) -> Symbols<'_>
    ensures { result.names.now ≡ (terms_of typed.now.scope.program).names }
{
    Symbols {
        names: typed.scope.symbol_names.as_slice(),
        numbers: &typed.scope.symbol_numbers,
    }
}
