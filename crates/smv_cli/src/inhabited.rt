//! Whether a state may have inputs, so that what holds of all steps holds of it.

ghost use Rattle.std.specs.Prelude.{◌≡◌, true, OnOk};
ghost use Rattle.bit_states.specs.Layouts.{input_types};
ghost use Rattle.bit_conditions.specs.Inhabited.{all_have_values, has_values};

use bit_states::input_types;
use smv_meaning::Typed;
use std::alloc::{AllocError, Global};
use value_types::ValueType;

fn has_values(declared: &ValueType) -> bool
    ensures { result ≡ has_values declared.now }
{
    match declared {
        ValueType::Enumeration(elements) => 0 < elements.as_slice().len(),
        ValueType::Boolean => true,
        ValueType::Word { .. } => true,
        ValueType::Range { .. } => true,
    }
}

fn all_have_values(types: &[ValueType]) -> bool
    ensures { result ≡ all_have_values types.now }
{
    types.iter().all(|declared| has_values(declared))
}

/// That each input slot is of a type with values. Running out of memory is answered too where one is not: that is an
/// enumeration with no element, which no source can write.
pub fn some_inputs(alloc: Global, typed: &Typed) -> Result<(), AllocError>
    ensures { OnOk result (all_have_values (input_types typed.now.scope.program) ≡ true) }
{
    let types = input_types(alloc, typed)?;
    if all_have_values(types.as_slice()) {
        Ok(())
    } else {
        Err(AllocError)
    }
}
