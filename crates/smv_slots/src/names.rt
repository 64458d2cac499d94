//! The names of slots, as they are printed.

ghost use Rattle.std.specs.Prelude.{◌≡◌, ◌++◌, ◌/◌, ◌%◌, string_bytes, IfOk, OnOk, pos, ◌+ℤ◌};
ghost use Rattle.smv_scope.specs.Paths.{joined};
ghost use Rattle.smv_declared.specs.Types.{variable_types_of};
ghost use Rattle.smv_slots.specs.Names.{bracketed, dimensions_of, indices_of, slot_name};

use crate::Slot;
use crate::sizes::size_of;
use plain_text::Text;
use smv_declared::{Bounds, VariableType};
use smv_scope::{Scope, holder_number, path_of, variable_name};
use std::alloc::{AllocError, Global};

/// The name of a slot behind the path of its instance, as `m.x`; that of an element with its indices, as `m.a[2][-1]`.
/// The variables that have values are of these types, in their order.
///
/// Linear in the name, and quadratic in the dimensions of an array. Memory is also refused where an array has more
/// elements, or an index is greater, than can be counted.
pub fn slot_name(
    alloc: Global,
    scope: &Scope,
    variables: &[VariableType],
    slot: &Slot,
) -> Result<Text, AllocError>
    requires { variables.now ≡ variable_types_of scope.now.program }
    ensures { IfOk result (λ name. name ≡ slot_name scope.now.program slot.now) }
{
    let path = path_of(alloc, scope, slot.instance)?;
    let own = variable_name(scope, slot.instance, slot.variable);
    let number = holder_number(scope, slot.instance, slot.variable);
    let mut name = joined(alloc, path.as_str(), own)?;
    push_indices(
        alloc,
        &mut name,
        dimensions_of(variables, number),
        slot.element,
    )?;
    Text::from_str(alloc, name.as_str())
}

// A name behind a path.
fn joined(alloc: Global, path: &str, own: &str) -> Result<String, AllocError>
    ensures { IfOk result (λ name. string_bytes name ≡ joined path.now own.now) }
{
    let mut name = String::from_str(alloc, path)?;
    if !path.is_empty() {
        name.push_str(".")?;
    }
    name.push_str(own)?;
    Ok(name)
}

// The dimensions of the variable of this number.
fn dimensions_of(variables: &[VariableType], number: Option<usize>) -> &[Bounds]
    ensures { result.now ≡ dimensions_of variables.now number }
{
    let Some(n) = number else {
        return &[];
    };
    match variables.get(n) {
        None => &[],
        Some(declared) => declared.dimensions.as_slice(),
    }
}

// The indices of the element of this number come behind a name.
fn push_indices(
    alloc: Global,
    name: &mut String,
    dimensions: &[Bounds],
    element: usize,
) -> Result<(), AllocError>
    ensures { OnOk result (string_bytes name.new ≡ string_bytes name.old ++ indices_of dimensions.now element) }
{
    let mut left = element;
    for (d, bounds) in dimensions.iter().enumerate() {
        let size = size_of(&dimensions[d + 1..])?;
        let (position, rest) = position_in(left, size);
        push_index(alloc, name, *bounds, position)?;
        left = rest;
    }
    Ok(())
}

// In which part an element stands where each part has so many, and its number there.
fn position_in(element: usize, size: usize) -> (usize, usize)
    ensures position { result.0 ≡ element / size }
    ensures rest { result.1 ≡ element % size }
{
    if size == 0 {
        (0, element)
    } else {
        (element / size, element % size)
    }
}

// The index at this position of a dimension comes behind a name.
fn push_index(
    alloc: Global,
    name: &mut String,
    bounds: Bounds,
    position: usize,
) -> Result<(), AllocError>
    ensures { OnOk result (string_bytes name.new ≡ string_bytes name.old ++ bracketed (bounds.low +ℤ pos position)) }
{
    if position > 4294967295 {
        return Err(AllocError);
    }
    let index = i64::from(bounds.low) + position as i64;
    let text = format!(in alloc; "[{index}]")?;
    name.push_str(text.as_str())
}
