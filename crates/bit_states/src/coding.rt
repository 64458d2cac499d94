//! The bits of states and inputs, and the states and inputs that bits are.

ghost use Rattle.std.specs.Prelude.{◌≡◌, ◌≤◌, ◌++◌, ℕ, true, false, length, map, take, drop, IfOk, slice_get, slice_index_or};
ghost use Rattle.std.specs.List.{list_all};
ghost use Rattle.value_types.specs.Types.{is_type};
ghost use Rattle.bit_values.specs.Bits.{width_of};
ghost use Rattle.bit_states.specs.Values.{decoded_all, encoded_all};
ghost use Rattle.bit_states.specs.Coding.{decoded};

use crate::layout::Layout;
use bit_values::{from_bits, least_bits, to_bits, width};
use smv_meaning::{Inputs, State};
use smv_value::Value;
use sqlite_items::Items;
use std::alloc::{AllocError, Global};
use value_types::ValueType;

impl Layout {
    /// The bits of a state. Time and memory grow with them, and with the elements of enumerations; the only error is
    /// running out of memory.
    pub fn encode(&self, alloc: Global, s: &State) -> Result<Vec<bool>, AllocError>
        ensures { IfOk result (λ bits. bits.items ≡ encoded_all self.now.state_types s.now) }
    {
        encoded(alloc, self.state_types(), s.as_slice())
    }

    /// The state that the bits are; bits past the end of the list are false. The only error is running out of memory.
    pub fn decode(&self, alloc: Global, bits: &[bool]) -> Result<State, AllocError>
        ensures { IfOk result (λ s. s ≡ decoded self.now.state_types self.now.state (λ k. slice_index_or bits.now k false)) }
    {
        decoded(alloc, self.state_types(), self.state(), bits)
    }

    /// The inputs of a step that the values of all bits are. The only error is running out of memory.
    pub fn decode_inputs(&self, alloc: Global, bits: &[bool]) -> Result<Inputs, AllocError>
        ensures { IfOk result (λ u. u ≡ decoded self.now.input_types self.now.inputs (λ k. slice_index_or bits.now k false)) }
    {
        decoded(alloc, self.input_types(), self.inputs(), bits)
    }
}

/// The bits of values of these types, one of each. The only error is running out of memory.
pub fn encoded(
    alloc: Global,
    types: &[ValueType],
    values: &[Value],
) -> Result<Vec<bool>, AllocError>
    ensures { IfOk result (λ bits. bits.items ≡ encoded_all types.now values.now) }
{
    let mut bits = Vec::new(alloc);
    for i in 0..types.len() {
        let Some(value) = value_at(values, i) else {
            return Ok(bits);
        };
        let more = to_bits(alloc, &types[i], value)?;
        bits.extend_from_slice(&more)?;
    }
    Ok(bits)
}

// The value of this number, if there is one.
fn value_at(values: &[Value], i: usize) -> Option<Value>
    ensures { result ≡ slice_get values.now i }
{
    match values.get(i) {
        None => None,
        Some(value) => Some(*value),
    }
}

/// The values of these types that the bits at these places are, one of each; bits past the end of the list are false.
/// The only error is running out of memory.
pub fn decoded(
    alloc: Global,
    types: &[ValueType],
    places: &[usize],
    bits: &[bool],
) -> Result<Items<Value>, AllocError>
    requires { list_all is_type types.now ≡ true }
    ensures { IfOk result (λ values. values ≡ decoded types.now places.now (λ k. slice_index_or bits.now k false)) }
{
    let there = bits_at(alloc, places, bits)?;
    decoded_all(alloc, types, &there)
}

// The bits at these places.
fn bits_at(alloc: Global, places: &[usize], bits: &[bool]) -> Result<Vec<bool>, AllocError>
    ensures { IfOk result (λ r. r.items ≡ map (λ k. slice_index_or bits.now k false) places.now) }
{
    let mut made = Vec::new(alloc);
    for place in places {
        made.push(bit_at(bits, *place))?;
    }
    Ok(made)
}

// The bit of this number, false past the end of the list.
fn bit_at(bits: &[bool], i: usize) -> bool
    ensures { result ≡ slice_index_or bits.now i false }
{
    match bits.get(i) {
        None => false,
        Some(bit) => *bit,
    }
}

// The values of these types that have the bits.
fn decoded_all(
    alloc: Global,
    types: &[ValueType],
    bits: &[bool],
) -> Result<Items<Value>, AllocError>
    requires { list_all is_type types.now ≡ true }
    ensures { IfOk result (λ values. values ≡ decoded_all types.now bits.now) }
{
    let mut values = Vec::new(alloc);
    let mut rest = bits;
    for declared in types {
        let n = known_width(declared);
        values.push(from_bits(declared, first_bits(rest, n)))?;
        rest = other_bits(rest, n);
    }
    Ok(Items::from_vec(values))
}

// The first bits, so many if there are.
fn first_bits(bits: &[bool], n: usize) -> &[bool]
    ensures first { result.now ≡ take n bits.now }
    ensures few { length result.now ≤ n }
{
    if n < bits.len() { &bits[..n] } else { bits }
}

// The bits behind the first ones, of which there are so many.
fn other_bits(bits: &[bool], n: usize) -> &[bool]
    ensures { result.now ≡ drop n bits.now }
{
    if n < bits.len() { &bits[n..] } else { &[] }
}

// How many bits a value of the type has.
fn known_width(declared: &ValueType) -> usize
    requires { is_type declared.now ≡ true }
    ensures width { result ≡ width_of declared.now }
    ensures few { result ≤ 128 }
{
    match declared.discrete_count() {
        Some(count) => least_bits(count),
        None => width(declared),
    }
}
