//! Where the bits of states and inputs stand among the variables.

ghost use Rattle.std.specs.Prelude.{◌≡◌, ◌+◌, ◌<◌, ◌≤◌, ◌^◌, true, IfOk, IfErr, MatchOption, IsTrue, ◌↔◌};
ghost use Rattle.std.specs.List.{list_all, range_with_len};
ghost use Rattle.value_types.specs.Types.{is_type};
ghost use Rattle.bit_states.specs.declared.layout.BuildStop.TheVariants.{NoMemory};
ghost use Rattle.bit_states.specs.Layouts.{HasTypes, IsBuildStop, bit_limit, bits_of, layout_of};
ghost use Rattle.bit_states.specs.Values.{width_of_all};

use crate::types::{input_types, state_types, width_of_all};
use smv_meaning::Typed;
use sqlite_items::Items;
use std::alloc::{AllocError, Global};
use std::marker::Model;
use value_types::ValueType;

/// The numbers of the bits of a step: those of the state, of the next one and of the inputs, each in the order of its
/// slots, the low bit of each value first. It has the types of their values too.
#[derive(Drop)]
pub struct Layout {
    state: Items<usize>,
    next: Items<usize>,
    inputs: Items<usize>,
    state_types: Items<ValueType>,
    input_types: Items<ValueType>,
}

impl Model for Layout {
    ghost use Rattle.std.specs.Prelude.{◌≡◌, true};
    ghost use Rattle.std.specs.List.{list_all};
    ghost use Rattle.value_types.specs.Types.{is_type};
    ghost use Rattle.bit_states.specs.Layouts.{BitLayout};

    ghost Value = { BitLayout };

    ghost view = { λ l. record { state = l.state; next = l.next; inputs = l.inputs; state_types = l.state_types; input_types = l.input_types } };

    ghost invariant = { λ l. (list_all is_type l.state_types ≡ true) × (list_all is_type l.input_types ≡ true) };
}

impl Layout {
    /// The bits of values of these types that have these numbers. It takes no memory.
    pub fn new(
        state: Items<usize>,
        next: Items<usize>,
        inputs: Items<usize>,
        state_types: Items<ValueType>,
        input_types: Items<ValueType>,
    ) -> Layout
        requires of_state { list_all is_type state_types ≡ true }
        requires of_inputs { list_all is_type input_types ≡ true }
        ensures { result ≡ record { state = state; next = next; inputs = inputs; state_types = state_types; input_types = input_types } }
    {
        Layout {
            state,
            next,
            inputs,
            state_types,
            input_types,
        }
    }

    /// The numbers of the state's bits.
    pub fn state(&self) -> &[usize]
        ensures { result.now ≡ self.now.state }
    {
        self.state.as_slice()
    }

    /// The numbers of the next state's bits.
    pub fn next(&self) -> &[usize]
        ensures { result.now ≡ self.now.next }
    {
        self.next.as_slice()
    }

    /// The numbers of the inputs' bits.
    pub fn inputs(&self) -> &[usize]
        ensures { result.now ≡ self.now.inputs }
    {
        self.inputs.as_slice()
    }

    /// The types of a state's values. They are types, as declarations ask.
    pub fn state_types(&self) -> &[ValueType]
        ensures types { result.now ≡ self.now.state_types }
        ensures declared { list_all is_type result.now ≡ true }
    {
        self.state_types.as_slice()
    }

    /// The types of the inputs of a step. They are types, as declarations ask.
    pub fn input_types(&self) -> &[ValueType]
        ensures types { result.now ≡ self.now.input_types }
        ensures declared { list_all is_type result.now ≡ true }
    {
        self.input_types.as_slice()
    }
}

/// Why no bits are laid out.
#[derive(Debug, Drop)]
pub enum BuildStop {
    /// A state and the inputs of a step have more than 65536 bits.
    TooManyBits,
    /// Memory was refused, which may come at any time.
    NoMemory,
}

impl From<AllocError> for BuildStop {
    ghost from_gives = { λ _ e. e ≡ NoMemory };

    fn from(_error: AllocError) -> BuildStop {
        BuildStop::NoMemory
    }
}

/// Where the bits of a program's states and inputs stand, if its types are types.
///
/// Time and memory grow with the slots and their types, and with the bits. `TooManyBits` comes just where a state and
/// the inputs of a step have more than 65536 bits together, and before any are laid out. The only other error is
/// running out of memory.
pub fn layout_of(alloc: Global, typed: &Typed) -> Result<Layout, BuildStop>
    requires { HasTypes typed.now.scope.program }
    ensures layout { IfOk result (λ r. r ≡ layout_of typed.now.scope.program) }
    ensures small { IfOk result (λ r. bits_of typed.now.scope.program ≤ bit_limit) }
    ensures refused { IfErr result (IsBuildStop typed.now.scope.program) }
{
    let of_state = state_types(alloc, typed)?;
    let of_inputs = input_types(alloc, typed)?;
    match widths(of_state.as_slice(), of_inputs.as_slice()) {
        None => Err(BuildStop::TooManyBits),
        Some(both) => {
            let layout = laid_out(alloc, both, of_state, of_inputs)?;
            Ok(layout)
        }
    }
}

/// Whether a state and the inputs of a step have at most 65536 bits together. It is just then that `layout_of` does not
/// answer `TooManyBits`; nothing is laid out here. Time and memory grow with the slots and their types; the only error
/// is running out of memory.
pub fn is_narrow(alloc: Global, typed: &Typed) -> Result<bool, AllocError>
    ensures { IfOk result (λ narrow. IsTrue narrow ↔ (bits_of typed.now.scope.program ≤ bit_limit)) }
{
    let of_state = state_types(alloc, typed)?;
    let of_inputs = input_types(alloc, typed)?;
    Ok(widths(of_state.as_slice(), of_inputs.as_slice()).is_some())
}

// How many bits a state has, and how many inputs have.
#[derive(Clone, Copy, Drop)]
struct BothWidths {
    state: usize,
    inputs: usize,
}

// The widths of values of these types, if they are at most 65536 together.
fn widths(of_state: &[ValueType], of_inputs: &[ValueType]) -> Option<BothWidths>
    ensures { MatchOption result (bit_limit < width_of_all of_state.now + width_of_all of_inputs.now)
        (λ r. (r.state ≡ width_of_all of_state.now) × (r.inputs ≡ width_of_all of_inputs.now) × (r.state + r.inputs ≤ bit_limit)) }
{
    let state = width_of_all(of_state)?;
    let inputs = width_of_all(of_inputs)?;
    if state + inputs <= 65_536 {
        Some(BothWidths { state, inputs })
    } else {
        None
    }
}

// The bits of a state and of inputs of so many bits.
fn laid_out(
    alloc: Global,
    widths: BothWidths,
    state_types: Items<ValueType>,
    input_types: Items<ValueType>,
) -> Result<Layout, AllocError>
    requires small { widths.state + widths.inputs ≤ 65536 }
    requires of_state { list_all is_type state_types ≡ true }
    requires of_inputs { list_all is_type input_types ≡ true }
    ensures { IfOk result (λ r. r ≡ record {
      state = range_with_len 0 widths.state;
      next = range_with_len widths.state widths.state;
      inputs = range_with_len (widths.state + widths.state) widths.inputs;
      state_types = state_types;
      input_types = input_types;
    }) }
{
    let state = numbers(alloc, 0, widths.state)?;
    let next = numbers(alloc, widths.state, widths.state)?;
    let inputs = numbers(alloc, widths.state + widths.state, widths.inputs)?;
    Ok(Layout::new(state, next, inputs, state_types, input_types))
}

/// So many numbers from `start` on. The only error is running out of memory.
pub fn numbers(alloc: Global, start: usize, len: usize) -> Result<Items<usize>, AllocError>
    requires { start + len < 2 ^ 64 }
    ensures { IfOk result (λ r. r ≡ range_with_len start len) }
{
    let mut numbers = Vec::new(alloc);
    for n in 0..len {
        numbers.push(start + n)?;
    }
    Ok(Items::from_vec(numbers))
}
