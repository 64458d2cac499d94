//! Where the bits of states with inputs stand among the variables.

ghost use Rattle.std.specs.Prelude.{◌≡◌, ◌+◌, ◌<◌, ◌≤◌, ◌++◌, ◌^◌, length, slice_get, true, if◌then◌else◌, IfOk, OnOk};
ghost use Rattle.std.specs.List.{list_all, range_with_len};
ghost use Rattle.value_types.specs.Types.{is_type};
ghost use Rattle.bit_states.specs.Values.{width_of_all};
ghost use Rattle.bit_formula.specs.Coding.{all_places, joined_width, others, width_at};
ghost use Rattle.bit_formula.specs.Numbers.{AreInOrder, is_number};

use bit_states::{Layout, numbers};
use bit_values::width;
use sqlite_items::Items;
use std::alloc::{AllocError, Global};
use value_types::ValueType;

/// Where bits stand, and how many a state has with the inputs that are read.
#[derive(Drop)]
pub struct Places {
    pub layout: Layout,
    pub joint: usize,
    /// How many a state has, the next one, and the other inputs.
    pub named: usize,
}

// Whether this number stands at the place of the list.
fn is_number(numbers: &[usize], place: usize, k: usize) -> bool
    ensures { result ≡ is_number (slice_get numbers.now place) k }
{
    match numbers.get(place) {
        None => false,
        Some(n) => *n == k,
    }
}

// How many inputs so far are read, and where the bits of the next input begin, if it is read and if it is not.
#[derive(Clone, Copy, Drop)]
struct Reached {
    read: usize,
    own: usize,
    other: usize,
}

// Where the bits of input k begin.
fn start_of(reads: &[usize], reached: Reached, k: usize) -> usize
    ensures { result ≡ (if is_number (slice_get reads.now reached.read) k then reached.own else reached.other) }
{
    if is_number(reads, reached.read, k) {
        reached.own
    } else {
        reached.other
    }
}

// What is reached behind input k, which has so many bits.
fn after(reads: &[usize], reached: Reached, k: usize, width: usize) -> Reached
    requires read { reached.read + 1 < 2 ^ 64 }
    requires own { reached.own + width < 2 ^ 64 }
    requires other { reached.other + width < 2 ^ 64 }
    ensures read { result.read ≡ (if is_number (slice_get reads.now reached.read) k then reached.read + 1 else reached.read) }
    ensures own { result.own ≡ (if is_number (slice_get reads.now reached.read) k then reached.own + width else reached.own) }
    ensures other { result.other ≡ (if is_number (slice_get reads.now reached.read) k then reached.other else reached.other + width) }
{
    if is_number(reads, reached.read, k) {
        Reached {
            read: reached.read + 1,
            own: reached.own + width,
            other: reached.other,
        }
    } else {
        Reached {
            read: reached.read,
            own: reached.own,
            other: reached.other + width,
        }
    }
}

// How many bits the inputs have that are read.
fn read_width(types: &[ValueType], reads: &[usize]) -> usize
    requires small { width_of_all types.now ≤ 65536 }
    requires order { AreInOrder (length types.now) reads.now }
    ensures { result ≡ width_at types.now reads.now }
{
    let mut reached = Reached {
        read: 0,
        own: 0,
        other: 0,
    };
    for k in 0..types.len() {
        reached = after(reads, reached, k, width(&types[k]));
    }
    reached.own
}

// So many numbers more from `start` on.
fn push_numbers(made: &mut Vec<usize>, start: usize, len: usize) -> Result<(), AllocError>
    requires { start + len < 2 ^ 64 }
    ensures { OnOk result (made.new.items ≡ made.old.items ++ range_with_len start len) }
{
    for n in 0..len {
        made.push(start + n)?;
    }
    Ok(())
}

// The bits of inputs.
#[derive(Drop)]
struct InputPlaces {
    places: Items<usize>,
    // How many bits there are together with those of the states.
    named: usize,
}

// Where the bits of inputs of these types stand, where the bits of slots are so many, and those of a state with the
// inputs that are read.
fn input_places(
    alloc: Global,
    types: &[ValueType],
    slots: usize,
    reads: &[usize],
    joint: usize,
) -> Result<InputPlaces, AllocError>
    requires joint { joint ≡ joined_width types.now slots reads.now }
    requires few { slots ≤ 65536 }
    requires small { width_of_all types.now ≤ 65536 }
    requires order { AreInOrder (length types.now) reads.now }
    ensures places { IfOk result (λ r. r.places ≡ all_places types.now slots reads.now) }
    ensures named { IfOk result (λ r. r.named ≡ joint + joint + width_at types.now (others (length types.now) reads.now)) }
{
    let mut places = Vec::new(alloc);
    let mut reached = Reached {
        read: 0,
        own: slots,
        other: joint + joint,
    };
    for k in 0..types.len() {
        let n = width(&types[k]);
        push_numbers(&mut places, start_of(reads, reached, k), n)?;
        reached = after(reads, reached, k, n);
    }
    Ok(InputPlaces {
        places: Items::from_vec(places),
        named: reached.other,
    })
}

/// Where the bits of a state stand whose slots have so many, and those of inputs, of which these are read. The types
/// are those of both. Time and memory grow with the bits; the only error is running out of memory.
pub fn joint_places(
    alloc: Global,
    slots: usize,
    of_state: Items<ValueType>,
    of_inputs: Items<ValueType>,
    reads: &[usize],
) -> Result<Places, AllocError>
    requires state { list_all is_type of_state ≡ true }
    requires inputs { list_all is_type of_inputs ≡ true }
    requires few { slots ≤ 65536 }
    requires small { width_of_all of_inputs ≤ 65536 }
    requires order { AreInOrder (length of_inputs) reads.now }
    ensures layout { IfOk result (λ r. r.layout ≡ record {
      state = range_with_len 0 slots;
      next = range_with_len (joined_width of_inputs slots reads.now) slots;
      inputs = all_places of_inputs slots reads.now;
      state_types = of_state;
      input_types = of_inputs;
    }) }
    ensures joint { IfOk result (λ r. r.joint ≡ joined_width of_inputs slots reads.now) }
    ensures named { IfOk result (λ r. r.named ≡ joined_width of_inputs slots reads.now + joined_width of_inputs slots reads.now + width_at of_inputs (others (length of_inputs) reads.now)) }
{
    let joint = slots + read_width(of_inputs.as_slice(), reads);
    let inputs = input_places(alloc, of_inputs.as_slice(), slots, reads, joint)?;
    let state = numbers(alloc, 0, slots)?;
    let next = numbers(alloc, joint, slots)?;
    Ok(Places {
        layout: Layout::new(state, next, inputs.places, of_state, of_inputs),
        joint,
        named: inputs.named,
    })
}
