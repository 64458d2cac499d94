//! The sizes of arrays, and the slots that they begin with.

ghost use Rattle.std.specs.Prelude.{◌≡◌, ◌+◌, ◌*◌, IfOk, slice_index_or};
ghost use Rattle.smv_declared.specs.Types.{size_of};
ghost use Rattle.smv_layout.specs.Sizes.{first_slots};

use smv_declared::{Bounds, VariableType};
use std::alloc::{AllocError, Global};

/// How many elements an array of these dimensions has. Memory is refused where no memory holds as many.
pub fn size_of(dimensions: &[Bounds]) -> Result<usize, AllocError>
    ensures { IfOk result (λ size. size ≡ size_of dimensions.now) }
{
    let [dimension, below @ ..] = dimensions else {
        return Ok(1);
    };
    let size = size_of(below)?;
    let count = product(dimension.count, size)?;
    Ok(count)
}

fn product(a: usize, b: usize) -> Result<usize, AllocError>
    ensures { IfOk result (λ n. n ≡ a * b) }
{
    match a.checked_mul(b) {
        Some(n) => Ok(n),
        None => Err(AllocError),
    }
}

fn sum(a: usize, b: usize) -> Result<usize, AllocError>
    ensures { IfOk result (λ n. n ≡ a + b) }
{
    match a.checked_add(b) {
        Some(n) => Ok(n),
        None => Err(AllocError),
    }
}

/// The slot at which what stands at this position begins, where each position has so many slots. Memory is refused
/// where no memory holds as many slots.
pub fn slot_at(first: usize, position: usize, size: usize) -> Result<usize, AllocError>
    ensures { IfOk result (λ n. n ≡ first + position * size) }
{
    let before = product(position, size)?;
    let slot = sum(first, before)?;
    Ok(slot)
}

/// The first slot of each variable.
pub fn first_slots(alloc: Global, variables: &[VariableType]) -> Result<Vec<usize>, AllocError>
    ensures { IfOk result (λ firsts. firsts.items ≡ first_slots variables.now) }
{
    let mut firsts = Vec::new(alloc);
    let mut next = 0;
    for variable in variables {
        firsts.push(next)?;
        let size = size_of(variable.dimensions.as_slice())?;
        next = sum(next, size)?;
    }
    Ok(firsts)
}

/// The first slot of the variable of this number; 0 where there is none.
pub fn first_at(firsts: &[usize], n: usize) -> usize
    ensures { result ≡ slice_index_or firsts.now n 0 }
{
    match firsts.get(n) {
        None => 0,
        Some(first) => *first,
    }
}
