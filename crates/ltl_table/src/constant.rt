//! The column of a constant.

ghost use Rattle.std.specs.Prelude.{◌≡◌, IfOk, replicate};

use std::alloc::{AllocError, Global};

// A column of one value.
pub fn constant(alloc: Global, value: bool, n: usize) -> Result<Vec<bool>, AllocError>
    ensures { IfOk result (λ c. c.items ≡ replicate n value) }
{
    Vec::from_elem(alloc, value, n)
}
