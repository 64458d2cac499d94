//! How many elements an array has.

ghost use Rattle.std.specs.Prelude.{◌≡◌, IfOk};
ghost use Rattle.smv_declared.specs.Types.{size_of};

use smv_declared::Bounds;
use std::alloc::AllocError;

// The product of what these dimensions count. Memory is refused where that has more than 64 bits.
pub(crate) fn size_of(dimensions: &[Bounds]) -> Result<usize, AllocError>
    ensures { IfOk result (λ size. size ≡ size_of dimensions.now) }
{
    let mut size: usize = 1;
    for bounds in dimensions {
        let Some(more) = size.checked_mul(bounds.count) else {
            return Err(AllocError);
        };
        size = more;
    }
    Ok(size)
}
