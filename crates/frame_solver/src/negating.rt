//! The clause that blocks a state: the negation of its cube.

ghost use Rattle.std.specs.Prelude.{◌≡◌, ◌≤◌, IfOk, length};
ghost use Rattle.frame_solver.specs.Firsts.{negation_of};

use clause_core::{Bits, Lit};
use std::alloc::{AllocError, Global};

/// The clause that says that a state is another than that of the first `bits` values: to prove it is to
/// block the state. The only error is out of memory.
pub fn negation(alloc: Global, values: &Bits, bits: usize) -> Result<Vec<Lit>, AllocError>
    requires { bits ≤ length values.now }
    ensures { IfOk result (λ v. v.items ≡ negation_of values.now bits) }
{
    let mut literals = Vec::new(alloc);
    'bits: for b in 0..bits {
        literals.push(Lit {
            var: b,
            positive: !values.get(b),
        })?;
    }
    Ok(literals)
}
