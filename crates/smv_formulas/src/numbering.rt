//! The numbers of atoms.

ghost use Rattle.std.specs.Prelude.{◌≡◌, ℕ, Bool, Some, IfOk, slice_get, true};
ghost use Rattle.std.specs.List.{list_all};
ghost use Rattle.smv_formulas.specs.Trees.{Grows};

use std::alloc::AllocError;

/// The number of the atom of this node, which joins the others if there is none of it yet.
pub fn number_of(atoms: &mut Vec<usize>, node: usize) -> Result<usize, AllocError>
    ensures grows { IfOk result (λ a. Grows atoms.old.items atoms.new.items) }
    ensures here { IfOk result (λ a. slice_get atoms.new.items a ≡ Some node) }
    ensures passes { IfOk result (λ a. (test : ℕ → Bool) → list_all test atoms.old.items ≡ true → test node ≡ true → list_all test atoms.new.items ≡ true) }
{
    for (a, other) in atoms.iter().enumerate() {
        if *other == node {
            return Ok(a);
        }
    }
    let a = atoms.len();
    atoms.push(node)?;
    Ok(a)
}
