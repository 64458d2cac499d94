//! The items that may fault, in the order in which they are judged, and of what each speaks.

ghost use Rattle.std.specs.Prelude.{◌≡◌, map, not, filter, IfOk};
ghost use Rattle.smv_resolve.specs.declared.item.Item.{Item};
ghost use Rattle.smv_resolve.specs.Items.{item_by};
ghost use Rattle.smv_meaning.specs.Faults.{speaks_of_paths};
ghost use Rattle.smv_meaning.specs.Runs.{is_claim, speaks_of_step};
ghost use Rattle.bit_faults.specs.Questions.{judged_items};

use smv_meaning::{Typed, is_claim, specifications};
use smv_resolve::{Item, ItemKind};
use smv_tree::{AssignmentKind, ConstraintKind, SpecificationKind};
use sqlite_items::Items;
use std::alloc::{AllocError, Global};

/// The items of a program in the order in which they are judged: assignments and constraints, and then specifications,
/// each in the order of the source. The only error is running out of memory.
pub fn judged_items(alloc: Global, typed: &Typed) -> Result<Items<Item>, AllocError>
    ensures { IfOk result (λ items. map (item_by typed.now.nodes) items ≡ judged_items typed.now.scope.program) }
{
    let mut judged = without_claims(alloc, typed.items.as_slice())?;
    let claims = specifications(alloc, typed)?;
    judged.append(claims)?;
    Ok(judged)
}

// The items that are no specifications.
fn without_claims(alloc: Global, items: &[Item]) -> Result<Items<Item>, AllocError>
    ensures { IfOk result (λ r. r ≡ filter (λ (x : Item). not (is_claim x.kind)) items.now) }
{
    let mut made = Items::new(alloc);
    for item in items {
        if !is_claim(item.kind) {
            made.push(*item)?;
        }
    }
    Ok(made)
}

/// Whether an item of this kind speaks of paths.
pub fn speaks_of_paths(kind: ItemKind) -> bool
    ensures { result ≡ speaks_of_paths kind }
{
    match kind {
        ItemKind::Specification(SpecificationKind::Temporal) => true,
        ItemKind::Specification(SpecificationKind::Invariant) => false,
        ItemKind::Assignment(_) | ItemKind::Constraint(_) => false,
    }
}

/// Whether an item of this kind speaks of a step, and not of a state.
pub fn speaks_of_step(kind: ItemKind) -> bool
    ensures { result ≡ speaks_of_step kind }
{
    match kind {
        ItemKind::Assignment(AssignmentKind::Next) => true,
        ItemKind::Assignment(AssignmentKind::Init | AssignmentKind::Current) => false,
        ItemKind::Constraint(ConstraintKind::Trans) => true,
        ItemKind::Constraint(
            ConstraintKind::Init | ConstraintKind::Invar | ConstraintKind::Justice,
        ) => false,
        ItemKind::Specification(_) => false,
    }
}
