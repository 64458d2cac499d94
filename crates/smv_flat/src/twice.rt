//! Slots that are assigned twice.

ghost use Rattle.std.specs.Prelude.{◌≡◌, None, length, map, replicate, IfErr, IfOk, OnOk};
ghost use Rattle.smv_flat.specs.Assignments.{IsTwiceStop, assigned_twice, assignments_of, twice_refusal};
ghost use Rattle.smv_flat.specs.Graph.{assigned_by};
ghost use Rattle.smv_flat.specs.Marks.{free, is_taken, taken_by};

use crate::assigned::Assigned;
use crate::names::name_of_slot;
use smv_meaning::Typed;
use smv_tree::{AssignmentKind, Refusal, Rule, TextStop};
use std::alloc::{AllocError, Global};

/// The times at which a slot is assigned.
#[derive(Clone, Copy, Drop)]
pub struct Taken {
    pub first: bool,
    pub next: bool,
}

/// Refuses the first assignment that meets one before it: both give one slot a value of the same time.
pub fn refuse_twice(alloc: Global, typed: &Typed, all: &[Assigned]) -> Result<(), TextStop>
    requires { map (assigned_by typed.now.nodes) all.now ≡ assignments_of typed.now.scope.program }
    ensures right { OnOk result (assigned_twice typed.now.scope.program ≡ None) }
    ensures refused { IfErr result (IsTwiceStop typed.now.scope.program) }
{
    let mut taken = free_slots(alloc, typed.slots.len())?;
    for a in all {
        if is_taken(taken[a.slot], a.kind) {
            return Err(TextStop::Refused(twice_refusal(alloc, typed, *a)?));
        }
        taken[a.slot] = taken_by(taken[a.slot], a.kind);
    }
    Ok(())
}

fn twice_refusal(alloc: Global, typed: &Typed, a: Assigned) -> Result<Refusal, AllocError>
    ensures { IfOk result (λ r. r ≡ twice_refusal typed.now.scope.program (assigned_by typed.now.nodes a)) }
{
    let name = name_of_slot(alloc, typed, a.slot)?;
    Ok(Refusal {
        rule: Rule::AssignedTwice,
        place: a.place,
        detail: Some(name),
    })
}

fn free_slots(alloc: Global, count: usize) -> Result<Vec<Taken>, AllocError>
    ensures { IfOk result (λ taken. taken.items ≡ replicate count free) }
{
    let mut taken = Vec::new(alloc);
    for k in 0..count {
        taken.push(Taken {
            first: false,
            next: false,
        })?;
    }
    Ok(taken)
}

// Whether an assignment of this kind meets one of those so far.
fn is_taken(taken: Taken, kind: AssignmentKind) -> bool
    ensures { result ≡ is_taken taken kind }
{
    match kind {
        AssignmentKind::Init => taken.first,
        AssignmentKind::Next => taken.next,
        AssignmentKind::Current => taken.first || taken.next,
    }
}

fn taken_by(taken: Taken, kind: AssignmentKind) -> Taken
    ensures { result ≡ taken_by taken kind }
{
    match kind {
        AssignmentKind::Init => Taken {
            first: true,
            ..taken
        },
        AssignmentKind::Next => Taken {
            next: true,
            ..taken
        },
        AssignmentKind::Current => Taken {
            first: true,
            next: true,
        },
    }
}
