//! Times at which assignments give values.

ghost use Rattle.std.specs.Prelude.{◌≡◌, ◌&&◌, ◌==◌};
ghost use Rattle.smv_flat.specs.Assignments.{looks_ahead, speaks_of};

use crate::assigned::Assigned;
use smv_tree::AssignmentKind;

/// The states whose values assignments give.
#[derive(Clone, Copy, Debug, PartialEq, Eq)]
pub enum Time {
    /// Initial states.
    First,
    /// Next states.
    Next,
}

/// Whether an assignment of this kind gives a value of this time.
pub fn speaks_of(time: Time, kind: AssignmentKind) -> bool
    ensures { result ≡ speaks_of time kind }
{
    match kind {
        AssignmentKind::Init => matches!(time, Time::First),
        AssignmentKind::Next => matches!(time, Time::Next),
        AssignmentKind::Current => true,
    }
}

/// Whether the assignment gives slot x a value of this time.
pub fn gives(time: Time, x: usize, a: Assigned) -> bool
    ensures { result ≡ (speaks_of time a.kind && a.slot == x) }
{
    speaks_of(time, a.kind) && a.slot == x
}

/// Whether the right side reads values of its own time under `next` alone.
pub fn looks_ahead(kind: AssignmentKind) -> bool
    ensures { result ≡ looks_ahead kind }
{
    matches!(kind, AssignmentKind::Next)
}
