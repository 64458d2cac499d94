//! The rules of assignments, in their order.

ghost use Rattle.std.specs.Prelude.{◌≡◌, IfErr, IfOk};
ghost use Rattle.std.proofs.Props.{props};
ghost use Rattle.smv_flat.specs.Assignments.{AreAssignable, IsAssignmentStop};

use crate::assigned::assignments_of;
use crate::cycles::judge_cycle;
use crate::reads::reads_of;
use crate::time::Time;
use crate::twice::refuse_twice;
use smv_meaning::Typed;
use smv_tree::TextStop;
use std::alloc::Global;

/// A program whose assignments give each variable at most one value at a time, and none in a cycle. Its items stand
/// flat, for all instances; their nodes hold each definition of each instance once.
#[derive(Debug, Drop)]
pub struct Flat {
    /// The program with its instances, its slots and its items.
    pub typed: Typed,
    pub ghost assignable: { AreAssignable typed.scope.program } by { Prim.hlevel props },
}

/// A program that is assignable (NuSMV 2.6 User Manual, 2.3.8, ASSIGN Constraint; the order of the rules is an own
/// choice of this project). Each element of an array counts as a variable; an index that is no constant reads all of
/// them.
///
/// # Errors
///
/// - `Refused` by 501 AssignedTwice, at the first assignment that meets one before it: both give one variable a first
///   value, or both a next one; `x := e` gives both.
/// - `Refused` by 502 AssignCycle where values of initial states depend on each other in a cycle, or else those of next
///   states. The detail is a cycle that passes each variable once, from its first variable in the order of declaration
///   round to that one again; the place is that of the first assignment to it that speaks of this time.
/// - `NoMemory` where memory was refused, or where 2^30 nodes or more would have to be numbered.
pub fn flatten(alloc: Global, typed: Typed) -> Result<Flat, TextStop>
    ensures same { IfOk result (λ flat. flat.typed ≡ typed) }
    ensures refused { IfErr result (IsAssignmentStop typed.scope.program) }
{
    let all = assignments_of(alloc, &typed)?;
    refuse_twice(alloc, &typed, &all)?;
    let reads = reads_of(alloc, typed.nodes.as_slice())?;
    judge_cycle(alloc, &typed, Time::First, &all, &reads)?;
    judge_cycle(alloc, &typed, Time::Next, &all, &reads)?;
    Ok(Flat { typed })
}
