//! What is tried with small bounds and few tickets, before all is done.

ghost use Rattle.std.specs.Prelude.{◌≡◌, ◌≤◌, IfOk, IfSome};
ghost use Rattle.prove_ltl.specs.Climbing.{IsDoneFor};

use crate::answers::LtlDone;
use crate::effort::LtlEffort;
use crate::known::is_unknown;
use crate::searching::search_first;
use clause_core::System;
use effort_purse::PlainPurse;
use ltl_monitor::Monitored;
use outside::Gate;
use std::alloc::{AllocError, Global};
use std::sync::Wait;

// Bounds of lassos, and tickets: of the first try, of the search for longer lassos, and of the second try.
pub(crate) const FIRST: (usize, u64) = (8, 5_000);

pub(crate) const LONGER: (usize, u64) = (64, 5_000);

pub(crate) const SECOND: (usize, u64) = (16, 30_000);

// An effort of at most this bound and so many tickets.
pub(crate) fn less_effort(effort: &LtlEffort, limits: (usize, u64)) -> LtlEffort
    ensures bound { result.bound ≤ effort.now.bound }
    ensures frames { result.frames ≡ effort.now.frames }
    ensures counter { result.counter ≡ effort.now.counter }
{
    let (bound, conflicts) = limits;
    LtlEffort {
        conflicts: effort.conflicts.min(conflicts),
        frames: effort.frames,
        counter: effort.counter,
        bound: effort.bound.min(bound),
    }
}

// A lasso, where so small an effort finds one. The search has a purse of its own.
pub(crate) fn search_early<R: Wait, G: Gate>(
    rt: &R,
    alloc: Global,
    system: &System,
    monitored: &Monitored,
    effort: &LtlEffort,
    limits: (usize, u64),
    worker: u32,
    gate: &G,
) -> Result<Option<LtlDone>, AllocError>
    ensures { IfOk result (λ o. IfSome o (IsDoneFor system.now effort.now monitored.now.system)) }
{
    let less = less_effort(effort, limits);
    let mut purse = PlainPurse::new(less.conflicts);
    let first = search_first(
        rt, alloc, system, monitored, &less, &mut purse, worker, gate,
    )?;
    match first {
        Some(done) => {
            if is_unknown(&done.answer) {
                return Ok(None);
            }
            Ok(Some(done))
        }
        None => Ok(None),
    }
}
