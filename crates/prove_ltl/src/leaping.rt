//! k-liveness by leaps (after Claessen and Sörensson 2012). A run with more signals than were counted is followed from its
//! end on to further signals, and the next counter that is tried is the first that the longer run does not pass. Where it
//! comes back to a state after each set was met, there is a fair lasso along it.

ghost use Rattle.std.specs.Prelude.{◌≡◌, ◌≤◌, ◌<◌, ◌+◌, ◌^◌, ◌∷◌, [], length, replicate, IfOk, IfSome};
ghost use Rattle.clause_core.specs.Systems.{TransitionSystem};
ghost use Rattle.cert_core.specs.declared.form.TheConstants.{MAX_COUNTER};
ghost use Rattle.ltl_monitor.specs.Counted.{IsCounted};
ghost use Rattle.prove_ltl.specs.Climbing.{IsDoneFor};
ghost use Rattle.prove_ltl.specs.Leaping.{TriesCounter};

use crate::answers::LtlDone;
use crate::counting::shown;
use crate::course::Course;
use crate::effort::LtlEffort;
use crate::following::{explore_one, follow};
use crate::known::is_unknown;
use clause_core::System;
use effort_purse::Purse;
use frame_core::{Frames, FramesVerdict};
use ltl_lassos::absence_of_violations::counted_systems;
use ltl_monitor::monitor_correctness::counters;
use ltl_monitor::{Monitored, counted};
use outside::Gate;
use std::alloc::{AllocError, Global};
use std::slice::from_ref;
use std::sync::Wait;

// Tickets for the frames of all counters.
pub(crate) const LEAP_TICKETS: u64 = 60_000;

// How many ways back to a state are looked for.
const RETURNS: u32 = 4;

// What came of one counter.
#[derive(Drop)]
pub(crate) enum Tried<'a> {
    // A certificate, or a lasso.
    Done(LtlDone),
    // Some run has so many signals.
    Passed(Frames<'a>, usize),
    // Neither: the tickets were drawn, or the frames met their limit.
    Open,
}

// A certificate or a lasso, where leaps find one. The purse pays for the frames of the counters; the searches that follow
// a run have tickets of their own.
pub(crate) fn leap_all<R: Wait, Q: Purse, G: Gate>(
    rt: &R,
    alloc: Global,
    system: &System,
    monitored: &Monitored,
    effort: &LtlEffort,
    purse: &mut Q,
    gate: &G,
) -> Result<Option<LtlDone>, AllocError>
    requires limit { effort.now.frames + 1 < 2 ^ 32 }
    requires counter { effort.now.counter ≤ MAX_COUNTER }
    requires ready { Q.ready purse.old }
    ensures { IfOk result (λ o. IfSome o (IsDoneFor system.now effort.now monitored.now.system)) }
{
    let mut returns = RETURNS;
    let first = counted(alloc, monitored, 0)?;
    let frames = Frames::of_one(alloc, &first)?;
    let done = leap(
        rt,
        alloc,
        system,
        monitored,
        0,
        frames,
        0,
        effort,
        purse,
        &mut returns,
        gate,
    )?;
    Ok(done)
}

// Counts up to `k` signals, unless some run is known to have more: `signals` of them. Then goes on to the next counter,
// with the lemmas of this one.
fn leap<'a, R: Wait, Q: Purse, G: Gate>(
    rt: &R,
    alloc: Global,
    system: &System,
    monitored: &Monitored,
    k: usize,
    frames: Frames<'a>,
    signals: usize,
    effort: &LtlEffort,
    purse: &mut Q,
    returns: &mut u32,
    gate: &G,
) -> Result<Option<LtlDone>, AllocError>
    requires obligations { frames.obligations ≡ [] }
    requires tops { frames.tops ≡ replicate (length frames.systems) 0 }
    requires counted { (c : TransitionSystem) × (frames.systems ≡ c ∷ []) × IsCounted monitored.now.system k c }
    requires limit { effort.now.frames + 1 < 2 ^ 32 }
    requires within { k ≤ effort.now.counter }
    requires counter { effort.now.counter ≤ MAX_COUNTER }
    requires ready { Q.ready purse.old }
    ensures { IfOk result (λ o. IfSome o (IsDoneFor system.now effort.now monitored.now.system)) }
{
    let tried = try_counter(
        rt, alloc, system, monitored, k, frames, signals, effort, purse, returns, gate,
    )?;
    match tried {
        Tried::Done(done) => Ok(Some(done)),
        Tried::Open => Ok(None),
        Tried::Passed(frames, signals) => {
            if effort.counter <= k || effort.counter < signals {
                return Ok(None);
            }
            monitored.system.law();
            counters();
            let next = counted(alloc, monitored, k + 1)?;
            let frames = frames.carry(from_ref(&next));
            let done = leap(
                rt,
                alloc,
                system,
                monitored,
                k + 1,
                frames,
                signals,
                effort,
                purse,
                returns,
                gate,
            )?;
            Ok(done)
        }
    }
}

// What is known of `k` signals: that some run has more, `signals` of them; or what comes of counting them.
fn try_counter<'a, R: Wait, Q: Purse, G: Gate>(
    rt: &R,
    alloc: Global,
    system: &System,
    monitored: &Monitored,
    k: usize,
    frames: Frames<'a>,
    signals: usize,
    effort: &LtlEffort,
    purse: &mut Q,
    returns: &mut u32,
    gate: &G,
) -> Result<Tried<'a>, AllocError>
    requires obligations { frames.obligations ≡ [] }
    requires tops { frames.tops ≡ replicate (length frames.systems) 0 }
    requires counted { (c : TransitionSystem) × (frames.systems ≡ c ∷ []) × IsCounted monitored.now.system k c }
    requires limit { effort.now.frames + 1 < 2 ^ 32 }
    requires within { k ≤ effort.now.counter }
    requires counter { effort.now.counter ≤ MAX_COUNTER }
    requires ready { Q.ready purse.old }
    ensures tries { IfOk result (TriesCounter system.now effort.now monitored.now.system frames.entry.systems) }
    ensures ready { Q.ready purse.new }
{
    if k < signals {
        return Ok(Tried::Passed(frames, signals));
    }
    count(
        rt, alloc, system, monitored, k, frames, effort, purse, returns, gate,
    )
}

// Explores the frames of the system with `k` signals counted. A run with more signals is followed further.
fn count<'a, R: Wait, Q: Purse, G: Gate>(
    rt: &R,
    alloc: Global,
    system: &System,
    monitored: &Monitored,
    k: usize,
    frames: Frames<'a>,
    effort: &LtlEffort,
    purse: &mut Q,
    returns: &mut u32,
    gate: &G,
) -> Result<Tried<'a>, AllocError>
    requires obligations { frames.obligations ≡ [] }
    requires tops { frames.tops ≡ replicate (length frames.systems) 0 }
    requires counted { (c : TransitionSystem) × (frames.systems ≡ c ∷ []) × IsCounted monitored.now.system k c }
    requires limit { effort.now.frames + 1 < 2 ^ 32 }
    requires within { k ≤ effort.now.counter }
    requires counter { effort.now.counter ≤ MAX_COUNTER }
    requires ready { Q.ready purse.old }
    ensures tries { IfOk result (TriesCounter system.now effort.now monitored.now.system frames.entry.systems) }
    ensures ready { Q.ready purse.new }
{
    let (frames, verdict) = explore_one(rt, alloc, frames, effort, purse, gate)?;
    match verdict {
        Some(FramesVerdict::Invariant(level)) => {
            system.law();
            monitored.system.law();
            counted_systems();
            let answer = shown(alloc, &frames, level, k, effort, purse)?;
            if is_unknown(&answer) {
                return Ok(Tried::Open);
            }
            Ok(Tried::Done(LtlDone {
                answer,
                work: Vec::new(alloc),
            }))
        }
        Some(FramesVerdict::Reached(n)) => {
            let run = frames.run_of(alloc, n)?;
            let mut course = Course::of(alloc, monitored, &run, k)?;
            match follow(
                rt,
                alloc,
                system,
                monitored,
                &mut course,
                effort,
                returns,
                gate,
            )? {
                Some(done) => Ok(Tried::Done(done)),
                None => {
                    let signals = course.signals().max(k + 1);
                    Ok(Tried::Passed(frames, signals))
                }
            }
        }
        None => Ok(Tried::Open),
    }
}
