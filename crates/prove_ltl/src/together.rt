//! k-liveness by several workers, who explore the frames of one counter after another together.

ghost use Rattle.std.specs.Prelude.{◌≡◌, ◌≤◌, ◌<◌, ◌+◌, ◌^◌, ◌∷◌, [], length, replicate, IfOk, IfSome};
ghost use Rattle.clause_core.specs.Systems.{TransitionSystem};
ghost use Rattle.cert_core.specs.declared.form.TheConstants.{MAX_COUNTER};
ghost use Rattle.effort_purse.specs.Seats.{IsSeatOf, budget_of, is_spent, shares_of, tickets_of};
ghost use Rattle.ltl_monitor.specs.Counted.{IsCounted};
ghost use Rattle.prove_ltl.specs.Climbing.{Climbs, ClimbsBy, Settles};

use crate::answers::LtlDone;
use crate::counting::{Climbed, climbed_by};
use crate::effort::LtlEffort;
use crate::known::stop_others;
use clause_core::System;
use effort_purse::{Lent, Seat, SharedPurse};
use frame_core::Frames;
use frame_history::Limits;
use frame_worker::{Explored, Met, explore_together};
use ltl_monitor::monitor_correctness::counters;
use ltl_monitor::{Monitored, counted};
use outside::Gate;
use prove_run::Work;
use std::alloc::{AllocError, Global};
use std::slice::from_ref;
use std::sync::Wait;
use std::thread::Threads;

// What came of one counter, and the seat of all workers.
#[derive(Drop)]
struct Counting<'a> {
    climbed: Climbed<'a>,
    seat: Seat,
}

// Explores the frames of the system with `k` signals counted, and says what came of it; none where the book was
// dropped, or the purse was spent.
fn count_together<'a, R: Threads + Wait + Sync, G: Gate + Sync>(
    rt: &R,
    alloc: Global,
    monitored: &Monitored,
    k: usize,
    frames: Frames<'a>,
    work: Vec<Work>,
    effort: &LtlEffort,
    purse: &SharedPurse,
    seat: Seat,
    workers: u32,
    gate: &G,
) -> Result<Option<Counting<'a>>, AllocError>
    requires obligations { frames.obligations ≡ [] }
    requires tops { frames.tops ≡ replicate (length frames.systems) 0 }
    requires counted { (c : TransitionSystem) × (frames.systems ≡ c ∷ []) × IsCounted monitored.now.system k c }
    requires limit { effort.now.frames + 1 < 2 ^ 32 }
    requires within { k ≤ effort.now.counter }
    requires counter { effort.now.counter ≤ MAX_COUNTER }
    requires own { IsSeatOf purse.now seat }
    requires some { 0 < workers }
    requires shares { workers < shares_of seat }
    requires budget { budget_of purse.now ≡ effort.now.conflicts }
    ensures climbs { IfOk result (λ o. IfSome o (λ c. Climbs effort.now monitored.now.system k frames.entry.systems frames.entry.lemmas work.items (length (tickets_of seat)) (length (tickets_of c.seat)) c.climbed)) }
    ensures own { IfOk result (λ o. IfSome o (λ c. IsSeatOf purse.now c.seat)) }
    ensures shares { IfOk result (λ o. IfSome o (λ c. shares_of c.seat ≡ shares_of seat)) }
{
    let limits = Limits {
        frames: effort.frames,
    };
    let Met {
        explored,
        seat,
        settled: _,
    } = explore_together(
        rt,
        alloc,
        frames,
        limits,
        purse,
        effort.conflicts,
        seat,
        workers,
        gate,
    )?;
    let Some(explored) = explored else {
        return Ok(None);
    };
    let counting = counted_by(alloc, monitored, k, explored, work, effort, purse, seat)?;
    if SharedPurse::seen_spent(&counting.seat) {
        return Ok(None);
    }
    Ok(Some(counting))
}

// What came of frames that several workers explored, where a certificate is paid for by their seat.
fn counted_by<'a>(
    alloc: Global,
    monitored: &Monitored,
    k: usize,
    explored: Explored<'a>,
    work: Vec<Work>,
    effort: &LtlEffort,
    purse: &SharedPurse,
    seat: Seat,
) -> Result<Counting<'a>, AllocError>
    requires some { 0 < length explored.frames.systems }
    requires within { k ≤ effort.now.counter }
    requires counter { effort.now.counter ≤ MAX_COUNTER }
    requires own { IsSeatOf purse.now seat }
    ensures climbs { IfOk result (λ c. ClimbsBy effort.now monitored.now.system k explored.entry.history.items explored.entry.frames (is_spent seat) work.items (tickets_of seat) (tickets_of c.seat) (is_spent c.seat) c.climbed) }
    ensures own { IfOk result (λ c. IsSeatOf purse.now c.seat) }
    ensures shares { IfOk result (λ c. shares_of c.seat ≡ shares_of seat) }
{
    let Explored { frames, history } = explored;
    let over = SharedPurse::seen_spent(&seat);
    let mut lent = Lent { purse, seat };
    let climbed = climbed_by(
        alloc, monitored, k, frames, history, over, work, effort, &mut lent,
    )?;
    let Lent { purse: _, seat } = lent;
    Ok(Counting { climbed, seat })
}

// Counts up to `k` signals, and to more while these are passed; none where a book was dropped or the purse was spent.
// Lemmas stay from one number to the next; obligations do not. A certificate stops the search of lassos.
fn climb_together<'a, R: Threads + Wait + Sync, G: Gate + Sync>(
    rt: &R,
    alloc: Global,
    monitored: &Monitored,
    k: usize,
    frames: Frames<'a>,
    work: Vec<Work>,
    effort: &LtlEffort,
    purse: &SharedPurse,
    seat: Seat,
    workers: u32,
    gate: &G,
) -> Result<Option<LtlDone>, AllocError>
    requires obligations { frames.obligations ≡ [] }
    requires tops { frames.tops ≡ replicate (length frames.systems) 0 }
    requires counted { (c : TransitionSystem) × (frames.systems ≡ c ∷ []) × IsCounted monitored.now.system k c }
    requires limit { effort.now.frames + 1 < 2 ^ 32 }
    requires within { k ≤ effort.now.counter }
    requires counter { effort.now.counter ≤ MAX_COUNTER }
    requires own { IsSeatOf purse.now seat }
    requires some { 0 < workers }
    requires shares { workers < shares_of seat }
    requires budget { budget_of purse.now ≡ effort.now.conflicts }
    ensures { IfOk result (λ o. IfSome o (Settles effort.now monitored.now.system k frames.entry.lemmas work.items (length (tickets_of seat)))) }
{
    let counting = count_together(
        rt, alloc, monitored, k, frames, work, effort, purse, seat, workers, gate,
    )?;
    let Some(Counting { climbed, mut seat }) = counting else {
        return Ok(None);
    };
    match climbed {
        Climbed::Done(done) => {
            stop_others(purse, &mut seat, &done.answer);
            Ok(Some(done))
        }
        Climbed::Passed(frames, work) => {
            monitored.system.law();
            counters();
            let system = counted(alloc, monitored, k + 1)?;
            let frames = frames.carry(from_ref(&system));
            let done = climb_together(
                rt,
                alloc,
                monitored,
                k + 1,
                frames,
                work,
                effort,
                purse,
                seat,
                workers,
                gate,
            )?;
            Ok(done)
        }
    }
}

// Counts up to 0 signals, then to more; none where a book was dropped or the purse was spent.
pub(crate) fn climb_all_together<R: Threads + Wait + Sync, G: Gate + Sync>(
    rt: &R,
    alloc: Global,
    monitored: &Monitored,
    effort: &LtlEffort,
    purse: &SharedPurse,
    seat: Seat,
    workers: u32,
    gate: &G,
) -> Result<Option<LtlDone>, AllocError>
    requires limit { effort.now.frames + 1 < 2 ^ 32 }
    requires counter { effort.now.counter ≤ MAX_COUNTER }
    requires own { IsSeatOf purse.now seat }
    requires some { 0 < workers }
    requires shares { workers < shares_of seat }
    requires budget { budget_of purse.now ≡ effort.now.conflicts }
    ensures { IfOk result (λ o. IfSome o (Settles effort.now monitored.now.system 0 [] [] (length (tickets_of seat)))) }
{
    let system = counted(alloc, monitored, 0)?;
    let frames = Frames::of_one(alloc, &system)?;
    let work = Vec::new(alloc);
    let done = climb_together(
        rt, alloc, monitored, 0, frames, work, effort, purse, seat, workers, gate,
    )?;
    Ok(done)
}
