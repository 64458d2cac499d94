//! k-liveness (Claessen and Sörensson 2012) by one worker: one counter of signals after another, each with the lemmas of the
//! one before.

ghost use Rattle.std.specs.Prelude.{◌≡◌, ◌≤◌, ◌<◌, ◌+◌, ◌^◌, ◌∷◌, [], length, replicate, IfOk};
ghost use Rattle.clause_core.specs.Systems.{TransitionSystem};
ghost use Rattle.cert_core.specs.declared.form.TheConstants.{MAX_COUNTER};
ghost use Rattle.effort_purse.specs.Plain.{plain_budget, plain_count};
ghost use Rattle.ltl_monitor.specs.Counted.{IsCounted};
ghost use Rattle.prove_ltl.specs.Climbing.{Climbs, Settles};

use crate::answers::LtlDone;
use crate::counting::{Climbed, climbed_by};
use crate::effort::LtlEffort;
use effort_purse::PlainPurse;
use frame_core::Frames;
use frame_history::Limits;
use frame_worker::Explored;
use ltl_monitor::monitor_correctness::counters;
use ltl_monitor::{Monitored, counted};
use outside::Gate;
use prove_run::{Work, explore};
use std::alloc::{AllocError, Global};
use std::slice::from_ref;
use std::sync::Wait;

// Explores the frames of the system with `k` signals counted, and says what came of it.
fn count_to<'a, R: Wait, G: Gate>(
    rt: &R,
    alloc: Global,
    monitored: &Monitored,
    k: usize,
    frames: Frames<'a>,
    work: Vec<Work>,
    effort: &LtlEffort,
    purse: &mut PlainPurse,
    gate: &G,
) -> Result<Climbed<'a>, AllocError>
    requires obligations { frames.obligations ≡ [] }
    requires tops { frames.tops ≡ replicate (length frames.systems) 0 }
    requires counted { (c : TransitionSystem) × (frames.systems ≡ c ∷ []) × IsCounted monitored.now.system k c }
    requires limit { effort.now.frames + 1 < 2 ^ 32 }
    requires within { k ≤ effort.now.counter }
    requires counter { effort.now.counter ≤ MAX_COUNTER }
    requires budget { plain_budget purse.old ≡ effort.now.conflicts }
    ensures climbs { IfOk result (Climbs effort.now monitored.now.system k frames.entry.systems frames.entry.lemmas work.items (plain_count purse.old) (plain_count purse.new)) }
    ensures budget { plain_budget purse.new ≡ plain_budget purse.old }
{
    let limits = Limits {
        frames: effort.frames,
    };
    let Explored { frames, history } = explore(rt, alloc, frames, limits, purse, gate)?;
    let over = purse.seen_spent();
    climbed_by(
        alloc, monitored, k, frames, history, over, work, effort, purse,
    )
}

// Counts up to `k` signals, and to more while these are passed. Lemmas stay from one number to the next; obligations do not.
fn climb<'a, R: Wait, G: Gate>(
    rt: &R,
    alloc: Global,
    monitored: &Monitored,
    k: usize,
    frames: Frames<'a>,
    work: Vec<Work>,
    effort: &LtlEffort,
    purse: &mut PlainPurse,
    gate: &G,
) -> Result<LtlDone, AllocError>
    requires obligations { frames.obligations ≡ [] }
    requires tops { frames.tops ≡ replicate (length frames.systems) 0 }
    requires counted { (c : TransitionSystem) × (frames.systems ≡ c ∷ []) × IsCounted monitored.now.system k c }
    requires limit { effort.now.frames + 1 < 2 ^ 32 }
    requires within { k ≤ effort.now.counter }
    requires counter { effort.now.counter ≤ MAX_COUNTER }
    requires budget { plain_budget purse.old ≡ effort.now.conflicts }
    ensures { IfOk result (Settles effort.now monitored.now.system k frames.entry.lemmas work.items (plain_count purse.old)) }
{
    match count_to(rt, alloc, monitored, k, frames, work, effort, purse, gate)? {
        Climbed::Done(done) => Ok(done),
        Climbed::Passed(frames, work) => {
            monitored.system.law();
            counters();
            let system = counted(alloc, monitored, k + 1)?;
            let frames = frames.carry(from_ref(&system));
            let done = climb(
                rt,
                alloc,
                monitored,
                k + 1,
                frames,
                work,
                effort,
                purse,
                gate,
            )?;
            Ok(done)
        }
    }
}

// Counts up to 0 signals, then to more.
pub(crate) fn climb_all<R: Wait, G: Gate>(
    rt: &R,
    alloc: Global,
    monitored: &Monitored,
    effort: &LtlEffort,
    purse: &mut PlainPurse,
    gate: &G,
) -> Result<LtlDone, AllocError>
    requires limit { effort.now.frames + 1 < 2 ^ 32 }
    requires counter { effort.now.counter ≤ MAX_COUNTER }
    requires budget { plain_budget purse.old ≡ effort.now.conflicts }
    ensures { IfOk result (Settles effort.now monitored.now.system 0 [] [] (plain_count purse.old)) }
{
    let system = counted(alloc, monitored, 0)?;
    let frames = Frames::of_one(alloc, &system)?;
    let work = Vec::new(alloc);
    let done = climb(rt, alloc, monitored, 0, frames, work, effort, purse, gate)?;
    Ok(done)
}
