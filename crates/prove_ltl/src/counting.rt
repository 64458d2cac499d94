//! What comes of the frames of one counter of signals.

ghost use Rattle.std.specs.Prelude.{◌≡◌, ◌≤◌, ◌<◌, Some, length, IfOk};
ghost use Rattle.cert_core.specs.declared.form.TheConstants.{MAX_COUNTER};
ghost use Rattle.frame_core.specs.declared.outcomes.FramesVerdict.TheVariants.{Invariant};
ghost use Rattle.frame_core.specs.Changes.{VerdictSays};
ghost use Rattle.prove_ltl.specs.Climbing.{ClimbsBy, Shows, cause_of, spent_cause};

use crate::answers::{LtlAnswer, LtlCause, LtlDone};
use crate::effort::LtlEffort;
use effort_purse::Purse;
use frame_core::{Frames, FramesVerdict};
use frame_history::Entry;
use ltl_lassos::absence_of_violations::counted_systems;
use ltl_monitor::Monitored;
use prove_run::{Work, certificate_of};
use std::alloc::{AllocError, Global};

// What came of one counter.
#[derive(Drop)]
pub(crate) enum Climbed<'a> {
    // There is an answer.
    Done(LtlDone),
    // Some run has more signals than were counted, and a greater number may be counted.
    Passed(Frames<'a>, Vec<Work>),
}

// The cause where the purse was spent.
pub(crate) fn spent_by(effort: &LtlEffort) -> LtlCause
    ensures { result ≡ spent_cause effort.now }
{
    LtlCause::Conflicts {
        drawn: effort.conflicts,
        budget: effort.conflicts,
    }
}

// Why nothing is known where the frames for `k` signals have no verdict.
fn cause(over: bool, k: usize, effort: &LtlEffort) -> LtlCause
    ensures { result ≡ cause_of over k effort.now }
{
    if over {
        return spent_by(effort);
    }
    LtlCause::Frames {
        bound: effort.bound,
        frames: effort.frames,
        counter: k,
    }
}

// What is answered where the frames for `k` signals tell an invariant.
pub(crate) fn shown<Q: Purse>(
    alloc: Global,
    frames: &Frames,
    level: u32,
    k: usize,
    effort: &LtlEffort,
    purse: &mut Q,
) -> Result<LtlAnswer, AllocError>
    requires some { 0 < length frames.now.systems }
    requires invariant { VerdictSays frames.now 0 (Some (Invariant level)) }
    requires counter { k ≤ MAX_COUNTER }
    requires ready { Q.ready purse.old }
    ensures shows { IfOk result (Shows effort.now frames.now level k (Q.tickets purse.old) (Q.tickets purse.new) (Q.spent purse.new)) }
    ensures kept { Q.kept purse.old purse.new }
    ensures ready { Q.ready purse.new }
    ensures budget { Q.budget purse.new ≡ Q.budget purse.old }
{
    match certificate_of(alloc, frames, 0, level, Some(k), purse)? {
        Some(cert) => Ok(LtlAnswer::True(cert)),
        None => Ok(LtlAnswer::Unknown(spent_by(effort))),
    }
}

// What comes of the frames of the system with `k` signals counted, which this history led to; `over` is whether the purse
// was spent for them.
pub(crate) fn climbed_by<'a, Q: Purse>(
    alloc: Global,
    monitored: &Monitored,
    k: usize,
    frames: Frames<'a>,
    history: Vec<Entry>,
    over: bool,
    mut work: Vec<Work>,
    effort: &LtlEffort,
    purse: &mut Q,
) -> Result<Climbed<'a>, AllocError>
    requires some { 0 < length frames.systems }
    requires over { over ≡ Q.spent purse.old }
    requires within { k ≤ effort.now.counter }
    requires counter { effort.now.counter ≤ MAX_COUNTER }
    requires ready { Q.ready purse.old }
    ensures climbs { IfOk result (ClimbsBy effort.now monitored.now.system k history.items frames.entry over work.items (Q.tickets purse.old) (Q.tickets purse.new) (Q.spent purse.new)) }
    ensures kept { Q.kept purse.old purse.new }
    ensures ready { Q.ready purse.new }
    ensures budget { Q.budget purse.new ≡ Q.budget purse.old }
{
    monitored.system.law();
    counted_systems();
    work.push(Work { history })?;
    match frames.verdict(0) {
        Some(FramesVerdict::Invariant(level)) => {
            let answer = shown(alloc, &frames, level, k, effort, purse)?;
            Ok(Climbed::Done(LtlDone { answer, work }))
        }
        Some(FramesVerdict::Reached(_)) => {
            if k < effort.counter {
                return Ok(Climbed::Passed(frames, work));
            }
            let answer = LtlAnswer::Unknown(LtlCause::Bound {
                bound: effort.bound,
                counter: k,
            });
            Ok(Climbed::Done(LtlDone { answer, work }))
        }
        None => {
            let answer = LtlAnswer::Unknown(cause(over, k, effort));
            Ok(Climbed::Done(LtlDone { answer, work }))
        }
    }
}
