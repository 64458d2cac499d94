//! The calls: systems in, answers out.

ghost use Rattle.std.specs.Prelude.{◌≡◌, ◌<◌, ◌+◌, ◌^◌, ◌∷◌, [], length, IfOk};
ghost use Rattle.frame_core.specs.FrameLaw.{AreAlike};
ghost use Rattle.prove_run.specs.Answers.{IsDone};

use crate::answering::answers;
use crate::answers::{Done, Work};
use crate::effort::Effort;
use crate::exploring::explore;
use crate::together::prove_together;
use clause_core::System;
use effort_purse::PlainPurse;
use frame_core::Frames;
use frame_history::Limits;
use frame_worker::Explored;
use outside::Gate;
use std::alloc::{AllocError, Global};
use std::slice::from_ref;
use std::sync::Wait;
use std::thread::Threads;

/// Whether each of these systems reaches a bad state, over one pool of lemmas, by so many workers.
///
/// An answer is a certificate that no bad state is reached, which the check of certificates accepted; a run to a bad
/// state; or the cause why neither is known. Either the tickets of the effort were drawn. Each was for a query of a
/// claim of the history, for one for a part of a certificate, or for a clause that one of them learned. No two queries
/// of claims have one key (`Key` of `frame_claims`), and no two are for one part. Or the frames went up to the limit.
/// Certificates are made by the caller when the frames are done, in the order of the systems, and paid for by what is
/// left.
///
/// One worker is the caller, with number 0. Several have the numbers from 1 on; the caller finishes what they leave.
/// Where their book has to be dropped, the caller begins anew alone, with a purse of its own. Each worker passes the
/// gate before each of its tasks. A worker of several that is refused memory ends alone; that the caller is refused
/// memory is the only error.
pub fn prove_all<R: Threads + Wait + Sync, G: Gate + Sync>(
    rt: &R,
    alloc: Global,
    systems: &[System],
    effort: &Effort,
    workers: u32,
    gate: &G,
) -> Result<Done, AllocError>
    requires alike { AreAlike systems.now }
    requires limit { effort.now.frames + 1 < 2 ^ 32 }
    requires workers { 0 < workers }
    ensures { IfOk result (λ d. IsDone systems.now effort.now d.work.history.items d.answers.items) }
{
    if systems.is_empty() {
        return Ok(Done {
            answers: Vec::new(alloc),
            work: Work {
                history: Vec::new(alloc),
            },
        });
    }
    prove_some(rt, alloc, systems, effort, workers, gate)
}

/// The same of one system.
pub fn prove_invariant<R: Threads + Wait + Sync, G: Gate + Sync>(
    rt: &R,
    alloc: Global,
    system: &System,
    effort: &Effort,
    workers: u32,
    gate: &G,
) -> Result<Done, AllocError>
    requires limit { effort.now.frames + 1 < 2 ^ 32 }
    requires workers { 0 < workers }
    ensures { IfOk result (λ d. IsDone (system.now ∷ []) effort.now d.work.history.items d.answers.items) }
{
    prove_all(rt, alloc, from_ref(system), effort, workers, gate)
}

// The same of some systems.
fn prove_some<R: Threads + Wait + Sync, G: Gate + Sync>(
    rt: &R,
    alloc: Global,
    systems: &[System],
    effort: &Effort,
    workers: u32,
    gate: &G,
) -> Result<Done, AllocError>
    requires some { 0 < length systems.now }
    requires alike { AreAlike systems.now }
    requires limit { effort.now.frames + 1 < 2 ^ 32 }
    requires workers { 0 < workers }
    ensures { IfOk result (λ d. IsDone systems.now effort.now d.work.history.items d.answers.items) }
{
    if workers < 2 {
        return prove_alone(rt, alloc, systems, effort, gate);
    }
    match prove_together(rt, alloc, systems, effort, workers, gate)? {
        Some(done) => Ok(done),
        None => prove_alone(rt, alloc, systems, effort, gate),
    }
}

// The same by one worker.
fn prove_alone<R: Wait, G: Gate>(
    rt: &R,
    alloc: Global,
    systems: &[System],
    effort: &Effort,
    gate: &G,
) -> Result<Done, AllocError>
    requires some { 0 < length systems.now }
    requires alike { AreAlike systems.now }
    requires limit { effort.now.frames + 1 < 2 ^ 32 }
    ensures { IfOk result (λ d. IsDone systems.now effort.now d.work.history.items d.answers.items) }
{
    let frames = Frames::new(alloc, systems)?;
    let limits = Limits {
        frames: effort.frames,
    };
    let mut purse = PlainPurse::new(effort.conflicts);
    let Explored { frames, history } = explore(rt, alloc, frames, limits, &mut purse, gate)?;
    let over = purse.seen_spent();
    let answers = answers(alloc, &frames, over, effort, &mut purse)?;
    Ok(Done {
        answers,
        work: Work { history },
    })
}
