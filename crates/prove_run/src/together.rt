//! Several workers explore the frames over one purse, and their caller makes the certificates of what is left of it.

ghost use Rattle.std.specs.Prelude.{◌≡◌, ◌<◌, ◌+◌, ◌^◌, List, [], length, IfOk, IfSome};
ghost use Rattle.clause_core.specs.Systems.{TransitionSystem};
ghost use Rattle.effort_purse.specs.Seats.{IsSeatOf, budget_of, is_spent, seats_of, shares_of, tickets_of};
ghost use Rattle.frame_core.specs.FrameLaw.{AreAlike};
ghost use Rattle.frame_worker.specs.Exploring.{IsExplored};
ghost use Rattle.prove_run.specs.Answers.{IsDone, limits_of};

use crate::answering::answers;
use crate::answers::{Done, Work};
use crate::effort::Effort;
use clause_core::System;
use effort_purse::{Lent, Seat, SharedPurse};
use frame_core::Frames;
use frame_history::Limits;
use frame_worker::{Explored, Met, explore_together};
use outside::Gate;
use std::alloc::{AllocError, Global};
use std::sync::Wait;
use std::thread::Threads;

/// What is known of some systems by several workers; none where their book was dropped, or where the numbers of tickets
/// and of workers have no room in one purse. The only error is out of memory.
pub(crate) fn prove_together<R: Threads + Wait + Sync, G: Gate + Sync>(
    rt: &R,
    alloc: Global,
    systems: &[System],
    effort: &Effort,
    workers: u32,
    gate: &G,
) -> Result<Option<Done>, AllocError>
    requires some { 0 < length systems.now }
    requires alike { AreAlike systems.now }
    requires limit { effort.now.frames + 1 < 2 ^ 32 }
    requires workers { 0 < workers }
    ensures { IfOk result (λ o. IfSome o (λ d. IsDone systems.now effort.now d.work.history.items d.answers.items)) }
{
    let shares = u64::from(workers) + 1;
    if effort.conflicts > u64::MAX - shares {
        return Ok(None);
    }
    let (purse, seat) = SharedPurse::new(alloc, effort.conflicts, 0, shares)?;
    let frames = Frames::new(alloc, systems)?;
    let limits = Limits {
        frames: effort.frames,
    };
    let Met {
        explored,
        seat,
        settled: _,
    } = explore_together(
        rt,
        alloc,
        frames,
        limits,
        &purse,
        effort.conflicts,
        seat,
        workers,
        gate,
    )?;
    let Some(explored) = explored else {
        return Ok(None);
    };
    let done = answer_all(alloc, explored, effort, &purse, seat)?;
    Ok(Some(done))
}

// The answers to what was explored; certificates are paid for by what is left of the purse.
fn answer_all<'a>(
    alloc: Global,
    explored: Explored<'a>,
    effort: &Effort,
    purse: &SharedPurse,
    seat: Seat,
) -> Result<Done, AllocError>
    requires own { IsSeatOf purse.now seat }
    requires shares { shares_of seat ≡ seats_of purse.now }
    requires budget { budget_of purse.now ≡ effort.now.conflicts }
    ensures { IfOk result (λ d. (systems : List TransitionSystem) → IsExplored systems (limits_of effort.now) [] explored.entry.history.items explored.entry.frames 0 (length (tickets_of seat)) (is_spent seat) → IsDone systems effort.now d.work.history.items d.answers.items) }
{
    let Explored { frames, history } = explored;
    let over = SharedPurse::seen_spent(&seat);
    let mut lent = Lent { purse, seat };
    let answers = answers(alloc, &frames, over, effort, &mut lent)?;
    Ok(Done {
        answers,
        work: Work { history },
    })
}
