//! Follows a course to further signals, and back to where it was.

ghost use Rattle.std.specs.Prelude.{◌≡◌, ◌≤◌, ◌<◌, ◌+◌, ◌^◌, [], length, replicate, All, IfOk, IfSome};
ghost use Rattle.clause_core.specs.Literals.{Within};
ghost use Rattle.frame_core.specs.Changes.{VerdictSays};
ghost use Rattle.prove_ltl.specs.Climbing.{IsDoneFor};

use crate::answers::{LtlAnswer, LtlDone};
use crate::course::Course;
use crate::effort::LtlEffort;
use crate::searching::violating;
use clause_core::{Bits, Clauses, Lit, System};
use effort_purse::{PlainPurse, Purse};
use frame_core::{BitRun, Frames, FramesVerdict};
use frame_history::Limits;
use frame_worker::Explored;
use lasso_search::lasso_along;
use ltl_monitor::{Monitored, counted};
use outside::Gate;
use prove_run::explore;
use std::alloc::{AllocError, Global};
use std::sync::Wait;

// Tickets for one way on from a state.
const LOOK: u64 = 1_000;

// Tickets for the lasso along a course.
const CLOSE: u64 = 10_000;

// Where a course is to go on to.
#[derive(Clone, Copy, Drop)]
enum Goal {
    // A state after a signal.
    Signal,
    // The state from which it goes on, after a signal.
    Return,
}

// Follows a course to further signals, up to one more than are counted. Where it comes back to a state after each set
// was met, the lasso along it is the answer. Ways back are looked for after 1, 2, 4, .. signals, while `returns` lasts.
pub(crate) fn follow<R: Wait, G: Gate>(
    rt: &R,
    alloc: Global,
    system: &System,
    monitored: &Monitored,
    course: &mut Course,
    effort: &LtlEffort,
    returns: &mut u32,
    gate: &G,
) -> Result<Option<LtlDone>, AllocError>
    requires limit { effort.now.frames + 1 < 2 ^ 32 }
    ensures { IfOk result (λ o. IfSome o (IsDoneFor system.now effort.now monitored.now.system)) }
{
    let once = counted(alloc, monitored, 1)?;
    let done = follow_by(
        rt, alloc, system, monitored, &once, course, effort, returns, gate,
    )?;
    Ok(done)
}

// The same by the system that counts one signal.
fn follow_by<R: Wait, G: Gate>(
    rt: &R,
    alloc: Global,
    system: &System,
    monitored: &Monitored,
    once: &System,
    course: &mut Course,
    effort: &LtlEffort,
    returns: &mut u32,
    gate: &G,
) -> Result<Option<LtlDone>, AllocError>
    requires limit { effort.now.frames + 1 < 2 ^ 32 }
    ensures { IfOk result (λ o. IfSome o (IsDoneFor system.now effort.now monitored.now.system)) }
{
    let mut next_return: usize = 1;
    'signals: for followed in 1..effort.counter.saturating_add(2) {
        if !look(rt, alloc, once, course, Goal::Signal, effort, gate)? {
            return Ok(None);
        }
        if *returns > 0 && followed == next_return {
            *returns -= 1;
            next_return = next_return.saturating_mul(2);
            let _ = look(rt, alloc, once, course, Goal::Return, effort, gate)?;
        }
        if let Some(done) = along(alloc, system, monitored, course, effort.bound)? {
            return Ok(Some(done));
        }
        if effort.counter < course.signals() {
            return Ok(None);
        }
    }
    Ok(None)
}

// The lasso along the course, where it comes back to a state within so many states.
fn along(
    alloc: Global,
    system: &System,
    monitored: &Monitored,
    course: &Course,
    bound: usize,
) -> Result<Option<LtlDone>, AllocError>
    ensures { IfOk result (λ o. IfSome o (λ d. (effort : LtlEffort) → IsDoneFor system.now effort monitored.now.system d)) }
{
    let Some(count) = course.closing(bound) else {
        return Ok(None);
    };
    let states = course.states(alloc, count)?;
    let mut purse = PlainPurse::new(CLOSE);
    match lasso_along(alloc, &monitored.system, &states, &mut purse)? {
        None => Ok(None),
        Some(lasso) => {
            system.law();
            monitored.system.law();
            let own = violating(alloc, system, monitored, &lasso)?;
            Ok(Some(LtlDone {
                answer: LtlAnswer::False(own),
                work: Vec::new(alloc),
            }))
        }
    }
}

// Goes on from the course's last state to a goal; false where few tickets find no way.
fn look<R: Wait, G: Gate>(
    rt: &R,
    alloc: Global,
    once: &System,
    course: &mut Course,
    goal: Goal,
    effort: &LtlEffort,
    gate: &G,
) -> Result<bool, AllocError>
    requires limit { effort.now.frames + 1 < 2 ^ 32 }
{
    let Some(last) = course.last() else {
        return Ok(false);
    };
    let sought = sought(alloc, once, last, course.bits(), goal)?;
    match way_to_bad(rt, alloc, &sought, effort, gate)? {
        Some(run) => {
            course.follow(alloc, &run, 1, 1)?;
            Ok(true)
        }
        None => Ok(false),
    }
}

// A run to a bad state of the system, if a search by few tickets finds one.
fn way_to_bad<R: Wait, G: Gate>(
    rt: &R,
    alloc: Global,
    system: &System,
    effort: &LtlEffort,
    gate: &G,
) -> Result<Option<BitRun>, AllocError>
    requires limit { effort.now.frames + 1 < 2 ^ 32 }
{
    let frames = Frames::of_one(alloc, system)?;
    let mut purse = PlainPurse::new(LOOK);
    let (frames, verdict) = explore_one(rt, alloc, frames, effort, &mut purse, gate)?;
    match verdict {
        Some(FramesVerdict::Reached(n)) => {
            let run = frames.run_of(alloc, n)?;
            Ok(Some(run))
        }
        _ => Ok(None),
    }
}

// Explores the frames of a system up to the effort's limit, and what they tell of it.
pub(crate) fn explore_one<'a, R: Wait, Q: Purse, G: Gate>(
    rt: &R,
    alloc: Global,
    frames: Frames<'a>,
    effort: &LtlEffort,
    purse: &mut Q,
    gate: &G,
) -> Result<(Frames<'a>, Option<FramesVerdict>), AllocError>
    requires obligations { frames.obligations ≡ [] }
    requires tops { frames.tops ≡ replicate (length frames.systems) 0 }
    requires some { 0 < length frames.systems }
    requires limit { effort.now.frames + 1 < 2 ^ 32 }
    requires ready { Q.ready purse.old }
    ensures systems { IfOk result (λ r. r.0.systems ≡ frames.entry.systems) }
    ensures says { IfOk result (λ r. VerdictSays r.0 0 r.1) }
    ensures ready { Q.ready purse.new }
{
    let limits = Limits {
        frames: effort.frames,
    };
    let Explored { frames, history: _ } = explore(rt, alloc, frames, limits, purse, gate)?;
    let verdict = frames.verdict(0);
    Ok((frames, verdict))
}

// The system with one counted signal that begins in a state and whose bad states are the goal. `own` is how many bits
// the state has without marks.
fn sought(
    alloc: Global,
    once: &System,
    from: &Bits,
    own: usize,
    goal: Goal,
) -> Result<System, AllocError> {
    once.law();
    let bits = once.state_bits();
    let all = once.all_bits();
    let init = beginning(alloc, from, bits, all)?;
    let step = copy(alloc, once.step())?;
    let bad = end(alloc, from, own, bits, goal)?;
    System::plain(alloc, bits, all, init, step, &bad)
}

// The value of a bit of a state, false past its end.
fn value(state: &Bits, bit: usize) -> bool {
    bit < state.len() && state.get(bit)
}

// That the first state is this one, with no signal counted.
fn beginning(alloc: Global, from: &Bits, bits: usize, all: usize) -> Result<Clauses, AllocError>
    requires { bits ≤ all }
    ensures { IfOk result (All (Within all)) }
{
    let mut clauses = Clauses::new(alloc);
    for bit in 0..bits {
        clauses.push(&[Lit::new(bit, value(from, bit))])?;
    }
    Ok(clauses)
}

// What holds at the goal: the last bit, which counts the signal; and to return, the bits of the state, without marks.
fn end(
    alloc: Global,
    from: &Bits,
    own: usize,
    bits: usize,
    goal: Goal,
) -> Result<Vec<Lit>, AllocError>
    ensures { IfOk result (λ ls. Within bits ls.items) }
{
    let mut literals = Vec::new(alloc);
    for bit in 0..bits {
        if bit + 1 == bits {
            literals.push(Lit::new(bit, true))?;
        } else if bit < own && matches!(goal, Goal::Return) {
            literals.push(Lit::new(bit, value(from, bit)))?;
        }
    }
    Ok(literals)
}

// The same clauses.
fn copy(alloc: Global, clauses: &Clauses) -> Result<Clauses, AllocError>
    ensures { IfOk result (λ copy. copy ≡ clauses.now) }
{
    let mut copy = Clauses::new(alloc);
    for k in 0..clauses.len() {
        copy.push(clauses.get(k))?;
    }
    Ok(copy)
}
