//! The call: a system, a formula and its atoms in, an answer out.

ghost use Rattle.std.specs.Prelude.{◌≡◌, ◌<◌, ◌≤◌, ◌+◌, ◌^◌, length, IfOk, IfSome};
ghost use Rattle.clause_core.specs.Literals.{Within};
ghost use Rattle.clause_core.specs.Systems.{Gives};
ghost use Rattle.cert_core.specs.declared.form.TheConstants.{MAX_COUNTER};
ghost use Rattle.ltl_meaning.specs.Temporal.{formula_of};
ghost use Rattle.ltl_meaning.specs.Unfolded.{unfolded};
ghost use Rattle.ltl_monitor.specs.States.{AtomsBelow};
ghost use Rattle.prove_ltl.specs.Climbing.{IsDoneFor};
ghost use Rattle.prove_ltl.specs.LtlAnswers.{IsLtlDone};

use crate::answers::LtlDone;
use crate::beside::prove_together;
use crate::climbing::climb_all;
use crate::effort::LtlEffort;
use crate::known::is_unknown;
use crate::leaping::{LEAP_TICKETS, leap_all};
use crate::less_effort::{FIRST, LONGER, SECOND, less_effort, search_early};
use crate::searching::search_first;
use clause_core::{Lit, System};
use effort_purse::PlainPurse;
use ltl_meaning::formula::Formula;
use ltl_monitor::{Monitored, monitored};
use outside::Gate;
use std::alloc::{AllocError, Global};
use std::sync::Wait;
use std::thread::Threads;

/// Whether a lasso of the system violates the formula, whose atoms are these literals, by so many workers.
///
/// An answer is a certificate that none does; a lasso that does; or the cause why neither is known.
/// Lassos are searched up to the bound, the shortest first; a query for the greatest of many lengths, which finds none, answers
/// for all of them. Then the system is counted up to 0, 1, .. signals, each with the lemmas of the one before, until it reaches
/// no bad state. All work is paid from one budget of tickets. Before that one worker tries the same twice, with smaller bounds
/// and with few tickets of its own, since counters often answer where long lassos cost much. Between these tries it searches
/// longer lassos with few tickets, and counts by leaps: a run with more signals than were counted is followed to further
/// signals, by searches with tickets of their own, and the counters that the longer run passes are left out. Such a run may
/// come back to a state after each set was met: the lasso along it, if it has at most as many states as the bound. What
/// these tries find is the answer.
///
/// One worker is the caller, with number 0. Several have the numbers from 1 on: the last of them searches lassos with
/// few tickets of its own, counts by leaps, and searches all lassos, while the others explore the frames of each
/// counter. The caller finishes what these leave, and makes the certificate. All draw from one purse. Who finds a lasso
/// or a certificate stops the others, who get no more tickets. A bound that was reached stops nobody: the cause says
/// what both found. Where all tickets were drawn, or the book of a counter has to be dropped, the caller begins anew
/// alone, with a purse of its own. It works alone too where the numbers of tickets and of workers have no room in one
/// purse. Each worker passes the gate before each of its tasks, but the caller not before those that it finishes for
/// others. A worker of several that is refused memory ends alone; that the caller is refused memory is the only error.
pub fn prove_ltl<R: Threads + Wait + Sync, G: Gate + Sync>(
    rt: &R,
    alloc: Global,
    system: &System,
    formula: &Formula,
    atoms: &[Lit],
    effort: &LtlEffort,
    workers: u32,
    gate: &G,
) -> Result<LtlDone, AllocError>
    requires numbers { AtomsBelow (length atoms.now) (unfolded (formula_of formula.now.root)) }
    requires within { Within system.now.all_bits atoms.now }
    requires given { Gives system.now.state_bits atoms.now system.now.defs }
    requires limit { effort.now.frames + 1 < 2 ^ 32 }
    requires counter { effort.now.counter ≤ MAX_COUNTER }
    requires workers { 0 < workers }
    ensures { IfOk result (λ d. IsLtlDone system.now (unfolded (formula_of formula.now.root)) atoms.now effort.now d.work.items d.answer) }
{
    system.law();
    let monitored = monitored(alloc, system, formula, atoms)?;
    let done = prove_monitored(rt, alloc, system, &monitored, effort, workers, gate)?;
    Ok(done)
}

// The same of a monitored system. Most formulas are answered by short lassos, or by counters that cost less than long lassos.
fn prove_monitored<R: Threads + Wait + Sync, G: Gate + Sync>(
    rt: &R,
    alloc: Global,
    system: &System,
    monitored: &Monitored,
    effort: &LtlEffort,
    workers: u32,
    gate: &G,
) -> Result<LtlDone, AllocError>
    requires limit { effort.now.frames + 1 < 2 ^ 32 }
    requires counter { effort.now.counter ≤ MAX_COUNTER }
    requires workers { 0 < workers }
    ensures { IfOk result (IsDoneFor system.now effort.now monitored.now.system) }
{
    if workers < 2 {
        if let Some(done) = prove_early(rt, alloc, system, monitored, effort, FIRST, gate)? {
            return Ok(done);
        }
        if let Some(done) = search_early(rt, alloc, system, monitored, effort, LONGER, 0, gate)? {
            return Ok(done);
        }
        if let Some(done) = leap_alone(rt, alloc, system, monitored, effort, gate)? {
            return Ok(done);
        }
        if let Some(done) = prove_early(rt, alloc, system, monitored, effort, SECOND, gate)? {
            return Ok(done);
        }
    }
    prove_whole(rt, alloc, system, monitored, effort, workers, gate)
}

// A certificate or a lasso, where so small an effort finds one. It has a purse of its own.
fn prove_early<R: Wait, G: Gate>(
    rt: &R,
    alloc: Global,
    system: &System,
    monitored: &Monitored,
    effort: &LtlEffort,
    limits: (usize, u64),
    gate: &G,
) -> Result<Option<LtlDone>, AllocError>
    requires limit { effort.now.frames + 1 < 2 ^ 32 }
    requires counter { effort.now.counter ≤ MAX_COUNTER }
    ensures { IfOk result (λ o. IfSome o (IsDoneFor system.now effort.now monitored.now.system)) }
{
    let less = less_effort(effort, limits);
    let done = prove_alone(rt, alloc, system, monitored, &less, gate)?;
    if is_unknown(&done.answer) {
        return Ok(None);
    }
    Ok(Some(done))
}

// A certificate or a lasso, where leaps find one. They have a purse of their own.
fn leap_alone<R: Wait, G: Gate>(
    rt: &R,
    alloc: Global,
    system: &System,
    monitored: &Monitored,
    effort: &LtlEffort,
    gate: &G,
) -> Result<Option<LtlDone>, AllocError>
    requires limit { effort.now.frames + 1 < 2 ^ 32 }
    requires counter { effort.now.counter ≤ MAX_COUNTER }
    ensures { IfOk result (λ o. IfSome o (IsDoneFor system.now effort.now monitored.now.system)) }
{
    let mut purse = PlainPurse::new(effort.conflicts.min(LEAP_TICKETS));
    leap_all(rt, alloc, system, monitored, effort, &mut purse, gate)
}

// The same by the whole effort.
fn prove_whole<R: Threads + Wait + Sync, G: Gate + Sync>(
    rt: &R,
    alloc: Global,
    system: &System,
    monitored: &Monitored,
    effort: &LtlEffort,
    workers: u32,
    gate: &G,
) -> Result<LtlDone, AllocError>
    requires limit { effort.now.frames + 1 < 2 ^ 32 }
    requires counter { effort.now.counter ≤ MAX_COUNTER }
    requires workers { 0 < workers }
    ensures { IfOk result (IsDoneFor system.now effort.now monitored.now.system) }
{
    if workers < 2 {
        return prove_alone(rt, alloc, system, monitored, effort, gate);
    }
    match prove_together(rt, alloc, system, monitored, effort, workers, gate)? {
        Some(done) => Ok(done),
        None => prove_alone(rt, alloc, system, monitored, effort, gate),
    }
}

// The same by one worker.
fn prove_alone<R: Wait, G: Gate>(
    rt: &R,
    alloc: Global,
    system: &System,
    monitored: &Monitored,
    effort: &LtlEffort,
    gate: &G,
) -> Result<LtlDone, AllocError>
    requires limit { effort.now.frames + 1 < 2 ^ 32 }
    requires counter { effort.now.counter ≤ MAX_COUNTER }
    ensures { IfOk result (IsDoneFor system.now effort.now monitored.now.system) }
{
    let mut purse = PlainPurse::new(effort.conflicts);
    match search_first(rt, alloc, system, monitored, effort, &mut purse, 0, gate)? {
        Some(done) => Ok(done),
        None => {
            let done = climb_all(rt, alloc, monitored, effort, &mut purse, gate)?;
            Ok(done)
        }
    }
}
