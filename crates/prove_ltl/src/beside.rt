//! Several workers decide a formula: one of them searches lassos with few tickets, counts signals by leaps, and searches
//! all lassos, while the others count signals one after another. Who finds an answer stops the others.

ghost use Rattle.std.specs.Prelude.{◌≡◌, ◌≤◌, ◌<◌, ◌+◌, ◌^◌, [], IfOk, IfSome};
ghost use Rattle.std.specs.Thread.{IsSync};
ghost use Rattle.cert_core.specs.declared.form.TheConstants.{MAX_COUNTER};
ghost use Rattle.effort_purse.specs.Seats.{IsSeatOf, budget_of, shares_of, tickets_of};
ghost use Rattle.prove_ltl.specs.Climbing.{IsDoneFor, Settles};
ghost use Rattle.prove_ltl.specs.Sought.{Seeks};

use crate::answers::LtlDone;
use crate::capped::Capped;
use crate::effort::LtlEffort;
use crate::known::{if_known, is_unknown, stop_others};
use crate::leaping::{LEAP_TICKETS, leap_all};
use crate::less_effort::{FIRST, LONGER, search_early};
use crate::searching::search_first;
use crate::together::climb_all_together;
use clause_core::System;
use effort_purse::{Seat, SharedPurse};
use frame_worker::Stoppable;
use ltl_monitor::Monitored;
use outside::Gate;
use std::alloc::{AllocError, Global};
use std::sync::Wait;
use std::thread::{Threads, join};

// What came of a search of lassos.
#[derive(Drop)]
enum Sought {
    // This answer: a lasso violates the formula.
    Found(LtlDone),
    // No lasso of a length up to the bound does.
    None,
    // That is not known: who searched got no more tickets, or was refused memory.
    Open,
}

// A gate that lets through by one worker's number whoever comes.
#[derive(Drop)]
struct Numbered<'a, G> {
    gate: &'a G,
    worker: u32,
}

impl<'a, G: Gate> Gate for Numbered<'a, G> {
    fn enter<R: Wait>(&self, rt: &R, _worker: u32) {
        self.gate.enter(rt, self.worker);
    }
}

// What lassos that cost little answer, or leaps, which draw from the shared purse.
fn answer_early<R: Wait, G: Gate>(
    rt: &R,
    alloc: Global,
    system: &System,
    monitored: &Monitored,
    effort: &LtlEffort,
    purse: &SharedPurse,
    seat: Seat,
    worker: u32,
    gate: &G,
) -> Result<Option<LtlDone>, AllocError>
    requires limit { effort.now.frames + 1 < 2 ^ 32 }
    requires counter { effort.now.counter ≤ MAX_COUNTER }
    requires own { IsSeatOf purse.now seat }
    requires budget { budget_of purse.now ≡ effort.now.conflicts }
    ensures { IfOk result (λ o. IfSome o (IsDoneFor system.now effort.now monitored.now.system)) }
{
    if let Some(done) = search_early(rt, alloc, system, monitored, effort, FIRST, worker, gate)? {
        return Ok(Some(done));
    }
    if let Some(done) = search_early(rt, alloc, system, monitored, effort, LONGER, worker, gate)? {
        return Ok(Some(done));
    }
    let lent = Stoppable {
        purse,
        seat,
        budget: effort.conflicts,
        refused: false,
    };
    let mut capped = Capped {
        lent,
        left: LEAP_TICKETS,
        refused: false,
    };
    let gate = Numbered { gate, worker };
    leap_all(rt, alloc, system, monitored, effort, &mut capped, &gate)
}

// Searches lassos by this worker. A lasso that violates the formula stops those who count signals.
fn search_beside<R: Wait, G: Gate>(
    rt: &R,
    alloc: Global,
    system: &System,
    monitored: &Monitored,
    effort: &LtlEffort,
    purse: &SharedPurse,
    seat: Seat,
    worker: u32,
    gate: &G,
) -> Sought
    requires own { IsSeatOf purse.now seat }
    requires unused { tickets_of seat ≡ [] }
    requires budget { budget_of purse.now ≡ effort.now.conflicts }
    ensures { Seeks system.now effort.now monitored.now.system result }
{
    let mut lent = Stoppable {
        purse,
        seat,
        budget: effort.conflicts,
        refused: false,
    };
    let first = search_first(
        rt, alloc, system, monitored, effort, &mut lent, worker, gate,
    );
    match first {
        Ok(Some(done)) => {
            if is_unknown(&done.answer) {
                return Sought::Open;
            }
            stop_others(lent.purse, &mut lent.seat, &done.answer);
            Sought::Found(done)
        }
        Ok(None) => Sought::None,
        Err(AllocError) => Sought::Open,
    }
}

// Looks for an answer by lassos that cost little, by leaps, then by all lassos. An answer stops those who count signals.
fn look_beside<R: Wait, G: Gate>(
    rt: &R,
    alloc: Global,
    system: &System,
    monitored: &Monitored,
    effort: &LtlEffort,
    purse: &SharedPurse,
    mut seat: Seat,
    worker: u32,
    gate: &G,
) -> Sought
    requires limit { effort.now.frames + 1 < 2 ^ 32 }
    requires counter { effort.now.counter ≤ MAX_COUNTER }
    requires own { IsSeatOf purse.now seat }
    requires unused { tickets_of seat ≡ [] }
    requires two { 1 < shares_of seat }
    requires budget { budget_of purse.now ≡ effort.now.conflicts }
    ensures { Seeks system.now effort.now monitored.now.system result }
{
    let other = purse.split(&mut seat, 1);
    let early = answer_early(
        rt, alloc, system, monitored, effort, purse, other, worker, gate,
    );
    if let Ok(Some(done)) = early {
        stop_others(purse, &mut seat, &done.answer);
        return Sought::Found(done);
    }
    search_beside(
        rt, alloc, system, monitored, effort, purse, seat, worker, gate,
    )
}

// Counts signals by so many workers, and searches lassos at the same time by one more, whose number comes after theirs.
fn count_and_search<R: Threads + Wait + Sync, G: Gate + Sync>(
    rt: &R,
    alloc: Global,
    system: &System,
    monitored: &Monitored,
    effort: &LtlEffort,
    purse: &SharedPurse,
    seat: Seat,
    other: Seat,
    workers: u32,
    gate: &G,
) -> (Result<Option<LtlDone>, AllocError>, Sought)
    requires limit { effort.now.frames + 1 < 2 ^ 32 }
    requires counter { effort.now.counter ≤ MAX_COUNTER }
    requires own { IsSeatOf purse.now seat }
    requires other { IsSeatOf purse.now other }
    requires unused { tickets_of seat ≡ [] }
    requires other_unused { tickets_of other ≡ [] }
    requires some { 0 < workers }
    requires few { workers + 1 < 2 ^ 32 }
    requires shares { workers < shares_of seat }
    requires two { 1 < shares_of other }
    requires budget { budget_of purse.now ≡ effort.now.conflicts }
    ensures counted { IfOk result.0 (λ o. IfSome o (Settles effort.now monitored.now.system 0 [] [] 0)) }
    ensures sought { Seeks system.now effort.now monitored.now.system result.1 }
{
    join(
        rt,
        || -> Result<Option<LtlDone>, AllocError>
            requires { IsSync R.row × IsSync G.row × (effort.now.frames + 1 < 2 ^ 32) × (effort.now.counter ≤ MAX_COUNTER) × IsSeatOf purse.now seat × (tickets_of seat ≡ []) × (0 < workers) × (workers < shares_of seat) × (budget_of purse.now ≡ effort.now.conflicts) }
            ensures { IfOk result (λ o. IfSome o (Settles effort.entry.now monitored.entry.now.system 0 [] [] 0)) }
        { climb_all_together(rt, alloc, monitored, effort, purse, seat, workers, gate) },
        || -> Sought
            requires { IsSync R.row × IsSync G.row × (workers + 1 < 2 ^ 32) × (effort.now.frames + 1 < 2 ^ 32) × (effort.now.counter ≤ MAX_COUNTER) × IsSeatOf purse.now other × (tickets_of other ≡ []) × (1 < shares_of other) × (budget_of purse.now ≡ effort.now.conflicts) }
            ensures { Seeks system.entry.now effort.entry.now monitored.entry.now.system result }
        {
            look_beside(
                rt,
                alloc,
                system,
                monitored,
                effort,
                purse,
                other,
                workers + 1,
                gate,
            )
        },
    )
}

// The answer of both sides. What was counted is one where it is known, or where no length up to the bound has a lasso.
fn answer_of(
    system: &System,
    monitored: &Monitored,
    effort: &LtlEffort,
    counted: Result<Option<LtlDone>, AllocError>,
    sought: Sought,
) -> Result<Option<LtlDone>, AllocError>
    requires counted { IfOk counted (λ o. IfSome o (Settles effort.now monitored.now.system 0 [] [] 0)) }
    requires sought { Seeks system.now effort.now monitored.now.system sought }
    ensures { IfOk result (λ o. IfSome o (IsDoneFor system.now effort.now monitored.now.system)) }
{
    system.law();
    monitored.system.law();
    match sought {
        Sought::Found(done) => Ok(Some(done)),
        Sought::None => counted,
        Sought::Open => {
            let counted = counted?;
            Ok(if_known(counted))
        }
    }
}

// What so many workers answer. None where lassos or signals leave it open, as where the book of a counter was dropped
// or all tickets were drawn; or where the numbers of tickets and of workers have no room in one purse.
pub(crate) fn prove_together<R: Threads + Wait + Sync, G: Gate + Sync>(
    rt: &R,
    alloc: Global,
    system: &System,
    monitored: &Monitored,
    effort: &LtlEffort,
    workers: u32,
    gate: &G,
) -> Result<Option<LtlDone>, AllocError>
    requires limit { effort.now.frames + 1 < 2 ^ 32 }
    requires counter { effort.now.counter ≤ MAX_COUNTER }
    requires some { 1 < workers }
    ensures { IfOk result (λ o. IfSome o (IsDoneFor system.now effort.now monitored.now.system)) }
{
    let shares = u64::from(workers) + 2;
    if effort.conflicts > u64::MAX - shares {
        return Ok(None);
    }
    let (purse, mut seat) = SharedPurse::new(alloc, effort.conflicts, 0, shares)?;
    let other = purse.split(&mut seat, 2);
    let (counted, sought) = count_and_search(
        rt,
        alloc,
        system,
        monitored,
        effort,
        &purse,
        seat,
        other,
        workers - 1,
        gate,
    );
    answer_of(system, monitored, effort, counted, sought)
}
