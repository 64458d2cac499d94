//! Fair lassos of a monitored system, the shortest first: short lengths one after another, and then the greatest of many.
//!
//! A fair lasso goes on round its loop, so where there is one of some length there is one of each greater length. Where a query
//! for the greatest of many lengths finds none, it answers for all of them. It mostly costs less than the queries for the
//! lengths in the middle.

ghost use Rattle.std.specs.Prelude.{◌≡◌, ◌<◌, ◌≤◌, ℕ, List, [], IfOk};
ghost use Rattle.clause_core.specs.declared.literal.Lit.{Lit};
ghost use Rattle.ltl_meaning.specs.Ltl.{Ltl};
ghost use Rattle.ltl_monitor.specs.States.{IsMonitor};
ghost use Rattle.lasso_search.specs.Lassos.{IsFairLasso};
ghost use Rattle.ltl_lassos.specs.Violating.{AreViolating};
ghost use Rattle.prove_ltl.specs.Climbing.{Begins};
ghost use Rattle.prove_ltl.specs.Searching.{SearchSays, LengthsSay};

use crate::answers::{LtlAnswer, LtlDone};
use crate::counting::spent_by;
use crate::effort::LtlEffort;
use clause_core::System;
use effort_purse::Purse;
use lasso_search::soundness_of_search::{found_lassos, own_lassos, shorter_lassos};
use lasso_search::{BitLasso, LassoSolver, Searched};
use ltl_monitor::Monitored;
use outside::Gate;
use std::alloc::{AllocError, Global};
use std::sync::Wait;

// Lengths up to this one are asked for one after another.
const SHORT: usize = 4;

// Up to this length, and then up to twice the length before, the greatest is asked for first.
const LONG: usize = 32;

// A fair lasso of `first` + 1, .. states up to `last`, the shortest, if there is one. Each length is asked for once, by
// this worker, who passes the gate before it.
fn search_lengths<R: Wait, Q: Purse, G: Gate>(
    rt: &R,
    alloc: Global,
    solver: &mut LassoSolver,
    first: usize,
    last: usize,
    purse: &mut Q,
    worker: u32,
    gate: &G,
) -> Result<Searched, AllocError>
    requires order { first ≤ last }
    requires ready { Q.ready purse.old }
    ensures says { IfOk result (LengthsSay solver.old.system first last solver.old.known solver.new.known (Q.tickets purse.old) (Q.tickets purse.new) (Q.spent purse.new)) }
    ensures system { solver.new.system ≡ solver.old.system }
    ensures kept { Q.kept purse.old purse.new }
    ensures ready { Q.ready purse.new }
    ensures budget { Q.budget purse.new ≡ Q.budget purse.old }
{
    'lengths: for k in first..last {
        gate.enter(rt, worker);
        match solver.search(alloc, k + 1, purse)? {
            Searched::None => {}
            Searched::Found(lasso) => return Ok(Searched::Found(lasso)),
            Searched::Spent { drawn, budget } => return Ok(Searched::Spent { drawn, budget }),
        }
    }
    Ok(Searched::None)
}

// A fair lasso of more than `low` states and at most `high`, if there is one. The greatest of these lengths is asked for first.
// Where that finds one, the others are asked for a shorter one.
fn search_between<R: Wait, Q: Purse, G: Gate>(
    rt: &R,
    alloc: Global,
    solver: &mut LassoSolver,
    low: usize,
    high: usize,
    purse: &mut Q,
    worker: u32,
    gate: &G,
) -> Result<Searched, AllocError>
    requires some { low < high }
    requires ready { Q.ready purse.old }
    ensures says { IfOk result (LengthsSay solver.old.system low high solver.old.known solver.new.known (Q.tickets purse.old) (Q.tickets purse.new) (Q.spent purse.new)) }
    ensures system { solver.new.system ≡ solver.old.system }
    ensures kept { Q.kept purse.old purse.new }
    ensures ready { Q.ready purse.new }
    ensures budget { Q.budget purse.new ≡ Q.budget purse.old }
{
    shorter_lassos();
    gate.enter(rt, worker);
    match solver.search(alloc, high, purse)? {
        Searched::None => Ok(Searched::None),
        Searched::Spent { drawn, budget } => Ok(Searched::Spent { drawn, budget }),
        Searched::Found(lasso) => {
            match search_lengths(rt, alloc, solver, low, high - 1, purse, worker, gate)? {
                Searched::Found(shorter) => Ok(Searched::Found(shorter)),
                _ => Ok(Searched::Found(lasso)),
            }
        }
    }
}

// The length that is asked for after all up to `low`, which is less than `bound`.
fn length_after(low: usize, bound: usize) -> usize
    requires { low < bound }
    ensures more { low < result }
    ensures within { result ≤ bound }
{
    let next = low.saturating_mul(2).max(LONG);
    if low < next && next < bound {
        next
    } else {
        bound
    }
}

// A fair lasso of at most so many states, if there is one: the shortest, unless the purse is spent before it is found.
fn search_all<R: Wait, Q: Purse, G: Gate>(
    rt: &R,
    alloc: Global,
    system: &System,
    bound: usize,
    purse: &mut Q,
    worker: u32,
    gate: &G,
) -> Result<Searched, AllocError>
    requires fresh { Q.tickets purse.old ≡ [] }
    requires ready { Q.ready purse.old }
    ensures says { IfOk result (SearchSays system.now bound (Q.tickets purse.new) (Q.spent purse.new)) }
    ensures kept { Q.kept purse.old purse.new }
    ensures ready { Q.ready purse.new }
    ensures budget { Q.budget purse.new ≡ Q.budget purse.old }
{
    let mut solver = LassoSolver::new(system);
    let mut low = SHORT.min(bound);
    match search_lengths(rt, alloc, &mut solver, 0, low, purse, worker, gate)? {
        Searched::None => {}
        Searched::Found(lasso) => return Ok(Searched::Found(lasso)),
        Searched::Spent { drawn, budget } => return Ok(Searched::Spent { drawn, budget }),
    }
    'longer: while low < bound {
        let high = length_after(low, bound);
        match search_between(rt, alloc, &mut solver, low, high, purse, worker, gate)? {
            Searched::None => {}
            Searched::Found(lasso) => return Ok(Searched::Found(lasso)),
            Searched::Spent { drawn, budget } => return Ok(Searched::Spent { drawn, budget }),
        }
        low = high;
    }
    Ok(Searched::None)
}

// The lasso of the system that a fair lasso of its monitored system is.
pub(crate) fn violating(
    alloc: Global,
    system: &System,
    monitored: &Monitored,
    lasso: &BitLasso,
) -> Result<BitLasso, AllocError>
    ensures { IfOk result (λ own. (f : Ltl) (atoms : List Lit) (n : ℕ) → IsMonitor system.now f atoms monitored.now.system → IsFairLasso monitored.now.system n lasso.now → AreViolating system.now f atoms own.rows own.start) }
{
    found_lassos();
    own_lassos();
    system.law();
    monitored.system.law();
    let own = lasso.own(alloc, system, monitored)?;
    Ok(own)
}

// Searches the lengths up to the bound, by this worker, and answers where a lasso is found or the purse is spent.
pub(crate) fn search_first<R: Wait, Q: Purse, G: Gate>(
    rt: &R,
    alloc: Global,
    system: &System,
    monitored: &Monitored,
    effort: &LtlEffort,
    purse: &mut Q,
    worker: u32,
    gate: &G,
) -> Result<Option<LtlDone>, AllocError>
    requires fresh { Q.tickets purse.old ≡ [] }
    requires ready { Q.ready purse.old }
    ensures begins { IfOk result (Begins system.now effort.now monitored.now.system (Q.tickets purse.new) (Q.spent purse.new)) }
    ensures kept { Q.kept purse.old purse.new }
    ensures ready { Q.ready purse.new }
    ensures budget { Q.budget purse.new ≡ Q.budget purse.old }
{
    system.law();
    monitored.system.law();
    match search_all(
        rt,
        alloc,
        &monitored.system,
        effort.bound,
        purse,
        worker,
        gate,
    )? {
        Searched::Found(lasso) => {
            let lasso = violating(alloc, system, monitored, &lasso)?;
            Ok(Some(LtlDone {
                answer: LtlAnswer::False(lasso),
                work: Vec::new(alloc),
            }))
        }
        Searched::Spent { .. } => Ok(Some(LtlDone {
            answer: LtlAnswer::Unknown(spent_by(effort)),
            work: Vec::new(alloc),
        })),
        Searched::None => Ok(None),
    }
}
