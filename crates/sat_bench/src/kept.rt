//! Many queries on one solver that is kept (Eén and Sörensson 2003), each under assumptions of its own.
ghost use Rattle.std.specs.Prelude.{◌≡◌, ◌+◌, ◌<◌, ◌≤◌, ◌^◌, All, IfOk, OnOk, length};
ghost use Rattle.clause_core.specs.Literals.{Within};
ghost use Rattle.sat_bench.specs.Kept.{answers};

use crate::solving::Engine;
use clause_core::{Clauses, Lit};
use effort_purse::PlainPurse;
use sat_core::{Answer, Solver};
use std::alloc::{AllocError, Global};

// How many literals a query assumes.
const ASSUMED: usize = 8;

// How many learned clauses the solver keeps at most from one query to the next.
const LEARNED: usize = 1000;

/// How many queries had each answer.
#[derive(Clone, Copy, Debug, Drop)]
pub struct Tally {
    pub satisfiable: u64,
    pub unsatisfiable: u64,
    pub unknown: u64,
}

// The state of the generator that picks literals: a linear congruence (Knuth 1997, MMIX).
fn picked_next(state: u64) -> u64 {
    state
        .wrapping_mul(6_364_136_223_846_793_005)
        .wrapping_add(1_442_695_040_888_963_407)
}

// The literals that are picked from this state on, and the state after them.
fn assumptions(alloc: Global, vars: usize, state: &mut u64) -> Result<Vec<Lit>, AllocError>
    ensures { IfOk result (λ v. Within vars v.items) }
{
    let mut literals = Vec::new(alloc);
    if vars == 0 {
        return Ok(literals);
    }
    'picked: for _ in 0..ASSUMED {
        *state = picked_next(*state);
        let number = *state >> 33;
        let var = number as usize % vars;
        let positive = *state >> 32 & 1 == 1;
        literals.push(Lit { var, positive })?;
    }
    Ok(literals)
}

// Counts an answer.
fn note(tally: &mut Tally, answer: &Answer)
    requires { answers tally.old + 1 < 2 ^ 64 }
    ensures { answers tally.new ≡ answers tally.old + 1 }
{
    match answer {
        Answer::Sat(_) => tally.satisfiable += 1,
        Answer::Unsat { .. } => tally.unsatisfiable += 1,
        Answer::Spent { .. } => tally.unknown += 1,
    }
}

/// Asks so many queries of one solver with these clauses, each under eight literals that a generator picks.
///
/// Each query draws a ticket, and each clause that is learned another; once all are drawn each further query is
/// unknown. What was learned is forgotten between two queries once it is more than 1000 clauses, so that the time of a
/// query does not grow with the number of queries before it. The only error is out of memory.
pub fn ask_kept(
    alloc: Global,
    vars: usize,
    clauses: &Clauses,
    queries: u64,
    budget: u64,
) -> Result<Tally, AllocError>
    requires { All (Within vars) clauses.now }
    ensures { IfOk result (λ t. answers t ≡ queries) }
{
    let mut solver: Engine = Solver::with_clauses(alloc, vars, clauses)?;
    let mut purse = PlainPurse::new(budget);
    let mut tally = Tally {
        satisfiable: 0,
        unsatisfiable: 0,
        unknown: 0,
    };
    let mut state = 1;
    'queries: for _ in 0..queries {
        let assumed = assumptions(alloc, vars, &mut state)?;
        let answer = solver.solve(alloc, &assumed, &mut purse)?;
        note(&mut tally, &answer);
        if solver.learned() > LEARNED {
            solver.forget(alloc)?;
        }
    }
    Ok(tally)
}
