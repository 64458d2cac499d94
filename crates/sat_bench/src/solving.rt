//! The solver's answer to a formula.
ghost use Rattle.std.specs.Prelude.{◌≡◌, [], All, IfOk};
ghost use Rattle.clause_core.specs.Literals.{Within};
ghost use Rattle.effort_purse.specs.Plain.{plain_count};
ghost use Rattle.sat_bench.specs.Verdicts.{IsRight, verdict_of};

use clause_core::Clauses;
use effort_purse::{Draw, PlainPurse, Purse};
use sat_core::{Answer, Solver};
use sat_prop::Watched;
use std::alloc::{AllocError, Global};

/// What is known of a formula.
#[derive(Clone, Copy, Debug, Drop)]
pub enum FormulaVerdict {
    /// Some assignment makes each clause true.
    Satisfiable,
    /// None does.
    Unsatisfiable,
    /// The budget was used up before it was known.
    Unknown,
}

/// A verdict, and the number of conflicts from which a clause was learned.
#[derive(Clone, Copy, Debug, Drop)]
pub struct FormulaOutcome {
    pub verdict: FormulaVerdict,
    pub conflicts: u64,
}

/// A solver with watched literals.
pub type Engine = Solver<Watched>;

// The verdict of the solver's answer.
fn verdict_of(answer: Answer) -> FormulaVerdict
    ensures { result ≡ verdict_of answer }
{
    match answer {
        Answer::Sat(_) => FormulaVerdict::Satisfiable,
        Answer::Unsat { .. } => FormulaVerdict::Unsatisfiable,
        Answer::Spent { .. } => FormulaVerdict::Unknown,
    }
}

// How many tickets were drawn.
fn drawn(mut purse: PlainPurse) -> u64
    ensures { result ≡ plain_count purse }
{
    match purse.draw() {
        Draw::Ticket(number) => number,
        Draw::Spent { drawn, .. } => drawn,
    }
}

/// Whether some assignment makes each clause true.
///
/// A query costs a ticket, and each clause learned from a conflict another; where all are drawn the verdict may be
/// `Unknown`. The only error is out of memory.
pub fn solve(
    alloc: Global,
    vars: usize,
    clauses: &Clauses,
    budget: u64,
) -> Result<FormulaOutcome, AllocError>
    requires { All (Within vars) clauses.now }
    ensures { IfOk result (IsRight clauses.now budget) }
{
    let mut solver: Engine = Solver::with_clauses(alloc, vars, clauses)?;
    let mut purse = PlainPurse::new(budget);
    let answer = solver.solve(alloc, &[], &mut purse)?;
    Ok(FormulaOutcome {
        verdict: verdict_of(answer),
        conflicts: drawn(purse).saturating_sub(1),
    })
}
