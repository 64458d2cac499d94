//! The lines that tell an outcome.
ghost use Rattle.std.specs.Prelude.{◌≡◌, ◌++◌, IfOk, string_bytes, codes, decimal};
ghost use Rattle.sat_bench.specs.Verdicts.{line_of};

use crate::kept::Tally;
use crate::solving::{FormulaOutcome, FormulaVerdict};
use std::alloc::{AllocError, Global};

// The line of a verdict, as solvers' competitions have it.
fn line(verdict: FormulaVerdict) -> &'static str
    ensures { result.now ≡ line_of verdict }
{
    match verdict {
        FormulaVerdict::Satisfiable => "s SATISFIABLE",
        FormulaVerdict::Unsatisfiable => "s UNSATISFIABLE",
        FormulaVerdict::Unknown => "s UNKNOWN",
    }
}

/// The verdict's line, and a line with the count of conflicts.
pub fn report(alloc: Global, outcome: &FormulaOutcome) -> Result<String, AllocError>
    ensures { IfOk result (λ text. string_bytes text ≡ line_of outcome.now.verdict ++ (codes "\nc conflicts " ++ decimal outcome.now.conflicts)) }
{
    let answer = line(outcome.verdict);
    let conflicts = outcome.conflicts;
    format!(in alloc; "{answer}\nc conflicts {conflicts}")
}

/// A line for each answer, with the count of queries that had it.
pub fn report_kept(alloc: Global, tally: &Tally) -> Result<String, AllocError>
    ensures { IfOk result (λ text. string_bytes text ≡ codes "q satisfiable " ++ (decimal tally.now.satisfiable ++ (codes "\nq unsatisfiable " ++ (decimal tally.now.unsatisfiable ++ (codes "\nq unknown " ++ decimal tally.now.unknown))))) }
{
    let satisfiable = tally.satisfiable;
    let unsatisfiable = tally.unsatisfiable;
    let unknown = tally.unknown;
    format!(in alloc;
        "q satisfiable {satisfiable}\nq unsatisfiable {unsatisfiable}\nq unknown {unknown}"
    )
}
