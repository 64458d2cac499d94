//! Solves a DIMACS formula from standard input, and prints the answer and the count of conflicts.
//!
//! The first word on the command line, if there is one, is the budget of tickets. A second one is a number of queries:
//! so many are asked of one solver that is kept, each under some assumptions, and their answers are counted.
#![tactic(auto)]

ghost use Rattle.std.specs.Prelude.{All};
ghost use Rattle.clause_core.specs.Literals.{Within};

mod dimacs;
mod kept;
mod report;
mod solving;

use dimacs::{Formula, parse};
use kept::ask_kept;
use report::{report, report_kept};
use solving::solve;
use std::alloc::Global;
use std::io::{ErrorKind, Read};
use std::rt::Env;
use std::{env, io};

const DEFAULT_BUDGET: u64 = 1_000_000_000;

// The number that the word at this place gives, if one stands there.
fn number_at<R: Env + AllocGlobal>(rt: &R, place: usize) -> io::Result<Option<u64>> {
    let Some(word) = env::args(rt)?.nth(place) else {
        return Ok(None);
    };
    match word.as_str().parse::<u64>() {
        Ok(number) => Ok(Some(number)),
        Err(_) => Err(io::Error::from(ErrorKind::InvalidInput)),
    }
}

// All that there is to read.
fn text_of(alloc: Global, input: &mut impl Read) -> io::Result<Vec<u8>> {
    let mut text = Vec::new(alloc);
    input.read_to_end(&mut text)?;
    Ok(text)
}

// The lines that tell the answer, or how many queries had which answer.
fn answer(alloc: Global, formula: &Formula, budget: u64, queries: Option<u64>) -> io::Result<String>
    requires { All (Within formula.now.vars) formula.now.clauses }
{
    match queries {
        None => {
            let outcome = solve(alloc, formula.vars, &formula.clauses, budget)?;
            Ok(report(alloc, &outcome)?)
        }
        Some(count) => {
            let tally = ask_kept(alloc, formula.vars, &formula.clauses, count, budget)?;
            Ok(report_kept(alloc, &tally)?)
        }
    }
}

fn main(rt: HostRuntime) -> io::Result<()> {
    let alloc = rt.alloc();
    let budget = number_at(&rt, 1)?.unwrap_or(DEFAULT_BUDGET);
    let queries = number_at(&rt, 2)?;
    let text = text_of(alloc, &mut rt.stdin())?;
    let formula = parse(alloc, &text)?;
    rt.println(answer(alloc, &formula, budget, queries)?)
}
