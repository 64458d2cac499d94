//! One question, by a solver of its own.

ghost use Rattle.std.specs.Prelude.{◌≡◌, ◌≤◌, [], All, IfOk};
ghost use Rattle.clause_core.specs.Literals.{Within};
ghost use Rattle.sat_core.specs.Paying.{PaysForOne};
ghost use Rattle.sound_check.specs.Questions.{IsQuestion};
ghost use Rattle.fault_search.specs.Answering.{AskedSays};
ghost use Rattle.fault_search.specs.Paying.{PaysQuestion};
ghost use Rattle.std.specs.Prelude.{Some};

use bit_clauses::Decided;
use cert_core::MAX_VARS;
use clause_core::{Bits, Log};
use effort_purse::Purse;
use hinted_log::Hinted;
use sat_core::{Answer, Solver};
use sat_prop::Watched;
use std::alloc::{AllocError, Global};

type Engine = Solver<Watched>;

// What one question is answered.
#[derive(Drop)]
pub enum Asked {
    // It can't be met, as these steps show; there are none where nothing is asked.
    Never(Option<Hinted>),
    // These values meet it.
    Met(Bits),
    // The purse was spent before it was answered.
    Spent { drawn: u64, budget: u64 },
}

fn discard(_solver: Engine) {}

// The steps of a log, without hints.
fn plain_steps(alloc: Global, log: &Log) -> Result<Hinted, AllocError>
    ensures steps { IfOk result (λ h. h.steps ≡ log.now) }
    ensures hints { IfOk result (λ h. All (λ x. x ≡ []) h.hints) }
{
    let mut steps = Hinted::new(alloc);
    for k in 0..log.len() {
        steps.push(log.get(k), &[])?;
    }
    Ok(steps)
}

// Asks a solver whether its clauses can be met, where it is one of the question's clauses alone.
fn ask_with<Q: Purse>(
    alloc: Global,
    solver: &mut Engine,
    question: &Decided,
    purse: &mut Q,
) -> Result<Asked, AllocError>
    requires fresh { solver.old ≡ record { vars = question.now.vars; given = question.now.clauses; learned = [] } }
    requires room { question.now.vars ≤ MAX_VARS }
    requires ready { Q.ready purse.old }
    ensures asked { IfOk result (AskedSays (Some question.now) (Q.budget purse.old) (Q.spent purse.new)) }
    ensures pays { PaysForOne solver.old [] solver.new (Q.tickets purse.old) (Q.tickets purse.new) }
    ensures kept { Q.kept purse.old purse.new }
    ensures ready { Q.ready purse.new }
    ensures budget { Q.budget purse.new ≡ Q.budget purse.old }
{
    match solver.solve(alloc, &[], purse)? {
        Answer::Sat(model) => Ok(Asked::Met(model)),
        Answer::Unsat { .. } => {
            let log = solver.log(alloc)?;
            let steps = plain_steps(alloc, &log)?;
            Ok(Asked::Never(Some(steps)))
        }
        Answer::Spent { drawn, budget } => Ok(Asked::Spent { drawn, budget }),
    }
}

// Asks whether the question's clauses can be met, by a solver that it makes.
fn ask<Q: Purse>(alloc: Global, question: &Decided, purse: &mut Q) -> Result<Asked, AllocError>
    requires within { All (Within question.now.vars) question.now.clauses }
    requires ready { Q.ready purse.old }
    ensures asked { IfOk result (AskedSays (Some question.now) (Q.budget purse.old) (Q.spent purse.new)) }
    ensures pays { PaysQuestion (Some question.now) (Q.tickets purse.old) (Q.tickets purse.new) }
    ensures kept { Q.kept purse.old purse.new }
    ensures ready { Q.ready purse.new }
    ensures budget { Q.budget purse.new ≡ Q.budget purse.old }
{
    if question.vars > MAX_VARS {
        return Err(AllocError);
    }
    let mut solver: Engine = Solver::with_clauses(alloc, question.vars, &question.clauses)?;
    let asked = ask_with(alloc, &mut solver, question, purse);
    discard(solver);
    asked
}

// The same, where nothing may be asked.
pub(crate) fn ask_about<Q: Purse>(
    alloc: Global,
    question: &Option<Decided>,
    purse: &mut Q,
) -> Result<Asked, AllocError>
    requires within { IsQuestion question.now }
    requires ready { Q.ready purse.old }
    ensures asked { IfOk result (AskedSays question.now (Q.budget purse.old) (Q.spent purse.new)) }
    ensures pays { PaysQuestion question.now (Q.tickets purse.old) (Q.tickets purse.new) }
    ensures kept { Q.kept purse.old purse.new }
    ensures ready { Q.ready purse.new }
    ensures budget { Q.budget purse.new ≡ Q.budget purse.old }
{
    match question {
        None => Ok(Asked::Never(None)),
        Some(question) => ask(alloc, question, purse),
    }
}
