//! One query: it pays a ticket, searches, and gives the model, or the core with the log that
//! derives it.

ghost use Rattle.std.specs.Prelude.{◌≡◌, ◌≤◌, ◌-◌, ◌+◌, List, [], ◌∷◌, ◌++◌, false, IfOk, OnOk, OnErr, length, map, eqb, slice_index_or};
ghost use Rattle.clause_core.specs.declared.literal.Lit.{Lit};
ghost use Rattle.clause_core.specs.Literals.{Within};
ghost use Rattle.sat_core.specs.Queries.{state_of, given_of, learned_of, Learns, IsRefutedAtOnce, AnswerSays, IsPaid, Draws, IsUnsat, CostsOneTicket, IsRefutedForOne};
ghost use Rattle.sat_core.specs.Paying.{PaysForLearned, PaysForOne};
ghost use Rattle.sat_core.specs.Searching.{Keeps, SameMarks, KnowsPositives};
ghost use Rattle.sat_core.specs.Ends.{OutcomeSays, HasCore};

use crate::answer::Answer;
use crate::order::Order;
use crate::positives::mark_positives;
use crate::search::{SearchOutcome, restart, search};
use clause_core::{Bits, Clauses, Lit, Log};
use effort_purse::{Draw, Purse};
use sat_prop::{Propagator, Trail};
use std::alloc::{AllocError, Global};

// Marks the clauses up to number n that have no mark yet as learned.
fn mark_learned(marks: &mut Vec<bool>, n: usize) -> Result<(), AllocError>
    requires { length marks.old.items ≤ n }
    ensures len { length marks.new.items ≤ n }
    ensures full { OnOk result (length marks.new.items ≡ n) }
    ensures same { (cs : List (List Lit)) → length cs ≡ n → SameMarks marks.old.items marks.new.items cs }
{
    for _k in marks.len()..n {
        marks.push(false)?;
    }
    Ok(())
}

// Adds a clause, and the mark that it was given; `given` counts those that were.
pub fn add_on<P: Propagator>(
    inner: &mut P,
    marks: &mut Vec<bool>,
    given: &mut usize,
    positives: &mut [bool],
    order: &mut Order,
    c: &[Lit],
) -> Result<(), AllocError>
    requires positives { KnowsPositives (length (P.trail inner.old).values.items) positives.old (P.clauses inner.old) }
    requires within { Within (length (P.trail inner.old).values.items) c.now }
    requires keeps { Keeps (length (P.trail inner.old).values.items) marks.old.items (P.clauses inner.old) }
    requires count { given.old ≡ length (given_of marks.old.items (P.clauses inner.old)) }
    ensures positives { KnowsPositives (length (P.trail inner.new).values.items) positives.new (P.clauses inner.new) }
    ensures keeps { Keeps (length (P.trail inner.new).values.items) marks.new.items (P.clauses inner.new) }
    ensures count { given.new ≡ length (given_of marks.new.items (P.clauses inner.new)) }
    ensures done { OnOk result (state_of (length (P.trail inner.new).values.items) marks.new.items (P.clauses inner.new) ≡ record (state_of (length (P.trail inner.old).values.items) marks.old.items (P.clauses inner.old)) { given = (state_of (length (P.trail inner.old).values.items) marks.old.items (P.clauses inner.old)).given ++ c.now ∷ [] }) }
    ensures failed { OnErr result (state_of (length (P.trail inner.new).values.items) marks.new.items (P.clauses inner.new) ≡ state_of (length (P.trail inner.old).values.items) marks.old.items (P.clauses inner.old)) }
{
    if *given == usize::MAX {
        return Err(AllocError);
    }
    mark_positives(c, positives, order)?;
    restart(inner, positives, order)?;
    let n = inner.clause_count();
    mark_learned(marks, n)?;
    marks.push(true)?;
    if let Err(e) = inner.add(c) {
        marks.truncate(n);
        return Err(e);
    }
    *given += 1;
    Ok(())
}

// The values of the variables.
fn model_of(alloc: Global, trail: &Trail) -> Result<Vec<bool>, AllocError>
    ensures { IfOk result (λ m. m.items ≡ map (λ x. eqb x 1) trail.now.values.items) }
{
    let mut model = Vec::new(alloc);
    for x in &trail.values {
        model.push(*x == 1)?;
    }
    Ok(model)
}

// Whether clause number k is marked as given.
pub fn is_given(marks: &[bool], k: usize) -> bool
    ensures { result ≡ slice_index_or marks.now k false }
{
    if k < marks.len() { marks[k] } else { false }
}

// How many clauses are not marked as given.
pub fn learned_count<P: Propagator>(inner: &P, given: usize, marks: &[bool]) -> usize
    requires { given ≡ length (given_of marks.now (P.clauses inner.now)) }
    ensures { result ≡ length (learned_of marks.now (P.clauses inner.now)) }
{
    inner.clause_count() - given
}

// The learned clauses, and the empty one.
pub fn log_of<P: Propagator>(alloc: Global, inner: &P, marks: &[bool]) -> Result<Log, AllocError>
    ensures { IfOk result (λ log. log ≡ learned_of marks.now (P.clauses inner.now) ++ [] ∷ []) }
{
    let mut log = Clauses::new(alloc);
    for k in 0..inner.clause_count() {
        if !is_given(marks, k) {
            log.push(inner.clause(k))?;
        }
    }
    log.push(&[])?;
    Ok(log)
}

// Runs the search; its contract tells given clauses from learned ones.
fn run<P: Propagator, Q: Purse>(
    alloc: Global,
    inner: &mut P,
    marks: &[bool],
    positives: &mut [bool],
    order: &mut Order,
    assumptions: &[Lit],
    purse: &mut Q,
) -> Result<SearchOutcome, AllocError>
    requires within { Within (length (P.trail inner.old).values.items) assumptions.now }
    requires ready { Q.ready purse.old }
    requires keeps { Keeps (length (P.trail inner.old).values.items) marks.now (P.clauses inner.old) }
    requires positives { KnowsPositives (length (P.trail inner.old).values.items) positives.old (P.clauses inner.old) }
    ensures positives { KnowsPositives (length (P.trail inner.new).values.items) positives.new (P.clauses inner.new) }
    ensures keeps { Keeps (length (P.trail inner.new).values.items) marks.now (P.clauses inner.new) }
    ensures learns { Learns assumptions.now (state_of (length (P.trail inner.old).values.items) marks.now (P.clauses inner.old)) (state_of (length (P.trail inner.new).values.items) marks.now (P.clauses inner.new)) }
    ensures kept { Q.kept purse.old purse.new }
    ensures ready { Q.ready purse.new }
    ensures budget { Q.budget purse.new ≡ Q.budget purse.old }
    ensures paid { IfOk result (λ _. Draws (Q.tickets purse.old) (Q.tickets purse.new) (length (learned_of marks.now (P.clauses inner.new)) - length (learned_of marks.now (P.clauses inner.old)))) }
    ensures log { PaysForLearned (state_of (length (P.trail inner.old).values.items) marks.now (P.clauses inner.old)) assumptions.now (state_of (length (P.trail inner.new).values.items) marks.now (P.clauses inner.new)) (Q.tickets purse.old) (Q.tickets purse.new) }
    ensures says { IfOk result (OutcomeSays assumptions.now (Q.budget purse.old) (Q.spent purse.new) (P.clauses inner.new) (P.trail inner.new).literals.items) }
    ensures at_once { IsRefutedAtOnce (P.clauses inner.old) assumptions.now → (P.clauses inner.new ≡ P.clauses inner.old) × (Q.tickets purse.new ≡ Q.tickets purse.old) × IfOk result HasCore }
{
    search(alloc, inner, positives, assumptions, purse, order)
}

// The search's answer, with its model or its core and log.
fn answer<P: Propagator, Q: Purse>(
    alloc: Global,
    inner: &mut P,
    marks: &[bool],
    positives: &mut [bool],
    order: &mut Order,
    assumptions: &[Lit],
    purse: &mut Q,
) -> Result<Answer, AllocError>
    requires within { Within (length (P.trail inner.old).values.items) assumptions.now }
    requires ready { Q.ready purse.old }
    requires keeps { Keeps (length (P.trail inner.old).values.items) marks.now (P.clauses inner.old) }
    requires positives { KnowsPositives (length (P.trail inner.old).values.items) positives.old (P.clauses inner.old) }
    ensures positives { KnowsPositives (length (P.trail inner.new).values.items) positives.new (P.clauses inner.new) }
    ensures keeps { Keeps (length (P.trail inner.new).values.items) marks.now (P.clauses inner.new) }
    ensures learns { Learns assumptions.now (state_of (length (P.trail inner.old).values.items) marks.now (P.clauses inner.old)) (state_of (length (P.trail inner.new).values.items) marks.now (P.clauses inner.new)) }
    ensures kept { Q.kept purse.old purse.new }
    ensures ready { Q.ready purse.new }
    ensures budget { Q.budget purse.new ≡ Q.budget purse.old }
    ensures paid { IfOk result (λ _. Draws (Q.tickets purse.old) (Q.tickets purse.new) (length (learned_of marks.now (P.clauses inner.new)) - length (learned_of marks.now (P.clauses inner.old)))) }
    ensures log { PaysForLearned (state_of (length (P.trail inner.old).values.items) marks.now (P.clauses inner.old)) assumptions.now (state_of (length (P.trail inner.new).values.items) marks.now (P.clauses inner.new)) (Q.tickets purse.old) (Q.tickets purse.new) }
    ensures says { IfOk result (AnswerSays (state_of (length (P.trail inner.new).values.items) marks.now (P.clauses inner.new)).vars (state_of (length (P.trail inner.new).values.items) marks.now (P.clauses inner.new)).given (learned_of marks.now (P.clauses inner.new)) assumptions.now (Q.budget purse.old) (Q.spent purse.new)) }
    ensures at_once { IsRefutedAtOnce (P.clauses inner.old) assumptions.now → (P.clauses inner.new ≡ P.clauses inner.old) × (Q.tickets purse.new ≡ Q.tickets purse.old) × IfOk result IsUnsat }
{
    match run(alloc, inner, marks, positives, order, assumptions, purse)? {
        SearchOutcome::Sat => {
            let model = model_of(alloc, inner.assignment())?;
            Ok(Answer::Sat(Bits::from_vec(model)))
        }
        SearchOutcome::Unsat(core) => Ok(Answer::Unsat { core }),
        SearchOutcome::Spent { drawn, budget } => Ok(Answer::Spent { drawn, budget }),
    }
}

// Draws the query's ticket, and answers it.
pub fn ask<P: Propagator, Q: Purse>(
    alloc: Global,
    inner: &mut P,
    marks: &[bool],
    positives: &mut [bool],
    order: &mut Order,
    assumptions: &[Lit],
    purse: &mut Q,
) -> Result<Answer, AllocError>
    requires within { Within (length (P.trail inner.old).values.items) assumptions.now }
    requires ready { Q.ready purse.old }
    requires keeps { Keeps (length (P.trail inner.old).values.items) marks.now (P.clauses inner.old) }
    requires positives { KnowsPositives (length (P.trail inner.old).values.items) positives.old (P.clauses inner.old) }
    ensures positives { KnowsPositives (length (P.trail inner.new).values.items) positives.new (P.clauses inner.new) }
    ensures keeps { Keeps (length (P.trail inner.new).values.items) marks.now (P.clauses inner.new) }
    ensures learns { Learns assumptions.now (state_of (length (P.trail inner.old).values.items) marks.now (P.clauses inner.old)) (state_of (length (P.trail inner.new).values.items) marks.now (P.clauses inner.new)) }
    ensures kept { Q.kept purse.old purse.new }
    ensures ready { Q.ready purse.new }
    ensures budget { Q.budget purse.new ≡ Q.budget purse.old }
    ensures paid { IfOk result (IsPaid (Q.tickets purse.old) (Q.tickets purse.new) (length (learned_of marks.now (P.clauses inner.new)) - length (learned_of marks.now (P.clauses inner.old)))) }
    ensures log { PaysForOne (state_of (length (P.trail inner.old).values.items) marks.now (P.clauses inner.old)) assumptions.now (state_of (length (P.trail inner.new).values.items) marks.now (P.clauses inner.new)) (Q.tickets purse.old) (Q.tickets purse.new) }
    ensures says { IfOk result (AnswerSays (state_of (length (P.trail inner.old).values.items) marks.now (P.clauses inner.old)).vars (state_of (length (P.trail inner.old).values.items) marks.now (P.clauses inner.old)).given (learned_of marks.now (P.clauses inner.new)) assumptions.now (Q.budget purse.old) (Q.spent purse.new)) }
    ensures at_once { IsRefutedAtOnce ((state_of (length (P.trail inner.old).values.items) marks.now (P.clauses inner.old)).given ++ (state_of (length (P.trail inner.old).values.items) marks.now (P.clauses inner.old)).learned) assumptions.now → CostsOneTicket (state_of (length (P.trail inner.old).values.items) marks.now (P.clauses inner.old)) (state_of (length (P.trail inner.new).values.items) marks.now (P.clauses inner.new)) (Q.tickets purse.old) (Q.tickets purse.new) × IfOk result (IsRefutedForOne (Q.tickets purse.old) (Q.tickets purse.new)) }
{
    if let Draw::Spent { drawn, budget } = purse.draw() {
        return Ok(Answer::Spent { drawn, budget });
    }
    answer(alloc, inner, marks, positives, order, assumptions, purse)
}
