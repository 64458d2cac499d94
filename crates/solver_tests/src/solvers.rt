//! Tests of the solver on formulas with known answers. Models, cores and logs are each checked by
//! other means.

use crate::letters::{clauses_of, literals};
use clause_core::{Bits, Clause, Clauses, Lit, is_within, met};
use effort_purse::PlainPurse;
use rup_check::{Checker, LogVerdict};
use sat_core::{Answer, Solver};
use sat_prop::{Propagator, Scan, Watched};
use std::alloc::{AllocError, Global};
use std::test::Fail;

// Clauses, assumptions, a budget; what is answered: `s` for a model, `u` for a core, `x` for a spent purse; and the
// size of the core. A small letter is a variable, a capital one its negation, and a dot ends a clause.
struct Row(&'static str, &'static str, u64, char, usize);

const SMALL: [Row; 15] = [
    Row("", "", 1, 's', 0),
    Row("", "aC", 1, 's', 0),
    Row("", "aA", 1, 'u', 2),
    Row(".", "", 1, 'u', 0),
    Row("a.Ab.Bc.", "", 1, 's', 0),
    Row("a.Ab.Bc.", "C", 1, 'u', 1),
    Row("aa.AA.", "", 1, 'u', 0),
    Row("aA.", "A", 1, 's', 0),
    Row("Ab.Bc.", "ca", 1, 's', 0),
    Row("Ab.Bc.", "BaC", 1, 'u', 2),
    Row("Ab.Bc.", "ccccA", 1, 's', 0),
    Row("ab.aB.Ab.AB.", "", 0, 'x', 0),
    Row("ab.aB.Ab.AB.", "", 1, 'x', 0),
    Row("ab.aB.Ab.AB.", "", 2, 'u', 0),
    Row("ab.aB.Ab.AB.", "c", 2, 'u', 0),
];

// Whether the model makes the clause true.
fn is_met(alloc: Global, lits: &[Lit], model: &Bits) -> Result<bool, AllocError> {
    if !is_within(lits, model.len()) {
        return Ok(false);
    }
    let clause = Clause::from_slice(alloc, lits)?;
    let answer = met(&clause, model);
    drop(clause);
    Ok(answer)
}

fn meets_clauses(alloc: Global, clauses: &Clauses, model: &Bits) -> Result<bool, AllocError> {
    for k in 0..clauses.len() {
        if !is_met(alloc, clauses.get(k), model)? {
            return Ok(false);
        }
    }
    Ok(true)
}

fn meets_each(alloc: Global, assumptions: &[Lit], model: &Bits) -> Result<bool, AllocError> {
    for a in assumptions {
        if !is_met(alloc, &[*a], model)? {
            return Ok(false);
        }
    }
    Ok(true)
}

fn add_list(all: &mut Clauses, clauses: &Clauses) -> Result<(), AllocError> {
    for k in 0..clauses.len() {
        all.push(clauses.get(k))?;
    }
    Ok(())
}

fn add_units(all: &mut Clauses, lits: &[Lit]) -> Result<(), AllocError> {
    for l in lits {
        all.push(&[*l])?;
    }
    Ok(())
}

// Adds the clauses, and each literal of the core as a clause.
fn add_both(all: &mut Clauses, clauses: &Clauses, core: &[Lit]) -> Result<(), AllocError> {
    add_list(all, clauses)?;
    add_units(all, core)
}

// Whether the log derives the empty clause from the clauses.
fn is_derived(
    alloc: Global,
    vars: usize,
    clauses: &Clauses,
    log: &Clauses,
) -> Result<bool, AllocError> {
    if !clauses.is_within(vars) {
        return Ok(false);
    }
    let mut checker = Checker::new(alloc, vars)?;
    let verdict = checker.check(clauses, log);
    drop(checker);
    Ok(verdict == LogVerdict::Yes)
}

// Whether the solver's log derives the empty clause from these clauses.
fn is_refuted<P: Propagator + Drop>(
    alloc: Global,
    solver: &Solver<P>,
    clauses: &Clauses,
) -> Result<bool, AllocError> {
    let log = solver.log(alloc)?;
    let derived = is_derived(alloc, solver.vars(), clauses, &log);
    let steps = log.len();
    drop(log);
    Ok(derived? && steps == solver.learned() + 1)
}

// Whether the core is a part of the assumptions.
fn is_part(core: &[Lit], assumptions: &[Lit]) -> bool {
    for l in core {
        if !assumptions.contains(l) {
            return false;
        }
    }
    true
}

fn is_refuted_by<P: Propagator + Drop>(
    alloc: Global,
    solver: &Solver<P>,
    all: &mut Clauses,
    clauses: &Clauses,
    core: &[Lit],
) -> Result<bool, AllocError> {
    add_both(all, clauses, core)?;
    is_refuted(alloc, solver, all)
}

// Whether the core is a part of the assumptions, and the solver's log derives the empty clause from the clauses and the
// core.
fn refutes<P: Propagator + Drop>(
    alloc: Global,
    solver: &Solver<P>,
    clauses: &Clauses,
    assumptions: &[Lit],
    core: &[Lit],
) -> Result<bool, AllocError> {
    if !is_part(core, assumptions) {
        return Ok(false);
    }
    let mut all = Clauses::new(alloc);
    let refuted = is_refuted_by(alloc, solver, &mut all, clauses, core);
    drop(all);
    refuted
}

// Whether the answer is of this letter, and its core of this size, as other means say too.
fn is_answer<P: Propagator + Drop>(
    alloc: Global,
    solver: &Solver<P>,
    clauses: &Clauses,
    assumptions: &[Lit],
    answer: &Answer,
    want: char,
    size: usize,
) -> Result<bool, AllocError> {
    match answer {
        Answer::Sat(model) => {
            Ok(
                want == 's'
                    && meets_clauses(alloc, clauses, model)?
                    && meets_each(alloc, assumptions, model)?,
            )
        }
        Answer::Unsat { core } => {
            Ok(
                want == 'u'
                    && core.len() == size
                    && refutes(alloc, solver, clauses, assumptions, core)?,
            )
        }
        Answer::Spent { .. } => Ok(want == 'x'),
    }
}

// Whether a spent purse is told of, with its whole budget.
fn is_paid(answer: &Answer, purse: &PlainPurse, budget: u64) -> bool {
    match answer {
        Answer::Spent { drawn, .. } => *drawn == budget && purse.seen_spent(),
        _ => true,
    }
}

// Whether the solver answers so, tested by other means: its answer's letter and the size of its core.
fn answers<P: Propagator + Drop>(
    alloc: Global,
    solver: &mut Solver<P>,
    clauses: &Clauses,
    assumptions: &[Lit],
    budget: u64,
    want: char,
    size: usize,
) -> Result<bool, AllocError> {
    if !is_within(assumptions, solver.vars()) {
        return Ok(false);
    }
    let mut purse = PlainPurse::new(budget);
    let answer = solver.solve(alloc, assumptions, &mut purse)?;
    let is_right = is_answer(alloc, solver, clauses, assumptions, &answer, want, size);
    let is_paid = is_paid(&answer, &purse, budget);
    drop(answer);
    Ok(is_paid && is_right?)
}

// As `answers`, of a new solver with these clauses.
fn is_answered<P: Propagator + Drop>(
    alloc: Global,
    vars: usize,
    clauses: &Clauses,
    assumptions: &[Lit],
    budget: u64,
    want: char,
    size: usize,
) -> Result<bool, AllocError> {
    if !clauses.is_within(vars) {
        return Ok(false);
    }
    let mut solver: Solver<P> = Solver::with_clauses(alloc, vars, clauses)?;
    let answered = answers(alloc, &mut solver, clauses, assumptions, budget, want, size);
    drop(solver);
    answered
}

// Whether both kinds of solver answer so.
fn both_answer(
    alloc: Global,
    vars: usize,
    clauses: &Clauses,
    assumptions: &[Lit],
    budget: u64,
    want: char,
    size: usize,
) -> Result<bool, AllocError> {
    let scanned = is_answered::<Scan>(alloc, vars, clauses, assumptions, budget, want, size)?;
    let watched = is_answered::<Watched>(alloc, vars, clauses, assumptions, budget, want, size)?;
    Ok(scanned && watched)
}

fn is_row_of(alloc: Global, clauses: &Clauses, row: &Row) -> Result<bool, AllocError> {
    let assumed = literals(alloc, row.1.as_bytes(), 1)?;
    let answer = both_answer(alloc, 4, clauses, &assumed, row.2, row.3, row.4);
    drop(assumed);
    answer
}

// Whether both kinds of solver answer the row as it says.
fn is_row(alloc: Global, row: &Row) -> Result<bool, AllocError> {
    let list = clauses_of(alloc, row.0.as_bytes(), 1)?;
    let answer = is_row_of(alloc, &list, row);
    drop(list);
    answer
}

fn wrong_row(alloc: Global) -> Result<Option<usize>, AllocError> {
    for (k, row) in SMALL.iter().enumerate() {
        if !is_row(alloc, row)? {
            return Ok(Some(k));
        }
    }
    Ok(None)
}

#[test]
fn small_lists_have_the_known_answers(rt: HostRuntime) -> Result<(), Fail> {
    assert_eq!(rt; wrong_row(rt.alloc())?, None);
    Ok(())
}

// Adds the literal of a number, or the clause that a zero ends.
fn add_number(list: &mut Clauses, clause: &mut Vec<Lit>, number: i32) -> Result<(), AllocError> {
    match number.unsigned_abs().checked_sub(1) {
        Some(var) => {
            clause.push(Lit::new(var as usize, number > 0))?;
        }
        None => {
            list.push(clause)?;
            clause.clear();
        }
    }
    Ok(())
}

fn add_numbers(list: &mut Clauses, clause: &mut Vec<Lit>, text: &str) -> Result<(), AllocError> {
    for word in text.split_whitespace() {
        if let Ok(number) = word.parse::<i32>() {
            add_number(list, clause, number)?;
        }
    }
    Ok(())
}

fn add_formula(alloc: Global, list: &mut Clauses, text: &str) -> Result<(), AllocError> {
    let mut clause = Vec::new(alloc);
    let added = add_numbers(list, &mut clause, text);
    drop(clause);
    added
}

// The clauses of a formula in the DIMACS format, without its header; a word that is no number is left out.
fn formula(alloc: Global, text: &str) -> Result<Clauses, AllocError> {
    let mut list = Clauses::new(alloc);
    match add_formula(alloc, &mut list, text) {
        Ok(()) => Ok(list),
        Err(error) => {
            drop(list);
            Err(error)
        }
    }
}

// The six variables are the edges of a complete graph of four nodes. Each node has an odd number of true edges; or
// all but one have, which can't be, as each edge is counted twice (Tseitin 1968). The last are three pigeons in two
// holes.
const ODD: &str = "1 2 3 0 1 -2 -3 0 -1 2 -3 0 -1 -2 3 0 3 4 5 0 3 -4 -5 0 -3 4 -5 0 -3 -4 5 0 \
    5 6 1 0 5 -6 -1 0 -5 6 -1 0 -5 -6 1 0 2 4 6 0 2 -4 -6 0 -2 4 -6 0 -2 -4 6 0";

const ONE_EVEN: &str =
    "1 2 3 0 1 -2 -3 0 -1 2 -3 0 -1 -2 3 0 3 4 5 0 3 -4 -5 0 -3 4 -5 0 -3 -4 5 0 \
    5 6 1 0 5 -6 -1 0 -5 6 -1 0 -5 -6 1 0 2 4 -6 0 2 -4 6 0 -2 4 6 0 -2 -4 -6 0";

const PIGEONS: &str = "1 2 0 3 4 0 5 6 0 -1 -3 0 -1 -5 0 -3 -5 0 -2 -4 0 -2 -6 0 -4 -6 0";

// A formula, a budget, and what is answered.
struct Known(&'static str, u64, char);

const KNOWN: [Known; 8] = [
    Known(ODD, 0, 'x'),
    Known(ODD, 1000, 's'),
    Known(ONE_EVEN, 0, 'x'),
    Known(ONE_EVEN, 1, 'x'),
    Known(ONE_EVEN, 4, 'x'),
    Known(ONE_EVEN, 1000, 'u'),
    Known(PIGEONS, 1, 'x'),
    Known(PIGEONS, 1000, 'u'),
];

fn is_known(alloc: Global, row: &Known) -> Result<bool, AllocError> {
    let list = formula(alloc, row.0)?;
    let answer = both_answer(alloc, 6, &list, &[], row.1, row.2, 0);
    drop(list);
    answer
}

fn wrong_known(alloc: Global) -> Result<Option<usize>, AllocError> {
    for (k, row) in KNOWN.iter().enumerate() {
        if !is_known(alloc, row)? {
            return Ok(Some(k));
        }
    }
    Ok(None)
}

#[test]
fn known_formulas_at_each_budget(rt: HostRuntime) -> Result<(), Fail> {
    assert_eq!(rt; wrong_known(rt.alloc())?, None);
    Ok(())
}

// One solver all the way: a clause that is added, an assumption, and what is answered then.
struct Again(&'static str, &'static str, char, usize);

const AGAIN: [Again; 5] = [
    Again("ab", "C", 's', 0),
    Again("aB", "A", 'u', 1),
    Again("Ac", "c", 's', 0),
    Again("C", "a", 'u', 0),
    Again("Bd", "", 'u', 0),
];

// Adds the clause to the solver and to the list, if it is within the solver's variables.
fn add_to(
    solver: &mut Solver<Watched>,
    clauses: &mut Clauses,
    clause: &Clause,
) -> Result<bool, AllocError> {
    if !is_within(clause.as_slice(), solver.vars()) {
        return Ok(false);
    }
    solver.add(clause)?;
    clauses.push(clause.as_slice())?;
    Ok(true)
}

fn add_letters(
    alloc: Global,
    solver: &mut Solver<Watched>,
    clauses: &mut Clauses,
    text: &str,
) -> Result<bool, AllocError> {
    let clause = Clause::from_vec(literals(alloc, text.as_bytes(), 1)?);
    let added = add_to(solver, clauses, &clause);
    drop(clause);
    added
}

fn is_again_answered(
    alloc: Global,
    solver: &mut Solver<Watched>,
    clauses: &Clauses,
    row: &Again,
) -> Result<bool, AllocError> {
    let assumed = literals(alloc, row.1.as_bytes(), 1)?;
    let answer = answers(alloc, solver, clauses, &assumed, 20, row.2, row.3);
    drop(assumed);
    answer
}

// Adds the row's clause to the solver and to the list, and asks.
fn is_again(
    alloc: Global,
    solver: &mut Solver<Watched>,
    clauses: &mut Clauses,
    row: &Again,
) -> Result<bool, AllocError> {
    Ok(
        add_letters(alloc, solver, clauses, row.0)?
            && is_again_answered(alloc, solver, clauses, row)?,
    )
}

fn wrong_again_of(
    alloc: Global,
    solver: &mut Solver<Watched>,
    clauses: &mut Clauses,
) -> Result<Option<usize>, AllocError> {
    for (k, row) in AGAIN.iter().enumerate() {
        if !is_again(alloc, solver, clauses, row)? {
            return Ok(Some(k));
        }
    }
    Ok(None)
}

fn wrong_again_by(
    alloc: Global,
    solver: &mut Solver<Watched>,
) -> Result<Option<usize>, AllocError> {
    let mut clauses = Clauses::new(alloc);
    let wrong = wrong_again_of(alloc, solver, &mut clauses);
    drop(clauses);
    wrong
}

fn wrong_again(alloc: Global) -> Result<Option<usize>, AllocError> {
    let mut solver: Solver<Watched> = Solver::new(alloc, 5)?;
    let wrong = wrong_again_by(alloc, &mut solver);
    drop(solver);
    wrong
}

fn is_too_far(alloc: Global) -> bool {
    let far: Result<Solver<Watched>, AllocError> = Solver::new(alloc, usize::MAX);
    let answer = far.is_err();
    drop(far);
    answer
}

#[test]
fn a_solver_is_asked_again(rt: HostRuntime) -> Result<(), Fail> {
    assert_eq!(rt; wrong_again(rt.alloc())?, None);
    assert!(rt; is_too_far(rt.alloc()));
    Ok(())
}
