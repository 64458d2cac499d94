//! Tests of the search for fair lassos of small systems, length by length, and of the book of what
//! was found.

ghost use Rattle.std.specs.Prelude.{◌≡◌, ◌+◌, ◌<◌, [], IfOk, OnOk, length};
ghost use Rattle.lasso_search.specs.Books.{IsLength};

use crate::monitors::{fair_system, watched};
use clause_core::{Clauses, Lit, System};
use effort_purse::PlainPurse;
use lasso_search::{LassoBook, LassoSolver, Searched};
use ltl_monitor::Monitored;
use std::alloc::{AllocError, Global};
use std::test::Fail;

// Adds that two variables have the same value.
fn push_same(clauses: &mut Clauses, one: usize, other: usize) -> Result<(), AllocError> {
    clauses.push(&[Lit::new(one, false), Lit::new(other, true)])?;
    clauses.push(&[Lit::new(one, true), Lit::new(other, false)])
}

// One bit with no rules.
fn free(alloc: Global, fair: &[Lit]) -> Result<System, AllocError>
    ensures { IfOk result (λ s. (s.state_bits ≡ 1) × (s.all_bits ≡ 1 + 1) × (s.defs ≡ [])) }
{
    fair_system(alloc, 1, Clauses::new(alloc), Clauses::new(alloc), fair)
}

// One bit that is true at first and stays as it is.
fn staying(alloc: Global) -> Result<System, AllocError>
    ensures { IfOk result (λ s. (s.state_bits ≡ 1) × (s.all_bits ≡ 1 + 1) × (s.defs ≡ [])) }
{
    let mut init = Clauses::new(alloc);
    init.push(&[Lit::new(0, true)])?;
    let mut step = Clauses::new(alloc);
    push_same(&mut step, 0, 1)?;
    fair_system(alloc, 1, init, step, &[])
}

fn first_alone(alloc: Global) -> Result<Clauses, AllocError> {
    let mut init = Clauses::new(alloc);
    init.push(&[Lit::new(0, true)])?;
    init.push(&[Lit::new(1, false)])?;
    init.push(&[Lit::new(2, false)])?;
    Ok(init)
}

fn passed_on(alloc: Global) -> Result<Clauses, AllocError> {
    let mut step = Clauses::new(alloc);
    push_same(&mut step, 0, 4)?;
    push_same(&mut step, 1, 5)?;
    push_same(&mut step, 2, 3)?;
    Ok(step)
}

// A ring of three bits, one of them true, and each of them to be false again and again.
fn ring(alloc: Global) -> Result<System, AllocError>
    ensures { IfOk result (λ s. (s.state_bits ≡ 3) × (s.all_bits ≡ 3 + 3) × (s.defs ≡ [])) }
{
    let init = first_alone(alloc)?;
    let step = passed_on(alloc)?;
    let fair = [Lit::new(0, false), Lit::new(1, false), Lit::new(2, false)];
    fair_system(alloc, 3, init, step, &fair)
}

#[derive(Clone, Copy)]
enum Case {
    // One bit with no rules.
    Free,
    // The same, which JUSTICE makes true.
    Fair,
    Staying,
    Ring,
}

fn system(alloc: Global, case: Case) -> Result<System, AllocError>
    ensures { IfOk result (λ s. (s.all_bits ≡ s.state_bits + s.state_bits) × (s.defs ≡ [])) }
{
    match case {
        Case::Free => free(alloc, &[]),
        Case::Fair => free(alloc, &[Lit::new(0, true)]),
        Case::Staying => staying(alloc),
        Case::Ring => ring(alloc),
    }
}

fn beside(alloc: Global, case: Case, text: &[u8]) -> Result<Monitored, AllocError> {
    let system = system(alloc, case)?;
    let monitored = watched(alloc, &system, text);
    drop(system);
    monitored
}

#[derive(Clone, Copy, PartialEq, Eq)]
enum Told {
    // So many states, the last followed by this one.
    Found(usize, usize),
    None,
    // All tickets of a budget.
    Spent(u64),
}

fn told_of(answer: &Searched) -> Told {
    match answer {
        Searched::Found(lasso) => Told::Found(lasso.len(), lasso.start()),
        Searched::None => Told::None,
        Searched::Spent { budget, .. } => Told::Spent(*budget),
    }
}

// Searches for so many states, with so many tickets.
fn look(
    alloc: Global,
    monitored: &Monitored,
    n: usize,
    budget: u64,
) -> Result<Searched, AllocError> {
    let mut purse = PlainPurse::new(budget);
    let mut solver = LassoSolver::new(&monitored.system);
    let answer = solver.search(alloc, n, &mut purse);
    drop(solver);
    answer
}

fn outcome(
    alloc: Global,
    monitored: &Monitored,
    n: usize,
    budget: u64,
) -> Result<Told, AllocError> {
    let answer = look(alloc, monitored, n, budget)?;
    let told = told_of(&answer);
    drop(answer);
    Ok(told)
}

// What a search for so many states tells. `G Z FALSE` is true of the first time alone, so it takes a lasso of two
// states to make it false of a bit that stays as it is.
struct Search {
    case: Case,
    formula: &'static [u8],
    states: usize,
    budget: u64,
    told: Told,
}

const SEARCHES: [Search; 12] = [
    Search {
        case: Case::Free,
        formula: b"aF",
        states: 1,
        budget: 100,
        told: Told::Found(1, 0),
    },
    Search {
        case: Case::Free,
        formula: b"aF",
        states: 0,
        budget: 100,
        told: Told::None,
    },
    Search {
        case: Case::Free,
        formula: b"aF",
        states: 1,
        budget: 0,
        told: Told::Spent(0),
    },
    Search {
        case: Case::Fair,
        formula: b"aF",
        states: 1,
        budget: 1000,
        told: Told::None,
    },
    Search {
        case: Case::Fair,
        formula: b"aF",
        states: 2,
        budget: 1000,
        told: Told::None,
    },
    Search {
        case: Case::Fair,
        formula: b"aF",
        states: 3,
        budget: 1000,
        told: Told::None,
    },
    Search {
        case: Case::Staying,
        formula: b"0ZG",
        states: 1,
        budget: 100,
        told: Told::None,
    },
    Search {
        case: Case::Staying,
        formula: b"0ZG",
        states: 2,
        budget: 100,
        told: Told::Found(2, 1),
    },
    Search {
        case: Case::Ring,
        formula: b"0",
        states: 1,
        budget: 1000,
        told: Told::None,
    },
    Search {
        case: Case::Ring,
        formula: b"0",
        states: 2,
        budget: 1000,
        told: Told::None,
    },
    Search {
        case: Case::Ring,
        formula: b"0",
        states: 3,
        budget: 1000,
        told: Told::Found(3, 0),
    },
    Search {
        case: Case::Ring,
        formula: b"0",
        states: 4,
        budget: 1000,
        told: Told::Found(4, 1),
    },
];

fn is_told(alloc: Global, row: &Search) -> Result<bool, AllocError> {
    let monitored = beside(alloc, row.case, row.formula)?;
    let told = outcome(alloc, &monitored, row.states, row.budget);
    drop(monitored);
    Ok(told? == row.told)
}

fn wrong_search(alloc: Global) -> Result<Option<usize>, AllocError> {
    for (k, row) in SEARCHES.iter().enumerate() {
        if !is_told(alloc, row)? {
            return Ok(Some(k));
        }
    }
    Ok(None)
}

#[test]
fn searches(rt: HostRuntime) -> Result<(), Fail> {
    assert_eq!(rt; wrong_search(rt.alloc())?, None);
    Ok(())
}

// Records what was found for a length, if it is known.
fn record(book: &mut LassoBook, n: usize, answer: Searched)
    requires { IsLength book.old n }
    ensures { length book.new ≡ length book.old }
{
    match answer {
        Searched::Found(lasso) => book.record(n, Some(lasso)),
        Searched::None => book.record(n, None),
        Searched::Spent { .. } => {}
    }
}

// Searches for one length and records what comes, if it does.
fn note(
    alloc: Global,
    monitored: &Monitored,
    n: usize,
    book: &mut LassoBook,
) -> Result<(), AllocError>
    requires { IsLength book.old n }
    ensures { OnOk result (length book.new ≡ length book.old) }
{
    let answer = look(alloc, monitored, n, 1000)?;
    record(book, n, answer);
    Ok(())
}

fn note_both(
    alloc: Global,
    monitored: &Monitored,
    one: usize,
    other: usize,
    book: &mut LassoBook,
) -> Result<(), AllocError>
    requires one { IsLength book.old one }
    requires other { IsLength book.old other }
    ensures { OnOk result (length book.new ≡ length book.old) }
{
    note(alloc, monitored, one, book)?;
    note(alloc, monitored, other, book)
}

// A book of the ring for lengths up to 3, with what was found of two of them.
fn book(
    alloc: Global,
    monitored: &Monitored,
    one: usize,
    other: usize,
) -> Result<LassoBook, AllocError>
    requires one { (0 < one) × (one < 4) }
    requires other { (0 < other) × (other < 4) }
    ensures { IfOk result (λ b. length b ≡ 3) }
{
    let mut book = LassoBook::new(alloc, 3)?;
    match note_both(alloc, monitored, one, other, &mut book) {
        Ok(()) => Ok(book),
        Err(error) => {
            drop(book);
            Err(error)
        }
    }
}

// The lasso that is found: how many states it has, and which of them goes on behind the last.
fn found(book: &LassoBook) -> Option<(usize, usize)> {
    match book.found() {
        Some(lasso) => Some((lasso.len(), lasso.start())),
        None => None,
    }
}

// Whether the book has three lengths, and this one is missing, and this lasso is found.
fn has(book: &LassoBook, missing: Option<usize>, lasso: Option<(usize, usize)>) -> bool {
    book.len() == 3 && book.missing() == missing && found(book) == lasso
}

fn has_the_first_two(alloc: Global, ring: &Monitored) -> Result<bool, AllocError> {
    let book = book(alloc, ring, 1, 2)?;
    let answer = has(&book, Some(3), None);
    drop(book);
    Ok(answer)
}

fn has_the_last_two(alloc: Global, ring: &Monitored) -> Result<bool, AllocError> {
    let book = book(alloc, ring, 2, 3)?;
    let answer = has(&book, Some(1), Some((3, 0)));
    drop(book);
    Ok(answer)
}

fn both(alloc: Global, ring: &Monitored) -> Result<LassoBook, AllocError> {
    let mut one = book(alloc, ring, 1, 2)?;
    match book(alloc, ring, 2, 3) {
        Ok(other) => {
            one.absorb(other);
            Ok(one)
        }
        Err(error) => {
            drop(one);
            Err(error)
        }
    }
}

fn has_all_three(alloc: Global, ring: &Monitored) -> Result<bool, AllocError> {
    let book = both(alloc, ring)?;
    let answer = has(&book, None, Some((3, 0)));
    drop(book);
    Ok(answer)
}

fn are_kept(alloc: Global, ring: &Monitored) -> Result<bool, AllocError> {
    let first = has_the_first_two(alloc, ring)?;
    let last = has_the_last_two(alloc, ring)?;
    let all = has_all_three(alloc, ring)?;
    Ok(first && last && all)
}

fn are_recorded(alloc: Global) -> Result<bool, AllocError> {
    let ring = beside(alloc, Case::Ring, b"0")?;
    let answer = are_kept(alloc, &ring);
    drop(ring);
    answer
}

#[test]
fn books_of_the_ring(rt: HostRuntime) -> Result<(), Fail> {
    assert!(rt; are_recorded(rt.alloc())?);
    Ok(())
}
