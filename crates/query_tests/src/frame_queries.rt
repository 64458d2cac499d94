//! Tests of queries about frames, on a latch and a shift register of three bits worked by hand. A row has a lemma that
//! the solver follows, a question, the tickets that there are, and what is answered.

ghost use Rattle.std.specs.Prelude.{◌≡◌, ◌<◌, ◌+◌, ◌^◌, All, IfOk, IfNone, OnOk, length};
ghost use Rattle.clause_core.specs.Literals.{Within};
ghost use Rattle.frame_core.specs.declared.parts.Lemma.{Lemma as ALemma};
ghost use Rattle.frame_core.specs.FrameLaw.{system_at, lemma_at};
ghost use Rattle.frame_solver.specs.Firsts.{AllFirstsMeet};

use clause_core::{Bits, Clause, Clauses, Lit, System, is_within};
use effort_purse::PlainPurse;
use frame_core::{Lemmas, Proved, StateWitness, Step};
use frame_query::{Bads, Firsts, FrameSolver, Generalised, Noted, Relative};
use std::alloc::{AllocError, Global};
use std::slice::from_ref;
use std::test::Fail;

// The system: `l` for the latch, whose bit 0 is false at first and stays so once it is, and whose bad states have
// bits 0 and 1 true; `r` for the register, whose bits 1 and 2 are false at first, in which a step gives bit 1 what
// bit 0 was and bit 2 what bit 1 was, and whose bad states have all bits true. A lemma and its level; no level, no
// lemma.
//
// The question: `b` for bad states of the level's frame; of the clause `f` whether initial states meet it, `r` whether
// it is inductive relative to the frame below the level, `n` the same and whether a step found leads from a first
// state, `d` the same and which literals can be dropped, `o` the same so many times that the solvers are made anew;
// `p` whether the lemma holds one level higher, and `a` the same again; `u` whether the rows of `LATER` are answered.
// Its clause and level, and the tickets.
//
// The answer: `c` for none, `b` for a bad state or one before, `i` if that is an initial one; `m` for a clause that
// initial states meet, `f` for an initial state that does not; `p` for a proof, `s` for a step, `d` for a smaller
// proof, `g` for the one that was given; `x` for a spent purse; `u` for all rows. The clause or the values that it has,
// and how many parents. Clauses and states have a sign for each bit, `-` for any or none.
#[derive(Clone, Copy)]
struct Row(
    char,
    &'static str,
    u32,
    char,
    &'static str,
    u32,
    u64,
    char,
    &'static str,
    usize,
);

// An answer that no row has.
const OTHER: char = '?';

const ROWS: [Row; 48] = [
    // Bad states.
    Row('r', "", 0, 'b', "", 0, 9, 'c', "", 0),
    Row('r', "", 0, 'b', "", 0, 0, 'x', "", 0),
    Row('r', "", 0, 'b', "", 1, 9, 'b', "111", 0),
    Row('r', "", 0, 'b', "", 1, 2, 'b', "111", 0),
    Row('r', "", 0, 'b', "", 1, 1, 'x', "", 0),
    Row('r', "--0", 1, 'b', "", 1, 9, 'c', "", 1),
    Row('r', "--0", 1, 'b', "", 2, 9, 'b', "111", 0),
    Row('r', "--0", 7, 'b', "", 7, 9, 'c', "", 1),
    Row('r', "--0", 1, 'b', "", 0, 9, 'c', "", 0),
    Row('l', "", 0, 'b', "", 0, 9, 'c', "", 0),
    Row('l', "", 0, 'b', "", 1, 9, 'b', "11-", 0),
    Row('l', "0--", 1, 'b', "", 1, 9, 'c', "", 1),
    // Initial states.
    Row('r', "", 0, 'f', "-0-", 0, 9, 'm', "", 0),
    Row('r', "", 0, 'f', "0--", 0, 9, 'f', "100", 0),
    Row('r', "", 0, 'f', "1--", 0, 1, 'f', "000", 0),
    Row('r', "", 0, 'f', "1--", 0, 0, 'x', "", 0),
    Row('r', "--1", 3, 'f', "11-", 0, 9, 'f', "000", 0),
    Row('l', "", 0, 'f', "0-1", 0, 9, 'm', "", 0),
    Row('l', "", 0, 'f', "-11", 0, 9, 'f', "000", 0),
    // Steps.
    Row('r', "", 0, 'r', "000", 1, 9, 'p', "", 0),
    Row('r', "", 0, 'r', "000", 1, 2, 'p', "", 0),
    Row('r', "", 0, 'r', "000", 1, 1, 'x', "", 0),
    Row('r', "", 0, 'r', "000", 1, 0, 'x', "", 0),
    Row('r', "", 0, 'r', "000", 2, 9, 's', "110111", 0),
    Row('r', "", 0, 'r', "-0-", 1, 9, 's', "100-10", 0),
    Row('r', "-0-", 1, 'r', "000", 2, 9, 'p', "", 1),
    Row('r', "-0-", 2, 'r', "000", 2, 9, 'p', "", 1),
    Row('r', "-0-", 2, 'r', "000", 3, 9, 'p', "", 1),
    Row('r', "-0-", 2, 'r', "000", 4, 9, 's', "110111", 0),
    Row('r', "--0", 1, 'r', "000", 2, 9, 's', "110111", 0),
    Row('l', "", 0, 'r', "0--", 9, 9, 'p', "", 0),
    Row('l', "", 0, 'r', "00-", 2, 9, 's', "10-11-", 0),
    // The states that steps lead from.
    Row('r', "", 0, 'n', "000", 2, 9, 'b', "110", 0),
    Row('r', "", 0, 'n', "-0-", 1, 9, 'i', "100", 0),
    Row('r', "", 0, 'n', "-0-", 2, 1, 'x', "", 0),
    Row('l', "", 0, 'n', "00-", 2, 9, 'b', "10-", 0),
    // Literals that can be dropped.
    Row('r', "", 0, 'd', "000", 1, 99, 'd', "--0", 0),
    Row('r', "-0-", 1, 'd', "000", 2, 99, 'd', "--0", 1),
    Row('l', "", 0, 'd', "001", 1, 99, 'd', "0--", 0),
    Row('l', "", 0, 'd', "0--", 7, 99, 'd', "0--", 0),
    // Lemmas one level higher.
    Row('r', "--0", 1, 'p', "", 0, 9, 's', "-10--1", 0),
    Row('r', "--0", 1, 'p', "", 0, 1, 'x', "", 0),
    Row('l', "0--", 1, 'p', "", 0, 2, 'p', "", 0),
    Row('l', "0--", 3, 'a', "", 0, 2, 'p', "", 0),
    Row('r', "--0", 1, 'a', "", 0, 2, 's', "-10--1", 0),
    // Solvers that are made anew.
    Row('l', "", 0, 'o', "0--", 2, 9999, 'p', "", 0),
    Row('r', "-0-", 2, 'o', "000", 3, 9999, 'p', "", 1),
    // Lemmas that come, are raised and retired.
    Row('l', "", 0, 'u', "", 0, 0, 'u', "", 0),
];

// Adds the literals of these signs.
fn push_signs(clause: &mut Vec<Lit>, signs: &[u8]) -> Result<(), AllocError> {
    for var in 0..signs.len() {
        if signs[var] != b'-' {
            clause.push(Lit::new(var, signs[var] == b'1'))?;
        }
    }
    Ok(())
}

// The clause of these signs.
pub(crate) fn clause_of(alloc: Global, signs: &str) -> Result<Vec<Lit>, AllocError> {
    let mut clause = Vec::new(alloc);
    push_signs(&mut clause, signs.as_bytes())?;
    Ok(clause)
}

// Whether the clause has just the literals of these signs.
pub(crate) fn has_signs(clause: &[Lit], signs: &str) -> bool {
    let signs = signs.as_bytes();
    for var in 0..signs.len() {
        let is_false = clause.contains(&Lit::new(var, false));
        let is_true = clause.contains(&Lit::new(var, true));
        if is_false != (signs[var] == b'0') || is_true != (signs[var] == b'1') {
            return false;
        }
    }
    true
}

// Whether the values have these signs.
fn are_signs(values: &[bool], signs: &str) -> bool {
    let signs = signs.as_bytes();
    if values.len() < signs.len() {
        return false;
    }
    for bit in 0..signs.len() {
        let sign = signs[bit];
        if (sign == b'0' && values[bit]) || (sign == b'1' && !values[bit]) {
            return false;
        }
    }
    true
}

// The answer, where the values are those of the row.
fn if_shown(values: &Bits, row: &Row, answer: char) -> char {
    if are_signs(values.as_slice(), row.8) {
        answer
    } else {
        OTHER
    }
}

// The answer, where it has as many parents as the row says.
fn if_counted(parents: usize, row: &Row, answer: char) -> char {
    if parents == row.9 { answer } else { OTHER }
}

fn told_of_found(found: &StateWitness, row: &Row) -> char {
    if found.is_first() {
        if_shown(found.values(), row, 'i')
    } else {
        if_shown(found.values(), row, 'b')
    }
}

fn told_of_bads(bads: &Bads, row: &Row) -> char {
    match bads {
        Bads::Clear(clear) => {
            if clear.level() != row.5 {
                return OTHER;
            }
            if_counted(clear.parents().len(), row, 'c')
        }
        Bads::Found(found) => told_of_found(found, row),
        Bads::Spent {
            drawn: _,
            budget: _,
        } => 'x',
    }
}

fn told_of_firsts(firsts: &Firsts, row: &Row) -> char {
    match firsts {
        Firsts::Meet(_) => 'm',
        Firsts::First(state) => if_shown(state, row, 'f'),
        Firsts::Spent {
            drawn: _,
            budget: _,
        } => 'x',
    }
}

fn told_of_relative(relative: &Relative, row: &Row) -> char {
    match relative {
        Relative::Proved(proved) => if_counted(proved.parents().len(), row, 'p'),
        Relative::Step(step) => if_shown(step.values(), row, 's'),
        Relative::Spent {
            drawn: _,
            budget: _,
        } => 'x',
    }
}

fn told_of_noted(noted: &Noted, row: &Row) -> char {
    match noted {
        Noted::Found(found) => told_of_found(found, row),
        Noted::Spent {
            drawn: _,
            budget: _,
        } => 'x',
    }
}

fn told_of_smaller(proved: &Proved, row: &Row) -> char {
    if !has_signs(proved.clause(), row.8) || proved.level() != row.5 {
        return OTHER;
    }
    if_counted(proved.parents().len(), row, 'd')
}

fn told_of_generalised(generalised: &Generalised, row: &Row) -> char {
    match generalised {
        Generalised::Smaller(proved) => told_of_smaller(proved, row),
        Generalised::Spent {
            given: _,
            drawn: _,
            budget: _,
        } => 'g',
        Generalised::NoMemory { given: _ } => OTHER,
    }
}

fn bad(
    alloc: Global,
    solver: &mut FrameSolver,
    row: &Row,
    purse: &mut PlainPurse,
) -> Result<char, AllocError>
    requires { 0 < length solver.old.systems }
    ensures systems { solver.new.systems ≡ solver.old.systems }
    ensures lemmas { solver.new.lemmas ≡ solver.old.lemmas }
{
    let bads = solver.bad(alloc, 0, row.5, purse)?;
    let answer = told_of_bads(&bads, row);
    drop(bads);
    Ok(answer)
}

fn first(
    alloc: Global,
    solver: &mut FrameSolver,
    clause: &[Lit],
    row: &Row,
    purse: &mut PlainPurse,
) -> Result<char, AllocError>
    requires { Within (system_at solver.old.systems 0).state_bits clause.now }
{
    let firsts = solver.first(alloc, clause, purse)?;
    let answer = told_of_firsts(&firsts, row);
    drop(firsts);
    Ok(answer)
}

// What is answered instead, where it is not known that initial states meet the clause.
fn unmet(
    alloc: Global,
    solver: &mut FrameSolver,
    clause: &[Lit],
    purse: &mut PlainPurse,
) -> Result<Option<char>, AllocError>
    requires { Within (system_at solver.old.systems 0).state_bits clause.now }
    ensures met { IfOk result (λ r. IfNone r (AllFirstsMeet (system_at solver.old.systems 0) clause.now)) }
    ensures systems { solver.new.systems ≡ solver.old.systems }
    ensures lemmas { solver.new.lemmas ≡ solver.old.lemmas }
{
    match solver.first(alloc, clause, purse)? {
        Firsts::Meet(part) => {
            drop(part);
            Ok(None)
        }
        Firsts::First(state) => {
            drop(state);
            Ok(Some(OTHER))
        }
        Firsts::Spent {
            drawn: _,
            budget: _,
        } => Ok(Some('x')),
    }
}

fn relative(
    alloc: Global,
    solver: &mut FrameSolver,
    clause: &[Lit],
    level: u32,
    row: &Row,
    purse: &mut PlainPurse,
) -> Result<char, AllocError>
    requires within { Within (system_at solver.old.systems 0).state_bits clause.now }
    requires level { 0 < level }
    requires first { AllFirstsMeet (system_at solver.old.systems 0) clause.now }
    ensures { solver.new.systems ≡ solver.old.systems }
{
    let relative = solver.relative(alloc, clause, level, purse)?;
    let answer = told_of_relative(&relative, row);
    drop(relative);
    Ok(answer)
}

fn noted<'a>(
    alloc: Global,
    solver: &mut FrameSolver<'a>,
    step: Step<'a>,
    row: &Row,
    purse: &mut PlainPurse,
) -> Result<char, AllocError>
    requires { step.system ≡ system_at solver.old.systems 0 }
{
    let noted = solver.note(alloc, step, purse)?;
    let answer = told_of_noted(&noted, row);
    drop(noted);
    Ok(answer)
}

fn before(
    alloc: Global,
    solver: &mut FrameSolver,
    clause: &[Lit],
    level: u32,
    row: &Row,
    purse: &mut PlainPurse,
) -> Result<char, AllocError>
    requires within { Within (system_at solver.old.systems 0).state_bits clause.now }
    requires level { 0 < level }
    requires first { AllFirstsMeet (system_at solver.old.systems 0) clause.now }
{
    match solver.relative(alloc, clause, level, purse)? {
        Relative::Step(step) => noted(alloc, solver, step, row, purse),
        other => {
            let answer = told_of_relative(&other, row);
            drop(other);
            Ok(answer)
        }
    }
}

fn generalised<'a>(
    alloc: Global,
    solver: &mut FrameSolver<'a>,
    proved: Proved<'a>,
    row: &Row,
    purse: &mut PlainPurse,
) -> char
    requires { proved.system ≡ system_at solver.old.systems 0 }
{
    let generalised = solver.generalise(alloc, proved, purse);
    let answer = told_of_generalised(&generalised, row);
    drop(generalised);
    answer
}

fn smaller(
    alloc: Global,
    solver: &mut FrameSolver,
    clause: &[Lit],
    level: u32,
    row: &Row,
    purse: &mut PlainPurse,
) -> Result<char, AllocError>
    requires within { Within (system_at solver.old.systems 0).state_bits clause.now }
    requires level { 0 < level }
    requires first { AllFirstsMeet (system_at solver.old.systems 0) clause.now }
{
    match solver.relative(alloc, clause, level, purse)? {
        Relative::Proved(proved) => Ok(generalised(alloc, solver, proved, row, purse)),
        other => {
            let answer = told_of_relative(&other, row);
            drop(other);
            Ok(answer)
        }
    }
}

// Asks so many times that the solvers are made anew.
fn often(
    alloc: Global,
    solver: &mut FrameSolver,
    clause: &[Lit],
    level: u32,
    row: &Row,
    purse: &mut PlainPurse,
) -> Result<char, AllocError>
    requires within { Within (system_at solver.old.systems 0).state_bits clause.now }
    requires level { 0 < level }
    requires first { AllFirstsMeet (system_at solver.old.systems 0) clause.now }
{
    'queries: for _k in 0..700 {
        let answer = relative(alloc, solver, clause, level, row, purse)?;
        if answer != row.7 {
            return Ok(OTHER);
        }
    }
    Ok(row.7)
}

// The questions about steps, of a clause that initial states meet.
fn of_steps(
    alloc: Global,
    solver: &mut FrameSolver,
    clause: &[Lit],
    level: u32,
    row: &Row,
    purse: &mut PlainPurse,
) -> Result<char, AllocError>
    requires within { Within (system_at solver.old.systems 0).state_bits clause.now }
    requires level { 0 < level }
    requires first { AllFirstsMeet (system_at solver.old.systems 0) clause.now }
{
    match row.3 {
        'r' => relative(alloc, solver, clause, level, row, purse),
        'n' => before(alloc, solver, clause, level, row, purse),
        'd' => smaller(alloc, solver, clause, level, row, purse),
        'o' => often(alloc, solver, clause, level, row, purse),
        _ => Ok(OTHER),
    }
}

// What is answered of a clause, if it is over the three bits.
fn if_within(
    alloc: Global,
    solver: &mut FrameSolver,
    clause: &[Lit],
    row: &Row,
    purse: &mut PlainPurse,
) -> Result<char, AllocError>
    requires { (system_at solver.old.systems 0).state_bits ≡ 3 }
{
    if is_within(clause, 3) {
        of_clause(alloc, solver, clause, row, purse)
    } else {
        Ok(OTHER)
    }
}

// The questions about a clause.
fn of_clause(
    alloc: Global,
    solver: &mut FrameSolver,
    clause: &[Lit],
    row: &Row,
    purse: &mut PlainPurse,
) -> Result<char, AllocError>
    requires { Within (system_at solver.old.systems 0).state_bits clause.now }
{
    if row.3 == 'f' {
        return first(alloc, solver, clause, row, purse);
    }
    if row.5 == 0 {
        return Ok(OTHER);
    }
    match unmet(alloc, solver, clause, purse)? {
        Some(answer) => Ok(answer),
        None => of_steps(alloc, solver, clause, row.5, row, purse),
    }
}

// What is answered instead, where it is not known that initial states meet lemma 0.
fn unmet_lemma(
    alloc: Global,
    solver: &mut FrameSolver,
    lemmas: &Lemmas,
    purse: &mut PlainPurse,
) -> Result<Option<char>, AllocError>
    requires bits { (system_at solver.old.systems 0).state_bits ≡ 3 }
    requires some { 0 < length lemmas.now }
    ensures met { IfOk result (λ r. IfNone r (AllFirstsMeet (system_at solver.old.systems 0) (lemma_at lemmas.now 0).clause)) }
    ensures systems { solver.new.systems ≡ solver.old.systems }
    ensures lemmas { solver.new.lemmas ≡ solver.old.lemmas }
{
    let clause = lemmas.lemma(0).clause.as_slice();
    if !is_within(clause, 3) {
        return Ok(Some(OTHER));
    }
    unmet(alloc, solver, clause, purse)
}

// Whether lemma 0, which initial states meet, holds one level higher.
fn push_met(
    alloc: Global,
    solver: &mut FrameSolver,
    row: &Row,
    purse: &mut PlainPurse,
) -> Result<char, AllocError>
    requires number { 0 < length solver.old.lemmas }
    requires level { (lemma_at solver.old.lemmas 0).level + 1 < 2 ^ 32 }
    requires first { AllFirstsMeet (system_at solver.old.systems 0) (lemma_at solver.old.lemmas 0).clause }
    ensures systems { solver.new.systems ≡ solver.old.systems }
    ensures lemmas { solver.new.lemmas ≡ solver.old.lemmas }
{
    let relative = solver.push(alloc, 0, purse)?;
    let answer = told_of_relative(&relative, row);
    drop(relative);
    Ok(answer)
}

fn push(
    alloc: Global,
    solver: &mut FrameSolver,
    lemmas: &Lemmas,
    row: &Row,
    purse: &mut PlainPurse,
) -> Result<char, AllocError>
    requires bits { (system_at solver.old.systems 0).state_bits ≡ 3 }
    requires lemmas { solver.old.lemmas ≡ lemmas.now }
    ensures systems { solver.new.systems ≡ solver.old.systems }
    ensures lemmas { solver.new.lemmas ≡ solver.old.lemmas }
{
    if lemmas.len() == 0 || lemmas.lemma(0).level == u32::MAX {
        return Ok(OTHER);
    }
    match unmet_lemma(alloc, solver, lemmas, purse)? {
        Some(answer) => Ok(answer),
        None => push_met(alloc, solver, row, purse),
    }
}

// Pushes the lemma, and pushes it again.
fn push_again(
    alloc: Global,
    solver: &mut FrameSolver,
    lemmas: &Lemmas,
    row: &Row,
    purse: &mut PlainPurse,
) -> Result<char, AllocError>
    requires bits { (system_at solver.old.systems 0).state_bits ≡ 3 }
    requires lemmas { solver.old.lemmas ≡ lemmas.now }
{
    let answer = push(alloc, solver, lemmas, row, purse)?;
    if answer != row.7 {
        return Ok(OTHER);
    }
    push(alloc, solver, lemmas, row, purse)
}

// What a solver that has these lemmas answers.
fn asked(
    alloc: Global,
    solver: &mut FrameSolver,
    lemmas: &Lemmas,
    row: &Row,
) -> Result<char, AllocError>
    requires some { 0 < length solver.old.systems }
    requires bits { (system_at solver.old.systems 0).state_bits ≡ 3 }
    requires lemmas { solver.old.lemmas ≡ lemmas.now }
{
    let mut purse = PlainPurse::new(row.6);
    match row.3 {
        'b' => bad(alloc, solver, row, &mut purse),
        'p' => push(alloc, solver, lemmas, row, &mut purse),
        'a' => push_again(alloc, solver, lemmas, row, &mut purse),
        _ => with_clause(alloc, solver, row, &mut purse),
    }
}

fn with_clause(
    alloc: Global,
    solver: &mut FrameSolver,
    row: &Row,
    purse: &mut PlainPurse,
) -> Result<char, AllocError>
    requires { (system_at solver.old.systems 0).state_bits ≡ 3 }
{
    let clause = clause_of(alloc, row.4)?;
    let answer = if_within(alloc, solver, &clause, row, purse);
    drop(clause);
    answer
}

// Adds a lemma, and lets the solver follow. False: it speaks of no bit.
fn add(
    alloc: Global,
    solver: &mut FrameSolver,
    lemmas: &mut Lemmas,
    signs: &str,
    level: u32,
) -> Result<bool, AllocError>
    requires bits { (system_at solver.old.systems 0).state_bits ≡ 3 }
    requires lemmas { solver.old.lemmas ≡ lemmas.old }
    requires within { All (λ (l : ALemma). Within 3 l.clause) lemmas.old }
    ensures systems { solver.new.systems ≡ solver.old.systems }
    ensures lemmas { OnOk result (solver.new.lemmas ≡ lemmas.new) }
    ensures within { OnOk result (All (λ (l : ALemma). Within 3 l.clause) lemmas.new) }
{
    let clause = clause_of(alloc, signs)?;
    if !is_within(&clause, 3) {
        drop(clause);
        return Ok(false);
    }
    lemmas.push(Clause::from_vec(clause), level)?;
    solver.follow(lemmas)?;
    Ok(true)
}

// Gives lemma 0 another level, and lets the solver follow.
fn raise(solver: &mut FrameSolver, lemmas: &mut Lemmas, level: u32) -> Result<bool, AllocError>
    requires bits { (system_at solver.old.systems 0).state_bits ≡ 3 }
    requires lemmas { solver.old.lemmas ≡ lemmas.old }
    requires within { All (λ (l : ALemma). Within 3 l.clause) lemmas.old }
    ensures systems { solver.new.systems ≡ solver.old.systems }
    ensures lemmas { OnOk result (solver.new.lemmas ≡ lemmas.new) }
    ensures within { OnOk result (All (λ (l : ALemma). Within 3 l.clause) lemmas.new) }
{
    if lemmas.len() == 0 {
        return Ok(false);
    }
    lemmas.raise(0, level);
    solver.follow(lemmas)?;
    Ok(true)
}

// Retires lemma 0, and lets the solver follow.
fn retire(solver: &mut FrameSolver, lemmas: &mut Lemmas) -> Result<bool, AllocError>
    requires bits { (system_at solver.old.systems 0).state_bits ≡ 3 }
    requires lemmas { solver.old.lemmas ≡ lemmas.old }
    requires within { All (λ (l : ALemma). Within 3 l.clause) lemmas.old }
    ensures { solver.new.systems ≡ solver.old.systems }
{
    if lemmas.len() == 0 {
        return Ok(false);
    }
    lemmas.retire(0);
    solver.follow(lemmas)?;
    Ok(true)
}

fn of_clauses(
    alloc: Global,
    init: Clauses,
    step: Clauses,
    bad: &[Lit],
) -> Result<System, AllocError>
    ensures { IfOk result (λ s. s.state_bits ≡ 3) }
{
    if init.is_within(6) && step.is_within(6) && is_within(bad, 3) {
        System::plain(alloc, 3, 6, init, step, bad)
    } else {
        drop(init);
        drop(step);
        Err(AllocError)
    }
}

fn push_clause(alloc: Global, clauses: &mut Clauses, signs: &str) -> Result<(), AllocError> {
    let clause = clause_of(alloc, signs)?;
    let pushed = clauses.push(&clause);
    drop(clause);
    pushed
}

fn push_clauses(alloc: Global, clauses: &mut Clauses, signs: &[&str]) -> Result<(), AllocError> {
    for clause in signs {
        push_clause(alloc, clauses, clause)?;
    }
    Ok(())
}

// A clause for each of these signs.
pub(crate) fn clauses_of(alloc: Global, signs: &[&str]) -> Result<Clauses, AllocError> {
    let mut clauses = Clauses::new(alloc);
    push_clauses(alloc, &mut clauses, signs)?;
    Ok(clauses)
}

fn latch(alloc: Global) -> Result<System, AllocError>
    ensures { IfOk result (λ s. s.state_bits ≡ 3) }
{
    let init = clauses_of(alloc, &["0"])?;
    let step = clauses_of(alloc, &["1--0"])?;
    of_clauses(alloc, init, step, &[Lit::new(0, true), Lit::new(1, true)])
}

fn register(alloc: Global) -> Result<System, AllocError>
    ensures { IfOk result (λ s. s.state_bits ≡ 3) }
{
    let init = clauses_of(alloc, &["-0", "--0"])?;
    let step = clauses_of(alloc, &["1---0", "0---1", "-1---0", "-0---1"])?;
    of_clauses(
        alloc,
        init,
        step,
        &[Lit::new(0, true), Lit::new(1, true), Lit::new(2, true)],
    )
}

fn system_of(alloc: Global, of: char) -> Result<System, AllocError>
    ensures { IfOk result (λ s. s.state_bits ≡ 3) }
{
    match of {
        'l' => latch(alloc),
        _ => register(alloc),
    }
}

// What is answered of bad states of the latch, as lemmas come, are raised and retired.
const LATER: [Row; 6] = [
    Row('l', "00-", 1, 'b', "", 1, 9, 'c', "", 1),
    Row('l', "00-", 1, 'b', "", 2, 9, 'b', "11-", 0),
    Row('l', "00-", 2, 'b', "", 2, 9, 'c', "", 1),
    Row('l', "0--", 3, 'b', "", 3, 9, 'c', "", 1),
    Row('l', "0--", 3, 'b', "", 2, 9, 'c', "", 1),
    Row('l', "0--", 3, 'b', "", 4, 9, 'b', "11-", 0),
];

// Whether the question of this row, which is about bad states, is answered as it says.
fn is_so(alloc: Global, solver: &mut FrameSolver, row: &Row) -> Result<bool, AllocError>
    requires { 0 < length solver.old.systems }
    ensures systems { solver.new.systems ≡ solver.old.systems }
    ensures lemmas { solver.new.lemmas ≡ solver.old.lemmas }
{
    let mut purse = PlainPurse::new(row.6);
    let answer = bad(alloc, solver, row, &mut purse)?;
    Ok(answer == row.7)
}

// The first three rows: a lemma is added, and raised.
fn is_raised(
    alloc: Global,
    solver: &mut FrameSolver,
    lemmas: &mut Lemmas,
) -> Result<bool, AllocError>
    requires some { 0 < length solver.old.systems }
    requires bits { (system_at solver.old.systems 0).state_bits ≡ 3 }
    requires lemmas { solver.old.lemmas ≡ lemmas.old }
    requires within { All (λ (l : ALemma). Within 3 l.clause) lemmas.old }
    ensures systems { solver.new.systems ≡ solver.old.systems }
    ensures lemmas { OnOk result (solver.new.lemmas ≡ lemmas.new) }
    ensures within { OnOk result (All (λ (l : ALemma). Within 3 l.clause) lemmas.new) }
{
    let added = add(alloc, solver, lemmas, "00-", 1)?;
    let first = is_so(alloc, solver, &LATER[0])?;
    let second = is_so(alloc, solver, &LATER[1])?;
    let raised = raise(solver, lemmas, 2)?;
    let third = is_so(alloc, solver, &LATER[2])?;
    Ok(added && first && second && raised && third)
}

// The others: a lemma that covers it comes, and it is retired.
fn is_retired(
    alloc: Global,
    solver: &mut FrameSolver,
    lemmas: &mut Lemmas,
) -> Result<bool, AllocError>
    requires some { 0 < length solver.old.systems }
    requires bits { (system_at solver.old.systems 0).state_bits ≡ 3 }
    requires lemmas { solver.old.lemmas ≡ lemmas.old }
    requires within { All (λ (l : ALemma). Within 3 l.clause) lemmas.old }
{
    let added = add(alloc, solver, lemmas, "0--", 3)?;
    let retired = retire(solver, lemmas)?;
    let fourth = is_so(alloc, solver, &LATER[3])?;
    let fifth = is_so(alloc, solver, &LATER[4])?;
    let last = is_so(alloc, solver, &LATER[5])?;
    Ok(added && retired && fourth && fifth && last)
}

// Whether questions are answered as they should while lemmas come, are raised and retired.
fn as_lemmas_change(
    alloc: Global,
    solver: &mut FrameSolver,
    lemmas: &mut Lemmas,
) -> Result<char, AllocError>
    requires some { 0 < length solver.old.systems }
    requires bits { (system_at solver.old.systems 0).state_bits ≡ 3 }
    requires lemmas { solver.old.lemmas ≡ lemmas.old }
    requires within { All (λ (l : ALemma). Within 3 l.clause) lemmas.old }
{
    let raised = is_raised(alloc, solver, lemmas)?;
    let retired = is_retired(alloc, solver, lemmas)?;
    Ok(if raised && retired { 'u' } else { OTHER })
}

// What is answered over the lemma of the row, if it has one.
fn over_lemma(
    alloc: Global,
    solver: &mut FrameSolver,
    lemmas: &mut Lemmas,
    row: &Row,
) -> Result<char, AllocError>
    requires some { 0 < length solver.old.systems }
    requires bits { (system_at solver.old.systems 0).state_bits ≡ 3 }
    requires lemmas { solver.old.lemmas ≡ lemmas.old }
    requires within { All (λ (l : ALemma). Within 3 l.clause) lemmas.old }
{
    if row.3 == 'u' {
        return as_lemmas_change(alloc, solver, lemmas);
    }
    if row.2 > 0 && !add(alloc, solver, lemmas, row.1, row.2)? {
        return Ok(OTHER);
    }
    asked(alloc, solver, lemmas, row)
}

fn answer_of(alloc: Global, system: &System, row: &Row) -> Result<char, AllocError>
    requires { system.now.state_bits ≡ 3 }
{
    let mut solver = FrameSolver::new(alloc, from_ref(system))?;
    let mut lemmas = Lemmas::new(alloc);
    let answer = over_lemma(alloc, &mut solver, &mut lemmas, row);
    drop(solver);
    drop(lemmas);
    answer
}

fn is_right(alloc: Global, row: &Row) -> Result<bool, AllocError> {
    let system = system_of(alloc, row.0)?;
    let answer = answer_of(alloc, &system, row);
    drop(system);
    Ok(answer? == row.7)
}

// The first row that is answered otherwise.
fn first_wrong(alloc: Global) -> Result<Option<usize>, AllocError> {
    for k in 0..ROWS.len() {
        if !is_right(alloc, &ROWS[k])? {
            return Ok(Some(k));
        }
    }
    Ok(None)
}

#[test]
fn each_question_is_answered(rt: HostRuntime) -> Result<(), Fail> {
    assert_eq!(rt; first_wrong(rt.alloc())?, None);
    Ok(())
}
