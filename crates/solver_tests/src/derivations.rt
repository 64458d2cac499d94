//! Tests of the checker of derivations: logs right and broken, hints right and wrong, and hints
//! that it finds.

ghost use Rattle.std.specs.Prelude.{◌≡◌, All};
ghost use Rattle.clause_core.specs.Literals.{Within};

use crate::letters::{clauses_of, literal, literals};
use clause_core::{Clauses, Lit, is_within};
use hinted_log::Hinted;
use rup_check::{Checker, Hints, LogVerdict};
use std::alloc::{AllocError, Global};
use std::test::Fail;

// The hints: a digit for each.
fn hints_of(alloc: Global, text: &[u8]) -> Result<Vec<usize>, AllocError> {
    let mut hints = Vec::new(alloc);
    for digit in text {
        hints.push(*digit as usize % 16)?;
    }
    Ok(hints)
}

// The clauses of all four signs of two variables.
const ALL_SIGNS: &'static [u8] = b"ab.aB.Ab.AB.";

// A log, and what is said of it.
struct Checked(&'static [u8], LogVerdict);

// A right log; one without its last step; one that looks ahead; one that does not end empty; two with a literal past
// the variables; and none.
const CHECKED: [Checked; 7] = [
    Checked(b"a..", LogVerdict::Yes),
    Checked(b"a.", LogVerdict::No { step: 1 }),
    Checked(b".a.", LogVerdict::No { step: 0 }),
    Checked(b"a.a.", LogVerdict::No { step: 2 }),
    Checked(b"c..", LogVerdict::No { step: 0 }),
    Checked(b"a.c.", LogVerdict::No { step: 1 }),
    Checked(b"", LogVerdict::No { step: 0 }),
];

fn says(
    alloc: Global,
    clauses: &Clauses,
    log: &Clauses,
    want: LogVerdict,
) -> Result<bool, AllocError> {
    if !clauses.is_within(2) {
        return Ok(false);
    }
    let mut checker = Checker::new(alloc, 2)?;
    let verdict = checker.check(clauses, log);
    drop(checker);
    Ok(verdict == want)
}

fn is_checked(alloc: Global, clauses: &Clauses, row: &Checked) -> Result<bool, AllocError> {
    let log = clauses_of(alloc, row.0, 0)?;
    let answer = says(alloc, clauses, &log, row.1);
    drop(log);
    answer
}

fn first_unchecked(alloc: Global, clauses: &Clauses) -> Result<Option<usize>, AllocError> {
    for (k, row) in CHECKED.iter().enumerate() {
        if !is_checked(alloc, clauses, row)? {
            return Ok(Some(k));
        }
    }
    Ok(None)
}

fn wrong_log(alloc: Global) -> Result<Option<usize>, AllocError> {
    let clauses = clauses_of(alloc, ALL_SIGNS, 0)?;
    let wrong = first_unchecked(alloc, &clauses);
    drop(clauses);
    wrong
}

#[test]
fn logs_right_and_broken(rt: HostRuntime) -> Result<(), Fail> {
    assert_eq!(rt; wrong_log(rt.alloc())?, None);
    Ok(())
}

// The hints of the steps `a` and none, and what is said of them.
struct Judged(&'static [u8], &'static [u8], LogVerdict);

// Right hints, in two orders; too few; one too many; the same twice; none; a later clause; and too few, none and a
// later clause for the last step.
const JUDGED: [Judged; 10] = [
    Judged(b"01", b"423", LogVerdict::Yes),
    Judged(b"10", b"432", LogVerdict::Yes),
    Judged(b"0", b"423", LogVerdict::No { step: 0 }),
    Judged(b"012", b"423", LogVerdict::No { step: 0 }),
    Judged(b"00", b"423", LogVerdict::No { step: 0 }),
    Judged(b"", b"423", LogVerdict::No { step: 0 }),
    Judged(b"4", b"423", LogVerdict::No { step: 0 }),
    Judged(b"01", b"23", LogVerdict::No { step: 1 }),
    Judged(b"01", b"", LogVerdict::No { step: 1 }),
    Judged(b"01", b"5", LogVerdict::No { step: 1 }),
];

fn push_hinted(
    alloc: Global,
    log: &mut Hinted,
    lits: &[Lit],
    text: &[u8],
) -> Result<(), AllocError> {
    let hints = hints_of(alloc, text)?;
    let pushed = log.push(lits, &hints);
    drop(hints);
    pushed
}

fn push_both(alloc: Global, log: &mut Hinted, row: &Judged) -> Result<(), AllocError> {
    push_hinted(alloc, log, &[literal(b'a', 0)], row.0)?;
    push_hinted(alloc, log, &[], row.1)
}

fn says_of_hinted(
    alloc: Global,
    clauses: &Clauses,
    log: &Hinted,
    want: LogVerdict,
) -> Result<bool, AllocError> {
    if !clauses.is_within(2) {
        return Ok(false);
    }
    let mut checker = Checker::new(alloc, 2)?;
    let verdict = checker.check_hinted(clauses, log);
    drop(checker);
    Ok(verdict == want)
}

fn is_judged_with(
    alloc: Global,
    clauses: &Clauses,
    log: &mut Hinted,
    row: &Judged,
) -> Result<bool, AllocError> {
    push_both(alloc, log, row)?;
    says_of_hinted(alloc, clauses, log, row.2)
}

fn is_judged(alloc: Global, clauses: &Clauses, row: &Judged) -> Result<bool, AllocError> {
    let mut log = Hinted::new(alloc);
    let answer = is_judged_with(alloc, clauses, &mut log, row);
    drop(log);
    answer
}

fn first_misjudged(alloc: Global, clauses: &Clauses) -> Result<Option<usize>, AllocError> {
    for (k, row) in JUDGED.iter().enumerate() {
        if !is_judged(alloc, clauses, row)? {
            return Ok(Some(k));
        }
    }
    Ok(None)
}

fn wrong_hints(alloc: Global) -> Result<Option<usize>, AllocError> {
    let clauses = clauses_of(alloc, ALL_SIGNS, 0)?;
    let wrong = first_misjudged(alloc, &clauses);
    drop(clauses);
    wrong
}

#[test]
fn hints_right_and_wrong(rt: HostRuntime) -> Result<(), Fail> {
    assert_eq!(rt; wrong_hints(rt.alloc())?, None);
    Ok(())
}

// How many steps the log has, where it is accepted.
fn accepted(
    checker: &mut Checker,
    clauses: &Clauses,
    units: &[Lit],
    hinted: &Hinted,
) -> Option<usize>
    requires vars { checker.old ≡ 2 }
    requires clauses { All (Within 2) clauses.now }
    requires units { Within 2 units.now }
{
    if checker.check_hinted_with(clauses, units, hinted) == LogVerdict::Yes {
        Some(hinted.len())
    } else {
        None
    }
}

fn steps_of(checker: &mut Checker, clauses: &Clauses, units: &[Lit], hints: &Hints) -> Option<usize>
    requires vars { checker.old ≡ 2 }
    requires clauses { All (Within 2) clauses.now }
    requires units { Within 2 units.now }
{
    match hints {
        Hints::No { .. } => None,
        Hints::Found(hinted) => accepted(checker, clauses, units, hinted),
    }
}

fn found_by(
    alloc: Global,
    checker: &mut Checker,
    clauses: &Clauses,
    units: &[Lit],
    log: &Clauses,
) -> Result<Option<usize>, AllocError>
    requires vars { checker.old ≡ 2 }
    requires clauses { All (Within 2) clauses.now }
    requires units { Within 2 units.now }
{
    let hints = checker.hints(alloc, clauses, units, log)?;
    let steps = steps_of(checker, clauses, units, &hints);
    drop(hints);
    Ok(steps)
}

// How many steps the log has with hints, which are accepted; none where it fails.
fn found(
    alloc: Global,
    clauses: &Clauses,
    units: &[Lit],
    log: &Clauses,
) -> Result<Option<usize>, AllocError> {
    if !clauses.is_within(2) || !is_within(units, 2) {
        return Ok(None);
    }
    let mut checker = Checker::new(alloc, 2)?;
    let steps = found_by(alloc, &mut checker, clauses, units, log);
    drop(checker);
    steps
}

// Clauses, units, a log, and the number of steps that hints are found for.
struct Sought(&'static [u8], &'static [u8], &'static [u8], Option<usize>);

// A log that follows; one with a step that has a literal and its negation, which is left out; one that does not follow;
// and one that follows from a clause and units alone.
const SOUGHT: [Sought; 4] = [
    Sought(ALL_SIGNS, b"", b"a..", Some(2)),
    Sought(ALL_SIGNS, b"", b"bB.a..", Some(2)),
    Sought(ALL_SIGNS, b"", b".", None),
    Sought(b"Ab.", b"aB", b".", Some(1)),
];

fn is_found_for(
    alloc: Global,
    clauses: &Clauses,
    log: &Clauses,
    row: &Sought,
) -> Result<bool, AllocError> {
    let units = literals(alloc, row.1, 0)?;
    let steps = found(alloc, clauses, &units, log);
    drop(units);
    Ok(steps? == row.3)
}

fn is_found_in(alloc: Global, clauses: &Clauses, row: &Sought) -> Result<bool, AllocError> {
    let log = clauses_of(alloc, row.2, 0)?;
    let answer = is_found_for(alloc, clauses, &log, row);
    drop(log);
    answer
}

fn is_found(alloc: Global, row: &Sought) -> Result<bool, AllocError> {
    let clauses = clauses_of(alloc, row.0, 0)?;
    let answer = is_found_in(alloc, &clauses, row);
    drop(clauses);
    answer
}

fn first_not_found(alloc: Global) -> Result<Option<usize>, AllocError> {
    for (k, row) in SOUGHT.iter().enumerate() {
        if !is_found(alloc, row)? {
            return Ok(Some(k));
        }
    }
    Ok(None)
}

#[test]
fn hints_are_found(rt: HostRuntime) -> Result<(), Fail> {
    assert_eq!(rt; first_not_found(rt.alloc())?, None);
    Ok(())
}
