//! Temporal formulas, with lassos and certificates behind them.

use crate::saying::said;
use std::alloc::Global;
use std::test::Fail;

const FREE: &str = "MODULE main\nVAR x : boolean;\n";

const TOGGLING: &str = "MODULE main\nVAR x : boolean;\nASSIGN init(x) := FALSE; next(x) := !x;\n";

const STANDING: &str = "MODULE main\nVAR x : boolean;\nASSIGN init(x) := FALSE; next(x) := x;\n";

const FROZEN: &str = "MODULE main\nFROZENVAR x : boolean;\nINIT x\n";

const JUST: &str = "MODULE main\nVAR x : boolean;\nJUSTICE x\n";

const JUST_TWICE: &str = "MODULE main\nVAR x : boolean;\nJUSTICE TRUE\nJUSTICE x\n";

const GIVEN: &str = "MODULE main\nIVAR u : boolean;\n";

const FOLLOWING: &str =
    "MODULE main\nVAR x : boolean;\nIVAR u : boolean;\nASSIGN init(x) := FALSE; next(x) := u;\n";

const ASKED_TWICE: &str =
    "MODULE main\nVAR x : boolean;\nASSIGN init(x) := FALSE; next(x) := !x;\nINVARSPEC !x\n";

const NOTHING: &str = "-- spec 1 LTLSPEC has nothing shown\n";

const TRUE: &str = "-- spec 1 LTLSPEC is shown true\n";

const FALSE: &str = "-- spec 1 LTLSPEC is shown false\n";

const HOLDS: &str = "-- spec 1 LTLSPEC is rejected: trace spec 0\n";

const UNSAFE: &str = "-- spec 1 LTLSPEC is rejected: part safe 0\n";

// Lassos of one variable: it stands, or it comes and goes.
const STAYS: &str = "--@ spec 1\n--@ state 0: x = FALSE\n--@ loop 0\n";

const HELD: &str = "--@ spec 1\n--@ state 0: x = TRUE\n--@ loop 0\n";

const TURNS: &str = "--@ spec 1\n--@ state 0: x = FALSE\n--@ state 1: x = TRUE\n--@ loop 0\n";

const TURNS_LATER: &str =
    "--@ spec 1\n--@ state 0: x = FALSE\n--@ state 1: x = TRUE\n--@ state 2: x = FALSE\n--@ loop 1\n";

const COMES: &str = "--@ spec 1\n--@ state 0: x = FALSE\n--@ state 1: x = TRUE\n--@ loop 1\n";

const GOES: &str = "--@ spec 1\n--@ state 0: x = TRUE\n--@ state 1: x = FALSE\n--@ loop 1\n";

// Declarations, a formula, lines behind it, what is said, and the status.
type Row = (&'static str, &'static str, &'static str, &'static str, u8);

const ROWS: [Row; 52] = [
    // No lines, and lines of traces that are not as they should be.
    (TOGGLING, "G F x", "", NOTHING, 2),
    (TOGGLING, "F (x & Y x)", TURNS_LATER, FALSE, 0),
    (TOGGLING, "F (x & Y x)", TURNS, FALSE, 0),
    (TOGGLING, "G F x", TURNS, HOLDS, 1),
    (
        TOGGLING,
        "F (x & Y x)",
        "--@ spec 1\n--@ state 0: x = FALSE\n--@ state 1: x = TRUE\n",
        "-- spec 1 LTLSPEC is rejected: trace loop 0\n",
        1,
    ),
    (
        TOGGLING,
        "F (x & Y x)",
        "--@ spec 1\n--@ state 0: x = FALSE\n--@ state 1: x = TRUE\n--@ loop 2\n",
        "-- spec 1 LTLSPEC is rejected: trace loop 2\n",
        1,
    ),
    (
        TOGGLING,
        "F (x & Y x)",
        COMES,
        "-- spec 1 LTLSPEC is rejected: trace loop 1\n",
        1,
    ),
    (
        TOGGLING,
        "F (x & Y x)",
        "--@ spec 1\n--@ state 0: x = FALSE\n--@ state 1: x = FALSE\n--@ loop 0\n",
        "-- spec 1 LTLSPEC is rejected: trace step 0\n",
        1,
    ),
    (
        TOGGLING,
        "F (x & Y x)",
        "--@ spec 1\n--@ state 0: x = TRUE\n--@ state 1: x = FALSE\n--@ loop 0\n",
        "-- spec 1 LTLSPEC is rejected: trace first 0\n",
        1,
    ),
    (
        TOGGLING,
        "F (x & Y x)",
        "--@ spec 1\n--@ loop 0\n",
        "-- spec 1 LTLSPEC is rejected: trace values 0\n",
        1,
    ),
    // JUSTICE, which is met in the loop or not.
    (
        JUST,
        "F x",
        STAYS,
        "-- spec 1 LTLSPEC is rejected: trace fair 0\n",
        1,
    ),
    (
        JUST_TWICE,
        "F x",
        STAYS,
        "-- spec 1 LTLSPEC is rejected: trace fair 1\n",
        1,
    ),
    (
        JUST_TWICE,
        "FALSE",
        GOES,
        "-- spec 1 LTLSPEC is rejected: trace fair 1\n",
        1,
    ),
    (JUST_TWICE, "FALSE", COMES, FALSE, 0),
    (JUST_TWICE, "F x", COMES, HOLDS, 1),
    (JUST_TWICE, "G x", COMES, FALSE, 0),
    // Operators of the future.
    (FREE, "X x", STAYS, FALSE, 0),
    (FREE, "X x", TURNS, HOLDS, 1),
    (FREE, "!x U x", STAYS, FALSE, 0),
    (FREE, "!x U x", COMES, HOLDS, 1),
    (FREE, "x V !x", STAYS, HOLDS, 1),
    (FREE, "x V !x", COMES, FALSE, 0),
    (FREE, "F G x", TURNS, FALSE, 0),
    (FREE, "F G x", COMES, HOLDS, 1),
    (FREE, "G F x -> F G x", TURNS, FALSE, 0),
    (FREE, "G F x -> F G x", STAYS, HOLDS, 1),
    // Past under future: it is judged on each pass of the loop.
    (FROZEN, "G Z FALSE", HELD, FALSE, 0),
    (FROZEN, "F Y TRUE", HELD, HOLDS, 1),
    (FREE, "G (x -> Y x)", COMES, FALSE, 0),
    (FREE, "F (x & Y x)", COMES, HOLDS, 1),
    (TOGGLING, "F (x & Y O x)", TURNS, HOLDS, 1),
    (TOGGLING, "F (x & Y O (x & Y O x))", TURNS, HOLDS, 1),
    (FREE, "F H x", COMES, FALSE, 0),
    (FREE, "F (x S x)", STAYS, FALSE, 0),
    (FREE, "F (!x S x)", GOES, HOLDS, 1),
    (FREE, "G (x T !x)", TURNS, FALSE, 0),
    (FREE, "G (x T !x)", STAYS, HOLDS, 1),
    // Future under past.
    (STANDING, "O F x", STAYS, FALSE, 0),
    (TOGGLING, "G H F x", TURNS, HOLDS, 1),
    (FREE, "F H X x", STAYS, FALSE, 0),
    (FREE, "F H X x", COMES, HOLDS, 1),
    (FREE, "G O (x & X G !x)", GOES, HOLDS, 1),
    (FREE, "G O (x & X G !x)", TURNS, FALSE, 0),
    // Inputs of the step from each state.
    (
        GIVEN,
        "G u",
        "--@ spec 1\n--@ state 0:\n--@ input 0: u = FALSE\n--@ loop 0\n",
        FALSE,
        0,
    ),
    (
        GIVEN,
        "G u",
        "--@ spec 1\n--@ state 0:\n--@ input 0: u = TRUE\n--@ loop 0\n",
        HOLDS,
        1,
    ),
    (
        GIVEN,
        "G u",
        "--@ spec 1\n--@ state 0:\n--@ loop 0\n",
        "-- spec 1 LTLSPEC is rejected: trace values 0\n",
        1,
    ),
    (
        FOLLOWING,
        "G (u -> X x)",
        "--@ spec 1\n--@ state 0: x = FALSE\n--@ input 0: u = TRUE\n--@ state 1: x = TRUE\n--@ input 1: u = FALSE\n--@ loop 0\n",
        HOLDS,
        1,
    ),
    (
        FOLLOWING,
        "G (u -> x)",
        "--@ spec 1\n--@ state 0: x = FALSE\n--@ input 0: u = TRUE\n--@ state 1: x = TRUE\n--@ input 1: u = FALSE\n--@ loop 0\n",
        FALSE,
        0,
    ),
    (
        FOLLOWING,
        "G (Z u -> x)",
        "--@ spec 1\n--@ state 0: x = FALSE\n--@ input 0: u = TRUE\n--@ state 1: x = TRUE\n--@ input 1: u = FALSE\n--@ loop 0\n",
        FALSE,
        0,
    ),
    (
        FOLLOWING,
        "G (Y u <-> x)",
        "--@ spec 1\n--@ state 0: x = FALSE\n--@ input 0: u = TRUE\n--@ state 1: x = TRUE\n--@ input 1: u = TRUE\n--@ loop 0\n",
        "-- spec 1 LTLSPEC is rejected: trace loop 0\n",
        1,
    ),
    // Both kinds: an invariant's trace has no loop.
    (
        ASKED_TWICE,
        "F (x & Y x)",
        "--@ spec 2\n--@ state 0: x = FALSE\n--@ state 1: x = TRUE\n--@ loop 0\n--@ spec 1\n--@ state 0: x = FALSE\n--@ state 1: x = TRUE\n",
        "-- spec 1 INVARSPEC is shown false\n-- spec 2 LTLSPEC is shown false\n",
        0,
    ),
    (
        ASKED_TWICE,
        "F (x & Y x)",
        "--@ spec 1\n--@ state 0: x = FALSE\n--@ state 1: x = TRUE\n--@ loop 0\n",
        "-- spec 1 INVARSPEC is rejected: trace loop 0\n-- spec 2 LTLSPEC has nothing shown\n",
        1,
    ),
];

// Operators with bounds.
const BOUNDED: [Row; 4] = [
    (TOGGLING, "G F [1,1] x", TURNS, FALSE, 0),
    (TOGGLING, "G F [0,1] x", TURNS, HOLDS, 1),
    (FREE, "F H [0,1] x", TURNS, FALSE, 0),
    (FREE, "G O [1,2] x", HELD, FALSE, 0),
];

// The clauses of a certificate of `G !x` where x stands: bit 1 is x, bit 2 the operator's, bit 3 the mark of its
// fairness set. Neither is ever set, so that there is no signal.
const CLAUSES: &str = "--% clause -1 0\n--% clause -2 0\n--% clause -3 0\n";

const PARTS: &str =
    "--% part first 1\n--% step 0\n--% part first 2\n--% step 0\n--% part first 3\n--% step 0\n--% part kept 1\n--% step 0\n--% part kept 2\n--% step 0\n--% part kept 3\n--% step 0\n--% part safe 0\n--% step 0\n--% end\n";

// Declarations, a formula, the first line of its certificate, more lines behind it, what is said, and the status.
type Certified = (
    &'static str,
    &'static str,
    &'static str,
    &'static str,
    &'static str,
    u8,
);

const CERTIFIED: [Certified; 9] = [
    (
        STANDING,
        "G !x",
        "--% cert 1 spec 1 counter 0\n",
        "",
        TRUE,
        0,
    ),
    (
        STANDING,
        "G !x",
        "--% cert 1 spec 1 counter 1\n",
        "",
        TRUE,
        0,
    ),
    (
        STANDING,
        "G !x",
        "--% cert 1 spec 1 counter 64\n",
        "",
        TRUE,
        0,
    ),
    (
        STANDING,
        "G !x",
        "--% cert 1 spec 1 counter none\n",
        "",
        UNSAFE,
        1,
    ),
    (
        STANDING,
        "G !x",
        "--% cert 1 spec 1 counter 65\n",
        "",
        "-- refused 701 BadCertificate at 5:1\n",
        3,
    ),
    (
        TOGGLING,
        "G !x",
        "--% cert 1 spec 1 counter 0\n",
        "",
        "-- spec 1 LTLSPEC is rejected: part kept 1\n",
        1,
    ),
    (
        STANDING,
        "F x",
        "--% cert 1 spec 1 counter 0\n",
        "",
        UNSAFE,
        1,
    ),
    (
        STANDING,
        "!x",
        "--% cert 1 spec 1 counter 0\n",
        "",
        "-- spec 1 LTLSPEC is rejected: part first 2\n",
        1,
    ),
    (
        STANDING,
        "G !x",
        "--% cert 1 spec 1 counter 0\n",
        STAYS,
        HOLDS,
        1,
    ),
];

// The text of a model with a formula, and lines behind it.
fn text_of(alloc: Global, declared: &str, formula: &str, lines: &[&str]) -> Result<Vec<u8>, Fail> {
    let mut text = declared.as_bytes().to_vec(alloc)?;
    text.extend_from_slice("LTLSPEC ".as_bytes())?;
    text.extend_from_slice(formula.as_bytes())?;
    text.push(b'\n')?;
    for line in lines {
        text.extend_from_slice(line.as_bytes())?;
    }
    Ok(text)
}

// Whether this is said of a text.
fn says(alloc: Global, text: &[u8], wanted: &str, status: u8) -> Result<bool, Fail> {
    let found = said(alloc, text, false)?;
    Ok(found.status == status && found.text.as_str() == wanted)
}

// The number of the first row of which something else is said.
fn first_wrong(alloc: Global, rows: &[Row]) -> Result<Option<usize>, Fail> {
    for (n, row) in rows.iter().enumerate() {
        let (declared, formula, lines, wanted, status) = *row;
        let text = text_of(alloc, declared, formula, &[lines])?;
        if !says(alloc, &text, wanted, status)? {
            return Ok(Some(n));
        }
    }
    Ok(None)
}

#[test]
fn lassos_are_judged(rt: HostRuntime) -> Result<(), Fail> {
    assert_eq!(rt; first_wrong(rt.alloc(), &ROWS)?, None);
    Ok(())
}

#[test]
fn bounds_are_judged(rt: HostRuntime) -> Result<(), Fail> {
    assert_eq!(rt; first_wrong(rt.alloc(), &BOUNDED)?, None);
    Ok(())
}

fn first_uncertified(alloc: Global) -> Result<Option<usize>, Fail> {
    for (n, row) in CERTIFIED.iter().enumerate() {
        let (declared, formula, head, lines, wanted, status) = *row;
        let text = text_of(alloc, declared, formula, &[head, CLAUSES, PARTS, lines])?;
        if !says(alloc, &text, wanted, status)? {
            return Ok(Some(n));
        }
    }
    Ok(None)
}

#[test]
fn certificates_with_a_counter_are_judged(rt: HostRuntime) -> Result<(), Fail> {
    assert_eq!(rt; first_uncertified(rt.alloc())?, None);
    Ok(())
}

const HEAD: &str =
    "-- spec 1 LTLSPEC is shown true\n--% cert 2 spec 1 counter 2\n--% clause -1 0\n";

// Whether the certificate that is printed again begins as it should, and is shown true behind the bare model.
fn printed_again(alloc: Global) -> Result<bool, Fail> {
    let text = text_of(
        alloc,
        STANDING,
        "G !x",
        &["--% cert 1 spec 1 counter 2\n", CLAUSES, PARTS],
    )?;
    let first = said(alloc, &text, true)?;
    let text = text_of(alloc, STANDING, "G !x", &[first.text.as_str()])?;
    Ok(first.text.as_str().starts_with(HEAD) && says(alloc, &text, TRUE, 0)?)
}

#[test]
fn a_certificate_with_a_counter_is_printed_again(rt: HostRuntime) -> Result<(), Fail> {
    assert!(rt; printed_again(rt.alloc())?);
    Ok(())
}
