//! Models of which an item faults, with traces behind them: a test whose evaluation faults fails.

use crate::saying::{both, said};
use std::alloc::Global;
use std::test::Fail;

// An item of each model faults in some state or step of the declared types.
const FIRST: &str =
    "MODULE main\nVAR x : 0..3;\nASSIGN init(x) := {1, 7}; next(x) := x;\nINVARSPEC x != 1\n";

const INITIAL: &str = "MODULE main\nVAR x : 0..3;\nINIT 4 / x > 0\nINVARSPEC x > 1\n";

const FOLLOWING: &str =
    "MODULE main\nVAR y : 0..3; x : 0..3;\nASSIGN x := {y, y + 2};\nINVARSPEC x != 3\n";

const INVARIANT: &str = "MODULE main\nVAR x : 0..3;\nINVAR 4 / x > 0\nINVARSPEC x > 1\n";

const COUNTING: &str =
    "MODULE main\nVAR x : 0..3;\nASSIGN init(x) := 0; next(x) := {x + 1, x + 3};\nINVARSPEC x != 2\n";

const STEPPING: &str =
    "MODULE main\nVAR x : 0..3;\nASSIGN init(x) := 0;\nTRANS 4 / x > 0\nINVARSPEC x != 1\n";

const ASKED: &str =
    "MODULE main\nVAR x : 0..3;\nASSIGN init(x) := 0; next(x) := {0, 1};\nINVARSPEC 4 / x > 4\n";

const ROUND: &str =
    "MODULE main\nVAR x : 0..1;\nASSIGN init(x) := 0; next(x) := {0, x + 1};\nLTLSPEC G (x = 0)\n";

const JUST: &str = "MODULE main\nVAR x : 0..3;\nJUSTICE 4 / x > 0\nLTLSPEC G (x = 0)\n";

const STANDING: &str =
    "MODULE main\nVAR i : 0..2;\nASSIGN init(i) := 0; next(i) := 0;\nLTLSPEC G (4 / i > 1)\n";

const FALLING: &str = "MODULE main\nVAR i : 0..2;\nASSIGN next(i) := 0;\nLTLSPEC G (4 / i > 4)\n";

const GIVEN: &str = "MODULE main\nVAR x : boolean;\nIVAR u : 0..2;\nLTLSPEC G (4 / u > 4)\n";

const FALSE: &str = "-- spec 1 INVARSPEC is shown false\n";

const FALSE_FORMULA: &str = "-- spec 1 LTLSPEC is shown false\n";

// A model, lines behind it, what is said, and the status.
type Row = (&'static str, &'static str, &'static str, u8);

const ROWS: [Row; 24] = [
    // An initial state: a member of a set is no value of the slot, or INIT divides by zero.
    (
        FIRST,
        "--@ spec 1\n--@ state 0: x = 1\n",
        "-- spec 1 INVARSPEC is rejected: trace first 0\n",
        1,
    ),
    (
        INITIAL,
        "--@ spec 1\n--@ state 0: x = 0\n",
        "-- spec 1 INVARSPEC is rejected: trace first 0\n",
        1,
    ),
    (INITIAL, "--@ spec 1\n--@ state 0: x = 1\n", FALSE, 0),
    // A state.
    (
        FOLLOWING,
        "--@ spec 1\n--@ state 0: y = 3, x = 3\n",
        "-- spec 1 INVARSPEC is rejected: trace first 0\n",
        1,
    ),
    (
        FOLLOWING,
        "--@ spec 1\n--@ state 0: y = 0, x = 2\n--@ state 1: y = 3, x = 3\n",
        "-- spec 1 INVARSPEC is rejected: trace inv 1\n",
        1,
    ),
    (
        FOLLOWING,
        "--@ spec 1\n--@ state 0: y = 0, x = 2\n--@ state 1: y = 1, x = 3\n",
        FALSE,
        0,
    ),
    (
        INVARIANT,
        "--@ spec 1\n--@ state 0: x = 1\n--@ state 1: x = 0\n",
        "-- spec 1 INVARSPEC is rejected: trace inv 1\n",
        1,
    ),
    (
        INVARIANT,
        "--@ spec 1\n--@ state 0: x = 2\n--@ state 1: x = 1\n",
        FALSE,
        0,
    ),
    // A step.
    (
        COUNTING,
        "--@ spec 1\n--@ state 0: x = 0\n--@ state 1: x = 1\n--@ state 2: x = 2\n",
        "-- spec 1 INVARSPEC is rejected: trace step 1\n",
        1,
    ),
    (
        COUNTING,
        "--@ spec 1\n--@ state 0: x = 0\n--@ state 1: x = 3\n",
        "-- spec 1 INVARSPEC is rejected: trace spec 0\n",
        1,
    ),
    (
        STEPPING,
        "--@ spec 1\n--@ state 0: x = 0\n--@ state 1: x = 1\n",
        "-- spec 1 INVARSPEC is rejected: trace step 0\n",
        1,
    ),
    // The step back.
    (
        ROUND,
        "--@ spec 1\n--@ state 0: x = 0\n--@ state 1: x = 1\n--@ loop 0\n",
        "-- spec 1 LTLSPEC is rejected: trace loop 0\n",
        1,
    ),
    (
        ROUND,
        "--@ spec 1\n--@ state 0: x = 0\n--@ loop 0\n",
        "-- spec 1 LTLSPEC is rejected: trace spec 0\n",
        1,
    ),
    // A JUSTICE has to be TRUE in some state.
    (
        JUST,
        "--@ spec 1\n--@ state 0: x = 0\n--@ loop 0\n",
        "-- spec 1 LTLSPEC is rejected: trace fair 0\n",
        1,
    ),
    (
        JUST,
        "--@ spec 1\n--@ state 0: x = 0\n--@ state 1: x = 1\n--@ loop 0\n",
        FALSE_FORMULA,
        0,
    ),
    // The invariant, in the last state alone.
    (
        ASKED,
        "--@ spec 1\n--@ state 0: x = 0\n",
        "-- spec 1 INVARSPEC is rejected: trace spec 0\n",
        1,
    ),
    (
        ASKED,
        "--@ spec 1\n--@ state 0: x = 0\n--@ state 1: x = 1\n",
        FALSE,
        0,
    ),
    // The formula, at each time of the lasso.
    (
        STANDING,
        "--@ spec 1\n--@ state 0: i = 0\n--@ loop 0\n",
        "-- spec 1 LTLSPEC is rejected: trace spec 0\n",
        1,
    ),
    (
        FALLING,
        "--@ spec 1\n--@ state 0: i = 0\n--@ loop 0\n",
        "-- spec 1 LTLSPEC is rejected: trace spec 0\n",
        1,
    ),
    (
        FALLING,
        "--@ spec 1\n--@ state 0: i = 1\n--@ state 1: i = 0\n--@ loop 1\n",
        "-- spec 1 LTLSPEC is rejected: trace spec 0\n",
        1,
    ),
    (
        GIVEN,
        "--@ spec 1\n--@ state 0: x = TRUE\n--@ input 0: u = 0\n--@ loop 0\n",
        "-- spec 1 LTLSPEC is rejected: trace spec 0\n",
        1,
    ),
    (
        GIVEN,
        "--@ spec 1\n--@ state 0: x = TRUE\n--@ input 0: u = 1\n--@ loop 0\n",
        FALSE_FORMULA,
        0,
    ),
    (
        GIVEN,
        "--@ spec 1\n--@ state 0: x = TRUE\n--@ input 0: u = 1\n--@ state 1: x = TRUE\n--@ input 1: u = 0\n--@ loop 0\n",
        "-- spec 1 LTLSPEC is rejected: trace spec 0\n",
        1,
    ),
    (
        GIVEN,
        "--@ spec 1\n--@ state 0: x = TRUE\n--@ input 0: u = 2\n--@ state 1: x = TRUE\n--@ input 1: u = 1\n--@ loop 1\n",
        FALSE_FORMULA,
        0,
    ),
];

// Whether this is said of the lines behind the model.
fn says(alloc: Global, row: &Row) -> Result<bool, Fail> {
    let (model, lines, wanted, status) = *row;
    let text = both(alloc, model, lines)?;
    let found = said(alloc, &text, false)?;
    Ok(found.status == status && found.text.as_str() == wanted)
}

// The number of the first row of which something else is said.
fn first_wrong(alloc: Global) -> Result<Option<usize>, Fail> {
    for n in 0..ROWS.len() {
        if !says(alloc, &ROWS[n])? {
            return Ok(Some(n));
        }
    }
    Ok(None)
}

#[test]
fn faults_fail_their_tests(rt: HostRuntime) -> Result<(), Fail> {
    assert_eq!(rt; first_wrong(rt.alloc())?, None);
    Ok(())
}
