//! The same models by one worker and by several: the verdicts are the same, whatever order the workers come in.
use crate::reports::{Case, Round, first_wrong, first_wrong_round};
use std::test::Fail;

const TOGGLING: &str =
    "MODULE main\nVAR x : boolean;\nASSIGN init(x) := FALSE; next(x) := !x;\nINVARSPEC !x\n";

const INFINITELY_OFTEN: &str =
    "MODULE main\nVAR x : boolean;\nASSIGN init(x) := FALSE; next(x) := !x;\nLTLSPEC G F x\n";

const FAIR: &str = "MODULE main\nVAR x : boolean;\nJUSTICE x\nLTLSPEC F x\n";

const FREE: &str = "MODULE main\nVAR x : boolean;\nLTLSPEC F x\n";

// A number of three bits goes from 0 to 5, and is never 6 or 7.
const COUNTING: &str =
    "MODULE main\nVAR a : boolean; b : boolean; c : boolean;\nASSIGN init(a) := FALSE; init(b) := FALSE; init(c) := FALSE;\nnext(a) := !a; next(b) := (a xor b) & !(c & a); next(c) := c xor (a & (b | c));\nINVARSPEC !(b & c)\nINVARSPEC !(a & b & c)\n";

const BROKEN: &str =
    "-- spec 1 INVARSPEC is false\n--@ spec 1\n--@ state 0: x = FALSE\n--@ state 1: x = TRUE\n";

const SPENT: &str = "-- spec 1 INVARSPEC is unknown: conflicts 0 of 0\n";

const OPEN: &str = "-- spec 1 INVARSPEC is unknown: frames 0\n";

const TRUE: &str = "-- spec 1 LTLSPEC is true\n";

const VIOLATED: &str =
    "-- spec 1 LTLSPEC is false\n--@ spec 1\n--@ state 0: x = FALSE\n--@ loop 0\n";

const UNCOUNTED: &str = "-- spec 1 LTLSPEC is unknown: bound 30, counter 1\n";

const BOTH: &str = "-- spec 1 INVARSPEC is true\n-- spec 2 INVARSPEC is true\n";

const USAGE: &str = "-- usage: smvcheck check | recheck | flat | self N SEED\n";

const RING: &str =
    "-- model slots 4 items 8\n-- spec 1 INVARSPEC is true\n-- spec 2 LTLSPEC is true\n";

const CASES: [Case; 24] = [
    ("check --workers 1", TOGGLING, BROKEN, 1),
    ("check --workers 2", TOGGLING, BROKEN, 1),
    ("check --workers 4", TOGGLING, BROKEN, 1),
    ("check --workers 64", TOGGLING, BROKEN, 1),
    ("check --workers 2", INFINITELY_OFTEN, TRUE, 0),
    ("check --workers 4", INFINITELY_OFTEN, TRUE, 0),
    ("check --workers 64", INFINITELY_OFTEN, TRUE, 0),
    ("check --workers 2", FAIR, TRUE, 0),
    ("check --workers 4", FAIR, TRUE, 0),
    ("check --workers 64", FAIR, TRUE, 0),
    ("check --workers 4", FREE, VIOLATED, 1),
    ("check --workers 4", COUNTING, BOTH, 0),
    ("check --workers 3 --together", COUNTING, BOTH, 0),
    // No query is asked without a ticket, and the limits are those of one worker.
    ("check --workers 2 --conflicts 0", TOGGLING, SPENT, 2),
    ("check --workers 2 --frames 0", TOGGLING, OPEN, 2),
    (
        "check --workers 2 --counter 1",
        INFINITELY_OFTEN,
        UNCOUNTED,
        2,
    ),
    ("self 4 7 --workers 3", "", RING, 0),
    ("check --workers=02", TOGGLING, BROKEN, 1),
    // A number of workers that is none.
    ("check --workers 0", TOGGLING, USAGE, 4),
    ("check --workers 65", TOGGLING, USAGE, 4),
    ("check --workers", TOGGLING, USAGE, 4),
    ("check --workers 1 --workers 1", TOGGLING, USAGE, 4),
    ("recheck --workers 1", TOGGLING, USAGE, 4),
    ("flat --workers 1", TOGGLING, USAGE, 4),
];

#[test]
fn workers(rt: HostRuntime) -> Result<(), Fail> {
    let wrong = first_wrong(&rt, rt.alloc(), &CASES)?;
    assert_eq!(rt; wrong, None);
    Ok(())
}

const ROUNDS: [Round; 3] = [
    (
        "check --workers 4 --cert",
        INFINITELY_OFTEN,
        "-- spec 1 LTLSPEC is shown true\n",
        0,
    ),
    (
        "check --workers 4 --cert",
        COUNTING,
        "-- spec 1 INVARSPEC is shown true\n-- spec 2 INVARSPEC is shown true\n",
        0,
    ),
    (
        "check --workers 2",
        TOGGLING,
        "-- spec 1 INVARSPEC is shown false\n",
        0,
    ),
];

// What several workers found is judged again by none.
#[test]
fn rounds_of_workers(rt: HostRuntime) -> Result<(), Fail> {
    let wrong = first_wrong_round(&rt, rt.alloc(), &ROUNDS)?;
    assert_eq!(rt; wrong, None);
    Ok(())
}
