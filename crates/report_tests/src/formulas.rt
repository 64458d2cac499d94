//! Formulas of LTL through the top call: what is printed of them, and what is said of it again.
use crate::reports::{Case, Round, first_wrong, first_wrong_round};
use std::alloc::Global;
use std::test::Fail;

const INFINITELY_OFTEN: &str =
    "MODULE main\nVAR x : boolean;\nASSIGN init(x) := FALSE; next(x) := !x;\nLTLSPEC G F x\n";

const FREE: &str = "MODULE main\nVAR x : boolean;\nLTLSPEC F x\n";

const FAIR: &str = "MODULE main\nVAR x : boolean;\nJUSTICE x\nLTLSPEC F x\n";

const FROZEN: &str = "MODULE main\nFROZENVAR x : boolean;\nINIT x\nLTLSPEC G Z FALSE\n";

const WITHOUT_SUCCESSOR: &str =
    "MODULE main\nVAR x : boolean;\nINIT !x\nTRANS !x & next(x)\nINVARSPEC !x\nLTLSPEC G !x\n";

const WITHOUT_FIRST_STATE: &str =
    "MODULE main\nVAR x : boolean;\nINIT FALSE\nINVARSPEC FALSE\nLTLSPEC F x\n";

// Three states one after another, each JUSTICE holds in two of them, and none in all.
const RING: &str =
    "MODULE main\nVAR a : boolean; b : boolean;\nASSIGN init(a) := FALSE; init(b) := FALSE; next(a) := !a & !b; next(b) := a;\nJUSTICE !a\nJUSTICE !b\nJUSTICE a | b\nLTLSPEC FALSE\n";

const TRUE: &str = "-- spec 1 LTLSPEC is true\n";

const SHOWN: &str = "-- spec 1 LTLSPEC is shown true\n";

const VIOLATED: &str = "-- spec 1 LTLSPEC is shown false\n";

const CASES: [Case; 29] = [
    ("check", INFINITELY_OFTEN, TRUE, 0),
    (
        "check --counter 1",
        INFINITELY_OFTEN,
        "-- spec 1 LTLSPEC is unknown: bound 30, counter 1\n",
        2,
    ),
    (
        "check --conflicts 0",
        INFINITELY_OFTEN,
        "-- spec 1 LTLSPEC is unknown: conflicts 0 of 0\n",
        2,
    ),
    (
        "check",
        FREE,
        "-- spec 1 LTLSPEC is false\n--@ spec 1\n--@ state 0: x = FALSE\n--@ loop 0\n",
        1,
    ),
    ("check", FAIR, TRUE, 0),
    (
        "check --bound 1",
        FROZEN,
        "-- spec 1 LTLSPEC is unknown: bound 1, counter 16\n",
        2,
    ),
    (
        "check --bound 2",
        FROZEN,
        "-- spec 1 LTLSPEC is false\n--@ spec 1\n--@ state 0: x = TRUE\n--@ state 1: x = TRUE\n--@ loop 1\n",
        1,
    ),
    (
        "check",
        WITHOUT_SUCCESSOR,
        "-- spec 1 INVARSPEC is false\n--@ spec 1\n--@ state 0: x = FALSE\n--@ state 1: x = TRUE\n-- spec 2 LTLSPEC is true\n",
        1,
    ),
    (
        "check",
        WITHOUT_FIRST_STATE,
        "-- spec 1 INVARSPEC is true\n-- spec 2 LTLSPEC is true\n",
        0,
    ),
    (
        "check --bound 3",
        RING,
        "-- spec 1 LTLSPEC is false\n--@ spec 1\n--@ state 0: a = FALSE, b = FALSE\n--@ state 1: a = TRUE, b = FALSE\n--@ state 2: a = FALSE, b = TRUE\n--@ loop 0\n",
        1,
    ),
    // Past under future.
    (
        "check",
        "MODULE main\nVAR x : boolean;\nASSIGN init(x) := FALSE; next(x) := !x;\nLTLSPEC F (x & Y x)\n",
        "-- spec 1 LTLSPEC is false\n--@ spec 1\n--@ state 0: x = FALSE\n--@ state 1: x = TRUE\n--@ state 2: x = FALSE\n--@ loop 1\n",
        1,
    ),
    // A formula reads the input of the step from its state.
    (
        "check",
        "MODULE main\nIVAR u : boolean;\nLTLSPEC G u\n",
        "-- spec 1 LTLSPEC is false\n--@ spec 1\n--@ state 0:\n--@ input 0: u = FALSE\n--@ loop 0\n",
        1,
    ),
    (
        "check",
        "MODULE main\nIVAR u : boolean;\nVAR x : boolean;\nASSIGN init(x) := FALSE; next(x) := u;\nLTLSPEC G (u <-> X x)\n",
        TRUE,
        0,
    ),
    // Operators with bounds.
    (
        "check",
        "MODULE main\nVAR x : boolean;\nASSIGN init(x) := FALSE; next(x) := !x;\nLTLSPEC G F [1,1] x\n",
        "-- spec 1 LTLSPEC is false\n--@ spec 1\n--@ state 0: x = FALSE\n--@ state 1: x = TRUE\n--@ loop 0\n",
        1,
    ),
    (
        "check",
        "MODULE main\nVAR x : boolean;\nASSIGN init(x) := FALSE; next(x) := !x;\nLTLSPEC G F [0,1] x\n",
        TRUE,
        0,
    ),
    (
        "check",
        "MODULE main\nVAR x : boolean;\nASSIGN init(x) := FALSE; next(x) := !x;\nLTLSPEC G F [2,1] x\n",
        "-- refused 413 BadBound at 4:11: 2,1\n",
        3,
    ),
    (
        "check",
        "MODULE main\nVAR x : boolean;\nLTLSPEC G O [0,3] (x | !x)\n",
        TRUE,
        0,
    ),
    // Operators of two operands.
    (
        "check",
        "MODULE main\nVAR x : boolean;\nASSIGN init(x) := FALSE; next(x) := TRUE;\nLTLSPEC !x U x\nLTLSPEC x V !x\nLTLSPEC G (x -> (x S !x | O x))\nLTLSPEC F G H (x | !x)\n",
        "-- spec 1 LTLSPEC is true\n-- spec 2 LTLSPEC is false\n--@ spec 2\n--@ state 0: x = FALSE\n--@ state 1: x = TRUE\n--@ loop 1\n-- spec 3 LTLSPEC is true\n-- spec 4 LTLSPEC is true\n",
        1,
    ),
    // Invariants share a pool of lemmas, and formulas are asked beside it.
    (
        "check --together",
        WITHOUT_SUCCESSOR,
        "-- spec 1 INVARSPEC is false\n--@ spec 1\n--@ state 0: x = FALSE\n--@ state 1: x = TRUE\n-- spec 2 LTLSPEC is true\n",
        1,
    ),
    (
        "check --together",
        "MODULE main\nVAR x : boolean;\nASSIGN init(x) := FALSE; next(x) := !x;\nLTLSPEC F x\nINVARSPEC x | !x\nLTLSPEC G x\nINVARSPEC !x\n",
        "-- spec 1 LTLSPEC is true\n-- spec 2 INVARSPEC is true\n-- spec 3 LTLSPEC is false\n--@ spec 3\n--@ state 0: x = FALSE\n--@ state 1: x = TRUE\n--@ loop 0\n-- spec 4 INVARSPEC is false\n--@ spec 4\n--@ state 0: x = FALSE\n--@ state 1: x = TRUE\n",
        1,
    ),
    // Where temporal operators, integers and brackets have no place.
    (
        "check",
        "MODULE main\nVAR x : boolean;\nINVARSPEC F x\n",
        "-- refused 408 TemporalHere at 3:11\n",
        3,
    ),
    (
        "check",
        "MODULE main\nVAR x : boolean;\nLTLSPEC G F [2,1] x\n",
        "-- refused 413 BadBound at 3:11: 2,1\n",
        3,
    ),
    (
        "check",
        "MODULE main\nVAR x : boolean;\nLTLSPEC F [3] x\n",
        "-- refused 201 Unexpected at 3:13: ]\n",
        3,
    ),
    (
        "check",
        "MODULE main\nVAR x : boolean;\nLTLSPEC F [0, x] x\n",
        "-- refused 404 NotConstant at 3:9\n",
        3,
    ),
    (
        "check",
        "MODULE main\nVAR x : boolean;\nINVARSPEC x[3:0]\n",
        "-- refused 401 TypeMismatch at 3:12\n",
        3,
    ),
    (
        "check",
        "MODULE main\nVAR x : boolean;\nLTLSPEC X [0, 1] x\n",
        "-- refused 201 Unexpected at 3:11: [\n",
        3,
    ),
    (
        "check",
        "MODULE main\nVAR x : boolean;\nLTLSPEC x ]\n",
        "-- refused 201 Unexpected at 3:11: ]\n",
        3,
    ),
    (
        "check --counter 65",
        FREE,
        "-- usage: smvcheck check | recheck | flat | self N SEED\n",
        4,
    ),
    (
        "flat",
        INFINITELY_OFTEN,
        "-- slot 0 state x : boolean\n-- item 0 init at 3:8 of main\n-- item 1 next at 3:26 of main\n",
        0,
    ),
];

#[test]
fn formulas(rt: HostRuntime) -> Result<(), Fail> {
    let wrong = first_wrong(&rt, rt.alloc(), &CASES)?;
    assert_eq!(rt; wrong, None);
    Ok(())
}

const ROUNDS: [Round; 8] = [
    ("check", FREE, VIOLATED, 0),
    ("check", RING, VIOLATED, 0),
    ("check --bound 2", FROZEN, VIOLATED, 0),
    ("check --cert", INFINITELY_OFTEN, SHOWN, 0),
    ("check --cert", FAIR, SHOWN, 0),
    (
        "check --cert --counter 1",
        INFINITELY_OFTEN,
        "-- spec 1 LTLSPEC has nothing shown\n",
        2,
    ),
    (
        "check --cert --together",
        WITHOUT_SUCCESSOR,
        "-- spec 1 INVARSPEC is shown false\n-- spec 2 LTLSPEC is shown true\n",
        0,
    ),
    (
        "check --cert",
        WITHOUT_FIRST_STATE,
        "-- spec 1 INVARSPEC is shown true\n-- spec 2 LTLSPEC is shown true\n",
        0,
    ),
];

#[test]
fn rounds_of_formulas(rt: HostRuntime) -> Result<(), Fail> {
    let wrong = first_wrong_round(&rt, rt.alloc(), &ROUNDS)?;
    assert_eq!(rt; wrong, None);
    Ok(())
}
