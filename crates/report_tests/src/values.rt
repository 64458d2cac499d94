//! Integers, enumerations, sets, `case` and words through the top call: verdicts, refusals of items that fault,
//! listings, and what is said of reports again.
use crate::reports::{Case, Round, first_wrong, first_wrong_round};
use std::alloc::Global;
use std::test::Fail;

// A range that is left where y is 3.
const LEAVING: &str = "MODULE main\nVAR y : 0..3;\nASSIGN next(y) := y + 1;\nINVARSPEC y >= 0\n";

// The same with a way back.
const GOING_ROUND: &str =
    "MODULE main\nVAR y : 0..3;\nASSIGN next(y) := case y < 3 : y + 1; TRUE : 0; esac;\nINVARSPEC y >= 0\n";

const WRAPPING: &str =
    "MODULE main\nVAR w : unsigned word[8];\nASSIGN init(w) := 0ud8_255; next(w) := w + 0ud8_1;\nINVARSPEC w != 0ud8_0\n";

const WIDE: &str =
    "MODULE main\nVAR w : unsigned word[64];\nASSIGN init(w) := 0ud64_0; next(w) := w;\nINVARSPEC w = 0ud64_0\n";

// Three sets of states, each of which comes again and again.
const MODULO: &str =
    "MODULE main\nVAR c : 0..2;\nASSIGN init(c) := 0; next(c) := (c + 1) mod 3;\nJUSTICE c in {0, 2}\nJUSTICE c in {0, 1}\nJUSTICE c in {1, 2}\nLTLSPEC FALSE\n";

const INVARIANT: &str = "-- spec 1 INVARSPEC is true\n";

const CASES: [Case; 24] = [
    (
        "check",
        "MODULE main\nVAR x : boolean; y : 0..1;\nASSIGN next(y) := case x : 0; esac;\n",
        "-- refused 601 CaseOpen at 3:19: x = FALSE\n",
        3,
    ),
    (
        "check",
        LEAVING,
        "-- refused 602 OutOfRange at 3:19: y = 3\n",
        3,
    ),
    ("check", GOING_ROUND, INVARIANT, 0),
    (
        "flat",
        GOING_ROUND,
        "-- slot 0 state y : 0..3\n-- item 0 next at 3:8 of main\n",
        0,
    ),
    (
        "check",
        "MODULE main\nINVARSPEC -7 / 5 = -1 & -7 mod 5 = -2\n",
        INVARIANT,
        0,
    ),
    (
        "check",
        WRAPPING,
        "-- spec 1 INVARSPEC is false\n--@ spec 1\n--@ state 0: w = 0ud8_255\n--@ state 1: w = 0ud8_0\n",
        1,
    ),
    ("check", WIDE, INVARIANT, 0),
    (
        "check --bound 3",
        MODULO,
        "-- spec 1 LTLSPEC is false\n--@ spec 1\n--@ state 0: c = 0\n--@ state 1: c = 1\n--@ state 2: c = 2\n--@ loop 0\n",
        1,
    ),
    (
        "check",
        "MODULE main\nVAR a : 0..3;\nINVARSPEC a-1 = 0\n",
        "-- refused 304 UnknownName at 3:11: a-1\n",
        3,
    ),
    (
        "check",
        "MODULE main\nVAR w : word[129];\n",
        "-- refused 402 WordWidth at 2:14: 129\n",
        3,
    ),
    ("check", "MODULE main\nVAR w : word[65];\n", "", 0),
    (
        "check",
        "MODULE main\nINVARSPEC 0uh128_ffffffffffffffffffffffffffffffff + 0uh128_1 = 0uh128_0\n",
        INVARIANT,
        0,
    ),
    // A definition is judged where it is used; one that is not used does no harm.
    (
        "check",
        "MODULE main\nVAR i : 0..2;\nDEFINE d := 4 / i;\nINVARSPEC d > 1\n",
        "-- refused 604 DivisorZero at 3:15: i = 0\n",
        3,
    ),
    (
        "check",
        "MODULE main\nVAR i : 0..2;\nDEFINE d := 4 / i;\n",
        "",
        0,
    ),
    // An item is judged without a specification, too.
    (
        "check",
        "MODULE main\nVAR y : 0..3;\nASSIGN next(y) := y + 1;\n",
        "-- refused 602 OutOfRange at 3:19: y = 3\n",
        3,
    ),
    (
        "check --conflicts 0",
        "MODULE main\nVAR y : 0..3;\nASSIGN next(y) := y + 1;\n",
        "",
        2,
    ),
    (
        "check --conflicts 0",
        LEAVING,
        "-- spec 1 INVARSPEC is unknown: conflicts 0 of 0 while preparing\n",
        2,
    ),
    (
        "check",
        "MODULE main\nINVARSPEC (0sb4_1010 >> 1) = 0sb4_1101\n",
        INVARIANT,
        0,
    ),
    (
        "check",
        "MODULE main\nINVARSPEC 0sb4_1000 / 0sb4_1111 = 0sb4_1000\n",
        INVARIANT,
        0,
    ),
    (
        "check",
        "MODULE main\nVAR n : 0..5;\nINVARSPEC (0ub4_1010 >> n) != 0ub4_1111\n",
        "-- refused 605 ShiftTooFar at 3:22: n = 5\n",
        3,
    ),
    // An item that faults where no run comes is refused too, and one of the next state.
    (
        "check",
        "MODULE main\nVAR y : 0..3;\nASSIGN init(y) := 1; next(y) := y;\nTRANS 1 / next(y) = 1\nINVARSPEC y = 1\n",
        "-- refused 604 DivisorZero at 4:9: next(y) = 0\n",
        3,
    ),
    // A set is each of its members.
    (
        "check",
        "MODULE main\nVAR s : {idle, busy, done};\nASSIGN init(s) := idle; next(s) := case s = idle : {idle, busy}; s = busy : {busy, done}; TRUE : idle; esac;\nINVARSPEC s != done\n",
        "-- spec 1 INVARSPEC is false\n--@ spec 1\n--@ state 0: s = idle\n--@ state 1: s = busy\n--@ state 2: s = done\n",
        1,
    ),
    (
        "check",
        "MODULE main\nVAR x : boolean;\nLTLSPEC G (x = 3)\n",
        "-- refused 401 TypeMismatch at 3:14\n",
        3,
    ),
    // An input of a formula.
    (
        "check",
        "MODULE main\nIVAR i : {low, high};\nVAR n : 0..1;\nASSIGN init(n) := 0; next(n) := i = high ? 1 : 0;\nLTLSPEC G (i = high -> X n = 1)\nLTLSPEC G F i = low\n",
        "-- spec 1 LTLSPEC is true\n-- spec 2 LTLSPEC is false\n--@ spec 2\n--@ state 0: n = 0\n--@ input 0: i = high\n--@ state 1: n = 1\n--@ input 1: i = high\n--@ loop 1\n",
        1,
    ),
];

#[test]
fn values(rt: HostRuntime) -> Result<(), Fail> {
    let wrong = first_wrong(&rt, rt.alloc(), &CASES)?;
    assert_eq!(rt; wrong, None);
    Ok(())
}

// A construct a row: a specification that is true just where it means what docs/LANGUAGE.md says, and one that is
// false.
const CONSTRUCTS: [Case; 15] = [
    // The examples of its table of operators.
    (
        "check",
        "MODULE main\nINVARSPEC (0ub2_10 xor 0ub2_11) = 0ub2_01\nINVARSPEC 0ud8_1 != 0ud8_2\nINVARSPEC 0ud8_200 > 0ud8_100\nINVARSPEC 0sd8_200 < 0sd8_100\nINVARSPEC 0ud8_200 + 0ud8_100 = 0ud8_44\nINVARSPEC -7 / 2 = -3\nINVARSPEC 0ub4_0110 << 2 = 0ub4_1000\nINVARSPEC 0sb4_1010 >> 1 = 0sb4_1101\nINVARSPEC 0ub1_1 :: 0ub2_00 = 0ub3_100\nINVARSPEC 0ub4_1100[3:1] = 0ub3_110\nINVARSPEC 5 in 4..5 union 1\nINVARSPEC (0 > 1 ? 2 : 3) = 3\nINVARSPEC abs(-2) = 2\nINVARSPEC max(-2, 1) = 1\nINVARSPEC min(-2, 1) = -2\nINVARSPEC count(TRUE, FALSE, TRUE) = 2\nINVARSPEC word1(TRUE) = 0ud1_1\nINVARSPEC bool(0ud1_1) = TRUE\nINVARSPEC signed(0ud2_3) = 0sd2_3\nINVARSPEC unsigned(0sd2_3) = 0ud2_3\nINVARSPEC extend(0ub2_10, 1) = 0ub3_010\nINVARSPEC extend(0sb2_10, 1) = 0sb3_110\nINVARSPEC resize(0ub3_110, 2) = 0ub2_10\nINVARSPEC resize(0sb2_10, 3) = 0sb3_110\nINVARSPEC sizeof(0ud5_1) = 5\nINVARSPEC uwconst(5, 4) = 0ub4_0101\nINVARSPEC swconst(-3, 4) = 0sb4_1101\n",
        "-- spec 1 INVARSPEC is true\n-- spec 2 INVARSPEC is true\n-- spec 3 INVARSPEC is true\n-- spec 4 INVARSPEC is true\n-- spec 5 INVARSPEC is true\n-- spec 6 INVARSPEC is true\n-- spec 7 INVARSPEC is true\n-- spec 8 INVARSPEC is true\n-- spec 9 INVARSPEC is true\n-- spec 10 INVARSPEC is true\n-- spec 11 INVARSPEC is true\n-- spec 12 INVARSPEC is true\n-- spec 13 INVARSPEC is true\n-- spec 14 INVARSPEC is true\n-- spec 15 INVARSPEC is true\n-- spec 16 INVARSPEC is true\n-- spec 17 INVARSPEC is true\n-- spec 18 INVARSPEC is true\n-- spec 19 INVARSPEC is true\n-- spec 20 INVARSPEC is true\n-- spec 21 INVARSPEC is true\n-- spec 22 INVARSPEC is true\n-- spec 23 INVARSPEC is true\n-- spec 24 INVARSPEC is true\n-- spec 25 INVARSPEC is true\n-- spec 26 INVARSPEC is true\n-- spec 27 INVARSPEC is true\n",
        0,
    ),
    // A symbol of no type is a value all the same.
    (
        "check",
        "MODULE main\nCONSTANTS on, off;\nVAR c : boolean;\nDEFINE s := c ? on : off;\nINVARSPEC s = on <-> c\nINVARSPEC s = off\n",
        "-- spec 1 INVARSPEC is true\n-- spec 2 INVARSPEC is false\n--@ spec 2\n--@ state 0: c = TRUE\n",
        1,
    ),
    // A frozen variable is what it was at first.
    (
        "check",
        "MODULE main\nFROZENVAR limit : {low, high};\nVAR n : {low, high};\nASSIGN init(n) := limit; next(n) := n;\nINVARSPEC n = limit\nINVARSPEC limit = low\n",
        "-- spec 1 INVARSPEC is true\n-- spec 2 INVARSPEC is false\n--@ spec 2\n--@ state 0: limit = high, n = high\n",
        1,
    ),
    // The first index chooses an array, the second its element.
    (
        "check",
        "MODULE main\nVAR i : 0..1; a : array 0..1 of array 1..2 of 1..4;\nASSIGN a[0][1] := 1; a[0][2] := 2; a[1][1] := 3; a[1][2] := 4;\nINVARSPEC a[i][2] = 2 * i + 2\nINVARSPEC a[1][i + 1] = 3\n",
        "-- spec 1 INVARSPEC is true\n-- spec 2 INVARSPEC is false\n--@ spec 2\n--@ state 0: i = 1, a[0][1] = 1, a[0][2] = 2, a[1][1] = 3, a[1][2] = 4\n",
        1,
    ),
    (
        "check",
        "MODULE main\nVAR x : 0..7;\nASSIGN x := 1 union {4, 5};\nINVARSPEC x in 4..5 union 1\nINVARSPEC x in {1, 4}\n",
        "-- spec 1 INVARSPEC is true\n-- spec 2 INVARSPEC is false\n--@ spec 2\n--@ state 0: x = 5\n",
        1,
    ),
    // The left word has the high bits.
    (
        "check",
        "MODULE main\nVAR a : word[1]; b : word[2];\nINVARSPEC (a :: b)[2:2] = a & (a :: b)[1:0] = b & 0ub1_1 :: 0ub2_00 = 0ub3_100\nINVARSPEC a :: b != 0ub3_100\n",
        "-- spec 1 INVARSPEC is true\n-- spec 2 INVARSPEC is false\n--@ spec 2\n--@ state 0: a = 0ud1_1, b = 0ud2_0\n",
        1,
    ),
    (
        "check",
        "MODULE main\nVAR w : word[4];\nDEFINE s := signed(w);\nINVARSPEC w << 1 = w + w & w >> 1 = w / 0ud4_2 & s >> 4 = (s < 0sd4_0 ? 0sd4_15 : 0sd4_0) & 0sb4_1010 >> 1 = 0sb4_1101\nINVARSPEC s >> 1 = 0sd4_15 -> s = 0sd4_15\n",
        "-- spec 1 INVARSPEC is true\n-- spec 2 INVARSPEC is false\n--@ spec 2\n--@ state 0: w = 0ud4_14\n",
        1,
    ),
    (
        "check",
        "MODULE main\nVAR w : word[2];\nDEFINE s := signed(w);\nINVARSPEC extend(w, 1) = 0ub1_0 :: w & unsigned(extend(s, 1)) = w[1:1] :: w & extend(0sb2_10, 1) = 0sb3_110\nINVARSPEC extend(s, 1) != 0sd3_7\n",
        "-- spec 1 INVARSPEC is true\n-- spec 2 INVARSPEC is false\n--@ spec 2\n--@ state 0: w = 0ud2_3\n",
        1,
    ),
    (
        "check",
        "MODULE main\nVAR w : word[3];\nDEFINE s := signed(w);\nINVARSPEC resize(w, 2) = w[1:0] & resize(w, 5) = extend(w, 2) & resize(s, 5) = extend(s, 2) & resize(0ub3_110, 2) = 0ub2_10\nINVARSPEC resize(w, 4) != 0ud4_6\n",
        "-- spec 1 INVARSPEC is true\n-- spec 2 INVARSPEC is false\n--@ spec 2\n--@ state 0: w = 0ud3_6\n",
        1,
    ),
    (
        "check",
        "MODULE main\nINVARSPEC sizeof(0ud5_1) = 5 & sizeof(0ud5_1 :: 0ud5_1) = 10\nINVARSPEC sizeof(0ud5_7[3:2]) = 4\n",
        "-- spec 1 INVARSPEC is true\n-- spec 2 INVARSPEC is false\n--@ spec 2\n--@ state 0:\n",
        1,
    ),
    (
        "check",
        "MODULE main\nINVARSPEC swconst(-3, 4) = 0sb4_1101 & unsigned(swconst(-1, 2)) = uwconst(3, 2)\nINVARSPEC swconst(-1, 2) > swconst(0, 2)\n",
        "-- spec 1 INVARSPEC is true\n-- spec 2 INVARSPEC is false\n--@ spec 2\n--@ state 0:\n",
        1,
    ),
    (
        "check",
        "MODULE main\nVAR a : boolean; b : boolean; c : boolean;\nINVARSPEC count(a, b, c) = (a ? 1 : 0) + (b ? 1 : 0) + (c ? 1 : 0) & count(TRUE, FALSE, TRUE) = 2\nINVARSPEC count(a, b, c) < 3\n",
        "-- spec 1 INVARSPEC is true\n-- spec 2 INVARSPEC is false\n--@ spec 2\n--@ state 0: a = TRUE, b = TRUE, c = TRUE\n",
        1,
    ),
    (
        "check",
        "MODULE main\nVAR n : -2..2;\nINVARSPEC abs(n) = max(n, -n) & min(n, -n) = -abs(n) & max(-2, 1) = 1 & min(-2, 1) = -2\nINVARSPEC abs(n) + max(n, 1) < 4\n",
        "-- spec 1 INVARSPEC is true\n-- spec 2 INVARSPEC is false\n--@ spec 2\n--@ state 0: n = 2\n",
        1,
    ),
    (
        "check",
        "MODULE main\nVAR b : boolean;\nINVARSPEC word1(b) = (b ? 0ud1_1 : 0ud1_0) & bool(word1(b)) = b\nINVARSPEC word1(b) = 0ud1_0\n",
        "-- spec 1 INVARSPEC is true\n-- spec 2 INVARSPEC is false\n--@ spec 2\n--@ state 0: b = TRUE\n",
        1,
    ),
    // The bits stay, and the highest one counts below 0.
    (
        "check",
        "MODULE main\nVAR w : word[2];\nINVARSPEC (signed(w) < 0sd2_0 <-> w > 0ud2_1) & unsigned(signed(w)) = w & signed(0ud2_3) = swconst(-1, 2)\nINVARSPEC signed(w) != 0sd2_3\n",
        "-- spec 1 INVARSPEC is true\n-- spec 2 INVARSPEC is false\n--@ spec 2\n--@ state 0: w = 0ud2_3\n",
        1,
    ),
];

#[test]
fn constructs_mean_what_is_said(rt: HostRuntime) -> Result<(), Fail> {
    let wrong = first_wrong(&rt, rt.alloc(), &CONSTRUCTS)?;
    assert_eq!(rt; wrong, None);
    Ok(())
}

const ROUNDS: [Round; 4] = [
    (
        "check --cert",
        GOING_ROUND,
        "-- spec 1 INVARSPEC is shown true\n",
        0,
    ),
    (
        "check",
        GOING_ROUND,
        "-- spec 1 INVARSPEC has nothing shown\n",
        2,
    ),
    (
        "check --cert",
        WRAPPING,
        "-- spec 1 INVARSPEC is shown false\n",
        0,
    ),
    (
        "check --cert",
        MODULO,
        "-- spec 1 LTLSPEC is shown false\n",
        0,
    ),
];

#[test]
fn rounds_of_values(rt: HostRuntime) -> Result<(), Fail> {
    let wrong = first_wrong_round(&rt, rt.alloc(), &ROUNDS)?;
    assert_eq!(rt; wrong, None);
    Ok(())
}
