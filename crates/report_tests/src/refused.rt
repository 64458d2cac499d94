//! Refusals through the top call, with the examples of docs/LANGUAGE.md: of declared types, of operands and of arrays,
//! at the edges of what is refused, and in the order of the rules. Also each beginning of a source, and the first line
//! of a certificate.
use crate::reports::{Case, first_wrong};
use crate::sources::{definitions, repeated, variables};
use smv_cli::run_over_bytes;
use std::alloc::{AllocError, Global};
use std::sync::Wait;
use std::test::Fail;
use std::thread::Threads;

// Rules that the type of a declaration breaks.
const DECLARED: [Case; 29] = [
    (
        "check",
        "MODULE main\nVAR n : 0..3; x : 0..n;\n",
        "-- refused 404 NotConstant at 2:22\n",
        3,
    ),
    // A width.
    (
        "check",
        "MODULE main\nVAR n : 0..3; w : word[n];\n",
        "-- refused 404 NotConstant at 2:24\n",
        3,
    ),
    // An operator over what is no constant.
    (
        "check",
        "MODULE main\nVAR n : 0..3; x : 0..n + 1;\n",
        "-- refused 404 NotConstant at 2:24\n",
        3,
    ),
    (
        "check",
        "MODULE main\nVAR x : 3..1;\n",
        "-- refused 403 EmptyRange at 2:9\n",
        3,
    ),
    // Of one range, 403 goes before 409, and 404 before 403.
    (
        "check",
        "MODULE main\nVAR x : 2147483647 + 1..0;\n",
        "-- refused 403 EmptyRange at 2:20\n",
        3,
    ),
    (
        "check",
        "MODULE main\nVAR n : 0..3; x : 3..n;\n",
        "-- refused 404 NotConstant at 2:22\n",
        3,
    ),
    ("check", "MODULE main\nVAR x : 1..1;\n", "", 0),
    (
        "check",
        "MODULE main\nVAR w : word[0];\n",
        "-- refused 402 WordWidth at 2:14: 0\n",
        3,
    ),
    (
        "check",
        "MODULE main\nVAR w : signed word[-1];\n",
        "-- refused 402 WordWidth at 2:21: -1\n",
        3,
    ),
    // A width is told, whatever its size.
    (
        "check",
        "MODULE main\nVAR w : word[2147483647 * 2147483647 * 2147483647];\n",
        "-- refused 402 WordWidth at 2:38: 9903520300447984150353281023\n",
        3,
    ),
    (
        "check",
        "MODULE main\nDEFINE m := 2147483647;\nVAR w : word[m * m * m * m * m];\n",
        "-- refused 402 WordWidth at 3:28: 45671926060252476630107084286792841360213803007\n",
        3,
    ),
    ("check", "MODULE main\nVAR w : word[64 + 64];\n", "", 0),
    (
        "check",
        "MODULE main\nVAR x : {1, 01};\n",
        "-- refused 410 DuplicateElement at 2:13: 01\n",
        3,
    ),
    (
        "check",
        "MODULE main\nVAR x : {a, b, -2, a, b};\n",
        "-- refused 410 DuplicateElement at 2:20: a\n",
        3,
    ),
    ("check", "MODULE main\nVAR x : {1, -1, a};\n", "", 0),
    (
        "check",
        "MODULE main\nVAR x : 0..2147483647 + 1;\n",
        "-- refused 409 IntWidth at 2:23\n",
        3,
    ),
    (
        "check",
        "MODULE main\nVAR x : -2147483647 - 2..0;\n",
        "-- refused 409 IntWidth at 2:21\n",
        3,
    ),
    // The least integer; between the ends of a limit its numbers may be of any size.
    (
        "flat",
        "MODULE main\nVAR x : -2147483647 - 1..2147483647 * 3 / 3;\n",
        "-- slot 0 state x : -2147483648..2147483647\n",
        0,
    ),
    (
        "flat",
        "MODULE main\nDEFINE m := 2147483647;\nVAR x : 0..m * m * m * 3 mod 7;\n",
        "-- slot 0 state x : 0..3\n",
        0,
    ),
    (
        "check",
        "MODULE main\nDEFINE m := 2147483647;\nVAR x : m * m * m..0;\n",
        "-- refused 403 EmptyRange at 3:15\n",
        3,
    ),
    (
        "flat",
        "MODULE main\nDEFINE m := 2147483647; p := m * m * m * m * m;\nVAR x : 0..p / p;\n",
        "-- slot 0 state x : 0..1\n",
        0,
    ),
    // A quotient is rounded toward zero, and a remainder has the sign of the first.
    (
        "flat",
        "MODULE main\nDEFINE m := 2147483647; p := m * m * m * m * m;\nVAR x : (1 - p) / (p / m)..(p - 1) / (p / m);\n",
        "-- slot 0 state x : -2147483646..2147483646\n",
        0,
    ),
    (
        "flat",
        "MODULE main\nDEFINE m := 2147483647; p := m * m * m * m * m;\nVAR x : -p mod 65536..p mod -65536;\n",
        "-- slot 0 state x : -65535..65535\n",
        0,
    ),
    (
        "check",
        "MODULE main\nDEFINE m := 2147483647; p := m * m * m * m * m;\nVAR x : 0..-p;\n",
        "-- refused 403 EmptyRange at 3:9\n",
        3,
    ),
    (
        "check",
        "MODULE main\nDEFINE m := 2147483647; p := m * m * m * m * m;\nVAR x : -p..0;\n",
        "-- refused 409 IntWidth at 3:9\n",
        3,
    ),
    (
        "check",
        "MODULE main\nDEFINE m := 2147483647; p := m * m * m * m * m;\nVAR x : 0..p / (p - p);\n",
        "-- refused 404 NotConstant at 3:14\n",
        3,
    ),
    // They are judged declaration by declaration.
    (
        "check",
        "MODULE main\nVAR x : {a, a}; y : 3..1;\n",
        "-- refused 410 DuplicateElement at 2:13: a\n",
        3,
    ),
    (
        "check",
        "MODULE main\nVAR y : 3..1; x : {a, a};\n",
        "-- refused 403 EmptyRange at 2:9\n",
        3,
    ),
    // And before all items.
    (
        "check",
        "MODULE main\nINIT x & TRUE\nVAR x : 0..2147483647 + 1;\n",
        "-- refused 409 IntWidth at 3:23\n",
        3,
    ),
];

// Rules that an operator and its operands break.
const OPERANDS: [Case; 39] = [
    (
        "check",
        "MODULE main\nVAR x : 0..3;\nINIT x & TRUE\n",
        "-- refused 401 TypeMismatch at 3:8\n",
        3,
    ),
    (
        "check",
        "MODULE main\nVAR x : 0..3;\nINIT x = {0, 1}\n",
        "-- refused 405 SetHere at 3:10\n",
        3,
    ),
    (
        "check",
        "MODULE main\nVAR x : 0..3;\nINVARSPEC x = 1..2\n",
        "-- refused 405 SetHere at 3:16\n",
        3,
    ),
    (
        "check",
        "MODULE main\nVAR x : 0..3;\nTRANS next(x) = (x union 0)\n",
        "-- refused 405 SetHere at 3:20\n",
        3,
    ),
    // A definition is judged where an item leads to it.
    (
        "check",
        "MODULE main\nVAR x : 0..3;\nDEFINE d := {0, 1};\nINIT x = d\n",
        "-- refused 405 SetHere at 3:13\n",
        3,
    ),
    (
        "check",
        "MODULE main\nVAR x : 0..3;\nDEFINE d := {0, 1};\nASSIGN init(x) := d;\nINIT x in d\n",
        "",
        0,
    ),
    (
        "check",
        "MODULE main\nVAR w : word[2];\nINIT w = uwconst(4, 2)\n",
        "-- refused 402 WordWidth at 3:10\n",
        3,
    ),
    (
        "check",
        "MODULE main\nVAR w : signed word[2];\nINIT w = swconst(2, 2)\n",
        "-- refused 402 WordWidth at 3:10\n",
        3,
    ),
    (
        "check",
        "MODULE main\nINIT swconst(-2, 2) = swconst(1, 2) & uwconst(3, 2) = 0ud2_3\n",
        "",
        0,
    ),
    // Of a signed word bits would be lost.
    (
        "check",
        "MODULE main\nVAR w : signed word[4];\nINIT resize(w, 3) = 0sd3_0\n",
        "-- refused 402 WordWidth at 3:6\n",
        3,
    ),
    (
        "check",
        "MODULE main\nVAR w : word[4];\nINIT resize(w, 0) = 0ud3_0\n",
        "-- refused 402 WordWidth at 3:6\n",
        3,
    ),
    (
        "check",
        "MODULE main\nVAR w : word[4];\nINIT extend(w, 125) = extend(w, 125)\n",
        "-- refused 402 WordWidth at 3:6\n",
        3,
    ),
    (
        "check",
        "MODULE main\nVAR v : word[100]; w : word[29];\nINIT v :: w = v :: w\n",
        "-- refused 402 WordWidth at 3:8\n",
        3,
    ),
    (
        "check",
        "MODULE main\nVAR n : 0..3; w : word[2];\nINIT extend(w, n) = 0ud4_0\n",
        "-- refused 404 NotConstant at 3:6\n",
        3,
    ),
    (
        "check",
        "MODULE main\nVAR n : 0..3;\nINIT uwconst(n, 2) = 0ud2_0\n",
        "-- refused 404 NotConstant at 3:6\n",
        3,
    ),
    (
        "check",
        "MODULE main\nVAR n : 0..1; w : word[2];\nINIT w[n:0] = 0ud1_0\n",
        "-- refused 404 NotConstant at 3:7\n",
        3,
    ),
    // A definition of a constant is a constant.
    (
        "check",
        "MODULE main\nVAR w : word[2];\nDEFINE n := 3 - 2;\nINIT w[n:n - 1] = w & extend(w, n) = 0ud3_0\n",
        "",
        0,
    ),
    (
        "check",
        "MODULE main\nVAR w : word[2];\nINIT w[2:0] = 0ud3_0\n",
        "-- refused 412 BadSelection at 3:7\n",
        3,
    ),
    (
        "check",
        "MODULE main\nVAR w : word[2];\nINIT w[0:1] = 0ud2_0\n",
        "-- refused 412 BadSelection at 3:7\n",
        3,
    ),
    (
        "check",
        "MODULE main\nVAR w : word[2];\nINIT w[0:-1] = 0ud2_0\n",
        "-- refused 412 BadSelection at 3:7\n",
        3,
    ),
    (
        "check",
        "MODULE main\nVAR w : word[2];\nINIT w[1:0] = w & w[1:1] = 0ud1_0\n",
        "",
        0,
    ),
    (
        "check",
        "MODULE main\nVAR x : boolean;\nLTLSPEC G F [2,1] x\n",
        "-- refused 413 BadBound at 3:11: 2,1\n",
        3,
    ),
    (
        "check",
        "MODULE main\nVAR x : boolean;\nLTLSPEC O [0,256] x\n",
        "-- refused 413 BadBound at 3:9: 0,256\n",
        3,
    ),
    // What the operator stands over comes before its bounds.
    (
        "check",
        "MODULE main\nVAR n : 0..3;\nLTLSPEC F [-1,2] n\n",
        "-- refused 401 TypeMismatch at 3:9\n",
        3,
    ),
    (
        "check",
        "MODULE main\nVAR n : 0..3;\nLTLSPEC F [n,2] n\n",
        "-- refused 401 TypeMismatch at 3:9\n",
        3,
    ),
    (
        "check",
        "MODULE main\nVAR x : 0..65536;\nINIT x * x = 0\n",
        "-- refused 409 IntWidth at 3:8\n",
        3,
    ),
    (
        "check",
        "MODULE main\nVAR x : 0..65536;\nINIT x * x\n",
        "-- refused 401 TypeMismatch at 3:8\n",
        3,
    ),
    (
        "check",
        "MODULE main\nVAR w : word[8];\nINIT w[9:0]\n",
        "-- refused 401 TypeMismatch at 3:7\n",
        3,
    ),
    (
        "check",
        "MODULE main\nVAR x : boolean; w : word[2];\nLTLSPEC w[x:0]\n",
        "-- refused 401 TypeMismatch at 3:10\n",
        3,
    ),
    (
        "check",
        "MODULE main\nVAR x : boolean;\nLTLSPEC F [x,2] x\n",
        "-- refused 404 NotConstant at 3:9\n",
        3,
    ),
    (
        "check",
        "MODULE main\nVAR x : 0..46340;\nINIT x * x >= 0\n",
        "",
        0,
    ),
    (
        "check",
        "MODULE main\nVAR x : 0..1;\nINIT 2147483647 + x > 0\n",
        "-- refused 409 IntWidth at 3:17\n",
        3,
    ),
    (
        "check",
        "MODULE main\nVAR x : 0..2;\nINIT -2147483647 - x < 0\n",
        "-- refused 409 IntWidth at 3:18\n",
        3,
    ),
    (
        "check",
        "MODULE main\nVAR x : -2147483647 - 1..0;\nINIT abs(x) > 0\n",
        "-- refused 409 IntWidth at 3:6\n",
        3,
    ),
    (
        "check",
        "MODULE main\nVAR x : -2147483647 - 1..0;\nINIT -x > 0\n",
        "-- refused 409 IntWidth at 3:6\n",
        3,
    ),
    // Of a quotient the interval is as far to both sides as that of what is divided.
    (
        "check",
        "MODULE main\nVAR x : -2147483647 - 1..0;\nINIT x / 2 < 1\n",
        "-- refused 409 IntWidth at 3:8\n",
        3,
    ),
    (
        "check",
        "MODULE main\nVAR x : -2147483647..0;\nINIT x / -1 >= 0\n",
        "",
        0,
    ),
    // Operands are judged from left to right, and then the operator.
    (
        "check",
        "MODULE main\nVAR w : word[2]; x : 0..65536;\nINIT w[2:0] = 0ud3_0 & x * x\n",
        "-- refused 412 BadSelection at 3:7\n",
        3,
    ),
    (
        "check",
        "MODULE main\nVAR w : word[2]; x : 0..65536;\nINIT x * x & w[2:0] = 0ud3_0\n",
        "-- refused 409 IntWidth at 3:8\n",
        3,
    ),
];

// Arrays: those of inputs, bounds of temporal operators, roots, and what is assigned.
const ARRAYS: [Case; 25] = [
    // The name of an input array comes before its indices, wherever they lead.
    (
        "check",
        "MODULE main\nIVAR va : array 0..3 of boolean;\nJUSTICE va[7]\n",
        "-- refused 407 InputHere at 3:9\n",
        3,
    ),
    (
        "check",
        "MODULE main\nIVAR va : array 0..3 of boolean;\nVAR i : 0..3;\nINIT va[next(i)]\n",
        "-- refused 407 InputHere at 4:6\n",
        3,
    ),
    (
        "check",
        "MODULE main\nIVAR va : array 0..3 of boolean;\nINIT va = 1\n",
        "-- refused 407 InputHere at 3:6\n",
        3,
    ),
    (
        "check",
        "MODULE main\nIVAR va : array 0..1 of array 0..1 of boolean;\nVAR b : boolean;\nINVAR b & va[0][TRUE]\n",
        "-- refused 407 InputHere at 4:11\n",
        3,
    ),
    (
        "check",
        "MODULE main\nIVAR va : array 0..3 of boolean;\nVAR k : m(va);\nMODULE m(p)\nINIT p[9]\n",
        "-- refused 407 InputHere at 3:11\n",
        3,
    ),
    // Bounds are judged by no other rule.
    (
        "check",
        "MODULE main\nVAR x : boolean;\nDEFINE s := {1};\nLTLSPEC F [s, 2] x\n",
        "-- refused 404 NotConstant at 4:9\n",
        3,
    ),
    (
        "check",
        "MODULE main\nVAR x : boolean;\nLTLSPEC F [-1, 0] x\n",
        "-- refused 413 BadBound at 3:9: -1,0\n",
        3,
    ),
    // They are whole numbers, whatever their parts are.
    (
        "check",
        "MODULE main\nVAR x : boolean;\nLTLSPEC F [2147483647 * 4, 0] x\n",
        "-- refused 413 BadBound at 3:9: 8589934588,0\n",
        3,
    ),
    (
        "check",
        "MODULE main\nVAR x : boolean;\nLTLSPEC H [2147483647 * 4 / 2147483647, 0] x\n",
        "-- refused 413 BadBound at 3:9: 4,0\n",
        3,
    ),
    (
        "check",
        "MODULE main\nVAR x : boolean;\nDEFINE m := 2147483647;\nLTLSPEC F [0, m * m * m * m * m] x\n",
        "-- refused 413 BadBound at 4:9: 0,45671926060252476630107084286792841360213803007\n",
        3,
    ),
    (
        "check",
        "MODULE main\nVAR x : boolean;\nDEFINE s := {1};\nLTLSPEC F [s, 1] next(x)\n",
        "-- refused 406 NextHere at 4:18\n",
        3,
    ),
    // A root that is an element stands at its last `[`.
    (
        "check",
        "MODULE main\nVAR c : array 0..1 of array 0..1 of 0..3;\nINIT c[0][1]\n",
        "-- refused 401 TypeMismatch at 3:10\n",
        3,
    ),
    (
        "check",
        "MODULE main\nVAR c : array 0..1 of array 0..1 of 0..3; i : 0..1;\nINIT c[i][i]\n",
        "-- refused 401 TypeMismatch at 3:10\n",
        3,
    ),
    (
        "check",
        "MODULE main\nVAR c : array 0..1 of array 0..1 of 0..3; k : m(c[0]);\nMODULE m(p)\nINVAR p[1]\n",
        "-- refused 401 TypeMismatch at 4:8\n",
        3,
    ),
    // On the left side each index is judged in turn.
    (
        "check",
        "MODULE main\nVAR c : array 0..1 of array 0..1 of 0..3; i : 0..1;\nASSIGN init(c[i][TRUE]) := 0;\n",
        "-- refused 404 NotConstant at 3:14\n",
        3,
    ),
    (
        "check",
        "MODULE main\nVAR c : array 0..1 of array 0..1 of 0..3;\nASSIGN init(c[7]) := 0;\n",
        "-- refused 412 BadSelection at 3:14\n",
        3,
    ),
    (
        "check",
        "MODULE main\nVAR c : array 0..1 of array 0..1 of 0..3; i : 0..1;\nASSIGN init(c[i]) := 0;\n",
        "-- refused 404 NotConstant at 3:14\n",
        3,
    ),
    (
        "check",
        "MODULE main\nVAR c : array 0..1 of array 0..1 of 0..3;\nASSIGN init(c[1]) := 0;\n",
        "-- refused 401 TypeMismatch at 3:8\n",
        3,
    ),
    (
        "check",
        "MODULE main\nVAR c : array 0..1 of array 0..1 of 0..3;\nASSIGN init(c[0][2][TRUE]) := 0;\n",
        "-- refused 412 BadSelection at 3:17\n",
        3,
    ),
    (
        "check",
        "MODULE main\nVAR c : array 0..1 of array 0..1 of 0..3;\nDEFINE d := c[0][{0}];\nASSIGN init(d[0]) := 0;\n",
        "-- refused 405 SetHere at 3:18\n",
        3,
    ),
    // What a parameter was given is judged as it was given.
    (
        "check",
        "MODULE main\nVAR c : array 0..1 of array 0..1 of 0..3; i : 0..1; k : m(c[i]);\nMODULE m(p)\nASSIGN init(p[1]) := 0;\n",
        "-- refused 411 NotAssignable at 4:8\n",
        3,
    ),
    (
        "check",
        "MODULE main\nVAR c : array 0..1 of array 0..1 of 0..3; k : m(c[7]);\nMODULE m(p)\nASSIGN init(p[1]) := 0;\n",
        "-- refused 411 NotAssignable at 4:8\n",
        3,
    ),
    (
        "check",
        "MODULE main\nVAR c : array 0..1 of array 0..1 of 0..3; k : m(c[7]);\nMODULE m(p)\nASSIGN init(p[2]) := 0;\n",
        "-- refused 412 BadSelection at 4:14\n",
        3,
    ),
    (
        "check",
        "MODULE main\nVAR c : array 0..1 of array 0..1 of 0..3; k : m(c[{0}]);\nMODULE m(p)\nASSIGN init(p[1]) := 0;\n",
        "-- refused 401 TypeMismatch at 2:50\n",
        3,
    ),
    (
        "check",
        "MODULE main\nVAR c : array 0..1 of array 0..1 of 0..3; k : m(c[1]);\nMODULE m(p)\nASSIGN init(p[1]) := 0;\n",
        "",
        0,
    ),
];

// Examples of rules on modules, definitions and instances, and of items that fault.
const EXAMPLES: [Case; 11] = [
    (
        "check",
        "MODULE main MODULE main",
        "-- refused 303 DuplicateModule at 1:13: main\n",
        3,
    ),
    (
        "check",
        "MODULE main(a)",
        "-- refused 302 MainHasParameters at 1:13\n",
        3,
    ),
    (
        "check",
        "MODULE m(a) MODULE main VAR x : m;",
        "-- refused 307 ArgumentCount at 1:33: m\n",
        3,
    ),
    (
        "check",
        "MODULE main\nDEFINE d := d;\n",
        "-- refused 309 DefineCycle at 2:8: d\n",
        3,
    ),
    (
        "check",
        "MODULE m MODULE main IVAR x : m;",
        "-- refused 401 TypeMismatch at 1:31\n",
        3,
    ),
    (
        "check",
        "MODULE main\nVAR x : boolean;\nASSIGN x := TRUE; init(x) := TRUE;\n",
        "-- refused 501 AssignedTwice at 3:19: x\n",
        3,
    ),
    // These have no specification; an item that ever faults is refused all the same.
    (
        "check",
        "MODULE main\nVAR x : boolean;\nASSIGN next(x) := case x : FALSE; esac;\n",
        "-- refused 601 CaseOpen at 3:19: x = FALSE\n",
        3,
    ),
    (
        "check",
        "MODULE main\nVAR x : 0..3;\nASSIGN next(x) := x + 1;\n",
        "-- refused 602 OutOfRange at 3:19: x = 3\n",
        3,
    ),
    (
        "check",
        "MODULE main\nVAR i : 0..2; a : array 0..1 of boolean;\nINVAR a[i]\n",
        "-- refused 603 IndexOutside at 3:8: i = 2, a[0] = FALSE, a[1] = FALSE\n",
        3,
    ),
    (
        "check",
        "MODULE main\nVAR x : 0..1;\nINVAR 1 / x = 1\n",
        "-- refused 604 DivisorZero at 3:9: x = 0\n",
        3,
    ),
    (
        "check",
        "MODULE main\nVAR n : 0..2;\nINIT 0ub1_1 << n = 0ub1_0\n",
        "-- refused 605 ShiftTooFar at 3:13: n = 2\n",
        3,
    ),
];

#[test]
fn declared_types_are_judged(rt: HostRuntime) -> Result<(), Fail> {
    let wrong = first_wrong(&rt, rt.alloc(), &DECLARED)?;
    assert_eq!(rt; wrong, None);
    Ok(())
}

#[test]
fn operands_are_judged(rt: HostRuntime) -> Result<(), Fail> {
    let wrong = first_wrong(&rt, rt.alloc(), &OPERANDS)?;
    assert_eq!(rt; wrong, None);
    Ok(())
}

#[test]
fn examples_are_refused(rt: HostRuntime) -> Result<(), Fail> {
    let wrong = first_wrong(&rt, rt.alloc(), &EXAMPLES)?;
    assert_eq!(rt; wrong, None);
    Ok(())
}

#[test]
fn arrays_are_judged(rt: HostRuntime) -> Result<(), Fail> {
    let wrong = first_wrong(&rt, rt.alloc(), &ARRAYS)?;
    assert_eq!(rt; wrong, None);
    Ok(())
}

// Three texts, the second of which is written this often; what `check` prints of all; and the status.
type Nested = (
    &'static str,
    &'static str,
    usize,
    &'static str,
    &'static str,
    u8,
);

const REPEATED: [Nested; 4] = [
    (
        "MODULE main\nINIT ",
        "!",
        257,
        "TRUE\n",
        "-- refused 202 TooDeep at 2:262\n",
        3,
    ),
    ("MODULE main\nINIT ", "!", 256, "TRUE\n", "", 0),
    (
        "MODULE main\nINVARSPEC ",
        "(",
        257,
        "",
        "-- refused 202 TooDeep at 2:267\n",
        3,
    ),
    // So many indices in a row are answered as out of memory.
    (
        "MODULE main\nVAR x : array 0..1 of boolean;\nASSIGN x",
        "[0]",
        100_000,
        " := TRUE;\n",
        "",
        7,
    ),
];

// Whether `check` prints this of a text and answers this status.
fn is_answered<R: Threads + Wait + Sync>(
    rt: &R,
    alloc: Global,
    text: String,
    want: &str,
    want_status: u8,
) -> bool {
    let (status, printed) = run_over_bytes(rt, alloc, &["check"], text.into_bytes());
    status == want_status && printed.as_slice() == want.as_bytes()
}

// The first text that is answered otherwise.
fn wrong_repeated<R: Threads + Wait + Sync>(
    rt: &R,
    alloc: Global,
) -> Result<Option<usize>, AllocError> {
    for (row, (before, piece, times, behind, want, status)) in REPEATED.iter().enumerate() {
        let text = repeated(alloc, before, piece, *times, behind)?;
        if !is_answered(rt, alloc, text, want, *status) {
            return Ok(Some(row));
        }
    }
    Ok(None)
}

#[test]
fn levels_are_counted(rt: HostRuntime) -> Result<(), Fail> {
    let wrong = wrong_repeated(&rt, rt.alloc())?;
    assert_eq!(rt; wrong, None);
    Ok(())
}

// A model of as many definitions, each of which is the next and the last of which is 0, with this behind it.
fn chain(alloc: Global, count: usize, behind: &str) -> Result<String, AllocError> {
    definitions(
        alloc,
        count,
        "MODULE main\nDEFINE\n",
        &["", ""],
        &["0;\n", behind],
    )
}

// How many definitions, what stands behind them, what `check` prints, and the status.
const CHAINED: [(usize, &str, &str, u8); 6] = [
    // On the left side `[` opens a level, and so does the parenthesis of `init(` and `next(`.
    (
        1999,
        "VAR a : array 0..1 of boolean;\nASSIGN a[d1] := TRUE;\n",
        "",
        0,
    ),
    (
        1998,
        "VAR a : array 0..1 of boolean;\nASSIGN init(a[d1]) := TRUE;\n",
        "",
        0,
    ),
    (
        1999,
        "VAR a : array 0..1 of boolean;\nASSIGN init(a[d1]) := TRUE;\n",
        "-- refused 310 UnfoldedDepth at 2003:8\n",
        3,
    ),
    (
        1999,
        "VAR a : array 0..1 of boolean;\nASSIGN next(a[d1]) := TRUE;\n",
        "-- refused 310 UnfoldedDepth at 2003:8\n",
        3,
    ),
    // A type is no item: its constants lead as far as there are names.
    (2001, "VAR x : 0..d1;\n", "", 0),
    (
        2001,
        "VAR x : 0..d1;\nINIT x = d1\n",
        "-- refused 310 UnfoldedDepth at 2005:1\n",
        3,
    ),
];

// The first of them that is answered otherwise.
fn wrong_chain<R: Threads + Wait + Sync>(
    rt: &R,
    alloc: Global,
) -> Result<Option<usize>, AllocError> {
    for (row, (count, behind, want, status)) in CHAINED.iter().enumerate() {
        let text = chain(alloc, *count, behind)?;
        if !is_answered(rt, alloc, text, want, *status) {
            return Ok(Some(row));
        }
    }
    Ok(None)
}

#[test]
fn names_are_levels_of_items_alone(rt: HostRuntime) -> Result<(), Fail> {
    let wrong = wrong_chain(&rt, rt.alloc())?;
    assert_eq!(rt; wrong, None);
    Ok(())
}

// How many words of 128 bits, what stands behind them, what `check` prints, and the status.
const WIDE: [(usize, &str, &str, u8); 3] = [
    (513, "", "-- refused 511 TooManyBits at 1:1\n", 3),
    (512, "", "", 0),
    // The input slots are counted too.
    (
        512,
        "IVAR i : boolean;\n",
        "-- refused 511 TooManyBits at 1:1\n",
        3,
    ),
];

// The first of them that is answered otherwise.
fn wrong_wide<R: Threads + Wait + Sync>(
    rt: &R,
    alloc: Global,
) -> Result<Option<usize>, AllocError> {
    for (row, (count, behind, want, status)) in WIDE.iter().enumerate() {
        let text = variables(alloc, *count, " : word[128];\n", behind)?;
        if !is_answered(rt, alloc, text, want, *status) {
            return Ok(Some(row));
        }
    }
    Ok(None)
}

#[test]
fn bits_are_counted(rt: HostRuntime) -> Result<(), Fail> {
    let wrong = wrong_wide(&rt, rt.alloc())?;
    assert_eq!(rt; wrong, None);
    Ok(())
}

// Fairness, a range, sets and a temporal claim.
const GOING_ROUND: &str =
    "MODULE main\nVAR c : 0..2;\nASSIGN init(c) := 0; next(c) := (c + 1) mod 3;\nJUSTICE c in {0, 2}\nJUSTICE c in {0, 1}\nJUSTICE c in {1, 2}\nLTLSPEC FALSE\n";

// Whether a text is refused with status 3, or judged with status 0 or 1.
fn is_judged<R: Threads + Wait + Sync>(
    rt: &R,
    alloc: Global,
    text: &[u8],
) -> Result<bool, AllocError> {
    let (status, printed) = run_over_bytes(rt, alloc, &["check"], text.to_vec(alloc)?);
    let is_refused = printed.as_slice().starts_with(b"-- refused ");
    Ok(is_refused && status == 3 || !is_refused && status <= 1)
}

// How many bytes the first beginning of a text has that is neither.
fn unjudged_beginning<R: Threads + Wait + Sync>(
    rt: &R,
    alloc: Global,
    text: &[u8],
) -> Result<Option<usize>, AllocError> {
    for n in 0..text.len() {
        if !is_judged(rt, alloc, &text[..n])? {
            return Ok(Some(n));
        }
    }
    Ok(None)
}

#[test]
fn each_beginning_is_judged(rt: HostRuntime) -> Result<(), Fail> {
    let unjudged = unjudged_beginning(&rt, rt.alloc(), GOING_ROUND.as_bytes())?;
    assert_eq!(rt; unjudged, None);
    Ok(())
}

const TOGGLING: &str =
    "MODULE main\nVAR x : boolean;\nASSIGN init(x) := FALSE; next(x) := !x;\nLTLSPEC G F x\n";

// A run that begins with FALSE and TRUE has two signals, and none has three.
const COUNTED: &[u8] = b"-- spec 1 LTLSPEC is true\n--% cert 2 spec 1 counter 2\n";

// The form, the specification and the counter stand in the first line of a certificate.
#[test]
fn certificate_tells_its_counter(rt: HostRuntime) -> Result<(), Fail> {
    let alloc = rt.alloc();
    let text = TOGGLING.as_bytes().to_vec(alloc)?;
    let (status, printed) = run_over_bytes(&rt, alloc, &["check", "--cert"], text);
    assert_eq!(rt; status, 0);
    assert!(rt; printed.as_slice().starts_with(COUNTED));
    Ok(())
}
