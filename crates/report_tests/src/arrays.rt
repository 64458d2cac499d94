//! Arrays and bounds of temporal operators through the top call: refusals, listings, reports, and what is said of
//! reports again.
use crate::reports::{Case, Round, first_wrong, first_wrong_round};
use std::alloc::Global;
use std::test::Fail;

// An array of two dimensions in an instance.
const CHAIN: &str =
    "MODULE chain(first)\nVAR a : array -1..0 of array 0..1 of boolean;\nASSIGN\n  init(a[-1][0]) := first; init(a[-1][1]) := FALSE; init(a[0][0]) := FALSE; init(a[0][1]) := FALSE;\n  next(a[-1][0]) := FALSE; next(a[-1][1]) := a[-1][0]; next(a[0][0]) := a[-1][1]; next(a[0][1]) := a[0][0];\nINVARSPEC !a[0][0]\nMODULE main\nVAR m : chain(TRUE);\n";

// A list whose links are the elements of an array.
const LINKED: &str =
    "MODULE main\nFROZENVAR after : array 0..2 of 0..2;\nVAR i : 0..2;\nASSIGN\n  init(after[0]) := 1; init(after[1]) := 2; init(after[2]) := 0;\n  init(i) := 0; next(i) := after[i];\nINVARSPEC i != 2\nLTLSPEC G F i = 2\n";

// Writes and reads at an address that changes.
const MEMORY: &str =
    "MODULE memory(address, data)\nVAR a : array 0..1 of word[2];\nASSIGN\n  init(a[0]) := 0ud2_0; next(a[0]) := address = 0 ? data : a[0];\n  init(a[1]) := 0ud2_0; next(a[1]) := address = 1 ? data : a[1];\nDEFINE read := a[address];\nMODULE main\nVAR i : 0..1; d : word[2]; m : memory(i, d);\nASSIGN init(i) := 0; next(i) := 1; init(d) := 0ud2_1; next(d) := d = 0ud2_3 ? d : d + 0ud2_1;\nINVARSPEC m.read != 0ud2_2\nINVARSPEC m.a[0] = 0ud2_0 | m.a[0] = 0ud2_1\n";

// An index that is outside only where nothing is read.
const GUARDED: &str =
    "MODULE main\nVAR a : array 0..1 of boolean;\nVAR i : 0..2;\nINVARSPEC i < 2 ? a[i] | !a[i] : TRUE\n";

// A bound that is a parameter.
const BOUNDED: &str =
    "MODULE m(n, y)\nLTLSPEC G F [0, n] y\nMODULE main\nVAR x : boolean; v : m(2 * 2 - 3, x); w : m(0, x);\nASSIGN init(x) := FALSE; next(x) := !x;\n";

// Declared types, and what they count.
const DECLARED: [Case; 20] = [
    // One slot too many, by one array, by the sum of all, and by products that come to 0 in 64 bits.
    (
        "check",
        "MODULE main\nVAR a : array 0..65536 of boolean;\n",
        "-- refused 312 TooManySlots at 1:1\n",
        3,
    ),
    (
        "check",
        "MODULE main\nVAR v : m; w : m; x : boolean;\nMODULE m\nVAR a : array 0..32767 of boolean;\n",
        "-- refused 312 TooManySlots at 1:1\n",
        3,
    ),
    (
        "check",
        "MODULE main\nVAR a : array 0..65535 of array 0..65535 of array 0..65535 of array 0..65535 of boolean;\n",
        "-- refused 312 TooManySlots at 1:1\n",
        3,
    ),
    (
        "check",
        "MODULE main\nVAR a : array 0..65536 of boolean;\nINIT a\n",
        "-- refused 312 TooManySlots at 1:1\n",
        3,
    ),
    (
        "check",
        "MODULE main\nVAR a : array 0..512 of word[128];\n",
        "-- refused 511 TooManyBits at 1:1\n",
        3,
    ),
    // Where there are too many slots already, a range with a parameter is judged in each instance all the same.
    (
        "check",
        "MODULE m(n)\nVAR x : 1..n;\nMODULE main\nVAR big : array 0..65536 of boolean;\n  a : m(1); b : m(2); c : m(0);\n",
        "-- refused 403 EmptyRange at 2:9\n",
        3,
    ),
    (
        "check",
        "MODULE m(n)\nVAR x : 1..n;\nMODULE main\nVAR big : array 0..65536 of boolean;\n  a : m(1); b : m(2);\n",
        "-- refused 312 TooManySlots at 1:1\n",
        3,
    ),
    // An array of instances, also of a module that has no variables.
    (
        "check",
        "MODULE m\nMODULE main\nVAR a : array 0..1 of array 0..1 of m;\n",
        "-- refused 401 TypeMismatch at 3:37\n",
        3,
    ),
    // Instances of arrays lead to no module; names are looked up in the text's order.
    (
        "check",
        "MODULE main\nVAR a : array 0..1 of main;\n",
        "-- refused 401 TypeMismatch at 2:23\n",
        3,
    ),
    (
        "check",
        "MODULE main\nVAR a : array 0..1 of array k..l of 0..y;\n",
        "-- refused 304 UnknownName at 2:29: k\n",
        3,
    ),
    (
        "check",
        "MODULE main\nVAR a : array 0..1 of 0..y;\n",
        "-- refused 304 UnknownName at 2:26: y\n",
        3,
    ),
    // Each rule of all bounds, and then of the elements, before the next rule.
    (
        "check",
        "MODULE main\nVAR n : 0..1; a : array 3..1 of n..2;\n",
        "-- refused 404 NotConstant at 2:33\n",
        3,
    ),
    (
        "check",
        "MODULE main\nVAR n : 0..1; a : array 0..1 of array 0..n + 1 of n..1;\n",
        "-- refused 404 NotConstant at 2:44\n",
        3,
    ),
    (
        "check",
        "MODULE main\nVAR a : array 0..a of boolean;\n",
        "-- refused 404 NotConstant at 2:18\n",
        3,
    ),
    (
        "check",
        "MODULE main\nVAR a : array 0..1 of array 1..0 of 5..4;\n",
        "-- refused 403 EmptyRange at 2:29\n",
        3,
    ),
    (
        "check",
        "MODULE main\nVAR a : array 0..2147483647 + 1 of 5..4;\n",
        "-- refused 403 EmptyRange at 2:36\n",
        3,
    ),
    (
        "check",
        "MODULE main\nVAR a : array 0..2147483647 + 1 of word[0];\n",
        "-- refused 402 WordWidth at 2:41: 0\n",
        3,
    ),
    (
        "check",
        "MODULE main\nVAR a : array 0..2147483647 + 1 of {1, 01};\n",
        "-- refused 410 DuplicateElement at 2:40: 01\n",
        3,
    ),
    (
        "check",
        "MODULE main\nVAR a : array -2147483647 - 2..0 of 0..2147483647 + 1;\n",
        "-- refused 409 IntWidth at 2:27\n",
        3,
    ),
    (
        "check",
        "MODULE m(p)\nVAR a : array 0..p of boolean;\nMODULE main\nVAR v : m(0); w : m(-1);\n",
        "-- refused 403 EmptyRange at 2:15\n",
        3,
    ),
];

// What is an element, and its index.
const ELEMENTS: [Case; 15] = [
    // An array is no value.
    (
        "check",
        "MODULE main\nVAR a : array 0..1 of boolean;\nINIT a\n",
        "-- refused 401 TypeMismatch at 3:6\n",
        3,
    ),
    (
        "check",
        "MODULE main\nVAR a : array 0..1 of boolean;\nVAR b : array 0..1 of boolean;\nINIT a = b\n",
        "-- refused 401 TypeMismatch at 4:8\n",
        3,
    ),
    (
        "check",
        "MODULE main\nVAR a : array 0..1 of boolean;\nLTLSPEC G a\n",
        "-- refused 401 TypeMismatch at 3:9\n",
        3,
    ),
    (
        "check",
        "MODULE main\nVAR a : array 0..1 of array 0..1 of boolean;\nINIT a[0]\n",
        "-- refused 401 TypeMismatch at 3:7\n",
        3,
    ),
    (
        "check",
        "MODULE main\nVAR a : array 0..1 of boolean;\nVAR x : boolean;\nINIT (x ? a : a)[0]\n",
        "-- refused 401 TypeMismatch at 4:9\n",
        3,
    ),
    (
        "check",
        "MODULE main\nVAR a : array 0..1 of boolean;\nDEFINE d := a;\nINIT d[0]\n",
        "-- refused 401 TypeMismatch at 3:13\n",
        3,
    ),
    (
        "check",
        "MODULE m(p)\nINIT p\nMODULE main\nVAR a : array 0..1 of boolean;\nVAR v : m(a);\n",
        "-- refused 401 TypeMismatch at 2:6\n",
        3,
    ),
    (
        "check",
        "MODULE main\nVAR a : array 0..1 of boolean;\nASSIGN init(a) := TRUE;\n",
        "-- refused 401 TypeMismatch at 3:8\n",
        3,
    ),
    // What is no array, and what is no integer.
    (
        "check",
        "MODULE main\nVAR x : boolean;\nINIT x[0]\n",
        "-- refused 401 TypeMismatch at 3:7\n",
        3,
    ),
    (
        "check",
        "MODULE main\nVAR a : array 0..1 of boolean;\nINIT a[0][0]\n",
        "-- refused 401 TypeMismatch at 3:10\n",
        3,
    ),
    (
        "check",
        "MODULE main\nVAR a : array 0..1 of boolean;\nVAR c : {red, 1};\nINIT a[c]\n",
        "-- refused 401 TypeMismatch at 4:7\n",
        3,
    ),
    // Elements of inputs are inputs; sets, next states and large integers are no indices.
    (
        "check",
        "MODULE main\nIVAR u : array 0..1 of boolean;\nVAR i : 0..1;\nINIT u[i]\n",
        "-- refused 407 InputHere at 4:6\n",
        3,
    ),
    (
        "check",
        "MODULE main\nVAR a : array 0..1 of boolean;\nINIT a[{0, 1}]\n",
        "-- refused 405 SetHere at 3:8\n",
        3,
    ),
    (
        "check",
        "MODULE main\nVAR a : array 0..1 of boolean;\nVAR i : 0..1;\nTRANS next(a[next(i)])\n",
        "-- refused 406 NextHere at 4:14\n",
        3,
    ),
    (
        "check",
        "MODULE main\nVAR a : array 0..1 of boolean;\nVAR x : 0..65536;\nINIT a[x * x]\n",
        "-- refused 409 IntWidth at 4:10\n",
        3,
    ),
];

// Assignments to elements.
const ASSIGNED: [Case; 11] = [
    // What is assigned: the constant indices of an element.
    (
        "check",
        "MODULE main\nVAR a : array 0..1 of boolean;\nVAR i : 0..1;\nASSIGN a[i] := TRUE;\n",
        "-- refused 404 NotConstant at 4:9\n",
        3,
    ),
    (
        "check",
        "MODULE m(p)\nVAR i : 0..1;\nASSIGN next(p[0][i]) := TRUE;\nMODULE main\nVAR a : array 0..1 of array 0..1 of boolean;\nVAR v : m(a);\n",
        "-- refused 404 NotConstant at 3:17\n",
        3,
    ),
    (
        "check",
        "MODULE main\nVAR a : array 0..1 of boolean;\nDEFINE k := 3 + 4;\nASSIGN init(a[k]) := TRUE;\n",
        "-- refused 412 BadSelection at 4:14\n",
        3,
    ),
    (
        "check",
        "MODULE main\nVAR a : array 0..1 of boolean;\nVAR x : boolean;\nASSIGN init(a[-1]) := next(x);\n",
        "-- refused 412 BadSelection at 4:14\n",
        3,
    ),
    (
        "check",
        "MODULE main\nIVAR u : array 0..1 of boolean;\nASSIGN u[0] := TRUE;\n",
        "-- refused 411 NotAssignable at 3:8\n",
        3,
    ),
    (
        "check",
        "MODULE m(p)\nASSIGN p := TRUE;\nMODULE main\nVAR a : array 0..1 of boolean;\nVAR i : 0..1; v : m(a[i]);\n",
        "-- refused 411 NotAssignable at 2:8\n",
        3,
    ),
    // Elements are told apart by constant indices; any other index reaches all.
    (
        "check",
        "MODULE main\nVAR a : array 0..1 of boolean;\nASSIGN a[0] := TRUE; a[1] := TRUE; next(a[3 - 2]) := FALSE;\n",
        "-- refused 501 AssignedTwice at 3:36: a[1]\n",
        3,
    ),
    (
        "check",
        "MODULE m(p)\nASSIGN init(p) := TRUE;\nMODULE main\nVAR a : array -1..0 of array 2..3 of boolean; v : m(a[-1][3]); w : m(a[-1][3]);\n",
        "-- refused 501 AssignedTwice at 2:8: a[-1][3]\n",
        3,
    ),
    (
        "check",
        "MODULE main\nVAR a : array 0..1 of boolean;\nASSIGN a[0] := a[1]; a[1] := a[0];\n",
        "-- refused 502 AssignCycle at 3:8: a[0], a[1], a[0]\n",
        3,
    ),
    (
        "check",
        "MODULE m\nVAR a : array 0..1 of boolean;\nVAR i : 0..1;\nASSIGN init(a[1]) := !a[i];\nMODULE main\nVAR v : m;\n",
        "-- refused 502 AssignCycle at 4:8: v.a[1], v.a[1]\n",
        3,
    ),
    (
        "check",
        "MODULE main\nVAR a : array 0..1 of boolean;\nVAR i : 0..1;\nASSIGN a[0] := a[1]; init(i) := a[0] ? 0 : 1; next(i) := a[1] ? 1 : next(a[0]) ? 0 : i;\n",
        "",
        0,
    ),
];

// Bounds of temporal operators, and faults.
const BOUNDS: [Case; 14] = [
    // The bounds of a temporal operator are constants, which may be of any size.
    (
        "check",
        "MODULE main\nVAR x : boolean;\nVAR n : 0..3;\nLTLSPEC x & F [n, 1] x\n",
        "-- refused 404 NotConstant at 4:13\n",
        3,
    ),
    (
        "check",
        "MODULE main\nVAR a : array 0..1 of boolean;\nVAR x : boolean;\nLTLSPEC H [0, a] x\n",
        "-- refused 404 NotConstant at 4:9\n",
        3,
    ),
    (
        "check",
        "MODULE main\nVAR x : boolean;\nLTLSPEC F [1 / 0, 3] x\n",
        "-- refused 404 NotConstant at 3:9\n",
        3,
    ),
    (
        "check",
        "MODULE main\nVAR x : boolean;\nDEFINE k := 2;\nLTLSPEC O [k - 5, k - 3] x\n",
        "-- refused 413 BadBound at 4:9: -3,-1\n",
        3,
    ),
    (
        "check",
        "MODULE m(n, y)\nLTLSPEC G [n, 1] y\nMODULE main\nVAR x : boolean;\nVAR v : m(1, x); w : m(2, x);\n",
        "-- refused 413 BadBound at 2:9: 2,1\n",
        3,
    ),
    // A constant outside its array names no element.
    (
        "check",
        "MODULE main\nVAR a : array 0..1 of boolean;\nINIT a[2]\n",
        "-- refused 603 IndexOutside at 3:7\n",
        3,
    ),
    (
        "check",
        "MODULE main\nVAR a : array 0..1 of boolean;\nVAR x : boolean;\nVAR i : 2..2;\nASSIGN init(x) := i = 2 | a[-1];\n",
        "-- refused 603 IndexOutside at 5:28: i = 2\n",
        3,
    ),
    (
        "check",
        "MODULE main\nVAR a : array 0..1 of array 0..1 of boolean;\nVAR j : 2..2;\nINIT a[2][j]\n",
        "-- refused 603 IndexOutside at 4:7: j = 2\n",
        3,
    ),
    // An index that is no constant reaches all elements, whose values are told.
    (
        "check",
        "MODULE main\nVAR i : 0..2; a : array 0..1 of 1..1;\nINVARSPEC a[i] = 1\n",
        "-- refused 603 IndexOutside at 3:12: i = 2, a[0] = 1, a[1] = 1\n",
        3,
    ),
    (
        "check",
        "MODULE main\nVAR i : 0..2; a : array 0..1 of 1..1;\nTRANS a[0] = next(a[i])\n",
        "-- refused 603 IndexOutside at 3:20: a[0] = 1, next(i) = 2, next(a[0]) = 1, next(a[1]) = 1\n",
        3,
    ),
    (
        "check",
        "MODULE m(p)\nLTLSPEC G F p[j] = 1\nVAR j : 5..5;\nMODULE main\nVAR a : array 0..0 of array 0..1 of 1..1; v : m(a[0]);\n",
        "-- refused 603 IndexOutside at 2:14: a[0][0] = 1, a[0][1] = 1, v.j = 5\n",
        3,
    ),
    // An index that faults does so before the brackets.
    (
        "check",
        "MODULE main\nVAR j : 0..1; a : array 0..1 of 1..1;\nINIT a[1 / j] = 1\n",
        "-- refused 604 DivisorZero at 3:10: j = 0, a[0] = 1, a[1] = 1\n",
        3,
    ),
    (
        "check",
        "MODULE m(p)\nASSIGN next(p) := p + 1;\nMODULE main\nVAR a : array -1..0 of array 2..2 of 3..4; v : m(a[-1][2]);\n",
        "-- refused 602 OutOfRange at 2:19: a[-1][2] = 4\n",
        3,
    ),
    // What is not reached is no fault.
    (
        "check",
        "MODULE main\nVAR a : array 0..1 of boolean;\nVAR i : 0..2;\nINIT TRUE ? i < 2 ? a[i] : FALSE : a[7]\n",
        "",
        0,
    ),
];

// Listings and reports.
const ANSWERS: [Case; 7] = [
    // Elements in the order of their indices, the last one fastest, behind each other in their array's place.
    (
        "flat",
        "MODULE main\nDEFINE n := 2;\nIVAR u : array 1 - n..0 of array n..n + 1 of 0..5;\nFROZENVAR f : array 1..1 of {red, 3};\nVAR x : boolean; w : array 2147483647..2147483647 of signed word[4];\n",
        "-- slot 0 input u[-1][2] : 0..5\n-- slot 1 input u[-1][3] : 0..5\n-- slot 2 input u[0][2] : 0..5\n-- slot 3 input u[0][3] : 0..5\n-- slot 4 frozen f[1] : {red, 3}\n-- slot 5 state x : boolean\n-- slot 6 state w[2147483647] : signed word[4]\n",
        0,
    ),
    // Of an instance; items that assign elements.
    (
        "flat",
        "MODULE cell(n, p)\nVAR a : array 0..n of boolean; x : boolean;\nASSIGN init(a[n]) := p[0]; next(p[1]) := x;\nMODULE main\nVAR c : cell(1, y[0]); y : array 0..1 of array 0..1 of boolean; d : cell(0, y[1]);\nASSIGN next(d.a[0]) := FALSE;\nINIT y[5][c.x ? 1 : 0]\n",
        "-- slot 0 state y[0][0] : boolean\n-- slot 1 state y[0][1] : boolean\n-- slot 2 state y[1][0] : boolean\n-- slot 3 state y[1][1] : boolean\n-- slot 4 state c.a[0] : boolean\n-- slot 5 state c.a[1] : boolean\n-- slot 6 state c.x : boolean\n-- slot 7 state d.a[0] : boolean\n-- slot 8 state d.x : boolean\n-- item 0 next at 6:8 of main\n-- item 1 INIT at 7:1 of main\n-- item 2 init at 3:8 of c\n-- item 3 next at 3:28 of c\n-- item 4 init at 3:8 of d\n-- item 5 next at 3:28 of d\n",
        0,
    ),
    // What is printed names elements by their indices.
    (
        "check",
        CHAIN,
        "-- spec 1 INVARSPEC is false\n--@ spec 1\n--@ state 0: m.a[-1][0] = TRUE, m.a[-1][1] = FALSE, m.a[0][0] = FALSE, m.a[0][1] = FALSE\n--@ state 1: m.a[-1][0] = FALSE, m.a[-1][1] = TRUE, m.a[0][0] = FALSE, m.a[0][1] = FALSE\n--@ state 2: m.a[-1][0] = FALSE, m.a[-1][1] = FALSE, m.a[0][0] = TRUE, m.a[0][1] = FALSE\n",
        1,
    ),
    // An element by an index that changes.
    (
        "check",
        LINKED,
        "-- spec 1 INVARSPEC is false\n--@ spec 1\n--@ state 0: after[0] = 1, after[1] = 2, after[2] = 0, i = 0\n--@ state 1: after[0] = 1, after[1] = 2, after[2] = 0, i = 1\n--@ state 2: after[0] = 1, after[1] = 2, after[2] = 0, i = 2\n-- spec 2 LTLSPEC is true\n",
        1,
    ),
    // `next` of an element, by the index of the next state.
    (
        "check",
        "MODULE main\nVAR a : array 0..1 of boolean;\nVAR i : 0..1;\nINIT a[0] & !a[1] & i = 0\nTRANS next(i) = 1 & next(a[i])\nASSIGN next(a[0]) := FALSE;\nINVARSPEC !a[1]\n",
        "-- spec 1 INVARSPEC is false\n--@ spec 1\n--@ state 0: a[0] = TRUE, a[1] = FALSE, i = 0\n--@ state 1: a[0] = FALSE, a[1] = TRUE, i = 1\n",
        1,
    ),
    (
        "check",
        "MODULE main\nIVAR u : array 0..1 of boolean;\nLTLSPEC G (u[0] | u[1])\n",
        "-- spec 1 LTLSPEC is false\n--@ spec 1\n--@ state 0:\n--@ input 0: u[0] = FALSE, u[1] = FALSE\n--@ loop 0\n",
        1,
    ),
    // Bounds that an instance is given.
    (
        "check",
        BOUNDED,
        "-- spec 1 LTLSPEC is true\n-- spec 2 LTLSPEC is false\n--@ spec 2\n--@ state 0: x = FALSE\n--@ state 1: x = TRUE\n--@ loop 0\n",
        1,
    ),
];

#[test]
fn arrays_are_declared(rt: HostRuntime) -> Result<(), Fail> {
    let wrong = first_wrong(&rt, rt.alloc(), &DECLARED)?;
    assert_eq!(rt; wrong, None);
    Ok(())
}

#[test]
fn elements_are_judged(rt: HostRuntime) -> Result<(), Fail> {
    let wrong = first_wrong(&rt, rt.alloc(), &ELEMENTS)?;
    assert_eq!(rt; wrong, None);
    Ok(())
}

#[test]
fn elements_are_assigned(rt: HostRuntime) -> Result<(), Fail> {
    let wrong = first_wrong(&rt, rt.alloc(), &ASSIGNED)?;
    assert_eq!(rt; wrong, None);
    Ok(())
}

#[test]
fn bounds_and_faults(rt: HostRuntime) -> Result<(), Fail> {
    let wrong = first_wrong(&rt, rt.alloc(), &BOUNDS)?;
    assert_eq!(rt; wrong, None);
    Ok(())
}

#[test]
fn elements_are_printed(rt: HostRuntime) -> Result<(), Fail> {
    let wrong = first_wrong(&rt, rt.alloc(), &ANSWERS)?;
    assert_eq!(rt; wrong, None);
    Ok(())
}

const ROUNDS: [Round; 4] = [
    ("check", CHAIN, "-- spec 1 INVARSPEC is shown false\n", 0),
    (
        "check --cert",
        LINKED,
        "-- spec 1 INVARSPEC is shown false\n-- spec 2 LTLSPEC is shown true\n",
        0,
    ),
    (
        "check --cert",
        MEMORY,
        "-- spec 1 INVARSPEC is shown false\n-- spec 2 INVARSPEC is shown true\n",
        0,
    ),
    // The sound block shows that the index is never outside.
    (
        "check --cert",
        GUARDED,
        "-- spec 1 INVARSPEC is shown true\n",
        0,
    ),
];

#[test]
fn rounds_of_arrays(rt: HostRuntime) -> Result<(), Fail> {
    let wrong = first_wrong_round(&rt, rt.alloc(), &ROUNDS)?;
    assert_eq!(rt; wrong, None);
    Ok(())
}
