//! What sources are read, and how others are refused; and how many levels may be opened.

use crate::program_of;
use smv_tree::TextStop;
use std::alloc::{AllocError, Global};
use std::test::Fail;

/// A source, and the line by which it is refused; or nothing, where it is read.
const VERDICTS: [(&str, &str); 72] = [
    ("", ""),
    ("MODULE main", ""),
    (
        "MODULE main VAR x : boolean; y : boolean; ASSIGN init(x) := FALSE; next(x) := !y; y := x & y -> x;",
        "",
    ),
    (
        "MODULE main INIT x TRANS next(x) = y; INVARSPEC NAME p := x <-> y; INVARSPEC x xor y xnor TRUE",
        "",
    ),
    (
        "MODULE main(a) VAR m : other(x | y); n : other(); abs : other; INIT abs != x",
        "",
    ),
    ("MODULE m(a, b) MODULE main VAR s : m(x, self.y);", ""),
    (
        "MODULE main IVAR i : boolean; FROZENVAR f : boolean; DEFINE d := i ? m.x : f; INVAR d JUSTICE d; FAIRNESS d",
        "",
    ),
    ("MODULE main ASSIGN init(m.x) := self.y; m.y := TRUE;", ""),
    ("x", "-- refused 201 Unexpected at 1:1: x\n"),
    ("MODULE", "-- refused 201 Unexpected at 1:7: end\n"),
    (
        "MODULE main\nVAR x : boolean",
        "-- refused 201 Unexpected at 2:16: end\n",
    ),
    (
        "MODULE main\nVAR x : boolean ASSIGN",
        "-- refused 201 Unexpected at 2:17: ASSIGN\n",
    ),
    (
        "MODULE main\nINIT x y",
        "-- refused 201 Unexpected at 2:8: y\n",
    ),
    (
        "MODULE main\nINIT x; ;",
        "-- refused 201 Unexpected at 2:9: ;\n",
    ),
    (
        "MODULE main\nINIT (x",
        "-- refused 201 Unexpected at 2:8: end\n",
    ),
    (
        "MODULE main\nINIT (x;",
        "-- refused 201 Unexpected at 2:8: ;\n",
    ),
    (
        "MODULE main\nINIT",
        "-- refused 201 Unexpected at 2:5: end\n",
    ),
    (
        "MODULE main\nINIT x & & y",
        "-- refused 201 Unexpected at 2:10: &\n",
    ),
    (
        "MODULE main\nINIT !)",
        "-- refused 201 Unexpected at 2:7: )\n",
    ),
    (
        "MODULE main\nINIT x -> ; y",
        "-- refused 201 Unexpected at 2:11: ;\n",
    ),
    (
        "MODULE main\nTRANS next x",
        "-- refused 201 Unexpected at 2:12: x\n",
    ),
    (
        "MODULE main\nINIT x ? y",
        "-- refused 201 Unexpected at 2:11: end\n",
    ),
    (
        "MODULE main\nINIT x ? y; z",
        "-- refused 201 Unexpected at 2:11: ;\n",
    ),
    (
        "MODULE main\nINIT x.self",
        "-- refused 201 Unexpected at 2:8: self\n",
    ),
    (
        "MODULE main\nINVARSPEC NAME x = y",
        "-- refused 201 Unexpected at 2:18: =\n",
    ),
    (
        "MODULE main\nASSIGN init x := y",
        "-- refused 201 Unexpected at 2:13: x\n",
    ),
    (
        "MODULE main\nASSIGN x := y INIT x",
        "-- refused 201 Unexpected at 2:15: INIT\n",
    ),
    ("MODULE main(a,)", "-- refused 201 Unexpected at 1:15: )\n"),
    (
        "MODULE main\nVAR m : n(x, y;",
        "-- refused 201 Unexpected at 2:15: ;\n",
    ),
    (
        "VAR x : integer;",
        "-- refused 203 Unsupported at 1:9: integer\n",
    ),
    // Arrays.
    (
        "MODULE main VAR x : array 0..3 of boolean; y : array -N..self.n of array a.b - 1..2 * M of {p, -1}; z : array 0..1 of cell(x, y);",
        "",
    ),
    (
        "MODULE main\nVAR x : array 0..3 boolean;",
        "-- refused 201 Unexpected at 2:20: boolean\n",
    ),
    (
        "MODULE main\nVAR x : array 3 of boolean;",
        "-- refused 201 Unexpected at 2:17: of\n",
    ),
    (
        "MODULE main\nVAR x : array of boolean;",
        "-- refused 201 Unexpected at 2:15: of\n",
    ),
    (
        "MODULE main\nVAR x : array boolean of boolean;",
        "-- refused 201 Unexpected at 2:15: boolean\n",
    ),
    (
        "MODULE main\nVAR x : array 0..1 .. 2 of boolean;",
        "-- refused 201 Unexpected at 2:20: ..\n",
    ),
    (
        "MODULE main\nVAR x : array 0..3 of;",
        "-- refused 201 Unexpected at 2:22: ;\n",
    ),
    (
        "MODULE main\nVAR x : array 0..3 of array;",
        "-- refused 201 Unexpected at 2:28: ;\n",
    ),
    (
        "MODULE main\nVAR array : boolean;",
        "-- refused 201 Unexpected at 2:5: array\n",
    ),
    (
        "MODULE main\nINIT of",
        "-- refused 201 Unexpected at 2:6: of\n",
    ),
    // Values of the other types: ranges, enumerations, words; sets, cases, functions and selections.
    (
        "MODULE main VAR x : 0..7; y : {a, -1, b}; w : word[8]; s : signed word[2 * N]; u : unsigned word[4]; z : -N..self.n mod 3;",
        "",
    ),
    (
        "MODULE main CONSTANTS a, b; ASSIGN init(x) := {0, 1}; next(x) := case x < 3 : x + 1; TRUE : 0..2; esac;",
        "",
    ),
    (
        "MODULE main INIT abs(x) = max(y, -1) & min(x, 2) in {1} union y & count(a, b) >= 1 & count",
        "",
    ),
    (
        "MODULE main INIT w[7:4] :: 0ub4_1 = extend(w << 1, 2)[3] & bool(word1(x)) = (swconst(1, 2) > resize(signed(w), sizeof(u)))",
        "",
    ),
    (
        "MODULE main ASSIGN init(x[3]) := 0; x[i + 1][0] := 1 / y - z * 2;",
        "",
    ),
    (
        "MODULE main\nINIT x +",
        "-- refused 201 Unexpected at 2:9: end\n",
    ),
    (
        "MODULE main\nINIT case a : b esac",
        "-- refused 201 Unexpected at 2:17: esac\n",
    ),
    (
        "MODULE main\nINIT {}",
        "-- refused 201 Unexpected at 2:7: }\n",
    ),
    (
        "MODULE main\nVAR x : {a.b};",
        "-- refused 201 Unexpected at 2:11: .\n",
    ),
    (
        "MODULE main\nVAR x : word 8;",
        "-- refused 201 Unexpected at 2:14: 8\n",
    ),
    (
        "MODULE main\nINIT w[1:2:3]",
        "-- refused 201 Unexpected at 2:11: :\n",
    ),
    (
        "MODULE main\nINIT abs()",
        "-- refused 201 Unexpected at 2:10: )\n",
    ),
    (
        "MODULE main\nVAR x",
        "-- refused 201 Unexpected at 2:6: end\n",
    ),
    // Temporal operators, and their bounds.
    (
        "MODULE main LTLSPEC NAME p := G (x -> F !y) & X Y Z O H x; LTLSPEC x U y V z S x T y",
        "",
    ),
    (
        "MODULE main LTLSPEC F [0, 3] x & G [1,1] O [2, 5] H [0, 0] y",
        "",
    ),
    (
        "MODULE main\nLTLSPEC A x",
        "-- refused 203 Unsupported at 2:9: A\n",
    ),
    (
        "MODULE main\nLTLSPEC F [3] x",
        "-- refused 201 Unexpected at 2:13: ]\n",
    ),
    (
        "MODULE main LTLSPEC F [a.b - 1, 2 * n] p & G [-(k), self.n mod 2] q",
        "",
    ),
    (
        "MODULE main\nLTLSPEC F [x = 1, 2] x",
        "-- refused 201 Unexpected at 2:14: =\n",
    ),
    (
        "MODULE main\nLTLSPEC F [0, TRUE] x",
        "-- refused 201 Unexpected at 2:15: TRUE\n",
    ),
    (
        "MODULE main\nLTLSPEC F [0, 1, 2] x",
        "-- refused 201 Unexpected at 2:16: ,\n",
    ),
    (
        "MODULE main\nLTLSPEC F [0 3] x",
        "-- refused 201 Unexpected at 2:14: 3\n",
    ),
    (
        "MODULE main\nLTLSPEC F [0, 3 x",
        "-- refused 201 Unexpected at 2:17: x\n",
    ),
    // Bounds have their place behind `F`, `G`, `O` and `H` alone.
    (
        "MODULE main\nLTLSPEC X [0, 1] x",
        "-- refused 201 Unexpected at 2:11: [\n",
    ),
    // A temporal operator is no operand of a relation, of a sum or of what stands closer.
    (
        "MODULE main\nLTLSPEC x = F y",
        "-- refused 201 Unexpected at 2:13: F\n",
    ),
    (
        "MODULE main\nLTLSPEC F x = F y",
        "-- refused 201 Unexpected at 2:15: F\n",
    ),
    (
        "MODULE main\nLTLSPEC -F x",
        "-- refused 201 Unexpected at 2:10: F\n",
    ),
    (
        "MODULE main\nLTLSPEC F x F y",
        "-- refused 201 Unexpected at 2:13: F\n",
    ),
    (
        "MODULE main\nLTLSPEC x U & y",
        "-- refused 201 Unexpected at 2:13: &\n",
    ),
    ("MODULE main\nLTLSPEC x = (F y) & x + (G y) in (x U y)", ""),
    (
        "MODULE main\nLTLSPEC x 3]",
        "-- refused 201 Unexpected at 2:11: 3\n",
    ),
    (
        "MODULE main\nLTLSPEC x ]",
        "-- refused 201 Unexpected at 2:11: ]\n",
    ),
];

/// The head of a source, what opens and closes a level before and behind `x`, how often, and the line by which it is
/// refused.
const LEVELS: [(&str, &str, &str, usize, &str); 25] = [
    ("MODULE main\nINIT ", "(", ")", 256, ""),
    (
        "MODULE main\nINIT ",
        "(",
        ")",
        257,
        "-- refused 202 TooDeep at 2:262\n",
    ),
    ("MODULE main\nINIT ", "!", "", 256, ""),
    ("MODULE main\nLTLSPEC ", "X ", "", 256, ""),
    (
        "MODULE main\nLTLSPEC ",
        "X ",
        "",
        257,
        "-- refused 202 TooDeep at 2:521\n",
    ),
    ("MODULE main\nLTLSPEC ", "!G ", "", 128, ""),
    (
        "MODULE main\nLTLSPEC ",
        "!G ",
        "",
        129,
        "-- refused 202 TooDeep at 2:393\n",
    ),
    ("MODULE main\nLTLSPEC ", "O (", ")", 128, ""),
    (
        "MODULE main\nLTLSPEC ",
        "O (",
        ")",
        129,
        "-- refused 202 TooDeep at 2:393\n",
    ),
    // Operators with two operands open none, and what one before them opened has ended there.
    ("MODULE main\nLTLSPEC ", "x U ", "", 300, ""),
    ("MODULE main\nLTLSPEC ", "X x U ", "", 300, ""),
    ("MODULE main\nLTLSPEC ", "F [0, 1] ", "", 255, ""),
    (
        "MODULE main\nLTLSPEC ",
        "F [0, 1] ",
        "",
        256,
        "-- refused 202 TooDeep at 2:2306\n",
    ),
    (
        "MODULE main\nINIT ",
        "x -> ",
        "",
        257,
        "-- refused 202 TooDeep at 2:1288\n",
    ),
    (
        "MODULE main\nVAR m : n(",
        "(",
        ")",
        255,
        "-- refused 201 Unexpected at 2:522: end\n",
    ),
    (
        "MODULE main\nVAR m : n(",
        "(",
        ")",
        256,
        "-- refused 202 TooDeep at 2:266\n",
    ),
    // What stands in an array stands in the levels that the words `array` before it open.
    (
        "MODULE main\nVAR v : array 0..1 of array 0..1 of m(",
        "(",
        ")",
        253,
        "-- refused 201 Unexpected at 2:546: end\n",
    ),
    (
        "MODULE main\nVAR v : array 0..1 of array 0..1 of m(",
        "(",
        ")",
        254,
        "-- refused 202 TooDeep at 2:292\n",
    ),
    (
        "MODULE main\nVAR v : array ",
        "(",
        ")",
        255,
        "-- refused 201 Unexpected at 2:526: end\n",
    ),
    (
        "MODULE main\nVAR v : array ",
        "(",
        ")",
        256,
        "-- refused 202 TooDeep at 2:270\n",
    ),
    ("MODULE main\nINIT ", "- ", "", 256, ""),
    (
        "MODULE main\nINIT ",
        "- ",
        "",
        257,
        "-- refused 202 TooDeep at 2:518\n",
    ),
    ("MODULE main\nINIT ", "{", "}", 256, ""),
    ("MODULE main\nINIT ", "y[", "]", 256, ""),
    (
        "MODULE main\nINIT ",
        "y[",
        "]",
        257,
        "-- refused 202 TooDeep at 2:519\n",
    ),
];

/// How many arrays stand one in another, the type of the innermost elements, and the line by which the declaration is
/// refused.
const ARRAYS: [(usize, &str, &str); 10] = [
    (256, "boolean;", ""),
    (257, "boolean;", "-- refused 202 TooDeep at 2:3593\n"),
    (256, "m;", ""),
    (256, "-1..n;", "-- refused 202 TooDeep at 2:3593\n"),
    (256, "m(x);", "-- refused 202 TooDeep at 2:3594\n"),
    (256, "{a};", "-- refused 202 TooDeep at 2:3593\n"),
    (255, "{a, -1};", "-- refused 202 TooDeep at 2:3583\n"),
    (254, "{a, -1};", ""),
    (256, "word[4];", "-- refused 202 TooDeep at 2:3597\n"),
    (255, "signed word[4];", ""),
];

/// A head, what opens each operand and what closes it, how many stand one in another, and whether that is out of
/// memory. Each of these adds eight selections that stand over the operand, or one.
const SELECTIONS: [(&str, &str, &str, usize, bool); 6] = [
    (
        "MODULE main INIT ",
        "(",
        ")[0][0][0][0][0][0][0][0]",
        250,
        false,
    ),
    (
        "MODULE main INIT ",
        "(",
        ")[0][0][0][0][0][0][0][0]",
        251,
        true,
    ),
    (
        "MODULE main ASSIGN ",
        "a[",
        "][0][0][0][0][0][0][0]",
        250,
        false,
    ),
    (
        "MODULE main ASSIGN ",
        "a[",
        "][0][0][0][0][0][0][0]",
        251,
        true,
    ),
    ("MODULE main ASSIGN ", "", "[0]", 2000, false),
    ("MODULE main ASSIGN ", "", "[0]", 100_000, true),
];

fn is_refused_by(alloc: Global, stop: &TextStop, wanted: &str) -> bool {
    match stop {
        TextStop::Refused(refusal) => match refusal.to_string(alloc) {
            Ok(line) => line.as_str() == wanted,
            Err(_) => false,
        },
        TextStop::NoMemory => false,
    }
}

fn holds(alloc: Global, source: &str, wanted: &str) -> bool {
    match program_of(alloc, source.as_bytes()) {
        Ok(_) => wanted.is_empty(),
        Err(stop) => is_refused_by(alloc, &stop, wanted),
    }
}

fn first_wrong(alloc: Global) -> Option<&'static str> {
    for (source, wanted) in &VERDICTS {
        if !holds(alloc, *source, *wanted) {
            return Some(*source);
        }
    }
    None
}

fn push_times(text: &mut String, part: &str, count: usize) -> Result<(), AllocError> {
    for _ in 0..count {
        text.push_str(part)?;
    }
    Ok(())
}

fn nested(
    alloc: Global,
    head: &str,
    open: &str,
    close: &str,
    count: usize,
) -> Result<String, AllocError> {
    let mut text = String::from_str(alloc, head)?;
    push_times(&mut text, open, count)?;
    text.push_str("x")?;
    push_times(&mut text, close, count)?;
    Ok(text)
}

fn first_wrong_level(alloc: Global) -> Option<usize> {
    for (n, (head, open, close, count, wanted)) in LEVELS.iter().enumerate() {
        let right = match nested(alloc, *head, *open, *close, *count) {
            Ok(source) => holds(alloc, source.as_str(), *wanted),
            Err(_) => false,
        };
        if !right {
            return Some(n);
        }
    }
    None
}

fn is_out_of_memory(alloc: Global, source: &str) -> bool {
    match program_of(alloc, source.as_bytes()) {
        Err(TextStop::NoMemory) => true,
        _ => false,
    }
}

fn first_wrong_selection(alloc: Global) -> Option<usize> {
    for (n, (head, open, close, count, wanted)) in SELECTIONS.iter().enumerate() {
        let right = match nested(alloc, *head, *open, *close, *count) {
            Ok(source) => is_out_of_memory(alloc, source.as_str()) == *wanted,
            Err(_) => false,
        };
        if !right {
            return Some(n);
        }
    }
    None
}

fn arrays(alloc: Global, count: usize, element: &str) -> Result<String, AllocError> {
    let mut text = String::from_str(alloc, "MODULE main\nVAR v : ")?;
    push_times(&mut text, "array 0..1 of ", count)?;
    text.push_str(element)?;
    Ok(text)
}

fn first_wrong_array(alloc: Global) -> Option<usize> {
    for (n, (count, element, wanted)) in ARRAYS.iter().enumerate() {
        let right = match arrays(alloc, *count, *element) {
            Ok(source) => holds(alloc, source.as_str(), *wanted),
            Err(_) => false,
        };
        if !right {
            return Some(n);
        }
    }
    None
}

#[test]
fn arrays_open_levels(rt: HostRuntime) -> Result<(), Fail> {
    let wrong = first_wrong_array(rt.alloc());
    assert_eq!(rt; wrong, None);
    Ok(())
}

#[test]
fn sources_are_judged(rt: HostRuntime) -> Result<(), Fail> {
    let wrong = first_wrong(rt.alloc());
    assert_eq!(rt; wrong, None);
    Ok(())
}

#[test]
fn levels_are_counted(rt: HostRuntime) -> Result<(), Fail> {
    let wrong = first_wrong_level(rt.alloc());
    assert_eq!(rt; wrong, None);
    Ok(())
}

#[test]
fn selections_are_counted(rt: HostRuntime) -> Result<(), Fail> {
    let wrong = first_wrong_selection(rt.alloc());
    assert_eq!(rt; wrong, None);
    Ok(())
}
