//! The top call over sources and sinks in memory, and over std's readers and writers.
use crate::sources::{definitions, modules, variables};
use outside::{MemSink, MemSource, OpenGate, StdSink, StdSource};
use smv_cli::{run, run_over_bytes};
use std::alloc::{AllocError, Global};
use std::io;
use std::io::{Read, Write};
use std::sync::Wait;
use std::test::Fail;
use std::thread::Threads;

// The number of a call that is to fail, where none is.
pub const NONE: u64 = u64::MAX;

// Whether a run over this text, with reads and writes of at most `chunk` bytes, of which those numbered so fail, prints
// this and answers this status.
pub fn prints<R: Threads + Wait + Sync>(
    rt: &R,
    alloc: Global,
    words: &[&str],
    text: &[u8],
    chunk: usize,
    bad_read: u64,
    bad_write: u64,
    want: &[u8],
    want_status: u8,
) -> Result<bool, AllocError> {
    let chunk = chunk.max(1);
    let mut source = MemSource::new(text.to_vec(alloc)?, chunk, vec![in alloc; bad_read]?);
    let mut sink = MemSink::new(alloc, chunk, vec![in alloc; bad_write]?);
    let status = run(rt, alloc, words, &mut source, &mut sink, &OpenGate);
    Ok(status == want_status && sink.bytes() == want)
}

// The same in one piece, with no failure.
fn prints_whole<R: Threads + Wait + Sync>(
    rt: &R,
    alloc: Global,
    words: &[&str],
    text: &[u8],
    want: &[u8],
    want_status: u8,
) -> Result<bool, AllocError> {
    let (status, printed) = run_over_bytes(rt, alloc, words, text.to_vec(alloc)?);
    Ok(status == want_status && printed.as_slice() == want)
}

const STANDING: &str =
    "MODULE main\nVAR x : boolean;\nASSIGN init(x) := FALSE; next(x) := x;\nINVARSPEC !x\n";

const TOGGLING: &str =
    "MODULE main\nVAR x : boolean;\nASSIGN init(x) := FALSE; next(x) := !x;\nINVARSPEC !x\n";

const TRUE: &str = "-- spec 1 INVARSPEC is true\n";

const CERTIFIED: &str =
    "-- spec 1 INVARSPEC is true\n--% cert 2 spec 1 counter none\n--% clause -1 0\n--% part first 1\n--% step 0 1 2 0\n--% part kept 1\n--% step 0 1 4 2 0\n--% part safe 0\n--% step 0 1 2 0\n--% end\n";

const BROKEN: &str =
    "-- spec 1 INVARSPEC is false\n--@ spec 1\n--@ state 0: x = FALSE\n--@ state 1: x = TRUE\n";

const SPENT: &str = "-- spec 1 INVARSPEC is unknown: conflicts 0 of 0\n";

const OPEN: &str = "-- spec 1 INVARSPEC is unknown: frames 0\n";

const UNSHOWN: &str = "-- spec 1 INVARSPEC has nothing shown\n";

const LISTED: &str =
    "-- slot 0 state x : boolean\n-- item 0 init at 3:8 of main\n-- item 1 next at 3:26 of main\n";

const USAGE: &str = "-- usage: smvcheck check | recheck | flat | self N SEED\n";

// Whether each line and text is answered so, however the text and the report are cut into reads and writes.
fn answers<R: Threads + Wait + Sync>(
    rt: &R,
    alloc: Global,
    line: &str,
    text: &str,
    want: &str,
    want_status: u8,
) -> Result<bool, AllocError> {
    let words: Vec<&str> = line.split_whitespace().collect(alloc)?;
    let (text, want) = (text.as_bytes(), want.as_bytes());
    for chunk in [1usize, 7] {
        if !prints(
            rt,
            alloc,
            &words,
            text,
            chunk,
            NONE,
            NONE,
            want,
            want_status,
        )? {
            return Ok(false);
        }
    }
    prints_whole(rt, alloc, &words, text, want, want_status)
}

// The words, a source, what is printed, and the status.
pub type Case = (&'static str, &'static str, &'static str, u8);

// The source of the first case that is answered otherwise.
pub fn first_wrong<R: Threads + Wait + Sync>(
    rt: &R,
    alloc: Global,
    cases: &[Case],
) -> Result<Option<&'static str>, AllocError> {
    for (line, text, want, status) in cases {
        if !answers(rt, alloc, line, text, want, *status)? {
            return Ok(Some(text));
        }
    }
    Ok(None)
}

const TWO: &str =
    "MODULE main\nVAR a : boolean; b : boolean;\nASSIGN init(a) := FALSE; init(b) := FALSE; next(a) := b; next(b) := FALSE;\nINVARSPEC !a\n";

const BOTH: &str =
    "MODULE main\nVAR x : boolean;\nASSIGN init(x) := FALSE; next(x) := !x;\nINVARSPEC !x\nINVARSPEC x | !x\n";

const BOTH_JUDGED: &str =
    "-- spec 1 INVARSPEC is false\n--@ spec 1\n--@ state 0: x = FALSE\n--@ state 1: x = TRUE\n-- spec 2 INVARSPEC is true\n";

const BOTH_SPENT: &str =
    "-- spec 1 INVARSPEC is unknown: conflicts 0 of 0\n-- spec 2 INVARSPEC is unknown: conflicts 0 of 0\n";

const CASES: [Case; 87] = [
    // Command lines.
    ("check", STANDING, TRUE, 0),
    ("check", TOGGLING, BROKEN, 1),
    ("check --conflicts 0", TOGGLING, SPENT, 2),
    ("check --bound=0", TOGGLING, BROKEN, 1),
    ("check --frames=0", TOGGLING, OPEN, 2),
    ("check --frames 1", TOGGLING, BROKEN, 1),
    ("check --frames 100000", STANDING, TRUE, 0),
    ("check --frames 100001", STANDING, USAGE, 4),
    ("check --frames", STANDING, USAGE, 4),
    ("check --frames=1 --frames=1", STANDING, USAGE, 4),
    ("check --together", TOGGLING, BROKEN, 1),
    (
        "check --together --frames 3 --bound 2 --conflicts 100",
        STANDING,
        TRUE,
        0,
    ),
    ("check --together --together", STANDING, USAGE, 4),
    ("check --together=true", STANDING, USAGE, 4),
    ("check --together true", STANDING, USAGE, 4),
    ("check together", STANDING, USAGE, 4),
    ("flat --together", STANDING, USAGE, 4),
    ("check --bound 1 --conflicts=+100", TOGGLING, BROKEN, 1),
    ("", STANDING, USAGE, 4),
    ("check check", STANDING, USAGE, 4),
    ("recheck", STANDING, UNSHOWN, 2),
    ("recheck --upgrade", STANDING, UNSHOWN, 2),
    ("recheck --upgrade --upgrade", STANDING, USAGE, 4),
    ("recheck --upgrade=true", STANDING, USAGE, 4),
    ("recheck upgrade", STANDING, USAGE, 4),
    ("recheck --together", STANDING, USAGE, 4),
    ("recheck --bound 1", STANDING, USAGE, 4),
    ("check --upgrade", STANDING, USAGE, 4),
    ("check --cert", STANDING, CERTIFIED, 0),
    ("check --cert", TOGGLING, BROKEN, 1),
    ("check --cert --conflicts 0", STANDING, SPENT, 2),
    ("check --cert --cert", STANDING, USAGE, 4),
    ("check --cert=true", STANDING, USAGE, 4),
    ("recheck --cert", STANDING, USAGE, 4),
    ("flat --cert", STANDING, USAGE, 4),
    ("check --counter 0", STANDING, TRUE, 0),
    ("check --counter=64", STANDING, TRUE, 0),
    ("check --counter 65", STANDING, USAGE, 4),
    ("flat --counter 1", STANDING, USAGE, 4),
    ("flat --upgrade", STANDING, USAGE, 4),
    ("recheck recheck", STANDING, USAGE, 4),
    ("--upgrade recheck", STANDING, USAGE, 4),
    ("Recheck", STANDING, USAGE, 4),
    ("check --workers 0", STANDING, USAGE, 4),
    ("check --bound", STANDING, USAGE, 4),
    ("check --bound -1", STANDING, USAGE, 4),
    ("check --bound 10001", STANDING, USAGE, 4),
    ("check --conflicts 1099511627777", STANDING, USAGE, 4),
    ("check --help", STANDING, USAGE, 4),
    ("flat", STANDING, LISTED, 0),
    ("flat flat", STANDING, USAGE, 4),
    ("flat --bound 1", STANDING, USAGE, 4),
    ("flat check", STANDING, USAGE, 4),
    ("--version", STANDING, USAGE, 4),
    ("check --bound 007", STANDING, TRUE, 0),
    (
        "check --bound 10000 --conflicts 1099511627776",
        STANDING,
        TRUE,
        0,
    ),
    ("check --conflicts=5 --bound 6", TOGGLING, BROKEN, 1),
    ("check --", STANDING, TRUE, 0),
    ("flat --", STANDING, LISTED, 0),
    ("check --bound x", STANDING, USAGE, 4),
    ("check --conflicts=", STANDING, USAGE, 4),
    ("check --bound 1 --bound 1", STANDING, USAGE, 4),
    (
        "check --conflicts 1 --bound 1 --conflicts 2",
        STANDING,
        USAGE,
        4,
    ),
    ("--bound 1 check", STANDING, USAGE, 4),
    ("check -b 1", STANDING, USAGE, 4),
    ("--help", STANDING, USAGE, 4),
    ("-h", STANDING, USAGE, 4),
    ("help", STANDING, USAGE, 4),
    ("help check", STANDING, USAGE, 4),
    ("check help", STANDING, USAGE, 4),
    ("Check", STANDING, USAGE, 4),
    ("flat --conflicts=1", STANDING, USAGE, 4),
    ("--bound 1 flat", STANDING, USAGE, 4),
    ("flat x", STANDING, USAGE, 4),
    // Verdicts.
    // a is TRUE in no state that is reached, and one step from where b is TRUE would break it.
    ("check", TWO, TRUE, 0),
    ("check --frames 0", TWO, OPEN, 2),
    ("check --frames 0 --conflicts 0", TWO, SPENT, 2),
    // Invariants apart and together: with no ticket nothing is known of either.
    ("check", BOTH, BOTH_JUDGED, 1),
    ("check --together", BOTH, BOTH_JUDGED, 1),
    ("check --conflicts 0", BOTH, BOTH_SPENT, 2),
    ("check --together --conflicts 0", BOTH, BOTH_SPENT, 2),
    ("check --together", "MODULE main\nVAR x : boolean;\n", "", 0),
    // There is no initial state.
    (
        "check",
        "MODULE main\nVAR x : boolean;\nINIT FALSE\nINVARSPEC FALSE\n",
        TRUE,
        0,
    ),
    // The second state has no step.
    (
        "check",
        "MODULE main\nVAR x : boolean;\nINIT !x\nTRANS !x & next(x)\nINVARSPEC x -> !x -> x;\nINVARSPEC NAME n := !x\n",
        "-- spec 1 INVARSPEC is true\n-- spec 2 INVARSPEC is false\n--@ spec 2\n--@ state 0: x = FALSE\n--@ state 1: x = TRUE\n",
        1,
    ),
    // `=` binds tighter than `&`, and `!` tighter than `=`.
    (
        "check",
        "MODULE main VAR p : boolean; q : boolean; ASSIGN q := !p; INVARSPEC !p = q & (p xor q) /-- all --/ INVARSPEC p | q -- true",
        "-- spec 1 INVARSPEC is true\n-- spec 2 INVARSPEC is true\n",
        0,
    ),
    // A model without a specification.
    ("check", "MODULE main VAR x : boolean;", "", 0),
    ("check", "MODULE main", "", 0),
];

const REFUSALS: [Case; 16] = [
    // Refusals.
    (
        "check",
        "MODULE main\nVAR x : boolean; @\n",
        "-- refused 101 BadByte at 2:18\n",
        3,
    ),
    (
        "check",
        "MODULE main\nINIT 0ub_2\n",
        "-- refused 103 BadWordConstant at 2:6\n",
        3,
    ),
    (
        "check",
        "MODULE main\nINIT 2147483648\n",
        "-- refused 104 IntTooLarge at 2:6\n",
        3,
    ),
    (
        "check",
        "MODULE main\nVAR x : boolean; y : boolean;\nCOMPASSION (x, y)\n",
        "-- refused 203 Unsupported at 3:1: COMPASSION\n",
        3,
    ),
    (
        "check",
        "MODULE main\nVAR p : process m;\n",
        "-- refused 203 Unsupported at 2:9: process\n",
        3,
    ),
    (
        "check",
        "MODULE main\nVAR x : boolean\nINIT x\n",
        "-- refused 201 Unexpected at 3:1: INIT\n",
        3,
    ),
    (
        "check",
        "MODULE main\nVAR x : boolean; x : boolean;\n",
        "-- refused 305 DuplicateName at 2:18: x\n",
        3,
    ),
    (
        "check",
        "MODULE main\nVAR x : m;\n",
        "-- refused 306 UnknownModule at 2:9: m\n",
        3,
    ),
    (
        "check",
        "MODULE main\nVAR x : main;\n",
        "-- refused 308 ModuleCycle at 2:5: x\n",
        3,
    ),
    (
        "check",
        "MODULE main\nASSIGN init(y) := TRUE;\n",
        "-- refused 304 UnknownName at 2:13: y\n",
        3,
    ),
    (
        "check",
        "MODULE main\nVAR x : boolean; y : boolean;\nASSIGN x := y; y := x;\n",
        "-- refused 502 AssignCycle at 3:8: x, y, x\n",
        3,
    ),
    (
        "check",
        "MODULE main\nVAR x : boolean; y : boolean;\nASSIGN x := TRUE; init(x) := TRUE;\n",
        "-- refused 501 AssignedTwice at 3:19: x\n",
        3,
    ),
    (
        "check",
        "MODULE main\nVAR x : boolean; y : boolean;\nASSIGN x := y; y := x; init(x) := TRUE;\n",
        "-- refused 501 AssignedTwice at 3:24: x\n",
        3,
    ),
    ("check", "", "-- refused 301 NoMain at 1:1\n", 3),
    ("check", "/-- a\n", "-- refused 102 OpenComment at 1:1\n", 3),
    (
        "check",
        "MODULE main VAR x : boolean",
        "-- refused 201 Unexpected at 1:28: end\n",
        3,
    ),
];

const RULES_OF_MODULES: [Case; 28] = [
    // One row for each rule of modules, names, kinds and assignments; places and details were worked out by hand.
    (
        "check",
        "MODULE m\nMODULE main\nMODULE m\n",
        "-- refused 303 DuplicateModule at 3:1: m\n",
        3,
    ),
    // Two modules of one name are told before a missing `main`.
    (
        "check",
        "MODULE m MODULE m",
        "-- refused 303 DuplicateModule at 1:10: m\n",
        3,
    ),
    ("check", "MODULE m\n", "-- refused 301 NoMain at 1:1\n", 3),
    (
        "check",
        "MODULE main(a, b)\n",
        "-- refused 302 MainHasParameters at 1:13\n",
        3,
    ),
    // A module that is not reached, too.
    (
        "check",
        "MODULE m(a, b, a)\nMODULE main\n",
        "-- refused 305 DuplicateName at 1:16: a\n",
        3,
    ),
    (
        "check",
        "MODULE m(a)\nDEFINE a := TRUE;\nMODULE main\n",
        "-- refused 305 DuplicateName at 2:8: a\n",
        3,
    ),
    (
        "check",
        "MODULE main\nVAR x : boolean; x : m;\n",
        "-- refused 305 DuplicateName at 2:18: x\n",
        3,
    ),
    (
        "check",
        "MODULE main\nVAR a : m;\nMODULE m\nVAR b : n;\n",
        "-- refused 306 UnknownModule at 4:9: n\n",
        3,
    ),
    (
        "check",
        "MODULE m\nVAR b : n;\nMODULE main\nVAR c : o; a : m;\n",
        "-- refused 306 UnknownModule at 2:9: n\n",
        3,
    ),
    // A module that is not reached has no instance.
    ("check", "MODULE m\nVAR b : n;\nMODULE main\n", "", 0),
    (
        "check",
        "MODULE m\nVAR a : m;\nMODULE main\nVAR b : m;\n",
        "-- refused 308 ModuleCycle at 2:5: a\n",
        3,
    ),
    (
        "check",
        "MODULE a\nVAR x : boolean; y : b;\nMODULE b\nVAR z : a;\nMODULE main\nVAR z : b;\n",
        "-- refused 308 ModuleCycle at 2:18: y\n",
        3,
    ),
    (
        "check",
        "MODULE main\nVAR x : main(TRUE);\n",
        "-- refused 308 ModuleCycle at 2:5: x\n",
        3,
    ),
    (
        "check",
        "MODULE m(a)\nMODULE main\nVAR x : boolean; y : m(x, x);\n",
        "-- refused 307 ArgumentCount at 3:22: m\n",
        3,
    ),
    (
        "check",
        "MODULE m(a)\nMODULE main\nVAR y : m;\n",
        "-- refused 307 ArgumentCount at 3:9: m\n",
        3,
    ),
    (
        "check",
        "MODULE main\nVAR a : boolean;\nINVARSPEC a-1\n",
        "-- refused 304 UnknownName at 3:11: a-1\n",
        3,
    ),
    // The items of `main` come first.
    (
        "check",
        "MODULE m\nINIT z\nMODULE main\nVAR g : m;\nINIT y\n",
        "-- refused 304 UnknownName at 5:6: y\n",
        3,
    ),
    (
        "check",
        "MODULE main\nVAR x : boolean;\nINIT x.y\n",
        "-- refused 304 UnknownName at 3:6: x\n",
        3,
    ),
    (
        "check",
        "MODULE m(p)\nMODULE main\nVAR g : m(TRUE);\nINIT g.p\n",
        "-- refused 304 UnknownName at 4:8: p\n",
        3,
    ),
    (
        "check",
        "MODULE m(p)\nINIT p.x\nMODULE main\nVAR g : m(h); h : n;\nMODULE n\nVAR y : boolean;\n",
        "-- refused 304 UnknownName at 2:8: x\n",
        3,
    ),
    (
        "check",
        "MODULE m(p)\nINIT p.x\nMODULE main\nVAR b : boolean; g : m(b);\n",
        "-- refused 304 UnknownName at 2:6: p\n",
        3,
    ),
    (
        "check",
        "MODULE m(p)\nMODULE main\nVAR g : m(y);\n",
        "-- refused 304 UnknownName at 3:11: y\n",
        3,
    ),
    (
        "check",
        "MODULE main\nDEFINE d := self.e;\n",
        "-- refused 304 UnknownName at 2:18: e\n",
        3,
    ),
    (
        "check",
        "MODULE main\nDEFINE a := b; b := a;\n",
        "-- refused 309 DefineCycle at 2:8: a\n",
        3,
    ),
    (
        "check",
        "MODULE main\nDEFINE c := a; a := b; b := a;\n",
        "-- refused 309 DefineCycle at 2:16: a\n",
        3,
    ),
    (
        "check",
        "MODULE m(p)\nDEFINE d := p;\nMODULE main\nVAR g : m(e);\nDEFINE e := g.d;\n",
        "-- refused 309 DefineCycle at 5:8: e\n",
        3,
    ),
    (
        "check",
        "MODULE m\nMODULE main\nIVAR g : m;\n",
        "-- refused 401 TypeMismatch at 3:10\n",
        3,
    ),
    (
        "check",
        "MODULE m\nMODULE main\nFROZENVAR x : boolean; g : m;\n",
        "-- refused 401 TypeMismatch at 3:28\n",
        3,
    ),
];

const RULES_OF_ITEMS: [Case; 30] = [
    (
        "check",
        "MODULE m\nMODULE main\nVAR g : m; x : boolean;\nINIT x & g\n",
        "-- refused 401 TypeMismatch at 4:8\n",
        3,
    ),
    (
        "check",
        "MODULE m\nMODULE main\nVAR g : m; x : boolean;\nTRANS next(g)\n",
        "-- refused 401 TypeMismatch at 4:7\n",
        3,
    ),
    (
        "check",
        "MODULE m\nMODULE main\nVAR g : m; x : boolean;\nINVAR !g\n",
        "-- refused 401 TypeMismatch at 4:7\n",
        3,
    ),
    (
        "check",
        "MODULE m\nMODULE main\nVAR g : m; x : boolean;\nINVARSPEC x ? x : g\n",
        "-- refused 401 TypeMismatch at 4:13\n",
        3,
    ),
    (
        "check",
        "MODULE m\nMODULE main\nVAR g : m; x : boolean;\nINVARSPEC g\n",
        "-- refused 401 TypeMismatch at 4:11\n",
        3,
    ),
    (
        "check",
        "MODULE m\nMODULE main\nVAR g : m; x : boolean;\nASSIGN init(g) := TRUE;\n",
        "-- refused 401 TypeMismatch at 4:8\n",
        3,
    ),
    (
        "check",
        "MODULE m\nMODULE main\nVAR g : m; x : boolean;\nASSIGN x := g;\n",
        "-- refused 401 TypeMismatch at 4:8\n",
        3,
    ),
    (
        "check",
        "MODULE main\nVAR x : boolean;\nINIT next(x)\n",
        "-- refused 406 NextHere at 3:6\n",
        3,
    ),
    (
        "check",
        "MODULE main\nVAR x : boolean;\nJUSTICE x | next(x)\n",
        "-- refused 406 NextHere at 3:13\n",
        3,
    ),
    (
        "check",
        "MODULE main\nVAR x : boolean;\nDEFINE d := next(x);\nTRANS d\n",
        "-- refused 406 NextHere at 3:13\n",
        3,
    ),
    (
        "check",
        "MODULE main\nVAR x : boolean;\nTRANS next(x & next(x))\n",
        "-- refused 406 NextHere at 3:16\n",
        3,
    ),
    (
        "check",
        "MODULE m(p)\nTRANS p\nMODULE main\nVAR x : boolean; g : m(next(x));\n",
        "-- refused 406 NextHere at 4:24\n",
        3,
    ),
    (
        "check",
        "MODULE main\nVAR x : boolean; y : boolean;\nASSIGN init(x) := next(y);\n",
        "-- refused 406 NextHere at 3:19\n",
        3,
    ),
    (
        "check",
        "MODULE main\nIVAR i : boolean;\nINIT i\n",
        "-- refused 407 InputHere at 3:6\n",
        3,
    ),
    (
        "check",
        "MODULE main\nIVAR i : boolean;\nINVAR TRUE | i\n",
        "-- refused 407 InputHere at 3:14\n",
        3,
    ),
    (
        "check",
        "MODULE main\nIVAR i : boolean;\nINVARSPEC !i\n",
        "-- refused 407 InputHere at 3:12\n",
        3,
    ),
    (
        "check",
        "MODULE main\nIVAR i : boolean;\nFAIRNESS i\n",
        "-- refused 407 InputHere at 3:10\n",
        3,
    ),
    (
        "check",
        "MODULE main\nIVAR i : boolean;\nTRANS next(i)\n",
        "-- refused 407 InputHere at 3:12\n",
        3,
    ),
    (
        "check",
        "MODULE m\nIVAR i : boolean;\nMODULE main\nVAR x : boolean; g : m;\nASSIGN x := g.i;\n",
        "-- refused 407 InputHere at 5:13\n",
        3,
    ),
    (
        "check",
        "MODULE main\nIVAR i : boolean;\nDEFINE d := !i;\nINVARSPEC d\n",
        "-- refused 407 InputHere at 3:14\n",
        3,
    ),
    (
        "check",
        "MODULE main\nIVAR i : boolean;\nASSIGN i := TRUE;\n",
        "-- refused 411 NotAssignable at 3:8\n",
        3,
    ),
    (
        "check",
        "MODULE main\nDEFINE d := TRUE;\nASSIGN d := TRUE;\n",
        "-- refused 411 NotAssignable at 3:8\n",
        3,
    ),
    (
        "check",
        "MODULE main\nFROZENVAR f : boolean;\nASSIGN next(f) := TRUE;\n",
        "-- refused 411 NotAssignable at 3:8\n",
        3,
    ),
    (
        "check",
        "MODULE main\nFROZENVAR f : boolean;\nASSIGN init(f) := TRUE; f := TRUE;\n",
        "-- refused 411 NotAssignable at 3:25\n",
        3,
    ),
    (
        "check",
        "MODULE m(p)\nASSIGN p := TRUE;\nMODULE main\nVAR x : boolean; g : m(!x);\n",
        "-- refused 411 NotAssignable at 2:8\n",
        3,
    ),
    // The items of `main` come first.
    (
        "check",
        "MODULE m\nVAR x : boolean;\nASSIGN init(x) := TRUE;\nMODULE main\nVAR g : m;\nASSIGN init(g.x) := FALSE;\n",
        "-- refused 501 AssignedTwice at 3:8: g.x\n",
        3,
    ),
    (
        "check",
        "MODULE m(p)\nASSIGN next(p) := TRUE;\nMODULE main\nVAR x : boolean; a : m(x); b : m(x);\n",
        "-- refused 501 AssignedTwice at 2:8: x\n",
        3,
    ),
    (
        "check",
        "MODULE m(p)\nVAR x : boolean;\nASSIGN x := p;\nMODULE main\nVAR a : m(b.x); b : m(a.x);\n",
        "-- refused 502 AssignCycle at 3:8: a.x, b.x, a.x\n",
        3,
    ),
    (
        "check",
        "MODULE m(p)\nVAR x : boolean;\nASSIGN next(x) := next(p);\nMODULE main\nVAR y : boolean; a : m(y);\nDEFINE d := !a.x;\nASSIGN next(y) := next(d);\n",
        "-- refused 502 AssignCycle at 7:8: y, a.x, y\n",
        3,
    ),
    (
        "check",
        "MODULE main\nVAR x : boolean;\nSPEC x\n",
        "-- refused 203 Unsupported at 3:1: SPEC\n",
        3,
    ),
];

const MODELS: [Case; 19] = [
    // Models of more modules, inputs and frozen variables, and listings.
    // An inverter.
    (
        "check",
        "MODULE inv(a)\nDEFINE o := !a;\nMODULE main\nVAR x : boolean; g : inv(x);\nASSIGN init(x) := FALSE; next(x) := g.o;\nINVARSPEC !x\n",
        "-- spec 1 INVARSPEC is false\n--@ spec 1\n--@ state 0: x = FALSE\n--@ state 1: x = TRUE\n",
        1,
    ),
    (
        "flat",
        "MODULE inv(a)\nDEFINE o := !a;\nMODULE main\nVAR x : boolean; g : inv(x);\nASSIGN init(x) := FALSE; next(x) := g.o;\nINVARSPEC !x\n",
        "-- slot 0 state x : boolean\n-- item 0 init at 5:8 of main\n-- item 1 next at 5:26 of main\n",
        0,
    ),
    // A ring of two cells, each of which is given the variable of the other.
    (
        "check",
        "MODULE cell(before)\nVAR on : boolean;\nASSIGN init(on) := FALSE; next(on) := before;\nMODULE main\nVAR a : cell(b.on); b : cell(!a.on);\nINVARSPEC a.on -> b.on\n",
        "-- spec 1 INVARSPEC is false\n--@ spec 1\n--@ state 0: a.on = FALSE, b.on = FALSE\n--@ state 1: a.on = FALSE, b.on = TRUE\n--@ state 2: a.on = TRUE, b.on = TRUE\n--@ state 3: a.on = TRUE, b.on = FALSE\n",
        1,
    ),
    // An instance in an instance: its variables come behind.
    (
        "check",
        "MODULE leaf\nVAR x : boolean;\nMODULE branch\nVAR b : leaf; y : boolean;\nASSIGN y := !b.x;\nMODULE main\nVAR a : branch;\nASSIGN init(a.b.x) := TRUE; next(a.b.x) := a.y;\nINVARSPEC a.b.x\n",
        "-- spec 1 INVARSPEC is false\n--@ spec 1\n--@ state 0: a.y = FALSE, a.b.x = TRUE\n--@ state 1: a.y = TRUE, a.b.x = FALSE\n",
        1,
    ),
    // An instance that is given itself the instance above it.
    (
        "check",
        "MODULE m(p)\nVAR x : boolean;\nASSIGN init(self.x) := FALSE; next(x) := p.x | self.x;\nMODULE main\nVAR x : boolean; g : m(self);\nASSIGN init(x) := TRUE; next(x) := FALSE;\nINVARSPEC self.g.x -> x\n",
        "-- spec 1 INVARSPEC is false\n--@ spec 1\n--@ state 0: x = TRUE, g.x = FALSE\n--@ state 1: x = FALSE, g.x = TRUE\n",
        1,
    ),
    // A definition that is given, and one behind a parameter; each instance has the specification.
    (
        "check",
        "MODULE watch(p)\nDEFINE seen := p;\nINVARSPEC seen\nMODULE main\nVAR x : boolean; a : watch(d); b : watch(!a.seen);\nDEFINE d := x xor TRUE;\nINIT x\nTRANS next(x)\n",
        "-- spec 1 INVARSPEC is false\n--@ spec 1\n--@ state 0: x = TRUE\n-- spec 2 INVARSPEC is true\n",
        1,
    ),
    // A variable that is assigned through a parameter.
    (
        "check",
        "MODULE set(p)\nASSIGN init(p) := TRUE; next(p) := FALSE;\nMODULE main\nVAR x : boolean; s : set(x);\nINVARSPEC x\n",
        "-- spec 1 INVARSPEC is false\n--@ spec 1\n--@ state 0: x = TRUE\n--@ state 1: x = FALSE\n",
        1,
    ),
    // Of initial states and of later ones.
    (
        "check",
        "MODULE main\nVAR x : boolean; y : boolean;\nINVAR x != y\nASSIGN init(x) := TRUE; next(x) := FALSE;\nINVARSPEC x | y\nINVARSPEC !y\n",
        "-- spec 1 INVARSPEC is true\n-- spec 2 INVARSPEC is false\n--@ spec 2\n--@ state 0: x = TRUE, y = FALSE\n--@ state 1: x = FALSE, y = TRUE\n",
        1,
    ),
    // A frozen variable keeps its value.
    (
        "check",
        "MODULE main\nVAR x : boolean;\nFROZENVAR f : boolean;\nASSIGN init(x) := f; next(x) := x;\nINVARSPEC x = f\nINVARSPEC f\n",
        "-- spec 1 INVARSPEC is true\n-- spec 2 INVARSPEC is false\n--@ spec 2\n--@ state 0: x = FALSE, f = FALSE\n",
        1,
    ),
    (
        "check",
        "MODULE main\nFROZENVAR f : boolean;\nASSIGN init(f) := TRUE;\nINVARSPEC f\n",
        "-- spec 1 INVARSPEC is true\n",
        0,
    ),
    // The inputs of each step.
    (
        "check",
        "MODULE cell(before)\nVAR on : boolean;\nASSIGN init(on) := FALSE; next(on) := before;\nMODULE main\nIVAR press : boolean;\nVAR a : cell(press); b : cell(a.on);\nINVARSPEC !(a.on & b.on)\n",
        "-- spec 1 INVARSPEC is false\n--@ spec 1\n--@ state 0: a.on = FALSE, b.on = FALSE\n--@ input 0: press = TRUE\n--@ state 1: a.on = TRUE, b.on = FALSE\n--@ input 1: press = TRUE\n--@ state 2: a.on = TRUE, b.on = TRUE\n",
        1,
    ),
    (
        "check",
        "MODULE main\nIVAR i : boolean; j : boolean;\nVAR x : boolean;\nINIT !x\nTRANS !next(x) | i & !j\nINVARSPEC !x\nINVARSPEC NAME here := x\n",
        "-- spec 1 INVARSPEC is false\n--@ spec 1\n--@ state 0: x = FALSE\n--@ input 0: i = TRUE, j = FALSE\n--@ state 1: x = TRUE\n-- spec 2 INVARSPEC is false\n--@ spec 2\n--@ state 0: x = FALSE\n",
        1,
    ),
    // A model without slots of a state.
    (
        "check",
        "MODULE main\nIVAR i : boolean;\nINVARSPEC FALSE\n",
        "-- spec 1 INVARSPEC is false\n--@ spec 1\n--@ state 0:\n",
        1,
    ),
    // Fairness has no effect on invariants.
    (
        "check",
        "MODULE main\nVAR x : boolean;\nASSIGN init(x) := FALSE; next(x) := !x;\nJUSTICE !x\nFAIRNESS FALSE\nINVARSPEC !x\n",
        "-- spec 1 INVARSPEC is false\n--@ spec 1\n--@ state 0: x = FALSE\n--@ state 1: x = TRUE\n",
        1,
    ),
    (
        "check",
        "MODULE main\nVAR x : boolean; y : boolean;\nASSIGN init(x) := FALSE; init(y) := FALSE; next(x) := y ? x : !x; next(y) := x;\nINVARSPEC x | !y\n",
        "-- spec 1 INVARSPEC is false\n--@ spec 1\n--@ state 0: x = FALSE, y = FALSE\n--@ state 1: x = TRUE, y = FALSE\n--@ state 2: x = FALSE, y = TRUE\n",
        1,
    ),
    // `? :` goes to the right, and binds tighter than `<->` and less than `|`.
    (
        "check",
        "MODULE main\nVAR a : boolean; b : boolean; c : boolean; d : boolean; e : boolean;\nINVARSPEC (a ? b : c ? d : e) = ((a & b) | (!a & c & d) | (!a & !c & e))\nINVARSPEC (a ? b : c <-> d) = (d = (a & b | !a & c))\nINVARSPEC (a | b ? c : d) = (!a & !b ? d : c)\n",
        "-- spec 1 INVARSPEC is true\n-- spec 2 INVARSPEC is true\n-- spec 3 INVARSPEC is true\n",
        0,
    ),
    // Slots and items of each kind.
    (
        "flat",
        "MODULE main\nIVAR i : boolean;\nFROZENVAR f : boolean;\nVAR g : m(f); x : boolean;\nDEFINE d := x;\nINIT d\nINVAR f | TRUE\nTRANS i -> next(x)\nJUSTICE x\nFAIRNESS f\nINVARSPEC x\nASSIGN init(x) := TRUE;\nMODULE m(p)\nVAR y : boolean; h : n;\nASSIGN next(y) := p; h.z := y;\nMODULE n\nIVAR j : boolean;\nVAR z : boolean;\nINVARSPEC z\n",
        "-- slot 0 input i : boolean\n-- slot 1 frozen f : boolean\n-- slot 2 state x : boolean\n-- slot 3 state g.y : boolean\n-- slot 4 input g.h.j : boolean\n-- slot 5 state g.h.z : boolean\n-- item 0 INIT at 6:1 of main\n-- item 1 INVAR at 7:1 of main\n-- item 2 TRANS at 8:1 of main\n-- item 3 JUSTICE at 9:1 of main\n-- item 4 JUSTICE at 10:1 of main\n-- item 5 init at 12:8 of main\n-- item 6 next at 15:8 of g\n-- item 7 now at 15:22 of g\n",
        0,
    ),
    // Nothing to list.
    ("flat", "MODULE main\nINVARSPEC TRUE\n", "", 0),
    (
        "flat",
        "MODULE main\nINIT y\n",
        "-- refused 304 UnknownName at 2:6: y\n",
        3,
    ),
];

// A model with lines of traces and certificates, and what is said of them.
const RECHECKS: [Case; 22] = [
    (
        "recheck",
        "MODULE main\nVAR x : boolean;\nASSIGN init(x) := FALSE; next(x) := x;\nINVARSPEC !x\n--% cert 1 spec 1 counter none\n--% clause -1 0\n--% part first 1\n--% step 0\n--% part kept 1\n--% step 0\n--% part safe 0\n--% step 0\n--% end\n",
        "-- spec 1 INVARSPEC is shown true\n",
        0,
    ),
    (
        "recheck",
        "MODULE main\nVAR x : boolean;\nASSIGN init(x) := FALSE; next(x) := x;\nINVARSPEC !x\n--% cert 1 spec 1 counter none\n--% clause 1 0\n--% part first 1\n--% step 0\n--% part kept 1\n--% step 0\n--% part safe 0\n--% step 0\n--% end\n",
        "-- spec 1 INVARSPEC is rejected: part first 1\n",
        1,
    ),
    // The last step is not empty.
    (
        "recheck",
        "MODULE main\nVAR x : boolean;\nASSIGN init(x) := FALSE; next(x) := x;\nINVARSPEC !x\n--% cert 1 spec 1 counter none\n--% clause -1 0\n--% part first 1\n--% step 0\n--% part kept 1\n--% step 0\n--% part safe 0\n--% step 1 0\n--% end\n",
        "-- spec 1 INVARSPEC is rejected: part safe 0\n",
        1,
    ),
    // Made anew it has hints, and so it is shown true again.
    (
        "recheck --upgrade",
        "MODULE main\nVAR x : boolean;\nASSIGN init(x) := FALSE; next(x) := x;\nINVARSPEC !x\n--% cert 1 spec 1 counter none\n--% clause -1 0\n--% part first 1\n--% step 0\n--% part kept 1\n--% step 0\n--% part safe 0\n--% step 0\n--% end\n",
        "-- spec 1 INVARSPEC is shown true\n--% cert 2 spec 1 counter none\n--% clause -1 0\n--% part first 1\n--% step 0 1 2 0\n--% part kept 1\n--% step 0 1 4 2 0\n--% part safe 0\n--% step 0 1 2 0\n--% end\n",
        0,
    ),
    (
        "recheck",
        "MODULE main\nVAR x : boolean;\nASSIGN init(x) := FALSE; next(x) := x;\nINVARSPEC !x\n--% cert 2 spec 1 counter none\n--% clause -1 0\n--% part first 1\n--% step 0 1 2 0\n--% part kept 1\n--% step 0 1 4 2 0\n--% part safe 0\n--% step 0 1 2 0\n--% end\n",
        "-- spec 1 INVARSPEC is shown true\n",
        0,
    ),
    // Without hints nothing follows, and without the end of its hints a step is none.
    (
        "recheck",
        "MODULE main\nVAR x : boolean;\nASSIGN init(x) := FALSE; next(x) := x;\nINVARSPEC !x\n--% cert 2 spec 1 counter none\n--% clause -1 0\n--% part first 1\n--% step 0 0\n--% part kept 1\n--% step 0 0\n--% part safe 0\n--% step 0 0\n--% end\n",
        "-- spec 1 INVARSPEC is rejected: part first 1\n",
        1,
    ),
    (
        "recheck",
        "MODULE main\nVAR x : boolean;\nASSIGN init(x) := FALSE; next(x) := x;\nINVARSPEC !x\n--% cert 2 spec 1 counter none\n--% clause -1 0\n--% part first 1\n--% step 0\n--% part kept 1\n--% step 0\n--% part safe 0\n--% step 0\n--% end\n",
        "-- refused 701 BadCertificate at 8:1\n",
        3,
    ),
    // The model toggles, so that the clause is not kept.
    (
        "recheck",
        "MODULE main\nVAR x : boolean;\nASSIGN init(x) := FALSE; next(x) := !x;\nINVARSPEC !x\n--% cert 1 spec 1 counter none\n--% clause -1 0\n--% part first 1\n--% step 0\n--% part kept 1\n--% step 0\n--% part safe 0\n--% step 0\n--% end\n",
        "-- spec 1 INVARSPEC is rejected: part kept 1\n",
        1,
    ),
    (
        "recheck",
        "MODULE main\nVAR x : boolean;\nASSIGN init(x) := FALSE; next(x) := !x;\nINVARSPEC !x\n--@ spec 1\n--@ state 0: x = FALSE\n--@ state 1: x = FALSE\n",
        "-- spec 1 INVARSPEC is rejected: trace step 0\n",
        1,
    ),
    // The lines of a report may stand in front of their model.
    (
        "recheck",
        "--@ spec 1\n--@ state 0: x = FALSE\n--@ state 1: x = TRUE\nMODULE main\nVAR x : boolean;\nASSIGN init(x) := FALSE; next(x) := !x;\nINVARSPEC !x\n",
        "-- spec 1 INVARSPEC is shown false\n",
        0,
    ),
    // Of two specifications one is shown; a rejected one weighs more.
    (
        "recheck",
        "MODULE main\nVAR x : boolean;\nASSIGN init(x) := FALSE; next(x) := !x;\nINVARSPEC !x\nINVARSPEC x | !x\n--@ spec 1\n--@ state 0: x = FALSE\n--@ state 1: x = TRUE\n",
        "-- spec 1 INVARSPEC is shown false\n-- spec 2 INVARSPEC has nothing shown\n",
        2,
    ),
    (
        "recheck",
        "MODULE main\nVAR x : boolean;\nASSIGN init(x) := FALSE; next(x) := !x;\nINVARSPEC !x\nINVARSPEC x | !x\n--@ spec 1\n--@ state 0: x = FALSE\n",
        "-- spec 1 INVARSPEC is rejected: trace spec 0\n-- spec 2 INVARSPEC has nothing shown\n",
        1,
    ),
    ("recheck", "MODULE main\nVAR x : boolean;\n", "", 0),
    // A text that is no model, and lines that are not as they should be.
    (
        "recheck",
        "MODULE main\nINIT y\n--@ spec 9\n",
        "-- refused 304 UnknownName at 2:6: y\n",
        3,
    ),
    (
        "recheck",
        "MODULE main\nVAR x : boolean;\nINVARSPEC !x\n--@ spec 2\n",
        "-- refused 702 BadTrace at 4:1\n",
        3,
    ),
    (
        "recheck",
        "MODULE main\nVAR x : boolean;\nINVARSPEC !x\n--% cert 1 spec 2 counter none\n--% end\n",
        "-- refused 701 BadCertificate at 4:1\n",
        3,
    ),
    (
        "recheck",
        "MODULE main\nVAR x : boolean;\nASSIGN init(x) := FALSE; next(x) := x;\nINVARSPEC !x\n--% clause -1 0\n",
        "-- refused 701 BadCertificate at 5:1\n",
        3,
    ),
    (
        "recheck",
        "MODULE main\nVAR x : boolean;\nASSIGN init(x) := FALSE; next(x) := x;\nINVARSPEC !x\n--% cert 1 spec 2 counter none\n",
        "-- refused 701 BadCertificate at 5:1\n",
        3,
    ),
    // The first state has number 0, and x no number as its value.
    (
        "recheck",
        "MODULE main\nVAR x : boolean;\nASSIGN init(x) := FALSE; next(x) := !x;\nINVARSPEC !x\n--@ spec 1\n--@ state 1: x = TRUE\n",
        "-- refused 702 BadTrace at 6:1\n",
        3,
    ),
    (
        "recheck",
        "MODULE main\nVAR x : boolean;\nASSIGN init(x) := FALSE; next(x) := !x;\nINVARSPEC !x\n--@ spec 1\n--@ state 0: x = 7\n",
        "-- spec 1 INVARSPEC is rejected: trace values 0\n",
        1,
    ),
    // The lasso of a model without JUSTICE.
    (
        "recheck",
        "MODULE main\nVAR x : boolean;\nJUSTICE x\nLTLSPEC F x\n-- spec 1 LTLSPEC is false\n--@ spec 1\n--@ state 0: x = FALSE\n--@ loop 0\n",
        "-- spec 1 LTLSPEC is rejected: trace fair 0\n",
        1,
    ),
    // To the other commands they are comments.
    (
        "check",
        "MODULE main\nVAR x : boolean;\nASSIGN init(x) := FALSE; next(x) := x;\nINVARSPEC !x\n--@ spec 2\n--% end\n",
        TRUE,
        0,
    ),
];

#[test]
fn rechecks(rt: HostRuntime) -> Result<(), Fail> {
    let wrong = first_wrong(&rt, rt.alloc(), &RECHECKS)?;
    assert_eq!(rt; wrong, None);
    Ok(())
}

// A line of words, a source, and what is said of its report when it is judged again with the source.
pub type Round = (&'static str, &'static str, &'static str, u8);

const SHOWN: &str = "-- spec 1 INVARSPEC is shown true\n";

const BOTH_SHOWN: &str = "-- spec 1 INVARSPEC is shown false\n-- spec 2 INVARSPEC is shown true\n";

// A number of three bits goes from 0 to 5, and is never 6 or 7.
const COUNTING: &str =
    "MODULE main\nVAR a : boolean; b : boolean; c : boolean;\nASSIGN init(a) := FALSE; init(b) := FALSE; init(c) := FALSE;\nnext(a) := !a; next(b) := (a xor b) & !(c & a); next(c) := c xor (a & (b | c));\nINVARSPEC !(b & c)\nINVARSPEC !(a & b & c)\n";

const COUNTING_SHOWN: &str =
    "-- spec 1 INVARSPEC is shown true\n-- spec 2 INVARSPEC is shown true\n";

// A run with inputs, and one of a module.
const CELLS: &str =
    "MODULE cell(next_one)\nVAR on : boolean;\nASSIGN init(on) := FALSE; next(on) := next_one;\nMODULE main\nIVAR push : boolean;\nVAR first : cell(second.on); second : cell(push);\nINVARSPEC !first.on\n";

const ROUNDS: [Round; 11] = [
    ("check", TOGGLING, "-- spec 1 INVARSPEC is shown false\n", 0),
    ("check", STANDING, UNSHOWN, 2),
    (
        "check",
        BOTH,
        "-- spec 1 INVARSPEC is shown false\n-- spec 2 INVARSPEC has nothing shown\n",
        2,
    ),
    ("check", CELLS, "-- spec 1 INVARSPEC is shown false\n", 0),
    // What is true is shown by its certificate.
    ("check --cert", STANDING, SHOWN, 0),
    ("check --cert", BOTH, BOTH_SHOWN, 0),
    ("check --cert --together", BOTH, BOTH_SHOWN, 0),
    ("check --cert", COUNTING, COUNTING_SHOWN, 0),
    ("check --together --cert", COUNTING, COUNTING_SHOWN, 0),
    (
        "check --cert",
        CELLS,
        "-- spec 1 INVARSPEC is shown false\n",
        0,
    ),
    ("check --cert --conflicts 0", STANDING, UNSHOWN, 2),
];

// A source with its report behind it.
fn with_report<R: Threads + Wait + Sync>(
    rt: &R,
    alloc: Global,
    line: &str,
    text: &[u8],
) -> Result<Vec<u8>, AllocError> {
    let words: Vec<&str> = line.split_whitespace().collect(alloc)?;
    let mut both = text.to_vec(alloc)?;
    let (_, report) = run_over_bytes(rt, alloc, &words, text.to_vec(alloc)?);
    both.extend_from_slice(report.as_slice())?;
    Ok(both)
}

// The source of the first round whose report is judged otherwise.
pub fn first_wrong_round<R: Threads + Wait + Sync>(
    rt: &R,
    alloc: Global,
    rounds: &[Round],
) -> Result<Option<&'static str>, AllocError> {
    for (line, text, want, status) in rounds {
        let both = with_report(rt, alloc, line, text.as_bytes())?;
        let words = ["recheck"];
        if !prints_whole(rt, alloc, &words, both.as_slice(), want.as_bytes(), *status)? {
            return Ok(Some(text));
        }
    }
    Ok(None)
}

// What `check` prints behind its source is what `recheck` judges.
#[test]
fn rounds(rt: HostRuntime) -> Result<(), Fail> {
    let wrong = first_wrong_round(&rt, rt.alloc(), &ROUNDS)?;
    assert_eq!(rt; wrong, None);
    Ok(())
}

// A source of which all is true, and what is said of its certificates.
const UPGRADES: [(&str, &str); 2] = [(STANDING, SHOWN), (COUNTING, COUNTING_SHOWN)];

// Whether certificates that are made anew show this behind their source.
fn shows_anew<R: Threads + Wait + Sync>(
    rt: &R,
    alloc: Global,
    text: &[u8],
    want: &str,
) -> Result<bool, AllocError> {
    let mut both = text.to_vec(alloc)?;
    let whole = with_report(rt, alloc, "check --cert", text)?;
    let (_, anew) = run_over_bytes(rt, alloc, &["recheck", "--upgrade"], whole);
    both.extend_from_slice(anew.as_slice())?;
    prints_whole(rt, alloc, &["recheck"], both.as_slice(), want.as_bytes(), 0)
}

// The source of the first certificates that show something else.
fn first_wrong_upgrade<R: Threads + Wait + Sync>(
    rt: &R,
    alloc: Global,
) -> Result<Option<&'static str>, AllocError> {
    for (text, want) in &UPGRADES {
        if !shows_anew(rt, alloc, text.as_bytes(), want)? {
            return Ok(Some(text));
        }
    }
    Ok(None)
}

#[test]
fn upgrades(rt: HostRuntime) -> Result<(), Fail> {
    let wrong = first_wrong_upgrade(&rt, rt.alloc())?;
    assert_eq!(rt; wrong, None);
    Ok(())
}

#[test]
fn cases(rt: HostRuntime) -> Result<(), Fail> {
    let wrong = first_wrong(&rt, rt.alloc(), &CASES)?;
    assert_eq!(rt; wrong, None);
    Ok(())
}

#[test]
fn refusals(rt: HostRuntime) -> Result<(), Fail> {
    let wrong = first_wrong(&rt, rt.alloc(), &REFUSALS)?;
    assert_eq!(rt; wrong, None);
    Ok(())
}

#[test]
fn rules_of_modules(rt: HostRuntime) -> Result<(), Fail> {
    let wrong = first_wrong(&rt, rt.alloc(), &RULES_OF_MODULES)?;
    assert_eq!(rt; wrong, None);
    Ok(())
}

#[test]
fn rules_of_items(rt: HostRuntime) -> Result<(), Fail> {
    let wrong = first_wrong(&rt, rt.alloc(), &RULES_OF_ITEMS)?;
    assert_eq!(rt; wrong, None);
    Ok(())
}

#[test]
fn models(rt: HostRuntime) -> Result<(), Fail> {
    let wrong = first_wrong(&rt, rt.alloc(), &MODELS)?;
    assert_eq!(rt; wrong, None);
    Ok(())
}

// The first read whose failing is not told, or behind which something is printed: each byte of the text is read by one,
// and its end is found by one.
fn untold_read<R: Threads + Wait + Sync>(
    rt: &R,
    alloc: Global,
    text: &[u8],
) -> Result<Option<usize>, AllocError> {
    for call in 0..=text.len() {
        if !prints(rt, alloc, &["check"], text, 1, call as u64, NONE, &[], 5)? {
            return Ok(Some(call));
        }
    }
    Ok(None)
}

// The first write whose failing is not told, or before which another text is printed: each byte of the report is
// written by one.
fn untold_write<R: Threads + Wait + Sync>(
    rt: &R,
    alloc: Global,
    text: &[u8],
    report: &[u8],
) -> Result<Option<usize>, AllocError> {
    for call in 0..report.len() {
        let front = &report[..call];
        if !prints(rt, alloc, &["check"], text, 1, NONE, call as u64, front, 6)? {
            return Ok(Some(call));
        }
    }
    Ok(None)
}

#[test]
fn failing_calls(rt: HostRuntime) -> Result<(), Fail> {
    let (alloc, text, report) = (rt.alloc(), TOGGLING.as_bytes(), BROKEN.as_bytes());
    assert_eq!(rt; untold_read(&rt, alloc, text)?, None);
    assert_eq!(rt; untold_write(&rt, alloc, text, report)?, None);
    // The second write of ten bytes.
    let front = b"-- spec 1 ".as_slice();
    assert!(rt;
        prints(
            &rt,
            alloc,
            &["check"],
            STANDING.as_bytes(),
            10,
            NONE,
            1,
            front,
            6
        )?
    );
    // The words are judged before anything is read.
    assert!(rt;
        prints(
            &rt,
            alloc,
            &["rechecks"],
            text,
            7,
            0,
            NONE,
            USAGE.as_bytes(),
            4
        )?
    );
    Ok(())
}

// A stream whose calls all fail.
#[derive(Drop)]
struct Broken;

impl Read for Broken {
    fn read(&mut self, _buf: &mut [u8]) -> io::Result<usize> {
        Err(io::Error::from(io::ErrorKind::Other))
    }
}

impl Write for Broken {
    fn write(&mut self, _buf: &[u8]) -> io::Result<usize> {
        Err(io::Error::from(io::ErrorKind::Other))
    }

    fn flush(&mut self) -> io::Result<()> {
        Ok(())
    }
}

// The status of a run over these streams.
fn piped<R: Threads + Wait + Sync, I: Read + Drop, O: Write + Drop>(
    rt: &R,
    alloc: Global,
    reader: I,
    writer: O,
) -> u8 {
    let mut source = StdSource::new(reader);
    let mut sink = StdSink::new(writer);
    run(rt, alloc, &["check"], &mut source, &mut sink, &OpenGate)
}

#[test]
fn adapters(rt: HostRuntime) -> Result<(), Fail> {
    let (alloc, text) = (rt.alloc(), TOGGLING.as_bytes());
    assert_eq!(rt; piped(&rt, alloc, text, Vec::new(alloc)), 1);
    assert_eq!(rt; piped(&rt, alloc, Broken, Vec::new(alloc)), 5);
    assert_eq!(rt; piped(&rt, alloc, text, Broken), 6);
    // What is full takes nothing more, and tells no error.
    let mut room = [0u8; 10];
    assert_eq!(rt; piped(&rt, alloc, text, room.as_mut_slice()), 6);
    Ok(())
}

// Whether the text is refused, with status 3, or judged, with status 0 or 1.
fn is_judged<R: Threads + Wait + Sync>(
    rt: &R,
    alloc: Global,
    text: &[u8],
) -> Result<bool, AllocError> {
    let (status, printed) = run_over_bytes(rt, alloc, &["check"], text.to_vec(alloc)?);
    if printed.as_slice().starts_with(b"-- refused ") {
        Ok(status == 3)
    } else {
        Ok(status == 0 || status == 1)
    }
}

// How many bytes the first beginning of the text has that is neither.
fn unjudged_prefix<R: Threads + Wait + Sync>(
    rt: &R,
    alloc: Global,
    text: &[u8],
) -> Result<Option<usize>, AllocError> {
    for n in 0..text.len() {
        if !is_judged(rt, alloc, &text[..n])? {
            return Ok(Some(n));
        }
    }
    Ok(None)
}

#[test]
fn every_prefix_is_judged(rt: HostRuntime) -> Result<(), Fail> {
    // Some beginnings of a source are models themselves, as those that end before `INVARSPEC`.
    let unjudged = unjudged_prefix(&rt, rt.alloc(), TOGGLING.as_bytes())?;
    assert_eq!(rt; unjudged, None);
    Ok(())
}

// What a long source is made of.
#[derive(Clone, Copy)]
enum Parts {
    Blanks,
    // Modules, each but for the last with two instances of the next.
    Modules,
    Variables,
    // Definitions, each the next one; the last is x.
    Names,
    // Definitions, each the next one and x.
    Operands,
    // Definitions, each the next one in parentheses.
    Parentheses,
    // Definitions, each twice the next one.
    Twice,
}

// As many definitions, in each of which the next one stands between these pieces; the last one names x.
fn names(alloc: Global, count: usize, pieces: &[&'static str]) -> Result<String, AllocError> {
    let before = "MODULE main VAR x : boolean; DEFINE d0 := d1;\n";
    definitions(alloc, count, before, pieces, &["x;\nINVARSPEC d0\n"])
}

// A source of so many parts.
fn source_of(alloc: Global, parts: Parts, count: usize) -> Result<Vec<u8>, AllocError> {
    let text = match parts {
        Parts::Blanks => return vec![in alloc; b' '; count],
        Parts::Modules => modules(alloc, count),
        Parts::Variables => variables(alloc, count, " : boolean;\n", ""),
        Parts::Names => names(alloc, count, &["", ""]),
        Parts::Operands => names(alloc, count, &["", " & x"]),
        Parts::Parentheses => names(alloc, count, &["(", ")"]),
        Parts::Twice => names(alloc, count, &["", " & ", ""]),
    };
    Ok(text?.into_bytes())
}

// What a source is made of, of how many, what is printed, and the status.
type Size = (Parts, usize, &'static str, u8);

const OFF: &str = "-- spec 1 INVARSPEC is false\n--@ spec 1\n--@ state 0: x = FALSE\n";

const SIZES: [Size; 11] = [
    (
        Parts::Blanks,
        16_777_217,
        "-- refused 105 SourceTooLarge at 1:1\n",
        3,
    ),
    (
        Parts::Blanks,
        16_777_216,
        "-- refused 301 NoMain at 1:1\n",
        3,
    ),
    (Parts::Modules, 15, "", 0),
    (
        Parts::Modules,
        16,
        "-- refused 311 TooManyInstances at 1:8\n",
        3,
    ),
    (
        Parts::Variables,
        65_537,
        "-- refused 312 TooManySlots at 1:1\n",
        3,
    ),
    // Each name that is followed opens a level.
    (Parts::Names, 1999, OFF, 1),
    (
        Parts::Names,
        2000,
        "-- refused 310 UnfoldedDepth at 2002:1\n",
        3,
    ),
    // Operands open none, and each parenthesis opens one.
    (Parts::Operands, 1100, OFF, 1),
    (Parts::Parentheses, 1000, OFF, 1),
    (
        Parts::Parentheses,
        1001,
        "-- refused 310 UnfoldedDepth at 1003:1\n",
        3,
    ),
    // What stands for 2^40 names is judged in no time.
    (Parts::Twice, 41, OFF, 1),
];

// The number of the first source that is answered otherwise.
fn first_wrong_size<R: Threads + Wait + Sync>(
    rt: &R,
    alloc: Global,
) -> Result<Option<usize>, AllocError> {
    for (row, (parts, count, want, status)) in SIZES.iter().enumerate() {
        let text = source_of(alloc, *parts, *count)?;
        if !prints_whole(rt, alloc, &["check"], &text, want.as_bytes(), *status)? {
            return Ok(Some(row));
        }
    }
    Ok(None)
}

#[test]
fn sizes(rt: HostRuntime) -> Result<(), Fail> {
    let wrong = first_wrong_size(&rt, rt.alloc())?;
    assert_eq!(rt; wrong, None);
    Ok(())
}
