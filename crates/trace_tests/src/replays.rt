//! Texts of traces behind small models, and what comes of them.

use crate::lines_of;
use smv_front::read_model;
use smv_meaning::{Typed, specifications};
use smv_tree::TextStop;
use std::alloc::Global;
use std::test::Fail;
use trace_replay::{ReplayRule, Replayed, Trace, print, read, replay};

// What comes of a text: it is refused at a line; it holds no trace of the first specification; or the trace is judged.
#[derive(Clone, Copy, Debug, PartialEq, Eq)]
enum Given {
    Refused(usize),
    Untold,
    Judged(Replayed),
    // The model is refused, or memory was.
    Nothing,
}

#[derive(Clone, Copy)]
struct Row {
    text: &'static str,
    gives: Given,
}

const ACCEPTED: Given = Given::Judged(Replayed::Accepted);

const TOGGLE: &str =
    "MODULE main\nVAR x : boolean;\nASSIGN init(x) := FALSE; next(x) := !x;\nINVARSPEC !x\n";

const TOGGLE_ROWS: [Row; 24] = [
    Row {
        text: "",
        gives: Given::Untold,
    },
    Row {
        text: "--@ spec 1\n--@ state 0: x = FALSE\n--@ state 1: x = TRUE\n",
        gives: ACCEPTED,
    },
    Row {
        text: "--@ spec 1\n--@ state 0: x = FALSE\n--@ state 1: x = FALSE\n",
        gives: Given::Judged(Replayed::Rejected {
            rule: ReplayRule::Step,
            number: 0,
        }),
    },
    Row {
        text: "--@ spec 1\n--@ state 0: x = TRUE\n",
        gives: Given::Judged(Replayed::Rejected {
            rule: ReplayRule::First,
            number: 0,
        }),
    },
    Row {
        text: "--@ spec 1\n--@ state 0: x = FALSE\n",
        gives: Given::Judged(Replayed::Rejected {
            rule: ReplayRule::Spec,
            number: 0,
        }),
    },
    Row {
        text: "--@ spec 1\n",
        gives: Given::Judged(Replayed::Rejected {
            rule: ReplayRule::Values,
            number: 0,
        }),
    },
    Row {
        text: "--@ spec 1\n--@ state 0: x = 7\n",
        gives: Given::Judged(Replayed::Rejected {
            rule: ReplayRule::Values,
            number: 0,
        }),
    },
    Row {
        text: "--@ spec 1\n--@ state 0: y = TRUE\n",
        gives: Given::Judged(Replayed::Rejected {
            rule: ReplayRule::Values,
            number: 0,
        }),
    },
    Row {
        text: "--@ spec 1\n--@ state 0: x = FALSE, x = FALSE\n",
        gives: Given::Judged(Replayed::Rejected {
            rule: ReplayRule::Values,
            number: 0,
        }),
    },
    Row {
        text: "--@ spec 1\n--@ state 0: x = FALSE\n--@ state 1:\n",
        gives: Given::Judged(Replayed::Rejected {
            rule: ReplayRule::Values,
            number: 1,
        }),
    },
    // There are no input slots, so there is no line of inputs.
    Row {
        text: "--@ spec 1\n--@ state 0: x = FALSE\n--@ input 0:\n--@ state 1: x = TRUE\n",
        gives: Given::Judged(Replayed::Rejected {
            rule: ReplayRule::Values,
            number: 0,
        }),
    },
    // A loop is not asked for, but it is the text of one.
    Row {
        text: "--@ spec 1\n--@ state 0: x = FALSE\n--@ state 1: x = TRUE\n--@ loop 4\n",
        gives: Given::Judged(Replayed::Rejected {
            rule: ReplayRule::Loop,
            number: 4,
        }),
    },
    Row {
        text: "--@ spec 1\n--@ state 1: x = TRUE\n",
        gives: Given::Refused(2),
    },
    Row {
        text: "--@ spec 1\n--@ state 0: x = FALSE\n--@ state 0: x = FALSE\n",
        gives: Given::Refused(3),
    },
    Row {
        text: "--@ spec 1\n--@ state 0: x = FALSE\n--@ loop 0\n--@ state 1: x = TRUE\n",
        gives: Given::Refused(4),
    },
    Row {
        text: "--@ spec 1\n--@ spec 1\n",
        gives: Given::Refused(2),
    },
    Row {
        text: "--@ spec 2\n",
        gives: Given::Refused(1),
    },
    Row {
        text: "--@ spec 0\n",
        gives: Given::Refused(1),
    },
    Row {
        text: "--@ spec 01\n",
        gives: Given::Refused(1),
    },
    Row {
        text: "--@ state 0: x = FALSE\n",
        gives: Given::Refused(1),
    },
    Row {
        text: "--@ spec 1\r\n",
        gives: Given::Refused(1),
    },
    Row {
        text: "--@ spec 1\n--@ state 0: x = 0x1\n",
        gives: Given::Refused(2),
    },
    Row {
        text: "--@ spec 1\n--@ state 0: x  = FALSE\n",
        gives: Given::Refused(2),
    },
    Row {
        text: "--@ spec 1\n--@ state 0: x = FALSE,\n",
        gives: Given::Refused(2),
    },
];

const FED: &str =
    "MODULE main\nVAR x : boolean; y : boolean;\nIVAR u : boolean;\nASSIGN init(x) := FALSE; next(x) := u;\nINVAR x -> y\nINVARSPEC !x\n";

const FED_ROWS: [Row; 7] = [
    Row {
        text: "--@ spec 1\n--@ state 0: x = FALSE, y = FALSE\n--@ input 0: u = TRUE\n--@ state 1: x = TRUE, y = TRUE\n",
        gives: ACCEPTED,
    },
    // Lines of inputs may stand behind all states.
    Row {
        text: "--@ spec 1\n--@ state 0: x = FALSE, y = FALSE\n--@ state 1: x = TRUE, y = TRUE\n--@ input 0: u = TRUE\n",
        gives: ACCEPTED,
    },
    Row {
        text: "--@ spec 1\n--@ state 0: x = FALSE, y = FALSE\n--@ input 0: u = TRUE\n--@ state 1: x = TRUE, y = FALSE\n",
        gives: Given::Judged(Replayed::Rejected {
            rule: ReplayRule::Inv,
            number: 1,
        }),
    },
    Row {
        text: "--@ spec 1\n--@ state 0: x = FALSE, y = FALSE\n--@ input 0: u = FALSE\n--@ state 1: x = TRUE, y = TRUE\n",
        gives: Given::Judged(Replayed::Rejected {
            rule: ReplayRule::Step,
            number: 0,
        }),
    },
    Row {
        text: "--@ spec 1\n--@ state 0: x = FALSE, y = FALSE\n--@ state 1: x = TRUE, y = TRUE\n",
        gives: Given::Judged(Replayed::Rejected {
            rule: ReplayRule::Values,
            number: 0,
        }),
    },
    Row {
        text: "--@ spec 1\n--@ state 0: x = FALSE, y = FALSE\n--@ input 0: u = TRUE\n--@ state 1: x = TRUE, y = TRUE\n--@ input 1: u = TRUE\n",
        gives: Given::Judged(Replayed::Rejected {
            rule: ReplayRule::Values,
            number: 1,
        }),
    },
    Row {
        text: "--@ spec 1\n--@ state 0: x = FALSE, y = FALSE\n--@ input 1: u = TRUE\n",
        gives: Given::Refused(3),
    },
];

const LINKED: &str =
    "MODULE main\nFROZENVAR after : array -1..0 of -1..0;\nVAR i : -1..0;\nASSIGN init(i) := -1; next(i) := after[i];\nINVARSPEC i = -1\n";

const LINKED_ROWS: [Row; 4] = [
    Row {
        text: "--@ spec 1\n--@ state 0: after[-1] = 0, after[0] = -1, i = -1\n--@ state 1: after[-1] = 0, after[0] = -1, i = 0\n",
        gives: ACCEPTED,
    },
    // The index leads to the element whose value is -1.
    Row {
        text: "--@ spec 1\n--@ state 0: after[-1] = -1, after[0] = 0, i = -1\n--@ state 1: after[-1] = -1, after[0] = 0, i = 0\n",
        gives: Given::Judged(Replayed::Rejected {
            rule: ReplayRule::Step,
            number: 0,
        }),
    },
    // Each element is frozen.
    Row {
        text: "--@ spec 1\n--@ state 0: after[-1] = 0, after[0] = -1, i = -1\n--@ state 1: after[-1] = 0, after[0] = 0, i = 0\n",
        gives: Given::Judged(Replayed::Rejected {
            rule: ReplayRule::Step,
            number: 0,
        }),
    },
    // Elements stand in their order.
    Row {
        text: "--@ spec 1\n--@ state 0: after[0] = -1, after[-1] = 0, i = -1\n",
        gives: Given::Judged(Replayed::Rejected {
            rule: ReplayRule::Values,
            number: 0,
        }),
    },
];

// What comes of a text behind a model.
fn what_comes(alloc: Global, source: &str, text: &str) -> Given {
    match read_model(alloc, source.as_bytes()) {
        Ok(flat) => given_of(alloc, &flat.typed, text),
        Err(_) => Given::Nothing,
    }
}

fn given_of(alloc: Global, typed: &Typed, text: &str) -> Given {
    let Ok(lines) = lines_of(alloc, text) else {
        return Given::Nothing;
    };
    match read(alloc, lines.as_slice(), 1) {
        Ok(traces) => first_judged(alloc, typed, traces.as_slice()),
        Err(TextStop::Refused(refusal)) => Given::Refused(refusal.place.line),
        Err(TextStop::NoMemory) => Given::Nothing,
    }
}

fn first_judged(alloc: Global, typed: &Typed, traces: &[Option<Trace>]) -> Given {
    match traces.first() {
        Some(Some(trace)) => judged(alloc, typed, trace),
        _ => Given::Untold,
    }
}

fn judged(alloc: Global, typed: &Typed, trace: &Trace) -> Given {
    match specifications(alloc, typed) {
        Ok(specs) if specs.len() > 0 => match replay(alloc, typed, 1, trace) {
            Ok(answer) => Given::Judged(answer),
            Err(_) => Given::Nothing,
        },
        _ => Given::Nothing,
    }
}

// The first row that gives something else, if there is one.
fn wrong(alloc: Global, source: &str, rows: &[Row]) -> Option<usize> {
    for (i, row) in rows.iter().enumerate() {
        if what_comes(alloc, source, row.text) != row.gives {
            return Some(i);
        }
    }
    None
}

#[test]
fn toggling(rt: HostRuntime) -> Result<(), Fail> {
    assert_eq!(rt; wrong(rt.alloc(), TOGGLE, &TOGGLE_ROWS), None);
    Ok(())
}

#[test]
fn with_inputs(rt: HostRuntime) -> Result<(), Fail> {
    assert_eq!(rt; wrong(rt.alloc(), FED, &FED_ROWS), None);
    Ok(())
}

#[test]
fn with_elements(rt: HostRuntime) -> Result<(), Fail> {
    assert_eq!(rt; wrong(rt.alloc(), LINKED, &LINKED_ROWS), None);
    Ok(())
}

const PRINTED: &str =
    "--@ spec 2\n--@ state 0: a.b[0][-1] = TRUE, c$# = -17\n--@ input 0: u = 0ud8_255\n--@ state 1:\n--@ input 1: u = red\n--@ input 2: u = 0\n--@ loop 1\n";

// Whether the text is that of the trace that it holds under this number.
fn is_printed_back(alloc: Global, text: &str, number: usize) -> bool {
    let Ok(lines) = lines_of(alloc, text) else {
        return false;
    };
    match read(alloc, lines.as_slice(), number) {
        Ok(traces) => is_last_printed(alloc, traces.as_slice(), number, text),
        Err(_) => false,
    }
}

fn is_last_printed(alloc: Global, traces: &[Option<Trace>], number: usize, text: &str) -> bool {
    match traces.last() {
        Some(Some(trace)) => match print(alloc, number, trace) {
            Ok(printed) => printed.as_str() == text,
            Err(_) => false,
        },
        _ => false,
    }
}

#[test]
fn printed_back(rt: HostRuntime) -> Result<(), Fail> {
    assert!(rt; is_printed_back(rt.alloc(), PRINTED, 2));
    Ok(())
}
