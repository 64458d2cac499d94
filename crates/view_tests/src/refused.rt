//! Reports that are refused, reports without the trace that is asked for, and words that are no command line.

use crate::saying::is_written;
use std::test::Fail;
use trace_view::command_of;

// A report, and its first line that is not as it should be.
const BROKEN: [(&str, &str); 12] = [
    ("--@ state 0: x = TRUE\n", "1"),
    ("-- a line\n--@ loop 0\n", "2"),
    ("--@ spec 1\n--@ state 1: x = TRUE\n", "2"),
    (
        "--@ spec 1\n--@ state 0: x = TRUE\n--@ state 1: y = TRUE\n",
        "3",
    ),
    ("--@ spec 1\n--@ state 0: x = TRUE\n--@ loop 1\n", "3"),
    ("--@ spec 1\n--@ state 0:\n--@ input 1: x = TRUE\n", "3"),
    ("--@ spec 1\n--@ state 0:\n--@ loop 0\n--@ state 1:\n", "4"),
    ("--@ spec 1\n\n--@ spec 1\n", "3"),
    ("--@ spec 01\n", "1"),
    ("--@spec 1\n", "1"),
    ("--@ spec 1\n--@ state 0: x = TRUE,y = TRUE\n", "2"),
    ("--@ spec 1\n--@ state 0: x = \n", "2"),
];

#[test]
fn the_first_broken_line_is_refused(rt: HostRuntime) -> Result<(), Fail> {
    let alloc = rt.alloc();
    for (report, line) in BROKEN {
        let text = format!(in alloc; "-- refused 702 BadTrace at {line}:1\n")?;
        assert!(rt; is_written(alloc, &["table"], report, 3, text.as_str())?);
    }
    Ok(())
}

const TWO: &str = "--@ spec 1\n--@ state 0:\n--@ spec 2\n--@ state 0:\n";

#[test]
fn no_trace_is_shown(rt: HostRuntime) -> Result<(), Fail> {
    let alloc = rt.alloc();
    let several = "-- several traces: name a specification\n";
    assert!(rt;
        is_written(
            alloc,
            &["table"],
            "-- spec 1 INVARSPEC is true\n",
            1,
            "-- no such trace\n"
        )?
    );
    assert!(rt; is_written(alloc, &["vcd", "3"], TWO, 1, "-- no such trace\n")?);
    assert!(rt; is_written(alloc, &["vcd"], TWO, 1, several)?);
    assert!(rt; is_written(alloc, &["svg"], TWO, 1, several)?);
    Ok(())
}

#[test]
fn other_words_are_no_command_line(rt: HostRuntime) {
    assert!(rt; command_of(&[]).is_none());
    assert!(rt; command_of(&["tables"]).is_none());
    assert!(rt; command_of(&["table", "01"]).is_none());
    assert!(rt; command_of(&["table", "x"]).is_none());
    assert!(rt; command_of(&["svg", "1", "2"]).is_none());
}
