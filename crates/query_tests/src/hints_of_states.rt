//! Tests of hints, worked by hand on a system of three bits with two gates.

use crate::frame_queries::{clause_of, clauses_of, has_signs};
use clause_core::{Bits, Lit, System};
use state_hints::Hints;
use std::alloc::{AllocError, Global};
use std::test::Fail;

// A step gives bit 0 what gate 1 has, bit 2 what bit 0 was, and bit 1 stays. Gate 0 (variable 6) is bit 0 and bit 1, gate 1
// (variable 7) is gate 0 or bit 2. Clauses have a sign for each variable, `-` for none.
const STEP: [&str; 12] = [
    "1-----0-", "-1----0-", "00----1-", "------01", "--0----1", "--1---10", "---0---1", "---1---0",
    "-1--0---", "-0--1---", "1----0--", "0----1--",
];

// What is noted: `b` for a bad state, `s` for a step out of the clause, with the values of all variables. Then a clause
// that says that a state is another than one, and the clause of its hint.
#[derive(Clone, Copy)]
struct Row(char, &'static str, &'static str, &'static str, &'static str);

const ROWS: [Row; 6] = [
    // Bits 0 and 1 make it bad.
    Row('b', "", "11000010", "001", "00-"),
    // Nothing was noted of this state.
    Row('-', "", "", "110", "---"),
    // To the hint of the state before: bit 2 sets gate 1, and bit 1 stays.
    Row('s', "001", "01111001", "100", "-00"),
    // To a state without a hint: bits 0 and 1 are needed for it, and set gate 1 without bit 2.
    Row('s', "000", "11111111", "000", "00-"),
    // To the hint that was just kept, which needs bits 0 and 1 alone: bit 2 sets gate 1, so that bit 0 is not needed.
    Row('s', "000", "11111111", "000", "-00"),
    // The first one is still kept.
    Row('-', "", "", "001", "00-"),
];

// The system; its bad states have bits 0 and 1 true.
fn gated(alloc: Global) -> Result<System, AllocError> {
    let init = clauses_of(alloc, &["0", "-0", "--0"])?;
    let step = clauses_of(alloc, &STEP)?;
    if init.is_within(8) && step.is_within(8) {
        System::plain(
            alloc,
            3,
            8,
            init,
            step,
            &[Lit::new(0, true), Lit::new(1, true)],
        )
    } else {
        drop(init);
        drop(step);
        Err(AllocError)
    }
}

// A value for each of these signs.
fn values_of(alloc: Global, signs: &str) -> Result<Bits, AllocError> {
    let mut values = Vec::new(alloc);
    for sign in signs.as_bytes() {
        values.push(*sign == b'1')?;
    }
    Ok(Bits::from_vec(values))
}

// Notes what the row says.
fn note(alloc: Global, hints: &mut Hints, system: &System, row: &Row) -> Result<(), AllocError> {
    let values = values_of(alloc, row.2)?;
    match row.0 {
        'b' => hints.note_bad(alloc, system, &values),
        's' => {
            let clause = clause_of(alloc, row.1)?;
            hints.note_step(alloc, system, &clause, &values);
        }
        _ => {}
    }
    Ok(())
}

// Whether the hint is as the row says.
fn is_so(alloc: Global, hints: &mut Hints, system: &System, row: &Row) -> Result<bool, AllocError> {
    note(alloc, hints, system, row)?;
    let clause = clause_of(alloc, row.3)?;
    let found = hints.clause_for(alloc, &clause)?;
    Ok(has_signs(&found, row.4))
}

// The number of the first row that is not so.
fn first_wrong(alloc: Global) -> Result<Option<usize>, AllocError> {
    let system = gated(alloc)?;
    let mut hints = Hints::new(alloc);
    for k in 0..ROWS.len() {
        if !is_so(alloc, &mut hints, &system, &ROWS[k])? {
            return Ok(Some(k));
        }
    }
    Ok(None)
}

#[test]
fn hints_have_what_is_needed(rt: HostRuntime) -> Result<(), Fail> {
    assert_eq!(rt; first_wrong(rt.alloc())?, None);
    Ok(())
}
