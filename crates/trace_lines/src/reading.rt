//! The traces of a report: which lines may follow one another.

ghost use Rattle.std.specs.Prelude.{◌≡◌, ℕ, List, Ok, Err, map, IfOk, IfErr};
ghost use Rattle.std.specs.Borrow.{Bor};
ghost use Rattle.trace_lines.specs.declared.reading.ReadStop.{ReadStop};
ghost use Rattle.trace_lines.specs.declared.reading.ReadStop.TheVariants.{Line};
ghost use Rattle.trace_lines.specs.Reading.{IsReadStop, begun_with, closed, closed_with, followed, followed_by, has_trace, head_row, is_open, kept_open, lines_read, may_follow, names_match, new_trace, nothing_read, report_read, same_names, with_input, with_line, with_loop, with_state};

use crate::entry::{entry_read, is_trace_line, pieces};
use crate::{Binding, Trace, TraceLine};
use sqlite_items::Items;
use std::alloc::{AllocError, Global};

/// Why the traces of a report were not read.
#[derive(Clone, Copy, Debug, PartialEq, Eq)]
pub enum ReadStop {
    /// The line of this number, counted from 1, is not as it should be: it is out of form, or may not stand there.
    Line(usize),
    /// Memory was refused.
    NoMemory,
}

impl From<AllocError> for ReadStop {
    ghost use Rattle.std.specs.Prelude.{◌≡◌};
    ghost use Rattle.trace_lines.specs.declared.reading.ReadStop.TheVariants.{NoMemory};

    ghost from_gives = { λ _ e. e ≡ NoMemory };

    fn from(_: AllocError) -> ReadStop {
        ReadStop::NoMemory
    }
}

/// What is read so far: the traces, and the one to which lines are still added.
#[derive(Debug, Drop)]
pub struct Reading {
    pub done: Items<Trace>,
    pub current: Option<Trace>,
}

fn nothing_read(alloc: Global) -> Reading
    ensures { result ≡ nothing_read }
{
    Reading {
        done: Items::new(alloc),
        current: None,
    }
}

fn names_match(xs: &[Binding], ys: &[Binding]) -> bool
    ensures { result ≡ names_match xs.now ys.now }
{
    for (i, x) in xs.iter().enumerate() {
        if i >= ys.len() {
            return true;
        }
        if !x.name.is(&ys[i].name) {
            return false;
        }
    }
    true
}

fn same_names(xs: &[Binding], ys: &[Binding]) -> bool
    ensures { result ≡ same_names xs.now ys.now }
{
    xs.len() == ys.len() && names_match(xs, ys)
}

/// The first of these rows.
pub fn head_row(rows: &[Items<Binding>]) -> &[Binding]
    ensures { result.now ≡ head_row rows.now }
{
    match rows {
        [] => &[],
        [row, ..] => row.as_slice(),
    }
}

fn may_follow(rows: &[Items<Binding>], row: &[Binding]) -> bool
    ensures { result ≡ may_follow rows.now row.now }
{
    rows.is_empty() || same_names(head_row(rows), row)
}

fn is_open(start: Option<usize>) -> bool
    ensures { result ≡ is_open start }
{
    match start {
        None => true,
        Some(_) => false,
    }
}

fn with_state(i: usize, row: Items<Binding>, trace: Trace) -> Result<Option<Trace>, AllocError>
    ensures { IfOk result (λ t. t ≡ with_state i row trace) }
{
    let Trace {
        spec,
        mut states,
        inputs,
        start,
    } = trace;
    if !is_open(start) || i != states.len() || !may_follow(states.as_slice(), row.as_slice()) {
        return Ok(None);
    }
    states.push(row)?;
    Ok(Some(Trace {
        spec,
        states,
        inputs,
        start,
    }))
}

fn with_input(i: usize, row: Items<Binding>, trace: Trace) -> Result<Option<Trace>, AllocError>
    ensures { IfOk result (λ t. t ≡ with_input i row trace) }
{
    let Trace {
        spec,
        states,
        mut inputs,
        start,
    } = trace;
    if !is_open(start)
        || i != inputs.len()
        || i >= states.len()
        || !may_follow(inputs.as_slice(), row.as_slice())
    {
        return Ok(None);
    }
    inputs.push(row)?;
    Ok(Some(Trace {
        spec,
        states,
        inputs,
        start,
    }))
}

fn with_loop(n: usize, trace: Trace) -> Option<Trace>
    ensures { result ≡ with_loop n trace }
{
    let Trace {
        spec,
        states,
        inputs,
        start,
    } = trace;
    if !is_open(start) || n >= states.len() {
        return None;
    }
    Some(Trace {
        spec,
        states,
        inputs,
        start: Some(n),
    })
}

fn closed_with(mut done: Items<Trace>, current: Option<Trace>) -> Result<Items<Trace>, AllocError>
    ensures { IfOk result (λ ts. ts ≡ closed_with done current) }
{
    match current {
        None => Ok(done),
        Some(trace) => {
            done.push(trace)?;
            Ok(done)
        }
    }
}

fn closed(reading: Reading) -> Result<Items<Trace>, AllocError>
    ensures { IfOk result (λ ts. ts ≡ closed reading) }
{
    closed_with(reading.done, reading.current)
}

fn has_trace(n: usize, traces: &[Trace]) -> bool
    ensures { result ≡ has_trace n traces.now }
{
    traces.iter().any(|trace| trace.spec == n)
}

fn begun_with(alloc: Global, n: usize, done: Items<Trace>) -> Option<Reading>
    ensures { result ≡ begun_with n done }
{
    if has_trace(n, done.as_slice()) {
        return None;
    }
    let trace = Trace {
        spec: n,
        states: Items::new(alloc),
        inputs: Items::new(alloc),
        start: None,
    };
    Some(Reading {
        done,
        current: Some(trace),
    })
}

fn kept_open(done: Items<Trace>, trace: Option<Trace>) -> Option<Reading>
    ensures { result ≡ kept_open done trace }
{
    let trace = trace?;
    Some(Reading {
        done,
        current: Some(trace),
    })
}

fn followed(
    alloc: Global,
    reading: Reading,
    entry: TraceLine,
) -> Result<Option<Reading>, AllocError>
    ensures { IfOk result (λ r. r ≡ followed reading entry) }
{
    let Reading { done, current } = reading;
    match entry {
        TraceLine::Spec(n) => Ok(begun_with(alloc, n, closed_with(done, current)?)),
        TraceLine::State(i, row) => {
            let Some(trace) = current else {
                return Ok(None);
            };
            Ok(kept_open(done, with_state(i, row, trace)?))
        }
        TraceLine::Input(i, row) => {
            let Some(trace) = current else {
                return Ok(None);
            };
            Ok(kept_open(done, with_input(i, row, trace)?))
        }
        TraceLine::Loop(n) => {
            let Some(trace) = current else {
                return Ok(None);
            };
            Ok(kept_open(done, with_loop(n, trace)))
        }
    }
}

fn followed_by(
    alloc: Global,
    reading: Reading,
    entry: Option<TraceLine>,
) -> Result<Option<Reading>, AllocError>
    ensures { IfOk result (λ r. r ≡ followed_by reading entry) }
{
    match entry {
        None => Ok(None),
        Some(entry) => followed(alloc, reading, entry),
    }
}

fn with_line(alloc: Global, reading: Reading, line: &[u8]) -> Result<Option<Reading>, AllocError>
    ensures { IfOk result (λ r. r ≡ with_line reading line.now) }
{
    if !is_trace_line(line) {
        return Ok(Some(reading));
    }
    let entry = entry_read(alloc, line)?;
    followed_by(alloc, reading, entry)
}

fn lines_read(alloc: Global, lines: &[&[u8]]) -> Result<Items<Trace>, ReadStop>
    ensures read { IfOk result (λ ts. lines_read 0 nothing_read (map (λ (x : Bor (List ℕ)). x.now) lines.now) ≡ Ok ts) }
    ensures stopped { IfErr result (IsReadStop (lines_read 0 nothing_read (map (λ (x : Bor (List ℕ)). x.now) lines.now))) }
{
    let mut reading = nothing_read(alloc);
    for (i, line) in lines.iter().enumerate() {
        match with_line(alloc, reading, line)? {
            None => return Err(ReadStop::Line(i + 1)),
            Some(more) => reading = more,
        }
    }
    Ok(closed(reading)?)
}

/// The traces of a report, by its lines that begin with `--@`; all others are passed over.
///
/// `Line`: the first of these lines that is not as it should be. It is out of form, or stands where it may not: a state
/// or an input out of its order or with other names than the first, a loop that begins at no state, a second trace of a
/// specification. `NoMemory` may come at any time. The time is that of reading each line once, and of comparing the
/// numbers of each two traces.
#[tactic(auto, unfolding(crate::specs::Reading::report_read))]
pub fn report_read(alloc: Global, report: &[u8]) -> Result<Items<Trace>, ReadStop>
    ensures read { IfOk result (λ ts. report_read report.now ≡ Ok ts) }
    ensures stopped { IfErr result (IsReadStop (report_read report.now)) }
{
    let lines = pieces(alloc, report, b'\n')?;
    lines_read(alloc, &lines)
}
