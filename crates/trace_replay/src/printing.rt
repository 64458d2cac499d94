//! Printing a trace.

ghost use Rattle.std.specs.Prelude.{◌≡◌, Some, slice_get, IfOk};
ghost use Rattle.std.specs.Fmt.{WritesOnOk};
ghost use Rattle.std.specs.List.{flat_map};
ghost use Rattle.trace_replay.specs.declared.entry.TraceLine.TheVariants as entry;
ghost use Rattle.trace_replay.specs.Lines.{bindings_text, input_entries, line_text, loop_entries, moments, more_bindings, state_entries, trace_text};

use crate::{Binding, Trace};
use plain_text::Text;
use sqlite_items::Items;
use std::alloc::{AllocError, Global};
use std::fmt;

/// The lines of a trace of the specification of this number.
#[derive(Drop)]
pub struct TraceLines<'a> {
    pub number: usize,
    pub trace: &'a Trace,
}

impl fmt::Display for TraceLines<'_> {
    ghost output = { λ l. Some (trace_text l.number l.trace.now) };

    fn fmt<W: fmt::Write>(&self, f: &mut fmt::Formatter<W>) -> fmt::Result {
        let number = self.number;
        writeln!(f, "--@ spec {number}")?;
        write_moments(f, self.trace)?;
        write_start(f, self.trace.start)
    }
}

/// The text of a trace of the specification of this number. Memory may be refused.
pub fn print(alloc: Global, spec: usize, trace: &Trace) -> Result<Text, AllocError>
    ensures { IfOk result (λ text. text ≡ trace_text spec trace.now) }
{
    let lines = TraceLines {
        number: spec,
        trace,
    };
    let text = lines.to_string(alloc)?;
    Text::from_str(alloc, text.as_str())
}

// The lines of the states and inputs of a trace, those of one number after those of the number before.
fn write_moments<W: fmt::Write>(f: &mut fmt::Formatter<W>, trace: &Trace) -> fmt::Result
    ensures { WritesOnOk W.Write.write_str_gives f.old result (flat_map line_text (moments trace.now)) f.new }
{
    let (states, inputs) = (trace.states.as_slice(), trace.inputs.as_slice());
    for i in 0..states.len().max(inputs.len()) {
        write_state(f, i, states)?;
        write_inputs(f, i, inputs)?;
    }
    Ok(())
}

// The line of the state of this number, if there is one.
fn write_state<W: fmt::Write>(
    f: &mut fmt::Formatter<W>,
    number: usize,
    states: &[Items<Binding>],
) -> fmt::Result
    ensures { WritesOnOk W.Write.write_str_gives f.old result (flat_map line_text (state_entries number (slice_get states.now number))) f.new }
{
    match states.get(number) {
        None => Ok(()),
        Some(bindings) => {
            let line = StateLine { number, bindings };
            write!(f, "{line}")
        }
    }
}

// The line of the inputs of the step of this number, if they are told.
fn write_inputs<W: fmt::Write>(
    f: &mut fmt::Formatter<W>,
    number: usize,
    inputs: &[Items<Binding>],
) -> fmt::Result
    ensures { WritesOnOk W.Write.write_str_gives f.old result (flat_map line_text (input_entries number (slice_get inputs.now number))) f.new }
{
    match inputs.get(number) {
        None => Ok(()),
        Some(bindings) => {
            let line = InputLine { number, bindings };
            write!(f, "{line}")
        }
    }
}

// The line that says where the loop begins, if there is a loop.
fn write_start<W: fmt::Write>(f: &mut fmt::Formatter<W>, start: Option<usize>) -> fmt::Result
    ensures { WritesOnOk W.Write.write_str_gives f.old result (flat_map line_text (loop_entries start)) f.new }
{
    match start {
        None => Ok(()),
        Some(number) => writeln!(f, "--@ loop {number}"),
    }
}

// The line of a state.
#[derive(Drop)]
struct StateLine<'a> {
    number: usize,
    bindings: &'a Items<Binding>,
}

impl fmt::Display for StateLine<'_> {
    ghost output = { λ l. Some (line_text (entry.State l.number l.bindings.now)) };

    fn fmt<W: fmt::Write>(&self, f: &mut fmt::Formatter<W>) -> fmt::Result {
        let number = self.number;
        write!(f, "--@ state {number}:")?;
        write_bindings(f, self.bindings.as_slice())?;
        writeln!(f)
    }
}

// The line of the inputs of a step.
#[derive(Drop)]
struct InputLine<'a> {
    number: usize,
    bindings: &'a Items<Binding>,
}

impl fmt::Display for InputLine<'_> {
    ghost output = { λ l. Some (line_text (entry.Input l.number l.bindings.now)) };

    fn fmt<W: fmt::Write>(&self, f: &mut fmt::Formatter<W>) -> fmt::Result {
        let number = self.number;
        write!(f, "--@ input {number}:")?;
        write_bindings(f, self.bindings.as_slice())?;
        writeln!(f)
    }
}

// The first binding behind a space, the others behind a comma.
fn write_bindings<W: fmt::Write>(f: &mut fmt::Formatter<W>, bindings: &[Binding]) -> fmt::Result
    ensures { WritesOnOk W.Write.write_str_gives f.old result (bindings_text bindings.now) f.new }
{
    let [first, more @ ..] = bindings else {
        return Ok(());
    };
    write!(f, " {} = {}", first.name, first.value)?;
    write_more_bindings(f, more)
}

fn write_more_bindings<W: fmt::Write>(
    f: &mut fmt::Formatter<W>,
    bindings: &[Binding],
) -> fmt::Result
    ensures { WritesOnOk W.Write.write_str_gives f.old result (more_bindings bindings.now) f.new }
{
    for b in bindings {
        write!(f, ", {} = {}", b.name, b.value)?;
    }
    Ok(())
}
