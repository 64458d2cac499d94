//! Traces as tables.

ghost use Rattle.std.specs.Prelude.{◌≡◌, ◌++◌, length, max, IfOk, OnOk, string_bytes};
ghost use Rattle.trace_lines.specs.Reading.{head_row};
ghost use Rattle.trace_table.specs.Table as table;

use crate::cells::{is_changed, shown, value_at, value_before};
use sqlite_items::Items;
use std::alloc::{AllocError, Global};
use std::fmt::Write;
use trace_lines::{Binding, Trace, head_row};

// A value, with `*` in front where it has changed.
fn cell(alloc: Global, rows: &[Items<Binding>], i: usize, j: usize) -> Result<String, AllocError>
    ensures { IfOk result (λ text. string_bytes text ≡ table.cell rows.now i j) }
{
    let value = value_at(rows, i, j);
    let text = shown(value);
    if is_changed(value_before(rows, i, j), value) {
        format!(in alloc; "*{text}")
    } else {
        String::from_str(alloc, text)
    }
}

fn opening(start: Option<usize>, i: usize) -> &'static str
    ensures { result.now ≡ table.opening start i }
{
    match start {
        Some(start) if i == start => "[",
        _ => "",
    }
}

fn closing(start: Option<usize>, i: usize, count: usize) -> &'static str
    ensures { result.now ≡ table.closing start i count }
{
    match start {
        Some(_) if i == count.saturating_sub(1) => "]",
        _ => "",
    }
}

/// A time, with brackets round the times of the loop.
pub fn time(alloc: Global, trace: &Trace, i: usize) -> Result<String, AllocError>
    ensures { IfOk result (λ text. string_bytes text ≡ table.time trace.now i) }
{
    let (opening, closing) = (
        opening(trace.start, i),
        closing(trace.start, i, trace.states.len()),
    );
    format!(in alloc; "{opening}{i}{closing}")
}

// The length of a text, or this one where it is greater.
fn longer(most: usize, text: &str) -> usize
    ensures { result ≡ max most (length text.now) }
{
    most.max(text.len())
}

// The length of the longest text of one time in the columns of these names.
fn widest(
    alloc: Global,
    rows: &[Items<Binding>],
    i: usize,
    names: &[Binding],
) -> Result<usize, AllocError>
    ensures { IfOk result (λ n. n ≡ table.widest rows.now i 0 names.now) }
{
    let mut most = 0;
    for j in 0..names.len() {
        let text = cell(alloc, rows, i, j)?;
        most = longer(most, text.as_str());
    }
    Ok(most)
}

// How wide the column of a time is.
fn width(alloc: Global, trace: &Trace, i: usize) -> Result<usize, AllocError>
    ensures { IfOk result (λ n. n ≡ table.width trace.now i) }
{
    let time = time(alloc, trace, i)?;
    let (states, inputs) = (trace.states.as_slice(), trace.inputs.as_slice());
    let state = widest(alloc, states, i, head_row(states))?;
    let input = widest(alloc, inputs, i, head_row(inputs))?;
    Ok(longer(state.max(input), time.as_str()))
}

/// How wide the columns are.
pub fn widths(alloc: Global, trace: &Trace) -> Result<Vec<usize>, AllocError>
    ensures { IfOk result (λ ws. ws.items ≡ table.widths trace.now) }
{
    let mut widths = Vec::new(alloc);
    for (i, _) in trace.states.as_slice().iter().enumerate() {
        widths.push(width(alloc, trace, i)?)?;
    }
    Ok(widths)
}

/// What stands above the names.
pub fn title(alloc: Global, trace: &Trace) -> Result<String, AllocError>
    ensures { IfOk result (λ text. string_bytes text ≡ table.title trace.now) }
{
    let spec = trace.spec;
    format!(in alloc; "spec {spec}")
}

fn widest_name(names: &[Binding]) -> usize
    ensures { result ≡ table.widest_name names.now }
{
    let mut most = 0;
    for b in names {
        most = longer(most, b.name.as_str());
    }
    most
}

/// How wide the column of the names is.
pub fn name_width(alloc: Global, trace: &Trace) -> Result<usize, AllocError>
    ensures { IfOk result (λ n. n ≡ table.name_width trace.now) }
{
    let title = title(alloc, trace)?;
    let state = widest_name(head_row(trace.states.as_slice()));
    let input = widest_name(head_row(trace.inputs.as_slice()));
    Ok(longer(state.max(input), title.as_str()))
}

fn write_spaces(out: &mut String, count: usize) -> Result<(), AllocError>
    ensures { OnOk result (string_bytes out.new ≡ string_bytes out.old ++ table.spaces count) }
{
    for k in 0..count {
        out.push_str(" ")?;
    }
    Ok(())
}

fn write_at_left(out: &mut String, width: usize, text: &str) -> Result<(), AllocError>
    ensures { OnOk result (string_bytes out.new ≡ string_bytes out.old ++ table.at_left width text.now) }
{
    out.push_str(text)?;
    write_spaces(out, width.saturating_sub(text.len()))
}

fn write_at_right(out: &mut String, width: usize, text: &str) -> Result<(), AllocError>
    ensures { OnOk result (string_bytes out.new ≡ string_bytes out.old ++ table.at_right width text.now) }
{
    write_spaces(out, width.saturating_sub(text.len()))?;
    out.push_str(text)
}

fn write_times(
    alloc: Global,
    out: &mut String,
    trace: &Trace,
    widths: &[usize],
) -> Result<(), AllocError>
    ensures { OnOk result (string_bytes out.new ≡ string_bytes out.old ++ table.times_text trace.now 0 widths.now) }
{
    for (i, width) in widths.iter().enumerate() {
        let text = time(alloc, trace, i)?;
        out.push_str("  ")?;
        write_at_right(out, *width, text.as_str())?;
    }
    Ok(())
}

fn write_cells(
    alloc: Global,
    out: &mut String,
    rows: &[Items<Binding>],
    j: usize,
    widths: &[usize],
) -> Result<(), AllocError>
    ensures { OnOk result (string_bytes out.new ≡ string_bytes out.old ++ table.cells_text rows.now j 0 widths.now) }
{
    for (i, width) in widths.iter().enumerate() {
        let text = cell(alloc, rows, i, j)?;
        out.push_str("  ")?;
        write_at_right(out, *width, text.as_str())?;
    }
    Ok(())
}

fn write_rows(
    alloc: Global,
    out: &mut String,
    first: usize,
    widths: &[usize],
    rows: &[Items<Binding>],
) -> Result<(), AllocError>
    ensures { OnOk result (string_bytes out.new ≡ string_bytes out.old ++ table.rows_text first widths.now rows.now 0 (head_row rows.now)) }
{
    for (j, b) in head_row(rows).iter().enumerate() {
        write_at_left(out, first, b.name.as_str())?;
        write_cells(alloc, out, rows, j, widths)?;
        out.push_str("\n")?;
    }
    Ok(())
}

fn write_with(
    alloc: Global,
    out: &mut String,
    first: usize,
    widths: &[usize],
    trace: &Trace,
) -> Result<(), AllocError>
    ensures { OnOk result (string_bytes out.new ≡ string_bytes out.old ++ table.table_with first widths.now trace.now) }
{
    let title = title(alloc, trace)?;
    write_at_left(out, first, title.as_str())?;
    write_times(alloc, out, trace, widths)?;
    out.push_str("\n")?;
    write_rows(alloc, out, first, widths, trace.states.as_slice())?;
    write_rows(alloc, out, first, widths, trace.inputs.as_slice())
}

/// Writes the table of a trace: a row for each name, a column for each time, `*` before what has changed since the time
/// before, and brackets round the times of the loop. Memory may be refused. The time is linear in the values and the
/// text.
#[tactic(auto, unfolding(crate::specs::Table::table_text))]
pub fn write_table(alloc: Global, out: &mut String, trace: &Trace) -> Result<(), AllocError>
    ensures { OnOk result (string_bytes out.new ≡ string_bytes out.old ++ table.table_text trace.now) }
{
    let first = name_width(alloc, trace)?;
    let widths = widths(alloc, trace)?;
    write_with(alloc, out, first, &widths, trace)
}

fn write_more(alloc: Global, out: &mut String, traces: &[Trace]) -> Result<(), AllocError>
    ensures { OnOk result (string_bytes out.new ≡ string_bytes out.old ++ table.more_tables traces.now) }
{
    for trace in traces {
        out.push_str("\n")?;
        write_table(alloc, out, trace)?;
    }
    Ok(())
}

/// Writes the tables of traces, with an empty line between.
pub fn write_tables(alloc: Global, out: &mut String, traces: &[Trace]) -> Result<(), AllocError>
    ensures { OnOk result (string_bytes out.new ≡ string_bytes out.old ++ table.tables_text traces.now) }
{
    let [first, more @ ..] = traces else {
        return Ok(());
    };
    write_table(alloc, out, first)?;
    write_more(alloc, out, more)
}
