//! Traces as value change dumps (IEEE 1364-2005, 18), with strings as GTKWave reads them.

ghost use Rattle.std.specs.Prelude.{◌≡◌, ◌++◌, ◌≤◌, length, drop, string_bytes, IfOk, OnOk};
ghost use Rattle.std.specs.Option.{option_copied};
ghost use Rattle.trace_table.specs.Kinds.{column_kind, kinds_from};
ghost use Rattle.trace_lines.specs.Reading.{head_row};
ghost use Rattle.trace_view.specs.Vcd as vcd;

use plain_text::Text;
use sqlite_items::Items;
use std::alloc::{AllocError, Global};
use std::fmt::Write;
use trace_lines::{Binding, Trace, head_row};
use trace_table::{Kind, Word, column_kind, column_kinds, shown, value_at, word_of, write_bits};

// The kinds of the columns of the states, and of those of the inputs.
#[derive(Drop)]
struct Kinds {
    states: Items<Kind>,
    inputs: Items<Kind>,
}

fn write_type(out: &mut String, kind: Kind) -> Result<(), AllocError>
    ensures { OnOk result (string_bytes out.new ≡ string_bytes out.old ++ vcd.type_text kind) }
{
    match kind {
        Kind::Bit => out.push_str("wire 1"),
        Kind::Bits(width) => write!(out, "wire {width}"),
        Kind::Number => out.push_str("real 64"),
        Kind::Symbol => out.push_str("string 1"),
    }
}

fn write_var(
    out: &mut String,
    kind: Kind,
    letter: &str,
    j: usize,
    name: &Text,
) -> Result<(), AllocError>
    ensures { OnOk result (string_bytes out.new ≡ string_bytes out.old ++ vcd.var_text kind letter.now j name.now) }
{
    out.push_str("$var ")?;
    write_type(out, kind)?;
    write!(out, " {letter}{j} {name} $end\n")
}

fn write_column(
    alloc: Global,
    out: &mut String,
    rows: &[Items<Binding>],
    letter: &str,
    j: usize,
    name: &Text,
) -> Result<(), AllocError>
    ensures { OnOk result (string_bytes out.new ≡ string_bytes out.old ++ vcd.var_text (column_kind rows.now j) letter.now j name.now) }
{
    let kind = column_kind(alloc, rows, j)?;
    write_var(out, kind, letter, j, name)
}

fn write_vars(
    alloc: Global,
    out: &mut String,
    rows: &[Items<Binding>],
    letter: &str,
) -> Result<(), AllocError>
    ensures { OnOk result (string_bytes out.new ≡ string_bytes out.old ++ vcd.vars_text rows.now letter.now 0 (head_row rows.now)) }
{
    for (j, b) in head_row(rows).iter().enumerate() {
        write_column(alloc, out, rows, letter, j, &b.name)?;
    }
    Ok(())
}

fn loop_var(start: Option<usize>) -> &'static str
    ensures { result.now ≡ vcd.loop_var start }
{
    match start {
        None => "",
        Some(_) => "$var wire 2 loop loop $end\n",
    }
}

fn scalar(value: Option<&Text>) -> &'static str
    ensures { result.now ≡ vcd.scalar (option_copied value.entry) }
{
    match value {
        None => "x",
        Some(text) => { if text.as_str() == "TRUE" { "1" } else { "0" } }
    }
}

fn write_word(out: &mut String, word: Option<Word>) -> Result<(), AllocError>
    ensures { OnOk result (string_bytes out.new ≡ string_bytes out.old ++ vcd.word_bits word) }
{
    match word {
        None => out.push_str("x"),
        Some(word) => write_bits(out, word.width, word.bits),
    }
}

fn write_vector(alloc: Global, out: &mut String, value: Option<&Text>) -> Result<(), AllocError>
    ensures { OnOk result (string_bytes out.new ≡ string_bytes out.old ++ vcd.vector (option_copied value.entry)) }
{
    match value {
        None => out.push_str("x"),
        Some(text) => {
            let word = word_of(alloc, text.as_str().as_bytes())?;
            write_word(out, word)
        }
    }
}

fn real(value: Option<&Text>) -> &str
    ensures { result.now ≡ vcd.real (option_copied value.entry) }
{
    match value {
        None => "nan",
        Some(text) => text.as_str(),
    }
}

#[tactic(auto, unfolding(crate::specs::Vcd::value_text))]
fn write_value(
    alloc: Global,
    out: &mut String,
    kind: Kind,
    value: Option<&Text>,
) -> Result<(), AllocError>
    ensures { OnOk result (string_bytes out.new ≡ string_bytes out.old ++ vcd.value_text kind (option_copied value.entry)) }
{
    match kind {
        Kind::Bit => out.push_str(scalar(value)),
        Kind::Bits(_) => {
            out.push_str("b")?;
            write_vector(alloc, out, value)?;
            out.push_str(" ")
        }
        Kind::Number => {
            let text = real(value);
            write!(out, "r{text} ")
        }
        Kind::Symbol => {
            let text = shown(value);
            write!(out, "s{text} ")
        }
    }
}

fn is_same(rows: &[Items<Binding>], before: Option<usize>, i: usize, j: usize) -> bool
    ensures { result ≡ vcd.is_same rows.now before i j }
{
    match before {
        None => false,
        Some(before) => shown(value_at(rows, before, j)) == shown(value_at(rows, i, j)),
    }
}

fn write_change(
    alloc: Global,
    out: &mut String,
    rows: &[Items<Binding>],
    letter: &str,
    before: Option<usize>,
    i: usize,
    j: usize,
    kind: Kind,
) -> Result<(), AllocError>
    ensures { OnOk result (string_bytes out.new ≡ string_bytes out.old ++ vcd.change_text rows.now letter.now before i j kind) }
{
    if is_same(rows, before, i, j) {
        return Ok(());
    }
    write_value(alloc, out, kind, value_at(rows, i, j))?;
    write!(out, "{letter}{j}\n")
}

fn write_changes(
    alloc: Global,
    out: &mut String,
    rows: &[Items<Binding>],
    letter: &str,
    before: Option<usize>,
    i: usize,
    kinds: &[Kind],
) -> Result<(), AllocError>
    ensures { OnOk result (string_bytes out.new ≡ string_bytes out.old ++ vcd.changes_text rows.now letter.now before i 0 kinds.now) }
{
    for (j, kind) in kinds.iter().enumerate() {
        write_change(alloc, out, rows, letter, before, i, j, *kind)?;
    }
    Ok(())
}

fn loop_text(start: Option<usize>, count: usize, time: u128) -> &'static str
    ensures { result.now ≡ vcd.loop_text start count time }
{
    let Some(start) = start else {
        return "";
    };
    if time == count as u128 {
        "b10 loop\n"
    } else if time == start as u128 {
        "b1 loop\n"
    } else if time == 0 {
        "b0 loop\n"
    } else {
        ""
    }
}

fn write_moment(
    alloc: Global,
    out: &mut String,
    trace: &Trace,
    kinds: &Kinds,
    time: u128,
    before: Option<usize>,
    i: usize,
) -> Result<(), AllocError>
    ensures { OnOk result (string_bytes out.new ≡ string_bytes out.old ++ vcd.moment_text trace.now kinds.now time before i) }
{
    let (states, inputs) = (trace.states.as_slice(), trace.inputs.as_slice());
    write!(out, "#{time}\n")?;
    out.push_str(loop_text(trace.start, states.len(), time))?;
    write_changes(alloc, out, states, "s", before, i, kinds.states.as_slice())?;
    write_changes(alloc, out, inputs, "i", before, i, kinds.inputs.as_slice())
}

fn before_at(first: Option<usize>, k: usize, i: usize) -> Option<usize>
    ensures { result ≡ vcd.before_at first k i }
{
    if k == 0 {
        first
    } else {
        Some(i.saturating_sub(1))
    }
}

// Writes the states from `start` on, at the times from `time` on; the first is shown behind this one.
fn write_round(
    alloc: Global,
    out: &mut String,
    trace: &Trace,
    kinds: &Kinds,
    time: usize,
    first: Option<usize>,
    start: usize,
) -> Result<(), AllocError>
    requires { start ≤ length trace.now.states }
    ensures { OnOk result (string_bytes out.new ≡ string_bytes out.old ++ vcd.round_text trace.now kinds.now time first start 0 (drop start trace.now.states)) }
{
    let rows = &trace.states.as_slice()[start..];
    for (k, _) in rows.iter().enumerate() {
        let i = start + k;
        let time = time as u128 + k as u128;
        write_moment(alloc, out, trace, kinds, time, before_at(first, k, i), i)?;
    }
    Ok(())
}

fn write_second(
    alloc: Global,
    out: &mut String,
    trace: &Trace,
    kinds: &Kinds,
) -> Result<(), AllocError>
    ensures { OnOk result (string_bytes out.new ≡ string_bytes out.old ++ vcd.second_round trace.now kinds.now trace.now.start) }
{
    let Some(start) = trace.start else {
        return Ok(());
    };
    let count = trace.states.len();
    if start >= count {
        return Ok(());
    }
    write_round(alloc, out, trace, kinds, count, Some(count - 1), start)
}

fn end_time(start: Option<usize>, count: usize) -> u128
    ensures { result ≡ vcd.end_time start count }
{
    match start {
        None => count as u128,
        Some(start) => count as u128 + count.saturating_sub(start) as u128,
    }
}

#[tactic(auto, unfolding(crate::specs::Vcd::unit_text))]
fn write_unit(out: &mut String) -> Result<(), AllocError>
    ensures { OnOk result (string_bytes out.new ≡ string_bytes out.old ++ vcd.unit_text) }
{
    out.push_str("$version smvtrace $end\n$timescale 1 ns $end\n")
}

fn write_scope(out: &mut String, spec: usize) -> Result<(), AllocError>
    ensures { OnOk result (string_bytes out.new ≡ string_bytes out.old ++ vcd.scope_text spec) }
{
    write!(out, "$scope module spec_{spec} $end\n")
}

#[tactic(auto, unfolding(crate::specs::Vcd::end_text))]
fn write_end(out: &mut String) -> Result<(), AllocError>
    ensures { OnOk result (string_bytes out.new ≡ string_bytes out.old ++ vcd.end_text) }
{
    out.push_str("$upscope $end\n$enddefinitions $end\n")
}

fn write_head(alloc: Global, out: &mut String, trace: &Trace) -> Result<(), AllocError>
    ensures { OnOk result (string_bytes out.new ≡ string_bytes out.old ++ vcd.head_text trace.now) }
{
    write_unit(out)?;
    write_scope(out, trace.spec)?;
    out.push_str(loop_var(trace.start))?;
    write_vars(alloc, out, trace.states.as_slice(), "s")?;
    write_vars(alloc, out, trace.inputs.as_slice(), "i")?;
    write_end(out)
}

fn write_with(
    alloc: Global,
    out: &mut String,
    trace: &Trace,
    kinds: &Kinds,
) -> Result<(), AllocError>
    ensures { OnOk result (string_bytes out.new ≡ string_bytes out.old ++ vcd.changes_with trace.now kinds.now) }
{
    write_round(alloc, out, trace, kinds, 0, None, 0)?;
    write_second(alloc, out, trace, kinds)?;
    let end = end_time(trace.start, trace.states.len());
    write!(out, "#{end}\n")
}

fn kinds_of(alloc: Global, trace: &Trace) -> Result<Kinds, AllocError>
    ensures { IfOk result (λ ks. ks ≡ vcd.kinds_of trace.now) }
{
    let states = column_kinds(alloc, trace.states.as_slice())?;
    let inputs = column_kinds(alloc, trace.inputs.as_slice())?;
    Ok(Kinds {
        states: Items::from_vec(states),
        inputs: Items::from_vec(inputs),
    })
}

/// Writes the value change dump of a trace. A step takes 1 ns. Booleans and words are vectors, integers are reals, and
/// all other values are strings. A loop is gone through twice; `loop` is 0 before it, 1 in the first round, 2 in the
/// second. Memory may be refused. The time is linear in the values and the text.
#[tactic(auto, unfolding(crate::specs::Vcd::vcd_text))]
pub fn write_vcd(alloc: Global, out: &mut String, trace: &Trace) -> Result<(), AllocError>
    ensures { OnOk result (string_bytes out.new ≡ string_bytes out.old ++ vcd.vcd_text trace.now) }
{
    write_head(alloc, out, trace)?;
    let kinds = kinds_of(alloc, trace)?;
    write_with(alloc, out, trace, &kinds)
}
