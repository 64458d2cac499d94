//! What is written for a report.

ghost use Rattle.std.specs.Prelude.{◌≡◌, ◌≤◌, ◌==◌, ◌++◌, find, string_bytes, IfOk, OnOk};
ghost use Rattle.std.specs.Option.{option_copied};
ghost use Rattle.trace_lines.specs.declared.trace.Trace.{Trace as TraceOf};
ghost use Rattle.trace_view.specs.Answers as answers;
ghost use Rattle.trace_table.specs.Table.{tables_text};

use crate::svg::write_svg;
use crate::vcd::write_vcd;
use crate::{Command, Form};
use plain_text::Text;
use std::alloc::{AllocError, Global};
use trace_lines::{ReadStop, Trace, report_read};
use trace_table::{write_table, write_tables};

/// A text, and the status with which the program ends once it is written: 0 where a trace is shown, 1 where there is no
/// such trace, or more than one for a form that shows one, and 3 where the report is refused.
#[derive(Debug, Drop)]
pub struct Answer {
    pub status: u8,
    pub text: Text,
}

fn no_trace(alloc: Global) -> Result<Answer, AllocError>
    ensures is { IfOk result (λ a. a ≡ answers.no_trace) }
    ensures small { IfOk result (λ a. a.status ≤ 3) }
{
    let text = Text::from_str(alloc, "-- no such trace\n")?;
    Ok(Answer { status: 1, text })
}

fn several(alloc: Global) -> Result<Answer, AllocError>
    ensures is { IfOk result (λ a. a ≡ answers.several) }
    ensures small { IfOk result (λ a. a.status ≤ 3) }
{
    let text = Text::from_str(alloc, "-- several traces: name a specification\n")?;
    Ok(Answer { status: 1, text })
}

fn refused(alloc: Global, line: usize) -> Result<Answer, AllocError>
    ensures is { IfOk result (λ a. a ≡ answers.refused line) }
    ensures small { IfOk result (λ a. a.status ≤ 3) }
{
    let text = format!(in alloc; "-- refused 702 BadTrace at {line}:1\n")?;
    let text = Text::from_str(alloc, text.as_str())?;
    Ok(Answer { status: 3, text })
}

#[tactic(auto, unfolding(crate::specs::Answers::form_text))]
fn write_form(alloc: Global, out: &mut String, form: Form, trace: &Trace) -> Result<(), AllocError>
    ensures { OnOk result (string_bytes out.new ≡ string_bytes out.old ++ answers.form_text form trace.now) }
{
    match form {
        Form::Table => write_table(alloc, out, trace),
        Form::Vcd => write_vcd(alloc, out, trace),
        Form::Svg => write_svg(alloc, out, trace),
    }
}

fn form_text(alloc: Global, form: Form, trace: &Trace) -> Result<Text, AllocError>
    ensures { IfOk result (λ text. text ≡ answers.form_text form trace.now) }
{
    let mut out = String::new(alloc);
    write_form(alloc, &mut out, form, trace)?;
    Text::from_str(alloc, out.as_str())
}

fn shown_one(alloc: Global, form: Form, trace: &Trace) -> Result<Answer, AllocError>
    ensures is { IfOk result (λ a. a ≡ answers.shown_one form trace.now) }
    ensures small { IfOk result (λ a. a.status ≤ 3) }
{
    let text = form_text(alloc, form, trace)?;
    Ok(Answer { status: 0, text })
}

fn tables(alloc: Global, traces: &[Trace]) -> Result<Text, AllocError>
    ensures { IfOk result (λ text. text ≡ tables_text traces.now) }
{
    let mut out = String::new(alloc);
    write_tables(alloc, &mut out, traces)?;
    Text::from_str(alloc, out.as_str())
}

fn shown_all(alloc: Global, form: Form, traces: &[Trace]) -> Result<Answer, AllocError>
    ensures is { IfOk result (λ a. a ≡ answers.shown_all form traces.now) }
    ensures small { IfOk result (λ a. a.status ≤ 3) }
{
    match traces {
        [] => no_trace(alloc),
        [trace] => shown_one(alloc, form, trace),
        _ => match form {
            Form::Table => {
                let text = tables(alloc, traces)?;
                Ok(Answer { status: 0, text })
            }
            Form::Vcd | Form::Svg => several(alloc),
        },
    }
}

fn found(traces: &[Trace], spec: usize) -> Option<&Trace>
    ensures { option_copied result ≡ find (λ (t : TraceOf). t.spec == spec) traces.now }
{
    for trace in traces {
        if trace.spec == spec {
            return Some(trace);
        }
    }
    None
}

fn shown_found(alloc: Global, form: Form, trace: Option<&Trace>) -> Result<Answer, AllocError>
    ensures is { IfOk result (λ a. a ≡ answers.shown_found form (option_copied trace.entry)) }
    ensures small { IfOk result (λ a. a.status ≤ 3) }
{
    match trace {
        None => no_trace(alloc),
        Some(trace) => shown_one(alloc, form, trace),
    }
}

fn shown_of(
    alloc: Global,
    form: Form,
    spec: Option<usize>,
    traces: &[Trace],
) -> Result<Answer, AllocError>
    ensures is { IfOk result (λ a. a ≡ answers.shown_of form spec traces.now) }
    ensures small { IfOk result (λ a. a.status ≤ 3) }
{
    match spec {
        None => shown_all(alloc, form, traces),
        Some(n) => shown_found(alloc, form, found(traces, n)),
    }
}

/// What is written for a report, and the status.
///
/// `table` shows each trace; `vcd` and `svg` show one, so that the specification has to be named where there are
/// several. A report with a line of a trace that is not as it should be is refused, by its first such line. Memory may
/// be refused.
#[tactic(auto, unfolding(crate::specs::Answers::answer_of))]
pub fn answer_of(alloc: Global, command: Command, report: &[u8]) -> Result<Answer, AllocError>
    ensures is { IfOk result (λ a. a ≡ answers.answer_of command report.now) }
    ensures small { IfOk result (λ a. a.status ≤ 3) }
{
    match report_read(alloc, report) {
        Ok(traces) => shown_of(alloc, command.form, command.spec, traces.as_slice()),
        Err(ReadStop::Line(line)) => refused(alloc, line),
        Err(ReadStop::NoMemory) => Err(AllocError),
    }
}
