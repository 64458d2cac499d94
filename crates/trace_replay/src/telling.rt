//! The values that a trace tells, by the names and types of the slots.

ghost use Rattle.std.specs.Prelude.{◌≡◌, slice_get, IfOk};
ghost use Rattle.trace_replay.specs.Lassos.{AreEachInputs, IsLassoTelling, due_each};
ghost use Rattle.trace_replay.specs.Rows.{AreTypes, cell_read, input_columns, line_read, row_read, state_columns, state_read, terms_of, typed_read};
ghost use Rattle.trace_replay.specs.Telling.{AreInputs, IsTelling};
ghost use Rattle.trace_replay.specs.Tests.{due_beside};

use crate::columns::{Column, input_columns, state_columns, symbols};
use crate::{Binding, Trace};
use smv_meaning::{Inputs, State, Typed};
use smv_value::Value;
use sqlite_items::Items;
use std::alloc::{AllocError, Global};
use value_texts::value_read;

/// The states that a trace tells, and the inputs of each step.
#[derive(Debug, Drop)]
pub struct Told {
    pub states: Items<State>,
    pub inputs: Items<Inputs>,
}

/// What comes of reading the values of a trace.
#[derive(Debug, Drop)]
pub enum Telling {
    /// Those of this number are the first that are not as they should be.
    Unfit(usize),
    Fit(Told),
}

/// The values that a trace tells.
pub fn tell(alloc: Global, typed: &Typed, trace: &Trace) -> Result<Telling, AllocError>
    requires types { AreTypes typed.now.scope.program }
    ensures { IfOk result (IsTelling typed.now.scope.program trace.now) }
{
    let held = state_columns(alloc, typed)?;
    let given = input_columns(alloc, typed)?;
    let mut states = Vec::new(alloc);
    let mut inputs = Vec::new(alloc);
    let rows = trace.states.as_slice();
    for i in 0..rows.len().max(1) {
        let Some(state) = state_at(alloc, typed, held.as_slice(), trace, i)? else {
            return Ok(Telling::Unfit(i));
        };
        let Some(given) = inputs_at(alloc, typed, given.as_slice(), trace, i)? else {
            return Ok(Telling::Unfit(i));
        };
        states.push(state)?;
        if i + 1 < rows.len() {
            inputs.push(given)?;
        }
    }
    Ok(Telling::Fit(Told {
        states: Items::from_vec(states),
        inputs: Items::from_vec(inputs),
    }))
}

/// The values that the trace of a lasso tells.
pub fn tell_lasso(alloc: Global, typed: &Typed, trace: &Trace) -> Result<Telling, AllocError>
    requires types { AreTypes typed.now.scope.program }
    ensures { IfOk result (IsLassoTelling typed.now.scope.program trace.now) }
{
    let held = state_columns(alloc, typed)?;
    let given = input_columns(alloc, typed)?;
    let mut states = Vec::new(alloc);
    let mut inputs = Vec::new(alloc);
    let rows = trace.states.as_slice();
    for i in 0..rows.len().max(1) {
        let Some(state) = state_at(alloc, typed, held.as_slice(), trace, i)? else {
            return Ok(Telling::Unfit(i));
        };
        let Some(given) = each_input_at(alloc, typed, given.as_slice(), trace, i)? else {
            return Ok(Telling::Unfit(i));
        };
        states.push(state)?;
        inputs.push(given)?;
    }
    if trace.inputs.len() > rows.len() {
        return Ok(Telling::Unfit(rows.len()));
    }
    Ok(Telling::Fit(Told {
        states: Items::from_vec(states),
        inputs: Items::from_vec(inputs),
    }))
}

// The values of the state of this number.
fn state_at(
    alloc: Global,
    typed: &Typed,
    columns: &[Column],
    trace: &Trace,
    i: usize,
) -> Result<Option<State>, AllocError>
    requires columns { columns.now ≡ state_columns typed.now.scope.program }
    requires types { AreTypes typed.now.scope.program }
    ensures { IfOk result (λ read. read ≡ state_read typed.now.scope.program trace.now i) }
{
    line_read(alloc, typed, columns, trace.states.as_slice(), i)
}

// The inputs of the step of this number; none are told where none are due.
fn inputs_at(
    alloc: Global,
    typed: &Typed,
    columns: &[Column],
    trace: &Trace,
    i: usize,
) -> Result<Option<Inputs>, AllocError>
    requires columns { columns.now ≡ input_columns typed.now.scope.program }
    requires types { AreTypes typed.now.scope.program }
    ensures { IfOk result (AreInputs typed.now.scope.program trace.now i) }
{
    let due = due_beside(columns, trace.states.len());
    let read = line_read(alloc, typed, columns, trace.inputs.as_slice(), i)?;
    if i < due {
        return Ok(read);
    }
    if i == due && i < trace.inputs.len() {
        return Ok(None);
    }
    match read {
        Some(inputs) => Ok(Some(inputs)),
        None => Ok(Some(Items::new(alloc))),
    }
}

// The inputs of the step of this number, the last of which goes back; none are told where none are due.
fn each_input_at(
    alloc: Global,
    typed: &Typed,
    columns: &[Column],
    trace: &Trace,
    i: usize,
) -> Result<Option<Inputs>, AllocError>
    requires columns { columns.now ≡ input_columns typed.now.scope.program }
    requires types { AreTypes typed.now.scope.program }
    ensures { IfOk result (AreEachInputs typed.now.scope.program trace.now i) }
{
    let due = due_each(columns, trace.states.len());
    let read = line_read(alloc, typed, columns, trace.inputs.as_slice(), i)?;
    if i < due {
        return Ok(read);
    }
    if i == due && i < trace.inputs.len() {
        return Ok(None);
    }
    match read {
        Some(inputs) => Ok(Some(inputs)),
        None => Ok(Some(Items::new(alloc))),
    }
}

// How many lines of inputs there are beside so many states of a lasso.
fn due_each(columns: &[Column], states: usize) -> usize
    ensures { result ≡ due_each columns.now states }
{
    if columns.is_empty() { 0 } else { states }
}

// How many lines of inputs there are beside so many states.
fn due_beside(columns: &[Column], states: usize) -> usize
    ensures { result ≡ due_beside columns.now states }
{
    if columns.is_empty() {
        return 0;
    }
    states.saturating_sub(1)
}

// The values that the line of this number tells, if there is one.
fn line_read(
    alloc: Global,
    typed: &Typed,
    columns: &[Column],
    lines: &[Items<Binding>],
    i: usize,
) -> Result<Option<Items<Value>>, AllocError>
    requires types { AreTypes typed.now.scope.program }
    ensures { IfOk result (λ read. read ≡ line_read (terms_of typed.now.scope.program) columns.now (slice_get lines.now i)) }
{
    match lines.get(i) {
        None => Ok(None),
        Some(bindings) => row_read(alloc, typed, columns, bindings.as_slice()),
    }
}

// One value of its type for each slot, where the names are just those of the slots, in their order.
fn row_read(
    alloc: Global,
    typed: &Typed,
    columns: &[Column],
    bindings: &[Binding],
) -> Result<Option<Items<Value>>, AllocError>
    requires types { AreTypes typed.now.scope.program }
    ensures { IfOk result (λ read. read ≡ row_read (terms_of typed.now.scope.program) columns.now bindings.now) }
{
    if columns.len() != bindings.len() {
        return Ok(None);
    }
    let mut values = Vec::new(alloc);
    for i in 0..columns.len() {
        match cell_read(alloc, typed, &columns[i], &bindings[i])? {
            None => return Ok(None),
            Some(value) => values.push(value)?,
        }
    }
    Ok(Some(Items::from_vec(values)))
}

fn cell_read(
    alloc: Global,
    typed: &Typed,
    column: &Column,
    binding: &Binding,
) -> Result<Option<Value>, AllocError>
    requires types { AreTypes typed.now.scope.program }
    ensures { IfOk result (λ read. read ≡ cell_read (terms_of typed.now.scope.program) column.now binding.now) }
{
    if !column.name.is(&binding.name) {
        return Ok(None);
    }
    typed_read(alloc, typed, column.declared, binding.value.as_str())
}

// The value of the type of this number that is told so.
#[tactic(auto, unfolding(crate::specs::Rows::terms_of))]
fn typed_read(
    alloc: Global,
    typed: &Typed,
    n: usize,
    text: &str,
) -> Result<Option<Value>, AllocError>
    requires types { AreTypes typed.now.scope.program }
    ensures { IfOk result (λ read. read ≡ typed_read (terms_of typed.now.scope.program).names (slice_get (terms_of typed.now.scope.program).types n) text.now) }
{
    match typed.types.get(n) {
        None => Ok(None),
        Some(declared) => value_read(alloc, &symbols(typed), declared, text),
    }
}
