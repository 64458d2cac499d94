//! The traces of runs and lassos.

ghost use Rattle.std.specs.Prelude.{◌≡◌, map, IfOk};
ghost use Rattle.smv_meaning.specs.Lassos.{Lasso};
ghost use Rattle.trace_replay.specs.Lassos.{lasso_trace};
ghost use Rattle.trace_replay.specs.Rows.{binding_of, bindings_of, given_rows, run_trace, terms_of};

use crate::columns::{Column, input_columns, state_columns, symbols};
use crate::{Binding, Trace};
use smv_meaning::{Inputs, State, Typed};
use smv_value::Value;
use sqlite_items::Items;
use std::alloc::{AllocError, Global};
use value_texts::told;

impl Trace {
    /// The trace of a run: the names of the slots, with the values of each state and of the inputs of each step.
    /// Without input slots no inputs are told. Memory may be refused.
    pub fn of_run(
        alloc: Global,
        typed: &Typed,
        states: &[State],
        inputs: &[Inputs],
    ) -> Result<Trace, AllocError>
        ensures { IfOk result (λ t. t ≡ run_trace typed.now.scope.program states.now inputs.now) }
    {
        let held = state_columns(alloc, typed)?;
        let given = input_columns(alloc, typed)?;
        let states = rows_of(alloc, typed, held.as_slice(), states)?;
        let inputs = given_rows(alloc, typed, given.as_slice(), inputs)?;
        Ok(Trace {
            states,
            inputs,
            start: None,
        })
    }

    /// The trace of a lasso: that of its states and of the inputs of the step from each, with the number of the state
    /// at which the last step goes on. Without input slots no inputs are told. Memory may be refused.
    pub fn of_lasso(
        alloc: Global,
        typed: &Typed,
        states: &[State],
        inputs: &[Inputs],
        start: usize,
    ) -> Result<Trace, AllocError>
        ensures { IfOk result (λ t. t ≡ lasso_trace typed.now.scope.program (record { states = states.now; inputs = inputs.now; start = start })) }
    {
        let held = state_columns(alloc, typed)?;
        let given = input_columns(alloc, typed)?;
        let states = rows_of(alloc, typed, held.as_slice(), states)?;
        let inputs = given_rows(alloc, typed, given.as_slice(), inputs)?;
        Ok(Trace {
            states,
            inputs,
            start: Some(start),
        })
    }
}

// The inputs of steps, if there are input slots.
fn given_rows(
    alloc: Global,
    typed: &Typed,
    columns: &[Column],
    inputs: &[Inputs],
) -> Result<Items<Items<Binding>>, AllocError>
    ensures { IfOk result (λ rows. rows ≡ given_rows (terms_of typed.now.scope.program) columns.now inputs.now) }
{
    if columns.is_empty() {
        return Ok(Items::new(alloc));
    }
    rows_of(alloc, typed, columns, inputs)
}

fn rows_of(
    alloc: Global,
    typed: &Typed,
    columns: &[Column],
    values: &[Items<Value>],
) -> Result<Items<Items<Binding>>, AllocError>
    ensures { IfOk result (λ rows. rows ≡ map (bindings_of (terms_of typed.now.scope.program) columns.now) values.now) }
{
    let mut rows = Vec::new(alloc);
    for row in values {
        rows.push(bindings_of(alloc, typed, columns, row.as_slice())?)?;
    }
    Ok(Items::from_vec(rows))
}

// The bindings of names to values, as many as there are of both.
fn bindings_of(
    alloc: Global,
    typed: &Typed,
    columns: &[Column],
    values: &[Value],
) -> Result<Items<Binding>, AllocError>
    ensures { IfOk result (λ bindings. bindings ≡ bindings_of (terms_of typed.now.scope.program) columns.now values.now) }
{
    let mut bindings = Vec::new(alloc);
    for i in 0..columns.len().min(values.len()) {
        bindings.push(binding_of(alloc, typed, &columns[i], values[i])?)?;
    }
    Ok(Items::from_vec(bindings))
}

fn binding_of(
    alloc: Global,
    typed: &Typed,
    column: &Column,
    value: Value,
) -> Result<Binding, AllocError>
    ensures { IfOk result (λ b. b ≡ binding_of (terms_of typed.now.scope.program) column.now value) }
{
    let symbols = symbols(typed);
    Ok(Binding {
        name: column.name.copy(alloc)?,
        value: told(alloc, &symbols, value)?,
    })
}
