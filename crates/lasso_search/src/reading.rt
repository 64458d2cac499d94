//! Reads the solver's answer for one length. A model gives the states of a fair lasso and the start
//! of its loop; a refutation says that there is none.

ghost use Rattle.std.specs.Prelude.{◌≡◌, false, IfOk, slice_index_or};
ghost use Rattle.clause_core.specs.Assignments.{assignment_of};
ghost use Rattle.lasso_search.specs.Searches.{IsStart, Reads, Tells, row_of, rows_of};

use crate::lasso::BitLasso;
use crate::plan::{Plan, Turn, sum};
use crate::searched::Searched;
use clause_core::Bits;
use sat_core::Answer;
use std::alloc::{AllocError, Global};

// Reads the solver's answer to the query for a lasso of so many states.
pub fn searched(
    alloc: Global,
    plan: &Plan,
    states: usize,
    answer: Answer,
) -> Result<Searched, AllocError>
    ensures { IfOk result (Tells plan.now states answer) }
{
    match answer {
        Answer::Sat(model) => {
            let found = lasso(alloc, plan, states, &model)?;
            Ok(Searched::Found(found))
        }
        Answer::Unsat { .. } => Ok(Searched::None),
        Answer::Spent { drawn, budget } => Ok(Searched::Spent { drawn, budget }),
    }
}

// The lasso that a model has.
fn lasso(alloc: Global, plan: &Plan, states: usize, model: &Bits) -> Result<BitLasso, AllocError>
    ensures { IfOk result (Reads plan.now states model.now) }
{
    let rows = rows(alloc, plan, states, model)?;
    let start = start(plan, states, model)?;
    Ok(BitLasso::from_vec(rows, start))
}

// The values of each state's step.
fn rows(alloc: Global, plan: &Plan, states: usize, model: &Bits) -> Result<Vec<Bits>, AllocError>
    ensures { IfOk result (λ rows. rows.items ≡ rows_of plan.now (assignment_of model.now) states) }
{
    let mut rows = Vec::new(alloc);
    for time in 0..states {
        rows.push(row(alloc, plan, model, time)?)?;
    }
    Ok(rows)
}

fn row(alloc: Global, plan: &Plan, model: &Bits, time: usize) -> Result<Bits, AllocError>
    ensures { IfOk result (λ row. row ≡ row_of plan.now (assignment_of model.now) time) }
{
    let mut values = Vec::new(alloc);
    for var in 0..plan.all {
        let place = plan.place(Turn::Step(time), var)?;
        values.push(value(model, place))?;
    }
    Ok(Bits::from_vec(values))
}

// The time at which the loop begins.
fn start(plan: &Plan, states: usize, model: &Bits) -> Result<usize, AllocError>
    ensures { IfOk result (IsStart plan.now (assignment_of model.now) states) }
{
    for time in 0..states {
        let begun = plan.begun_literal(sum(time, 1)?)?;
        if value(model, begun.var) {
            return Ok(time);
        }
    }
    Ok(states)
}

// The value of a variable, false past the model's end.
fn value(model: &Bits, var: usize) -> bool
    ensures { result ≡ slice_index_or model.now var false }
{
    match model.as_slice().get(var) {
        Some(value) => *value,
        None => false,
    }
}
