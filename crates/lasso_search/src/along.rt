//! A fair lasso along given states: one query, which assumes the states beside what a length assumes.

ghost use Rattle.std.specs.Prelude.{◌≡◌, ◌≤◌, Contains, length, IfOk, IfSome, OnOk};
ghost use Rattle.clause_core.specs.declared.literal.Lit.{Lit};
ghost use Rattle.clause_core.specs.Literals.{Within};
ghost use Rattle.lasso_search.specs.Lassos.{IsFairLasso};
ghost use Rattle.lasso_search.specs.Searches.{IsLoaded};
ghost use Rattle.lasso_search.specs.Unrolling.{plan_of};

use crate::encoding::closing;
use crate::lasso::BitLasso;
use crate::loading::{Engine, ready};
use crate::plan::{Plan, Turn};
use crate::reading::searched;
use crate::searched::Searched;
use clause_core::{Bits, Lit, System};
use effort_purse::Purse;
use std::alloc::{AllocError, Global};

/// A fair lasso of as many states as these, where the query that assumes them finds one. Contracts promise that it is a
/// fair lasso of that length, and not which; none tells nothing of other lassos, or the purse was spent.
///
/// It is for a course of states that is known from elsewhere to come back to one of them, as a run along which a state
/// comes again. Unit propagation mostly finds the values between them, and where the loop begins. A solver is loaded for
/// these steps alone. One query is asked, which costs a ticket of the purse, and each clause that is learned another. The
/// only error is out of memory, which more variables than there are numbers count as.
pub fn lasso_along<Q: Purse>(
    alloc: Global,
    system: &System,
    states: &[Bits],
    purse: &mut Q,
) -> Result<Option<BitLasso>, AllocError>
    requires ready { Q.ready purse.old }
    ensures found { IfOk result (λ o. IfSome o (IsFairLasso system.now (length states.now))) }
    ensures kept { Q.kept purse.old purse.new }
    ensures ready { Q.ready purse.new }
    ensures budget { Q.budget purse.new ≡ Q.budget purse.old }
{
    let plan = Plan::new(system);
    let mut engine = ready(alloc, &plan, system, None, states.len())?;
    ask_along(alloc, &plan, system, &mut engine, states, purse)
}

// The same with a solver that is loaded.
fn ask_along<Q: Purse>(
    alloc: Global,
    plan: &Plan,
    system: &System,
    engine: &mut Engine,
    states: &[Bits],
    purse: &mut Q,
) -> Result<Option<BitLasso>, AllocError>
    requires plan { plan.now ≡ plan_of system.now }
    requires loaded { IsLoaded system.now engine.old }
    requires steps { length states.now ≤ engine.old.steps }
    requires ready { Q.ready purse.old }
    ensures found { IfOk result (λ o. IfSome o (IsFairLasso system.now (length states.now))) }
    ensures kept { Q.kept purse.old purse.new }
    ensures ready { Q.ready purse.new }
    ensures budget { Q.budget purse.new ≡ Q.budget purse.old }
{
    system.law();
    let count = states.len();
    let mut literals = closing(alloc, plan, count)?;
    add_states(plan, states, engine.solver.vars(), &mut literals)?;
    let answer = engine.solver.solve(alloc, &literals, purse)?;
    match searched(alloc, plan, count, answer)? {
        Searched::Found(lasso) => Ok(Some(lasso)),
        Searched::None => Ok(None),
        Searched::Spent { .. } => Ok(None),
    }
}

// Adds that the state at each time is the one with its number here. `vars` is how many variables the solver has.
fn add_states(
    plan: &Plan,
    states: &[Bits],
    vars: usize,
    out: &mut Vec<Lit>,
) -> Result<(), AllocError>
    requires within { Within vars out.old.items }
    ensures within { OnOk result (Within vars out.new.items) }
    ensures kept { OnOk result ((x : Lit) → Contains out.old.items x → Contains out.new.items x) }
{
    for time in 0..states.len() {
        add_state(plan, time, &states[time], vars, out)?;
    }
    Ok(())
}

// Adds that the state at a time is this one, as far as the solver has variables for its bits.
fn add_state(
    plan: &Plan,
    time: usize,
    state: &Bits,
    vars: usize,
    out: &mut Vec<Lit>,
) -> Result<(), AllocError>
    requires within { Within vars out.old.items }
    ensures within { OnOk result (Within vars out.new.items) }
    ensures kept { OnOk result ((x : Lit) → Contains out.old.items x → Contains out.new.items x) }
{
    for bit in 0..plan.bits.min(state.len()) {
        let var = plan.place(Turn::State(time), bit)?;
        add_below(vars, Lit::new(var, state.get(bit)), out)?;
    }
    Ok(())
}

// Adds a literal, if there are variables up to its own.
fn add_below(vars: usize, literal: Lit, out: &mut Vec<Lit>) -> Result<(), AllocError>
    requires within { Within vars out.old.items }
    ensures within { OnOk result (Within vars out.new.items) }
    ensures kept { OnOk result ((x : Lit) → Contains out.old.items x → Contains out.new.items x) }
{
    if vars <= literal.var {
        return Ok(());
    }
    out.push(literal)?;
    Ok(())
}
