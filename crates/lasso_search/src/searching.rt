//! One query for one length: loads the unrolling, solves it under the length's assumptions, and
//! reads the answer.

ghost use Rattle.std.specs.Prelude.{◌≡◌, ◌≤◌, IfOk};
ghost use Rattle.lasso_search.specs.Unrolling.{plan_of};
ghost use Rattle.lasso_search.specs.Paying.{PaysOne, IsAsked};
ghost use Rattle.lasso_search.specs.Searches.{Finds, IsLoaded, IsKept, known_of};

use crate::encoding::closing;
use crate::loading::{Engine, ready};
use crate::plan::Plan;
use crate::reading::searched;
use crate::searched::Searched;
use clause_core::System;
use effort_purse::Purse;
use std::alloc::{AllocError, Global};

// Asks whether there is a fair lasso of so many states.
fn ask<Q: Purse>(
    alloc: Global,
    plan: &Plan,
    system: &System,
    engine: &mut Engine,
    states: usize,
    purse: &mut Q,
) -> Result<Searched, AllocError>
    requires plan { plan.now ≡ plan_of system.now }
    requires loaded { IsLoaded system.now engine.old }
    requires steps { states ≤ engine.old.steps }
    requires ready { Q.ready purse.old }
    ensures found { IfOk result (Finds system.now states (Q.budget purse.old) (Q.spent purse.new)) }
    ensures asked { IfOk result (IsAsked (Q.tickets purse.old) (Q.tickets purse.new)) }
    ensures pays { PaysOne system.now states engine.old.solver.learned engine.new.solver.learned (Q.tickets purse.old) (Q.tickets purse.new) }
    ensures loaded { IsLoaded system.now engine.new }
    ensures kept { Q.kept purse.old purse.new }
    ensures ready { Q.ready purse.new }
    ensures budget { Q.budget purse.new ≡ Q.budget purse.old }
{
    system.law();
    let literals = closing(alloc, plan, states)?;
    let answer = engine.solver.solve(alloc, &literals, purse)?;
    searched(alloc, plan, states, answer)
}

// As `ask`, with the solver that is kept; it is made where there is none. Where no memory is found to load it,
// it is dropped.
pub fn search_in<Q: Purse>(
    alloc: Global,
    system: &System,
    kept: &mut Option<Engine>,
    states: usize,
    purse: &mut Q,
) -> Result<Searched, AllocError>
    requires kept { IsKept system.now kept.old }
    requires ready { Q.ready purse.old }
    ensures found { IfOk result (Finds system.now states (Q.budget purse.old) (Q.spent purse.new)) }
    ensures asked { IfOk result (IsAsked (Q.tickets purse.old) (Q.tickets purse.new)) }
    ensures pays { PaysOne system.now states (known_of kept.old) (known_of kept.new) (Q.tickets purse.old) (Q.tickets purse.new) }
    ensures solver { IsKept system.now kept.new }
    ensures kept { Q.kept purse.old purse.new }
    ensures ready { Q.ready purse.new }
    ensures budget { Q.budget purse.new ≡ Q.budget purse.old }
{
    let plan = Plan::new(system);
    let mut engine = ready(alloc, &plan, system, kept.take(), states)?;
    let answer = ask(alloc, &plan, system, &mut engine, states, purse);
    *kept = Some(engine);
    answer
}
