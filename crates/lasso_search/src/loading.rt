//! Loads an unrolling into a solver step by step, and makes a new solver where variables run out.

ghost use Rattle.std.specs.Prelude.{◌≡◌, ◌+◌, ◌++◌, ◌≤◌, [], Some, IfOk, IfSome, OnOk, All, Contains};
ghost use Rattle.clause_core.specs.Literals.{Within};
ghost use Rattle.clause_core.specs.Systems.{IsSystem};
ghost use Rattle.lasso_search.specs.Unrolling.{plan_of, moment, opening, unrolled, vars_of};
ghost use Rattle.lasso_search.specs.Searches.{IsLoaded, IsKept, known_of};

use crate::encoding::{moment, opening};
use crate::plan::{Plan, sum};
use clause_core::{Clauses, Lit, System};
use sat_core::Solver;
use sat_prop::Watched;
use std::alloc::{AllocError, Global};

// How many steps a new solver has variables for at least.
const FIRST_ROOM: usize = 8;

// A solver of the clauses of so many steps.
#[derive(Drop)]
pub struct Engine {
    pub solver: Solver<Watched>,
    pub steps: usize,
}

// Gives these clauses to the solver. Their variables are decided before those of steps that are not loaded yet.
fn push_all(solver: &mut Solver<Watched>, clauses: &Clauses) -> Result<(), AllocError>
    requires within { All (Within solver.old.vars) clauses.now }
    ensures done { OnOk result (solver.new ≡ record solver.old { given = solver.old.given ++ clauses.now }) }
{
    for k in 0..clauses.len() {
        let clause = clauses.get(k);
        solver.push(clause)?;
        raise(solver, clause);
    }
    Ok(())
}

// Has the clause's variables decided as if it had come up in a conflict.
fn raise(solver: &mut Solver<Watched>, clause: &[Lit])
    ensures { solver.new ≡ solver.old }
{
    for literal in clause {
        solver.decide_early(literal.var, 1);
    }
}

// Gives the clauses of the initial state to the solver.
fn push_opening(
    alloc: Global,
    plan: &Plan,
    system: &System,
    solver: &mut Solver<Watched>,
) -> Result<(), AllocError>
    requires { All (Within solver.old.vars) (opening plan.now system.now) }
    ensures { OnOk result (solver.new ≡ record solver.old { given = solver.old.given ++ opening plan.now system.now }) }
{
    let clauses = opening(alloc, plan, system)?;
    push_all(solver, &clauses)
}

// Gives the clauses of a step to the solver.
fn push_moment(
    alloc: Global,
    plan: &Plan,
    system: &System,
    time: usize,
    solver: &mut Solver<Watched>,
) -> Result<(), AllocError>
    requires { All (Within solver.old.vars) (moment plan.now system.now time) }
    ensures { OnOk result (solver.new ≡ record solver.old { given = solver.old.given ++ moment plan.now system.now time }) }
{
    let clauses = moment(alloc, plan, system, time)?;
    push_all(solver, &clauses)
}

// A solver of the initial state's clauses, with variables for so many steps.
fn fresh(alloc: Global, plan: &Plan, system: &System, room: usize) -> Result<Engine, AllocError>
    requires plan { plan.now ≡ plan_of system.now }
    ensures loaded { IfOk result (IsLoaded system.now) }
    ensures steps { IfOk result (λ e. e.steps ≡ 0) }
    ensures room { IfOk result (λ e. vars_of system.now room ≤ e.solver.vars) }
    ensures known { IfOk result (λ e. e.solver.learned ≡ []) }
{
    system.law();
    let mut solver = Solver::new(alloc, plan.variables(room)?)?;
    push_opening(alloc, plan, system, &mut solver)?;
    Ok(Engine { solver, steps: 0 })
}

// Loads one step more.
fn load_step(
    alloc: Global,
    plan: &Plan,
    system: &System,
    engine: &mut Engine,
) -> Result<(), AllocError>
    requires plan { plan.now ≡ plan_of system.now }
    requires loaded { IsLoaded system.now engine.old }
    requires room { vars_of system.now (engine.old.steps + 1) ≤ engine.old.solver.vars }
    ensures loaded { OnOk result (IsLoaded system.now engine.new) }
    ensures steps { OnOk result (engine.new.steps ≡ engine.old.steps + 1) }
    ensures vars { OnOk result (engine.new.solver.vars ≡ engine.old.solver.vars) }
    ensures known { OnOk result (engine.new.solver.learned ≡ engine.old.solver.learned) }
{
    system.law();
    let time = engine.steps;
    let next = sum(time, 1)?;
    push_moment(alloc, plan, system, time, &mut engine.solver)?;
    engine.steps = next;
    Ok(())
}

// Loads all steps up to this number.
fn catch_up(
    alloc: Global,
    plan: &Plan,
    system: &System,
    engine: &mut Engine,
    steps: usize,
) -> Result<(), AllocError>
    requires plan { plan.now ≡ plan_of system.now }
    requires loaded { IsLoaded system.now engine.old }
    requires room { vars_of system.now steps ≤ engine.old.solver.vars }
    ensures loaded { OnOk result (IsLoaded system.now engine.new) }
    ensures steps { OnOk result (steps ≤ engine.new.steps) }
    ensures known { OnOk result (engine.new.solver.learned ≡ engine.old.solver.learned) }
{
    'steps: for _time in engine.steps..steps {
        load_step(alloc, plan, system, engine)?;
    }
    Ok(())
}

// How many steps a new solver is made for, where so many are needed: as many again are to come without a new one.
fn room_for(steps: usize) -> usize
    ensures { steps ≤ result }
{
    steps.saturating_mul(2).max(FIRST_ROOM)
}

// The solver that is kept, where it has so many variables.
fn with_room(kept: Option<Engine>, vars: usize) -> Option<Engine>
    ensures { IfSome result (λ e. kept ≡ Some e × vars ≤ e.solver.vars) }
{
    match kept {
        Some(engine) => {
            if vars <= engine.solver.vars() {
                Some(engine)
            } else {
                None
            }
        }
        None => None,
    }
}

// The solver that is kept, where it has variables for so many steps; or else a new one, that has learned nothing.
fn renewed(
    alloc: Global,
    plan: &Plan,
    system: &System,
    kept: Option<Engine>,
    steps: usize,
) -> Result<Engine, AllocError>
    requires plan { plan.now ≡ plan_of system.now }
    requires kept { IsKept system.now kept }
    ensures loaded { IfOk result (IsLoaded system.now) }
    ensures room { IfOk result (λ e. vars_of system.now steps ≤ e.solver.vars) }
    ensures known { IfOk result (λ e. All (Contains (known_of kept)) e.solver.learned) }
{
    let need = plan.variables(steps)?;
    match with_room(kept, need) {
        Some(engine) => Ok(engine),
        None => {
            let engine = fresh(alloc, plan, system, room_for(steps))?;
            Ok(engine)
        }
    }
}

// A solver of the clauses of so many steps or more.
pub fn ready(
    alloc: Global,
    plan: &Plan,
    system: &System,
    kept: Option<Engine>,
    steps: usize,
) -> Result<Engine, AllocError>
    requires plan { plan.now ≡ plan_of system.now }
    requires kept { IsKept system.now kept }
    ensures loaded { IfOk result (IsLoaded system.now) }
    ensures steps { IfOk result (λ e. steps ≤ e.steps) }
    ensures known { IfOk result (λ e. All (Contains (known_of kept)) e.solver.learned) }
{
    let mut engine = renewed(alloc, plan, system, kept, steps)?;
    catch_up(alloc, plan, system, &mut engine, steps)?;
    Ok(engine)
}
