//! Loads new lemmas into the solvers. A solver is made anew when its activation variables run out
//! or it has learned too many clauses.

ghost use Rattle.std.specs.Prelude.{◌≡◌, ◌+◌, ◌<◌, ◌≤◌, ◌^◌, ℕ, List, [], ◌∷◌, ◌++◌, All, Contains, OnOk, OnErr, IfOk, length};
ghost use Rattle.clause_core.specs.declared.literal.Lit.{Lit as ALit};
ghost use Rattle.clause_core.specs.Literals.{Within};
ghost use Rattle.frame_core.specs.declared.parts.Lemma.{Lemma as ALemma};
ghost use Rattle.frame_core.specs.FrameLaw.{AreAlike, system_at};
ghost use Rattle.frame_solver.specs.Guards.{off, behind, HoldsGroups};
ghost use Rattle.frame_solver.specs.Groups.{base as base_of, init_group, step_heads, state_heads, clauses_of};
ghost use Rattle.frame_solver.specs.Engines.{IsFresh, IsLoaded, IsReady, KeepsLoading};

use crate::loading::{
    Engine, first_clauses, first_guard, prefer_first, push_group, push_guarded, sum, system_of,
};
use clause_core::{Lit, System};
use frame_core::Lemma;
use sat_core::Solver;
use sat_prop::Watched;
use std::alloc::{AllocError, Global};

// How many queries with a clause of their own a new solver has room for.
const ROOM: usize = 300;

// How many clauses a solver may have learned before it is made anew, beside one for each eight clauses of a step. What was
// learned long ago costs each query a little. Where queries are hard, as those about sums, it saves most of their conflicts.
const LEARNED: usize = 1000;

// Whether the solver has learned few enough clauses to be kept.
fn is_light(systems: &[System], engine: &Engine) -> bool
    requires some { 0 < length systems.now }
{
    let steps = system_of(systems, 0).step().len();
    engine.solver.learned() < LEARNED.saturating_add(steps / 8)
}

// Adds the clauses of initial states, as the first group.
fn push_init(
    alloc: Global,
    solver: &mut Solver<Watched>,
    base: usize,
    system: &System,
) -> Result<(), AllocError>
    requires base { base ≡ base_of system.now }
    requires room { base < solver.old.vars }
    ensures { OnOk result (solver.new ≡ record solver.old { given = solver.old.given ++ behind base (init_group system.now) }) }
{
    let init = first_clauses(alloc, system)?;
    push_group(alloc, solver, base, &init)
}

// Adds the groups for questions about steps to a solver that has no clauses.
fn push_step_groups(
    alloc: Global,
    solver: &mut Solver<Watched>,
    base: usize,
    systems: &[System],
) -> Result<(), AllocError>
    requires some { 0 < length systems.now }
    requires base { base ≡ base_of (system_at systems.now 0) }
    requires room { base + 1 < solver.old.vars }
    requires small { solver.old.vars < 2 ^ 64 }
    requires empty { solver.old.given ≡ [] }
    ensures vars { OnOk result (solver.new.vars ≡ solver.old.vars) }
    ensures learned { OnOk result (solver.new.learned ≡ solver.old.learned) }
    ensures all { OnOk result (HoldsGroups base (step_heads (system_at systems.now 0)) solver.old.vars solver.new.given) }
{
    let system = system_of(systems, 0);
    push_init(alloc, solver, base, system)?;
    push_group(alloc, solver, base + 1, system.step())?;
    prefer_first(solver, system);
    Ok(())
}

/// A solver with the groups for questions about steps, and room for so many lemmas. It costs the clauses of the first
/// system; the error is out of memory.
pub fn fresh_steps(alloc: Global, systems: &[System], lemmas: usize) -> Result<Engine, AllocError>
    requires { 0 < length systems.now }
    ensures { IfOk result (IsFresh (base_of (system_at systems.now 0)) (step_heads (system_at systems.now 0)) lemmas) }
{
    let base = first_guard(system_of(systems, 0))?;
    let used = sum(base, sum(2 + ROOM, lemmas)?)?;
    let mut solver = Solver::new(alloc, used)?;
    push_step_groups(alloc, &mut solver, base, systems)?;
    Ok(Engine {
        solver,
        base,
        heads: 2,
        loaded: 0,
        used,
    })
}

// Adds the bad clauses of each system, from the second group on.
fn push_bads(
    alloc: Global,
    solver: &mut Solver<Watched>,
    base: usize,
    systems: &[System],
) -> Result<(), AllocError>
    requires some { 0 < length systems.now }
    requires alike { AreAlike systems.now }
    requires base { base ≡ base_of (system_at systems.now 0) }
    requires room { base + (1 + length systems.now) < solver.old.vars }
    requires small { solver.old.vars < 2 ^ 64 }
    requires init { HoldsGroups base (init_group (system_at systems.now 0) ∷ []) solver.old.vars solver.old.given }
    ensures vars { OnOk result (solver.new.vars ≡ solver.old.vars) }
    ensures learned { OnOk result (solver.new.learned ≡ solver.old.learned) }
    ensures all { OnOk result (HoldsGroups base (state_heads systems.now) solver.old.vars solver.new.given) }
{
    'systems: for j in 0..systems.len() {
        let system = system_of(systems, j);
        push_group(alloc, solver, base + (1 + j), system.bad())?;
    }
    Ok(())
}

// Adds the groups for questions about single states to a solver that has no clauses.
fn push_state_groups(
    alloc: Global,
    solver: &mut Solver<Watched>,
    base: usize,
    systems: &[System],
) -> Result<(), AllocError>
    requires some { 0 < length systems.now }
    requires alike { AreAlike systems.now }
    requires base { base ≡ base_of (system_at systems.now 0) }
    requires room { base + (1 + length systems.now) < solver.old.vars }
    requires small { solver.old.vars < 2 ^ 64 }
    requires empty { solver.old.given ≡ [] }
    ensures vars { OnOk result (solver.new.vars ≡ solver.old.vars) }
    ensures learned { OnOk result (solver.new.learned ≡ solver.old.learned) }
    ensures all { OnOk result (HoldsGroups base (state_heads systems.now) solver.old.vars solver.new.given) }
{
    let system = system_of(systems, 0);
    push_init(alloc, solver, base, system)?;
    push_bads(alloc, solver, base, systems)?;
    prefer_first(solver, system);
    Ok(())
}

/// A solver with the groups for questions about single states, and room for so many lemmas. It costs the clauses of
/// initial and of bad states; the error is out of memory.
pub fn fresh_states(alloc: Global, systems: &[System], lemmas: usize) -> Result<Engine, AllocError>
    requires some { 0 < length systems.now }
    requires alike { AreAlike systems.now }
    ensures { IfOk result (IsFresh (base_of (system_at systems.now 0)) (state_heads systems.now) lemmas) }
{
    let base = first_guard(system_of(systems, 0))?;
    let heads = sum(1, systems.len())?;
    let used = sum(base, sum(heads, sum(ROOM, lemmas)?)?)?;
    let mut solver = Solver::new(alloc, used)?;
    push_state_groups(alloc, &mut solver, base, systems)?;
    Ok(Engine {
        solver,
        base,
        heads,
        loaded: 0,
        used,
    })
}

// Loads one lemma more. If memory runs out, all is as before.
fn add_lemma(alloc: Global, engine: &mut Engine, clause: &[Lit]) -> Result<(), AllocError>
    requires room { engine.old.base + (engine.old.heads + engine.old.loaded) < engine.old.used }
    requires fits { engine.old.used ≤ engine.old.solver.vars }
    requires within { Within engine.old.solver.vars clause.now }
    ensures done { OnOk result (engine.new ≡ record engine.old { loaded = engine.old.loaded + 1; solver = record engine.old.solver { given = engine.old.solver.given ++ (off (engine.old.base + (engine.old.heads + engine.old.loaded)) ∷ clause.now) ∷ [] } }) }
    ensures failed { OnErr result (engine.new ≡ engine.old) }
{
    let _vars = engine.solver.vars();
    let guard = engine.base + (engine.heads + engine.loaded);
    push_guarded(alloc, &mut engine.solver, guard, clause)?;
    engine.loaded += 1;
    Ok(())
}

// Loads the lemmas that were not loaded yet. If memory runs out, some of them are loaded.
pub(crate) fn catch_up(
    alloc: Global,
    engine: &mut Engine,
    lemmas: &[Lemma],
) -> Result<(), AllocError>
    requires some { engine.old.loaded ≤ length lemmas.now }
    requires room { engine.old.base + (engine.old.heads + length lemmas.now) < engine.old.used }
    requires fits { engine.old.used ≤ engine.old.solver.vars }
    requires within { All (λ (l : ALemma). Within engine.old.solver.vars l.clause) lemmas.now }
    ensures keeps { KeepsLoading engine.old engine.new }
    ensures each { (b : ℕ) (hs : List (List (List ALit))) → IsLoaded b hs (clauses_of lemmas.now) engine.old → IsLoaded b hs (clauses_of lemmas.now) engine.new }
    ensures all { OnOk result (engine.new.loaded ≡ length lemmas.now) }
{
    'lemmas: for n in engine.loaded..lemmas.len() {
        add_lemma(alloc, engine, lemmas[n].clause.as_slice())?;
    }
    Ok(())
}

// Puts a new solver in the place of the old one.
fn replace(engine: &mut Engine, new: Engine)
    ensures { engine.new ≡ new }
{
    *engine = new;
}

// Makes the solver for questions about steps anew where no activation variable is left.
fn renew_steps(
    alloc: Global,
    systems: &[System],
    lemmas: &[Lemma],
    engine: &mut Engine,
) -> Result<(), AllocError>
    requires some { 0 < length systems.now }
    requires engine { IsLoaded (base_of (system_at systems.now 0)) (step_heads (system_at systems.now 0)) (clauses_of lemmas.now) engine.old }
    ensures engine { IsLoaded (base_of (system_at systems.now 0)) (step_heads (system_at systems.now 0)) (clauses_of lemmas.now) engine.new }
    ensures room { OnOk result (base_of (system_at systems.now 0) + (length (step_heads (system_at systems.now 0)) + length lemmas.now) < engine.new.used) }
    ensures known { All (Contains engine.old.solver.learned) engine.new.solver.learned }
{
    let need = sum(engine.base, sum(engine.heads, lemmas.len())?)?;
    if need < engine.used && is_light(systems, engine) {
        return Ok(());
    }
    let fresh = fresh_steps(alloc, systems, lemmas.len())?;
    replace(engine, fresh);
    Ok(())
}

// Makes the solver ready for a query about steps: an activation variable is left, and all lemmas are loaded.
pub(crate) fn prepare_steps(
    alloc: Global,
    systems: &[System],
    lemmas: &[Lemma],
    engine: &mut Engine,
) -> Result<(), AllocError>
    requires some { 0 < length systems.now }
    requires lemmas { All (λ (l : ALemma). Within (system_at systems.now 0).state_bits l.clause) lemmas.now }
    requires engine { IsLoaded (base_of (system_at systems.now 0)) (step_heads (system_at systems.now 0)) (clauses_of lemmas.now) engine.old }
    ensures done { OnOk result (IsReady (base_of (system_at systems.now 0)) (step_heads (system_at systems.now 0)) (clauses_of lemmas.now) engine.new) }
    ensures engine { IsLoaded (base_of (system_at systems.now 0)) (step_heads (system_at systems.now 0)) (clauses_of lemmas.now) engine.new }
    ensures known { All (Contains engine.old.solver.learned) engine.new.solver.learned }
{
    let _system = system_of(systems, 0);
    renew_steps(alloc, systems, lemmas, engine)?;
    catch_up(alloc, engine, lemmas)
}

// Makes the solver for questions about single states anew where no activation variable is left.
fn renew_states(
    alloc: Global,
    systems: &[System],
    lemmas: &[Lemma],
    engine: &mut Engine,
) -> Result<(), AllocError>
    requires some { 0 < length systems.now }
    requires alike { AreAlike systems.now }
    requires engine { IsLoaded (base_of (system_at systems.now 0)) (state_heads systems.now) (clauses_of lemmas.now) engine.old }
    ensures engine { IsLoaded (base_of (system_at systems.now 0)) (state_heads systems.now) (clauses_of lemmas.now) engine.new }
    ensures room { OnOk result (base_of (system_at systems.now 0) + (length (state_heads systems.now) + length lemmas.now) < engine.new.used) }
    ensures known { All (Contains engine.old.solver.learned) engine.new.solver.learned }
{
    let need = sum(engine.base, sum(engine.heads, lemmas.len())?)?;
    if need < engine.used {
        return Ok(());
    }
    let fresh = fresh_states(alloc, systems, lemmas.len())?;
    replace(engine, fresh);
    Ok(())
}

// Makes the solver ready for a query about single states: an activation variable is left, and all lemmas are loaded.
pub(crate) fn prepare_states(
    alloc: Global,
    systems: &[System],
    lemmas: &[Lemma],
    engine: &mut Engine,
) -> Result<(), AllocError>
    requires some { 0 < length systems.now }
    requires alike { AreAlike systems.now }
    requires lemmas { All (λ (l : ALemma). Within (system_at systems.now 0).state_bits l.clause) lemmas.now }
    requires engine { IsLoaded (base_of (system_at systems.now 0)) (state_heads systems.now) (clauses_of lemmas.now) engine.old }
    ensures done { OnOk result (IsReady (base_of (system_at systems.now 0)) (state_heads systems.now) (clauses_of lemmas.now) engine.new) }
    ensures engine { IsLoaded (base_of (system_at systems.now 0)) (state_heads systems.now) (clauses_of lemmas.now) engine.new }
    ensures known { All (Contains engine.old.solver.learned) engine.new.solver.learned }
{
    let _system = system_of(systems, 0);
    renew_states(alloc, systems, lemmas, engine)?;
    catch_up(alloc, engine, lemmas)
}
