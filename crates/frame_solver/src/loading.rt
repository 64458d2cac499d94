//! A solver of groups of clauses, each switched on by an activation literal (Eén and Sörensson
//! 2003).

ghost use Rattle.std.specs.Prelude.{◌≡◌, ◌+◌, ◌<◌, ◌≤◌, ◌^◌, ℕ, List, [], ◌∷◌, ◌++◌, map, All, Contains, OnOk, OnErr, IfOk, length};
ghost use Rattle.clause_core.specs.declared.literal.Lit.{Lit as ALit};
ghost use Rattle.clause_core.specs.Literals.{Within};
ghost use Rattle.clause_core.specs.Systems.{TransitionSystem, IsSystem};
ghost use Rattle.frame_core.specs.declared.parts.Lemma.{Lemma as ALemma};
ghost use Rattle.frame_core.specs.FrameLaw.{AreAlike, system_at};
ghost use Rattle.frame_solver.specs.Guards.{off, behind, HoldsGroups};
ghost use Rattle.frame_solver.specs.Groups.{base as base_of, first_var, first_clause, init_group, step_heads, state_heads, clauses_of};

use clause_core::{Clauses, Lit, System};
use sat_core::Solver;
use sat_prop::Watched;
use std::alloc::{AllocError, Global};

/// A solver of groups of clauses, each behind an activation literal: those of systems, then the lemmas'.
#[derive(Drop)]
pub struct Engine {
    /// The kept solver.
    pub solver: Solver<Watched>,
    /// The first activation variable.
    pub base: usize,
    /// How many groups are those of systems.
    pub heads: usize,
    /// How many lemmas were loaded.
    pub loaded: usize,
    /// The activation variables from this one on were used by single queries.
    pub used: usize,
}

/// System number j, and that it is one.
pub fn system_of(systems: &[System], j: usize) -> &System
    requires { j < length systems.now }
    ensures value { result.now ≡ system_at systems.now j }
    ensures law { IsSystem (system_at systems.now j) }
{
    let system = &systems[j];
    system.law();
    system
}

// The sum, where it is a number.
pub(crate) fn sum(a: usize, b: usize) -> Result<usize, AllocError>
    ensures { IfOk result (λ c. c ≡ a + b) }
{
    match a.checked_add(b) {
        Some(c) => Ok(c),
        None => Err(AllocError),
    }
}

// Adds the clause behind this activation variable. If memory runs out, the solver is as before.
pub(crate) fn push_guarded(
    alloc: Global,
    solver: &mut Solver<Watched>,
    guard: usize,
    clause: &[Lit],
) -> Result<(), AllocError>
    requires guard { guard < solver.old.vars }
    requires within { Within solver.old.vars clause.now }
    ensures done { OnOk result (solver.new ≡ record solver.old { given = solver.old.given ++ (off guard ∷ clause.now) ∷ [] }) }
    ensures failed { OnErr result (solver.new ≡ solver.old) }
{
    let mut literals = Vec::new(alloc);
    literals.push(Lit::new(guard, false))?;
    literals.extend_from_slice(clause)?;
    solver.push(&literals)
}

// Adds these clauses behind one activation variable.
pub(crate) fn push_group(
    alloc: Global,
    solver: &mut Solver<Watched>,
    guard: usize,
    clauses: &Clauses,
) -> Result<(), AllocError>
    requires guard { guard < solver.old.vars }
    requires within { All (Within solver.old.vars) clauses.now }
    ensures done { OnOk result (solver.new ≡ record solver.old { given = solver.old.given ++ behind guard clauses.now }) }
{
    'clauses: for k in 0..clauses.len() {
        push_guarded(alloc, solver, guard, clauses.get(k))?;
    }
    Ok(())
}

// The literal of an initial state's own variables.
fn first_literal(system: &System, l: Lit) -> Result<Lit, AllocError>
    ensures { IfOk result (λ m. m ≡ record { var = first_var system.now l.var; positive = l.positive }) }
{
    let bits = system.state_bits();
    if l.var < bits {
        return Ok(l);
    }
    let others = system.all_bits() - bits;
    let var = sum(l.var, others)?;
    Ok(Lit {
        var,
        positive: l.positive,
    })
}

fn first_literals(alloc: Global, system: &System, clause: &[Lit]) -> Result<Vec<Lit>, AllocError>
    ensures { IfOk result (λ v. v.items ≡ first_clause system.now clause.now) }
{
    let mut literals = Vec::new(alloc);
    'literals: for l in clause {
        literals.push(first_literal(system, *l)?)?;
    }
    Ok(literals)
}

// The clauses of an initial state, over its own variables.
pub(crate) fn first_clauses(alloc: Global, system: &System) -> Result<Clauses, AllocError>
    ensures value { IfOk result (λ cs. cs ≡ init_group system.now) }
    ensures within { IfOk result (All (Within (base_of system.now))) }
{
    let init = system.init();
    system.law();
    let mut clauses = Clauses::new(alloc);
    'clauses: for k in 0..init.len() {
        clauses.push(&first_literals(alloc, system, init.get(k))?)?;
    }
    Ok(clauses)
}

// The first activation variable.
pub(crate) fn first_guard(system: &System) -> Result<usize, AllocError>
    ensures { IfOk result (λ b. b ≡ base_of system.now) }
{
    let all = system.all_bits();
    sum(all, all - system.state_bits())
}

// The variables of state bits are decided towards the value that a clause of one literal gives initial states.
pub(crate) fn prefer_first(solver: &mut Solver<Watched>, system: &System)
    ensures { solver.new ≡ solver.old }
{
    let init = system.init();
    let bits = system.state_bits();
    'clauses: for k in 0..init.len() {
        let clause = init.get(k);
        if clause.len() == 1 {
            let l = clause[0];
            if l.var < bits {
                solver.prefer(l.var, l.positive);
            }
        }
    }
}
