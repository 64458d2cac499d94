//! A system for each specification.

ghost use Rattle.std.specs.Prelude.{◌≡◌, ◌≤◌, map, IfOk, All};
ghost use Rattle.bit_graph.specs.Meaning.{HasInputs};
ghost use Rattle.bit_arith.specs.Number.{AllStand};
ghost use Rattle.bit_system.specs.Conditions.{Each};
ghost use Rattle.bit_system.specs.Sharing.{CanBeClaimed, DecidesEdge, HasRoom, system_by};

use crate::sides::{Claim, StateSide, claim_side, higher};
use bit_clauses::Decided;
use bit_graph::{Edge, Graph};
use clause_core::{Clause, Clauses, Parts, System};
use std::alloc::{AllocError, Global};

/// What all systems of a program share.
#[derive(Drop)]
pub struct Shared {
    /// How many bits a state has.
    pub width: usize,
    pub steps: Decided,
    pub states: StateSide,
}

/// The clauses of each of these edges: of where it is true, and of where it is not. The graph has so many inputs.
pub fn claims(
    alloc: Global,
    graph: &Graph,
    width: usize,
    by: usize,
    edges: &[Edge],
) -> Result<Vec<Claim>, AllocError>
    requires inputs { HasInputs width graph.now }
    requires stand { AllStand graph.now edges.now }
    ensures { IfOk result (λ r. Each (DecidesEdge width graph.now) edges.now r.items) }
{
    let mut claims = Vec::new(alloc);
    for edge in edges {
        claims.push(claim_side(alloc, graph, width, by, *edge)?)?;
    }
    Ok(claims)
}

/// A number that neither this one nor the claims' numbers of variables are above.
pub fn highest(start: usize, claims: &[Claim]) -> usize
    ensures start { start ≤ result }
    ensures all { All (λ c. c.vars ≤ result) claims.now }
{
    let mut most = start;
    for c in claims {
        most = higher(most, c.vars);
    }
    most
}

// The same clauses.
fn copied_clauses(alloc: Global, clauses: &Clauses) -> Result<Clauses, AllocError>
    ensures { IfOk result (λ r. r ≡ clauses.now) }
{
    let mut made = Clauses::new(alloc);
    for k in 0..clauses.len() {
        made.push(clauses.get(k))?;
    }
    Ok(made)
}

// The system of a specification, with so many variables.
fn system_of(
    alloc: Global,
    shared: &Shared,
    vars: usize,
    claim: &Claim,
) -> Result<System, AllocError>
    requires shared { HasRoom vars shared.now }
    requires claim { CanBeClaimed vars shared.now.width claim.now }
    ensures { IfOk result (λ r. r ≡ system_by shared.now vars claim.now) }
{
    let init = copied_clauses(alloc, &shared.states.init)?;
    let step = copied_clauses(alloc, &shared.steps.clauses)?;
    let bad = copied_clauses(alloc, &claim.bad)?;
    let good = copied_clauses(alloc, &claim.good)?;
    let fair = Clause::from_slice(alloc, shared.states.fair.as_slice())?;
    let defs = copied_clauses(alloc, &shared.states.defs)?;
    Ok(System::new(Parts {
        state_bits: shared.width,
        all_bits: vars,
        init,
        step,
        bad,
        good,
        fair,
        defs,
    }))
}

/// The systems of the specifications, each with so many variables.
pub fn systems(
    alloc: Global,
    shared: &Shared,
    vars: usize,
    claims: &[Claim],
) -> Result<Vec<System>, AllocError>
    requires shared { HasRoom vars shared.now }
    requires claims { All (CanBeClaimed vars shared.now.width) claims.now }
    ensures { IfOk result (λ r. r.items ≡ map (system_by shared.now vars) claims.now) }
{
    let mut systems = Vec::new(alloc);
    for claim in claims {
        systems.push(system_of(alloc, shared, vars, claim)?)?;
    }
    Ok(systems)
}

/// The same system. Time and memory grow with its clauses; the only error is running out of memory.
pub fn copied(alloc: Global, system: &System) -> Result<System, AllocError>
    ensures { IfOk result (λ r. r ≡ system.now) }
{
    system.law();
    let init = copied_clauses(alloc, system.init())?;
    let step = copied_clauses(alloc, system.step())?;
    let bad = copied_clauses(alloc, system.bad())?;
    let good = copied_clauses(alloc, system.good())?;
    let fair = Clause::from_slice(alloc, system.fair())?;
    let defs = copied_clauses(alloc, system.defs())?;
    Ok(System::new(Parts {
        state_bits: system.state_bits(),
        all_bits: system.all_bits(),
        init,
        step,
        bad,
        good,
        fair,
        defs,
    }))
}
