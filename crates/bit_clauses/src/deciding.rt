//! Conditions and edges as clauses with gates of their own.

ghost use Rattle.std.specs.Prelude.{◌≡◌, ◌≤◌, ◌+◌, ◌^◌, ◌<◌, length, IfOk, All};
ghost use Rattle.bit_graph.specs.Meaning.{HasInputs, Stands};
ghost use Rattle.clause_core.specs.Literals.{Within};
ghost use Rattle.clause_core.specs.Systems.{Gives};
ghost use Rattle.bit_clauses.specs.Asserted.{EithersStand};
ghost use Rattle.bit_clauses.specs.Gated.{DecidesGroup, DefinesEdges, IsGated};
ghost use Rattle.bit_clauses.specs.Moving.{Skips};

use crate::conditions::{edges_in, with_conditions};
use crate::cutting::cut;
use crate::either::Either;
use crate::gates::{Gates, gates_of};
use crate::moving::moved_gates;
use bit_graph::{Edge, Graph};
use clause_core::{Clause, Clauses};
use std::alloc::{AllocError, Global};

/// Clauses over the variables below a number.
#[derive(Drop)]
pub struct Decided {
    pub vars: usize,
    pub clauses: Clauses,
}

/// Clauses over the variables below a number, and literals that they define.
#[derive(Drop)]
pub struct Defined {
    pub vars: usize,
    pub clauses: Clauses,
    pub literals: Clause,
}

/// Clauses that decide whether all conditions hold, by the graph's inputs.
///
/// The inputs, which are the graph's first nodes, are the first variables; `by` numbers behind them are
/// left free, and the variables of gates follow. Where the conditions hold, values of the gates meet
/// the clauses; where they don't, unit propagation from the inputs' values finds a conflict. Time and
/// memory grow with the nodes and the conditions. The only error is out of memory.
pub fn decide(
    alloc: Global,
    graph: &Graph,
    inputs: usize,
    asked: &[Either],
    by: usize,
) -> Result<Decided, AllocError>
    requires inputs { HasInputs inputs graph.now }
    requires stand { EithersStand graph.now asked.now }
    ensures decides { IfOk result (λ r. DecidesGroup inputs graph.now asked.now r.clauses) }
    ensures vars { IfOk result (λ r. inputs + by ≤ r.vars) }
    ensures within { IfOk result (λ r. All (Within r.vars) r.clauses) }
    ensures skips { IfOk result (λ r. All (Skips inputs (inputs + by)) r.clauses) }
{
    graph.one_way();
    let conditions = cut(alloc, graph, asked)?;
    let edges = edges_in(alloc, &conditions)?;
    let gates = gates_behind(alloc, graph, inputs, &edges, by)?;
    let Gates {
        vars,
        clauses,
        literals,
    } = gates;
    let clauses = with_conditions(clauses, &literals, &conditions)?;
    Ok(Decided { vars, clauses })
}

/// Clauses that give each edge's literal the edge's value, by the graph's inputs; their variables stand
/// as in `decide`.
pub fn define(
    alloc: Global,
    graph: &Graph,
    inputs: usize,
    edges: &[Edge],
    by: usize,
) -> Result<Defined, AllocError>
    requires inputs { HasInputs inputs graph.now }
    requires stand { All (Stands graph.now) edges.now }
    ensures defines { IfOk result (λ r. DefinesEdges inputs graph.now edges.now r.clauses r.literals) }
    ensures gives { IfOk result (λ r. Gives inputs r.literals r.clauses) }
    ensures vars { IfOk result (λ r. inputs + by ≤ r.vars) }
    ensures within { IfOk result (λ r. All (Within r.vars) r.clauses) }
    ensures literals_within { IfOk result (λ r. Within r.vars r.literals) }
    ensures skips { IfOk result (λ r. All (Skips inputs (inputs + by)) r.clauses) }
    ensures literals_skip { IfOk result (λ r. Skips inputs (inputs + by) r.literals) }
{
    let gates = gates_behind(alloc, graph, inputs, edges, by)?;
    let literals = Clause::from_vec(gates.literals);
    Ok(Defined {
        vars: gates.vars,
        clauses: gates.clauses,
        literals,
    })
}

// The gates of the edges, their variables moved up by `by` behind those of the inputs.
fn gates_behind(
    alloc: Global,
    graph: &Graph,
    inputs: usize,
    edges: &[Edge],
    by: usize,
) -> Result<Gates, AllocError>
    requires inputs { HasInputs inputs graph.now }
    requires stand { All (Stands graph.now) edges.now }
    ensures gates { IfOk result (λ r. IsGated inputs graph.now edges.now r.clauses r.literals.items) }
    ensures vars { IfOk result (λ r. inputs + by ≤ r.vars) }
    ensures within { IfOk result (λ r. All (Within r.vars) r.clauses) }
    ensures literals_within { IfOk result (λ r. Within r.vars r.literals.items) }
    ensures skips { IfOk result (λ r. All (Skips inputs (inputs + by)) r.clauses) }
    ensures literals_skip { IfOk result (λ r. Skips inputs (inputs + by) r.literals.items) }
{
    let own = gates_of(alloc, graph, inputs, edges)?;
    match own.vars.checked_add(by) {
        None => Err(AllocError),
        Some(_) => moved_gates(alloc, &own, inputs, by),
    }
}
