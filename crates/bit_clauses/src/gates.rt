//! The clauses of the nodes that edges stand on.

ghost use Rattle.std.specs.Prelude.{◌≡◌, ◌≤◌, IfOk, All, length};
ghost use Rattle.bit_graph.specs.Meaning.{HasInputs, Stands};
ghost use Rattle.clause_core.specs.Literals.{Within};
ghost use Rattle.bit_clauses.specs.Gated.{IsGated};

use bit_graph::{Edge, Graph};
use clause_core::{Clauses, Lit};
use cnf_build::clauses;
use std::alloc::{AllocError, Global};

/// Clauses over the variables below a number, and a literal for each of some edges.
#[derive(Drop)]
pub struct Gates {
    pub vars: usize,
    pub clauses: Clauses,
    pub literals: Vec<Lit>,
}

/// The clauses of the nodes that the edges stand on: they give each edge its value where the graph's
/// inputs, which are its first nodes and the first variables, have values.
pub fn gates_of(
    alloc: Global,
    graph: &Graph,
    inputs: usize,
    edges: &[Edge],
) -> Result<Gates, AllocError>
    requires inputs { HasInputs inputs graph.now }
    requires stand { All (Stands graph.now) edges.now }
    ensures gates { IfOk result (λ r. IsGated inputs graph.now edges.now r.clauses r.literals.items) }
    ensures vars { IfOk result (λ r. inputs ≤ r.vars) }
    ensures within { IfOk result (λ r. All (Within r.vars) r.clauses) }
    ensures literals_within { IfOk result (λ r. Within r.vars r.literals.items) }
{
    graph.one_way();
    let cnf = clauses(alloc, graph, edges)?;
    Ok(Gates {
        vars: cnf.vars,
        clauses: cnf.clauses,
        literals: cnf.roots,
    })
}
