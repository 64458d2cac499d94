//! Clauses over the nodes of a graph behind those of the nodes.

ghost use Rattle.std.specs.Prelude.{◌≡◌, ◌++◌, map, length, IfOk, OnOk};
ghost use Rattle.clause_core.specs.declared.literal.Lit.{Lit as LitOf};
ghost use Rattle.bit_clauses.specs.Nodes.{edge_of, literals_in};

use bit_graph::Edge;
use clause_core::{Clauses, Lit};
use std::alloc::{AllocError, Global};

/// The edges of the literals of the clauses, in their order.
pub fn edges_in(alloc: Global, clauses: &Clauses) -> Result<Vec<Edge>, AllocError>
    ensures { IfOk result (λ r. r.items ≡ map edge_of (literals_in clauses.now)) }
{
    let mut edges = Vec::new(alloc);
    'clauses: for k in 0..clauses.len() {
        push_edges(&mut edges, clauses.get(k))?;
    }
    Ok(edges)
}

fn push_edges(edges: &mut Vec<Edge>, clause: &[Lit]) -> Result<(), AllocError>
    ensures { OnOk result (edges.new.items ≡ edges.old.items ++ map edge_of clause.now) }
{
    for l in clause {
        edges.push(Edge {
            node: l.var,
            negated: !l.positive,
        })?;
    }
    Ok(())
}

/// The clauses of the gates, and behind them the clauses over the nodes with these literals in the
/// place of their own.
pub fn with_conditions(
    gates: Clauses,
    literals: &[Lit],
    conditions: &Clauses,
) -> Result<Clauses, AllocError>
    requires { length literals.now ≡ length (literals_in conditions.now) }
    ensures { IfOk result (λ r. (f : LitOf → LitOf) → literals.now ≡ map f (literals_in conditions.now) → r ≡ gates ++ map (map f) conditions.now) }
{
    let mut made = gates;
    let mut start = 0;
    'conditions: for k in 0..conditions.len() {
        let end = start + conditions.get(k).len();
        made.push(&literals[start..end])?;
        start = end;
    }
    Ok(made)
}
