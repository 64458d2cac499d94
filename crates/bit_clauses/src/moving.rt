//! Variables from a number on moved up.

ghost use Rattle.std.specs.Prelude.{◌≡◌, ◌+◌, ◌<◌, ◌^◌, ◌≤◌, List, IfOk, All};
ghost use Rattle.clause_core.specs.Literals.{Within};
ghost use Rattle.bit_graph.specs.declared.edge.GraphNode.{GraphNode};
ghost use Rattle.bit_graph.specs.declared.edge.Edge.{Edge};
ghost use Rattle.bit_clauses.specs.Gated.{IsGated};
ghost use Rattle.bit_clauses.specs.Moving.{Skips, moved_clause, moved_clauses, moved_lit};

use crate::gates::Gates;
use clause_core::{Clauses, Lit};
use std::alloc::{AllocError, Global};

fn moved_lit(l: Lit, from: usize, by: usize) -> Lit
    requires { l.var + by < 2 ^ 64 }
    ensures { result ≡ moved_lit from by l }
{
    if l.var < from {
        l
    } else {
        Lit::new(l.var + by, l.positive)
    }
}

/// The literals with each variable from number `from` on moved up by `by`.
pub fn moved_lits(
    alloc: Global,
    lits: &[Lit],
    vars: usize,
    from: usize,
    by: usize,
) -> Result<Vec<Lit>, AllocError>
    requires within { Within vars lits.now }
    requires room { vars + by < 2 ^ 64 }
    ensures moved { IfOk result (λ r. r.items ≡ moved_clause from by lits.now) }
    ensures within { IfOk result (λ r. Within (vars + by) r.items) }
{
    let mut made = Vec::new(alloc);
    for l in lits {
        made.push(moved_lit(*l, from, by))?;
    }
    Ok(made)
}

/// The clauses with each variable from number `from` on moved up by `by`.
pub fn moved(
    alloc: Global,
    clauses: &Clauses,
    vars: usize,
    from: usize,
    by: usize,
) -> Result<Clauses, AllocError>
    requires within { All (Within vars) clauses.now }
    requires room { vars + by < 2 ^ 64 }
    ensures moved { IfOk result (λ r. r ≡ moved_clauses from by clauses.now) }
    ensures within { IfOk result (λ r. All (Within (vars + by)) r) }
{
    let mut made = Clauses::new(alloc);
    for k in 0..clauses.len() {
        let lits = moved_lits(alloc, clauses.get(k), vars, from, by)?;
        made.push(&lits)?;
    }
    Ok(made)
}

/// The gates with each variable from number `from` on, which is the number of inputs, moved up by `by`: they are gates
/// of the same conditions.
pub fn moved_gates(
    alloc: Global,
    gates: &Gates,
    from: usize,
    by: usize,
) -> Result<Gates, AllocError>
    requires within { All (Within gates.now.vars) gates.now.clauses }
    requires literals_within { Within gates.now.vars gates.now.literals.items }
    requires room { gates.now.vars + by < 2 ^ 64 }
    ensures gates { IfOk result (λ r. (g : List GraphNode) (es : List Edge) → IsGated from g es gates.now.clauses gates.now.literals.items → IsGated from g es r.clauses r.literals.items) }
    ensures vars { IfOk result (λ r. r.vars ≡ gates.now.vars + by) }
    ensures skips { IfOk result (λ r. All (Skips from (from + by)) r.clauses) }
    ensures literals_skip { IfOk result (λ r. Skips from (from + by) r.literals.items) }
    ensures within { IfOk result (λ r. All (Within r.vars) r.clauses) }
    ensures literals_within { IfOk result (λ r. Within r.vars r.literals.items) }
{
    let clauses = moved(alloc, &gates.clauses, gates.vars, from, by)?;
    let literals = moved_lits(alloc, &gates.literals, gates.vars, from, by)?;
    Ok(Gates {
        vars: gates.vars + by,
        clauses,
        literals,
    })
}
