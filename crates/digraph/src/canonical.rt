//! Cycles that begin with their least node.

ghost use Rattle.std.specs.Prelude.{◌<◌, ◌≤◌, ◌^◌, ℕ, slice_index, length, IfOk, MatchOption};
ghost use Rattle.digraph.specs.Cycles.{Acyclic, Closed, IsCanonicalCycle};
ghost use Rattle.digraph.specs.Turn.{IsTurn};

use crate::find::find_cycle;
use sqlite_items::Items;
use std::alloc::{AllocError, Global};

/// A cycle of the graph that passes no node twice and begins with its least node, or `None` if there is no cycle.
///
/// The graph is given by the successors of each node. The search is depth-first, with three marks (Tarjan 1972; Cormen,
/// Leiserson, Rivest and Stein, Introduction to Algorithms).
///
/// # Errors
///
/// `AllocError` where memory was refused.
#[tactic(auto, using(crate::proofs::Turning::turned, crate::proofs::Turning::some))]
pub fn canonical_cycle(
    alloc: Global,
    g: &[Items<usize>],
) -> Result<Option<Items<usize>>, AllocError>
    requires closed { Closed g.now }
    requires few { length g.now < 2 ^ 32 }
    ensures { IfOk result (λ r. MatchOption r (Acyclic g.now) (IsCanonicalCycle g.now)) }
{
    match find_cycle(alloc, g)? {
        None => Ok(None),
        Some(cycle) => Ok(Some(from_least(alloc, cycle.as_slice())?)),
    }
}

// The cycle from its least node on.
fn from_least(alloc: Global, cycle: &[usize]) -> Result<Items<usize>, AllocError>
    requires { 0 < length cycle.now }
    ensures { IfOk result (IsTurn cycle.now) }
{
    let k = least_at(cycle);
    let mut turned = Vec::from_slice(alloc, &cycle[k..])?;
    turned.extend_from_slice(&cycle[..k])?;
    Ok(Items::from_vec(turned))
}

fn least_at(cycle: &[usize]) -> usize
    requires { 0 < length cycle.now }
    ensures within { result < length cycle.now }
    ensures least { (j : ℕ) → j < length cycle.now → slice_index cycle.now result ≤ slice_index cycle.now j }
{
    let mut best = 0;
    for i in 0..cycle.len() {
        if cycle[i] < cycle[best] {
            best = i;
        }
    }
    best
}
