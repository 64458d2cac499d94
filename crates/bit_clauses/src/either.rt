//! Pairs of edges, one of which is to be true.

ghost use Rattle.std.specs.Prelude.{◌≡◌, ◌&&◌, ◌||◌, ℕ, Bool, true, OnOk};
ghost use Rattle.std.specs.Bool.{beq};
ghost use Rattle.bit_graph.specs.Meaning.{Consistent, Stands, edge_value};
ghost use Rattle.bit_clauses.specs.Asserted.{EithersStand, all_hold};

use bit_graph::{Edge, Graph};
use std::alloc::AllocError;

/// Two edges, one of which is to be true.
#[derive(Clone, Copy, Debug, Drop)]
pub struct Either {
    /// One of the edges.
    pub one: Edge,
    /// The other, which is the same where this one is to be true.
    pub other: Edge,
}

// Whether both are one edge.
pub fn is_single(either: Either) -> bool
    ensures { result ≡ true → either.one ≡ either.other }
{
    either.one.node == either.other.node && either.one.negated == either.other.negated
}

/// Asks that the edge is true; where it always is, for nothing.
///
/// As the other calls that ask, it makes no node. The only error is out of memory, after which a part
/// of what was asked for may stand in the list.
#[tactic(auto, using(crate::proofs::Asserting::all_hold_more, crate::proofs::Asserting::eithers_more))]
pub fn ask(graph: &Graph, asked: &mut Vec<Either>, edge: Edge) -> Result<(), AllocError>
    requires edge { Stands graph.now edge }
    requires stand { EithersStand graph.now asked.old.items }
    ensures stand { OnOk result (EithersStand graph.now asked.new.items) }
    ensures holds { OnOk result ((v : ℕ → Bool) → Consistent v graph.now → all_hold v asked.new.items ≡ (all_hold v asked.old.items && edge_value v edge)) }
{
    match graph.as_constant(edge) {
        Some(true) => Ok(()),
        Some(false) | None => {
            asked.push(Either {
                one: edge,
                other: edge,
            })?;
            Ok(())
        }
    }
}

/// Asks that one of the edges is true; where one always is, for nothing.
#[tactic(auto, using(crate::proofs::Asserting::all_hold_more, crate::proofs::Asserting::eithers_more))]
pub fn ask_either(
    graph: &Graph,
    asked: &mut Vec<Either>,
    one: Edge,
    other: Edge,
) -> Result<(), AllocError>
    requires one { Stands graph.now one }
    requires other { Stands graph.now other }
    requires stand { EithersStand graph.now asked.old.items }
    ensures stand { OnOk result (EithersStand graph.now asked.new.items) }
    ensures holds { OnOk result ((v : ℕ → Bool) → Consistent v graph.now → all_hold v asked.new.items ≡ (all_hold v asked.old.items && (edge_value v one || edge_value v other))) }
{
    match graph.as_constant(one) {
        Some(true) => return Ok(()),
        Some(false) => return ask(graph, asked, other),
        None => {}
    }
    match graph.as_constant(other) {
        Some(true) => Ok(()),
        Some(false) => ask(graph, asked, one),
        None => {
            asked.push(Either { one, other })?;
            Ok(())
        }
    }
}

/// Asks that both edges are true, or neither.
pub fn ask_same(graph: &Graph, asked: &mut Vec<Either>, a: Edge, b: Edge) -> Result<(), AllocError>
    requires a { Stands graph.now a }
    requires b { Stands graph.now b }
    requires stand { EithersStand graph.now asked.old.items }
    ensures stand { OnOk result (EithersStand graph.now asked.new.items) }
    ensures holds { OnOk result ((v : ℕ → Bool) → Consistent v graph.now → all_hold v asked.new.items ≡ (all_hold v asked.old.items && beq (edge_value v a) (edge_value v b))) }
{
    ask_either(graph, asked, a.negation(), b)?;
    ask_either(graph, asked, a, b.negation())?;
    Ok(())
}
