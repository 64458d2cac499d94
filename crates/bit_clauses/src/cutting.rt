//! Conditions as few clauses over the nodes of the graph: conjunctions are cut, disjunctions opened.

ghost use Rattle.std.specs.Prelude.{◌≡◌, ◌<◌, ◌≤◌, ◌+◌, ◌↔◌, ℕ, Bool, true, suc, length, All, IfOk, OnOk};
ghost use Rattle.bit_graph.specs.Meaning.{Consistent, Stands, edge_value};
ghost use Rattle.clause_core.specs.Literals.{Within};
ghost use Rattle.bit_clauses.specs.Asserted.{EithersStand, all_hold, holds};
ghost use Rattle.bit_clauses.specs.Claims.{Claimed, Meant};
ghost use Rattle.bit_clauses.specs.Splits.{EitherBelow};
ghost use Rattle.bit_clauses.specs.Nodes.{all_true};

use crate::claims::Claims;
use crate::clause::{push_any, push_either};
use crate::either::{Either, is_single};
use crate::splitting::{Split, halves};
use bit_graph::{Edge, Graph};
use clause_core::Clauses;
use std::alloc::{AllocError, Global};

/// Clauses over the nodes of the graph that are true just where the conditions hold.
///
/// What is to be true is handed down from a gate to its operands in one pass, as operands come first,
/// so that a node that is asked for twice is cut once. Time grows with the nodes and the conditions.
pub fn cut(alloc: Global, graph: &Graph, asked: &[Either]) -> Result<Clauses, AllocError>
    requires { EithersStand graph.now asked.now }
    ensures within { IfOk result (λ r. All (Within (length graph.now)) r) }
    ensures value { IfOk result (λ r. (v : ℕ → Bool) → Consistent v graph.now → all_true v r ≡ all_hold v asked.now) }
{
    let size = graph.len();
    let on = vec![in alloc; false; size]?;
    let off = vec![in alloc; false; size]?;
    let mut claims = Claims { on, off };
    let mut made = Clauses::new(alloc);
    'asked: for e in asked {
        ask_for(alloc, graph, &mut claims, &mut made, size, *e)?;
    }
    'nodes: for k in (0..size).rev() {
        hand_down(alloc, graph, &mut claims, &mut made, k)?;
    }
    Ok(made)
}

// Asks that the condition, whose nodes are below `limit`, holds.
fn ask_for(
    alloc: Global,
    graph: &Graph,
    claims: &mut Claims,
    made: &mut Clauses,
    limit: usize,
    either: Either,
) -> Result<(), AllocError>
    requires below { EitherBelow limit either }
    requires limit { limit ≤ length graph.now }
    requires on { length claims.old.on.items ≡ length graph.now }
    requires off { length claims.old.off.items ≡ length graph.now }
    requires within { All (Within (length graph.now)) made.old }
    ensures on { OnOk result (length claims.new.on.items ≡ length graph.now) }
    ensures off { OnOk result (length claims.new.off.items ≡ length graph.now) }
    ensures within { OnOk result (All (Within (length graph.now)) made.new) }
    ensures means { OnOk result ((v : ℕ → Bool) → Consistent v graph.now → Meant v made.new claims.new limit ↔ (Meant v made.old claims.old limit × (holds v either ≡ true))) }
{
    if is_single(either) {
        claims.add(either.one);
        Ok(())
    } else {
        push_either(alloc, graph, made, either.one, either.other)
    }
}

// Hands down what is claimed of the node to its operands, or makes clauses of it.
fn hand_down(
    alloc: Global,
    graph: &Graph,
    claims: &mut Claims,
    made: &mut Clauses,
    k: usize,
) -> Result<(), AllocError>
    requires below { k < length graph.now }
    requires on { length claims.old.on.items ≡ length graph.now }
    requires off { length claims.old.off.items ≡ length graph.now }
    requires within { All (Within (length graph.now)) made.old }
    ensures on { OnOk result (length claims.new.on.items ≡ length graph.now) }
    ensures off { OnOk result (length claims.new.off.items ≡ length graph.now) }
    ensures within { OnOk result (All (Within (length graph.now)) made.new) }
    ensures means { OnOk result ((v : ℕ → Bool) → Consistent v graph.now → Meant v made.new claims.new k ↔ Meant v made.old claims.old (suc k)) }
{
    let on = claims.on[k];
    let off = claims.off[k];
    let node = Edge::to(k);
    ask_if(alloc, graph, claims, made, on, node)?;
    ask_if(alloc, graph, claims, made, off, node.negation())?;
    Ok(())
}

// Where it is asked for, asks that the edge is true, by its operands.
fn ask_if(
    alloc: Global,
    graph: &Graph,
    claims: &mut Claims,
    made: &mut Clauses,
    asked: bool,
    edge: Edge,
) -> Result<(), AllocError>
    requires stands { Stands graph.now edge }
    requires on { length claims.old.on.items ≡ length graph.now }
    requires off { length claims.old.off.items ≡ length graph.now }
    requires within { All (Within (length graph.now)) made.old }
    ensures on { OnOk result (length claims.new.on.items ≡ length graph.now) }
    ensures off { OnOk result (length claims.new.off.items ≡ length graph.now) }
    ensures within { OnOk result (All (Within (length graph.now)) made.new) }
    ensures means { OnOk result ((v : ℕ → Bool) → Consistent v graph.now → Meant v made.new claims.new edge.node ↔ (Meant v made.old claims.old edge.node × (asked ≡ true → edge_value v edge ≡ true))) }
{
    if asked {
        ask_by_halves(alloc, graph, claims, made, edge)?;
    }
    Ok(())
}

// Asks that the edge is true, by its operands.
fn ask_by_halves(
    alloc: Global,
    graph: &Graph,
    claims: &mut Claims,
    made: &mut Clauses,
    edge: Edge,
) -> Result<(), AllocError>
    requires stands { Stands graph.now edge }
    requires on { length claims.old.on.items ≡ length graph.now }
    requires off { length claims.old.off.items ≡ length graph.now }
    requires within { All (Within (length graph.now)) made.old }
    ensures on { OnOk result (length claims.new.on.items ≡ length graph.now) }
    ensures off { OnOk result (length claims.new.off.items ≡ length graph.now) }
    ensures within { OnOk result (All (Within (length graph.now)) made.new) }
    ensures means { OnOk result ((v : ℕ → Bool) → Consistent v graph.now → Meant v made.new claims.new edge.node ↔ (Meant v made.old claims.old edge.node × (edge_value v edge ≡ true))) }
{
    match halves(graph, edge) {
        None => push_any(alloc, graph, made, &[edge]),
        Some(
            Split {
                first,
                second: None,
            },
        ) => { ask_for(alloc, graph, claims, made, edge.node, first) }
        Some(
            Split {
                first,
                second: Some(second),
            },
        ) => {
            ask_for(alloc, graph, claims, made, edge.node, first)?;
            ask_for(alloc, graph, claims, made, edge.node, second)?;
            Ok(())
        }
    }
}
