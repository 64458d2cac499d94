//! An edge for each specification, that is true in its bad states.

ghost use Rattle.std.specs.Prelude.{◌≡◌, map, Contains, IfOk};
ghost use Rattle.bit_graph.specs.Growth.{Extends};
ghost use Rattle.smv_resolve.specs.Items.{item_by};
ghost use Rattle.smv_meaning.specs.Runs.{specifications_of};
ghost use Rattle.bit_conditions.specs.Asked.{is_invariant};
ghost use Rattle.bit_conditions.specs.Told.{TellsState, state_under};
ghost use Rattle.bit_system.specs.Conditions.{Each, TellsBad};

use bit_conditions::{ToldState, claim_edge};
use bit_graph::{Edge, Graph};
use smv_meaning::Typed;
use smv_resolve::{Item, ItemKind};
use smv_tree::SpecificationKind;
use std::alloc::{AllocError, Global};

fn is_invariant(kind: ItemKind) -> bool
    ensures { result ≡ is_invariant kind }
{
    match kind {
        ItemKind::Specification(SpecificationKind::Invariant) => true,
        ItemKind::Specification(SpecificationKind::Temporal) => false,
        ItemKind::Assignment(_) | ItemKind::Constraint(_) => false,
    }
}

// The edge that is true in the bad states of a specification. Of an LTLSPEC there are none, and nothing is asked of its
// formula.
fn bad_edge(
    alloc: Global,
    graph: &mut Graph,
    typed: &Typed,
    state: &ToldState,
    spec: Item,
) -> Result<Edge, AllocError>
    requires state { TellsState graph.old typed.now state.now }
    requires among { Contains (specifications_of typed.now.scope.program) (item_by typed.now.nodes spec) }
    ensures extends { Extends graph.old graph.new }
    ensures bad { IfOk result (TellsBad graph.new typed.now.scope.program (λ v. state_under typed.now.scope.program v state.now.bits) (item_by typed.now.nodes spec)) }
{
    if is_invariant(spec.kind) {
        let edge = claim_edge(alloc, graph, typed, state, spec)?;
        Ok(edge)
    } else {
        Ok(graph.constant(false))
    }
}

/// The edges that are true in the bad states of these specifications, one for each. Each edge that was made earlier
/// keeps its value, also where memory runs out, which is the only error.
pub fn bad_edges(
    alloc: Global,
    graph: &mut Graph,
    typed: &Typed,
    state: &ToldState,
    specs: &[Item],
) -> Result<Vec<Edge>, AllocError>
    requires state { TellsState graph.old typed.now state.now }
    requires specs { map (item_by typed.now.nodes) specs.now ≡ specifications_of typed.now.scope.program }
    ensures extends { Extends graph.old graph.new }
    ensures bad { IfOk result (λ r. Each (TellsBad graph.new typed.now.scope.program (λ v. state_under typed.now.scope.program v state.now.bits)) (specifications_of typed.now.scope.program) r.items) }
{
    let mut edges = Vec::new(alloc);
    for spec in specs {
        edges.push(bad_edge(alloc, graph, typed, state, *spec)?)?;
    }
    Ok(edges)
}
