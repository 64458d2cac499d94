//! Where a specification is FALSE, as an edge.

ghost use Rattle.std.specs.Prelude.{◌≡◌, true, IfOk};
ghost use Rattle.std.specs.List.{Contains};
ghost use Rattle.bit_graph.specs.Growth.{Extends};
ghost use Rattle.bit_graph.specs.Meaning.{Denotes, Stands};
ghost use Rattle.smv_resolve.specs.Items.{item_by};
ghost use Rattle.smv_meaning.specs.Runs.{specifications_of};
ghost use Rattle.bit_conditions.specs.Asked.{is_broken_in, is_invariant};
ghost use Rattle.bit_conditions.specs.Told.{TellsState, state_under};

use crate::asking::false_at;
use crate::told::ToldState;
use bit_graph::{Edge, Graph};
use smv_meaning::Typed;
use smv_resolve::Item;
use std::alloc::{AllocError, Global};

/// The edge that is true where the bits are those of a state in which this specification of the program, which claims
/// an invariant, is FALSE. It takes constant time; the errors are as of `first_conditions`.
pub fn claim_edge(
    alloc: Global,
    graph: &mut Graph,
    typed: &Typed,
    state: &ToldState,
    spec: Item,
) -> Result<Edge, AllocError>
    requires state { TellsState graph.old typed.now state.now }
    requires among { Contains (specifications_of typed.now.scope.program) (item_by typed.now.nodes spec) }
    requires invariant { is_invariant spec.kind ≡ true }
    ensures extends { Extends graph.old graph.new }
    ensures stands { IfOk result (λ e. Stands graph.new e) }
    ensures value { IfOk result (λ e. Denotes graph.new e (λ v. is_broken_in typed.now.scope.program (item_by typed.now.nodes spec) (state_under typed.now.scope.program v state.now.bits))) }
{
    let broken = false_at(graph, state.told.as_slice(), spec.value)?;
    let edge = graph.and(state.valid, broken)?;
    Ok(edge)
}
