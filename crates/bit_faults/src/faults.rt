//! Where an item faults, as an edge.

ghost use Rattle.std.specs.Prelude.{◌≡◌, ℕ, Bool, Some, false, true, map, IfOk, if◌then◌else◌};
ghost use Rattle.std.specs.Option.{is_some, option_copied};
ghost use Rattle.bit_graph.specs.Growth.{Extends};
ghost use Rattle.bit_graph.specs.Meaning.{Consistent, Stands, edge_value};
ghost use Rattle.value_types.specs.declared.value_type.ValueType.{ValueType};
ghost use Rattle.value_types.specs.Types.{is_type};
ghost use Rattle.smv_tree.specs.declared.place.Place.{Place};
ghost use Rattle.smv_resolve.specs.Items.{item_by};
ghost use Rattle.smv_resolve.specs.Resolved.{parts_of};
ghost use Rattle.smv_meaning.specs.declared.outcome.Evaluation.{Evaluation};
ghost use Rattle.smv_meaning.specs.Faults.{fault_of_value, slot_assigned, speaks_of_paths};
ghost use Rattle.smv_meaning.specs.Runs.{is_given, speaks_of_step};
ghost use Rattle.bit_outcomes.specs.Telling.{Tells, ToldStands};
ghost use Rattle.bit_faults.specs.Questions.{IsKnown};
ghost use Rattle.bit_faults.specs.Valuations.{TellsItem, TellsValuation};

use crate::formulas::edge_at;
use crate::judged::{speaks_of_paths, speaks_of_step};
use crate::targets::type_assigned;
use crate::valuation::Valuation;
use bit_graph::{Edge, Graph};
use bit_outcomes::{Told, fault_edge, outside_edge};
use smv_meaning::Typed;
use smv_resolve::{Item, ItemKind};
use std::alloc::{AllocError, Global};
use value_types::ValueType;

/// The edge that is true where the item faults, if the bits are those of a valuation; `slots` has the slots that the
/// nodes are.
///
/// It takes the gates of one comparison with a type, if something is assigned, and else no gate. The only error is
/// running out of memory, or an outcome of which nothing is told, which in a typed program does not come.
pub fn fault_of_item(
    alloc: Global,
    graph: &mut Graph,
    typed: &Typed,
    slots: &[Option<usize>],
    valuation: &Valuation,
    item: &Item,
) -> Result<Edge, AllocError>
    requires valuation { TellsValuation graph.old typed.now valuation.now }
    requires slots { slots.now ≡ map slot_assigned (parts_of typed.now.nodes) }
    requires known { IsKnown typed.now.scope.program (item_by typed.now.nodes item.now) }
    ensures extends { Extends graph.old graph.new }
    ensures stands { IfOk result (λ e. Stands graph.new e) }
    ensures told { IfOk result (TellsItem graph.new typed.now.scope.program (item_by typed.now.nodes item.now)) }
{
    if speaks_of_paths(item.kind) {
        let edge = formula_edge(graph, typed, valuation, item)?;
        Ok(edge)
    } else {
        let edge = value_edge(alloc, graph, typed, slots, valuation, item)?;
        Ok(edge)
    }
}

// The edge of an item that speaks of paths.
fn formula_edge(
    graph: &Graph,
    typed: &Typed,
    valuation: &Valuation,
    item: &Item,
) -> Result<Edge, AllocError>
    requires valuation { TellsValuation graph.now typed.now valuation.now }
    requires known { IsKnown typed.now.scope.program (item_by typed.now.nodes item.now) }
    requires paths { speaks_of_paths item.now.kind ≡ true }
    ensures stands { IfOk result (λ e. Stands graph.now e) }
    ensures told { IfOk result (TellsItem graph.now typed.now.scope.program (item_by typed.now.nodes item.now)) }
{
    match edge_at(valuation.formulas.as_slice(), item.value) {
        Some(edge) => Ok(edge),
        None => Err(AllocError),
    }
}

// The edge of an item that speaks of a step or of a state.
fn value_edge(
    alloc: Global,
    graph: &mut Graph,
    typed: &Typed,
    slots: &[Option<usize>],
    valuation: &Valuation,
    item: &Item,
) -> Result<Edge, AllocError>
    requires valuation { TellsValuation graph.old typed.now valuation.now }
    requires slots { slots.now ≡ map slot_assigned (parts_of typed.now.nodes) }
    requires known { IsKnown typed.now.scope.program (item_by typed.now.nodes item.now) }
    requires other { speaks_of_paths item.now.kind ≡ false }
    ensures extends { Extends graph.old graph.new }
    ensures stands { IfOk result (λ e. Stands graph.new e) }
    ensures told { IfOk result (TellsItem graph.new typed.now.scope.program (item_by typed.now.nodes item.now)) }
{
    let told = table_of(valuation, item.kind);
    if item.value < told.len() {
        let declared = type_assigned(typed.types.as_slice(), slots, item.target);
        let edge = fault_of_value(alloc, graph, declared, &told[item.value])?;
        Ok(edge)
    } else {
        Err(AllocError)
    }
}

// What is told of the nodes there of which an item of this kind speaks: in the step, or in the first state.
fn table_of(valuation: &Valuation, kind: ItemKind) -> &[Told]
    ensures { result.now ≡ (if speaks_of_step kind then valuation.now.step else valuation.now.sides.from.told) }
{
    if speaks_of_step(kind) {
        valuation.step.as_slice()
    } else {
        valuation.sides.from.told.as_slice()
    }
}

// The edge that is true where a value faults, or some value is none of the type of the variable that is assigned.
fn fault_of_value(
    alloc: Global,
    graph: &mut Graph,
    declared: Option<&ValueType>,
    e: &Told,
) -> Result<Edge, AllocError>
    requires declared { (t : ValueType) → option_copied declared ≡ Some t → is_type t ≡ true }
    requires stands { ToldStands graph.old e.now }
    ensures extends { Extends graph.old graph.new }
    ensures stands { IfOk result (λ r. Stands graph.new r) }
    ensures value { IfOk result (λ r. (v : ℕ → Bool) (begins : Place) (o : Evaluation) → Consistent v graph.new → Tells v e.now o → is_given o ≡ true →
        edge_value v r ≡ is_some (fault_of_value (option_copied declared.entry) begins o)) }
{
    let fault = fault_edge(e)?;
    match declared {
        None => Ok(fault),
        Some(t) => {
            let outside = outside_edge(alloc, graph, t, e)?;
            let edge = graph.or(outside, fault)?;
            Ok(edge)
        }
    }
}
