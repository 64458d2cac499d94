//! The formulas of JUSTICE, as edges.

ghost use Rattle.std.specs.Prelude.{◌≡◌, ◌&&◌, ℕ, Bool, List, filter, map, true, IfOk};
ghost use Rattle.std.specs.List.{list_all};
ghost use Rattle.bit_graph.specs.Growth.{Extends};
ghost use Rattle.bit_graph.specs.Meaning.{Consistent, Stands, edge_value};
ghost use Rattle.bit_arith.specs.Number.{AllStand};
ghost use Rattle.smv_resolve.specs.declared.item.Item.{Item};
ghost use Rattle.smv_meaning.specs.declared.outcome.Evaluation.{Evaluation};
ghost use Rattle.smv_meaning.specs.Runs.{is_given, is_true};
ghost use Rattle.smv_meaning.specs.Tables.{outcome_at};
ghost use Rattle.bit_outcomes.specs.Telling.{AllTold, TellsAll};
ghost use Rattle.bit_conditions.specs.Asked.{is_justice};
ghost use Rattle.bit_conditions.specs.Told.{TellsJust, TellsState, state_under};

use crate::asking::true_at;
use crate::told::ToldState;
use bit_graph::{Edge, Graph};
use bit_outcomes::Told;
use smv_meaning::Typed;
use smv_resolve::{Item, ItemKind};
use smv_tree::ConstraintKind;
use std::alloc::{AllocError, Global};

fn is_justice(kind: ItemKind) -> bool
    ensures { result ≡ is_justice kind }
{
    match kind {
        ItemKind::Constraint(ConstraintKind::Justice) => true,
        ItemKind::Constraint(
            ConstraintKind::Init | ConstraintKind::Invar | ConstraintKind::Trans,
        ) => false,
        ItemKind::Assignment(_) | ItemKind::Specification(_) => false,
    }
}

// The items of JUSTICE among these, in their order.
fn justices(alloc: Global, items: &[Item]) -> Result<Vec<Item>, AllocError>
    ensures { IfOk result (λ r. r.items ≡ filter (λ (x : Item). is_justice x.kind) items.now) }
{
    let mut justices = Vec::new(alloc);
    for item in items {
        if is_justice(item.kind) {
            justices.push(*item)?;
        }
    }
    Ok(justices)
}

// The edge that is true where the other edge is, and the node is TRUE.
fn true_where(graph: &mut Graph, valid: Edge, told: &[Told], k: usize) -> Result<Edge, AllocError>
    requires valid { Stands graph.old valid }
    requires told { AllTold graph.old told.now }
    ensures extends { Extends graph.old graph.new }
    ensures stands { IfOk result (λ e. Stands graph.new e) }
    ensures value { IfOk result (λ e. (v : ℕ → Bool) (os : List Evaluation) → Consistent v graph.new → (edge_value v valid ≡ true → TellsAll v told.now os) →
        (edge_value v valid ≡ true → is_given (outcome_at os k) ≡ true) → edge_value v e ≡ (edge_value v valid && is_true (outcome_at os k))) }
{
    let here = true_at(graph, told, k)?;
    let edge = graph.and(valid, here)?;
    Ok(edge)
}

// An edge for each item, that is true where the other edge is, and the item's value is TRUE.
fn true_edges(
    alloc: Global,
    graph: &mut Graph,
    valid: Edge,
    told: &[Told],
    items: &[Item],
) -> Result<Vec<Edge>, AllocError>
    requires valid { Stands graph.old valid }
    requires told { AllTold graph.old told.now }
    ensures extends { Extends graph.old graph.new }
    ensures stand { IfOk result (λ r. AllStand graph.new r.items) }
    ensures told { IfOk result (λ r. (v : ℕ → Bool) (os : List Evaluation) → Consistent v graph.new → (edge_value v valid ≡ true → TellsAll v told.now os) →
        (edge_value v valid ≡ true → list_all (λ (x : Item). is_given (outcome_at os x.value)) items.now ≡ true) →
        map (edge_value v) r.items ≡ map (λ (x : Item). edge_value v valid && is_true (outcome_at os x.value)) items.now) }
{
    let mut edges = Vec::new(alloc);
    for item in items {
        edges.push(true_where(graph, valid, told, item.value)?)?;
    }
    Ok(edges)
}

/// An edge for each formula of JUSTICE, in the order of the items, that is true where the bits are those of a state in
/// which the formula is TRUE. Time and memory grow with the items; the errors are as of `first_conditions`.
pub fn just_edges(
    alloc: Global,
    graph: &mut Graph,
    typed: &Typed,
    state: &ToldState,
) -> Result<Vec<Edge>, AllocError>
    requires { TellsState graph.old typed.now state.now }
    ensures extends { Extends graph.old graph.new }
    ensures told { IfOk result (λ r. TellsJust graph.new typed.now.scope.program (λ v. state_under typed.now.scope.program v state.now.bits) r.items) }
{
    let items = justices(alloc, typed.items.as_slice())?;
    let edges = true_edges(alloc, graph, state.valid, state.told.as_slice(), &items)?;
    Ok(edges)
}
