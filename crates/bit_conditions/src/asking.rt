//! What items ask, as edges.

ghost use Rattle.std.specs.Prelude.{◌≡◌, ◌&&◌, ℕ, Bool, List, true, IfOk, OnOk};
ghost use Rattle.bit_graph.specs.Growth.{Extends};
ghost use Rattle.bit_graph.specs.Meaning.{Consistent, Stands, edge_value};
ghost use Rattle.bit_clauses.specs.Asserted.{EithersStand, all_hold};
ghost use Rattle.smv_meaning.specs.declared.outcome.Evaluation.{Evaluation};
ghost use Rattle.smv_meaning.specs.Runs.{is_given, is_true, takes};
ghost use Rattle.smv_meaning.specs.Tables.{outcome_at, target_at};
ghost use Rattle.bit_outcomes.specs.Asked.{is_false};
ghost use Rattle.bit_outcomes.specs.Telling.{AllTold, TellsAll};
ghost use Rattle.bit_conditions.specs.Demands.{all_clear, all_met, demand_of, is_clear, is_met};

use crate::demands::{Demand, When, demand_of};
use bit_clauses::{Either, ask};
use bit_graph::{Edge, Graph};
use bit_outcomes::{Told, false_edge, takes_edge, true_edge};
use smv_resolve::Item;
use std::alloc::{AllocError, Global};

/// The edge that is true where the node of this number is TRUE, which it is not if there is no such node. Out of memory
/// is answered too where it is told as something else than TRUE, FALSE or a fault.
pub fn true_at(graph: &mut Graph, told: &[Told], k: usize) -> Result<Edge, AllocError>
    requires { AllTold graph.old told.now }
    ensures extends { Extends graph.old graph.new }
    ensures stands { IfOk result (λ e. Stands graph.new e) }
    ensures value { IfOk result (λ e. (v : ℕ → Bool) (os : List Evaluation) → Consistent v graph.new → TellsAll v told.now os → is_given (outcome_at os k) ≡ true →
        edge_value v e ≡ is_true (outcome_at os k)) }
{
    if k < told.len() {
        let edge = true_edge(graph, &told[k])?;
        Ok(edge)
    } else {
        Ok(graph.constant(false))
    }
}

/// The edge that is true where the node of this number is FALSE, as `true_at`.
pub fn false_at(graph: &mut Graph, told: &[Told], k: usize) -> Result<Edge, AllocError>
    requires { AllTold graph.old told.now }
    ensures extends { Extends graph.old graph.new }
    ensures stands { IfOk result (λ e. Stands graph.new e) }
    ensures value { IfOk result (λ e. (v : ℕ → Bool) (os : List Evaluation) → Consistent v graph.new → TellsAll v told.now os → is_given (outcome_at os k) ≡ true →
        edge_value v e ≡ is_false (outcome_at os k)) }
{
    if k < told.len() {
        let edge = false_edge(graph, &told[k])?;
        Ok(edge)
    } else {
        Ok(graph.constant(false))
    }
}

// The edge that is true where the node that is assigned has a value of the other. A node that is not there has none.
fn takes_at(
    alloc: Global,
    graph: &mut Graph,
    there: &[Told],
    here: &[Told],
    target: usize,
    value: usize,
) -> Result<Edge, AllocError>
    requires there { AllTold graph.old there.now }
    requires here { AllTold graph.old here.now }
    ensures extends { Extends graph.old graph.new }
    ensures stands { IfOk result (λ e. Stands graph.new e) }
    ensures value { IfOk result (λ e. (v : ℕ → Bool) (ps os : List Evaluation) → Consistent v graph.new → TellsAll v there.now ps → TellsAll v here.now os →
        is_given (outcome_at ps target) ≡ true → is_given (outcome_at os value) ≡ true → edge_value v e ≡ takes (outcome_at ps target) (outcome_at os value)) }
{
    if target >= there.len() {
        return Ok(graph.constant(false));
    }
    if value >= here.len() {
        return Ok(graph.constant(false));
    }
    let edge = takes_edge(alloc, graph, &there[target], &here[value])?;
    Ok(edge)
}

// The edge that is true where the item's demand is met. What assigns nothing takes no value.
fn demand_edge(
    alloc: Global,
    graph: &mut Graph,
    demand: Demand,
    there: &[Told],
    here: &[Told],
    item: Item,
) -> Result<Edge, AllocError>
    requires there { AllTold graph.old there.now }
    requires here { AllTold graph.old here.now }
    ensures extends { Extends graph.old graph.new }
    ensures stands { IfOk result (λ e. Stands graph.new e) }
    ensures value { IfOk result (λ e. (v : ℕ → Bool) (ps os : List Evaluation) → Consistent v graph.new → TellsAll v there.now ps → TellsAll v here.now os →
        is_clear demand (target_at ps item.target) (outcome_at os item.value) ≡ true → edge_value v e ≡ is_met demand (target_at ps item.target) (outcome_at os item.value)) }
{
    match demand {
        Demand::Nothing => Ok(graph.constant(true)),
        Demand::Takes => match item.target {
            None => Ok(graph.constant(false)),
            Some(target) => takes_at(alloc, graph, there, here, target, item.value),
        },
        Demand::IsTrue => true_at(graph, here, item.value),
    }
}

// Asks what the item asks.
fn ask_item(
    alloc: Global,
    graph: &mut Graph,
    asked: &mut Vec<Either>,
    when: When,
    there: &[Told],
    here: &[Told],
    item: Item,
) -> Result<(), AllocError>
    requires there { AllTold graph.old there.now }
    requires here { AllTold graph.old here.now }
    requires stand { EithersStand graph.old asked.old.items }
    ensures extends { Extends graph.old graph.new }
    ensures stand { OnOk result (EithersStand graph.new asked.new.items) }
    ensures holds { OnOk result ((v : ℕ → Bool) (ps os : List Evaluation) → Consistent v graph.new → TellsAll v there.now ps → TellsAll v here.now os →
        is_clear (demand_of when item.kind) (target_at ps item.target) (outcome_at os item.value) ≡ true →
        all_hold v asked.new.items ≡ (all_hold v asked.old.items && is_met (demand_of when item.kind) (target_at ps item.target) (outcome_at os item.value))) }
{
    let edge = demand_edge(alloc, graph, demand_of(when, item.kind), there, here, item)?;
    ask(graph, asked, edge)?;
    Ok(())
}

/// Asks what the items ask then: `there` tells of what they assign, and `here` of their values. The only error is
/// running out of memory, or outcomes of which nothing is told.
pub fn ask_items(
    alloc: Global,
    graph: &mut Graph,
    asked: &mut Vec<Either>,
    when: When,
    there: &[Told],
    here: &[Told],
    items: &[Item],
) -> Result<(), AllocError>
    requires there { AllTold graph.old there.now }
    requires here { AllTold graph.old here.now }
    requires stand { EithersStand graph.old asked.old.items }
    ensures extends { Extends graph.old graph.new }
    ensures stand { OnOk result (EithersStand graph.new asked.new.items) }
    ensures holds { OnOk result ((v : ℕ → Bool) (ps os : List Evaluation) → Consistent v graph.new → TellsAll v there.now ps → TellsAll v here.now os →
        all_clear when ps os items.now ≡ true → all_hold v asked.new.items ≡ (all_hold v asked.old.items && all_met when ps os items.now)) }
{
    for item in items {
        ask_item(alloc, graph, asked, when, there, here, *item)?;
    }
    Ok(())
}
