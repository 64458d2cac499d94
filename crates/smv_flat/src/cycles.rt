//! Slots that depend on themselves at one time.

ghost use Rattle.std.specs.Prelude.{◌≡◌, map, IfErr, IfOk, OnOk};
ghost use Rattle.digraph.specs.Cycles.{Acyclic};
ghost use Rattle.smv_flat.specs.Assignments.{IsCycleStop, assignments_of, cycle_refusal, dependencies, path_text, place_of_assignment};
ghost use Rattle.smv_flat.specs.Graph.{assigned_by, slots_among};
ghost use Rattle.smv_flat.specs.Reads.{reads_of};
ghost use Rattle.smv_resolve.specs.Resolved.{parts_of};

use crate::assigned::Assigned;
use crate::graph::whole_graph;
use crate::names::name_of_slot;
use crate::reads::{Reads, is_apart};
use crate::time::{Time, gives};
use digraph::canonical_cycle;
use plain_text::Text;
use smv_meaning::Typed;
use smv_tree::{Place, Refusal, Rule, TextStop};
use sqlite_items::Items;
use std::alloc::{AllocError, Global};

// More slots, or more nodes, are not numbered in one graph.
const MOST: usize = 0x4000_0000;

/// Refuses a cycle among the values of this time, where it is known what each node reads. No graph is made where no
/// value reads another of its own time.
pub fn judge_cycle(
    alloc: Global,
    typed: &Typed,
    time: Time,
    all: &[Assigned],
    reads: &[Reads],
) -> Result<(), TextStop>
    requires assigned { map (assigned_by typed.now.nodes) all.now ≡ assignments_of typed.now.scope.program }
    requires reads { reads.now ≡ map reads_of (parts_of typed.now.nodes) }
    ensures right { OnOk result (Acyclic (dependencies typed.now.scope.program time)) }
    ensures refused { IfErr result (IsCycleStop typed.now.scope.program time) }
{
    if is_apart(time, reads, all) {
        return Ok(());
    }
    refuse_cycle(alloc, typed, time, all)
}

// Refuses a cycle among the values of this time.
fn refuse_cycle(alloc: Global, typed: &Typed, time: Time, all: &[Assigned]) -> Result<(), TextStop>
    requires { map (assigned_by typed.now.nodes) all.now ≡ assignments_of typed.now.scope.program }
    ensures right { OnOk result (Acyclic (dependencies typed.now.scope.program time)) }
    ensures refused { IfErr result (IsCycleStop typed.now.scope.program time) }
{
    let slots = typed.slots.len();
    let nodes = typed.nodes.as_slice();
    if slots >= MOST || nodes.len() >= MOST {
        return Err(TextStop::NoMemory);
    }
    let graph = whole_graph(alloc, slots, nodes, time, all)?;
    match canonical_cycle(alloc, &graph)? {
        None => Ok(()),
        Some(round) => {
            let path = slots_among(alloc, slots, round.as_slice())?;
            let refusal = cycle_refusal(alloc, typed, time, all, path.as_slice())?;
            Err(TextStop::Refused(refusal))
        }
    }
}

// Those of these numbers that are slots.
fn slots_among(alloc: Global, slots: usize, vs: &[usize]) -> Result<Items<usize>, AllocError>
    ensures { IfOk result (λ ns. ns ≡ slots_among slots vs.now) }
{
    let mut ns = Items::new(alloc);
    for v in vs {
        if *v < slots {
            ns.push(*v)?;
        }
    }
    Ok(ns)
}

// The refusal of a cycle of this time, at the place of its first slot's assignment.
fn cycle_refusal(
    alloc: Global,
    typed: &Typed,
    time: Time,
    all: &[Assigned],
    round: &[usize],
) -> Result<Refusal, AllocError>
    requires { map (assigned_by typed.now.nodes) all.now ≡ assignments_of typed.now.scope.program }
    ensures { IfOk result (λ r. r ≡ cycle_refusal typed.now.scope.program time round.now) }
{
    let first = round.first().copied().unwrap_or(0);
    let path = path_text(alloc, typed, round)?;
    Ok(Refusal {
        rule: Rule::AssignCycle,
        place: place_of_assignment(typed, time, first, all),
        detail: Some(path),
    })
}

// The place of the first assignment that gives slot x a value of this time.
fn place_of_assignment(typed: &Typed, time: Time, x: usize, all: &[Assigned]) -> Place
    ensures { result ≡ place_of_assignment time x (map (assigned_by typed.now.nodes) all.now) }
{
    for a in all {
        if gives(time, x, *a) {
            return a.place;
        }
    }
    Place { line: 1, column: 1 }
}

// A cycle as it is printed: it ends with its first slot again.
fn path_text(alloc: Global, typed: &Typed, round: &[usize]) -> Result<Text, AllocError>
    ensures { IfOk result (λ t. t ≡ path_text typed.now.scope.program round.now) }
{
    let mut path = String::new(alloc);
    for n in round {
        let name = name_of_slot(alloc, typed, *n)?;
        path.push_str(name.as_str())?;
        path.push_str(", ")?;
    }
    if let Some(first) = round.first() {
        let name = name_of_slot(alloc, typed, *first)?;
        path.push_str(name.as_str())?;
    }
    Text::from_str(alloc, path.as_str())
}
