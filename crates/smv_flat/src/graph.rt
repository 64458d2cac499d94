//! Slots and nodes as one graph.

ghost use Rattle.std.specs.Prelude.{◌≡◌, ◌<◌, ◌≤◌, ◌^◌, ◌∷◌, ◌++◌, [], if◌then◌else◌, false, length, map, replicate, slice_get, Some, IfOk, OnOk};
ghost use Rattle.std.specs.List.{flat_map};
ghost use Rattle.smv_flat.specs.Graph.{last_before, part_below, row, rows, slot_read, slot_rows, whole_graph};

use crate::assigned::Assigned;
use crate::time::{Time, looks_ahead, speaks_of};
use smv_resolve::ExprNode;
use sqlite_items::Items;
use std::alloc::{AllocError, Global};

/// The graph of so many slots and of these nodes at this time.
#[tactic(auto, unfolding(crate::specs::Graph::whole_graph))]
pub fn whole_graph(
    alloc: Global,
    slots: usize,
    nodes: &[ExprNode],
    time: Time,
    all: &[Assigned],
) -> Result<Vec<Items<usize>>, AllocError>
    requires slots { slots < 2 ^ 30 }
    requires nodes { length nodes.now < 2 ^ 30 }
    ensures { IfOk result (λ g. g.items ≡ whole_graph slots nodes.now time all.now) }
{
    let mut graph = slot_rows(alloc, slots, nodes.len(), time, all)?;
    push_rows(alloc, slots, nodes, false, &mut graph)?;
    push_rows(alloc, slots, nodes, true, &mut graph)?;
    Ok(graph)
}

// For each slot, where the values stand that it is assigned.
fn slot_rows(
    alloc: Global,
    slots: usize,
    nodes: usize,
    time: Time,
    all: &[Assigned],
) -> Result<Vec<Items<usize>>, AllocError>
    requires slots { slots < 2 ^ 30 }
    requires nodes { nodes < 2 ^ 30 }
    ensures { IfOk result (λ g. g.items ≡ slot_rows slots nodes time all.now) }
{
    let mut graph = empty_lists(alloc, slots)?;
    for a in all {
        if speaks_of(time, a.kind) && a.slot < slots {
            let list = &mut graph[a.slot];
            push_part(list, slots, nodes, nodes, looks_ahead(a.kind), a.value)?;
        }
    }
    Ok(graph)
}

fn empty_lists(alloc: Global, count: usize) -> Result<Vec<Items<usize>>, AllocError>
    ensures { IfOk result (λ lists. lists.items ≡ replicate count []) }
{
    let mut lists = Vec::new(alloc);
    for k in 0..count {
        lists.push(Items::new(alloc))?;
    }
    Ok(lists)
}

// Adds what each node leads to, read in the present state or looking ahead.
fn push_rows(
    alloc: Global,
    slots: usize,
    nodes: &[ExprNode],
    ahead: bool,
    graph: &mut Vec<Items<usize>>,
) -> Result<(), AllocError>
    requires slots { slots < 2 ^ 30 }
    requires nodes { length nodes.now < 2 ^ 30 }
    ensures { OnOk result (graph.new.items ≡ graph.old.items ++ rows slots nodes.now ahead) }
{
    for k in 0..nodes.len() {
        let list = row(alloc, slots, nodes, ahead, k)?;
        graph.push(list)?;
    }
    Ok(())
}

// What the node of number k leads to.
fn row(
    alloc: Global,
    slots: usize,
    nodes: &[ExprNode],
    ahead: bool,
    k: usize,
) -> Result<Items<usize>, AllocError>
    requires slots { slots < 2 ^ 30 }
    requires nodes { length nodes.now < 2 ^ 30 }
    requires within { k < length nodes.now }
    ensures { IfOk result (λ list. list ≡ row slots (length nodes.now) ahead k (slice_get nodes.now k)) }
{
    let mut list = Items::new(alloc);
    if let Some(node) = nodes.get(k) {
        push_reads(&mut list, slots, nodes.len(), ahead, k, *node)?;
    }
    Ok(list)
}

fn push_reads(
    list: &mut Items<usize>,
    slots: usize,
    nodes: usize,
    ahead: bool,
    k: usize,
    node: ExprNode,
) -> Result<(), AllocError>
    requires slots { slots < 2 ^ 30 }
    requires nodes { nodes < 2 ^ 30 }
    requires within { k < nodes }
    ensures { OnOk result (list.new ≡ list.old ++ row slots nodes ahead k (Some node)) }
{
    match node {
        ExprNode::Constant(..) => Ok(()),
        ExprNode::Slot(_, n) => push_slot(list, slots, ahead, n),
        ExprNode::Whole(..) => Ok(()),
        ExprNode::Named(_, _, a) => push_part(list, slots, nodes, k, ahead, a),
        ExprNode::Next(_, a) => push_next(list, slots, nodes, k, ahead, a),
        ExprNode::Operand(a) => push_part(list, slots, nodes, k, ahead, a),
        ExprNode::Apply(_, _, count) => push_last(list, slots, nodes, k, ahead, count),
        ExprNode::Link(_, _, a, b) => push_two(list, slots, nodes, k, ahead, a, b),
    }
}

// Adds a slot that is read in the present state.
fn push_slot(list: &mut Items<usize>, slots: usize, ahead: bool, n: usize) -> Result<(), AllocError>
    ensures { OnOk result (list.new ≡ list.old ++ slot_read slots ahead n) }
{
    if !ahead && n < slots {
        list.push(n)
    } else {
        Ok(())
    }
}

// Adds what stands under `next`, which is read in the present state, where the node looks ahead.
fn push_next(
    list: &mut Items<usize>,
    slots: usize,
    nodes: usize,
    limit: usize,
    ahead: bool,
    a: usize,
) -> Result<(), AllocError>
    requires slots { slots < 2 ^ 30 }
    requires nodes { nodes < 2 ^ 30 }
    requires within { limit ≤ nodes }
    ensures { OnOk result (list.new ≡ list.old ++ (if ahead then part_below slots nodes limit (false, a) else [])) }
{
    if ahead {
        push_part(list, slots, nodes, limit, false, a)
    } else {
        Ok(())
    }
}

// Adds where so many parts stand right before number k.
fn push_last(
    list: &mut Items<usize>,
    slots: usize,
    nodes: usize,
    k: usize,
    ahead: bool,
    count: usize,
) -> Result<(), AllocError>
    requires slots { slots < 2 ^ 30 }
    requires nodes { nodes < 2 ^ 30 }
    requires within { k ≤ nodes }
    ensures { OnOk result (list.new ≡ list.old ++ flat_map (part_below slots nodes k) (map (λ j. (ahead, j)) (last_before count k))) }
{
    let first = k.saturating_sub(count);
    for j in first..k {
        push_part(list, slots, nodes, k, ahead, j)?;
    }
    Ok(())
}

// Adds where these two parts stand.
fn push_two(
    list: &mut Items<usize>,
    slots: usize,
    nodes: usize,
    limit: usize,
    ahead: bool,
    a: usize,
    b: usize,
) -> Result<(), AllocError>
    requires slots { slots < 2 ^ 30 }
    requires nodes { nodes < 2 ^ 30 }
    requires within { limit ≤ nodes }
    ensures { OnOk result (list.new ≡ list.old ++ flat_map (part_below slots nodes limit) ((ahead, a) ∷ (ahead, b) ∷ [])) }
{
    push_part(list, slots, nodes, limit, ahead, a)?;
    push_part(list, slots, nodes, limit, ahead, b)
}

// Adds where a part stands, if it lies below the limit.
fn push_part(
    list: &mut Items<usize>,
    slots: usize,
    nodes: usize,
    limit: usize,
    ahead: bool,
    part: usize,
) -> Result<(), AllocError>
    requires slots { slots < 2 ^ 30 }
    requires nodes { nodes < 2 ^ 30 }
    requires within { limit ≤ nodes }
    ensures { OnOk result (list.new ≡ list.old ++ part_below slots nodes limit (ahead, part)) }
{
    if part >= limit {
        return Ok(());
    }
    if ahead {
        list.push(slots + nodes + part)
    } else {
        list.push(slots + part)
    }
}
