//! Which nodes read slots, found in one pass. Where no assigned value reads a slot of its own time, none depends on
//! itself.

ghost use Rattle.std.specs.Prelude.{◌≡◌, List, map, IfOk, slice_index_or};
ghost use Rattle.std.specs.List.{list_all, list_any};
ghost use Rattle.smv_flat.specs.declared.reads.Reads.{Reads};
ghost use Rattle.smv_resolve.specs.Resolved.{Resolved, parts_of, resolved_by};
ghost use Rattle.smv_flat.specs.Reads.{any_of, is_quiet, no_reads, reads_by, reads_of};

use crate::assigned::Assigned;
use crate::time::{Time, looks_ahead, speaks_of};
use smv_resolve::{ExprNode, last};
use std::alloc::{AllocError, Global};

/// Whether an expression reads slots.
#[derive(Clone, Copy, Debug)]
pub struct Reads {
    /// In the present state.
    pub present: bool,
    /// Where it looks ahead, so that it reads under `next` alone.
    pub ahead: bool,
}

/// What each node reads, in the order of the nodes. It takes a step for each operand.
pub fn reads_of(alloc: Global, nodes: &[ExprNode]) -> Result<Vec<Reads>, AllocError>
    ensures { IfOk result (λ table. table.items ≡ map reads_of (parts_of nodes.now)) }
{
    let mut table = Vec::new(alloc);
    for node in nodes {
        let reads = reads_of_node(*node, table.as_slice());
        table.push(reads)?;
    }
    Ok(table)
}

// What a node reads, over what those before it read.
fn reads_of_node(node: ExprNode, table: &[Reads]) -> Reads
    ensures { (parts : List Resolved) → table.now ≡ map reads_of parts → result ≡ reads_of (resolved_by parts node) }
{
    match node {
        ExprNode::Slot(..) => Reads {
            present: true,
            ahead: false,
        },
        ExprNode::Named(_, _, a) => reads_at(table, a),
        ExprNode::Operand(a) => reads_at(table, a),
        ExprNode::Next(_, a) => Reads {
            present: false,
            ahead: reads_at(table, a).present,
        },
        ExprNode::Apply(_, _, count) => any_of(last(table, count)),
        ExprNode::Link(_, _, a, b) => any_of(&[reads_at(table, a), reads_at(table, b)]),
        ExprNode::Constant(..) | ExprNode::Whole(..) => no_reads(),
    }
}

fn reads_at(table: &[Reads], k: usize) -> Reads
    ensures { result ≡ slice_index_or table.now k no_reads }
{
    match table.get(k) {
        None => no_reads(),
        Some(reads) => *reads,
    }
}

fn no_reads() -> Reads
    ensures { result ≡ no_reads }
{
    Reads {
        present: false,
        ahead: false,
    }
}

// What some of these read.
fn any_of(all: &[Reads]) -> Reads
    ensures { result ≡ any_of all.now }
{
    Reads {
        present: some_present(all),
        ahead: some_ahead(all),
    }
}

fn some_present(all: &[Reads]) -> bool
    ensures { result ≡ list_any (λ (x : Reads). x.present) all.now }
{
    all.iter().any(|x| x.present)
}

fn some_ahead(all: &[Reads]) -> bool
    ensures { result ≡ list_any (λ (x : Reads). x.ahead) all.now }
{
    all.iter().any(|x| x.ahead)
}

/// Whether no value that is assigned for this time reads a slot of the same time.
pub fn is_apart(time: Time, reads: &[Reads], all: &[Assigned]) -> bool
    ensures { result ≡ list_all (is_quiet time reads.now) all.now }
{
    all.iter().all(|a| is_quiet(time, reads, *a))
}

fn is_quiet(time: Time, reads: &[Reads], a: Assigned) -> bool
    ensures { result ≡ is_quiet time reads.now a }
{
    !(speaks_of(time, a.kind) && reads_by(looks_ahead(a.kind), reads_at(reads, a.value)))
}

fn reads_by(ahead: bool, reads: Reads) -> bool
    ensures { result ≡ reads_by ahead reads }
{
    if ahead { reads.ahead } else { reads.present }
}
