//! Tests of the search for a cycle in a graph.

use digraph::{canonical_cycle, is_closed};
use sqlite_items::Items;
use std::alloc::{AllocError, Global};
use std::test::Fail;

// The graph with these successors.
fn graph(alloc: Global, successors: &[&[usize]]) -> Result<Vec<Items<usize>>, AllocError> {
    let mut g = Vec::new(alloc);
    for s in successors {
        g.push(Items::from_slice(alloc, s)?)?;
    }
    Ok(g)
}

// The cycle that is found, if there is one; an empty one where a successor is no node.
fn cycle_of(alloc: Global, g: &[Items<usize>]) -> Result<Option<Items<usize>>, AllocError> {
    if is_closed(g) && g.len() < 100 {
        canonical_cycle(alloc, g)
    } else {
        Ok(Some(Items::new(alloc)))
    }
}

fn is_cyclic(alloc: Global, g: &[Items<usize>]) -> Result<bool, AllocError> {
    match cycle_of(alloc, g)? {
        Some(cycle) => {
            drop(cycle);
            Ok(true)
        }
        None => Ok(false),
    }
}

// Whether this is the cycle that is found.
fn is_cycle(alloc: Global, g: &[Items<usize>], wanted: &[usize]) -> Result<bool, AllocError> {
    match cycle_of(alloc, g)? {
        Some(cycle) => {
            let is_wanted = cycle.as_slice() == wanted;
            drop(cycle);
            Ok(is_wanted)
        }
        None => Ok(false),
    }
}

/// The successors of each node.
type Successors = &'static [&'static [usize]];

const ACYCLIC: [Successors; 4] = [
    &[],
    &[&[]],
    &[&[1, 2], &[3], &[3], &[]],
    &[&[], &[0], &[1, 0]],
];

/// A graph, and the cycle that is found in it; none where a successor is no node.
struct Cyclic(Successors, &'static [usize]);

const CYCLIC: [Cyclic; 6] = [
    Cyclic(&[&[0]], &[0]),
    Cyclic(&[&[], &[1]], &[1]),
    Cyclic(&[&[1], &[0]], &[0, 1]),
    Cyclic(&[&[2], &[0], &[1]], &[0, 2, 1]),
    Cyclic(&[&[1], &[3], &[1], &[2]], &[1, 3, 2]),
    Cyclic(&[&[1]], &[]),
];

fn has_no_cycle(alloc: Global, successors: Successors) -> Result<bool, AllocError> {
    let g = graph(alloc, successors)?;
    let found = is_cyclic(alloc, &g);
    drop(g);
    Ok(!found?)
}

fn has_cycle(alloc: Global, row: &Cyclic) -> Result<bool, AllocError> {
    let g = graph(alloc, row.0)?;
    let answer = is_cycle(alloc, &g, row.1);
    drop(g);
    answer
}

// The number of the first graph in which a cycle is found.
fn wrong_acyclic(alloc: Global) -> Result<Option<usize>, AllocError> {
    for (k, successors) in ACYCLIC.iter().enumerate() {
        if !has_no_cycle(alloc, *successors)? {
            return Ok(Some(k));
        }
    }
    Ok(None)
}

// The number of the first graph in which another cycle is found.
fn wrong_cyclic(alloc: Global) -> Result<Option<usize>, AllocError> {
    for (k, row) in CYCLIC.iter().enumerate() {
        if !has_cycle(alloc, row)? {
            return Ok(Some(k));
        }
    }
    Ok(None)
}

#[test]
fn some_graphs_have_no_cycle(rt: HostRuntime) -> Result<(), Fail> {
    let wrong = wrong_acyclic(rt.alloc())?;
    assert_eq!(rt; wrong, None);
    Ok(())
}

#[test]
fn least_cycles_are_found(rt: HostRuntime) -> Result<(), Fail> {
    let wrong = wrong_cyclic(rt.alloc())?;
    assert_eq!(rt; wrong, None);
    Ok(())
}
