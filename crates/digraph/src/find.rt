//! Depth-first search for a cycle, with three marks (Tarjan 1972, Depth-first search and linear graph algorithms;
//! Cormen, Leiserson, Rivest and Stein, Introduction to Algorithms, Depth-first search).

ghost use Rattle.std.specs.Prelude.{◌≡◌, ℕ, ◌++◌, ◌∷◌, [], ◌<◌, ◌≢◌, ◌^◌, length, slice_index, replicate, take, IfOk, MatchOption, All};
ghost use Rattle.digraph.specs.Cycles.{Acyclic, Closed, Distinct, Edge, IsCycle, successors};
ghost use Rattle.digraph.specs.Search.{Begun, IsDone, IsEndAt, NextSays, Scanned, Searched, Stepped, mark};
ghost use Rattle.digraph.specs.declared.mark.Mark.TheVariants as M;

use crate::mark::{Mark, Next};
use sqlite_items::Items;
use std::alloc::{AllocError, Global};

/// A cycle of the graph that passes no node twice, if there is a cycle.
pub fn find_cycle(alloc: Global, g: &[Items<usize>]) -> Result<Option<Items<usize>>, AllocError>
    requires closed { Closed g.now }
    requires few { length g.now < 2 ^ 32 }
    ensures { IfOk result (λ r. MatchOption r (Acyclic g.now) (λ cycle. IsCycle g.now cycle × Distinct cycle)) }
{
    let mut marks = new_marks(alloc, g.len())?;
    let mut scanned = vec![in alloc; 0; g.len()]?;
    let mut done = 0;
    for s in 0..g.len() {
        if let Mark::New = marks[s] {
            let found = search_from(alloc, g, &mut marks, &mut scanned, &mut done, s)?;
            if let Some(cycle) = found {
                return Ok(Some(cycle));
            }
        }
    }
    Ok(None)
}

fn new_marks(alloc: Global, count: usize) -> Result<Vec<Mark>, AllocError>
    ensures { IfOk result (λ marks. marks.items ≡ replicate count M.New) }
{
    let mut marks = Vec::new(alloc);
    for k in 0..count {
        marks.push(Mark::New)?;
    }
    Ok(marks)
}

// A cycle that the node leads to. Where there is none, all that it leads to is finished.
fn search_from(
    alloc: Global,
    g: &[Items<usize>],
    marks: &mut Vec<Mark>,
    scanned: &mut Vec<usize>,
    done: &mut usize,
    start: usize,
) -> Result<Option<Items<usize>>, AllocError>
    requires closed { Closed g.now }
    requires few { length g.now < 2 ^ 32 }
    requires at { Searched g.now marks.old.items [] done.old }
    requires passed { Scanned g.now marks.old.items scanned.old.items }
    requires start { (start < length marks.old.items) × (mark marks.old.items start ≡ M.New) }
    ensures { IfOk result (λ r. MatchOption r
        (Searched g.now marks.new.items [] done.new × Begun marks.old.items marks.new.items × (mark marks.new.items start ≢ M.New) × Scanned g.now marks.new.items scanned.new.items)
        (λ cycle. IsCycle g.now cycle × Distinct cycle)) }
{
    let mut path = Vec::new(alloc);
    path.push(start)?;
    marks[start] = Mark::Open;
    while let Some(top) = path.pop() {
        if let Some(v) = step(g, marks, scanned, &mut path, done, top)? {
            path.push(top)?;
            let cycle = cycle_from(alloc, &path, v)?;
            return Ok(Some(cycle));
        }
    }
    Ok(None)
}

// One step at the node that was last on the path. It gives a node of the path that this one leads to, if there is one.
fn step(
    g: &[Items<usize>],
    marks: &mut Vec<Mark>,
    scanned: &mut Vec<usize>,
    path: &mut Vec<usize>,
    done: &mut usize,
    top: usize,
) -> Result<Option<usize>, AllocError>
    requires closed { Closed g.now }
    requires at { Searched g.now marks.old.items (path.old.items ++ top ∷ []) done.old }
    requires passed { Scanned g.now marks.old.items scanned.old.items }
    requires few { length g.now < 2 ^ 32 }
    ensures { IfOk result (λ r. MatchOption r
        (Stepped g.now marks.old.items marks.new.items path.new.items done.new × Scanned g.now marks.new.items scanned.new.items)
        (λ v. Edge g.now top v × (mark marks.old.items v ≡ M.Open) × (path.new ≡ path.old))) }
{
    match next_of(marks, successors_of(g, top), scanned[top]) {
        Next::Fresh(v, place) => {
            path.push(top)?;
            path.push(v)?;
            marks[v] = Mark::Open;
            scanned[top] = place;
            Ok(None)
        }
        Next::Back(v) => Ok(Some(v)),
        Next::AllDone => {
            marks[top] = Mark::Done(*done);
            *done += 1;
            Ok(None)
        }
    }
}

pub(crate) fn successors_of<'a>(g: &'a [Items<usize>], a: usize) -> &'a [usize]
    requires { a < length g.now }
    ensures { result.now ≡ successors g.now a }
{
    g[a].as_slice()
}

// The first of these nodes that is not finished; those before the given place are.
fn next_of(marks: &[Mark], vs: &[usize], from: usize) -> Next
    requires nodes { All (λ v. v < length marks.now) vs.now }
    requires passed { All (λ v. IsDone (mark marks.now v)) (take from vs.now) }
    ensures { NextSays marks.now vs.now result }
{
    for i in from..vs.len() {
        let v = vs[i];
        match marks[v] {
            Mark::New => return Next::Fresh(v, i),
            Mark::Open => return Next::Back(v),
            Mark::Done(_) => {}
        }
    }
    Next::AllDone
}

// The end of the path that begins with this node of it.
fn cycle_from(alloc: Global, path: &[usize], v: usize) -> Result<Items<usize>, AllocError>
    ensures { IfOk result (λ cycle. (i : ℕ) → i < length path.now → slice_index path.now i ≡ v → IsEndAt path.now v cycle) }
{
    for (i, x) in path.iter().enumerate() {
        if *x == v {
            return Items::from_slice(alloc, &path[i..]);
        }
    }
    Ok(Items::new(alloc))
}
