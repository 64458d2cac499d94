//! What a node leads to.

ghost use Rattle.std.specs.Prelude.{◌<◌, length, All, IfOk, vec_len};
ghost use Rattle.digraph.specs.Cycles.{Closed};
ghost use Rattle.digraph.specs.Reach.{MarksReached, Spread};

use crate::find::successors_of;
use sqlite_items::Items;
use std::alloc::{AllocError, Global};

/// For each node whether the node `a` leads to it, by one edge or more. The graph has to be closed: all successors are
/// nodes.
pub fn reached_from(alloc: Global, g: &[Items<usize>], a: usize) -> Result<Vec<bool>, AllocError>
    requires closed { Closed g.now }
    requires within { a < length g.now }
    ensures { IfOk result (λ seen. MarksReached g.now a seen.items) }
{
    let mut seen = vec![in alloc; false; g.len()]?;
    let mut pending = Vec::new(alloc);
    pending.push(a)?;
    while let Some(u) = pending.pop() {
        spread(successors_of(g, u), &mut seen, &mut pending)?;
    }
    Ok(seen)
}

// Marks these nodes as seen, and adds those that were not to what is to be done.
fn spread(vs: &[usize], seen: &mut Vec<bool>, pending: &mut Vec<usize>) -> Result<(), AllocError>
    requires { All (λ v. v < vec_len seen.old) vs.now }
    ensures { IfOk result (λ _. Spread vs.now seen.old.items pending.old.items seen.new.items pending.new.items) }
{
    for v in vs {
        if !seen[*v] {
            seen[*v] = true;
            pending.push(*v)?;
        }
    }
    Ok(())
}
