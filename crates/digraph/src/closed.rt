//! Whether lists of successors make a graph.

ghost use Rattle.std.specs.Prelude.{◌≡◌, ◌↔◌, IsTrue, nat_lt, length};
ghost use Rattle.std.specs.List.{list_all};
ghost use Rattle.digraph.specs.Cycles.{Closed};

use sqlite_items::Items;

/// Whether each successor is a node of the graph.
pub fn is_closed(g: &[Items<usize>]) -> bool
    ensures { IsTrue result ↔ Closed g.now }
{
    all_below(g, g.len())
}

fn all_below(lists: &[Items<usize>], count: usize) -> bool
    ensures { result ≡ list_all (λ list. list_all (λ v. nat_lt v count) list) lists.now }
{
    lists.iter().all(|list| are_below(list.as_slice(), count))
}

fn are_below(nodes: &[usize], count: usize) -> bool
    ensures { result ≡ list_all (λ v. nat_lt v count) nodes.now }
{
    nodes.iter().all(|v| *v < count)
}
