//! The rule of definitions: none leads to itself.

ghost use Rattle.std.specs.Prelude.{◌≡◌, ◌<◌, length};
ghost use Rattle.digraph.specs.Cycles.{Closed};
ghost use Rattle.smv_names.specs.Defined.{definitions_verdict, entries_verdict, entry_verdict};
ghost use Rattle.smv_names.specs.Entries.{read_entries, read_entry};
ghost use Rattle.smv_verdicts.specs.Verdicts.{Gives};

use crate::entries::{DefinitionEntry, entries_of, entry_graph};
use crate::graph::is_acyclic;
use digraph::reached_from;
use smv_scope::Scope;
use smv_tree::{Rule, TextStop};
use smv_verdicts::refuse_by;
use sqlite_items::Items;
use std::alloc::Global;

/// No definition leads to itself.
pub(crate) fn definitions(alloc: Global, scope: &Scope) -> Result<(), TextStop>
    ensures { Gives result (definitions_verdict scope.now.program) }
{
    let entries = entries_of(alloc, scope)?;
    let graph = entry_graph(alloc, scope, entries.as_slice())?;
    judge(alloc, graph.as_slice(), entries.as_slice())
}

// The verdict on entries, the nodes of this graph.
fn judge(alloc: Global, graph: &[Items<usize>], entries: &[DefinitionEntry]) -> Result<(), TextStop>
    requires closed { Closed graph.now }
    requires same { length entries.now ≡ length graph.now }
    ensures { Gives result (entries_verdict graph.now 0 (read_entries entries.now)) }
{
    if is_acyclic(alloc, graph)? {
        Ok(())
    } else {
        judge_entries(alloc, graph, entries)
    }
}

fn judge_entries(
    alloc: Global,
    graph: &[Items<usize>],
    entries: &[DefinitionEntry],
) -> Result<(), TextStop>
    requires closed { Closed graph.now }
    requires same { length entries.now ≡ length graph.now }
    ensures { Gives result (entries_verdict graph.now 0 (read_entries entries.now)) }
{
    for (n, x) in entries.iter().enumerate() {
        judge_entry(alloc, graph, n, x)?;
    }
    Ok(())
}

fn judge_entry(
    alloc: Global,
    graph: &[Items<usize>],
    n: usize,
    x: &DefinitionEntry,
) -> Result<(), TextStop>
    requires closed { Closed graph.now }
    requires within { n < length graph.now }
    ensures { Gives result (entry_verdict graph.now n (read_entry x.now)) }
{
    match x {
        DefinitionEntry::Given { .. } => Ok(()),
        DefinitionEntry::Defined { definition, .. } => {
            let reached = reached_from(alloc, graph, n)?;
            refuse_by(
                alloc,
                reached[n],
                Rule::DefineCycle,
                definition.place,
                &definition.name,
            )
        }
    }
}
