//! The system by which the certificate of a temporal formula is judged: it counts how often all fairness sets were seen (Claessen and
//! Sörensson 2012).

ghost use Rattle.std.specs.Prelude.{◌≡◌, ◌≤◌, Contains, IfOk};
ghost use Rattle.smv_tree.specs.declared.tree.SpecificationKind.TheVariants as claim;
ghost use Rattle.smv_resolve.specs.declared.item.ItemKind.TheVariants as item;
ghost use Rattle.smv_resolve.specs.Items.{item_by};
ghost use Rattle.smv_meaning.specs.Runs.{specifications_of};
ghost use Rattle.bit_states.specs.Layouts.{bit_limit, bits_of};
ghost use Rattle.smv_recheck.specs.Counted.{IsCountedSystem};

use bit_formula::build_formula;
use clause_core::System;
use ltl_monitor::{counted, monitored};
use smv_flat::Flat;
use smv_resolve::Item;
use std::alloc::{AllocError, Global};

/// The system of a temporal formula, with its monitor and a counter of signals up to a bound beside it.
///
/// Time and memory grow with the nodes of the program, with the formula and with the bound. The only error is out of memory.
pub fn counted_system(
    alloc: Global,
    flat: &Flat,
    spec: &Item,
    bound: usize,
) -> Result<System, AllocError>
    requires narrow { bits_of flat.now.typed.scope.program ≤ bit_limit }
    requires among { Contains (specifications_of flat.now.typed.scope.program) (item_by flat.now.typed.nodes spec.now) }
    requires temporal { spec.now.kind ≡ item.Specification claim.Temporal }
    ensures { IfOk result (IsCountedSystem flat.now.typed.scope.program (item_by flat.now.typed.nodes spec.now) bound) }
{
    let built = build_formula(alloc, flat, spec)?;
    let monitored = monitored(alloc, built.system(), built.formula(), built.atoms())?;
    monitored.system.law();
    counted(alloc, &monitored, bound)
}
