//! That frozen slots keep their values, as conditions over their bits.

ghost use Rattle.std.specs.Prelude.{◌≡◌, ◌≤◌, ◌&&◌, ◌||◌, ℕ, Bool, not, true, length, take, drop, OnOk};
ghost use Rattle.std.specs.List.{list_all};
ghost use Rattle.value_types.specs.Types.{is_type};
ghost use Rattle.bit_graph.specs.Meaning.{Consistent};
ghost use Rattle.bit_arith.specs.Number.{AllStand, values_of};
ghost use Rattle.bit_clauses.specs.Asserted.{EithersStand, all_hold};
ghost use Rattle.smv_meaning.specs.Runs.{is_frozen};
ghost use Rattle.bit_states.specs.Values.{are_codes, decoded_all, width_of_all};
ghost use Rattle.bit_conditions.specs.Keeping.{all_kept, are_same};

use bit_clauses::{Either, ask_same};
use bit_graph::{Edge, Graph};
use bit_values::width;
use smv_slots::Slot;
use smv_tree::VariableKind;
use std::alloc::AllocError;
use value_types::ValueType;

// Asks that the edges have the same values, one by one.
fn ask_same_bits(
    graph: &Graph,
    asked: &mut Vec<Either>,
    a: &[Edge],
    b: &[Edge],
) -> Result<(), AllocError>
    requires a { AllStand graph.now a.now }
    requires b { AllStand graph.now b.now }
    requires width { length a.now ≡ length b.now }
    requires stand { EithersStand graph.now asked.old.items }
    ensures stand { OnOk result (EithersStand graph.now asked.new.items) }
    ensures holds { OnOk result ((v : ℕ → Bool) → Consistent v graph.now → all_hold v asked.new.items ≡ (all_hold v asked.old.items && are_same (values_of v a.now) (values_of v b.now))) }
{
    for i in 0..a.len() {
        ask_same(graph, asked, a[i], b[i])?;
    }
    Ok(())
}

// Asks that the slot, if it is frozen, has the same bits by both edges.
fn ask_keeps(
    graph: &Graph,
    asked: &mut Vec<Either>,
    slot: Slot,
    a: &[Edge],
    b: &[Edge],
) -> Result<(), AllocError>
    requires a { AllStand graph.now a.now }
    requires b { AllStand graph.now b.now }
    requires width { length a.now ≡ length b.now }
    requires stand { EithersStand graph.now asked.old.items }
    ensures stand { OnOk result (EithersStand graph.now asked.new.items) }
    ensures holds { OnOk result ((v : ℕ → Bool) → Consistent v graph.now → all_hold v asked.new.items ≡ (all_hold v asked.old.items && (not (is_frozen slot.kind) || are_same (values_of v a.now) (values_of v b.now)))) }
{
    match slot.kind {
        VariableKind::Frozen => ask_same_bits(graph, asked, a, b),
        VariableKind::State | VariableKind::Input => Ok(()),
    }
}

/// Asks that each frozen slot has the same value by the edges of both states. The only error is running out of memory.
pub fn ask_kept(
    graph: &Graph,
    asked: &mut Vec<Either>,
    slots: &[Slot],
    types: &[ValueType],
    bits: &[Edge],
    next: &[Edge],
) -> Result<(), AllocError>
    requires declared { list_all is_type types.now ≡ true }
    requires types { length types.now ≡ length slots.now }
    requires bits { AllStand graph.now bits.now }
    requires next { AllStand graph.now next.now }
    requires width { length bits.now ≡ width_of_all types.now }
    requires next_width { length next.now ≡ width_of_all types.now }
    requires stand { EithersStand graph.now asked.old.items }
    ensures stand { OnOk result (EithersStand graph.now asked.new.items) }
    ensures holds { OnOk result ((v : ℕ → Bool) → Consistent v graph.now → are_codes types.now (values_of v bits.now) ≡ true → are_codes types.now (values_of v next.now) ≡ true →
        all_hold v asked.new.items ≡ (all_hold v asked.old.items && all_kept slots.now (decoded_all types.now (values_of v bits.now)) (decoded_all types.now (values_of v next.now)))) }
{
    let mut first = bits;
    let mut second = next;
    for (i, slot) in slots.iter().enumerate() {
        let n = width(&types[i]);
        ask_keeps(
            graph,
            asked,
            *slot,
            first_edges(first, n),
            first_edges(second, n),
        )?;
        first = other_edges(first, n);
        second = other_edges(second, n);
    }
    Ok(())
}

// So many edges of the first ones.
fn first_edges(edges: &[Edge], n: usize) -> &[Edge]
    requires { n ≤ length edges.now }
    ensures { result.now ≡ take n edges.now }
{
    &edges[..n]
}

// The edges behind the first ones, of which there are so many.
fn other_edges(edges: &[Edge], n: usize) -> &[Edge]
    requires { n ≤ length edges.now }
    ensures { result.now ≡ drop n edges.now }
{
    &edges[n..]
}
