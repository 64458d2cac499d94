//! Where the bits of a step are those of values, slot by slot.

ghost use Rattle.std.specs.Prelude.{◌≡◌, ◌<◌, ◌≤◌, ◌++◌, ℕ, Bool, length, nat_lt, replicate, slice_index_or, take, drop, IfOk, OnOk};
ghost use Rattle.bit_arith.specs.Number.{AllStand, values_of};
ghost use Rattle.bit_graph.specs.declared.edge.Edge.{Edge as EdgeOf};
ghost use Rattle.bit_graph.specs.Growth.{Extends};
ghost use Rattle.bit_graph.specs.Meaning.{Consistent, Stands, edge_value};
ghost use Rattle.bit_states.specs.Layouts.{layout_of, named_width};
ghost use Rattle.bit_states.specs.Values.{width_of_all};
ghost use Rattle.value_types.specs.Codes.{count};
ghost use Rattle.bit_faults.specs.Mending.{all_have_codes, coded, step_coded};

use crate::valuation::edges_of;
use bit_graph::{Edge, Graph};
use bit_states::Layout;
use bit_values::{domain, width};
use smv_meaning::Typed;
use std::alloc::{AllocError, Global};
use value_types::ValueType;

/// For each bit of a step the edge that is true where the bits of its slot are those of a value; the bits are the first
/// inputs of the graph. The only error is running out of memory.
pub fn step_domains(
    alloc: Global,
    graph: &mut Graph,
    typed: &Typed,
    layout: &Layout,
) -> Result<Vec<Edge>, AllocError>
    requires layout { layout.now ≡ layout_of typed.now.scope.program }
    requires room { named_width typed.now.scope.program ≤ length graph.old }
    ensures extends { Extends graph.old graph.new }
    ensures stand { IfOk result (λ r. AllStand graph.new r.items) }
    ensures value { IfOk result (λ r. (v : ℕ → Bool) → Consistent v graph.new → values_of v r.items ≡ step_coded typed.now.scope.program v) }
{
    let of_state = edges_of(alloc, layout.state())?;
    let of_next = edges_of(alloc, layout.next())?;
    let of_inputs = edges_of(alloc, layout.inputs())?;
    let types = layout.state_types();
    let input_types = layout.input_types();
    let mut made = domains_of(alloc, graph, types, of_state.as_slice())?;
    let second = domains_of(alloc, graph, types, of_next.as_slice())?;
    let third = domains_of(alloc, graph, input_types, of_inputs.as_slice())?;
    made.extend_from_slice(&second)?;
    made.extend_from_slice(&third)?;
    Ok(made)
}

// The same for the bits of values of these types, one of each.
fn domains_of(
    alloc: Global,
    graph: &mut Graph,
    types: &[ValueType],
    bits: &[Edge],
) -> Result<Vec<Edge>, AllocError>
    requires width { length bits.now ≡ width_of_all types.now }
    requires bits_stand { AllStand graph.old bits.now }
    ensures extends { Extends graph.old graph.new }
    ensures stand { IfOk result (λ r. AllStand graph.new r.items) }
    ensures value { IfOk result (λ r. (v : ℕ → Bool) → Consistent v graph.new → values_of v r.items ≡ coded types.now (values_of v bits.now)) }
{
    let mut made = Vec::new(alloc);
    let mut rest = bits;
    for declared in types {
        let n = width(declared);
        let one = domain(alloc, graph, declared, first_edges(rest, n))?;
        push_times(&mut made, n, one)?;
        rest = other_edges(rest, n);
    }
    Ok(made)
}

// Adds an edge so many times.
fn push_times(made: &mut Vec<Edge>, times: usize, edge: Edge) -> Result<(), AllocError>
    ensures { OnOk result (made.new.items ≡ made.old.items ++ replicate times edge) }
{
    for _ in 0..times {
        made.push(edge)?;
    }
    Ok(())
}

// So many edges of the first ones.
fn first_edges(edges: &[Edge], n: usize) -> &[Edge]
    requires { n ≤ length edges.now }
    ensures { result.now ≡ take n edges.now }
{
    &edges[..n]
}

// The edges behind the first ones, of which there are so many.
fn other_edges(edges: &[Edge], n: usize) -> &[Edge]
    requires { n ≤ length edges.now }
    ensures { result.now ≡ drop n edges.now }
{
    &edges[n..]
}

/// The edge of the bit with this number.
pub fn domain_at(domains: &[Edge], bit: usize) -> Edge
    requires { bit < length domains.now }
    ensures { (d : EdgeOf) → result ≡ slice_index_or domains.now bit d }
{
    domains[bit]
}

/// Whether each of the types has a value: an enumeration with no element has none.
pub fn all_have_codes(types: &[ValueType]) -> bool
    ensures { result ≡ all_have_codes types.now }
{
    types.iter().all(|declared| has_codes(declared))
}

fn has_codes(declared: &ValueType) -> bool
    ensures { result ≡ nat_lt 0 (count declared.now) }
{
    match declared.discrete_count() {
        None => true,
        Some(count) => 0 < count,
    }
}
