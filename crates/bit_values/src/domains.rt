//! Which edges are the bits of a value.

ghost use Rattle.std.specs.Prelude.{◌≡◌, ◌^◌, ◌≤◌, ◌<◌, ℕ, Bool, List, IfOk, IsTrue, ◌↔◌, length, nat_lt};
ghost use Rattle.bit_graph.specs.Meaning.{Consistent, Denotes, Stands, edge_value};
ghost use Rattle.bit_graph.specs.Growth.{Extends};
ghost use Rattle.bit_arith.specs.Number.{AllStand, number_of, values_of};
ghost use Rattle.bit_values.specs.Bits.{is_code, width_of};

use crate::coding::bits_of;
use bit_arith::compare;
use bit_graph::{Edge, Graph};
use std::alloc::{AllocError, Global};
use value_types::ValueType;

/// Edges that always have these values. The only error is running out of memory.
pub fn constant_edges(alloc: Global, graph: &Graph, bits: &[bool]) -> Result<Vec<Edge>, AllocError>
    ensures stands { IfOk result (λ r. AllStand graph.now r.items) }
    ensures length { IfOk result (λ r. length r.items ≡ length bits.now) }
    ensures value { IfOk result (λ r. (v : ℕ → Bool) → Consistent v graph.now → values_of v r.items ≡ bits.now) }
{
    let mut edges = Vec::new(alloc);
    'bits: for bit in bits {
        edges.push(graph.constant(*bit))?;
    }
    Ok(edges)
}

/// The edge that is true exactly where the edges are the bits of a value of the type.
///
/// It is a constant where each list of so many bits is. Each edge that was made earlier keeps its value, also after
/// running out of memory, which is the only error.
pub fn domain(
    alloc: Global,
    graph: &mut Graph,
    declared: &ValueType,
    bits: &[Edge],
) -> Result<Edge, AllocError>
    requires width { length bits.now ≡ width_of declared.now }
    requires bits_stand { AllStand graph.old bits.now }
    ensures extends { Extends graph.old graph.new }
    ensures stands { IfOk result (λ e. Stands graph.new e) }
    ensures value { IfOk result (λ e. Denotes graph.new e (λ v. is_code declared.now (values_of v bits.now))) }
{
    match declared.discrete_count() {
        Some(count) => {
            let e = below(alloc, graph, bits, count)?;
            Ok(e)
        }
        None => Ok(graph.constant(true)),
    }
}

// The edge that is true where the number of the bits is below the limit.
fn below(alloc: Global, graph: &mut Graph, bits: &[Edge], limit: u64) -> Result<Edge, AllocError>
    requires bits_stand { AllStand graph.old bits.now }
    ensures extends { Extends graph.old graph.new }
    ensures stands { IfOk result (λ e. Stands graph.new e) }
    ensures value { IfOk result (λ e. Denotes graph.new e (λ v. nat_lt (number_of v bits.now) limit)) }
{
    if reaches(limit, bits.len()) {
        Ok(graph.constant(true))
    } else {
        let limit_bits = bits_of(alloc, bits.len(), u128::from(limit))?;
        let limit_edges = constant_edges(alloc, graph, &limit_bits)?;
        let (_, less) = compare(graph, bits, &limit_edges, false)?;
        Ok(less)
    }
}

// Whether the limit is past each number of so many bits.
fn reaches(limit: u64, width: usize) -> bool
    ensures { IsTrue result ↔ (2 ^ width ≤ limit) }
{
    width < 64 && 1 << width <= limit
}
