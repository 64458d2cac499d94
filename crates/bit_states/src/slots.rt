//! The values of bits as edges, and where bits are those of values.

ghost use Rattle.std.specs.Prelude.{◌≡◌, ◌≤◌, ℕ, Bool, true, length, take, drop, IfOk};
ghost use Rattle.std.specs.List.{list_all};
ghost use Rattle.value_types.specs.Types.{is_type};
ghost use Rattle.bit_graph.specs.Meaning.{Consistent, Denotes, Stands};
ghost use Rattle.bit_graph.specs.Growth.{Extends};
ghost use Rattle.bit_arith.specs.Number.{AllStand, values_of};
ghost use Rattle.bit_numbers.specs.Counts.{AllStandIn, AreDenoted};
ghost use Rattle.bit_states.specs.Values.{are_codes, decoded_all, width_of_all};

use bit_choices::variable;
use bit_graph::{Edge, Graph};
use bit_operators::Symbolic;
use bit_values::{domain, width};
use sqlite_items::Items;
use std::alloc::{AllocError, Global};
use value_types::ValueType;

/// The values of these types that have the bits, one of each, where the bits of each are those of a value.
///
/// There is no gate but for ranges that begin elsewhere than at 0, and for enumerations that have integers, which are
/// not 0, 1 and so on. Each edge that was made earlier keeps its value, also where memory runs out, which is the only
/// error.
pub fn slot_values(
    alloc: Global,
    graph: &mut Graph,
    types: &[ValueType],
    bits: &[Edge],
) -> Result<Items<Symbolic>, AllocError>
    requires declared { list_all is_type types.now ≡ true }
    requires width { length bits.now ≡ width_of_all types.now }
    requires bits_stand { AllStand graph.old bits.now }
    ensures extends { Extends graph.old graph.new }
    ensures stand { IfOk result (λ ss. AllStandIn graph.new ss) }
    ensures values { IfOk result (λ ss. (v : ℕ → Bool) → Consistent v graph.new → are_codes types.now (values_of v bits.now) ≡ true →
        AreDenoted v ss (decoded_all types.now (values_of v bits.now))) }
{
    let mut values = Vec::new(alloc);
    let mut rest = bits;
    for declared in types {
        let n = width(declared);
        let value = variable(alloc, graph, declared, first_edges(rest, n))?;
        values.push(value)?;
        rest = other_edges(rest, n);
    }
    Ok(Items::from_vec(values))
}

/// The edge that is true exactly where the bits are those of values of these types, one of each.
///
/// It is a constant where each list of so many bits is. Each edge that was made earlier keeps its value, also where
/// memory runs out, which is the only error.
pub fn domain_edge(
    alloc: Global,
    graph: &mut Graph,
    types: &[ValueType],
    bits: &[Edge],
) -> Result<Edge, AllocError>
    requires width { length bits.now ≡ width_of_all types.now }
    requires bits_stand { AllStand graph.old bits.now }
    ensures extends { Extends graph.old graph.new }
    ensures stands { IfOk result (λ e. Stands graph.new e) }
    ensures value { IfOk result (λ e. Denotes graph.new e (λ v. are_codes types.now (values_of v bits.now))) }
{
    let mut all = graph.constant(true);
    let mut rest = bits;
    for declared in types {
        let n = width(declared);
        let one = domain(alloc, graph, declared, first_edges(rest, n))?;
        let both = graph.and(all, one)?;
        all = both;
        rest = other_edges(rest, n);
    }
    Ok(all)
}

// So many edges of the first ones.
fn first_edges(edges: &[Edge], n: usize) -> &[Edge]
    requires { n ≤ length edges.now }
    ensures { result.now ≡ take n edges.now }
{
    &edges[..n]
}

// The edges behind the first ones, of which there are so many.
fn other_edges(edges: &[Edge], n: usize) -> &[Edge]
    requires { n ≤ length edges.now }
    ensures { result.now ≡ drop n edges.now }
{
    &edges[n..]
}
