//! Bits of a step that are mended, so that they are those of a valuation.

ghost use Rattle.std.specs.Prelude.{◌≡◌, ◌&&◌, ◌<◌, ℕ, false, length, IfOk, slice_index_or};
ghost use Rattle.bit_graph.specs.Meaning.{edge_value};
ghost use Rattle.bit_graph.specs.Values.{assigned};
ghost use Rattle.bit_states.specs.Layouts.{layout_of};
ghost use Rattle.bit_faults.specs.Mending.{mended};

use crate::domains::{domain_at, step_domains};
use bit_graph::{Edge, Graph, evaluate};
use bit_states::Layout;
use smv_meaning::Typed;
use std::alloc::{AllocError, Global};

/// The bits with 0 in each slot whose bits are those of no value; bits past the end of the list are 0.
///
/// They are a valuation, if each type has a value. Time and memory grow with the bits. The only error is running out of
/// memory.
pub fn mended(
    alloc: Global,
    typed: &Typed,
    layout: &Layout,
    bits: &[bool],
) -> Result<Vec<bool>, AllocError>
    requires layout { layout.now ≡ layout_of typed.now.scope.program }
    ensures { IfOk result (λ r. (k : ℕ) → slice_index_or r.items k false ≡ mended typed.now.scope.program (λ i. slice_index_or bits.now i false) k) }
{
    let named = layout.state().len() + layout.next().len() + layout.inputs().len();
    let mut graph = Graph::new(alloc, named)?;
    let domains = step_domains(alloc, &mut graph, typed, layout)?;
    graph.one_way();
    let known = evaluate(alloc, &graph, bits)?;
    let mut made = Vec::new(alloc);
    for i in 0..named {
        let domain = domain_at(&domains, i);
        let bit = mended_bit(&known, domain, bits, i);
        made.push(bit)?;
    }
    Ok(made)
}

// The bit of this number, if the edge that tells of its slot is true, else false.
fn mended_bit(known: &[bool], domain: Edge, bits: &[bool], i: usize) -> bool
    requires { domain.node < length known.now }
    ensures { result ≡ (edge_value (assigned known.now) domain && slice_index_or bits.now i false) }
{
    let coded = value_at(known, domain);
    let bit = bit_at(bits, i);
    coded && bit
}

// The value of an edge.
fn value_at(known: &[bool], edge: Edge) -> bool
    requires { edge.node < length known.now }
    ensures { result ≡ edge_value (assigned known.now) edge }
{
    if edge.negated {
        !known[edge.node]
    } else {
        known[edge.node]
    }
}

// The bit of this number, false past the end of the list.
fn bit_at(bits: &[bool], i: usize) -> bool
    ensures { result ≡ slice_index_or bits.now i false }
{
    match bits.get(i) {
        None => false,
        Some(bit) => *bit,
    }
}
