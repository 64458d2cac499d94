//! Multiplication of words by shift and add, from the highest bit down (Horner's rule).

ghost use Rattle.std.specs.Prelude.{◌≡◌, ◌<◌, ◌≤◌, ◌+◌, ◌*◌, ◌^◌, ◌%◌, ◌∷◌, ℕ, Bool, List, map, length, false, IfOk};
ghost use Rattle.bit_graph.specs.Meaning.{edge_value, Consistent, Stands};
ghost use Rattle.bit_graph.specs.Growth.{Extends};
ghost use Rattle.bit_arith.specs.Number.{bit, number_of, AllStand};

use crate::choices::select;
use crate::sums::add;
use bit_graph::{Edge, Graph};
use std::alloc::{AllocError, Global};

/// The product, modulo 2 to the power of the width.
pub fn multiply(
    alloc: Global,
    graph: &mut Graph,
    a: &[Edge],
    b: &[Edge],
) -> Result<Vec<Edge>, AllocError>
    requires lengths { length a.now ≡ length b.now }
    requires a_stand { AllStand graph.old a.now }
    requires b_stand { AllStand graph.old b.now }
    ensures extends { Extends graph.old graph.new }
    ensures stands { IfOk result (λ r. AllStand graph.new r.items) }
    ensures length { IfOk result (λ r. length r.items ≡ length a.now) }
    ensures value { IfOk result (λ r. (v : ℕ → Bool) → Consistent v graph.new →
        number_of v r.items ≡ (number_of v a.now * number_of v b.now) % 2 ^ length a.now) }
{
    let zero = graph.constant(false);
    let zeros = all_of(alloc, zero, a)?;
    let mut product = all_of(alloc, zero, a)?;
    'bits: for i in (0..b.len()).rev() {
        let next = step(alloc, graph, &product, a, b[i], &zeros, zero)?;
        product = next;
    }
    Ok(product)
}

// Twice the product so far, and a where the bit is set.
fn step(
    alloc: Global,
    graph: &mut Graph,
    product: &[Edge],
    a: &[Edge],
    bit_edge: Edge,
    zeros: &[Edge],
    zero: Edge,
) -> Result<Vec<Edge>, AllocError>
    requires lengths { length product.now ≡ length a.now }
    requires zeros { zeros.now ≡ map (λ _. zero) a.now }
    requires product_stand { AllStand graph.old product.now }
    requires a_stand { AllStand graph.old a.now }
    requires bit_stands { Stands graph.old bit_edge }
    requires zero_stands { Stands graph.old zero }
    requires zero_is { (v : ℕ → Bool) → Consistent v graph.old → edge_value v zero ≡ false }
    ensures extends { Extends graph.old graph.new }
    ensures stands { IfOk result (λ r. AllStand graph.new r.items) }
    ensures length { IfOk result (λ r. length r.items ≡ length a.now) }
    ensures value { IfOk result (λ r. (v : ℕ → Bool) → Consistent v graph.new →
        number_of v r.items ≡ ((2 * number_of v product.now) % 2 ^ length a.now + number_of v a.now * bit (edge_value v bit_edge)) % 2 ^ length a.now) }
{
    let doubled = below(alloc, zero, product)?;
    let partial = select(alloc, graph, bit_edge, a, zeros)?;
    let sum = add(alloc, graph, &doubled[..a.len()], &partial)?;
    Ok(sum)
}

// As many edges as a has, all of them e.
pub fn all_of(alloc: Global, e: Edge, a: &[Edge]) -> Result<Vec<Edge>, AllocError>
    ensures { IfOk result (λ r. r.items ≡ map (λ _. e) a.now) }
{
    a.iter().map(|_| e).collect(alloc)
}

// The edges of a with one more bit below them.
pub fn below(alloc: Global, low: Edge, a: &[Edge]) -> Result<Vec<Edge>, AllocError>
    ensures { IfOk result (λ r. r.items ≡ low ∷ a.now) }
{
    let mut all = Vec::new(alloc);
    all.push(low)?;
    all.extend_from_slice(a)?;
    Ok(all)
}
