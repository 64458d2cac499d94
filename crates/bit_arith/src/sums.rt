//! Addition and subtraction of words by ripple-carry adders.

ghost use Rattle.std.specs.Prelude.{◌≡◌, ◌<◌, ◌≤◌, ◌+◌, ◌*◌, ◌^◌, ◌%◌, ℕ, Bool, not, List, map, length, IfOk};
ghost use Rattle.bit_graph.specs.Meaning.{edge_value, Consistent, Stands};
ghost use Rattle.bit_graph.specs.Growth.{Extends};
ghost use Rattle.bit_arith.specs.Number.{bit, number_of, flip, AllStand};
ghost use Rattle.bit_arith.specs.Words.{difference};

use bit_graph::{Edge, Graph};
use std::alloc::{AllocError, Global};

/// The sum, modulo 2 to the power of the width.
pub fn add(
    alloc: Global,
    graph: &mut Graph,
    a: &[Edge],
    b: &[Edge],
) -> Result<Vec<Edge>, AllocError>
    requires lengths { length a.now ≡ length b.now }
    requires a_stand { AllStand graph.old a.now }
    requires b_stand { AllStand graph.old b.now }
    ensures extends { Extends graph.old graph.new }
    ensures stands { IfOk result (λ r. AllStand graph.new r.items) }
    ensures length { IfOk result (λ r. length r.items ≡ length a.now) }
    ensures value { IfOk result (λ r. (v : ℕ → Bool) → Consistent v graph.new →
        number_of v r.items ≡ (number_of v a.now + number_of v b.now) % 2 ^ length a.now) }
{
    let zero = graph.constant(false);
    let (sum, _) = add_carry(alloc, graph, a, b, zero)?;
    Ok(sum)
}

/// The difference, modulo 2 to the power of the width.
pub fn subtract(
    alloc: Global,
    graph: &mut Graph,
    a: &[Edge],
    b: &[Edge],
) -> Result<Vec<Edge>, AllocError>
    requires lengths { length a.now ≡ length b.now }
    requires a_stand { AllStand graph.old a.now }
    requires b_stand { AllStand graph.old b.now }
    ensures extends { Extends graph.old graph.new }
    ensures stands { IfOk result (λ r. AllStand graph.new r.items) }
    ensures length { IfOk result (λ r. length r.items ≡ length a.now) }
    ensures value { IfOk result (λ r. (v : ℕ → Bool) → Consistent v graph.new →
        number_of v r.items ≡ difference (length a.now) (number_of v a.now) (number_of v b.now)) }
{
    let (low, _) = subtract_carry(alloc, graph, a, b)?;
    Ok(low)
}

// The sum of three bits: its low bit and its carry.
//
// The carry is a choice by one bit of whether one of the others is set, or both. A choice by `half` has fewer gates,
// but on hard questions it costs a solver a third more conflicts (docs/PERFORMANCE.md).
fn full_adder(graph: &mut Graph, x: Edge, y: Edge, carry: Edge) -> Result<(Edge, Edge), AllocError>
    requires x_stands { Stands graph.old x }
    requires y_stands { Stands graph.old y }
    requires carry_stands { Stands graph.old carry }
    ensures extends { Extends graph.old graph.new }
    ensures stands { IfOk result (λ r. Stands graph.new r.0 × Stands graph.new r.1) }
    ensures value { IfOk result (λ r. (v : ℕ → Bool) → Consistent v graph.new →
        bit (edge_value v r.0) + 2 * bit (edge_value v r.1) ≡ bit (edge_value v x) + bit (edge_value v y) + bit (edge_value v carry)) }
{
    let half = graph.xor(x, y)?;
    let sum = graph.xor(half, carry)?;
    let either = graph.or(y, carry)?;
    let both = graph.and(y, carry)?;
    let over = graph.choose(x, either, both)?;
    Ok((sum, over))
}

// a + b + carry: the low bits and the last carry.
fn add_carry(
    alloc: Global,
    graph: &mut Graph,
    a: &[Edge],
    b: &[Edge],
    carry: Edge,
) -> Result<(Vec<Edge>, Edge), AllocError>
    requires lengths { length a.now ≡ length b.now }
    requires a_stand { AllStand graph.old a.now }
    requires b_stand { AllStand graph.old b.now }
    requires carry_stands { Stands graph.old carry }
    ensures extends { Extends graph.old graph.new }
    ensures stands { IfOk result (λ r. AllStand graph.new r.0.items × Stands graph.new r.1) }
    ensures length { IfOk result (λ r. length r.0.items ≡ length a.now) }
    ensures value { IfOk result (λ r. (v : ℕ → Bool) → Consistent v graph.new →
        number_of v r.0.items + 2 ^ length a.now * bit (edge_value v r.1) ≡ number_of v a.now + number_of v b.now + bit (edge_value v carry)) }
{
    let mut sum = Vec::new(alloc);
    let mut over = carry;
    'bits: for i in 0..a.len() {
        let (low, high) = full_adder(graph, a[i], b[i], over)?;
        sum.push(low)?;
        over = high;
    }
    Ok((sum, over))
}

// a - b: the low bits, and whether b is at most a.
pub fn subtract_carry(
    alloc: Global,
    graph: &mut Graph,
    a: &[Edge],
    b: &[Edge],
) -> Result<(Vec<Edge>, Edge), AllocError>
    requires lengths { length a.now ≡ length b.now }
    requires a_stand { AllStand graph.old a.now }
    requires b_stand { AllStand graph.old b.now }
    ensures extends { Extends graph.old graph.new }
    ensures stands { IfOk result (λ r. AllStand graph.new r.0.items × Stands graph.new r.1) }
    ensures length { IfOk result (λ r. length r.0.items ≡ length a.now) }
    ensures value { IfOk result (λ r. (v : ℕ → Bool) → Consistent v graph.new →
        number_of v r.0.items + 2 ^ length a.now * bit (edge_value v r.1) + number_of v b.now ≡ number_of v a.now + 2 ^ length a.now) }
{
    let inverted = invert(alloc, b)?;
    let one = graph.constant(true);
    let (difference, fits) = add_carry(alloc, graph, a, &inverted, one)?;
    Ok((difference, fits))
}

// Each bit negated.
fn invert(alloc: Global, a: &[Edge]) -> Result<Vec<Edge>, AllocError>
    ensures { IfOk result (λ r. r.items ≡ map flip a.now) }
{
    a.iter().map(|e| e.negation()).collect(alloc)
}
