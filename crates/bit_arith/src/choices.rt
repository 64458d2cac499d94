//! Choice of a word by a condition, and comparison of words as numbers or as signed integers.

ghost use Rattle.std.specs.Prelude.{◌≡◌, ◌<◌, ◌≤◌, ◌+◌, ◌*◌, ◌^◌, ◌==◌, ◌&&◌, nat_lt, ℕ, Bool, not, List, map, length, true, IfOk, if◌then◌else◌};
ghost use Rattle.bit_graph.specs.Meaning.{edge_value, Consistent, Stands};
ghost use Rattle.bit_graph.specs.Growth.{Extends};
ghost use Rattle.bit_arith.specs.Number.{bit, number_of, values_of, AllStand};
ghost use Rattle.bit_arith.specs.Words.{is_less};

use bit_graph::{Edge, Graph};
use std::alloc::{AllocError, Global};

/// The values of `a` where the condition is true, else those of `b`.
pub fn select(
    alloc: Global,
    graph: &mut Graph,
    condition: Edge,
    a: &[Edge],
    b: &[Edge],
) -> Result<Vec<Edge>, AllocError>
    requires lengths { length a.now ≡ length b.now }
    requires condition_stands { Stands graph.old condition }
    requires a_stand { AllStand graph.old a.now }
    requires b_stand { AllStand graph.old b.now }
    ensures extends { Extends graph.old graph.new }
    ensures stands { IfOk result (λ r. AllStand graph.new r.items) }
    ensures length { IfOk result (λ r. length r.items ≡ length a.now) }
    ensures value { IfOk result (λ r. (v : ℕ → Bool) → Consistent v graph.new →
        values_of v r.items ≡ (if edge_value v condition then values_of v a.now else values_of v b.now)) }
{
    let mut chosen = Vec::new(alloc);
    'bits: for i in 0..a.len() {
        let e = graph.choose(condition, a[i], b[i])?;
        chosen.push(e)?;
    }
    Ok(chosen)
}

/// Whether `a` and `b` are equal, and whether `a` is less, as numbers or as signed integers.
pub fn compare(
    graph: &mut Graph,
    a: &[Edge],
    b: &[Edge],
    signed: bool,
) -> Result<(Edge, Edge), AllocError>
    requires lengths { length a.now ≡ length b.now }
    requires a_stand { AllStand graph.old a.now }
    requires b_stand { AllStand graph.old b.now }
    ensures extends { Extends graph.old graph.new }
    ensures stands { IfOk result (λ r. Stands graph.new r.0 × Stands graph.new r.1) }
    ensures equal { IfOk result (λ r. (v : ℕ → Bool) → Consistent v graph.new →
        edge_value v r.0 ≡ (number_of v a.now == number_of v b.now)) }
    ensures less { IfOk result (λ r. (v : ℕ → Bool) → Consistent v graph.new →
        edge_value v r.1 ≡ is_less signed (length a.now) (number_of v a.now) (number_of v b.now)) }
{
    if signed && !a.is_empty() {
        compare_signed(graph, a, b)
    } else {
        compare_numbers(graph, a, b)
    }
}

// The highest bits of signed words count the other way.
fn compare_signed(graph: &mut Graph, a: &[Edge], b: &[Edge]) -> Result<(Edge, Edge), AllocError>
    requires lengths { length a.now ≡ length b.now }
    requires some { 0 < length a.now }
    requires a_stand { AllStand graph.old a.now }
    requires b_stand { AllStand graph.old b.now }
    ensures extends { Extends graph.old graph.new }
    ensures stands { IfOk result (λ r. Stands graph.new r.0 × Stands graph.new r.1) }
    ensures equal { IfOk result (λ r. (v : ℕ → Bool) → Consistent v graph.new →
        edge_value v r.0 ≡ (number_of v a.now == number_of v b.now)) }
    ensures less { IfOk result (λ r. (v : ℕ → Bool) → Consistent v graph.new →
        edge_value v r.1 ≡ is_less true (length a.now) (number_of v a.now) (number_of v b.now)) }
{
    let last = a.len() - 1;
    let (equal, less) = compare_numbers(graph, &a[..last], &b[..last])?;
    let (same, below) = compare_bit(graph, b[last], a[last], equal, less)?;
    Ok((same, below))
}

fn compare_numbers(graph: &mut Graph, a: &[Edge], b: &[Edge]) -> Result<(Edge, Edge), AllocError>
    requires lengths { length a.now ≡ length b.now }
    requires a_stand { AllStand graph.old a.now }
    requires b_stand { AllStand graph.old b.now }
    ensures extends { Extends graph.old graph.new }
    ensures stands { IfOk result (λ r. Stands graph.new r.0 × Stands graph.new r.1) }
    ensures equal { IfOk result (λ r. (v : ℕ → Bool) → Consistent v graph.new →
        edge_value v r.0 ≡ (number_of v a.now == number_of v b.now)) }
    ensures less { IfOk result (λ r. (v : ℕ → Bool) → Consistent v graph.new →
        edge_value v r.1 ≡ nat_lt (number_of v a.now) (number_of v b.now)) }
{
    let mut equal = graph.constant(true);
    let mut less = graph.constant(false);
    'bits: for i in 0..a.len() {
        let (same, below) = compare_bit(graph, a[i], b[i], equal, less)?;
        equal = same;
        less = below;
    }
    Ok((equal, less))
}

// One more bit above the lists so far: whether they are equal with it, and whether the first is less.
fn compare_bit(
    graph: &mut Graph,
    x: Edge,
    y: Edge,
    equal: Edge,
    less: Edge,
) -> Result<(Edge, Edge), AllocError>
    requires x_stands { Stands graph.old x }
    requires y_stands { Stands graph.old y }
    requires equal_stands { Stands graph.old equal }
    requires less_stands { Stands graph.old less }
    ensures extends { Extends graph.old graph.new }
    ensures stands { IfOk result (λ r. Stands graph.new r.0 × Stands graph.new r.1) }
    ensures equal { IfOk result (λ r. (v : ℕ → Bool) → Consistent v graph.new →
        edge_value v r.0 ≡ (bit (edge_value v x) == bit (edge_value v y) && edge_value v equal)) }
    ensures less { IfOk result (λ r. (v : ℕ → Bool) → Consistent v graph.new →
        edge_value v r.1 ≡ (if bit (edge_value v x) == bit (edge_value v y) then edge_value v less else edge_value v y)) }
{
    let apart = graph.xor(x, y)?;
    let both = graph.and(apart.negation(), equal)?;
    let below = graph.choose(apart, y, less)?;
    Ok((both, below))
}
