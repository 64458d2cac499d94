//! Negation, and signed division by way of absolute values.

ghost use Rattle.std.specs.Prelude.{◌≡◌, ◌<◌, ◌≤◌, ◌+◌, ◌*◌, ◌^◌, ℕ, Bool, List, length, IfOk, false, true, if◌then◌else◌};
ghost use Rattle.bit_graph.specs.Meaning.{edge_value, exclusive_or, Consistent, Stands};
ghost use Rattle.bit_graph.specs.Growth.{Extends};
ghost use Rattle.bit_arith.specs.Number.{number_of, AllStand};
ghost use Rattle.bit_arith.specs.Words.{opposite, is_negative, quotient, remainder};

use crate::choices::select;
use crate::products::all_of;
use crate::quotients::divide_numbers;
use crate::sums::subtract;
use bit_graph::{Edge, Graph};
use std::alloc::{AllocError, Global};

/// The negation, modulo 2 to the power of the width.
pub fn negate(alloc: Global, graph: &mut Graph, a: &[Edge]) -> Result<Vec<Edge>, AllocError>
    requires { AllStand graph.old a.now }
    ensures extends { Extends graph.old graph.new }
    ensures stands { IfOk result (λ r. AllStand graph.new r.items) }
    ensures length { IfOk result (λ r. length r.items ≡ length a.now) }
    ensures value { IfOk result (λ r. (v : ℕ → Bool) → Consistent v graph.new →
        number_of v r.items ≡ opposite (length a.now) (number_of v a.now)) }
{
    let zero = graph.constant(false);
    let zeros = all_of(alloc, zero, a)?;
    let less = subtract(alloc, graph, &zeros, a)?;
    Ok(less)
}

/// The quotient, of numbers or of signed integers, rounded towards zero.
///
/// The least signed integer by -1 is itself. By zero all bits are set, but of signed words with a
/// negative `a` the quotient is 1, as it costs no node more.
pub fn divide(
    alloc: Global,
    graph: &mut Graph,
    a: &[Edge],
    b: &[Edge],
    signed: bool,
) -> Result<Vec<Edge>, AllocError>
    requires lengths { length a.now ≡ length b.now }
    requires a_stand { AllStand graph.old a.now }
    requires b_stand { AllStand graph.old b.now }
    ensures extends { Extends graph.old graph.new }
    ensures stands { IfOk result (λ r. AllStand graph.new r.items) }
    ensures length { IfOk result (λ r. length r.items ≡ length a.now) }
    ensures value { IfOk result (λ r. (v : ℕ → Bool) → Consistent v graph.new →
        number_of v r.items ≡ quotient signed (length a.now) (number_of v a.now) (number_of v b.now)) }
{
    let (quotient, _) = divide_words(alloc, graph, a, b, signed)?;
    Ok(quotient)
}

/// The remainder of the division, with the sign of `a`; by zero it is `a`.
pub fn remainder(
    alloc: Global,
    graph: &mut Graph,
    a: &[Edge],
    b: &[Edge],
    signed: bool,
) -> Result<Vec<Edge>, AllocError>
    requires lengths { length a.now ≡ length b.now }
    requires a_stand { AllStand graph.old a.now }
    requires b_stand { AllStand graph.old b.now }
    ensures extends { Extends graph.old graph.new }
    ensures stands { IfOk result (λ r. AllStand graph.new r.items) }
    ensures length { IfOk result (λ r. length r.items ≡ length a.now) }
    ensures value { IfOk result (λ r. (v : ℕ → Bool) → Consistent v graph.new →
        number_of v r.items ≡ remainder signed (length a.now) (number_of v a.now) (number_of v b.now)) }
{
    let (_, rest) = divide_words(alloc, graph, a, b, signed)?;
    Ok(rest)
}

fn divide_words(
    alloc: Global,
    graph: &mut Graph,
    a: &[Edge],
    b: &[Edge],
    signed: bool,
) -> Result<(Vec<Edge>, Vec<Edge>), AllocError>
    requires lengths { length a.now ≡ length b.now }
    requires a_stand { AllStand graph.old a.now }
    requires b_stand { AllStand graph.old b.now }
    ensures extends { Extends graph.old graph.new }
    ensures stands { IfOk result (λ r. AllStand graph.new r.0.items × AllStand graph.new r.1.items) }
    ensures length { IfOk result (λ r. (length r.0.items ≡ length a.now) × (length r.1.items ≡ length a.now)) }
    ensures quotient { IfOk result (λ r. (v : ℕ → Bool) → Consistent v graph.new →
        number_of v r.0.items ≡ quotient signed (length a.now) (number_of v a.now) (number_of v b.now)) }
    ensures remainder { IfOk result (λ r. (v : ℕ → Bool) → Consistent v graph.new →
        number_of v r.1.items ≡ remainder signed (length a.now) (number_of v a.now) (number_of v b.now)) }
{
    if signed {
        divide_signed(alloc, graph, a, b)
    } else {
        divide_numbers(alloc, graph, a, b)
    }
}

// The absolute values' quotient and remainder, with their signs.
fn divide_signed(
    alloc: Global,
    graph: &mut Graph,
    a: &[Edge],
    b: &[Edge],
) -> Result<(Vec<Edge>, Vec<Edge>), AllocError>
    requires lengths { length a.now ≡ length b.now }
    requires a_stand { AllStand graph.old a.now }
    requires b_stand { AllStand graph.old b.now }
    ensures extends { Extends graph.old graph.new }
    ensures stands { IfOk result (λ r. AllStand graph.new r.0.items × AllStand graph.new r.1.items) }
    ensures length { IfOk result (λ r. (length r.0.items ≡ length a.now) × (length r.1.items ≡ length a.now)) }
    ensures quotient { IfOk result (λ r. (v : ℕ → Bool) → Consistent v graph.new →
        number_of v r.0.items ≡ quotient true (length a.now) (number_of v a.now) (number_of v b.now)) }
    ensures remainder { IfOk result (λ r. (v : ℕ → Bool) → Consistent v graph.new →
        number_of v r.1.items ≡ remainder true (length a.now) (number_of v a.now) (number_of v b.now)) }
{
    let sign_a = sign(graph, a);
    let sign_b = sign(graph, b);
    let size_a = negate_if(alloc, graph, sign_a, a)?;
    let size_b = negate_if(alloc, graph, sign_b, b)?;
    divide_sizes(alloc, graph, sign_a, sign_b, &size_a, &size_b)
}

// The quotient and the remainder of numbers with these signs.
fn divide_sizes(
    alloc: Global,
    graph: &mut Graph,
    sign_a: Edge,
    sign_b: Edge,
    size_a: &[Edge],
    size_b: &[Edge],
) -> Result<(Vec<Edge>, Vec<Edge>), AllocError>
    requires lengths { length size_a.now ≡ length size_b.now }
    requires sign_a_stands { Stands graph.old sign_a }
    requires sign_b_stands { Stands graph.old sign_b }
    requires size_a_stand { AllStand graph.old size_a.now }
    requires size_b_stand { AllStand graph.old size_b.now }
    ensures extends { Extends graph.old graph.new }
    ensures stands { IfOk result (λ r. AllStand graph.new r.0.items × AllStand graph.new r.1.items) }
    ensures length { IfOk result (λ r. (length r.0.items ≡ length size_a.now) × (length r.1.items ≡ length size_a.now)) }
    ensures quotient { IfOk result (λ r. (v : ℕ → Bool) → Consistent v graph.new →
        let n = length size_a.now in let q = quotient false n (number_of v size_a.now) (number_of v size_b.now) in
        number_of v r.0.items ≡ (if exclusive_or (edge_value v sign_a) (edge_value v sign_b) then opposite n q else q)) }
    ensures remainder { IfOk result (λ r. (v : ℕ → Bool) → Consistent v graph.new →
        let n = length size_a.now in let m = remainder false n (number_of v size_a.now) (number_of v size_b.now) in
        number_of v r.1.items ≡ (if edge_value v sign_a then opposite n m else m)) }
{
    let (size, rest) = divide_numbers(alloc, graph, size_a, size_b)?;
    with_signs(alloc, graph, sign_a, sign_b, &size, &rest)
}

// The quotient is negative where just one of the signs is, and the remainder where the first is.
fn with_signs(
    alloc: Global,
    graph: &mut Graph,
    sign_a: Edge,
    sign_b: Edge,
    size: &[Edge],
    rest: &[Edge],
) -> Result<(Vec<Edge>, Vec<Edge>), AllocError>
    requires sign_a_stands { Stands graph.old sign_a }
    requires sign_b_stands { Stands graph.old sign_b }
    requires size_stand { AllStand graph.old size.now }
    requires rest_stand { AllStand graph.old rest.now }
    ensures extends { Extends graph.old graph.new }
    ensures stands { IfOk result (λ r. AllStand graph.new r.0.items × AllStand graph.new r.1.items) }
    ensures length { IfOk result (λ r. (length r.0.items ≡ length size.now) × (length r.1.items ≡ length rest.now)) }
    ensures quotient { IfOk result (λ r. (v : ℕ → Bool) → Consistent v graph.new →
        number_of v r.0.items ≡ (if exclusive_or (edge_value v sign_a) (edge_value v sign_b) then opposite (length size.now) (number_of v size.now) else number_of v size.now)) }
    ensures remainder { IfOk result (λ r. (v : ℕ → Bool) → Consistent v graph.new →
        number_of v r.1.items ≡ (if edge_value v sign_a then opposite (length rest.now) (number_of v rest.now) else number_of v rest.now)) }
{
    let apart = graph.xor(sign_a, sign_b)?;
    let quotient = negate_if(alloc, graph, apart, size)?;
    let remainder = negate_if(alloc, graph, sign_a, rest)?;
    Ok((quotient, remainder))
}

// The highest bit, which says whether the word is negative.
fn sign(graph: &Graph, a: &[Edge]) -> Edge
    requires { AllStand graph.now a.now }
    ensures stands { Stands graph.now result }
    ensures value { (v : ℕ → Bool) → Consistent v graph.now → edge_value v result ≡ is_negative (length a.now) (number_of v a.now) }
{
    if a.is_empty() {
        graph.constant(false)
    } else {
        a[a.len() - 1]
    }
}

// The negation where the condition is true, else a.
fn negate_if(
    alloc: Global,
    graph: &mut Graph,
    condition: Edge,
    a: &[Edge],
) -> Result<Vec<Edge>, AllocError>
    requires condition_stands { Stands graph.old condition }
    requires a_stand { AllStand graph.old a.now }
    ensures extends { Extends graph.old graph.new }
    ensures stands { IfOk result (λ r. AllStand graph.new r.items) }
    ensures length { IfOk result (λ r. length r.items ≡ length a.now) }
    ensures value { IfOk result (λ r. (v : ℕ → Bool) → Consistent v graph.new →
        number_of v r.items ≡ (if edge_value v condition then opposite (length a.now) (number_of v a.now) else number_of v a.now)) }
{
    let less = negate(alloc, graph, a)?;
    let chosen = select(alloc, graph, condition, &less, a)?;
    Ok(chosen)
}
