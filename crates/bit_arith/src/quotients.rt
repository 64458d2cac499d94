//! Division of words as numbers: restoring long division, from the highest bit down.

ghost use Rattle.std.specs.Prelude.{◌≡◌, ◌<◌, ◌≤◌, ◌+◌, ◌*◌, ◌^◌, ◌/◌, ◌%◌, ◌∷◌, ◌++◌, [], ℕ, Bool, List, map, length, IfOk, false};
ghost use Rattle.bit_graph.specs.Meaning.{edge_value, Consistent, Stands};
ghost use Rattle.bit_graph.specs.Growth.{Extends};
ghost use Rattle.bit_arith.specs.Number.{bit, number_of, AllStand};
ghost use Rattle.bit_arith.specs.Words.{quotient, remainder};
ghost use Rattle.bit_arith.specs.Digits.{Takes};

use crate::choices::select;
use crate::products::{all_of, below};
use crate::sums::subtract_carry;
use bit_graph::{Edge, Graph};
use std::alloc::{AllocError, Global};

// The quotient and the remainder of numbers, a digit at a time from the highest down.
pub fn divide_numbers(
    alloc: Global,
    graph: &mut Graph,
    a: &[Edge],
    b: &[Edge],
) -> Result<(Vec<Edge>, Vec<Edge>), AllocError>
    requires lengths { length a.now ≡ length b.now }
    requires a_stand { AllStand graph.old a.now }
    requires b_stand { AllStand graph.old b.now }
    ensures extends { Extends graph.old graph.new }
    ensures stands { IfOk result (λ r. AllStand graph.new r.0.items × AllStand graph.new r.1.items) }
    ensures length { IfOk result (λ r. (length r.0.items ≡ length a.now) × (length r.1.items ≡ length a.now)) }
    ensures quotient { IfOk result (λ r. (v : ℕ → Bool) → Consistent v graph.new →
        number_of v r.0.items ≡ quotient false (length a.now) (number_of v a.now) (number_of v b.now)) }
    ensures remainder { IfOk result (λ r. (v : ℕ → Bool) → Consistent v graph.new →
        number_of v r.1.items ≡ remainder false (length a.now) (number_of v a.now) (number_of v b.now)) }
{
    let zero = graph.constant(false);
    let mut divisor = Vec::from_slice(alloc, b)?;
    divisor.push(zero)?;
    let mut quotient = all_of(alloc, zero, a)?;
    let mut rest = all_of(alloc, zero, a)?;
    'bits: for i in (0..a.len()).rev() {
        let (fits, next) = digit(alloc, graph, &rest, a[i], &divisor)?;
        quotient[i] = fits;
        rest = next;
    }
    Ok((quotient, rest))
}

// One digit of the quotient: the divisor is taken from twice the rest and the low bit, where it fits.
fn digit(
    alloc: Global,
    graph: &mut Graph,
    rest: &[Edge],
    low: Edge,
    divisor: &[Edge],
) -> Result<(Edge, Vec<Edge>), AllocError>
    requires lengths { length rest.now + 1 ≡ length divisor.now }
    requires rest_stand { AllStand graph.old rest.now }
    requires low_stands { Stands graph.old low }
    requires divisor_stand { AllStand graph.old divisor.now }
    ensures extends { Extends graph.old graph.new }
    ensures stands { IfOk result (λ r. Stands graph.new r.0 × AllStand graph.new r.1.items) }
    ensures length { IfOk result (λ r. length r.1.items ≡ length rest.now) }
    ensures value { IfOk result (λ r. (v : ℕ → Bool) → Consistent v graph.new →
        Takes (length rest.now) (number_of v rest.now) (bit (edge_value v low)) (number_of v divisor.now) (bit (edge_value v r.0)) (number_of v r.1.items)) }
{
    let whole = below(alloc, low, rest)?;
    let (difference, fits) = subtract_carry(alloc, graph, &whole, divisor)?;
    let chosen = select(alloc, graph, fits, &difference, &whole)?;
    let kept = Vec::from_slice(alloc, &chosen[..rest.len()])?;
    Ok((fits, kept))
}
