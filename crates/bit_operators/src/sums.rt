//! `+ - *` and the unary `-`, on words and on integers.

ghost use Rattle.std.specs.Prelude.{◌≡◌, ◌+◌, ◌≤◌, ℕ, Bool, IfOk, IfSome, IsTrue, is_some, length, neg_ℤ, true};
ghost use Rattle.bit_graph.specs.Meaning.{Consistent};
ghost use Rattle.bit_graph.specs.Growth.{Extends};
ghost use Rattle.bit_arith.specs.Number.{AllStand, number_of};
ghost use Rattle.smv_value.specs.Results.{number_of_word, is_int, is_width, low_bits, of_number, of_numbers, sum_of};
ghost use Rattle.bit_operators.specs.Integers.{bounded, sum_rule};
ghost use Rattle.bit_operators.specs.Kinds.{are_numeric};
ghost use Rattle.bit_operators.specs.Denoting.{ComputesOne, ComputesTwo, StandsIn, integer_of};

use crate::constants::integer;
use crate::resizing::resized;
use crate::{Discrete, Symbolic};
use bit_arith::{add, multiply, negate, subtract};
use bit_graph::{Edge, Graph};
use smv_value::Arithmetic;
use sqlite_items::Items;
use std::alloc::{AllocError, Global};

/// `a + b` and so on; `None` where the operands are neither two words of one type nor two discrete values.
pub fn summed(
    alloc: Global,
    graph: &mut Graph,
    o: Arithmetic,
    a: &Symbolic,
    b: &Symbolic,
) -> Result<Option<Symbolic>, AllocError>
    requires a_stands { StandsIn graph.old a.now }
    requires b_stands { StandsIn graph.old b.now }
    ensures extends { Extends graph.old graph.new }
    ensures stands { IfOk result (λ r. IfSome r (λ s. StandsIn graph.new s)) }
    ensures value { IfOk result (λ r. IfSome r (λ s. (v : ℕ → Bool) → Consistent v graph.new → ComputesTwo v (of_numbers (sum_of o)) a.now b.now s)) }
    ensures kinds { IfOk result (λ r. is_some r ≡ are_numeric a.now b.now) }
{
    match (a, b) {
        (
            Symbolic::Word { signed, bits },
            Symbolic::Word {
                signed: other_signed,
                bits: other_bits,
            },
        ) => if signed == other_signed && bits.len() == other_bits.len() {
            let sum = sum_bits(alloc, graph, o, bits.as_slice(), other_bits.as_slice())?;
            Ok(Some(Symbolic::Word {
                signed: *signed,
                bits: Items::from_vec(sum),
            }))
        } else {
            Ok(None)
        },
        (Symbolic::Discrete(x), Symbolic::Discrete(y)) => {
            let sum = sum_integer(alloc, graph, o, x.number.as_slice(), y.number.as_slice())?;
            Ok(Some(integer(alloc, graph, sum)))
        }
        _ => Ok(None),
    }
}

// The low bits, whatever the sign of the words.
fn sum_bits(
    alloc: Global,
    graph: &mut Graph,
    o: Arithmetic,
    a: &[Edge],
    b: &[Edge],
) -> Result<Vec<Edge>, AllocError>
    requires lengths { length a.now ≡ length b.now }
    requires a_stand { AllStand graph.old a.now }
    requires b_stand { AllStand graph.old b.now }
    ensures extends { Extends graph.old graph.new }
    ensures stands { IfOk result (λ r. AllStand graph.new r.items) }
    ensures length { IfOk result (λ r. length r.items ≡ length a.now) }
    ensures value { IfOk result (λ r. (v : ℕ → Bool) (s : Bool) → Consistent v graph.new → is_width (length a.now) ≡ true →
        number_of v r.items ≡ low_bits (length a.now) (sum_of o (number_of_word s (length a.now) (number_of v a.now)) (number_of_word s (length a.now) (number_of v b.now)))) }
{
    match o {
        Arithmetic::Add => {
            let sum = add(alloc, graph, a, b)?;
            Ok(sum)
        }
        Arithmetic::Subtract => {
            let sum = subtract(alloc, graph, a, b)?;
            Ok(sum)
        }
        Arithmetic::Multiply => {
            let sum = multiply(alloc, graph, a, b)?;
            Ok(sum)
        }
    }
}

/// In as many bits as the interval of the sum needs, and at most 32. The only error is running out of memory.
pub fn sum_integer(
    alloc: Global,
    graph: &mut Graph,
    o: Arithmetic,
    a: &[Edge],
    b: &[Edge],
) -> Result<Vec<Edge>, AllocError>
    requires a_stand { AllStand graph.old a.now }
    requires b_stand { AllStand graph.old b.now }
    ensures extends { Extends graph.old graph.new }
    ensures stands { IfOk result (λ r. AllStand graph.new r.items) }
    ensures value { IfOk result (λ r. (v : ℕ → Bool) → Consistent v graph.new → is_int (integer_of v a.now) ≡ true → is_int (integer_of v b.now) ≡ true →
        is_int (sum_of o (integer_of v a.now) (integer_of v b.now)) ≡ true → integer_of v r.items ≡ sum_of o (integer_of v a.now) (integer_of v b.now)) }
{
    let width = sum_width(o, a.len(), b.len());
    let left = resized(alloc, graph, true, a, width)?;
    let right = resized(alloc, graph, true, b, width)?;
    let sum = sum_bits(alloc, graph, o, &left, &right)?;
    Ok(sum)
}

// How many bits hold what integers of so many bits give, and at most 32.
fn sum_width(o: Arithmetic, a: usize, b: usize) -> usize
    ensures { result ≡ bounded (sum_rule o a b) }
{
    let (a, b) = (a.min(32), b.min(32));
    match o {
        Arithmetic::Add | Arithmetic::Subtract => bounded(a.max(b) + 1),
        Arithmetic::Multiply => bounded(a + b),
    }
}

/// One bit at least, and 32 at most.
pub fn bounded(width: usize) -> usize
    ensures { result ≡ bounded width }
{
    width.max(1).min(32)
}
