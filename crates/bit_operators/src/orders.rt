//! The order of words and of integers: `< <= > >=`.

ghost use Rattle.std.specs.Prelude.{◌≡◌, ℕ, Bool, IfOk, IfSome, int_lt, is_some, length};
ghost use Rattle.bit_graph.specs.Meaning.{Consistent, Denotes, Stands};
ghost use Rattle.bit_graph.specs.Growth.{Extends};
ghost use Rattle.bit_arith.specs.Number.{AllStand, number_of};
ghost use Rattle.smv_value.specs.declared.operator.Order.TheVariants.{AtLeast, AtMost, Greater, Less};
ghost use Rattle.smv_value.specs.Results.{number_of_word, ordered};
ghost use Rattle.bit_operators.specs.declared.symbolic.Symbolic.TheVariants.{Boolean};
ghost use Rattle.bit_operators.specs.Denoting.{ComputesTwo, StandsIn, integer_of};
ghost use Rattle.bit_operators.specs.Kinds.{are_numeric};

use crate::Symbolic;
use crate::resizing::resized;
use bit_arith::compare;
use bit_graph::{Edge, Graph};
use smv_value::Order;
use std::alloc::{AllocError, Global};

/// The edge that is true where the values stand so to each other.
///
/// It is `None` where they are neither two words of one type nor two discrete values. The only error is running out of
/// memory.
pub fn ordered(
    alloc: Global,
    graph: &mut Graph,
    o: Order,
    a: &Symbolic,
    b: &Symbolic,
) -> Result<Option<Edge>, AllocError>
    requires a_stands { StandsIn graph.old a.now }
    requires b_stands { StandsIn graph.old b.now }
    ensures extends { Extends graph.old graph.new }
    ensures stands { IfOk result (λ r. IfSome r (λ e. Stands graph.new e)) }
    ensures value { IfOk result (λ r. IfSome r (λ e. (v : ℕ → Bool) → Consistent v graph.new → ComputesTwo v (ordered o) a.now b.now (Boolean e))) }
    ensures kinds { IfOk result (λ r. is_some r ≡ are_numeric a.now b.now) }
{
    match o {
        Order::Less => below(alloc, graph, a, b),
        Order::AtMost => not_below(alloc, graph, b, a),
        Order::Greater => below(alloc, graph, b, a),
        Order::AtLeast => not_below(alloc, graph, a, b),
    }
}

fn below(
    alloc: Global,
    graph: &mut Graph,
    a: &Symbolic,
    b: &Symbolic,
) -> Result<Option<Edge>, AllocError>
    requires a_stands { StandsIn graph.old a.now }
    requires b_stands { StandsIn graph.old b.now }
    ensures extends { Extends graph.old graph.new }
    ensures stands { IfOk result (λ r. IfSome r (λ e. Stands graph.new e)) }
    ensures less { IfOk result (λ r. IfSome r (λ e. (v : ℕ → Bool) → Consistent v graph.new → ComputesTwo v (ordered Less) a.now b.now (Boolean e))) }
    ensures greater { IfOk result (λ r. IfSome r (λ e. (v : ℕ → Bool) → Consistent v graph.new → ComputesTwo v (ordered Greater) b.now a.now (Boolean e))) }
    ensures kinds { IfOk result (λ r. is_some r ≡ are_numeric a.now b.now) }
    ensures kinds_back { IfOk result (λ r. is_some r ≡ are_numeric b.now a.now) }
{
    match (a, b) {
        (
            Symbolic::Word { signed, bits },
            Symbolic::Word {
                signed: other_signed,
                bits: other_bits,
            },
        ) => if signed == other_signed && bits.len() == other_bits.len() {
            let e = word_below(graph, *signed, bits.as_slice(), other_bits.as_slice())?;
            Ok(Some(e))
        } else {
            Ok(None)
        },
        (Symbolic::Discrete(x), Symbolic::Discrete(y)) => {
            let e = integer_below(alloc, graph, x.number.as_slice(), y.number.as_slice())?;
            Ok(Some(e))
        }
        _ => Ok(None),
    }
}

fn not_below(
    alloc: Global,
    graph: &mut Graph,
    a: &Symbolic,
    b: &Symbolic,
) -> Result<Option<Edge>, AllocError>
    requires a_stands { StandsIn graph.old a.now }
    requires b_stands { StandsIn graph.old b.now }
    ensures extends { Extends graph.old graph.new }
    ensures stands { IfOk result (λ r. IfSome r (λ e. Stands graph.new e)) }
    ensures at_least { IfOk result (λ r. IfSome r (λ e. (v : ℕ → Bool) → Consistent v graph.new → ComputesTwo v (ordered AtLeast) a.now b.now (Boolean e))) }
    ensures at_most { IfOk result (λ r. IfSome r (λ e. (v : ℕ → Bool) → Consistent v graph.new → ComputesTwo v (ordered AtMost) b.now a.now (Boolean e))) }
    ensures kinds { IfOk result (λ r. is_some r ≡ are_numeric a.now b.now) }
    ensures kinds_back { IfOk result (λ r. is_some r ≡ are_numeric b.now a.now) }
{
    match below(alloc, graph, a, b)? {
        None => Ok(None),
        Some(e) => Ok(Some(e.negation())),
    }
}

fn word_below(graph: &mut Graph, signed: bool, a: &[Edge], b: &[Edge]) -> Result<Edge, AllocError>
    requires lengths { length a.now ≡ length b.now }
    requires a_stand { AllStand graph.old a.now }
    requires b_stand { AllStand graph.old b.now }
    ensures extends { Extends graph.old graph.new }
    ensures stands { IfOk result (λ e. Stands graph.new e) }
    ensures value { IfOk result (λ e. Denotes graph.new e (λ v. int_lt (number_of_word signed (length a.now) (number_of v a.now)) (number_of_word signed (length a.now) (number_of v b.now)))) }
{
    let (_, less) = compare(graph, a, b, signed)?;
    Ok(less)
}

/// The edge that is true where the first integer is below the second. The only error is running out of memory.
pub fn integer_below(
    alloc: Global,
    graph: &mut Graph,
    a: &[Edge],
    b: &[Edge],
) -> Result<Edge, AllocError>
    requires a_stand { AllStand graph.old a.now }
    requires b_stand { AllStand graph.old b.now }
    ensures extends { Extends graph.old graph.new }
    ensures stands { IfOk result (λ e. Stands graph.new e) }
    ensures value { IfOk result (λ e. Denotes graph.new e (λ v. int_lt (integer_of v a.now) (integer_of v b.now))) }
{
    let width = a.len().max(b.len());
    let left = resized(alloc, graph, true, a, width)?;
    let right = resized(alloc, graph, true, b, width)?;
    let less = word_below(graph, true, &left, &right)?;
    Ok(less)
}
