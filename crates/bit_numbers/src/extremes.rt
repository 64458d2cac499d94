//! A choice of integers, the unary `-`, `abs max min`.

ghost use Rattle.std.specs.Prelude.{◌≡◌, ℕ, Bool, IfOk, IfSome, if◌then◌else◌, is_some, length, neg_ℤ, pos, true, unsigned_abs};
ghost use Rattle.bit_graph.specs.Meaning.{Consistent, Stands, edge_value};
ghost use Rattle.bit_graph.specs.Growth.{Extends};
ghost use Rattle.bit_arith.specs.Number.{AllStand, number_of};
ghost use Rattle.smv_value.specs.Results.{is_int, of_integer, of_integers, of_number};
ghost use Rattle.bit_operators.specs.Denoting.{ComputesOne, ComputesTwo, StandsIn, integer_of};
ghost use Rattle.bit_operators.specs.Kinds.{are_discrete, is_discrete, is_numeric};
ghost use Rattle.bit_numbers.specs.Extremes.{extreme};

use bit_arith::{negate, select};
use bit_graph::{Edge, Graph};
use bit_operators::{Symbolic, integer, integer_below, resized, sign, sum_integer};
use smv_value::Arithmetic;
use sqlite_items::Items;
use std::alloc::{AllocError, Global};

/// The integer `a` where the condition is true, else `b`. The only error is running out of memory.
pub fn choose_integer(
    alloc: Global,
    graph: &mut Graph,
    condition: Edge,
    a: &[Edge],
    b: &[Edge],
) -> Result<Vec<Edge>, AllocError>
    requires condition_stands { Stands graph.old condition }
    requires a_stand { AllStand graph.old a.now }
    requires b_stand { AllStand graph.old b.now }
    ensures extends { Extends graph.old graph.new }
    ensures stands { IfOk result (λ r. AllStand graph.new r.items) }
    ensures value { IfOk result (λ r. (v : ℕ → Bool) → Consistent v graph.new →
        integer_of v r.items ≡ (if edge_value v condition then integer_of v a.now else integer_of v b.now)) }
{
    let width = a.len().max(b.len());
    let left = resized(alloc, graph, true, a, width)?;
    let right = resized(alloc, graph, true, b, width)?;
    let chosen = select(alloc, graph, condition, &left, &right)?;
    Ok(chosen)
}

/// `-a`; `None` where `a` is neither a word nor discrete.
pub fn negated(
    alloc: Global,
    graph: &mut Graph,
    a: &Symbolic,
) -> Result<Option<Symbolic>, AllocError>
    requires { StandsIn graph.old a.now }
    ensures extends { Extends graph.old graph.new }
    ensures stands { IfOk result (λ r. IfSome r (λ s. StandsIn graph.new s)) }
    ensures value { IfOk result (λ r. IfSome r (λ s. (v : ℕ → Bool) → Consistent v graph.new → ComputesOne v (of_number neg_ℤ) a.now s)) }
    ensures kinds { IfOk result (λ r. is_some r ≡ is_numeric a.now) }
{
    match a {
        Symbolic::Word { signed, bits } => {
            let opposite = negate(alloc, graph, bits.as_slice())?;
            Ok(Some(Symbolic::Word {
                signed: *signed,
                bits: Items::from_vec(opposite),
            }))
        }
        Symbolic::Discrete(d) => {
            let number = negated_integer(alloc, graph, d.number.as_slice())?;
            Ok(Some(integer(alloc, graph, number)))
        }
        Symbolic::Boolean(_) => Ok(None),
    }
}

fn negated_integer(alloc: Global, graph: &mut Graph, bits: &[Edge]) -> Result<Vec<Edge>, AllocError>
    requires { AllStand graph.old bits.now }
    ensures extends { Extends graph.old graph.new }
    ensures stands { IfOk result (λ r. AllStand graph.new r.items) }
    ensures value { IfOk result (λ r. (v : ℕ → Bool) → Consistent v graph.new → is_int (integer_of v bits.now) ≡ true →
        is_int (neg_ℤ (integer_of v bits.now)) ≡ true → integer_of v r.items ≡ neg_ℤ (integer_of v bits.now)) }
{
    let less = sum_integer(alloc, graph, Arithmetic::Subtract, &[], bits)?;
    Ok(less)
}

/// `abs(a)`; `None` where `a` is not discrete.
pub fn absolute(
    alloc: Global,
    graph: &mut Graph,
    a: &Symbolic,
) -> Result<Option<Symbolic>, AllocError>
    requires { StandsIn graph.old a.now }
    ensures extends { Extends graph.old graph.new }
    ensures stands { IfOk result (λ r. IfSome r (λ s. StandsIn graph.new s)) }
    ensures value { IfOk result (λ r. IfSome r (λ s. (v : ℕ → Bool) → Consistent v graph.new → ComputesOne v (of_integer (λ x. pos (unsigned_abs x))) a.now s)) }
    ensures kinds { IfOk result (λ r. is_some r ≡ is_discrete a.now) }
{
    match a {
        Symbolic::Discrete(d) => {
            let number = absolute_integer(alloc, graph, d.number.as_slice())?;
            Ok(Some(integer(alloc, graph, number)))
        }
        Symbolic::Boolean(_) | Symbolic::Word { .. } => Ok(None),
    }
}

fn absolute_integer(
    alloc: Global,
    graph: &mut Graph,
    bits: &[Edge],
) -> Result<Vec<Edge>, AllocError>
    requires { AllStand graph.old bits.now }
    ensures extends { Extends graph.old graph.new }
    ensures stands { IfOk result (λ r. AllStand graph.new r.items) }
    ensures value { IfOk result (λ r. (v : ℕ → Bool) → Consistent v graph.new → is_int (integer_of v bits.now) ≡ true →
        is_int (pos (unsigned_abs (integer_of v bits.now))) ≡ true → integer_of v r.items ≡ pos (unsigned_abs (integer_of v bits.now))) }
{
    let negative = sign(graph, true, bits);
    let opposite = negated_integer(alloc, graph, bits)?;
    let size = choose_integer(alloc, graph, negative, &opposite, bits)?;
    Ok(size)
}

/// The greater of `a` and `b`, or the lesser; `None` where they are not both discrete.
pub fn extreme(
    alloc: Global,
    graph: &mut Graph,
    greatest: bool,
    a: &Symbolic,
    b: &Symbolic,
) -> Result<Option<Symbolic>, AllocError>
    requires a_stands { StandsIn graph.old a.now }
    requires b_stands { StandsIn graph.old b.now }
    ensures extends { Extends graph.old graph.new }
    ensures stands { IfOk result (λ r. IfSome r (λ s. StandsIn graph.new s)) }
    ensures value { IfOk result (λ r. IfSome r (λ s. (v : ℕ → Bool) → Consistent v graph.new → ComputesTwo v (of_integers (extreme greatest)) a.now b.now s)) }
    ensures kinds { IfOk result (λ r. is_some r ≡ are_discrete a.now b.now) }
{
    match (a, b) {
        (Symbolic::Discrete(x), Symbolic::Discrete(y)) => {
            let number = extreme_integer(
                alloc,
                graph,
                greatest,
                x.number.as_slice(),
                y.number.as_slice(),
            )?;
            Ok(Some(integer(alloc, graph, number)))
        }
        _ => Ok(None),
    }
}

fn extreme_integer(
    alloc: Global,
    graph: &mut Graph,
    greatest: bool,
    a: &[Edge],
    b: &[Edge],
) -> Result<Vec<Edge>, AllocError>
    requires a_stand { AllStand graph.old a.now }
    requires b_stand { AllStand graph.old b.now }
    ensures extends { Extends graph.old graph.new }
    ensures stands { IfOk result (λ r. AllStand graph.new r.items) }
    ensures value { IfOk result (λ r. (v : ℕ → Bool) → Consistent v graph.new → integer_of v r.items ≡ extreme greatest (integer_of v a.now) (integer_of v b.now)) }
{
    let below = integer_below(alloc, graph, b, a)?;
    if greatest {
        let greater = choose_integer(alloc, graph, below, a, b)?;
        Ok(greater)
    } else {
        let lesser = choose_integer(alloc, graph, below, b, a)?;
        Ok(lesser)
    }
}
