//! Quotients and remainders: `/` and `mod`.

ghost use Rattle.std.specs.Prelude.{◌≡◌, ◌≢◌, ◌==◌, ℕ, Bool, IfOk, IfSome, Some, false, is_some, length, pos, true};
ghost use Rattle.bit_graph.specs.Meaning.{Consistent, Stands, edge_value};
ghost use Rattle.bit_graph.specs.Growth.{Extends};
ghost use Rattle.bit_arith.specs.Number.{AllStand, number_of};
ghost use Rattle.smv_value.specs.declared.value.Value.{Value};
ghost use Rattle.smv_value.specs.Results.{number_of_word, divided, is_int, is_zero, low_bits, of_numbers};
ghost use Rattle.bit_operators.specs.Integers.{bounded};
ghost use Rattle.bit_numbers.specs.Divisions.{division_rule};
ghost use Rattle.bit_operators.specs.Denoting.{ComputesUnless, DiscreteStands, StandsIn, discrete_value, integer_of};
ghost use Rattle.bit_operators.specs.Kinds.{are_numeric};

use crate::comparing::is_number;
use bit_arith::{divide, remainder};
use bit_graph::{Edge, Graph};
use bit_operators::{Discrete, Symbolic, bounded, integer, resized};
use smv_value::Division;
use sqlite_items::Items;
use std::alloc::{AllocError, Global};

/// `a / b` or `a mod b`, and the edge that is true where `b` is 0.
///
/// It is `None` where the operands are neither two words of one type nor two discrete values. The only error is running
/// out of memory.
pub fn divided(
    alloc: Global,
    graph: &mut Graph,
    o: Division,
    a: &Symbolic,
    b: &Symbolic,
) -> Result<Option<(Symbolic, Edge)>, AllocError>
    requires a_stands { StandsIn graph.old a.now }
    requires b_stands { StandsIn graph.old b.now }
    ensures extends { Extends graph.old graph.new }
    ensures stands { IfOk result (λ r. IfSome r (λ s. StandsIn graph.new s.0 × Stands graph.new s.1)) }
    ensures value { IfOk result (λ r. IfSome r (λ s. (v : ℕ → Bool) → Consistent v graph.new →
        ComputesUnless v (λ x y. is_zero y) (of_numbers (divided o)) a.now b.now s.0 s.1)) }
    ensures kinds { IfOk result (λ r. is_some r ≡ are_numeric a.now b.now) }
{
    match (a, b) {
        (
            Symbolic::Word { signed, bits },
            Symbolic::Word {
                signed: other_signed,
                bits: other_bits,
            },
        ) => if signed == other_signed && bits.len() == other_bits.len() {
            let zero = is_number(alloc, graph, other_bits.as_slice(), 0)?;
            let made = divided_bits(
                alloc,
                graph,
                o,
                *signed,
                bits.as_slice(),
                other_bits.as_slice(),
            )?;
            let result = Symbolic::Word {
                signed: *signed,
                bits: Items::from_vec(made),
            };
            Ok(Some((result, zero)))
        } else {
            Ok(None)
        },
        (Symbolic::Discrete(x), Symbolic::Discrete(y)) => {
            let zero = is_zero(alloc, graph, y)?;
            let made = divided_integer(alloc, graph, o, x.number.as_slice(), y.number.as_slice())?;
            let result = integer(alloc, graph, made);
            Ok(Some((result, zero)))
        }
        _ => Ok(None),
    }
}

fn is_zero(alloc: Global, graph: &mut Graph, d: &Discrete) -> Result<Edge, AllocError>
    requires { DiscreteStands graph.old d.now }
    ensures extends { Extends graph.old graph.new }
    ensures stands { IfOk result (λ e. Stands graph.new e) }
    ensures value { IfOk result (λ e. (v : ℕ → Bool) (x : Value) → Consistent v graph.new → discrete_value v d.now ≡ Some x → edge_value v e ≡ is_zero x) }
{
    let zero = is_number(alloc, graph, d.number.as_slice(), 0)?;
    let both = graph.and(d.is_symbol.negation(), zero)?;
    Ok(both)
}

fn divided_bits(
    alloc: Global,
    graph: &mut Graph,
    o: Division,
    signed: bool,
    a: &[Edge],
    b: &[Edge],
) -> Result<Vec<Edge>, AllocError>
    requires lengths { length a.now ≡ length b.now }
    requires a_stand { AllStand graph.old a.now }
    requires b_stand { AllStand graph.old b.now }
    ensures extends { Extends graph.old graph.new }
    ensures stands { IfOk result (λ r. AllStand graph.new r.items) }
    ensures length { IfOk result (λ r. length r.items ≡ length a.now) }
    ensures value { IfOk result (λ r. (v : ℕ → Bool) → Consistent v graph.new → (number_of v b.now == 0) ≡ false →
        number_of v r.items ≡ low_bits (length a.now) (divided o (number_of_word signed (length a.now) (number_of v a.now)) (number_of_word signed (length a.now) (number_of v b.now)))) }
{
    match o {
        Division::Quotient => {
            let quotient = divide(alloc, graph, a, b, signed)?;
            Ok(quotient)
        }
        Division::Remainder => {
            let rest = remainder(alloc, graph, a, b, signed)?;
            Ok(rest)
        }
    }
}

// In as many bits as the interval of the result needs, and at most 32.
fn divided_integer(
    alloc: Global,
    graph: &mut Graph,
    o: Division,
    a: &[Edge],
    b: &[Edge],
) -> Result<Vec<Edge>, AllocError>
    requires a_stand { AllStand graph.old a.now }
    requires b_stand { AllStand graph.old b.now }
    ensures extends { Extends graph.old graph.new }
    ensures stands { IfOk result (λ r. AllStand graph.new r.items) }
    ensures value { IfOk result (λ r. (v : ℕ → Bool) → Consistent v graph.new → is_int (integer_of v a.now) ≡ true → is_int (integer_of v b.now) ≡ true →
        integer_of v b.now ≢ pos 0 → is_int (divided o (integer_of v a.now) (integer_of v b.now)) ≡ true → integer_of v r.items ≡ divided o (integer_of v a.now) (integer_of v b.now)) }
{
    let width = bounded(a.len().max(b.len()) + 1);
    let left = resized(alloc, graph, true, a, width)?;
    let right = resized(alloc, graph, true, b, width)?;
    let whole = divided_bits(alloc, graph, o, true, &left, &right)?;
    let made = resized(
        alloc,
        graph,
        true,
        &whole,
        result_width(o, a.len(), b.len()),
    )?;
    Ok(made)
}

// How many bits hold the quotient, or the remainder, of integers of so many bits, and at most 32.
fn result_width(o: Division, a: usize, b: usize) -> usize
    ensures { result ≡ bounded (division_rule o a b) }
{
    match o {
        Division::Quotient => bounded(a.min(32) + 1),
        Division::Remainder => bounded(a.min(b)),
    }
}
