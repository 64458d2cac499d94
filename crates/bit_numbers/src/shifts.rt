//! Shifts of words: `<<` and `>>`.

ghost use Rattle.std.specs.Prelude.{◌≡◌, ℕ, Bool, IfOk, IfSome, false, is_some, length, pos, true};
ghost use Rattle.bit_graph.specs.Meaning.{Consistent, Denotes, Stands};
ghost use Rattle.bit_graph.specs.Growth.{Extends};
ghost use Rattle.bit_arith.specs.Number.{AllStand, number_of};
ghost use Rattle.smv_value.specs.Results.{number_of_word, is_too_far, is_width, low_bits, moved, natural, shifted};
ghost use Rattle.bit_operators.specs.Denoting.{ComputesUnless, StandsIn, integer_of};
ghost use Rattle.bit_operators.specs.Kinds.{can_shift};
ghost use Rattle.bit_numbers.specs.Shifts.{is_outside};

use crate::comparing::between;
use bit_arith::shift;
use bit_graph::{Edge, Graph};
use bit_operators::{Symbolic, resized, sign};
use bit_values::least_bits;
use smv_value::Shift;
use sqlite_items::Items;
use std::alloc::{AllocError, Global};

/// `a << b` or `a >> b`, and the edge that is true where `b` is negative or past the width of `a`.
///
/// It is `None` where `a` is no word, or `b` neither an unsigned word nor discrete. The only error is running out of
/// memory.
pub fn shifted(
    alloc: Global,
    graph: &mut Graph,
    o: Shift,
    a: &Symbolic,
    b: &Symbolic,
) -> Result<Option<(Symbolic, Edge)>, AllocError>
    requires a_stands { StandsIn graph.old a.now }
    requires b_stands { StandsIn graph.old b.now }
    ensures extends { Extends graph.old graph.new }
    ensures stands { IfOk result (λ r. IfSome r (λ s. StandsIn graph.new s.0 × Stands graph.new s.1)) }
    ensures value { IfOk result (λ r. IfSome r (λ s. (v : ℕ → Bool) → Consistent v graph.new → ComputesUnless v is_too_far (shifted o) a.now b.now s.0 s.1)) }
    ensures kinds { IfOk result (λ r. is_some r ≡ can_shift a.now b.now) }
{
    match (a, b) {
        (
            Symbolic::Word { signed, bits },
            Symbolic::Word {
                signed: false,
                bits: by,
            },
        ) => {
            let amount = without_sign(alloc, graph, by.as_slice())?;
            let far = is_outside(alloc, graph, &amount, bits.as_slice())?;
            let made = moved(alloc, graph, o, *signed, bits.as_slice(), &amount)?;
            let result = Symbolic::Word {
                signed: *signed,
                bits: Items::from_vec(made),
            };
            Ok(Some((result, far)))
        }
        (Symbolic::Word { signed, bits }, Symbolic::Discrete(by)) => {
            let past = is_outside(alloc, graph, by.number.as_slice(), bits.as_slice())?;
            let far = graph.and(by.is_symbol.negation(), past)?;
            let made = moved(
                alloc,
                graph,
                o,
                *signed,
                bits.as_slice(),
                by.number.as_slice(),
            )?;
            let result = Symbolic::Word {
                signed: *signed,
                bits: Items::from_vec(made),
            };
            Ok(Some((result, far)))
        }
        _ => Ok(None),
    }
}

// The integer that the bits count without a sign.
fn without_sign(alloc: Global, graph: &Graph, bits: &[Edge]) -> Result<Vec<Edge>, AllocError>
    requires { AllStand graph.now bits.now }
    ensures stands { IfOk result (λ r. AllStand graph.now r.items) }
    ensures value { IfOk result (λ r. (v : ℕ → Bool) → Consistent v graph.now → integer_of v r.items ≡ pos (number_of v bits.now)) }
{
    let amount = resized(alloc, graph, false, bits, bits.len() + 1)?;
    Ok(amount)
}

// The edge that is true where the integer is negative or past the width of the word.
fn is_outside(
    alloc: Global,
    graph: &mut Graph,
    amount: &[Edge],
    a: &[Edge],
) -> Result<Edge, AllocError>
    requires { AllStand graph.old amount.now }
    ensures extends { Extends graph.old graph.new }
    ensures stands { IfOk result (λ e. Stands graph.new e) }
    ensures value { IfOk result (λ e. Denotes graph.new e (λ v. is_outside (length a.now) (integer_of v amount.now))) }
{
    let within = between(alloc, graph, amount, 0, a.len() as i64)?;
    Ok(within.negation())
}

// The word's bits moved by the integer, where that is none below 0 nor past the width.
fn moved(
    alloc: Global,
    graph: &mut Graph,
    o: Shift,
    signed: bool,
    a: &[Edge],
    amount: &[Edge],
) -> Result<Vec<Edge>, AllocError>
    requires a_stand { AllStand graph.old a.now }
    requires amount_stand { AllStand graph.old amount.now }
    ensures extends { Extends graph.old graph.new }
    ensures stands { IfOk result (λ r. AllStand graph.new r.items) }
    ensures length { IfOk result (λ r. length r.items ≡ length a.now) }
    ensures value { IfOk result (λ r. (v : ℕ → Bool) → Consistent v graph.new → is_width (length a.now) ≡ true → is_outside (length a.now) (integer_of v amount.now) ≡ false →
        number_of v r.items ≡ low_bits (length a.now) (moved o (number_of_word signed (length a.now) (number_of v a.now)) (natural (integer_of v amount.now)))) }
{
    let few = amount.len().min(least_bits(a.len() as u64 + 1));
    match o {
        Shift::Left => {
            let fill = graph.constant(false);
            let made = shift(alloc, graph, a, &amount[..few], true, fill)?;
            Ok(made)
        }
        Shift::Right => {
            let fill = sign(graph, signed, a);
            let made = shift(alloc, graph, a, &amount[..few], false, fill)?;
            Ok(made)
        }
    }
}
