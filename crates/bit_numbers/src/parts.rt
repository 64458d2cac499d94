//! Parts of words, and words made of constants: `[ : ] extend bool sizeof uwconst swconst`.

ghost use Rattle.std.specs.Prelude.{◌≡◌, ◌+◌, ◌-◌, ◌<◌, ◌≤◌, ◌&&◌, ℕ, Bool, IfOk, IfSome, List, Some, drop, int_le, is_some, length, pos, take};
ghost use Rattle.bit_graph.specs.declared.edge.GraphNode.{GraphNode};
ghost use Rattle.bit_graph.specs.Meaning.{Consistent};
ghost use Rattle.bit_graph.specs.Growth.{Extends};
ghost use Rattle.smv_value.specs.declared.value.Value.{Value};
ghost use Rattle.smv_value.specs.declared.value.Value.TheVariants.{Int};
ghost use Rattle.bit_arith.specs.Number.{AllStand, number_of};
ghost use Rattle.smv_value.specs.Results.{constant_word, number_of_word, extended, low_bits, selected, size, to_boolean};
ghost use Rattle.bit_operators.specs.Denoting.{ComputesOne, StandsIn, denoted};
ghost use Rattle.bit_operators.specs.Kinds.{has_bits, has_bits_from};

use crate::comparing::is_number;
use crate::constants::integer_edges;
use bit_graph::{Edge, Graph};
use bit_operators::{Symbolic, integer, resized};
use sqlite_items::Items;
use std::alloc::{AllocError, Global};

/// `a[high:low]`; `None` where `a` is no word or has no such bits.
pub fn selected(
    alloc: Global,
    a: &Symbolic,
    high: i64,
    low: i64,
) -> Result<Option<Symbolic>, AllocError>
    ensures stands { IfOk result (λ r. IfSome r (λ s. (g : List GraphNode) → StandsIn g a.now → StandsIn g s)) }
    ensures value { IfOk result (λ r. IfSome r (λ s. (v : ℕ → Bool) → ComputesOne v (λ x. selected x (Int high) (Int low)) a.now s)) }
    ensures kinds { IfOk result (λ r. is_some r ≡ has_bits_from high low a.now) }
{
    match a {
        Symbolic::Word { bits, .. } => if 0 <= low && low <= high && high < width(bits.as_slice()) {
            let part = part(alloc, bits.as_slice(), high as usize, low as usize)?;
            Ok(Some(Symbolic::Word {
                signed: false,
                bits: Items::from_vec(part),
            }))
        } else {
            Ok(None)
        },
        Symbolic::Boolean(_) | Symbolic::Discrete(_) => Ok(None),
    }
}

fn width(bits: &[Edge]) -> i64
    ensures { result ≡ pos (length bits.now) }
{
    bits.len() as i64
}

fn part(alloc: Global, bits: &[Edge], high: usize, low: usize) -> Result<Vec<Edge>, AllocError>
    requires order { low ≤ high }
    requires within { high < length bits.now }
    ensures { IfOk result (λ r. r.items ≡ take (high - low + 1) (drop low bits.now)) }
{
    let part = Vec::from_slice(alloc, &bits[low..high + 1])?;
    Ok(part)
}

/// `extend(a, by)`; `None` where `a` is no word, or `by` is none of 0 to 128.
pub fn extended(
    alloc: Global,
    graph: &Graph,
    a: &Symbolic,
    by: i64,
) -> Result<Option<Symbolic>, AllocError>
    requires { StandsIn graph.now a.now }
    ensures stands { IfOk result (λ r. IfSome r (λ s. StandsIn graph.now s)) }
    ensures value { IfOk result (λ r. IfSome r (λ s. (v : ℕ → Bool) → Consistent v graph.now → ComputesOne v (λ x. extended x (Int by)) a.now s)) }
    ensures kinds { IfOk result (λ r. is_some r ≡ (has_bits a.now && (int_le (pos 0) by && int_le by (pos 128)))) }
{
    match a {
        Symbolic::Word { signed, bits } => if 0 <= by && by <= 128 {
            let other = wider(alloc, graph, *signed, bits.as_slice(), by as u8)?;
            Ok(Some(Symbolic::Word {
                signed: *signed,
                bits: Items::from_vec(other),
            }))
        } else {
            Ok(None)
        },
        Symbolic::Boolean(_) | Symbolic::Discrete(_) => Ok(None),
    }
}

// The word in so many bits more.
fn wider(
    alloc: Global,
    graph: &Graph,
    signed: bool,
    bits: &[Edge],
    by: u8,
) -> Result<Vec<Edge>, AllocError>
    requires { AllStand graph.now bits.now }
    ensures stands { IfOk result (λ r. AllStand graph.now r.items) }
    ensures length { IfOk result (λ r. length r.items ≡ length bits.now + by) }
    ensures value { IfOk result (λ r. (v : ℕ → Bool) → Consistent v graph.now →
        number_of v r.items ≡ low_bits (length bits.now + by) (number_of_word signed (length bits.now) (number_of v bits.now))) }
{
    let made = resized(alloc, graph, signed, bits, bits.len() + by as usize)?;
    Ok(made)
}

/// `bool(a)`; `None` where `a` is no word. It is TRUE where the word counts 1.
pub fn to_boolean(
    alloc: Global,
    graph: &mut Graph,
    a: &Symbolic,
) -> Result<Option<Symbolic>, AllocError>
    requires { StandsIn graph.old a.now }
    ensures extends { Extends graph.old graph.new }
    ensures stands { IfOk result (λ r. IfSome r (λ s. StandsIn graph.new s)) }
    ensures value { IfOk result (λ r. IfSome r (λ s. (v : ℕ → Bool) → Consistent v graph.new → ComputesOne v to_boolean a.now s)) }
    ensures kinds { IfOk result (λ r. is_some r ≡ has_bits a.now) }
{
    match a {
        Symbolic::Word { bits, .. } => {
            let one = is_number(alloc, graph, bits.as_slice(), 1)?;
            Ok(Some(Symbolic::Boolean(one)))
        }
        Symbolic::Boolean(_) | Symbolic::Discrete(_) => Ok(None),
    }
}

/// `sizeof(a)`; `None` where `a` is no word.
pub fn size(alloc: Global, graph: &Graph, a: &Symbolic) -> Result<Option<Symbolic>, AllocError>
    ensures stands { IfOk result (λ r. IfSome r (λ s. StandsIn graph.now s)) }
    ensures value { IfOk result (λ r. IfSome r (λ s. (v : ℕ → Bool) → Consistent v graph.now → ComputesOne v size a.now s)) }
    ensures kinds { IfOk result (λ r. is_some r ≡ has_bits a.now) }
{
    match a {
        Symbolic::Word { bits, .. } => {
            let edges = integer_edges(alloc, graph, width(bits.as_slice()))?;
            Ok(Some(integer(alloc, graph, edges)))
        }
        Symbolic::Boolean(_) | Symbolic::Discrete(_) => Ok(None),
    }
}

/// The word of so many bits of the integer; `None` where there is no word of this width.
pub fn constant_word(
    alloc: Global,
    graph: &Graph,
    signed: bool,
    z: i64,
    width: i64,
) -> Result<Option<Symbolic>, AllocError>
    ensures stands { IfOk result (λ r. IfSome r (λ s. StandsIn graph.now s)) }
    ensures value { IfOk result (λ r. IfSome r (λ s. (v : ℕ → Bool) (x : Value) → Consistent v graph.now → constant_word signed (Int z) (Int width) ≡ Some x → denoted v s ≡ Some x)) }
    ensures width { IfOk result (λ r. is_some r ≡ (int_le (pos 1) width && int_le width (pos 128))) }
{
    if 1 <= width && width <= 128 {
        let edges = integer_edges(alloc, graph, z)?;
        let bits = resized(alloc, graph, true, &edges, width as usize)?;
        Ok(Some(Symbolic::Word {
            signed,
            bits: Items::from_vec(bits),
        }))
    } else {
        Ok(None)
    }
}
