//! Words made of words: `:: resize signed unsigned word1`.

ghost use Rattle.std.specs.Prelude.{◌≡◌, ◌++◌, ℕ, Bool, IfOk, IfSome, List, is_some, pos};
ghost use Rattle.bit_graph.specs.declared.edge.GraphNode.{GraphNode};
ghost use Rattle.bit_graph.specs.Meaning.{Consistent};
ghost use Rattle.smv_value.specs.declared.value.Value.TheVariants.{Int};
ghost use Rattle.smv_value.specs.Results.{joined, resized, to_word, with_sign};
ghost use Rattle.bit_operators.specs.Denoting.{ComputesOne, ComputesTwo, StandsIn};
ghost use Rattle.bit_operators.specs.Kinds.{has_bits, have_bits, is_boolean};

use crate::Symbolic;
use crate::resizing::resized;
use bit_graph::{Edge, Graph};
use sqlite_items::Items;
use std::alloc::{AllocError, Global};

/// `a :: b`; `None` where they are not two words.
pub fn joined(alloc: Global, a: &Symbolic, b: &Symbolic) -> Result<Option<Symbolic>, AllocError>
    ensures stands { IfOk result (λ r. IfSome r (λ s. (g : List GraphNode) → StandsIn g a.now → StandsIn g b.now → StandsIn g s)) }
    ensures value { IfOk result (λ r. IfSome r (λ s. (v : ℕ → Bool) → ComputesTwo v joined a.now b.now s)) }
    ensures kinds { IfOk result (λ r. is_some r ≡ have_bits a.now b.now) }
{
    match (a, b) {
        (Symbolic::Word { bits: high, .. }, Symbolic::Word { bits: low, .. }) => {
            let bits = above(alloc, low.as_slice(), high.as_slice())?;
            Ok(Some(Symbolic::Word {
                signed: false,
                bits: Items::from_vec(bits),
            }))
        }
        _ => Ok(None),
    }
}

// The bits of the second list above those of the first.
fn above(alloc: Global, low: &[Edge], high: &[Edge]) -> Result<Vec<Edge>, AllocError>
    ensures { IfOk result (λ r. r.items ≡ low.now ++ high.now) }
{
    let mut bits = Vec::from_slice(alloc, low)?;
    bits.extend_from_slice(high)?;
    Ok(bits)
}

/// `resize(a, to)`; `None` where `a` is no word.
pub fn resized_to(
    alloc: Global,
    graph: &Graph,
    a: &Symbolic,
    to: u32,
) -> Result<Option<Symbolic>, AllocError>
    requires { StandsIn graph.now a.now }
    ensures stands { IfOk result (λ r. IfSome r (λ s. StandsIn graph.now s)) }
    ensures value { IfOk result (λ r. IfSome r (λ s. (v : ℕ → Bool) → Consistent v graph.now → ComputesOne v (λ x. resized x (Int (pos to))) a.now s)) }
    ensures kinds { IfOk result (λ r. is_some r ≡ has_bits a.now) }
{
    match a {
        Symbolic::Word { signed, bits } => {
            let other = resized(alloc, graph, *signed, bits.as_slice(), to as usize)?;
            Ok(Some(Symbolic::Word {
                signed: *signed,
                bits: Items::from_vec(other),
            }))
        }
        Symbolic::Boolean(_) | Symbolic::Discrete(_) => Ok(None),
    }
}

/// `signed(a)`, and `unsigned(a)`; `None` where `a` is no word.
pub fn with_sign(alloc: Global, signed: bool, a: &Symbolic) -> Result<Option<Symbolic>, AllocError>
    ensures stands { IfOk result (λ r. IfSome r (λ s. (g : List GraphNode) → StandsIn g a.now → StandsIn g s)) }
    ensures value { IfOk result (λ r. IfSome r (λ s. (v : ℕ → Bool) → ComputesOne v (with_sign signed) a.now s)) }
    ensures kinds { IfOk result (λ r. is_some r ≡ has_bits a.now) }
{
    match a {
        Symbolic::Word { bits, .. } => {
            let bits = Items::from_slice(alloc, bits.as_slice())?;
            Ok(Some(Symbolic::Word { signed, bits }))
        }
        Symbolic::Boolean(_) | Symbolic::Discrete(_) => Ok(None),
    }
}

/// `word1(a)`; `None` where `a` is no boolean.
pub fn to_word(alloc: Global, a: &Symbolic) -> Result<Option<Symbolic>, AllocError>
    ensures stands { IfOk result (λ r. IfSome r (λ s. (g : List GraphNode) → StandsIn g a.now → StandsIn g s)) }
    ensures value { IfOk result (λ r. IfSome r (λ s. (v : ℕ → Bool) → ComputesOne v to_word a.now s)) }
    ensures kinds { IfOk result (λ r. is_some r ≡ is_boolean a.now) }
{
    match a {
        Symbolic::Boolean(e) => {
            let bits = Items::from_slice(alloc, &[*e])?;
            Ok(Some(Symbolic::Word {
                signed: false,
                bits,
            }))
        }
        Symbolic::Word { .. } | Symbolic::Discrete(_) => Ok(None),
    }
}
