//! Operators some of whose operands have to be constants.

ghost use Rattle.std.specs.Prelude.{ℕ, Bool, IfOk, IfSome};
ghost use Rattle.bit_graph.specs.Meaning.{Consistent};
ghost use Rattle.smv_value.specs.declared.value.Value.TheVariants.{Int};
ghost use Rattle.smv_value.specs.Results.{constant_word, extended, resized, selected};
ghost use Rattle.bit_operators.specs.Denoting.{ComputesOne, ComputesTwo, StandsIn};
ghost use Rattle.bit_table.specs.Computing.{ComputesThree};

use bit_graph::Graph;
use bit_numbers::{constant_word, extended, known_integer, selected};
use bit_operators::{Symbolic, resized_to};
use std::alloc::{AllocError, Global};

/// `a[high:low]`; `None` where the bounds are no constants, or `a` is no word that has these bits.
pub fn selected_by(
    alloc: Global,
    graph: &Graph,
    a: &Symbolic,
    high: &Symbolic,
    low: &Symbolic,
) -> Result<Option<Symbolic>, AllocError>
    requires a_stands { StandsIn graph.now a.now }
    requires high_stands { StandsIn graph.now high.now }
    requires low_stands { StandsIn graph.now low.now }
    ensures stands { IfOk result (λ r. IfSome r (λ s. StandsIn graph.now s)) }
    ensures value { IfOk result (λ r. IfSome r (λ s. (v : ℕ → Bool) → Consistent v graph.now → ComputesThree v selected a.now high.now low.now s)) }
{
    match known_integer(graph, high) {
        Some(top) => {
            let part = selected_from(alloc, graph, a, top, low)?;
            Ok(part)
        }
        None => Ok(None),
    }
}

fn selected_from(
    alloc: Global,
    graph: &Graph,
    a: &Symbolic,
    top: i64,
    low: &Symbolic,
) -> Result<Option<Symbolic>, AllocError>
    requires a_stands { StandsIn graph.now a.now }
    requires low_stands { StandsIn graph.now low.now }
    ensures stands { IfOk result (λ r. IfSome r (λ s. StandsIn graph.now s)) }
    ensures value { IfOk result (λ r. IfSome r (λ s. (v : ℕ → Bool) → Consistent v graph.now → ComputesTwo v (λ x y. selected x (Int top) y) a.now low.now s)) }
{
    match known_integer(graph, low) {
        Some(bottom) => {
            let part = selected(alloc, a, top, bottom)?;
            Ok(part)
        }
        None => Ok(None),
    }
}

/// `extend(a, by)`; `None` where `by` is no constant, or `a` is no word.
pub fn extended_by(
    alloc: Global,
    graph: &Graph,
    a: &Symbolic,
    by: &Symbolic,
) -> Result<Option<Symbolic>, AllocError>
    requires a_stands { StandsIn graph.now a.now }
    requires by_stands { StandsIn graph.now by.now }
    ensures stands { IfOk result (λ r. IfSome r (λ s. StandsIn graph.now s)) }
    ensures value { IfOk result (λ r. IfSome r (λ s. (v : ℕ → Bool) → Consistent v graph.now → ComputesTwo v extended a.now by.now s)) }
{
    match known_integer(graph, by) {
        Some(more) => {
            let other = extended(alloc, graph, a, more)?;
            Ok(other)
        }
        None => Ok(None),
    }
}

/// `resize(a, to)`; `None` where `to` is no constant from 1 to 128, or `a` is no word.
pub fn resized_by(
    alloc: Global,
    graph: &Graph,
    a: &Symbolic,
    to: &Symbolic,
) -> Result<Option<Symbolic>, AllocError>
    requires a_stands { StandsIn graph.now a.now }
    requires to_stands { StandsIn graph.now to.now }
    ensures stands { IfOk result (λ r. IfSome r (λ s. StandsIn graph.now s)) }
    ensures value { IfOk result (λ r. IfSome r (λ s. (v : ℕ → Bool) → Consistent v graph.now → ComputesTwo v resized a.now to.now s)) }
{
    match known_integer(graph, to) {
        Some(width) => {
            let other = in_width(alloc, graph, a, width)?;
            Ok(other)
        }
        None => Ok(None),
    }
}

fn in_width(
    alloc: Global,
    graph: &Graph,
    a: &Symbolic,
    width: i64,
) -> Result<Option<Symbolic>, AllocError>
    requires { StandsIn graph.now a.now }
    ensures stands { IfOk result (λ r. IfSome r (λ s. StandsIn graph.now s)) }
    ensures value { IfOk result (λ r. IfSome r (λ s. (v : ℕ → Bool) → Consistent v graph.now → ComputesOne v (λ x. resized x (Int width)) a.now s)) }
{
    if 1 <= width && width <= 128 {
        let other = resized_to(alloc, graph, a, width as u32)?;
        Ok(other)
    } else {
        Ok(None)
    }
}

/// `uwconst(z, width)` and `swconst(z, width)`; `None` where they are no constants.
pub fn word_of_constants(
    alloc: Global,
    graph: &Graph,
    signed: bool,
    z: &Symbolic,
    width: &Symbolic,
) -> Result<Option<Symbolic>, AllocError>
    requires z_stands { StandsIn graph.now z.now }
    requires width_stands { StandsIn graph.now width.now }
    ensures stands { IfOk result (λ r. IfSome r (λ s. StandsIn graph.now s)) }
    ensures value { IfOk result (λ r. IfSome r (λ s. (v : ℕ → Bool) → Consistent v graph.now → ComputesTwo v (constant_word signed) z.now width.now s)) }
{
    match known_integer(graph, width) {
        Some(bits) => {
            let word = word_of(alloc, graph, signed, z, bits)?;
            Ok(word)
        }
        None => Ok(None),
    }
}

fn word_of(
    alloc: Global,
    graph: &Graph,
    signed: bool,
    z: &Symbolic,
    width: i64,
) -> Result<Option<Symbolic>, AllocError>
    requires { StandsIn graph.now z.now }
    ensures stands { IfOk result (λ r. IfSome r (λ s. StandsIn graph.now s)) }
    ensures value { IfOk result (λ r. IfSome r (λ s. (v : ℕ → Bool) → Consistent v graph.now → ComputesOne v (λ x. constant_word signed x (Int width)) z.now s)) }
{
    match known_integer(graph, z) {
        Some(number) => {
            let word = constant_word(alloc, graph, signed, number, width)?;
            Ok(word)
        }
        None => Ok(None),
    }
}
