//! Comparisons as values.

ghost use Rattle.std.specs.Prelude.{ℕ, Bool, IfOk, IfSome, Some, not};
ghost use Rattle.bit_graph.specs.Meaning.{Consistent};
ghost use Rattle.bit_graph.specs.Growth.{Extends};
ghost use Rattle.smv_value.specs.declared.value.Value.TheVariants as value;
ghost use Rattle.smv_value.specs.Results.{ordered, same};
ghost use Rattle.bit_operators.specs.Denoting.{ComputesTwo, StandsIn};

use bit_choices::equal;
use bit_graph::Graph;
use bit_operators::{Symbolic, ordered};
use smv_value::Order;
use std::alloc::{AllocError, Global};

/// `a = b`; `None` where the kinds rule it out.
pub fn equality(
    alloc: Global,
    graph: &mut Graph,
    a: &Symbolic,
    b: &Symbolic,
) -> Result<Option<Symbolic>, AllocError>
    requires a_stands { StandsIn graph.old a.now }
    requires b_stands { StandsIn graph.old b.now }
    ensures extends { Extends graph.old graph.new }
    ensures stands { IfOk result (λ r. IfSome r (λ s. StandsIn graph.new s)) }
    ensures value { IfOk result (λ r. IfSome r (λ s. (v : ℕ → Bool) → Consistent v graph.new → ComputesTwo v (λ x y. Some (value.Bool (same x y))) a.now b.now s)) }
{
    match equal(alloc, graph, a, b)? {
        Some(e) => Ok(Some(Symbolic::Boolean(e))),
        None => Ok(None),
    }
}

/// `a != b`; `None` where the kinds rule it out.
pub fn difference(
    alloc: Global,
    graph: &mut Graph,
    a: &Symbolic,
    b: &Symbolic,
) -> Result<Option<Symbolic>, AllocError>
    requires a_stands { StandsIn graph.old a.now }
    requires b_stands { StandsIn graph.old b.now }
    ensures extends { Extends graph.old graph.new }
    ensures stands { IfOk result (λ r. IfSome r (λ s. StandsIn graph.new s)) }
    ensures value { IfOk result (λ r. IfSome r (λ s. (v : ℕ → Bool) → Consistent v graph.new → ComputesTwo v (λ x y. Some (value.Bool (not (same x y)))) a.now b.now s)) }
{
    match equal(alloc, graph, a, b)? {
        Some(e) => Ok(Some(Symbolic::Boolean(e.negation()))),
        None => Ok(None),
    }
}

/// `a < b` and so on; `None` where the kinds rule it out.
pub fn order(
    alloc: Global,
    graph: &mut Graph,
    o: Order,
    a: &Symbolic,
    b: &Symbolic,
) -> Result<Option<Symbolic>, AllocError>
    requires a_stands { StandsIn graph.old a.now }
    requires b_stands { StandsIn graph.old b.now }
    ensures extends { Extends graph.old graph.new }
    ensures stands { IfOk result (λ r. IfSome r (λ s. StandsIn graph.new s)) }
    ensures value { IfOk result (λ r. IfSome r (λ s. (v : ℕ → Bool) → Consistent v graph.new → ComputesTwo v (ordered o) a.now b.now s)) }
{
    match ordered(alloc, graph, o, a, b)? {
        Some(e) => Ok(Some(Symbolic::Boolean(e))),
        None => Ok(None),
    }
}
