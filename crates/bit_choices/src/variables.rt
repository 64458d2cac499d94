//! The value of a variable's bits.

ghost use Rattle.std.specs.Prelude.{◌≡◌, ℕ, Bool, IfOk, IsTrue, Some, int_le, length, pos, true, ◌+ℤ◌};
ghost use Rattle.bit_graph.specs.Meaning.{Consistent};
ghost use Rattle.bit_graph.specs.Growth.{Extends};
ghost use Rattle.bit_arith.specs.Number.{AllStand, number_of};
ghost use Rattle.smv_value.specs.declared.value.Value.{Value};
ghost use Rattle.value_types.specs.Types.{is_type};
ghost use Rattle.value_types.specs.Codes.{value_at};
ghost use Rattle.bit_values.specs.Bits.{width_of};
ghost use Rattle.bit_operators.specs.Denoting.{StandsIn, denoted, integer_of};

use crate::enumerations::enumeration;
use bit_arith::add;
use bit_graph::{Edge, Graph};
use bit_numbers::{integer_edges, integer_width};
use bit_operators::{Symbolic, integer, resized};
use sqlite_items::Items;
use std::alloc::{AllocError, Global};
use value_types::ValueType;

/// The value of a variable of this type that has these bits, where they are those of a value. The only error is running
/// out of memory.
///
/// A range that begins at 0 has no gate, nor has an enumeration of symbols alone, or of 0, 1 and so on.
pub fn variable(
    alloc: Global,
    graph: &mut Graph,
    declared: &ValueType,
    bits: &[Edge],
) -> Result<Symbolic, AllocError>
    requires declared { IsTrue (is_type declared.now) }
    requires width { length bits.now ≡ width_of declared.now }
    requires bits_stand { AllStand graph.old bits.now }
    ensures extends { Extends graph.old graph.new }
    ensures stands { IfOk result (λ s. StandsIn graph.new s) }
    ensures value { IfOk result (λ s. (v : ℕ → Bool) (x : Value) → Consistent v graph.new → value_at declared.now (number_of v bits.now) ≡ Some x → denoted v s ≡ Some x) }
{
    match declared {
        ValueType::Boolean => Ok(Symbolic::Boolean(bits[0])),
        ValueType::Word { signed, .. } => {
            let copy = Items::from_slice(alloc, bits)?;
            Ok(Symbolic::Word {
                signed: *signed,
                bits: copy,
            })
        }
        ValueType::Range { low, high } => {
            let number = in_range(alloc, graph, i64::from(*low), i64::from(*high), bits)?;
            Ok(integer(alloc, graph, number))
        }
        ValueType::Enumeration(elements) => {
            let d = enumeration(alloc, graph, elements.as_slice(), bits)?;
            Ok(Symbolic::Discrete(d))
        }
    }
}

/// The integer that is so far above `low`, where that is at most `high`. The only error is running out of memory.
pub fn in_range(
    alloc: Global,
    graph: &mut Graph,
    low: i64,
    high: i64,
    bits: &[Edge],
) -> Result<Vec<Edge>, AllocError>
    requires { AllStand graph.old bits.now }
    ensures extends { Extends graph.old graph.new }
    ensures stands { IfOk result (λ r. AllStand graph.new r.items) }
    ensures value { IfOk result (λ r. (v : ℕ → Bool) → Consistent v graph.new → int_le (low +ℤ pos (number_of v bits.now)) high ≡ true →
        integer_of v r.items ≡ low +ℤ pos (number_of v bits.now)) }
{
    if is_zero(low) {
        let number = resized(alloc, graph, false, bits, bits.len() + 1)?;
        Ok(number)
    } else {
        let sum = above(alloc, graph, low, high, bits)?;
        Ok(sum)
    }
}

fn is_zero(z: i64) -> bool
    ensures { IsTrue result → z ≡ pos 0 }
{
    z == 0
}

fn above(
    alloc: Global,
    graph: &mut Graph,
    low: i64,
    high: i64,
    bits: &[Edge],
) -> Result<Vec<Edge>, AllocError>
    requires { AllStand graph.old bits.now }
    ensures extends { Extends graph.old graph.new }
    ensures stands { IfOk result (λ r. AllStand graph.new r.items) }
    ensures value { IfOk result (λ r. (v : ℕ → Bool) → Consistent v graph.new → int_le (low +ℤ pos (number_of v bits.now)) high ≡ true →
        integer_of v r.items ≡ low +ℤ pos (number_of v bits.now)) }
{
    let width = integer_width(low).max(integer_width(high));
    let start = integer_edges(alloc, graph, low)?;
    let left = resized(alloc, graph, true, &start, width)?;
    let right = resized(alloc, graph, false, bits, width)?;
    let sum = add(alloc, graph, &left, &right)?;
    Ok(sum)
}
