//! Where sets may stand.

ghost use Rattle.std.specs.Prelude.{◌≡◌};
ghost use Rattle.smv_kinds.specs.Contexts.{kind_in_context, makes_set, takes_sets};

use crate::{Kind, KindRule, Operand, kind_given};
use smv_value::Operator;

/// The kind that an operator gives of operands of these kinds, where a set may stand or not. The error is the first
/// rule that is broken: that a set stands where none may, or what `kind_given` says.
pub fn kind_in_context(
    sets: bool,
    operator: Operator,
    operands: &[Operand],
) -> Result<Kind, KindRule>
    ensures { result ≡ kind_in_context sets operator operands.now }
{
    if !sets && makes_set(operator) {
        Err(KindRule::SetHere)
    } else {
        kind_given(operator, operands)
    }
}

/// Whether a set may stand as an operator's operand of this number, counted from 0. `sets` says whether one may stand
/// around the operator. On the right of `in` it always may.
pub fn takes_sets(operator: Operator, operand: usize, sets: bool) -> bool
    ensures { result ≡ takes_sets operator operand sets }
{
    match operator {
        Operator::In => sets || operand == 1,
        _ => sets,
    }
}

// Whether the operator makes a set of its operands.
fn makes_set(operator: Operator) -> bool
    ensures { result ≡ makes_set operator }
{
    match operator {
        Operator::Members => true,
        Operator::Union => true,
        Operator::Range => true,
        _ => false,
    }
}
