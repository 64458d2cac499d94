//! The table of the operators.

ghost use Rattle.std.specs.Prelude.{◌≡◌, ◌∷◌, [], ℕ, Bool, IfOk, IfSome, Some, false};
ghost use Rattle.bit_graph.specs.Meaning.{Consistent, Denotes, Stands};
ghost use Rattle.bit_graph.specs.Growth.{Extends};
ghost use Rattle.bit_operators.specs.Denoting.{StandsIn};
ghost use Rattle.bit_numbers.specs.Counts.{AllStandIn};
ghost use Rattle.bit_table.specs.Computing.{Computes, ComputesAlways};

use crate::compared::{difference, equality, order};
use crate::indices::subscript;
use crate::known::{extended_by, resized_by, selected_by, word_of_constants};
use bit_graph::{Edge, Graph};
use bit_numbers::{absolute, divided, extreme, negated, number_of_true, shifted, size, to_boolean};
use bit_operators::{Symbolic, inverted, joined, logical, summed, to_word, with_sign};
use smv_value::Operator;
use std::alloc::{AllocError, Global};

/// What an operator gives of the operands, and the edge that is true where it faults on them.
///
/// The error is running out of memory. It is answered too where the kinds of the operands rule the operator out, and
/// where it gives sets or is temporal. An operand that has to be a constant, and is none, has the same answer. Nothing
/// is promised of these.
pub fn apply(
    alloc: Global,
    graph: &mut Graph,
    operator: Operator,
    operands: &[Symbolic],
) -> Result<(Symbolic, Edge), AllocError>
    requires { AllStandIn graph.old operands.now }
    ensures extends { Extends graph.old graph.new }
    ensures stands { IfOk result (λ r. StandsIn graph.new r.0 × Stands graph.new r.1) }
    ensures value { IfOk result (λ r. (v : ℕ → Bool) → Consistent v graph.new → Computes v operator operands.now r.0 r.1) }
{
    match operator {
        Operator::Division(o) => match operands {
            [a, b] => {
                let made = divided(alloc, graph, o, a, b)?;
                given(made)
            }
            _ => Err(AllocError),
        },
        Operator::Shift(o) => match operands {
            [a, b] => {
                let made = shifted(alloc, graph, o, a, b)?;
                given(made)
            }
            _ => Err(AllocError),
        },
        _ => {
            let made = always(alloc, graph, operator, operands)?;
            without_fault(graph, made)
        }
    }
}

fn given(made: Option<(Symbolic, Edge)>) -> Result<(Symbolic, Edge), AllocError>
    ensures { IfOk result (λ r. made ≡ Some r) }
{
    match made {
        Some(r) => Ok(r),
        None => Err(AllocError),
    }
}

fn without_fault(graph: &Graph, made: Option<Symbolic>) -> Result<(Symbolic, Edge), AllocError>
    ensures made { IfOk result (λ r. made ≡ Some r.0) }
    ensures stands { IfOk result (λ r. Stands graph.now r.1) }
    ensures never { IfOk result (λ r. Denotes graph.now r.1 (λ v. false)) }
{
    match made {
        Some(s) => Ok((s, graph.constant(false))),
        None => Err(AllocError),
    }
}

// The operators that never fault; `None` where the kinds rule them out.
fn always(
    alloc: Global,
    graph: &mut Graph,
    operator: Operator,
    operands: &[Symbolic],
) -> Result<Option<Symbolic>, AllocError>
    requires { AllStandIn graph.old operands.now }
    ensures extends { Extends graph.old graph.new }
    ensures stands { IfOk result (λ r. IfSome r (λ s. StandsIn graph.new s)) }
    ensures value { IfOk result (λ r. IfSome r (λ s. (v : ℕ → Bool) → Consistent v graph.new → ComputesAlways v operator operands.now s)) }
{
    match operator {
        Operator::Count => {
            let made = number_of_true(alloc, graph, operands)?;
            Ok(made)
        }
        _ => match operands {
            [a] => {
                let made = of_one(alloc, graph, operator, a)?;
                Ok(made)
            }
            [a, b] => {
                let made = of_two(alloc, graph, operator, a, b)?;
                Ok(made)
            }
            [a, b, c] => {
                let made = of_three(alloc, graph, operator, a, b, c)?;
                Ok(made)
            }
            _ => Ok(None),
        },
    }
}

fn of_one(
    alloc: Global,
    graph: &mut Graph,
    operator: Operator,
    a: &Symbolic,
) -> Result<Option<Symbolic>, AllocError>
    requires { StandsIn graph.old a.now }
    ensures extends { Extends graph.old graph.new }
    ensures stands { IfOk result (λ r. IfSome r (λ s. StandsIn graph.new s)) }
    ensures value { IfOk result (λ r. IfSome r (λ s. (v : ℕ → Bool) → Consistent v graph.new → ComputesAlways v operator (a.now ∷ []) s)) }
{
    match operator {
        Operator::Not => {
            let made = inverted(alloc, a)?;
            Ok(made)
        }
        Operator::Negate => {
            let made = negated(alloc, graph, a)?;
            Ok(made)
        }
        Operator::Absolute => {
            let made = absolute(alloc, graph, a)?;
            Ok(made)
        }
        Operator::ToWord => {
            let made = to_word(alloc, a)?;
            Ok(made)
        }
        Operator::ToBoolean => {
            let made = to_boolean(alloc, graph, a)?;
            Ok(made)
        }
        Operator::Signed => {
            let made = with_sign(alloc, true, a)?;
            Ok(made)
        }
        Operator::Unsigned => {
            let made = with_sign(alloc, false, a)?;
            Ok(made)
        }
        Operator::Size => {
            let made = size(alloc, graph, a)?;
            Ok(made)
        }
        Operator::Subscript => {
            let made = subscript(alloc, graph, a)?;
            Ok(made)
        }
        _ => Ok(None),
    }
}

fn of_two(
    alloc: Global,
    graph: &mut Graph,
    operator: Operator,
    a: &Symbolic,
    b: &Symbolic,
) -> Result<Option<Symbolic>, AllocError>
    requires a_stands { StandsIn graph.old a.now }
    requires b_stands { StandsIn graph.old b.now }
    ensures extends { Extends graph.old graph.new }
    ensures stands { IfOk result (λ r. IfSome r (λ s. StandsIn graph.new s)) }
    ensures value { IfOk result (λ r. IfSome r (λ s. (v : ℕ → Bool) → Consistent v graph.new → ComputesAlways v operator (a.now ∷ b.now ∷ []) s)) }
{
    match operator {
        Operator::Logic(o) => {
            let made = logical(alloc, graph, o, a, b)?;
            Ok(made)
        }
        Operator::Equal => {
            let made = equality(alloc, graph, a, b)?;
            Ok(made)
        }
        Operator::NotEqual => {
            let made = difference(alloc, graph, a, b)?;
            Ok(made)
        }
        Operator::Order(o) => {
            let made = order(alloc, graph, o, a, b)?;
            Ok(made)
        }
        Operator::Arithmetic(o) => {
            let made = summed(alloc, graph, o, a, b)?;
            Ok(made)
        }
        Operator::Maximum => {
            let made = extreme(alloc, graph, true, a, b)?;
            Ok(made)
        }
        Operator::Minimum => {
            let made = extreme(alloc, graph, false, a, b)?;
            Ok(made)
        }
        _ => {
            let made = of_word(alloc, graph, operator, a, b)?;
            Ok(made)
        }
    }
}

fn of_word(
    alloc: Global,
    graph: &Graph,
    operator: Operator,
    a: &Symbolic,
    b: &Symbolic,
) -> Result<Option<Symbolic>, AllocError>
    requires a_stands { StandsIn graph.now a.now }
    requires b_stands { StandsIn graph.now b.now }
    ensures stands { IfOk result (λ r. IfSome r (λ s. StandsIn graph.now s)) }
    ensures value { IfOk result (λ r. IfSome r (λ s. (v : ℕ → Bool) → Consistent v graph.now → ComputesAlways v operator (a.now ∷ b.now ∷ []) s)) }
{
    match operator {
        Operator::Join => {
            let made = joined(alloc, a, b)?;
            Ok(made)
        }
        Operator::Extend => {
            let made = extended_by(alloc, graph, a, b)?;
            Ok(made)
        }
        Operator::Resize => {
            let made = resized_by(alloc, graph, a, b)?;
            Ok(made)
        }
        Operator::UnsignedConstant => {
            let made = word_of_constants(alloc, graph, false, a, b)?;
            Ok(made)
        }
        Operator::SignedConstant => {
            let made = word_of_constants(alloc, graph, true, a, b)?;
            Ok(made)
        }
        _ => Ok(None),
    }
}

fn of_three(
    alloc: Global,
    graph: &Graph,
    operator: Operator,
    a: &Symbolic,
    b: &Symbolic,
    c: &Symbolic,
) -> Result<Option<Symbolic>, AllocError>
    requires a_stands { StandsIn graph.now a.now }
    requires b_stands { StandsIn graph.now b.now }
    requires c_stands { StandsIn graph.now c.now }
    ensures stands { IfOk result (λ r. IfSome r (λ s. StandsIn graph.now s)) }
    ensures value { IfOk result (λ r. IfSome r (λ s. (v : ℕ → Bool) → Consistent v graph.now → ComputesAlways v operator (a.now ∷ b.now ∷ c.now ∷ []) s)) }
{
    match operator {
        Operator::Select => {
            let made = selected_by(alloc, graph, a, b, c)?;
            Ok(made)
        }
        _ => Ok(None),
    }
}
