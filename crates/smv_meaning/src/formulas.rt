//! Temporal formulas: which operators may stand over a temporal one.

ghost use Rattle.std.specs.Prelude.{◌≡◌};
ghost use Rattle.smv_meaning.specs.Formulas.{is_over_formulas, is_temporal};

use smv_value::Operator;

/// Whether the operator is a temporal one: without bounds, with bounds, or with bounds as they are written.
pub fn is_temporal(operator: Operator) -> bool
    ensures { result ≡ is_temporal operator }
{
    match operator {
        Operator::Temporal(_) => true,
        Operator::Bounded(..) => true,
        Operator::Window(_) => true,
        _ => false,
    }
}

/// Whether a temporal operator may stand under this one, as it may under propositions and temporal operators.
pub fn is_over_formulas(operator: Operator) -> bool
    ensures { result ≡ is_over_formulas operator }
{
    match operator {
        Operator::Not => true,
        Operator::Logic(_) => true,
        _ => is_temporal(operator),
    }
}
