//! Partial assignments: one byte for each variable, 0 for unset, 1 for true and 2 for false.

ghost use Rattle.std.specs.Prelude.{◌≡◌, ◌<◌, length, slice_set};
ghost use Rattle.clause_core.specs.Literals.{negate};
ghost use Rattle.clause_core.specs.Values.{code, holds};

use crate::literal::Lit;

/// Whether the literal is set true.
pub fn is_set(values: &[u8], l: Lit) -> bool
    requires { l.var < length values.now }
    ensures { result ≡ holds values.now l }
{
    let wanted = if l.positive { 1 } else { 2 };
    values[l.var] == wanted
}

/// Whether the literal is set false.
pub fn is_false(values: &[u8], l: Lit) -> bool
    requires { l.var < length values.now }
    ensures { result ≡ holds values.now (negate l) }
{
    let wanted = if l.positive { 2 } else { 1 };
    values[l.var] == wanted
}

/// Sets the literal true.
pub fn set(values: &mut [u8], l: Lit)
    requires { l.var < length values.old }
    ensures { values.new ≡ slice_set values.old l.var (code l.positive) }
{
    values[l.var] = if l.positive { 1 } else { 2 };
}
