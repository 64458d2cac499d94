//! Sets, branches and arrays.

ghost use Rattle.std.specs.Prelude.{◌≡◌};
ghost use Rattle.std.specs.List.{fold};
ghost use Rattle.smv_kinds.specs.declared.kind.Operand.{Operand};
ghost use Rattle.smv_kinds.specs.Kinds.{branch, chosen, chosen_after, indexed, joined, members, ranged, set_of, subscript, whole_array};

use crate::intervals::hull;
use crate::joining::{integers_of, is_boolean, is_integer, joined, kind_if, set_of};
use crate::{Discrete, Kind, KindRule, Operand};

// `{a, b}`
pub fn members(operands: &[Operand]) -> Kind
    ensures { result ≡ members operands.now }
{
    match operands {
        [] => Kind::Nothing,
        [first, rest @ ..] => members_from(set_of(first.kind), rest),
    }
}

fn members_from(first: Kind, operands: &[Operand]) -> Kind
    ensures { result ≡ fold (λ k (y : Operand). joined k (set_of y.kind)) first operands.now }
{
    let mut kind = first;
    for x in operands {
        kind = joined(kind, set_of(x.kind));
    }
    kind
}

// `a..b`
pub fn ranged(a: Kind, b: Kind) -> Kind
    ensures { result ≡ ranged a b }
{
    match (integers_of(a), integers_of(b)) {
        (Some(i), Some(j)) => Kind::DiscreteSet(Discrete {
            integers: Some(hull(i, j)),
            symbols: false,
        }),
        _ => Kind::Nothing,
    }
}

// `case`, `? :`, and an element of an array
pub fn chosen(operands: &[Operand]) -> Kind
    ensures { result ≡ chosen operands.now }
{
    match operands {
        [condition, first, rest @ ..] => if is_boolean(condition.kind) {
            chosen_after(branch(first.kind), rest)
        } else {
            Kind::Nothing
        },
        _ => Kind::Nothing,
    }
}

// A branch has values.
fn branch(kind: Kind) -> Kind
    ensures { result ≡ branch kind }
{
    match kind {
        Kind::Array => Kind::Nothing,
        Kind::Instance => Kind::Nothing,
        _ => kind,
    }
}

// Conditions and branches by turns, and perhaps a last branch.
fn chosen_after(first: Kind, operands: &[Operand]) -> Kind
    ensures { result ≡ chosen_after first operands.now }
{
    let mut kind = first;
    let mut rest = operands;
    while let [condition, next, more @ ..] = rest {
        if !is_boolean(condition.kind) {
            return Kind::Nothing;
        }
        kind = joined(kind, next.kind);
        rest = more;
    }
    match rest {
        [last] => joined(kind, last.kind),
        _ => kind,
    }
}

// An array without an index.
pub fn whole_array(operands: &[Operand]) -> Result<Kind, KindRule>
    ensures { result ≡ whole_array operands.now }
{
    match operands {
        [] => Ok(Kind::Array),
        _ => Err(KindRule::TypeMismatch),
    }
}

// `a[i]`, as it is written
pub fn indexed(a: Kind, i: Kind) -> Kind
    ensures { result ≡ indexed a i }
{
    match a {
        Kind::Array => kind_if(is_integer(i), Kind::Array),
        _ => Kind::Nothing,
    }
}

// An index.
pub fn subscript(i: Kind) -> Kind
    ensures { result ≡ subscript i }
{
    kind_if(is_integer(i), i)
}
