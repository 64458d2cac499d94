//! Whether kinds go together, and the kind of what joins them.

ghost use Rattle.std.specs.Prelude.{◌≡◌};
ghost use Rattle.smv_value.specs.Results.{alike};
ghost use Rattle.smv_kinds.specs.Kinds.{boolean_if, both, fit, given, integers_of, is_boolean, is_integer, is_set, joined, kind_if, members_of, set_of, takes};

use crate::intervals::hull_of;
use crate::{Discrete, Interval, Kind, KindRule};

/// Whether what has the second kind may be assigned to what has the first, or sought in it by `in`: both are boolean,
/// words of one type, or discrete, the second perhaps a set.
pub fn takes(a: Kind, b: Kind) -> bool
    ensures { result ≡ takes a b }
{
    fit(a, members_of(b))
}

// What has no kind breaks the rule of kinds.
pub fn given(kind: Kind) -> Result<Kind, KindRule>
    ensures { result ≡ given kind }
{
    match kind {
        Kind::Nothing => Err(KindRule::TypeMismatch),
        Kind::Boolean
        | Kind::Word { .. }
        | Kind::Discrete(_)
        | Kind::BooleanSet
        | Kind::DiscreteSet(_)
        | Kind::Array
        | Kind::Instance => Ok(kind),
    }
}

pub fn kind_if(fits: bool, kind: Kind) -> Kind
    ensures { result ≡ kind_if fits kind }
{
    if fits { kind } else { Kind::Nothing }
}

pub fn boolean_if(fits: bool) -> Kind
    ensures { result ≡ boolean_if fits }
{
    kind_if(fits, Kind::Boolean)
}

// Whether two word types are one.
pub fn alike(signed: bool, width: u32, other_signed: bool, other_width: u32) -> bool
    ensures { result ≡ alike signed width other_signed other_width }
{
    signed == other_signed && width == other_width
}

// The interval of integers alone.
pub fn integers_of(kind: Kind) -> Option<Interval>
    ensures { result ≡ integers_of kind }
{
    match kind {
        Kind::Discrete(discrete) => if discrete.symbols {
            None
        } else {
            discrete.integers
        },
        _ => None,
    }
}

pub fn is_integer(kind: Kind) -> bool
    ensures { result ≡ is_integer kind }
{
    integers_of(kind).is_some()
}

pub fn is_boolean(kind: Kind) -> bool
    ensures { result ≡ is_boolean kind }
{
    match kind {
        Kind::Boolean => true,
        _ => false,
    }
}

pub fn is_set(kind: Kind) -> bool
    ensures { result ≡ is_set kind }
{
    match kind {
        Kind::BooleanSet => true,
        Kind::DiscreteSet(_) => true,
        _ => false,
    }
}

// Whether both are boolean, words of one type, or discrete.
pub fn fit(a: Kind, b: Kind) -> bool
    ensures { result ≡ fit a b }
{
    match (a, b) {
        (Kind::Boolean, Kind::Boolean) => true,
        (
            Kind::Word { signed, width },
            Kind::Word {
                signed: other_signed,
                width: other_width,
            },
        ) => alike(signed, width, other_signed, other_width),
        (Kind::Discrete(_), Kind::Discrete(_)) => true,
        _ => false,
    }
}

// The kind of a set's members.
fn members_of(kind: Kind) -> Kind
    ensures { result ≡ members_of kind }
{
    match kind {
        Kind::BooleanSet => Kind::Boolean,
        Kind::DiscreteSet(discrete) => Kind::Discrete(discrete),
        _ => kind,
    }
}

// The set of values of this kind, or of a set's members.
pub fn set_of(kind: Kind) -> Kind
    ensures { result ≡ set_of kind }
{
    match kind {
        Kind::Boolean => Kind::BooleanSet,
        Kind::BooleanSet => Kind::BooleanSet,
        Kind::Discrete(discrete) => Kind::DiscreteSet(discrete),
        Kind::DiscreteSet(discrete) => Kind::DiscreteSet(discrete),
        _ => Kind::Nothing,
    }
}

// What is of one kind or of the other.
pub fn joined(a: Kind, b: Kind) -> Kind
    ensures { result ≡ joined a b }
{
    match (a, b) {
        (Kind::Boolean, Kind::Boolean) => Kind::Boolean,
        (Kind::Boolean, Kind::BooleanSet) => Kind::BooleanSet,
        (Kind::BooleanSet, Kind::Boolean) => Kind::BooleanSet,
        (Kind::BooleanSet, Kind::BooleanSet) => Kind::BooleanSet,
        (
            Kind::Word { signed, width },
            Kind::Word {
                signed: other_signed,
                width: other_width,
            },
        ) => kind_if(alike(signed, width, other_signed, other_width), a),
        (Kind::Discrete(d), Kind::Discrete(e)) => Kind::Discrete(both(d, e)),
        (Kind::Discrete(d), Kind::DiscreteSet(e)) => Kind::DiscreteSet(both(d, e)),
        (Kind::DiscreteSet(d), Kind::Discrete(e)) => Kind::DiscreteSet(both(d, e)),
        (Kind::DiscreteSet(d), Kind::DiscreteSet(e)) => Kind::DiscreteSet(both(d, e)),
        _ => Kind::Nothing,
    }
}

fn both(a: Discrete, b: Discrete) -> Discrete
    ensures { result ≡ both a b }
{
    Discrete {
        integers: hull_of(a.integers, b.integers),
        symbols: a.symbols || b.symbols,
    }
}
