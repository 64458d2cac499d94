//! Kinds, and what operators are told of their operands.

ghost use Rattle.std.specs.Prelude.{◌≡◌};
ghost use Rattle.smv_kinds.specs.Kinds.{kind_of_integer, kind_of_value};

use smv_value::Value;

/// The integers from `low` to `high`, both among them. An interval that passes 32 bits belongs to no kind.
#[derive(Clone, Copy, Debug, PartialEq, Eq)]
pub struct Interval {
    pub low: i32,
    pub high: i32,
}

/// What a discrete expression may be: an integer of an interval, and perhaps a symbol.
#[derive(Clone, Copy, Debug, PartialEq, Eq)]
pub struct Discrete {
    pub integers: Option<Interval>,
    pub symbols: bool,
}

/// What values an expression has.
#[derive(Clone, Copy, Debug, PartialEq, Eq)]
pub enum Kind {
    Boolean,
    Word { signed: bool, width: u32 },
    Discrete(Discrete),
    /// A set of booleans.
    BooleanSet,
    /// A set of integers and symbols.
    DiscreteSet(Discrete),
    /// An array, or a part of one: what has elements and no value.
    Array,
    Instance,
    /// The kind of what has none.
    Nothing,
}

/// What an operator is told of an operand: its kind, and its value where it is a constant integer.
#[derive(Clone, Copy, Debug)]
pub struct Operand {
    pub kind: Kind,
    pub constant: Option<i64>,
}

/// A rule that operands break, in the order in which the rules are told.
#[derive(Clone, Copy, Debug, PartialEq, Eq)]
pub enum KindRule {
    /// A set stands where none may.
    SetHere,
    /// An operand is of another kind, or there are more or fewer operands.
    TypeMismatch,
    /// A word is as wide as no word is, a signed one loses bits, or a constant is outside its word's range.
    WordWidth,
    /// What is no constant stands where one is asked.
    NotConstant,
    /// Bits are taken that a word does not have, or an element that an array does not have.
    BadSelection,
    /// Integers pass 32 bits.
    IntWidth,
    /// The bounds of a temporal operator are out of order, negative or too large.
    BadBound,
}

/// The kind of what has this one value.
pub fn kind_of_value(value: Value) -> Kind
    ensures { result ≡ kind_of_value value }
{
    match value {
        Value::Bool(_) => Kind::Boolean,
        Value::Int(z) => kind_of_integer(z),
        Value::Sym(_) => Kind::Discrete(Discrete {
            integers: None,
            symbols: true,
        }),
        Value::Word { signed, width, .. } => Kind::Word { signed, width },
    }
}

fn kind_of_integer(z: i64) -> Kind
    ensures { result ≡ kind_of_integer z }
{
    if -2147483648 <= z && z <= 2147483647 {
        let only = z as i32;
        Kind::Discrete(Discrete {
            integers: Some(Interval {
                low: only,
                high: only,
            }),
            symbols: false,
        })
    } else {
        Kind::Nothing
    }
}
