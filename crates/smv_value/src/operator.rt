//! Operators, in the groups that ask the same of their operands.

use crate::FaultRule;

/// `& | xor xnor -> <->`
#[derive(Clone, Copy, Debug)]
pub enum Logic {
    And,
    Or,
    Xor,
    Xnor,
    Implies,
    Iff,
}

/// `< <= > >=`
#[derive(Clone, Copy, Debug)]
pub enum Order {
    Less,
    AtMost,
    Greater,
    AtLeast,
}

/// `+ - *`
#[derive(Clone, Copy, Debug)]
pub enum Arithmetic {
    Add,
    Subtract,
    Multiply,
}

/// `/ mod`
#[derive(Clone, Copy, Debug)]
pub enum Division {
    Quotient,
    Remainder,
}

/// `<< >>`
#[derive(Clone, Copy, Debug)]
pub enum Shift {
    Left,
    Right,
}

/// `X F G Y Z O H`, which have one operand, and `U V S T`, which have two.
#[derive(Clone, Copy, Debug)]
pub enum Temporal {
    Next,
    Finally,
    Globally,
    Previously,
    WeaklyPreviously,
    Once,
    Historically,
    Until,
    Releases,
    Since,
    Triggered,
}

/// `F G O H` with bounds.
#[derive(Clone, Copy, Debug)]
pub enum Bounded {
    Finally,
    Globally,
    Once,
    Historically,
}

/// What is done to operands.
#[derive(Clone, Copy, Debug)]
pub enum Operator {
    /// `!`
    Not,
    Logic(Logic),
    Equal,
    NotEqual,
    Order(Order),
    /// The unary `-`.
    Negate,
    Arithmetic(Arithmetic),
    Division(Division),
    Absolute,
    Maximum,
    Minimum,
    Count,
    Shift(Shift),
    /// `a :: b`
    Join,
    /// `w[h:l]`
    Select,
    /// `a[i]`, as it is written.
    Index,
    /// An array without an index, over no operand.
    WholeArray,
    /// An index: the integer that it is.
    Subscript,
    /// `{a, b}`
    Members,
    Union,
    /// `a..b`
    Range,
    In,
    /// Conditions and branches by turns, and perhaps a last branch without a condition: `case`, `? :`, and an element
    /// of an array by its index. Where no condition is TRUE it faults by this rule.
    Choice(FaultRule),
    /// `word1`
    ToWord,
    /// `bool`
    ToBoolean,
    Signed,
    Unsigned,
    Extend,
    Resize,
    Size,
    /// `uwconst`
    UnsignedConstant,
    /// `swconst`
    SignedConstant,
    Temporal(Temporal),
    /// `F [a, b]`, and so on, with the bounds.
    Bounded(Bounded, u32, u32),
    /// The same as it is written: over the bounds and the formula.
    Window(Bounded),
}
