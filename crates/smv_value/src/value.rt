//! Values, and the rules by which they fault.

/// A value of a variable or an expression (manual 2.1, Types Overview).
#[derive(Clone, Copy, Debug, PartialEq, Eq)]
pub enum Value {
    Bool(bool),
    Int(i64),
    /// The symbol of this number.
    Sym(u32),
    /// A word by its bits, the lowest bit of it being the lowest bit of the number.
    Word {
        signed: bool,
        width: u32,
        bits: u128,
    },
}

/// What a fault is told as.
#[derive(Clone, Copy, Debug, PartialEq, Eq)]
pub enum FaultRule {
    CaseOpen,
    OutOfRange,
    IndexOutside,
    DivisorZero,
    ShiftTooFar,
}
