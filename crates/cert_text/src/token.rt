//! The words of a certificate line: keywords and numbers.

/// A word of a certificate's line.
#[derive(Clone, Copy, PartialEq, Eq, Debug)]
pub enum Token {
    /// `--%`, with which each line begins.
    Mark,
    /// `cert`
    Cert,
    /// `spec`
    Spec,
    /// `counter`
    Counter,
    /// `none`
    NoCounter,
    /// `sound`
    Sound,
    /// `clause`
    Clause,
    /// `part`
    Part,
    /// `item`
    Item,
    /// `shared`
    Shared,
    /// `first`
    First,
    /// `kept`
    Kept,
    /// `safe`
    Safe,
    /// `step`
    Step,
    /// `end`
    End,
    /// A number of 64 bits.
    Number(usize),
    /// A number past 64 bits.
    Past,
    /// A number of 64 bits other than 0 behind a minus sign.
    Negative(usize),
}
