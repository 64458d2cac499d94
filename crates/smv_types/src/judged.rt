//! What is noted of the nodes of expressions.

use smv_tree::{Place, Rule};
use whole_numbers::WholeNumber;

/// A rule that is broken, and where.
#[derive(Clone, Copy, Debug)]
pub struct Violation {
    pub rule: Rule,
    pub place: Place,
}

impl Violation {
    ghost use Rattle.std.specs.Prelude.{◌≡◌};

    /// A rule that is broken at a place.
    pub fn new(rule: Rule, place: Place) -> Violation
        ensures { result ≡ record { rule = rule; place = place } }
    {
        Violation { rule, place }
    }
}

/// The bounds of a temporal operator, as constants of any size.
#[derive(Clone, Copy, Debug)]
pub struct WrittenBounds<'c> {
    pub low: &'c WholeNumber,
    pub high: &'c WholeNumber,
}

/// The bounds of a temporal operator that are told.
#[derive(Clone, Copy, Debug)]
pub enum ToldBounds<'c> {
    /// They stand before the formula.
    Written(WrittenBounds<'c>),
    /// The operator has them.
    Kept(u32, u32),
}

/// A rule that is broken where temporal operators may stand.
#[derive(Clone, Copy, Debug)]
pub struct TimedViolation<'c> {
    pub violation: Violation,
    /// The bounds of a temporal operator, where it is they that break the rule.
    pub bounds: Option<ToldBounds<'c>>,
}

/// The first rule that an expression breaks, by where it stands: where a step is spoken of, in what a name stands for
/// there, where a state is spoken of, each without sets and with them; and where a path is spoken of.
#[derive(Clone, Copy, Debug)]
pub struct Notes<'c> {
    pub step: Option<Violation>,
    pub step_set: Option<Violation>,
    pub name: Option<Violation>,
    pub name_set: Option<Violation>,
    pub state: Option<Violation>,
    pub state_set: Option<Violation>,
    pub path: Option<TimedViolation<'c>>,
}

/// What an expression says of the index of an element.
#[derive(Clone, Copy, Debug)]
pub struct Indexing {
    /// It is a part of the choice of an element, by an index that is a constant.
    pub by_constant: bool,
    /// It is an index with which a parameter was given an array, or a part of the choice of an element by one.
    pub passed: bool,
    /// It asks whether an index is an integer.
    pub asked: bool,
    /// It is a constant index of an array that waits for more, and one of its dimension.
    pub within: bool,
}

/// What is noted of an expression.
#[derive(Clone, Copy, Debug)]
pub struct Judged<'c> {
    pub place: Place,
    pub notes: Notes<'c>,
    /// The first rule that it breaks on the left side of an assignment, in what a parameter was given and in indices.
    pub inner: Option<Violation>,
    /// The first rule that it breaks where it is a definition that has an index on a left side.
    pub defined: Option<Violation>,
    pub indexing: Indexing,
    /// It is a temporal operator with its bounds as they are written.
    pub is_window: bool,
    /// It may be assigned by `init`.
    pub takes_init: bool,
    /// It may be assigned otherwise.
    pub takes_later: bool,
}
