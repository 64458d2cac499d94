//! The tests of a trace, and what comes of them.

ghost use Rattle.std.specs.Prelude.{Some};
ghost use Rattle.trace_replay.specs.Tests.{rule_text};

use std::fmt;

/// A test of a trace, in their order. Each prints as its name.
#[derive(Clone, Copy, Debug, PartialEq, Eq)]
pub enum ReplayRule {
    /// The lines have the names of the slots and values of their types, and there are as many as there should be.
    Values,
    /// The first state is an initial state of the program.
    First,
    /// A state has what invariants ask.
    Inv,
    /// There is a step from a state to the next.
    Step,
    /// The trace of an invariant has no loop; that of a temporal specification has one, and there is a step from the
    /// last state to the one where it begins.
    Loop,
    /// A JUSTICE is TRUE in some state of the loop.
    Fair,
    /// The specification is FALSE: an invariant in the last state, a temporal one at the first time.
    Spec,
}

/// What comes of the tests.
#[derive(Clone, Copy, Debug, PartialEq, Eq)]
pub enum Replayed {
    /// Each is passed.
    Accepted,
    /// This is the first that fails, at this number.
    Rejected { rule: ReplayRule, number: usize },
}

impl fmt::Display for ReplayRule {
    ghost output = { λ r. Some (rule_text r) };

    fn fmt<W: fmt::Write>(&self, f: &mut fmt::Formatter<W>) -> fmt::Result {
        match self {
            ReplayRule::Values => write!(f, "values"),
            ReplayRule::First => write!(f, "first"),
            ReplayRule::Inv => write!(f, "inv"),
            ReplayRule::Step => write!(f, "step"),
            ReplayRule::Loop => write!(f, "loop"),
            ReplayRule::Fair => write!(f, "fair"),
            ReplayRule::Spec => write!(f, "spec"),
        }
    }
}
