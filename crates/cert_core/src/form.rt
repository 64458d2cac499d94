//! How a certificate is judged, the names of its parts, and the limits of its text.

/// How the steps of a certificate are judged.
#[derive(Clone, Copy, PartialEq, Eq, Debug)]
pub enum Form {
    /// By unit propagation; there are no hints and no shared part.
    Plain,
    /// By their hints; the steps of the shared part are given to each kept part.
    Hinted,
}

/// Which part of a certificate.
#[derive(Clone, Copy, PartialEq, Eq, Debug)]
pub enum Part {
    /// From all clauses and the step clauses follow the steps that the kept parts share.
    Shared,
    /// An initial state meets this clause, counted from 0.
    First(usize),
    /// A step from a state that meets all clauses ends in one that meets this clause, counted from 0.
    Kept(usize),
    /// No bad state meets all clauses.
    Safe,
}

/// A text numbers its variables from 1, and none is past this number.
pub const MAX_VARS: usize = 9223372036854775807;

/// Up to so many signals may be counted.
pub const MAX_COUNTER: usize = 64;
