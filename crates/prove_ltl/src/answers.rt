//! What is known of a formula, and the work that led to it.

use cert_core::Certificate;
use lasso_search::BitLasso;
use prove_run::Work;

/// Why it is not known whether a lasso violates the formula.
#[derive(Clone, Copy, PartialEq, Eq, Debug)]
pub enum LtlCause {
    /// So many tickets were drawn, of a budget of as many.
    Conflicts {
        drawn: u64,
        budget: u64,
    },
    /// No lasso whose stretch has at most `bound` states violates it, and some run has more than `counter` signals.
    Bound {
        bound: usize,
        counter: usize,
    },
    /// No such lasso violates it; the frames for `counter` signals went up to this level, and no run of so many steps has
    /// more signals.
    Frames {
        bound: usize,
        frames: u32,
        counter: usize,
    },
}

/// What is known of a formula.
#[derive(Drop)]
pub enum LtlAnswer {
    /// No lasso violates it: this certificate shows it, of the system with as many signals counted as it names.
    True(Certificate),
    /// This lasso violates it.
    False(BitLasso),
    /// It is not known, for this cause.
    Unknown(LtlCause),
}

/// An answer, and the histories of the frames for 0, 1, .. signals that led to it.
#[derive(Drop)]
pub struct LtlDone {
    /// What is known of the formula.
    pub answer: LtlAnswer,
    /// The work for each number of signals, from 0 on.
    pub work: Vec<Work>,
}
