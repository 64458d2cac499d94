//! What is known of systems, and the work that led to it.

use cert_core::Certificate;
use frame_core::BitRun;
use frame_history::Entry;

/// Why it is not known whether a bad state is reached.
#[derive(Clone, Copy, PartialEq, Eq, Debug)]
pub enum Cause {
    /// So many tickets were drawn, of a budget of as many.
    Conflicts { drawn: u64, budget: u64 },
    /// The frames went up to this level, and no bad state is reached in so many steps.
    Frames { frames: u32 },
}

/// What is known of a system.
#[derive(Drop)]
pub enum Answer {
    /// No bad state is reached: this certificate certifies it.
    True(Certificate),
    /// This run leads to a bad state.
    False(BitRun),
    /// It is not known, for this cause.
    Unknown(Cause),
}

/// What was done: the history of the frames that all systems share.
#[derive(Drop)]
pub struct Work {
    /// Each claim and each settlement, in their order.
    pub history: Vec<Entry>,
}

/// An answer for each system, in their order, and the work that led to them.
#[derive(Drop)]
pub struct Done {
    /// One for each system.
    pub answers: Vec<Answer>,
    /// What was done for all of them.
    pub work: Work,
}
