//! How much is done for a formula.

/// How much is done before an answer is given up.
#[derive(Clone, Copy, Debug)]
pub struct LtlEffort {
    /// How many tickets queries and learned clauses may cost in all.
    pub conflicts: u64,
    /// The greatest level of frames at which bad states are looked for; below 4294967295.
    pub frames: u32,
    /// The greatest number of signals that is counted up to; at most `MAX_COUNTER`.
    pub counter: usize,
    /// The greatest number of states of a lasso that is searched.
    pub bound: usize,
}
