//! How much is done.

/// How much is done before an answer is given up.
#[derive(Clone, Copy, Debug)]
pub struct Effort {
    /// How many tickets queries and learned clauses may cost in all.
    pub conflicts: u64,
    /// The greatest level of frames at which bad states are looked for; below 4294967295.
    pub frames: u32,
}
