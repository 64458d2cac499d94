//! The outcome of a search for a fair lasso of one length.

use crate::lasso::BitLasso;

/// What a search for a lasso of some length gives.
#[derive(Drop)]
pub enum Searched {
    /// This is a fair lasso of that length.
    Found(BitLasso),
    /// There is no fair lasso of that length.
    None,
    /// The purse was spent before it was known: `drawn` tickets of `budget`, two equal numbers.
    Spent { drawn: u64, budget: u64 },
}
