//! What a purse answers: a ticket or a length, or that there are no more.

/// What a call of `Purse::draw` gave.
#[derive(Clone, Copy, Debug, Drop)]
pub enum Draw {
    /// The ticket of this number, which is below the budget.
    Ticket(u64),
    /// The budget is used up: `drawn` tickets of `budget`, two equal numbers.
    Spent { drawn: u64, budget: u64 },
}

/// What a call of `SharedPurse::next_bound` gave.
#[derive(Clone, Copy, Debug, Drop)]
pub enum NextBound {
    /// This length, from 1 to the purse's bounds.
    Bound(u64),
    /// Every length was given; `bounds` is the greatest.
    NoMore { bounds: u64 },
}
