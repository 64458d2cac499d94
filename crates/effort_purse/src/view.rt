//! What a seat knows, for proofs alone. No value of these types is made, but of `Limits`.

use std::collections::LinkedList;

/// The numbers that a seat drew from one word, and whether it found that there are no more.
pub struct Lane {
    pub drawn: LinkedList<u64>,
    pub done: bool,
}

/// What a seat knows: its shares, its tickets and bounds, and whether it raised the stop or saw it.
pub struct View {
    pub shares: u64,
    pub tickets: Lane,
    pub bounds: Lane,
    pub raised: bool,
    pub saw: bool,
}

/// What a shared purse is made with.
#[derive(Clone, Copy)]
pub struct Limits {
    /// How many tickets there are.
    pub budget: u64,
    /// The greatest length.
    pub bounds: u64,
    /// How many shares all seats have together.
    pub seats: u64,
}
