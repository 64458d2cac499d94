//! What comes of exploring.

use effort_purse::Seat;
use frame_core::Frames;
use frame_history::Entry;

/// Frames that were explored, and the history that led to them.
#[derive(Drop)]
pub struct Explored<'a> {
    /// The frames of the systems.
    pub frames: Frames<'a>,
    /// The entries of the book that led to them.
    pub history: Vec<Entry>,
}

/// What came of exploring by several workers.
#[derive(Drop)]
pub struct Met<'a> {
    /// What was explored; none where the book had to be dropped.
    pub explored: Option<Explored<'a>>,
    /// The seat, with all its shares again.
    pub seat: Seat,
    /// How many claims were settled: the sum of what each worker and the caller counted.
    pub settled: u64,
}
