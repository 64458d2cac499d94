//! What workers own.

use crate::account::Account;
use effort_purse::Seat;
use frame_book::{Claim, ClaimOutcome};
use frame_history::Entry;
use frame_query::FrameSolver;
use shared_history::{Front, Naming};
use std::sync::ledger::Ledger;

/// What a worker owns, or what some own together before they part and after they meet.
#[derive(Drop)]
pub(crate) struct Hand<'a, L: Ledger, J: Naming> {
    pub(crate) seat: Seat,
    pub(crate) account: Account<L>,
    pub(crate) front: Front<Entry, J>,
    pub(crate) solver: Option<FrameSolver<'a>>,
    pub(crate) first: u32,
    pub(crate) parts: u32,
}

/// A claim, and what came of it; nothing where memory was refused.
pub(crate) struct Done<'a> {
    pub(crate) claim: Claim,
    pub(crate) outcome: Option<ClaimOutcome<'a>>,
}
