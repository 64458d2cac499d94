//! What a worker counted of the settlements that it made.

ghost use Rattle.std.specs.Prelude.{◌≡◌, ◌+◌, ◌-◌, ◌^◌, ◌<◌, min};

use std::sync::ledger::{Ledger, Share};

/// A share of the ledger of settlements, and how many settlements it counts. A count past 18446744073709551615 stays
/// there.
#[derive(Drop)]
pub(crate) struct Account<L: Ledger> {
    pub(crate) share: Share<L>,
    pub(crate) settled: u64,
    pub(crate) ghost counted: { settled ≡ min share.amount (2 ^ 64 - 1) },
}

impl<L: Ledger> Account<L> {
    /// An account of a share that counts nothing yet.
    pub(crate) fn new(share: Share<L>) -> Account<L>
        requires { share.amount ≡ 0 }
        ensures { result.share ≡ share }
    {
        Account { share, settled: 0 }
    }

    /// Hands so many parts to an account of their own, with nothing counted.
    pub(crate) fn split_off(&mut self, count: u32) -> Account<L>
        requires { count < self.old.share.parts }
        ensures parts { result.share.parts ≡ count }
        ensures parts_left { self.new.share.parts + count ≡ self.old.share.parts }
    {
        Account {
            share: self.share.split_off(u64::from(count), 0),
            settled: 0,
        }
    }

    /// Takes another account over: its parts, and what it counts.
    pub(crate) fn merge(&mut self, other: Account<L>)
        ensures parts { self.new.share.parts ≡ self.old.share.parts + other.share.parts }
    {
        let Account { share, settled } = other;
        self.share.merge(share);
        self.settled = self.settled.saturating_add(settled);
    }
}
