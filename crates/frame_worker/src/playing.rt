//! Workers play the book, and then their caller alone.

ghost use Rattle.std.specs.Prelude.{◌≡◌, ◌+◌, ◌<◌, ◌^◌, length};
ghost use Rattle.effort_purse.specs.Seats.{IsSeatOf, shares_of, tickets_of};
ghost use Rattle.frame_history.specs.History.{start};
ghost use Rattle.frame_worker.specs.Meeting.{ArePlayed};

use crate::account::Account;
use crate::begun::Begun;
use crate::explorer::Explorer;
use crate::hand::Hand;
use effort_purse::{Seat, SharedPurse};
use frame_history::Entry;
use outside::Gate;
use shared_history::{Front, Naming};
use std::sync::Wait;
use std::sync::ledger::{Ledger, Share};
use std::thread::Threads;
use work_crew::{Crew, fan_out, finish};

/// What is left of those that played: their seat, the history as far as they saw it, and what they counted.
#[derive(Drop)]
pub(crate) struct Played<L: Ledger, J: Naming> {
    pub(crate) seat: Seat,
    pub(crate) front: Front<Entry, J>,
    pub(crate) account: Account<L>,
}

/// So many workers play the book, numbered from 1 on; then the caller, number 0, plays alone what is left.
pub(crate) fn play<
    'a,
    'p,
    L: Ledger + Send + Sync,
    J: Naming + Begun + Send + Sync,
    R: Threads + Wait + Sync,
    G: Gate + Sync,
>(
    rt: &R,
    crew: &Crew<Explorer<'a, 'p, L, J>>,
    mut seat: Seat,
    share: Share<L>,
    front: Front<Entry, J>,
    workers: u32,
    gate: &G,
) -> Played<L, J>
    requires own { IsSeatOf crew.now.craft.purse.now seat }
    requires some { 0 < workers }
    requires few { workers + 1 < 2 ^ 32 }
    requires shares { workers < shares_of seat }
    requires parts { share.parts ≡ workers + 1 }
    requires amount { share.amount ≡ 0 }
    ensures own { IsSeatOf crew.now.craft.purse.now result.seat }
    ensures shares { shares_of result.seat ≡ shares_of seat }
    ensures parts { result.account.share.parts ≡ share.parts }
    ensures played { ArePlayed (start J.limits J.systems J.carried) result.front (length (tickets_of seat)) (length (tickets_of result.seat)) }
{
    let purse = crew.craft.purse;
    let mut account = Account::new(share);
    let theirs = Hand {
        seat: purse.split(&mut seat, u64::from(workers)),
        account: account.split_off(workers),
        front: front.again(),
        solver: None,
        first: 1,
        parts: workers,
    };
    let theirs = left_of(fan_out(rt, crew, theirs, gate));
    purse.join(&mut seat, theirs.seat);
    let own = Hand {
        seat: purse.split(&mut seat, 1),
        account,
        front,
        solver: None,
        first: 0,
        parts: 1,
    };
    let own = left_of(finish(rt, crew, own));
    purse.join(&mut seat, own.seat);
    let mut front = own.front;
    front.unite(&theirs.front);
    let mut account = own.account;
    account.merge(theirs.account);
    Played {
        seat,
        front,
        account,
    }
}

// What is left of a hand.
fn left_of<'a, L: Ledger, J: Naming>(hand: Hand<'a, L, J>) -> Played<L, J>
    ensures seat { result.seat ≡ hand.entry.seat }
    ensures parts { result.account.share.parts ≡ hand.entry.account.share.parts }
    ensures front { result.front ≡ hand.entry.front }
{
    let Hand {
        seat,
        account,
        front,
        solver: _,
        first: _,
        parts: _,
    } = hand;
    Played {
        seat,
        front,
        account,
    }
}
