//! Whether the book can be used when all have met, and what it says then.

ghost use Rattle.std.specs.Prelude.{◌≡◌, ◌-◌, ◌^◌, ℕ, true, length, min, IfOk, IfSome};
ghost use Rattle.effort_purse.specs.Seats.{is_spent, tickets_of};
ghost use Rattle.frame_history.specs.History.{start, IsClosed};
ghost use Rattle.frame_book.specs.Book.{IsBook, settlements};
ghost use Rattle.frame_worker.specs.Exploring.{IsExplored};
ghost use Rattle.frame_worker.specs.Meeting.{ArePlayed, IsUsable};

use crate::account::Account;
use crate::begun::Begun;
use crate::desk::Desk;
use crate::explored::Explored;
use effort_purse::{Seat, SharedPurse};
use frame_book::{Book, Claiming, Parts};
use frame_claims::{are_apart, is_unspent};
use frame_history::Entry;
use shared_history::{Front, Naming};
use std::alloc::{AllocError, Global};
use std::sync::ledger::Ledger;

/// What was explored, by workers that have seen so much of the history; none where the book has to be dropped. The only
/// error is out of memory.
pub(crate) fn explored_of<'a, L: Ledger, J: Naming + Begun>(
    alloc: Global,
    desk: Desk<'a, L, J>,
    mut seen: Front<Entry, J>,
    seat: &Seat,
    account: &mut Account<L>,
) -> Result<Option<Explored<'a>>, AllocError>
    requires parts { account.old.share.parts ≡ L.parts }
    ensures settled { IfOk result (λ o. IfSome o (λ e. account.new.settled ≡ min (settlements e.history.items) (2 ^ 64 - 1))) }
    ensures explored { IfOk result (λ o. IfSome o (λ e. (old : ℕ) → ArePlayed (start J.limits J.systems J.carried) seen old (length (tickets_of seat.now)) → IsExplored J.systems J.limits J.carried e.history.items e.frames old (length (tickets_of seat.now)) (is_spent seat.now))) }
{
    let Desk {
        mut book,
        front,
        broken,
        out: _,
        last: _,
        passes: _,
    } = desk;
    if broken || !seen.advance(&front) {
        return Ok(None);
    }
    if !is_usable(alloc, &mut book, seat)? {
        return Ok(None);
    }
    Ok(Some(close(book, account)))
}

// Whether the book is closed, has no two equal claims, and notes that the purse was spent only where the seat knows of
// it.
fn is_usable<'a, L: Ledger>(
    alloc: Global,
    book: &mut Book<'a, L>,
    seat: &Seat,
) -> Result<bool, AllocError>
    ensures { IfOk result (λ yes. yes ≡ true → IsUsable seat.now book.new × (book.new ≡ book.old)) }
{
    book.holds();
    if !are_apart(alloc, book.history())? {
        return Ok(false);
    }
    if !is_unspent(book.history()) && !SharedPurse::seen_spent(seat) {
        return Ok(false);
    }
    is_closed(book)
}

// Whether the book is closed. Where it is not, a claim is still out; or the caller was refused memory as it finished,
// which is an error.
fn is_closed<'a, L: Ledger>(book: &mut Book<'a, L>) -> Result<bool, AllocError>
    ensures { IfOk result (λ yes. yes ≡ true → IsClosed book.new.state × (book.new ≡ book.old)) }
{
    match book.claim(0)? {
        Claiming::Closed => Ok(true),
        Claiming::Idle => Ok(false),
        Claiming::Task(claim) => {
            book.give_back(claim);
            Err(AllocError)
        }
    }
}

// What the book says. The account has each part of the ledger, so it counts all settlements.
fn close<'a, L: Ledger>(book: Book<'a, L>, account: &mut Account<L>) -> Explored<'a>
    requires parts { account.old.share.parts ≡ L.parts }
    ensures settled { account.new.settled ≡ min (settlements book.entry.history) (2 ^ 64 - 1) }
    ensures history { result.history.items ≡ book.entry.history }
    ensures frames { result.frames ≡ book.entry.state.frames }
    ensures kept { IsBook book.entry }
{
    let Parts {
        frames,
        history,
        mut ledger,
    } = book.into_parts();
    ledger.audit(&mut account.share);
    Explored { frames, history }
}
