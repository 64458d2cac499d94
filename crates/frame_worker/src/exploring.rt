//! Frames are explored by several workers, and what they leave by their caller.

ghost use Rattle.std.specs.Prelude.{◌≡◌, ◌+◌, ◌-◌, ◌^◌, ◌<◌, [], length, min, replicate, IfOk, IfSome};
ghost use Rattle.effort_purse.specs.Seats.{IsSeatOf, budget_of, is_spent, shares_of, tickets_of};
ghost use Rattle.frame_book.specs.Book.{settlements};
ghost use Rattle.frame_worker.specs.Exploring.{IsExplored};

use crate::begun::Begun;
use crate::desk::Desk;
use crate::explored::Met;
use crate::explorer::Explorer;
use crate::meeting::explored_of;
use crate::playing::{Played, play};
use effort_purse::{Seat, SharedPurse};
use frame_book::Book;
use frame_core::Frames;
use frame_history::{Entry, Limits};
use outside::Gate;
use shared_history::{Naming, Opened};
use std::alloc::{AllocError, Global};
use std::marker::{Brand, PhantomData};
use std::sync::ledger::{Blank, Ledger};
use std::sync::{Condvar, Mutex, Wait};
use std::thread::Threads;
use work_crew::Crew;

/// Explores these frames, which have no obligation and tops 0, by so many workers, but by 4294967294 at most.
///
/// The budget is that of the purse. The workers have the numbers from 1 on. They share a book under a lock, and ask for
/// their claims without it, each by a solver of its own. They take turns: one claim is out at a time, and the next is
/// left for a while to the worker who had the last one. Then the caller, number 0, finishes alone what is left. What
/// was drawn was paid for queries of the history's claims, no two of which have one key (`Key` of `frame_claims`).
///
/// The book is dropped in four cases: the history that workers saw is not a beginning of the book's, or an entry of the
/// book could not be added to it; a claim that came to nothing may have been made twice; the book notes that the purse
/// was spent, and the seat knows nothing of that; a claim is still out.
///
/// Each worker counts the settlements that it makes, by a share of one ledger. Their sum, with the caller's, is how
/// many the history has: none was dropped, doubled or invented. (A sum past 18446744073709551615 stays there.) A worker
/// that is refused memory ends alone; that the caller is refused memory, while it finishes too, is the only error.
pub fn explore_together<'a, R: Threads + Wait + Sync, G: Gate + Sync>(
    rt: &R,
    alloc: Global,
    frames: Frames<'a>,
    limits: Limits,
    purse: &SharedPurse,
    budget: u64,
    seat: Seat,
    workers: u32,
    gate: &G,
) -> Result<Met<'a>, AllocError>
    requires obligations { frames.obligations ≡ [] }
    requires tops { frames.tops ≡ replicate (length frames.systems) 0 }
    requires limits { limits.frames + 1 < 2 ^ 32 }
    requires own { IsSeatOf purse.now seat }
    requires budget { budget_of purse.now ≡ budget }
    requires some { 0 < workers }
    requires shares { workers < shares_of seat }
    ensures own { IfOk result (λ m. IsSeatOf purse.now m.seat) }
    ensures shares { IfOk result (λ m. shares_of m.seat ≡ shares_of seat) }
    ensures explored { IfOk result (λ m. IfSome m.explored (λ e. IsExplored frames.entry.systems limits frames.entry.lemmas e.history.items e.frames (length (tickets_of seat)) (length (tickets_of m.seat)) (is_spent m.seat))) }
    ensures settled { IfOk result (λ m. IfSome m.explored (λ e. m.settled ≡ min (settlements e.history.items) (2 ^ 64 - 1))) }
{
    let workers = workers.min(u32::MAX - 1);
    explore_by::<Brand, Brand, R, G>(
        rt,
        alloc,
        Blank::new(u64::from(workers) + 1),
        Opened::new(),
        frames,
        limits,
        purse,
        budget,
        seat,
        workers,
        gate,
    )
}

// The same with a ledger of settlements and a history of these names.
fn explore_by<
    'a,
    L: Ledger + Send + Sync,
    J: Naming + Begun + Send + Sync,
    R: Threads + Wait + Sync,
    G: Gate + Sync,
>(
    rt: &R,
    alloc: Global,
    blank: Blank,
    opened: Opened<Entry>,
    frames: Frames<'a>,
    limits: Limits,
    purse: &SharedPurse,
    budget: u64,
    seat: Seat,
    workers: u32,
    gate: &G,
) -> Result<Met<'a>, AllocError>
    requires name { blank.name ≡ L.name }
    requires parts { blank.parts ≡ L.parts }
    requires each_part { blank.parts ≡ workers + 1 }
    requires line { opened.seen.book ≡ J.line }
    requires systems { J.systems ≡ frames.systems }
    requires at { J.limits ≡ limits }
    requires carried { J.carried ≡ frames.lemmas }
    requires obligations { frames.obligations ≡ [] }
    requires tops { frames.tops ≡ replicate (length frames.systems) 0 }
    requires limits { limits.frames + 1 < 2 ^ 32 }
    requires own { IsSeatOf purse.now seat }
    requires budget { budget_of purse.now ≡ budget }
    requires some { 0 < workers }
    requires few { workers + 1 < 2 ^ 32 }
    requires shares { workers < shares_of seat }
    ensures own { IfOk result (λ m. IsSeatOf purse.now m.seat) }
    ensures shares { IfOk result (λ m. shares_of m.seat ≡ shares_of seat) }
    ensures explored { IfOk result (λ m. IfSome m.explored (λ e. IsExplored J.systems J.limits J.carried e.history.items e.frames (length (tickets_of seat)) (length (tickets_of m.seat)) (is_spent m.seat))) }
    ensures settled { IfOk result (λ m. IfSome m.explored (λ e. m.settled ≡ min (settlements e.history.items) (2 ^ 64 - 1))) }
{
    let (ledger, share) = blank.open::<L>();
    let (line, front) = opened.named::<J>();
    let systems = frames.systems();
    let book = Book::new(alloc, frames, limits, ledger)?;
    let crew = Crew {
        craft: Explorer {
            alloc,
            systems,
            line,
            purse,
            budget,
            of: PhantomData,
        },
        desk: Mutex::new(Desk {
            book,
            front: front.again(),
            broken: false,
            out: 0,
            last: 0,
            passes: 0,
        }),
        moved: Condvar::new(),
    };
    let Played {
        seat,
        front,
        mut account,
    } = play(rt, &crew, seat, share, front, workers, gate);
    let Crew {
        craft: _,
        desk,
        moved: _,
    } = crew;
    let explored = explored_of(alloc, desk.into_inner(), front, &seat, &mut account)?;
    Ok(Met {
        explored,
        seat,
        settled: account.settled,
    })
}
