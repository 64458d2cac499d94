//! Frames are explored by one worker, who plays a book over them until it is closed.

ghost use Rattle.std.specs.Prelude.{◌≡◌, ◌+◌, ◌^◌, ◌<◌, ℕ, Bool, List, [], length, replicate, IfOk};
ghost use Rattle.frame_history.specs.History.{IsClosed};
ghost use Rattle.frame_query.specs.Findings.{SolverView};
ghost use Rattle.frame_worker.specs.Exploring.{IsExplored};
ghost use Rattle.prove_run.specs.Playing.{IsPlayed};

use crate::playing::{Begun, play};
use effort_purse::Purse;
use frame_book::{Book, Parts};
use frame_core::Frames;
use frame_history::Limits;
use frame_query::FrameSolver;
use frame_worker::Explored;
use outside::Gate;
use std::alloc::{AllocError, Global};
use std::marker::Brand;
use std::sync::Wait;
use std::sync::ledger::{Blank, Ledger, Share};

/// Explores these frames, which have no obligation and tops 0, up to the limit; their lemmas are of use from the start.
///
/// The caller is the one worker, with number 0, who passes the gate before each task. Where the purse was not spent,
/// each system has a verdict, or met the limit. What was drawn was paid for queries of the history's claims, no two of
/// which have one key (`Key` of `frame_claims`). The only error is out of memory.
pub fn explore<'a, R: Wait, Q: Purse, G: Gate>(
    rt: &R,
    alloc: Global,
    frames: Frames<'a>,
    limits: Limits,
    purse: &mut Q,
    gate: &G,
) -> Result<Explored<'a>, AllocError>
    requires obligations { frames.obligations ≡ [] }
    requires tops { frames.tops ≡ replicate (length frames.systems) 0 }
    requires limits { limits.frames + 1 < 2 ^ 32 }
    requires ready { Q.ready purse.old }
    ensures explored { IfOk result (λ e. IsExplored frames.entry.systems limits frames.entry.lemmas e.history.items e.frames (length (Q.tickets purse.old)) (length (Q.tickets purse.new)) (Q.spent purse.new)) }
    ensures kept { Q.kept purse.old purse.new }
    ensures ready { Q.ready purse.new }
    ensures budget { Q.budget purse.new ≡ Q.budget purse.old }
{
    explore_by::<Brand, Brand, R, Q, G>(rt, alloc, Blank::new(1), frames, limits, purse, gate)
}

// The same with a ledger of settlements that one share has.
fn explore_by<'a, L: Ledger, B: Begun, R: Wait, Q: Purse, G: Gate>(
    rt: &R,
    alloc: Global,
    blank: Blank,
    frames: Frames<'a>,
    limits: Limits,
    purse: &mut Q,
    gate: &G,
) -> Result<Explored<'a>, AllocError>
    requires name { blank.name ≡ L.name }
    requires parts { blank.parts ≡ L.parts }
    requires one_part { blank.parts ≡ 1 }
    requires begun { B.before ≡ Q.tickets purse.old }
    requires obligations { frames.obligations ≡ [] }
    requires tops { frames.tops ≡ replicate (length frames.systems) 0 }
    requires limits { limits.frames + 1 < 2 ^ 32 }
    requires ready { Q.ready purse.old }
    ensures explored { IfOk result (λ e. IsExplored frames.entry.systems limits frames.entry.lemmas e.history.items e.frames (length (Q.tickets purse.old)) (length (Q.tickets purse.new)) (Q.spent purse.new)) }
    ensures kept { Q.kept purse.old purse.new }
    ensures ready { Q.ready purse.new }
    ensures budget { Q.budget purse.new ≡ Q.budget purse.old }
{
    let (ledger, share) = blank.open::<L>();
    let solver = solver_of(alloc, &frames)?;
    let book = Book::new(alloc, frames, limits, ledger)?;
    book.holds();
    play_out::<L, B, R, Q, G>(rt, alloc, book, share, solver, purse, gate)
}

// Plays a book until it is closed, and says what it says.
fn play_out<'a, L: Ledger, B: Begun, R: Wait, Q: Purse, G: Gate>(
    rt: &R,
    alloc: Global,
    mut book: Book<'a, L>,
    mut share: Share<L>,
    mut solver: FrameSolver<'a>,
    purse: &mut Q,
    gate: &G,
) -> Result<Explored<'a>, AllocError>
    requires played { IsPlayed B.before book solver (Q.tickets purse.old) (Q.spent purse.old) }
    requires part { 0 < share.parts }
    requires ready { Q.ready purse.old }
    ensures explored { IfOk result (λ e. IsExplored book.entry.systems book.entry.limits book.entry.carried e.history.items e.frames (length B.before) (length (Q.tickets purse.new)) (Q.spent purse.new)) }
    ensures kept { Q.kept purse.old purse.new }
    ensures ready { Q.ready purse.new }
    ensures budget { Q.budget purse.new ≡ Q.budget purse.old }
{
    play::<L, B, R, Q, G>(rt, alloc, &mut book, &mut share, &mut solver, purse, gate)?;
    Ok(close(book))
}

// A solver of the systems of these frames, with no lemma.
fn solver_of<'a>(alloc: Global, frames: &Frames<'a>) -> Result<FrameSolver<'a>, AllocError>
    ensures { IfOk result (λ s. s ≡ record { systems = frames.now.systems; lemmas = []; known = [] }) }
{
    FrameSolver::new(alloc, frames.systems())
}

// What a book that is closed says.
fn close<'a, L: Ledger>(book: Book<'a, L>) -> Explored<'a>
    requires closed { IsClosed book.state }
    ensures explored { (old tickets : List ℕ) (v : SolverView) (over : Bool) → IsPlayed old book.entry v tickets over → IsExplored book.entry.systems book.entry.limits book.entry.carried result.history.items result.frames (length old) (length tickets) over }
{
    let Parts {
        frames,
        history,
        ledger: _,
    } = book.into_parts();
    Explored { frames, history }
}
