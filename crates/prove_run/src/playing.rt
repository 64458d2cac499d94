//! One worker plays the book alone: it claims a task, asks for it, and settles what it found, until the book is closed.

ghost use Rattle.std.specs.Prelude.{◌≡◌, ◌<◌, false, OnOk, IfOk};
ghost use Rattle.frame_claims.specs.Outcomes.{IsAsked, PaysClaim};
ghost use Rattle.frame_history.specs.History.{IsClosed};
ghost use Rattle.frame_query.specs.Findings.{IsOlder};
ghost use Rattle.frame_book.specs.Book.{IsBook};
ghost use Rattle.frame_book.specs.Claims.{IsOutHere};
ghost use Rattle.frame_book.specs.Outcomes.{IsOutcomeOf};
ghost use Rattle.prove_run.specs.Playing.{IsPlayed, IsSettled, IsTaken};

use effort_purse::Purse;
use frame_book::{Book, Claim, ClaimOutcome, Claiming, Settling, Unsettled};
use frame_claims::ask;
use frame_core::Frames;
use frame_query::FrameSolver;
use outside::Gate;
use std::alloc::{AllocError, Global};
use std::marker::Brand;
use std::sync::Wait;
use std::sync::ledger::{Ledger, Share};

/// The tickets that were drawn before a book was begun, which the proofs of its turns may read.
pub trait Begun {
    ghost use Rattle.std.specs.Prelude.{ℕ, List};

    ghost before: { List ℕ };
}

impl Begun for Brand {
    ghost use Rattle.std.specs.Prelude.{[]};

    ghost before = { [] };
}

// Passes the gate, takes a task, asks for it and settles it. False: the book is closed.
fn turn<'a, L: Ledger, B: Begun, R: Wait, Q: Purse, G: Gate>(
    rt: &R,
    alloc: Global,
    book: &mut Book<'a, L>,
    share: &mut Share<L>,
    solver: &mut FrameSolver<'a>,
    purse: &mut Q,
    gate: &G,
) -> Result<bool, AllocError>
    requires played { IsPlayed B.before book.old solver.old (Q.tickets purse.old) (Q.spent purse.old) }
    requires part { 0 < share.old.parts }
    requires ready { Q.ready purse.old }
    ensures played { OnOk result (IsPlayed B.before book.new solver.new (Q.tickets purse.new) (Q.spent purse.new)) }
    ensures closed { IfOk result (λ went. went ≡ false → IsClosed book.new.state) }
    ensures systems { book.new.systems ≡ book.old.systems }
    ensures limits { book.new.limits ≡ book.old.limits }
    ensures carried { book.new.carried ≡ book.old.carried }
    ensures part { share.new.parts ≡ share.old.parts }
    ensures kept { Q.kept purse.old purse.new }
    ensures ready { Q.ready purse.new }
    ensures budget { Q.budget purse.new ≡ Q.budget purse.old }
{
    gate.enter(rt, 0);
    book.holds();
    match book.claim(0)? {
        Claiming::Closed => Ok(false),
        Claiming::Idle => Ok(false),
        Claiming::Task(claim) => {
            take_up::<L, B, Q>(alloc, book, share, solver, purse, claim)?;
            Ok(true)
        }
    }
}

// Asks for a task that was taken, and settles it; without memory it is given back.
fn take_up<'a, L: Ledger, B: Begun, Q: Purse>(
    alloc: Global,
    book: &mut Book<'a, L>,
    share: &mut Share<L>,
    solver: &mut FrameSolver<'a>,
    purse: &mut Q,
    claim: Claim,
) -> Result<(), AllocError>
    requires taken { IsTaken B.before book.old claim solver.old (Q.tickets purse.old) (Q.spent purse.old) }
    requires part { 0 < share.old.parts }
    requires ready { Q.ready purse.old }
    ensures played { OnOk result (IsPlayed B.before book.new solver.new (Q.tickets purse.new) (Q.spent purse.new)) }
    ensures systems { book.new.systems ≡ book.old.systems }
    ensures limits { book.new.limits ≡ book.old.limits }
    ensures carried { book.new.carried ≡ book.old.carried }
    ensures part { share.new.parts ≡ share.old.parts }
    ensures kept { Q.kept purse.old purse.new }
    ensures ready { Q.ready purse.new }
    ensures budget { Q.budget purse.new ≡ Q.budget purse.old }
{
    match ask_newest::<L, B, Q>(alloc, book, solver, &claim, purse) {
        Ok(outcome) => settle(book, share, claim, outcome),
        Err(AllocError) => {
            book.give_back(claim);
            Err(AllocError)
        }
    }
}

// The outcome of a task that was taken, by a solver that takes the lemmas of the frames that it lacks.
fn ask_newest<'a, L: Ledger, B: Begun, Q: Purse>(
    alloc: Global,
    book: &Book<'a, L>,
    solver: &mut FrameSolver<'a>,
    claim: &Claim,
    purse: &mut Q,
) -> Result<ClaimOutcome<'a>, AllocError>
    requires taken { IsTaken B.before book.now claim.now solver.old (Q.tickets purse.old) (Q.spent purse.old) }
    requires ready { Q.ready purse.old }
    ensures answer { IfOk result (IsAsked book.now.state.frames claim.now (Q.spent purse.new)) }
    ensures pays { IfOk result (λ _. PaysClaim book.now.state.frames claim.now solver.old.known solver.new.known (Q.tickets purse.old) (Q.tickets purse.new)) }
    ensures systems { solver.new.systems ≡ solver.old.systems }
    ensures lemmas { OnOk result (solver.new.lemmas ≡ book.now.state.frames.lemmas) }
    ensures kept { Q.kept purse.old purse.new }
    ensures ready { Q.ready purse.new }
    ensures budget { Q.budget purse.new ≡ Q.budget purse.old }
{
    follow(book.frames(), solver)?;
    ask(alloc, book.systems(), solver, claim, purse)
}

// Lets the solver take the lemmas of the frames that it lacks.
fn follow<'a>(frames: &Frames<'a>, solver: &mut FrameSolver<'a>) -> Result<(), AllocError>
    requires systems { solver.old.systems ≡ frames.now.systems }
    requires older { IsOlder solver.old.lemmas frames.now.lemmas }
    ensures systems { solver.new.systems ≡ solver.old.systems }
    ensures known { solver.new.known ≡ solver.old.known }
    ensures lemmas { OnOk result (solver.new.lemmas ≡ frames.now.lemmas) }
{
    solver.follow(frames.all_lemmas())
}

// Settles a claim that is out; without memory it is given back.
fn settle<'a, L: Ledger>(
    book: &mut Book<'a, L>,
    share: &mut Share<L>,
    claim: Claim,
    outcome: ClaimOutcome<'a>,
) -> Result<(), AllocError>
    requires out { IsOutHere book.old.state claim }
    requires outcome { IsOutcomeOf book.old.systems claim claim.subject outcome }
    requires part { 0 < share.old.parts }
    ensures settled { OnOk result (IsSettled book.old claim outcome.entry book.new) }
    ensures kept { OnOk result (IsBook book.new) }
    ensures systems { book.new.systems ≡ book.old.systems }
    ensures limits { book.new.limits ≡ book.old.limits }
    ensures carried { book.new.carried ≡ book.old.carried }
    ensures part { share.new.parts ≡ share.old.parts }
{
    match book.settle(claim, outcome, share) {
        Ok(Settling::Settled) => {
            book.holds();
            Ok(())
        }
        Ok(Settling::NotOut(_)) => Ok(()),
        Err(Unsettled { claim, outcome: _ }) => {
            book.give_back(claim);
            Err(AllocError)
        }
    }
}

/// Plays the book until it is closed. A history of more than 18446744073709551615 turns has no room in memory: that is
/// answered as out of memory.
pub(crate) fn play<'a, L: Ledger, B: Begun, R: Wait, Q: Purse, G: Gate>(
    rt: &R,
    alloc: Global,
    book: &mut Book<'a, L>,
    share: &mut Share<L>,
    solver: &mut FrameSolver<'a>,
    purse: &mut Q,
    gate: &G,
) -> Result<(), AllocError>
    requires played { IsPlayed B.before book.old solver.old (Q.tickets purse.old) (Q.spent purse.old) }
    requires part { 0 < share.old.parts }
    requires ready { Q.ready purse.old }
    ensures played { OnOk result (IsPlayed B.before book.new solver.new (Q.tickets purse.new) (Q.spent purse.new)) }
    ensures closed { OnOk result (IsClosed book.new.state) }
    ensures systems { book.new.systems ≡ book.old.systems }
    ensures limits { book.new.limits ≡ book.old.limits }
    ensures carried { book.new.carried ≡ book.old.carried }
    ensures kept { Q.kept purse.old purse.new }
    ensures ready { Q.ready purse.new }
    ensures budget { Q.budget purse.new ≡ Q.budget purse.old }
{
    'turns: for _turn in 0..u64::MAX {
        if !turn::<L, B, R, Q, G>(rt, alloc, book, share, solver, purse, gate)? {
            return Ok(());
        }
    }
    Err(AllocError)
}
