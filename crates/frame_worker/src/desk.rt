//! The value under the lock: a book, and the history that workers share as far as the book is.

ghost use Rattle.std.specs.Prelude.{◌≡◌, ◌<◌, true, false, [], IfSome};
ghost use mathlib.Core.List.{IsPrefix};
ghost use Rattle.work_crew.specs.Takings.{IfTask, IfNoTask};
ghost use Rattle.frame_history.specs.History.{start, replay};
ghost use Rattle.frame_query.specs.Findings.{IsOlder};
ghost use Rattle.frame_book.specs.Outcomes.{IsOutcomeOf};
ghost use Rattle.frame_worker.specs.Meeting.{HasOneMore};
ghost use Rattle.frame_worker.specs.Working.{Follows, HasAll, IsClaimed, known_of};

use crate::account::Account;
use crate::begun::Begun;
use frame_book::{Book, Claim, ClaimOutcome, Claiming, Returning, Settling, Unsettled};
use frame_core::Frames;
use frame_history::Entry;
use frame_query::FrameSolver;
use shared_history::{Front, Line, Naming};
use std::alloc::AllocError;
use std::sync::ledger::Ledger;
use work_crew::Taking;

// How many times the next claim is left to the worker who had the last one.
const PASSES: u32 = 4;

/// The book, and the history that workers share. It is broken where an entry of the book could not be added to that
/// history; then no more is claimed. It counts the claims that are out, and knows who had the last one.
#[derive(Drop)]
pub(crate) struct Desk<'a, L: Ledger, J: Naming + Begun> {
    pub(crate) book: Book<'a, L>,
    pub(crate) front: Front<Entry, J>,
    pub(crate) broken: bool,
    pub(crate) out: u32,
    pub(crate) last: u32,
    pub(crate) passes: u32,
    pub(crate) ghost same: { broken ≡ false → front ≡ book.history },
    pub(crate) ghost systems_are: { book.systems ≡ J.systems },
    pub(crate) ghost limits_are: { book.limits ≡ J.limits },
    pub(crate) ghost carried_are: { book.carried ≡ J.carried },
}

impl<'a, L: Ledger, J: Naming + Begun> Desk<'a, L, J> {
    /// A task for this worker, who has seen all of the history, and then sees the entry of its claim too. Where there
    /// is no memory for a claim, this worker gets no task any more.
    pub(crate) fn claim(
        &mut self,
        line: &Line<Entry, J>,
        worker: u32,
        front: &mut Front<Entry, J>,
    ) -> Taking<Claim>
        requires open { self.old.broken ≡ false }
        requires seen { front.old ≡ self.old.front }
        ensures task { IfTask result (λ c. IsClaimed J.limits (start J.limits J.systems J.carried) worker c front.old front.new) }
        ensures none { IfNoTask result (front.new ≡ front.old) }
    {
        self.book.holds();
        match self.book.claim(worker) {
            Ok(Claiming::Task(claim)) => {
                self.broken = is_lost(&self.book, &mut self.front, line, self.broken);
                if self.broken {
                    self.book.give_back(claim);
                    return Taking::Ended;
                }
                *front = self.front.again();
                self.out = self.out.saturating_add(1);
                self.last = worker;
                self.passes = 0;
                Taking::Task(claim)
            }
            Ok(Claiming::Idle) => Taking::Idle,
            Ok(Claiming::Closed) => Taking::Ended,
            Err(_) => Taking::Ended,
        }
    }

    /// Whether a claim is out.
    pub(crate) fn has_claim_out(&self) -> bool {
        self.out > 0
    }

    /// Whether this worker leaves the next claim to the one who had the last: so many times at most.
    pub(crate) fn passes_on(&mut self, worker: u32) -> bool
        ensures { self.new.broken ≡ self.old.broken }
    {
        if worker == self.last || self.last == 0 || self.passes >= PASSES {
            return false;
        }
        self.passes = self.passes.saturating_add(1);
        true
    }

    /// Ends a claim with what came of it, which the account counts; false: there was no memory for that, and it was
    /// given back.
    pub(crate) fn settle(
        &mut self,
        line: &Line<Entry, J>,
        claim: Claim,
        outcome: ClaimOutcome<'a>,
        account: &mut Account<L>,
    ) -> bool
        requires part { 0 < account.old.share.parts }
        requires outcome { IsOutcomeOf J.systems claim claim.subject outcome }
        ensures parts { account.new.share.parts ≡ account.old.share.parts }
    {
        match self.book.settle(claim, outcome, &mut account.share) {
            Ok(Settling::Settled) => {
                account.settled = account.settled.saturating_add(1);
                self.broken = is_lost(&self.book, &mut self.front, line, self.broken);
                self.out = self.out.saturating_sub(1);
                true
            }
            Ok(Settling::NotOut(_)) => true,
            Err(Unsettled { claim, outcome: _ }) => {
                self.give_back(line, claim);
                false
            }
        }
    }

    /// Takes a claim back with nothing done.
    pub(crate) fn give_back(&mut self, line: &Line<Entry, J>, claim: Claim) {
        match self.book.give_back(claim) {
            Returning::Back => {
                self.broken = is_lost(&self.book, &mut self.front, line, self.broken);
                self.out = self.out.saturating_sub(1);
            }
            Returning::NotOut(_) => {}
        }
    }

    /// Lets a worker see the history as it is, and its solver take the lemmas that it lacks. False: there is no memory
    /// for that, or no solver.
    pub(crate) fn show(
        &self,
        front: &mut Front<Entry, J>,
        solver: &mut Option<FrameSolver<'a>>,
    ) -> bool
        requires open { self.now.broken ≡ false }
        requires follows { IfSome solver.old (Follows J.systems (replay (start J.limits J.systems J.carried) front.old)) }
        ensures seen { IsPrefix front.old front.new }
        ensures follows { IfSome solver.new (Follows J.systems (replay (start J.limits J.systems J.carried) front.new)) }
        ensures known { known_of solver.new ≡ known_of solver.old }
        ensures all { result ≡ true → (front.new ≡ self.now.front) × HasAll (replay (start J.limits J.systems J.carried) front.new) solver.new }
    {
        if !front.advance(&self.front) {
            return false;
        }
        match solver {
            Some(solver) => takes_all(self.book.frames(), solver),
            None => false,
        }
    }
}

// Lets the solver take the lemmas of the frames that it lacks; false: there is no memory for them.
fn takes_all<'a>(frames: &Frames<'a>, solver: &mut FrameSolver<'a>) -> bool
    requires systems { solver.old.systems ≡ frames.now.systems }
    requires older { IsOlder solver.old.lemmas frames.now.lemmas }
    ensures systems { solver.new.systems ≡ solver.old.systems }
    ensures known { solver.new.known ≡ solver.old.known }
    ensures older { IsOlder solver.new.lemmas frames.now.lemmas }
    ensures all { result ≡ true → solver.new.lemmas ≡ frames.now.lemmas }
{
    match solver.follow(frames.all_lemmas()) {
        Ok(()) => true,
        Err(AllocError) => false,
    }
}

// Whether the entry that the book has more could not be added to the history.
fn is_lost<'a, L: Ledger, J: Naming>(
    book: &Book<'a, L>,
    front: &mut Front<Entry, J>,
    line: &Line<Entry, J>,
    broken: bool,
) -> bool
    requires more { broken ≡ false → HasOneMore front.old book.now.history }
    ensures { result ≡ false → front.new ≡ book.now.history }
{
    if broken {
        return true;
    }
    match book.history().last() {
        Some(entry) => !front.extend(line, entry),
        None => true,
    }
}
