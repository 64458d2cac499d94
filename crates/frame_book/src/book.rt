//! The book under its lock: what was claimed, what came of it, and how many settlements there were.

use crate::claim::{Claim, ClaimOutcome, Claiming, Returning, Settling, Unsettled};
use crate::pages::Pages;
use clause_core::System;
use frame_core::{Frames, Lemma};
use frame_history::{Change, Entry, Limits, Subject};
use std::alloc::{AllocError, Global};
use std::marker::Model;
use std::sync::ledger::{self, Ledger, Share};

/// The value that workers share: frames, the history of what became of each claim, the claims that are out,
/// and a ledger whose total is the number of settlements. Contracts see it as that data. Its type keeps that
/// the history is lawful, that the state is the one that it leads to, and so the law of the frames.
#[derive(Drop)]
pub struct Book<'a, L: Ledger> {
    pages: Pages<'a>,
    // lemmas from this number on are pushed before all else
    urgent: usize,
    settled: ledger::Book<L>,
}

impl<'a, L: Ledger> Model for Book<'a, L> {
    ghost use Rattle.std.specs.Prelude.{◌≡◌};
    ghost use Rattle.frame_book.specs.Book.{BookView, settlements};

    ghost Value = { BookView };

    ghost view = { λ b. b.pages };

    ghost invariant = { λ b. b.settled.total ≡ settlements b.pages.history };
}

/// A book taken apart.
#[derive(Drop)]
pub struct Parts<'a, L: Ledger> {
    pub frames: Frames<'a>,
    pub history: Vec<Entry>,
    pub ledger: ledger::Book<L>,
}

impl<'a, L: Ledger> Book<'a, L> {
    ghost use Rattle.std.specs.Prelude.{◌≡◌, ◌<◌, ◌≤◌, ◌+◌, ◌^◌, ℕ, Bool, [], length, replicate, IfOk, IfErr, OnErr, IsOk};
    ghost use Rattle.clause_core.specs.Assignments.{ClauseTrue};
    ghost use Rattle.clause_core.specs.Systems.{ReachedWithin};
    ghost use Rattle.frame_core.specs.FrameLaw.{system_at, lemma_at};
    ghost use Rattle.frame_book.specs.Outcomes.{IsOutcomeOf};
    ghost use Rattle.frame_book.specs.Book.{IsBook, opened, settlements, Claims, Settles, grown_by, Returns, IsPush};

    /// The book of these frames, which have no obligation and tops 0, without entries; their lemmas are
    /// carried. It copies them.
    pub fn new(
        alloc: Global,
        frames: Frames<'a>,
        limits: Limits,
        ledger: ledger::Book<L>,
    ) -> Result<Book<'a, L>, AllocError>
        requires obligations { frames.obligations ≡ [] }
        requires tops { frames.tops ≡ replicate (length frames.systems) 0 }
        requires limits { limits.frames + 1 < 2 ^ 32 }
        requires total { ledger.total ≡ 0 }
        ensures { IfOk result (λ b. b ≡ opened frames.entry.systems limits frames.entry.lemmas) }
    {
        let pages = Pages::new(alloc, frames, limits)?;
        Ok(Book {
            pages,
            urgent: 0,
            settled: ledger,
        })
    }

    /// A task, which is a lawful claim of this worker; `Idle` exactly where no claim is lawful now, and
    /// `Closed` exactly where none will be. If memory runs out, all is as before.
    ///
    /// A lemma that was just added or raised is pushed first, and at a new top all lemmas are; then comes an
    /// obligation of the least level, the newest of them; then the frame of the top; then any lemma. It looks
    /// at a word for each 64 obligations, and at those 64 alone of which one may be better than those before;
    /// and at a word or two of each lemma that was not looked at since.
    pub fn claim(&mut self, worker: u32) -> Result<Claiming, AllocError>
        ensures done { IfOk result (λ a. Claims self.old worker a self.new) }
        ensures err { OnErr result (self.new ≡ self.old) }
    {
        let claiming = self.pages.claim(worker, self.urgent)?;
        self.urgent = after_claim(&claiming, self.pages.frames().lemmas());
        Ok(claiming)
    }

    /// Ends a claim with what came of it, which is entered and counted in the share; `NotOut` exactly where
    /// no such claim is out here. It takes its memory first: where there is none, claim and outcome come
    /// back, and all is as before. For a lemma that was to be pushed it takes none.
    ///
    /// It looks at each lemma at most twice where a state was found or a clause is inserted. Where a lemma is added or
    /// raised it looks at a word for each 64 obligations, and at those 64 alone of which one may be blocked
    /// below the lemma's level.
    pub fn settle(
        &mut self,
        claim: Claim,
        outcome: ClaimOutcome<'a>,
        share: &mut Share<L>,
    ) -> Result<Settling, Unsettled<'a>>
        requires part { 0 < share.old.parts }
        requires outcome { IsOutcomeOf self.old.systems claim claim.subject outcome }
        ensures done { IfOk result (λ r. Settles self.old claim outcome.entry r self.new) }
        ensures amount { IfOk result (λ r. share.new.amount ≡ share.old.amount + grown_by r) }
        ensures parts { share.new.parts ≡ share.old.parts }
        ensures err { IfErr result (λ u. (u.claim ≡ claim) × (u.outcome ≡ outcome.entry) × (self.new ≡ self.old) × (share.new.amount ≡ share.old.amount)) }
        ensures push { IsPush claim.subject → IsOk result }
    {
        match self.pages.settle(claim, outcome) {
            Err(unsettled) => Err(unsettled),
            Ok(Settling::NotOut(number)) => Ok(Settling::NotOut(number)),
            Ok(Settling::Settled) => {
                self.settled.add(share, 1);
                self.urgent = after_settlement(self.urgent, self.pages.history());
                Ok(Settling::Settled)
            }
        }
    }

    /// Takes a claim back with nothing done, which is entered; `NotOut` exactly where no such claim is out
    /// here. Takes no memory.
    pub fn give_back(&mut self, claim: Claim) -> Returning
        ensures { Returns self.old claim result self.new }
    {
        self.pages.give_back(claim)
    }

    /// The frames as they are.
    pub fn frames(&self) -> &Frames<'a>
        ensures value { result.now ≡ self.now.state.frames }
        ensures kept { IsBook self.now }
    {
        self.pages.frames()
    }

    /// The systems of the frames.
    pub fn systems(&self) -> &'a [System]
        ensures { result.now ≡ self.now.systems }
    {
        self.pages.systems()
    }

    /// What was entered.
    pub fn history(&self) -> &[Entry]
        ensures { result.now ≡ self.now.history }
    {
        self.pages.history()
    }

    /// How far the book goes.
    pub fn limits(&self) -> Limits
        ensures { result ≡ self.now.limits }
    {
        self.pages.limits()
    }

    /// The lemmas with which it began.
    pub fn carried(&self) -> &[Lemma]
        ensures { result.now ≡ self.now.carried }
    {
        self.pages.carried()
    }

    /// Each lemma of level i holds in each state that is reached in at most i steps, in each of the systems;
    /// and all that the type keeps.
    pub fn holds(&self)
        ensures kept { IsBook self.now }
        ensures holds { (j : ℕ) → j < length self.now.systems → (i : ℕ) (x : ℕ → Bool) → ReachedWithin (system_at self.now.systems j) i x → (n : ℕ) → n < length self.now.state.frames.lemmas → i ≤ (lemma_at self.now.state.frames.lemmas n).level → ClauseTrue x (lemma_at self.now.state.frames.lemmas n).clause }
    {
        let _systems = self.pages.frames().systems();
    }

    /// The frames, the history, and the ledger's book, whose total is the number of settlements. Takes no
    /// memory.
    pub fn into_parts(self) -> Parts<'a, L>
        ensures frames { result.frames ≡ self.entry.state.frames }
        ensures history { result.history.items ≡ self.entry.history }
        ensures total { result.ledger.total ≡ settlements self.entry.history }
        ensures kept { IsBook self.entry }
    {
        let Book {
            pages,
            urgent: _,
            settled: ledger,
        } = self;
        let (frames, history) = pages.into_parts();
        Parts {
            frames,
            history,
            ledger,
        }
    }
}

// From which lemma on lemmas are pushed next, where all before were looked at.
fn after_claim(claiming: &Claiming, lemmas: usize) -> usize {
    match claiming {
        Claiming::Task(claim) => match claim.subject() {
            Subject::Push(n) => n.saturating_add(1),
            _ => lemmas,
        },
        _ => lemmas,
    }
}

// The same after a settlement: at a new top all lemmas are pushed, and a lemma that was raised is pushed on.
fn after_settlement(urgent: usize, history: &[Entry]) -> usize {
    match history.last() {
        Some(
            Entry::Settle {
                worker: _,
                claim: _,
                changes,
            },
        ) => match changes.first() {
            Some(Change::Open(_)) => 0,
            Some(Change::Raise { lemma, .. }) => urgent.min(*lemma),
            _ => urgent,
        },
        _ => urgent,
    }
}
