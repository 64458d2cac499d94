//! The book without its count of settlements: frames, claims and history, and what follows from them.

ghost use Rattle.std.specs.Prelude.{◌≡◌, ◌↔◌, ◌<◌, ◌≤◌, ◌+◌, ◌^◌, vec_len, vec_capacity, IfOk, OnOk, IsTrue};
ghost use Rattle.frame_book.specs.Claims.{IsOfSubject};
ghost use Rattle.frame_book.specs.Pages.{IsIn, HasValues, HasClause};

use crate::claim::{Claim, ClaimOutcome, Claiming, Returning, Settling, Unsettled};
use crate::marks::Marks;
use crate::picking::{open_system, pick};
use crate::rooms::Rooms;
use crate::settling::come;
use book_agenda::{Levels, Register};
use clause_core::{Bits, Clause, Lit, System};
use frame_core::{Frames, Lemma, Lemmas};
use frame_history::{Entry, Limits, Made, Subject};
use std::alloc::{AllocError, Global};
use std::marker::Model;

#[derive(Drop)]
pub(crate) struct Pages<'a> {
    levels: Levels<'a>,
    carried: Lemmas,
    limits: Limits,
    history: Vec<Entry>,
    register: Register,
    marks: Marks,
    rooms: Rooms,
}

impl<'a> Model for Pages<'a> {
    ghost use Rattle.std.specs.Prelude.{vec_capacity};
    ghost use Rattle.frame_book.specs.Book.{BookView};
    ghost use Rattle.frame_book.specs.Pages.{state_of, ArePages};

    ghost Value = { BookView };

    ghost view = { λ p. record { systems = p.levels.systems; limits = p.limits; carried = p.carried; history = p.history.items; state = state_of p.levels p.register p.marks } };

    ghost invariant = { λ p. ArePages record { systems = p.levels.systems; limits = p.limits; carried = p.carried; history = p.history.items; state = state_of p.levels p.register p.marks } (vec_capacity p.history) p.rooms };
}

impl<'a> Pages<'a> {
    ghost use Rattle.std.specs.Prelude.{◌≡◌, ◌↔◌, ◌<◌, ◌≤◌, ◌+◌, ◌^◌, [], ◌∷◌, replicate, length, IfOk, IfErr, OnOk, OnErr, IsTrue, IsOk, MatchOption};
    ghost use Rattle.frame_history.specs.declared.entries.Entry.TheVariants as entry;
    ghost use Rattle.frame_history.specs.History.{IsLawfulClaim};
    ghost use Rattle.frame_book.specs.Claims.{IsClaimOf, IsOutHere, IsOfSubject};
    ghost use Rattle.frame_book.specs.Outcomes.{IsOutcomeOf};
    ghost use Rattle.frame_book.specs.Picking.{IsLevelOf};
    ghost use Rattle.frame_book.specs.Book.{BookView, IsBook, opened, entered, Claims, Settles, Returns, IsPush};

    pub(crate) fn new(
        alloc: Global,
        frames: Frames<'a>,
        limits: Limits,
    ) -> Result<Pages<'a>, AllocError>
        requires obligations { frames.obligations ≡ [] }
        requires tops { frames.tops ≡ replicate (length frames.systems) 0 }
        requires limits { limits.frames + 1 < 2 ^ 32 }
        ensures { IfOk result (λ p. p ≡ opened frames.entry.systems limits frames.entry.lemmas) }
    {
        let systems = frames.systems().len();
        let marks = Marks::new(alloc, limits.frames, systems)?;
        let carried = copy_of(alloc, frames.all_lemmas())?;
        Ok(Pages {
            levels: Levels::of(alloc, frames),
            carried,
            limits,
            history: Vec::new(alloc),
            register: Register::new(alloc),
            marks,
            rooms: Rooms::new(alloc, systems + 1),
        })
    }

    pub(crate) fn frames(&self) -> &Frames<'a>
        ensures value { result.now ≡ self.now.state.frames }
        ensures kept { IsBook self.now }
    {
        self.levels.frames()
    }

    pub(crate) fn history(&self) -> &[Entry]
        ensures { result.now ≡ self.now.history }
    {
        &self.history
    }

    pub(crate) fn limits(&self) -> Limits
        ensures { result ≡ self.now.limits }
    {
        self.limits
    }

    pub(crate) fn carried(&self) -> &[Lemma]
        ensures { result.now ≡ self.now.carried }
    {
        self.carried.as_slice()
    }

    pub(crate) fn systems(&self) -> &'a [System]
        ensures { result.now ≡ self.now.systems }
    {
        self.levels.frames().systems()
    }

    /// A task, which is a lawful claim of this worker, if there is one: lemmas from number `from` on are
    /// pushed first. If memory runs out, all is as before.
    pub(crate) fn claim(&mut self, worker: u32, from: usize) -> Result<Claiming, AllocError>
        ensures done { IfOk result (λ a. Claims self.old worker a self.new) }
        ensures err { OnErr result (self.new ≡ self.old) }
    {
        let Some(_open) = open_system(&self.levels, &self.register, &self.marks) else {
            return Ok(Claiming::Closed);
        };
        let Some(task) = pick(&self.levels, &self.register, &self.marks, self.limits, from) else {
            self.levels.follow();
            let _systems = self.levels.frames().systems();
            return Ok(Claiming::Idle);
        };
        let claim = self.take(worker, task.subject, task.level)?;
        Ok(Claiming::Task(claim))
    }

    // The claim that is out here.
    fn find(&self, claim: &Claim) -> Option<Made>
        ensures { MatchOption result (IsOutHere self.now.state claim.now → ⊥) (λ c. IsClaimOf self.now.state claim.now c) }
    {
        match self.register.made(claim.number) {
            None => None,
            Some(made) => {
                let _in_range = self.register.growth();
                if made.out
                    && made.worker == claim.worker
                    && is_same(made.subject, claim.subject)
                    && made.level == claim.level
                    && is_of_subject(self.levels.frames(), claim)
                {
                    Some(made)
                } else {
                    None
                }
            }
        }
    }

    /// Takes a claim back with nothing done. Takes no memory.
    pub(crate) fn give_back(&mut self, claim: Claim) -> Returning
        ensures { Returns self.old claim result self.new }
    {
        let Some(made) = self.find(&claim) else {
            return Returning::NotOut(spent(claim));
        };
        let worker = claim.worker;
        let number = spent(claim);
        self.register.end(number, made, true, false);
        self.history.push_reserved(Entry::Back {
            worker,
            claim: number,
        });
        Returning::Back
    }

    /// Enters a lawful claim, and makes room for the entry that ends it. If memory runs out, all is as
    /// before.
    pub(crate) fn take(
        &mut self,
        worker: u32,
        subject: Subject,
        level: u32,
    ) -> Result<Claim, AllocError>
        requires lawful { IsLawfulClaim self.old.limits self.old.state subject level }
        requires level { IsLevelOf self.old.state.frames subject level }
        ensures done { IfOk result (λ c. (self.new ≡ entered self.old (entry.Claim worker subject level)) × (c ≡ record { number = length self.old.history; worker = worker; subject = subject; level = level; growth = self.old.state.growth; values = c.values; clause = c.clause }) × IsOfSubject self.old.state.frames subject c.values c.clause) }
        ensures err { OnErr result (self.new ≡ self.old) }
    {
        let alloc = self.carried.alloc();
        let values = values_of(alloc, self.frames(), subject)?;
        let clause = clause_of(alloc, self.frames(), subject)?;
        let number = self.history.len();
        let growth = self.register.growth();
        self.enter(worker, subject, level)?;
        Ok(Claim {
            number,
            worker,
            subject,
            level,
            growth,
            values,
            clause,
        })
    }

    // Enters a lawful claim, and makes room as `take` says. If memory runs out, all is as before.
    fn enter(&mut self, worker: u32, subject: Subject, level: u32) -> Result<(), AllocError>
        requires lawful { IsLawfulClaim self.old.limits self.old.state subject level }
        requires level { IsLevelOf self.old.state.frames subject level }
        ensures done { OnOk result (self.new ≡ entered self.old (entry.Claim worker subject level)) }
        ensures err { OnErr result (self.new ≡ self.old) }
    {
        let _systems = self.levels.frames().systems();
        let out = self.register.out();
        make_room(&mut self.rooms, &mut self.history, out)?;
        self.register.claim(worker, subject, level)?;
        self.history.push_reserved(Entry::Claim {
            worker,
            subject,
            level,
        });
        Ok(())
    }

    /// Ends a claim with its outcome. It takes its memory first; where there is none all is as before.
    pub(crate) fn settle(
        &mut self,
        claim: Claim,
        outcome: ClaimOutcome<'a>,
    ) -> Result<Settling, Unsettled<'a>>
        requires { IsOutcomeOf self.old.systems claim claim.subject outcome }
        ensures done { IfOk result (λ r. Settles self.old claim outcome.entry r self.new) }
        ensures err { IfErr result (λ u. (u.claim ≡ claim) × (u.outcome ≡ outcome.entry) × (self.new ≡ self.old)) }
        ensures push { IsPush claim.subject → IsOk result }
    {
        let Some(made) = self.find(&claim) else {
            return Ok(Settling::NotOut(spent(claim)));
        };
        let alloc = self.carried.alloc();
        let more = self.levels.frames().systems().len();
        let _growth = self.register.growth();
        let mut changes = self.rooms.take();
        if let Err(outcome) = come(
            alloc,
            &mut self.levels,
            &made,
            &claim,
            outcome,
            &mut changes,
            more,
        ) {
            self.rooms.give(changes);
            return Err(Unsettled { claim, outcome });
        }
        let worker = claim.worker;
        let number = spent(claim);
        let ending = self
            .marks
            .follow(self.levels.frames(), self.limits, &mut changes);
        self.register.end(number, made, ending.lags, ending.grows);
        self.history.push_reserved(Entry::Settle {
            worker,
            claim: number,
            changes,
        });
        Ok(Settling::Settled)
    }

    pub(crate) fn into_parts(self) -> (Frames<'a>, Vec<Entry>)
        ensures frames { result.0 ≡ self.entry.state.frames }
        ensures history { result.1.items ≡ self.entry.history }
        ensures kept { IsBook self.entry }
    {
        let Pages {
            levels,
            carried: _,
            limits: _,
            history,
            register: _,
            marks: _,
            rooms: _,
        } = self;
        (levels.into_frames(), history)
    }
}

// A copy of the lemmas.
fn copy_of(alloc: Global, lemmas: &Lemmas) -> Result<Lemmas, AllocError>
    ensures { IfOk result (λ copy. copy ≡ lemmas.now) }
{
    let mut copy = Lemmas::new(alloc);
    copy.follow(lemmas, &[])?;
    Ok(copy)
}

// Makes room for one claim more and the entry that ends it, where so many claims are out.
fn make_room(rooms: &mut Rooms, history: &mut Vec<Entry>, out: usize) -> Result<(), AllocError>
    requires out { out ≤ rooms.old.count }
    requires small { out + 2 < 2 ^ 64 }
    ensures count { rooms.old.count ≤ rooms.new.count }
    ensures size { rooms.new.size ≡ rooms.old.size }
    ensures items { history.new.items ≡ history.old.items }
    ensures capacity { vec_capacity history.old ≤ vec_capacity history.new }
    ensures done { OnOk result ((out + 1 ≤ rooms.new.count) × (vec_len history.new + (out + 2) ≤ vec_capacity history.new)) }
{
    rooms.make(out + 1)?;
    history.reserve(out + 2)?;
    Ok(())
}

// The claim's number; the claim is spent.
fn spent(claim: Claim) -> usize
    ensures { result ≡ claim.number }
{
    let Claim {
        number,
        worker: _,
        subject: _,
        level: _,
        growth: _,
        values: _,
        clause: _,
    } = claim;
    number
}

// Values of the obligation that the subject names; none for another subject.
fn values_of(alloc: Global, frames: &Frames, subject: Subject) -> Result<Bits, AllocError>
    requires { IsIn frames.now subject }
    ensures { IfOk result (λ v. HasValues frames.now subject v) }
{
    match subject {
        Subject::Block(o) => Bits::from_slice(alloc, frames.obligation(o).values.as_slice()),
        _ => Ok(Bits::from_vec(Vec::new(alloc))),
    }
}

// The clause of the lemma that the subject names; empty for another subject.
fn clause_of(alloc: Global, frames: &Frames, subject: Subject) -> Result<Clause, AllocError>
    requires { IsIn frames.now subject }
    ensures { IfOk result (λ v. HasClause frames.now subject v) }
{
    match subject {
        Subject::Push(n) => Clause::from_slice(alloc, frames.lemma(n).clause.as_slice()),
        _ => Ok(Clause::from_vec(Vec::new(alloc))),
    }
}

// Whether the claim has the values of the obligation, or the clause of the lemma, that its subject names.
fn is_of_subject(frames: &Frames, claim: &Claim) -> bool
    requires { IsIn frames.now claim.now.subject }
    ensures { IsTrue result ↔ IsOfSubject frames.now claim.now.subject claim.now.values claim.now.clause }
{
    match claim.subject {
        Subject::Bad(_) => true,
        Subject::Block(o) => same_values(
            claim.values.as_slice(),
            frames.obligation(o).values.as_slice(),
        ),
        Subject::Push(n) => same_clause(claim.clause.as_slice(), frames.lemma(n).clause.as_slice()),
    }
}

fn is_same(a: Subject, b: Subject) -> bool
    ensures { IsTrue result ↔ (a ≡ b) }
{
    a == b
}

fn same_values(a: &[bool], b: &[bool]) -> bool
    ensures { IsTrue result ↔ (a.now ≡ b.now) }
{
    a == b
}

fn same_clause(a: &[Lit], b: &[Lit]) -> bool
    ensures { IsTrue result ↔ (a.now ≡ b.now) }
{
    a == b
}
