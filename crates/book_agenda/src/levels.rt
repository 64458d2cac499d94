//! The frames, with the level to which each obligation is blocked, which follows the lemmas.

ghost use Rattle.std.specs.Prelude.{◌≡◌, ◌<◌, length, vec_len, vec_capacity, OnOk};

use crate::literal_table::LiteralTable;
use crate::values::{add_clauses, add_states, blocked_to, lift, lower, meets_from};
use clause_core::Clause;
use frame_core::{Clear, Frames, Insertion, Noting, Opening, Proved, Raising, StateWitness};
use std::alloc::{AllocError, Global};
use std::marker::Model;

/// The frames of some systems, and for each obligation the greatest level of a lemma that its state does not
/// meet. Contracts see the frames.
#[derive(Drop)]
pub struct Levels<'a> {
    frames: Frames<'a>,
    // for each obligation the greatest level of a lemma that its state does not meet
    blocked: Vec<u32>,
    // for each 64 obligations a level below which none of them is blocked
    floors: Vec<u32>,
    // the literals of the clauses of the first lemmas; a lemma for whose row there was no memory is looked at each time
    clauses: LiteralTable,
    // the literals over state bits that are true in the states of the first obligations, likewise
    states: LiteralTable,
}

impl<'a> Model for Levels<'a> {
    ghost use Rattle.frame_core.specs.FrameLaw.{FrameState};
    ghost use Rattle.book_agenda.specs.Values.{IsAgenda};

    ghost Value = { FrameState };

    ghost view = { λ l. l.frames };

    ghost invariant = { λ l. IsAgenda l.frames.lemmas l.frames.obligations l.blocked.items l.floors.items l.clauses l.states };
}

impl<'a> Levels<'a> {
    ghost use Rattle.std.specs.Prelude.{◌≡◌, ◌↔◌, ◌<◌, ◌≤◌, ◌+◌, ◌*◌, ◌^◌, [], ℕ, List, is_none, length, false, true, IfOk, OnErr, IsTrue};
    ghost use Rattle.clause_core.specs.Assignments.{assignment_of};
    ghost use Rattle.frame_core.specs.FrameLaw.{FrameState, MeetsFrom, top_at, lemma_at, obligation_at};
    ghost use Rattle.frame_core.specs.Changes.{IsOfSystem, InsertsSame, RaisesSame, IsCovered, with_retired, OpensSame, MayHaveParent, NotesSame};
    ghost use Rattle.book_agenda.specs.Values.{IsBlockedTo, AreBlocked};

    /// These frames, which have no obligation; takes no memory.
    pub fn of(alloc: Global, frames: Frames<'a>) -> Levels<'a>
        requires { frames.obligations ≡ [] }
        ensures { result ≡ frames.entry }
    {
        let vars = state_bits(&frames);
        Levels {
            frames,
            blocked: Vec::new(alloc),
            floors: Vec::new(alloc),
            clauses: LiteralTable::new(alloc, vars),
            states: LiteralTable::new(alloc, vars),
        }
    }

    /// The frames.
    pub fn frames(&self) -> &Frames<'a>
        ensures { result.now ≡ self.now }
    {
        &self.frames
    }

    /// The frames, taken out; takes no memory.
    pub fn into_frames(self) -> Frames<'a>
        ensures { result ≡ self.entry }
    {
        let Levels {
            frames,
            blocked: _,
            floors: _,
            clauses: _,
            states: _,
        } = self;
        frames
    }

    /// The greatest level of a lemma that the obligation's state does not meet, 0 where it meets them all.
    pub fn blocked(&self, o: usize) -> u32
        requires { o < length self.now.obligations }
        ensures { IsBlockedTo self.now.lemmas result (assignment_of (obligation_at self.now.obligations o).values) }
    {
        self.blocked[o]
    }

    /// In how many parts of 64 the obligations are kept.
    pub fn parts(&self) -> usize
        ensures enough { length self.now.obligations ≤ result * 64 }
        ensures tight { result * 64 < length self.now.obligations + 64 }
    {
        let _obligations = self.blocked.len();
        self.floors.len()
    }

    /// A level below which none of the 64 obligations of part `c` is blocked.
    pub fn floor(&self, c: usize) -> u32
        ensures { (o : ℕ) → c * 64 ≤ o → o < c * 64 + 64 → o < length self.now.obligations → (b : ℕ) × IsBlockedTo self.now.lemmas b (assignment_of (obligation_at self.now.obligations o).values) × (result ≤ b) }
    {
        if c < self.floors.len() {
            self.floors[c]
        } else {
            0
        }
    }

    /// Whether the state meets each lemma of this level or more. Takes no memory.
    ///
    /// It ends at the first live lemma that the state does not meet. A table tells most of those that it meets, 64
    /// at a time, by a word for each state bit up to the one that leaves none. The others are looked at.
    pub fn meets_from(&self, level: u32, values: &[bool]) -> bool
        ensures { IsTrue result ↔ MeetsFrom self.now.lemmas level (assignment_of values.now) }
    {
        meets_from(&self.frames, &self.clauses, level, values)
    }

    /// Says what the type keeps.
    pub fn follow(&self)
        ensures { (blocked : List ℕ) × AreBlocked self.now.lemmas self.now.obligations blocked }
    {
        let _obligations = self.blocked.len();
    }

    /// As `insert_same` of the frames. Where a lemma is added it is tried at each obligation that is blocked
    /// below its level. No part of the obligations is looked at whose floor is not below it. In the others a
    /// table tells most of those that meet the lemma, 64 at a time, by a word for each of its literals.
    pub fn insert(&mut self, proved: &Proved, clause: Clause) -> Result<Insertion, AllocError>
        requires same { IsOfSystem self.old 0 false proved.now.system }
        requires copy { clause ≡ proved.now.clause }
        ensures done { IfOk result (λ r. InsertsSame self.old proved.now r self.new) }
        ensures err { OnErr result (self.new ≡ self.old) }
    {
        let insertion = self.frames.insert_same(proved, clause)?;
        if let Insertion::Added(n) = insertion {
            lift(
                &mut self.blocked,
                &mut self.floors,
                &self.frames,
                &self.states,
                n,
                0,
            );
            add_clauses(&mut self.clauses, self.frames.all_lemmas());
        }
        Ok(insertion)
    }

    /// As `raise_same` of the frames; the lemma is tried as for `insert`, but for obligations that are blocked
    /// below its level before, which meet it. Takes no memory.
    pub fn raise(&mut self, n: usize, proved: &Proved) -> Raising
        requires in_range { n < length self.old.lemmas }
        requires clause { proved.now.clause ≡ (lemma_at self.old.lemmas n).clause }
        requires same { IsOfSystem self.old 0 false proved.now.system }
        ensures { RaisesSame self.old n proved.now result self.new }
    {
        let from = self.frames.lemma(n).level;
        let raising = self.frames.raise_same(n, proved);
        if let Raising::Raised = raising {
            lift(
                &mut self.blocked,
                &mut self.floors,
                &self.frames,
                &self.states,
                n,
                from,
            );
        }
        raising
    }

    /// As `open_same` of the frames.
    pub fn open(&mut self, j: usize, clear: &Clear) -> Result<Opening, AllocError>
        requires in_range { j < length self.old.systems }
        requires room { top_at self.old.tops j + 1 < 2 ^ 32 }
        requires same { IsOfSystem self.old j true clear.now.system }
        ensures done { IfOk result (λ r. OpensSame self.old j clear.now r self.new) }
        ensures err { OnErr result (self.new ≡ self.old) }
    {
        let opening = self.frames.open_same(j, clear)?;
        Ok(opening)
    }

    /// As `add_obligation_same` of the frames. Looks at the lemmas as `meets_from` does.
    pub fn note(
        &mut self,
        j: usize,
        found: StateWitness,
        parent: Option<usize>,
    ) -> Result<Noting, AllocError>
        requires in_range { j < length self.old.systems }
        requires parent { MayHaveParent self.old j found parent }
        requires same { IsOfSystem self.old j (is_none parent) found.system }
        ensures done { IfOk result (λ r. NotesSame self.old j found.entry parent r self.new) }
        ensures err { OnErr result (self.new ≡ self.old) }
    {
        reserve_one(&mut self.blocked, &mut self.floors)?;
        add_clauses(&mut self.clauses, self.frames.all_lemmas());
        let level = blocked_to(&self.frames, &self.clauses, found.values().as_slice());
        let noting = self.frames.add_obligation_same(j, found, parent)?;
        lower(&mut self.floors, &self.blocked, level);
        self.blocked.push_reserved(level);
        add_states(&mut self.states, &self.frames);
        Ok(noting)
    }

    /// As `retire` of the frames. Takes no memory.
    pub fn retire(&mut self, n: usize)
        requires in_range { n < length self.old.lemmas }
        requires covered { IsCovered self.old n }
        ensures { self.new ≡ with_retired self.old n }
    {
        self.frames.retire(n);
    }
}

// How many state bits the systems have.
fn state_bits(frames: &Frames) -> usize {
    frames.systems()[0].state_bits()
}

// Makes room for one obligation more.
fn reserve_one(blocked: &mut Vec<u32>, floors: &mut Vec<u32>) -> Result<(), AllocError>
    ensures blocked { blocked.new.items ≡ blocked.old.items }
    ensures floors { floors.new.items ≡ floors.old.items }
    ensures room { OnOk result ((vec_len blocked.new < vec_capacity blocked.new) × (vec_len floors.new < vec_capacity floors.new)) }
{
    blocked.reserve(1)?;
    floors.reserve(1)
}
