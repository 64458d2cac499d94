//! From which levels a push failed, for which systems the limit was met, and whether the purse was spent.

ghost use Rattle.std.specs.Prelude.{◌≡◌, ◌↔◌, ◌<◌, ◌≤◌, ◌+◌, ◌^◌, ℕ, true, length, slice_index_or, slice_set, replicate, false, IsTrue};
ghost use Rattle.frame_book.specs.Marked.{AreClearFrom};
ghost use Rattle.frame_book.specs.Steps.{lags, grows};

use frame_core::Frames;
use frame_history::{Change, Limits};
use std::alloc::{AllocError, Global};
use std::marker::Model;

#[derive(Drop)]
pub(crate) struct Marks {
    // for each level up to the limit whether a push from it failed since a lemma was last added or raised
    failed: Vec<bool>,
    // from this level on no push failed since
    beyond: usize,
    // for each system whether its limit was met
    limited: Vec<bool>,
    spent: bool,
}

impl Model for Marks {
    ghost use Rattle.frame_book.specs.Marked.{Marking, AreClearFrom};

    ghost Value = { Marking };

    ghost view = { λ m. record { failed = m.failed.items; limited = m.limited.items; spent = m.spent } };

    ghost invariant = { λ m. AreClearFrom m.beyond m.failed.items };
}

impl Marks {
    ghost use Rattle.std.specs.Prelude.{◌≡◌, ◌↔◌, ◌<◌, ◌≤◌, ◌+◌, ◌^◌, ◌++◌, ℕ, Bool, List, true, false, length, replicate, slice_index_or, vec_len, vec_capacity, slice_set, IfOk, IsTrue};
    ghost use Rattle.frame_history.specs.declared.entries.Change.{Change as AChange};
    ghost use Rattle.frame_book.specs.Marked.{Marking, marked, LimitIsLeft, NotesEach};
    ghost use Rattle.frame_book.specs.Steps.{lags, grows, head_of};

    pub(crate) fn new(alloc: Global, frames: u32, systems: usize) -> Result<Marks, AllocError>
        requires { frames + 1 < 2 ^ 32 }
        ensures { IfOk result (λ m. m ≡ record { failed = replicate (frames + 1) false; limited = replicate systems false; spent = false }) }
    {
        let failed = vec![in alloc; false; frames as usize + 1]?;
        let limited = vec![in alloc; false; systems]?;
        Ok(Marks {
            failed,
            beyond: 0,
            limited,
            spent: false,
        })
    }

    pub(crate) fn is_spent(&self) -> bool
        ensures { result ≡ self.now.spent }
    {
        self.spent
    }

    pub(crate) fn is_limited(&self, j: usize) -> bool
        ensures { result ≡ slice_index_or self.now.limited j false }
    {
        if j < self.limited.len() {
            self.limited[j]
        } else {
            false
        }
    }

    // No push has failed since now. It takes a step for each level up to the highest from which one did.
    fn forget(&mut self)
        ensures { self.new ≡ record self.old { failed = replicate (length self.old.failed) false } }
    {
        clear(&mut self.failed, self.beyond);
        self.beyond = 0;
    }

    // A push from this level failed.
    fn mark(&mut self, level: usize)
        ensures { self.new ≡ record self.old { failed = slice_set self.old.failed level true } }
    {
        set(&mut self.failed, level);
        if self.beyond <= level {
            self.beyond = level.saturating_add(1);
        }
    }

    // Brings the marks up to date with the change.
    fn note(&mut self, change: &Change)
        ensures { self.new ≡ marked self.old change.now }
    {
        match change {
            Change::Add { .. } => self.forget(),
            Change::Raise { .. } => self.forget(),
            Change::PushFailed { lemma: _, level } => self.mark(*level as usize),
            Change::Limit(j) => set(&mut self.limited, *j),
            Change::Spent => self.spent = true,
            _ => {}
        }
    }

    fn is_met(&self, frames: &Frames, limits: Limits, j: usize) -> bool
        requires in_range { j < length frames.now.systems }
        requires small { limits.frames + 1 < 2 ^ 32 }
        ensures { IsTrue result ↔ LimitIsLeft limits frames.now self.now j }
    {
        !self.is_limited(j)
            && frames.top(j) == limits.frames + 1
            && is_all(&self.failed, limits.frames)
    }

    // Notes the limit of system `j`, if it is met and was not noted before.
    fn note_limit(&mut self, frames: &Frames, limits: Limits, j: usize, changes: &mut Vec<Change>)
        requires small { limits.frames + 1 < 2 ^ 32 }
        requires in_range { j < length frames.now.systems }
        requires as_many { length self.old.limited ≡ length frames.now.systems }
        requires room { vec_len changes.old < vec_capacity changes.old }
        ensures done { (ds : List AChange) × (changes.new.items ≡ changes.old.items ++ ds) × NotesEach limits frames.now self.old ds self.new }
        ensures here { LimitIsLeft limits frames.now self.new j → ⊥ }
        ensures others { (k : ℕ) → LimitIsLeft limits frames.now self.new k → LimitIsLeft limits frames.now self.old k }
        ensures as_many { length self.new.limited ≡ length self.old.limited }
        ensures room { vec_len changes.new ≤ vec_len changes.old + 1 }
        ensures capacity { vec_capacity changes.new ≡ vec_capacity changes.old }
    {
        if self.is_met(frames, limits, j) {
            set(&mut self.limited, j);
            changes.push_reserved(Change::Limit(j));
        }
    }

    /// Notes each limit that is met and was not noted before.
    fn note_limits(&mut self, frames: &Frames, limits: Limits, changes: &mut Vec<Change>)
        requires small { limits.frames + 1 < 2 ^ 32 }
        requires as_many { length self.old.limited ≡ length frames.now.systems }
        requires room { vec_len changes.old + length frames.now.systems ≤ vec_capacity changes.old }
        ensures done { (ds : List AChange) × (changes.new.items ≡ changes.old.items ++ ds) × NotesEach limits frames.now self.old ds self.new }
        ensures none { (j : ℕ) → LimitIsLeft limits frames.now self.new j → ⊥ }
        ensures as_many { length self.new.limited ≡ length self.old.limited }
    {
        let systems = frames.systems().len();
        for j in 0..systems {
            self.note_limit(frames, limits, j, changes);
        }
    }

    /// Brings the marks up to date with the first of the changes, and adds a change for each limit that is
    /// met then.
    pub(crate) fn follow(
        &mut self,
        frames: &Frames,
        limits: Limits,
        changes: &mut Vec<Change>,
    ) -> Ending
        requires small { limits.frames + 1 < 2 ^ 32 }
        requires some { 0 < length changes.old.items }
        requires as_many { length self.old.limited ≡ length frames.now.systems }
        requires room { vec_len changes.old + length frames.now.systems ≤ vec_capacity changes.old }
        ensures done { (ds : List AChange) × (changes.new.items ≡ changes.old.items ++ ds) × NotesEach limits frames.now (marked self.old (head_of changes.old.items)) ds self.new }
        ensures none { (j : ℕ) → LimitIsLeft limits frames.now self.new j → ⊥ }
        ensures lags { result.lags ≡ lags (head_of changes.old.items) }
        ensures grows { result.grows ≡ grows (head_of changes.old.items) }
        ensures as_many { length self.new.limited ≡ length self.old.limited }
    {
        let first = &changes[0];
        let ending = Ending {
            lags: is_lag(first),
            grows: is_growth(first),
        };
        self.note(first);
        self.note_limits(frames, limits, changes);
        ending
    }
}

/// What a settlement does to its claim.
#[derive(Clone, Copy)]
pub(crate) struct Ending {
    // the outcome was behind
    pub(crate) lags: bool,
    // a lemma was added or raised
    pub(crate) grows: bool,
}

fn is_lag(change: &Change) -> bool
    ensures { result ≡ lags change.now }
{
    matches!(change, Change::Behind(_))
}

fn is_growth(change: &Change) -> bool
    ensures { result ≡ grows change.now }
{
    matches!(change, Change::Add { .. } | Change::Raise { .. })
}

// Clears the marks below this level, where all others are clear.
fn clear(marks: &mut Vec<bool>, beyond: usize)
    requires { AreClearFrom beyond marks.old.items }
    ensures { marks.new.items ≡ replicate (length marks.old.items) false }
{
    for i in 0..beyond {
        reset(marks, i);
    }
}

// Clears the mark, where there is one.
fn reset(marks: &mut Vec<bool>, i: usize)
    ensures { marks.new.items ≡ slice_set marks.old.items i false }
{
    if i < marks.len() {
        marks[i] = false;
    }
}

// Sets the mark, where there is one.
fn set(marks: &mut Vec<bool>, i: usize)
    ensures { marks.new.items ≡ slice_set marks.old.items i true }
{
    if i < marks.len() {
        marks[i] = true;
    }
}

// Whether each mark from 1 to the last is set.
fn is_all(marks: &[bool], last: u32) -> bool
    requires { last + 1 < 2 ^ 32 }
    ensures { IsTrue result ↔ ((i : ℕ) → 0 < i → i ≤ last → slice_index_or marks.now i false ≡ true) }
{
    for i in 1..last + 1 {
        if i as usize >= marks.len() || !marks[i as usize] {
            return false;
        }
    }
    true
}
