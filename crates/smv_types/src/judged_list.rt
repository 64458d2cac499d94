//! What is noted of nodes, one after another. What breaks no rule anywhere takes little room.

ghost use Rattle.std.specs.Prelude.{◌≡◌, ◌++◌, [], ◌∷◌, map, IfOk, OnOk};
ghost use Rattle.smv_resolve.specs.Resolved.{last_of};
ghost use Rattle.smv_types.specs.Briefs.{brief_of, breaks_nothing, broken_at, broken_of, broken_within, has_no_notes, judged_by, judged_with, no_break};
ghost use Rattle.smv_types.specs.Judged.{judged_at, no_notes, nothing};

use crate::judged::{Indexing, Judged, Notes, Violation};
use smv_resolve::last;
use smv_tree::Place;
use smv_verdicts::START;
use std::alloc::{AllocError, Global};
use std::marker::Model;

/// What an expression breaks.
#[derive(Clone, Copy)]
pub struct Broken<'c> {
    pub notes: Notes<'c>,
    pub inner: Option<Violation>,
    pub defined: Option<Violation>,
}

/// What is noted of an expression, with the number of what it breaks, if it breaks something.
#[derive(Clone, Copy)]
pub struct Brief {
    pub place: Place,
    pub broken: Option<usize>,
    pub indexing: Indexing,
    pub is_window: bool,
    pub takes_init: bool,
    pub takes_later: bool,
}

/// What is noted of nodes. Contracts see it as a list.
#[derive(Drop)]
pub struct JudgedList<'c> {
    briefs: Vec<Brief>,
    broken: Vec<Broken<'c>>,
}

impl<'c> Model for JudgedList<'c> {
    ghost use Rattle.std.specs.Prelude.{◌≡◌, List, length, map, true};
    ghost use Rattle.std.specs.List.{list_all};
    ghost use Rattle.smv_types.specs.declared.judged.Judged.{Judged};
    ghost use Rattle.smv_types.specs.Briefs.{is_there, judged_by};

    ghost Value = { List Judged };

    ghost view = { λ s. map (judged_by s.broken.items) s.briefs.items };

    ghost invariant = { λ s. list_all (is_there (length s.broken.items)) s.briefs.items ≡ true };
}

impl<'c> JudgedList<'c> {
    /// An empty list with room for so many.
    pub fn with_capacity(alloc: Global, count: usize) -> Result<JudgedList<'c>, AllocError>
        ensures { IfOk result (λ t. t ≡ []) }
    {
        let briefs = Vec::with_capacity(alloc, count)?;
        Ok(JudgedList {
            briefs,
            broken: Vec::new(alloc),
        })
    }

    /// What is noted at this number.
    pub fn at(&self, k: usize) -> Judged<'c>
        ensures { result ≡ judged_at self.now k }
    {
        brief_at(self.briefs.as_slice(), self.broken.as_slice(), k)
    }

    /// The last so many.
    pub fn last(&self, alloc: Global, count: usize) -> Result<Vec<Judged<'c>>, AllocError>
        ensures { IfOk result (λ list. list.items ≡ last_of count self.now) }
    {
        judged_by_all(
            alloc,
            self.broken.as_slice(),
            last(self.briefs.as_slice(), count),
        )
    }

    /// One more.
    pub fn push(&mut self, judged: Judged<'c>) -> Result<(), AllocError>
        ensures { OnOk result (self.new ≡ self.old ++ judged.entry ∷ []) }
    {
        if breaks_nothing(broken_of(judged)) {
            self.briefs.push(brief_of(judged, None))?;
            Ok(())
        } else {
            self.push_broken(judged)
        }
    }

    // One more, which breaks something.
    fn push_broken(&mut self, judged: Judged<'c>) -> Result<(), AllocError>
        ensures { OnOk result (self.new ≡ self.old ++ judged.entry ∷ []) }
    {
        let number = self.broken.as_slice().len();
        self.broken.push(broken_of(judged))?;
        self.briefs.push(brief_of(judged, Some(number)))?;
        Ok(())
    }
}

// What is noted at this number.
fn brief_at<'c>(briefs: &[Brief], broken: &[Broken<'c>], k: usize) -> Judged<'c>
    ensures { result ≡ judged_at (map (judged_by broken.now) briefs.now) k }
{
    match briefs.get(k) {
        None => nothing(),
        Some(brief) => judged_by(broken, *brief),
    }
}

fn judged_by_all<'c>(
    alloc: Global,
    broken: &[Broken<'c>],
    briefs: &[Brief],
) -> Result<Vec<Judged<'c>>, AllocError>
    ensures { IfOk result (λ list. list.items ≡ map (judged_by broken.now) briefs.now) }
{
    let mut list = Vec::with_capacity(alloc, briefs.len())?;
    for brief in briefs {
        list.push(judged_by(broken, *brief))?;
    }
    Ok(list)
}

fn judged_by<'c>(broken: &[Broken<'c>], brief: Brief) -> Judged<'c>
    ensures { result ≡ judged_by broken.now brief }
{
    judged_with(brief, broken_within(broken, brief.broken))
}

fn judged_with<'c>(brief: Brief, broken: Broken<'c>) -> Judged<'c>
    ensures { result ≡ judged_with brief broken.entry }
{
    Judged {
        place: brief.place,
        notes: broken.notes,
        inner: broken.inner,
        defined: broken.defined,
        indexing: brief.indexing,
        is_window: brief.is_window,
        takes_init: brief.takes_init,
        takes_later: brief.takes_later,
    }
}

// What has this number.
fn broken_within<'c>(broken: &[Broken<'c>], number: Option<usize>) -> Broken<'c>
    ensures { result ≡ broken_within broken.now number }
{
    match number {
        None => no_break(),
        Some(n) => broken_at(broken, n),
    }
}

fn broken_at<'c>(broken: &[Broken<'c>], n: usize) -> Broken<'c>
    ensures { result ≡ broken_at broken.now n }
{
    match broken.get(n) {
        None => no_break(),
        Some(found) => *found,
    }
}

fn no_break<'c>() -> Broken<'c>
    ensures { result ≡ no_break }
{
    Broken {
        notes: no_notes(),
        inner: None,
        defined: None,
    }
}

fn no_notes<'c>() -> Notes<'c>
    ensures { result ≡ no_notes }
{
    Notes {
        step: None,
        step_set: None,
        name: None,
        name_set: None,
        state: None,
        state_set: None,
        path: None,
    }
}

// What is noted of nothing.
fn nothing<'c>() -> Judged<'c>
    ensures { result ≡ nothing }
{
    Judged {
        place: START,
        notes: no_notes(),
        inner: None,
        defined: None,
        indexing: Indexing {
            by_constant: false,
            passed: false,
            asked: false,
            within: false,
        },
        is_window: false,
        takes_init: false,
        takes_later: false,
    }
}

fn broken_of<'c>(judged: Judged<'c>) -> Broken<'c>
    ensures { result ≡ broken_of judged.entry }
{
    Broken {
        notes: judged.notes,
        inner: judged.inner,
        defined: judged.defined,
    }
}

fn brief_of(judged: Judged<'_>, broken: Option<usize>) -> Brief
    ensures { result ≡ brief_of judged.entry broken }
{
    Brief {
        place: judged.place,
        broken,
        indexing: judged.indexing,
        is_window: judged.is_window,
        takes_init: judged.takes_init,
        takes_later: judged.takes_later,
    }
}

fn breaks_nothing(broken: Broken<'_>) -> bool
    ensures { result ≡ breaks_nothing broken.entry }
{
    broken.inner.is_none() && broken.defined.is_none() && has_no_notes(broken.notes)
}

fn has_no_notes(notes: Notes<'_>) -> bool
    ensures { result ≡ has_no_notes notes.entry }
{
    notes.step.is_none()
        && notes.step_set.is_none()
        && notes.name.is_none()
        && notes.name_set.is_none()
        && notes.state.is_none()
        && notes.state_set.is_none()
        && notes.path.is_none()
}
