//! Unit propagation with two watched literals for each clause (Moskewicz and others 2001).

ghost use Rattle.std.specs.Prelude.{◌≡◌, length};
ghost use Rattle.sat_prop.specs.Packing.{pairs};
ghost use Rattle.sat_prop.specs.States.{IsWatching};
ghost use Rattle.sat_prop.specs.Watches.{ShortTrue};

use crate::acts::{add_on, decide_on, learn_on, open_place, undo_on};
use crate::cover::Recent;
use crate::lists::WatchLists;
use crate::propagator::Propagator;
use crate::rows::Rows;
use crate::settle::settle;
use crate::trail::Trail;
use clause_core::{Clauses, Lit};
use std::alloc::{AllocError, Global};

/// The propagator that watches two literals of each clause (Moskewicz and others 2001): a clause is looked
/// at only where one of these becomes false. A clause whose literals include those of a clause learned later need
/// not be watched: it is at rest where the later one is (backward subsumption, as of Eén, Biere 2005).
#[derive(Drop)]
pub struct Watched {
    clauses: Clauses,
    trail: Trail,
    rows: Rows,
    lists: WatchLists,
    short: Vec<usize>,
    // How many of the short clauses, from the first on, are true before all decisions.
    swept: usize,
    head: usize,
    recent: Recent,
    ghost watching: { IsWatching clauses trail rows lists short.items swept head },
}

impl Propagator for Watched {
    ghost clauses = { λ s. s.clauses };

    ghost trail = { λ s. s.trail };

    ghost rested = { λ s. (s.head ≡ length s.trail.literals.items) × ShortTrue s.clauses (pairs s.rows) s.trail.literals.items };

    fn new(alloc: Global, vars: usize) -> Result<Watched, AllocError> {
        if vars > u32::MAX as usize / 2 {
            return Err(AllocError);
        }
        let trail = Trail::new(alloc, vars)?;
        let lists = WatchLists::new(alloc, 2 * vars)?;
        Ok(Watched {
            clauses: Clauses::new(alloc),
            trail,
            rows: Rows::new(alloc),
            lists,
            short: Vec::new(alloc),
            swept: 0,
            head: 0,
            recent: Recent::new(alloc),
        })
    }

    fn assignment(&self) -> &Trail {
        &self.trail
    }

    fn clause_count(&self) -> usize {
        self.clauses.len()
    }

    fn clause(&self, k: usize) -> &[Lit] {
        self.clauses.get(k)
    }

    fn add(&mut self, c: &[Lit]) -> Result<(), AllocError> {
        let w = open_place(&self.trail, c);
        add_on(
            &mut self.clauses,
            &self.trail,
            &mut self.rows,
            &mut self.lists,
            &mut self.short,
            self.swept,
            &mut self.head,
            c,
            w,
        )
    }

    fn learn(&mut self, c: &[Lit], w: usize) -> Result<(), AllocError> {
        learn_on(
            &mut self.clauses,
            &self.trail,
            &mut self.rows,
            &mut self.lists,
            &mut self.short,
            self.swept,
            &mut self.head,
            &mut self.recent,
            c,
            w,
        )
    }

    fn decide(&mut self, l: Lit) -> Result<(), AllocError> {
        decide_on(
            &self.clauses,
            &self.rows,
            &self.short,
            self.swept,
            self.head,
            &mut self.trail,
            l,
        )
    }

    fn undo(&mut self, level: usize) {
        undo_on(
            &self.clauses,
            &self.rows,
            &self.short,
            self.swept,
            &mut self.head,
            &mut self.trail,
            level,
        )
    }

    fn propagate(&mut self) -> Result<Option<usize>, AllocError> {
        settle(
            &self.clauses,
            &mut self.trail,
            &mut self.rows,
            &mut self.lists,
            &self.short,
            &mut self.swept,
            &mut self.head,
        )
    }

    ghost based = { λ s. s.watching.watched.based.reasons };

    ghost within = { λ s. s.watching.watched.based.within };
}
