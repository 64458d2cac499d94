//! Looks for hints by two watched literals of each clause (Moskewicz and others 2001), and leaves out those that the
//! conflict has no need of. Nothing rests on what it finds: `follows_by` tries it, and where it is wrong, or nothing
//! was found, the passes of `search` decide.

use crate::links::{Links, code};
use crate::numbered::Numbered;
use crate::trail::Trail;
use clause_core::{Clauses, Lit};
use std::alloc::{AllocError, Global};

#[derive(Drop)]
pub(crate) struct Finder {
    // The watches of the given clauses, which stay from one log to the next.
    given: Links,
    // The mark of the clauses that `given` watches, if it watches all of a list.
    known: Option<u64>,
    // The watches of the log's units and steps.
    added: Links,
    trail: Trail,
    // Which variables the conflict has need of.
    needed: Vec<u8>,
}

// One number more in a mark.
fn mixed(mark: u64, number: usize) -> u64 {
    (mark ^ (number as u64))
        .wrapping_mul(0x9E37_79B9_7F4A_7C15)
        .rotate_left(23)
}

// The first and the last literal of a clause, in one number.
fn ends(c: &[Lit]) -> usize {
    let first = match c.first() {
        None => 0,
        Some(l) => code(*l),
    };
    let last = match c.last() {
        None => 0,
        Some(l) => code(*l),
    };
    first.wrapping_mul(0xFFFF_FFFB).wrapping_add(last)
}

// How many clauses a mark looks at, at most.
const LOOKS: usize = 64;

// A mark of the list: how many clauses it has, and the ends of some, evenly spread. Two lists seldom have the same.
// Where they do, time is lost and nothing else.
fn mark_of(clauses: &Clauses) -> u64 {
    let mut mark = mixed(0, clauses.len());
    for k in (0..clauses.len()).step_by(clauses.len() / LOOKS + 1) {
        let c = clauses.get(k);
        mark = mixed(mark, ends(c).wrapping_add(c.len()));
    }
    mark
}

// Notes for each variable of the clause whether the conflict has need of it.
fn note(needed: &mut [u8], c: &[Lit], need: u8) {
    for l in c {
        if l.var < needed.len() {
            needed[l.var] = need;
        }
    }
}

impl Finder {
    pub(crate) fn new(alloc: Global) -> Finder {
        Finder {
            given: Links::new(alloc),
            known: None,
            added: Links::new(alloc),
            trail: Trail::new(alloc),
            needed: Vec::new(alloc),
        }
    }

    // Begins a log that follows from these clauses and units over the variables below `vars`.
    pub(crate) fn begin(
        &mut self,
        vars: usize,
        clauses: &Clauses,
        units: &[Lit],
    ) -> Result<(), AllocError> {
        self.given.make_room(vars)?;
        self.added.make_room(vars)?;
        self.trail.make_room(vars)?;
        self.needed.resize(vars, 0)?;
        self.watch_given(clauses)?;
        self.added.clear();
        self.added.add_units(units)
    }

    // Watches the given clauses. Where they are those of the last log, their watches stay as that left them.
    fn watch_given(&mut self, clauses: &Clauses) -> Result<(), AllocError> {
        let mark = mark_of(clauses);
        if let Some(known) = self.known {
            if known == mark {
                return Ok(());
            }
        }
        self.known = None;
        self.given.clear();
        self.given.add_all(clauses)?;
        self.known = Some(mark);
        Ok(())
    }

    // Has the next log watch its clauses anew: nothing was found where there may be something, so the watches may be
    // those of other clauses with the same mark.
    pub(crate) fn doubt(&mut self) {
        self.known = None;
    }

    // Watches one step more.
    pub(crate) fn add(&mut self, step: &[Lit]) -> Result<(), AllocError> {
        self.added.add(step)
    }

    // Sets what the clauses without two different literals ask for. The number of one that is false, plus one, or 0.
    fn set_units(&mut self, lists: Numbered<'_>) -> Result<usize, AllocError> {
        let conflict = self.given.set_units(&mut self.trail, lists, 0)?;
        if conflict != 0 {
            return Ok(conflict);
        }
        self.added
            .set_units(&mut self.trail, lists, lists.clauses.len())
    }

    // Visits all clauses that watch a literal which is false now. The number of one that is false, plus one, or 0.
    fn visit_all(&mut self, lists: Numbered<'_>, l: Lit) -> Result<usize, AllocError> {
        let from = lists.clauses.len();
        let conflict = self.added.visit_all(&mut self.trail, lists, from, l)?;
        if conflict != 0 {
            return Ok(conflict);
        }
        self.given.visit_all(&mut self.trail, lists, 0, l)
    }

    fn propagate(&mut self, lists: Numbered<'_>) -> Result<usize, AllocError> {
        let conflict = self.set_units(lists)?;
        if conflict != 0 {
            return Ok(conflict);
        }
        for q in 0..self.trail.vars() {
            let Some(l) = self.trail.lit(q) else {
                return Ok(0);
            };
            let conflict = self.visit_all(lists, l.negated())?;
            if conflict != 0 {
                return Ok(conflict);
            }
        }
        Ok(0)
    }

    // Lists a clause that the conflict has need of, and notes what it has need of.
    fn list(
        &mut self,
        lists: Numbered<'_>,
        number: usize,
        found: &mut Vec<usize>,
    ) -> Result<(), AllocError> {
        found.push(number)?;
        if let Some(c) = lists.get(number) {
            note(&mut self.needed, c, 1);
        }
        Ok(())
    }

    // The clause that set the literal at this place of the trail, if the conflict has need of it.
    fn needed_reason(&self, at: usize) -> Option<usize> {
        let l = self.trail.lit(at)?;
        let wanted = match self.needed.get(l.var) {
            Some(x) => *x == 1,
            None => false,
        };
        if wanted { self.trail.reason(at) } else { None }
    }

    // The clauses that the conflict has need of, the last one first. Notes what they have need of.
    fn collect(
        &mut self,
        lists: Numbered<'_>,
        conflict: usize,
        found: &mut Vec<usize>,
    ) -> Result<(), AllocError> {
        self.list(lists, conflict, found)?;
        for t in (0..self.trail.len()).rev() {
            if let Some(number) = self.needed_reason(t) {
                self.list(lists, number, found)?;
            }
        }
        Ok(())
    }

    // Forgets what was noted.
    fn forget(&mut self, lists: Numbered<'_>, found: &[usize]) {
        for number in found {
            if let Some(c) = lists.get(*number) {
                note(&mut self.needed, c, 0);
            }
        }
    }

    // The clauses that the conflict has need of, in the order in which they set literals.
    fn trim(
        &mut self,
        lists: Numbered<'_>,
        conflict: usize,
        found: &mut Vec<usize>,
    ) -> Result<(), AllocError> {
        let collected = self.collect(lists, conflict, found);
        self.forget(lists, found);
        found.reverse();
        collected
    }

    // Looks for hints of the step, and leaves set what it has set.
    fn look(
        &mut self,
        lists: Numbered<'_>,
        step: &[Lit],
        found: &mut Vec<usize>,
    ) -> Result<(), AllocError> {
        for l in step {
            if self.trail.state(*l) == 0 {
                self.trail.set(l.negated(), 0)?;
            }
        }
        let conflict = self.propagate(lists)?;
        if conflict != 0 {
            self.trim(lists, conflict - 1, found)?;
        }
        Ok(())
    }

    // Looks for hints of the step: none if nothing is found.
    pub(crate) fn find(
        &mut self,
        lists: Numbered<'_>,
        step: &[Lit],
        found: &mut Vec<usize>,
    ) -> Result<(), AllocError> {
        found.clear();
        let looked = self.look(lists, step, found);
        self.trail.clear();
        if looked.is_err() {
            // Some watches may be lost.
            self.known = None;
        }
        looked
    }
}
