//! Where the variables of a monitored system lie, and where those of the system and of the monitor
//! go.

ghost use Rattle.std.specs.Prelude.{◌≡◌, ◌+◌, ◌++◌, List, map, IfOk, OnOk};
ghost use Rattle.ltl_monitor.specs.Drafting.{place, moved, all_moved, both};

use clause_core::{Clauses, Lit};
use sqlite_items::Items;
use std::alloc::{AllocError, Global};

// How a monitored system's variables are laid out: the system's state bits, and the bits of temporal
// operators; these again for the state after a step; the system's other variables; and from `inner`
// on, in turns, what is defined of the state before a step and of the one after it.
#[derive(Clone, Copy, Drop)]
pub struct Layout {
    // How many state bits the system has.
    pub given: usize,
    // How many temporal operators the formula has.
    pub nodes: usize,
    // The first variable after those of the system.
    pub inner: usize,
}

// Where variables go.
#[derive(Clone, Copy)]
pub enum Space {
    // From the system's to those of one state: its bits, and what is defined of it.
    Local,
    // From the system's to the monitored system's.
    System,
    // From those of one state to the state before a step.
    Now,
    // From those of one state to the state after a step.
    Next,
}

// A literal of one state, and what it is before a step and after it.
#[derive(Clone, Copy, Drop)]
pub struct Both {
    pub here: Lit,
    pub now: Lit,
    pub next: Lit,
}

// A sum, or out of memory where it is too large: there is no room for so many variables.
pub fn sum(a: usize, b: usize) -> Result<usize, AllocError>
    ensures { IfOk result (λ n. n ≡ a + b) }
{
    let Some(n) = a.checked_add(b) else {
        return Err(AllocError);
    };
    Ok(n)
}

impl Layout {
    // Where a variable goes.
    pub fn place(&self, space: Space, var: usize) -> Result<usize, AllocError>
        ensures { IfOk result (λ v. v ≡ place self.now space var) }
    {
        match space {
            Space::Local => self.local(var),
            Space::System => self.system(var),
            Space::Now => self.at_now(var),
            Space::Next => self.at_next(var),
        }
    }

    fn local(&self, var: usize) -> Result<usize, AllocError>
        ensures { IfOk result (λ v. v ≡ place self.now Space.Local var) }
    {
        if var < self.given {
            Ok(var)
        } else {
            sum(var, self.nodes)
        }
    }

    fn system(&self, var: usize) -> Result<usize, AllocError>
        ensures { IfOk result (λ v. v ≡ place self.now Space.System var) }
    {
        if var < self.given {
            Ok(var)
        } else if var - self.given < self.given {
            sum(var, self.nodes)
        } else {
            sum(sum(var, self.nodes)?, self.nodes)
        }
    }

    fn at_now(&self, var: usize) -> Result<usize, AllocError>
        ensures { IfOk result (λ v. v ≡ place self.now Space.Now var) }
    {
        let state = sum(self.given, self.nodes)?;
        if var < state {
            Ok(var)
        } else {
            let turn = var - state;
            sum(self.inner, sum(turn, turn)?)
        }
    }

    fn at_next(&self, var: usize) -> Result<usize, AllocError>
        ensures { IfOk result (λ v. v ≡ place self.now Space.Next var) }
    {
        let state = sum(self.given, self.nodes)?;
        if var < state {
            sum(state, var)
        } else {
            let turn = var - state;
            sum(sum(self.inner, sum(turn, turn)?)?, 1)
        }
    }

    // A literal where its variable goes.
    pub fn moved(&self, space: Space, literal: Lit) -> Result<Lit, AllocError>
        ensures { IfOk result (λ l. l ≡ moved self.now space literal) }
    {
        let var = self.place(space, literal.var)?;
        Ok(Lit::new(var, literal.positive))
    }

    // A literal of one state, before a step and after it.
    pub fn both(&self, here: Lit) -> Result<Both, AllocError>
        ensures { IfOk result (λ b. b ≡ both self.now here) }
    {
        let now = self.moved(Space::Now, here)?;
        let next = self.moved(Space::Next, here)?;
        Ok(Both { here, now, next })
    }

    // Literals where their variables go.
    pub fn moved_all(
        &self,
        alloc: Global,
        space: Space,
        literals: &[Lit],
    ) -> Result<Items<Lit>, AllocError>
        ensures { IfOk result (λ ls. ls ≡ map (moved self.now space) literals.now) }
    {
        let mut all = Items::new(alloc);
        for literal in literals {
            all.push(self.moved(space, *literal)?)?;
        }
        Ok(all)
    }

    // Adds clauses where their variables go.
    pub fn copy(
        &self,
        alloc: Global,
        space: Space,
        clauses: &Clauses,
        into: &mut Clauses,
    ) -> Result<(), AllocError>
        ensures { OnOk result (into.new ≡ into.old ++ all_moved self.now space clauses.now) }
    {
        for k in 0..clauses.len() {
            let clause = self.moved_all(alloc, space, clauses.get(k))?;
            into.push(clause.as_slice())?;
        }
        Ok(())
    }
}
