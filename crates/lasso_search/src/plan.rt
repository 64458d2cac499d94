//! Numbers the variables of an unrolling, time after time and by kinds within each time.

ghost use Rattle.std.specs.Prelude.{◌≡◌, ◌+◌, ◌++◌, map, IfOk, OnOk};
ghost use Rattle.lasso_search.specs.Unrolling.{plan_of, stride, spot, loop_kind, place, moved, all_moved, begun_literal, ends, seen, vars_at};

use clause_core::{Clauses, Lit, System};
use std::alloc::{AllocError, Global};

// How the variables of an unrolling lie: first a copy of the state bits and what only the clauses of an initial
// state have, then those of one time after another, as many for each, by kinds: the system's variables, those
// that only its steps have, two that tell of the loop, and one for each fairness set.
#[derive(Clone, Copy, Drop)]
pub struct Plan {
    // How many state bits the system has.
    pub bits: usize,
    // How many variables the system has.
    pub all: usize,
    // How many fairness sets it has.
    pub sets: usize,
}

// A copy of the system's variables.
#[derive(Clone, Copy, Drop)]
pub enum Turn {
    // Of the initial state.
    First,
    // Of a state and what is defined of it.
    State(usize),
    // Of a step from a state to the next.
    Step(usize),
}

// A sum, or out of memory where it is too large: there is no room for so many variables.
pub fn sum(a: usize, b: usize) -> Result<usize, AllocError>
    ensures { IfOk result (λ n. n ≡ a + b) }
{
    let Some(n) = a.checked_add(b) else {
        return Err(AllocError);
    };
    Ok(n)
}

impl Plan {
    // How the variables lie for a system.
    pub fn new(system: &System) -> Plan
        ensures { result ≡ plan_of system.now }
    {
        Plan {
            bits: system.state_bits(),
            all: system.all_bits(),
            sets: system.fair().len(),
        }
    }

    // The kind of the variables that tell where the loop begins.
    fn loop_kind(&self) -> Result<usize, AllocError>
        ensures { IfOk result (λ k. k ≡ loop_kind self.now) }
    {
        let inner = self.all.saturating_sub(self.bits).saturating_sub(self.bits);
        let kind = sum(self.all, inner)?;
        Ok(kind)
    }

    // How many variables a time has.
    fn stride(&self) -> Result<usize, AllocError>
        ensures { IfOk result (λ n. n ≡ stride self.now) }
    {
        let kinds = sum(self.loop_kind()?, 2)?;
        let stride = sum(kinds, self.sets)?;
        Ok(stride)
    }

    // The variable of a kind at a time.
    pub fn spot(&self, kind: usize, time: usize) -> Result<usize, AllocError>
        ensures { IfOk result (λ v. v ≡ spot self.now kind time) }
    {
        let Some(first) = time.checked_mul(self.stride()?) else {
            return Err(AllocError);
        };
        let var = sum(self.all, sum(first, kind)?)?;
        Ok(var)
    }

    // How many variables there are for so many steps.
    pub fn variables(&self, steps: usize) -> Result<usize, AllocError>
        ensures { IfOk result (λ n. n ≡ vars_at self.now steps) }
    {
        self.spot(0, sum(steps, 1)?)
    }

    // Where a variable of the system goes.
    pub fn place(&self, turn: Turn, var: usize) -> Result<usize, AllocError>
        ensures { IfOk result (λ v. v ≡ place self.now turn var) }
    {
        match turn {
            Turn::First => self.first(var),
            Turn::State(time) => self.spot(var, time),
            Turn::Step(time) => self.step(time, var),
        }
    }

    fn first(&self, var: usize) -> Result<usize, AllocError>
        ensures { IfOk result (λ v. v ≡ place self.now Turn.First var) }
    {
        if var < self.bits {
            self.spot(var, 0)
        } else {
            Ok(var)
        }
    }

    fn step(&self, time: usize, var: usize) -> Result<usize, AllocError>
        ensures { IfOk result (λ v. v ≡ place self.now (Turn.Step time) var) }
    {
        if var < self.bits {
            self.spot(var, time)
        } else if var - self.bits < self.bits {
            let next = sum(time, 1)?;
            self.spot(var - self.bits, next)
        } else {
            let kind = sum(var - self.bits - self.bits, self.all)?;
            self.spot(kind, time)
        }
    }

    // A literal of the system where its variable goes.
    pub fn moved(&self, turn: Turn, literal: Lit) -> Result<Lit, AllocError>
        ensures { IfOk result (λ l. l ≡ moved self.now turn literal) }
    {
        let var = self.place(turn, literal.var)?;
        Ok(Lit::new(var, literal.positive))
    }

    // That the loop begins before a time.
    pub fn begun_literal(&self, time: usize) -> Result<Lit, AllocError>
        ensures { IfOk result (λ l. l ≡ begun_literal self.now time) }
    {
        let var = self.spot(self.loop_kind()?, time)?;
        Ok(Lit::new(var, true))
    }

    // That the state at a time is the one at which the loop begins.
    pub fn ends(&self, time: usize) -> Result<Lit, AllocError>
        ensures { IfOk result (λ l. l ≡ ends self.now time) }
    {
        let kind = sum(self.loop_kind()?, 1)?;
        let var = self.spot(kind, time)?;
        Ok(Lit::new(var, true))
    }

    // That a fairness set was met in the loop before a time.
    pub fn seen(&self, set: usize, time: usize) -> Result<Lit, AllocError>
        ensures { IfOk result (λ l. l ≡ seen self.now set time) }
    {
        let first = sum(self.loop_kind()?, 2)?;
        let var = self.spot(sum(first, set)?, time)?;
        Ok(Lit::new(var, true))
    }

    // Adds clauses of the system where their variables go.
    pub fn copy(
        &self,
        alloc: Global,
        turn: Turn,
        clauses: &Clauses,
        into: &mut Clauses,
    ) -> Result<(), AllocError>
        ensures { OnOk result (into.new ≡ into.old ++ all_moved self.now turn clauses.now) }
    {
        for k in 0..clauses.len() {
            let clause = self.moved_all(alloc, turn, clauses.get(k))?;
            into.push(&clause)?;
        }
        Ok(())
    }

    fn moved_all(&self, alloc: Global, turn: Turn, literals: &[Lit]) -> Result<Vec<Lit>, AllocError>
        ensures { IfOk result (λ ls. ls.items ≡ map (moved self.now turn) literals.now) }
    {
        let mut all = Vec::new(alloc);
        for literal in literals {
            all.push(self.moved(turn, *literal)?)?;
        }
        Ok(all)
    }
}
