//! What queries showed, as types: an inductive clause, a frame without bad states, a step, a state
//! that leads to a bad one.

use crate::parts::Parent;
use clause_core::{Bits, Clause, Lit, System};
use std::marker::Model;

/// A clause that a query showed to hold one step on: initial states meet it, and a step from a state that
/// meets the parents and the clause (at level 1: from an initial state) ends in its part. The part has some
/// of its literals, those that the query needed: so such a step ends in the clause, too.
#[derive(Drop)]
pub struct Proved<'a> {
    system: &'a System,
    clause: Clause,
    part: Clause,
    level: u32,
    parents: Vec<Parent>,
}

/// A proof taken apart.
#[derive(Drop)]
pub struct ProvedParts {
    pub clause: Clause,
    pub part: Clause,
    pub parents: Vec<Parent>,
}

impl<'a> Model for Proved<'a> {
    ghost use Rattle.frame_core.specs.Facts.{ProvedClause, IsProved};

    ghost Value = { ProvedClause };

    ghost view = { λ p. record { system = p.system.now; clause = p.clause; part = p.part; level = p.level; parents = p.parents.items } };

    ghost invariant = { λ p. IsProved record { system = p.system.now; clause = p.clause; part = p.part; level = p.level; parents = p.parents.items } };
}

impl<'a> Proved<'a> {
    ghost use Rattle.std.specs.Prelude.{◌≡◌};
    ghost use Rattle.frame_core.specs.Facts.{ProvedClause, IsProved};

    /// The fact, of which the caller has a proof.
    pub fn new(
        system: &'a System,
        clause: Clause,
        part: Clause,
        level: u32,
        parents: Vec<Parent>,
    ) -> Proved<'a>
        requires { IsProved record { system = system.now; clause = clause; part = part; level = level; parents = parents.items } }
        ensures { result ≡ record { system = system.now; clause = clause; part = part; level = level; parents = parents.items } }
    {
        Proved {
            system,
            clause,
            part,
            level,
            parents,
        }
    }

    /// The system that it speaks of.
    pub fn system(&self) -> &'a System
        ensures value { result.now ≡ self.now.system }
        ensures shown { IsProved self.now }
    {
        self.system
    }

    /// The clause's literals.
    pub fn clause(&self) -> &[Lit]
        ensures { result.now ≡ self.now.clause }
    {
        self.clause.as_slice()
    }

    /// The clause, its part and the parents; takes no memory.
    pub fn into_parts(self) -> ProvedParts
        ensures clause { result.clause ≡ self.entry.clause }
        ensures part { result.part ≡ self.entry.part }
        ensures parents { result.parents.items ≡ self.entry.parents }
        ensures shown { IsProved self.entry }
    {
        let Proved {
            system: _,
            clause,
            part,
            level: _,
            parents,
        } = self;
        ProvedParts {
            clause,
            part,
            parents,
        }
    }

    /// The literals of the clause that the query needed: the step ends in one of them.
    pub fn part(&self) -> &[Lit]
        ensures { result.now ≡ self.now.part }
    {
        self.part.as_slice()
    }

    /// The level at which it was shown.
    pub fn level(&self) -> u32
        ensures { result ≡ self.now.level }
    {
        self.level
    }

    /// The lemmas that the query used.
    pub fn parents(&self) -> &[Parent]
        ensures { result.now ≡ self.now.parents }
    {
        &self.parents
    }
}

/// A level that a query showed to have no bad state: none that meets the parents is bad, and at level 0
/// no initial state is.
#[derive(Drop)]
pub struct Clear<'a> {
    system: &'a System,
    level: u32,
    parents: Vec<Parent>,
}

impl<'a> Model for Clear<'a> {
    ghost use Rattle.frame_core.specs.Facts.{ClearLevel, IsClear};

    ghost Value = { ClearLevel };

    ghost view = { λ c. record { system = c.system.now; level = c.level; parents = c.parents.items } };

    ghost invariant = { λ c. IsClear record { system = c.system.now; level = c.level; parents = c.parents.items } };
}

impl<'a> Clear<'a> {
    ghost use Rattle.std.specs.Prelude.{◌≡◌};
    ghost use Rattle.frame_core.specs.Facts.{ClearLevel, IsClear};

    /// The fact, of which the caller has a proof.
    pub fn new(system: &'a System, level: u32, parents: Vec<Parent>) -> Clear<'a>
        requires { IsClear record { system = system.now; level = level; parents = parents.items } }
        ensures { result ≡ record { system = system.now; level = level; parents = parents.items } }
    {
        Clear {
            system,
            level,
            parents,
        }
    }

    /// The system that it speaks of.
    pub fn system(&self) -> &'a System
        ensures value { result.now ≡ self.now.system }
        ensures shown { IsClear self.now }
    {
        self.system
    }

    /// The level without bad states.
    pub fn level(&self) -> u32
        ensures { result ≡ self.now.level }
    {
        self.level
    }

    /// The lemmas that the query used.
    pub fn parents(&self) -> &[Parent]
        ensures { result.now ≡ self.now.parents }
    {
        &self.parents
    }

    /// The same, taken out; takes no memory.
    pub fn into_parents(self) -> Vec<Parent>
        ensures value { result.items ≡ self.entry.parents }
        ensures shown { IsClear self.entry }
    {
        let Clear {
            system: _,
            level: _,
            parents,
        } = self;
        parents
    }
}

/// A step that a query found: values of all bits, which show its two states.
#[derive(Drop)]
pub struct Step<'a> {
    system: &'a System,
    values: Bits,
}

impl<'a> Model for Step<'a> {
    ghost use Rattle.frame_core.specs.Facts.{FoundStep, IsStep};

    ghost Value = { FoundStep };

    ghost view = { λ s. record { system = s.system.now; values = s.values } };

    ghost invariant = { λ s. IsStep record { system = s.system.now; values = s.values } };
}

impl<'a> Step<'a> {
    ghost use Rattle.std.specs.Prelude.{◌≡◌};
    ghost use Rattle.frame_core.specs.Facts.{FoundStep, IsStep};

    /// The fact, of which the caller has a proof.
    pub fn new(system: &'a System, values: Bits) -> Step<'a>
        requires { IsStep record { system = system.now; values = values } }
        ensures { result ≡ record { system = system.now; values = values } }
    {
        Step { system, values }
    }

    /// The system that it speaks of.
    pub fn system(&self) -> &'a System
        ensures value { result.now ≡ self.now.system }
        ensures shown { IsStep self.now }
    {
        self.system
    }

    /// Values of all bits: first those of the state that it leads from, then those of the next one.
    pub fn values(&self) -> &Bits
        ensures { result.now ≡ self.now.values }
    {
        &self.values
    }

    /// The values; takes no memory.
    pub fn into_values(self) -> Bits
        ensures { result ≡ self.entry.values }
    {
        let Step { system: _, values } = self;
        values
    }
}

/// A state that a query found: a bad one, or one with a step to another, with values of all bits that
/// show it; and whether the state is an initial one.
#[derive(Drop)]
pub struct StateWitness<'a> {
    system: &'a System,
    values: Bits,
    is_step: bool,
    first: bool,
}

impl<'a> Model for StateWitness<'a> {
    ghost use Rattle.frame_core.specs.Facts.{FoundState, IsFound};

    ghost Value = { FoundState };

    ghost view = { λ f. record { system = f.system.now; values = f.values; is_step = f.is_step; first = f.first } };

    ghost invariant = { λ f. IsFound record { system = f.system.now; values = f.values; is_step = f.is_step; first = f.first } };
}

impl<'a> StateWitness<'a> {
    ghost use Rattle.std.specs.Prelude.{◌≡◌, true};
    ghost use Rattle.frame_core.specs.Facts.{FoundState, IsFound, IsFirstFlag};

    /// The fact, of which the caller has a proof.
    pub fn new(system: &'a System, values: Bits, is_step: bool, first: bool) -> StateWitness<'a>
        requires { IsFound record { system = system.now; values = values; is_step = is_step; first = first } }
        ensures { result ≡ record { system = system.now; values = values; is_step = is_step; first = first } }
    {
        StateWitness {
            system,
            values,
            is_step,
            first,
        }
    }

    /// The state that a step leads from, where it is known whether it is an initial one; takes no memory.
    pub fn of_step(step: Step<'a>, first: bool) -> StateWitness<'a>
        requires { IsFirstFlag step.system step.values first }
        ensures { result ≡ record { system = step.entry.system; values = step.entry.values; is_step = true; first = first } }
    {
        let system = step.system();
        let values = step.into_values();
        StateWitness::new(system, values, true, first)
    }

    /// The system that it speaks of.
    pub fn system(&self) -> &'a System
        ensures value { result.now ≡ self.now.system }
        ensures shown { IsFound self.now }
    {
        self.system
    }

    /// Values of all bits; the state is the first of them.
    pub fn values(&self) -> &Bits
        ensures { result.now ≡ self.now.values }
    {
        &self.values
    }

    /// The values; takes no memory.
    pub fn into_values(self) -> Bits
        ensures { result ≡ self.entry.values }
    {
        let StateWitness {
            system: _,
            values,
            is_step: _,
            first: _,
        } = self;
        values
    }

    /// Whether the values are those of a step, and not of a bad state.
    pub fn is_step(&self) -> bool
        ensures { result ≡ self.now.is_step }
    {
        self.is_step
    }

    /// Whether the state is an initial one.
    pub fn is_first(&self) -> bool
        ensures { result ≡ self.now.first }
    {
        self.first
    }
}
