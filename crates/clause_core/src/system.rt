//! Transition systems over bits, as clauses: initial states, steps, bad and good states, and fairness
//! literals.

ghost use Rattle.std.specs.Prelude.{◌≡◌, [], ◌∷◌, IfOk, map};
ghost use Rattle.clause_core.specs.Literals.{negate, units};

use crate::clause::{Clause, Clauses};
use crate::literal::Lit;
use std::alloc::{AllocError, Global};
use std::marker::Model;

/// A transition system over bits. A state is a value for each of the first `state_bits` variables;
/// the bit of the next state that belongs to state bit b is variable `state_bits + b`; the variables
/// after these, below `all_bits`, are inputs and what the clauses were built with.
///
/// Its type keeps that twice `state_bits` is at most `all_bits`, and that no literal is past `all_bits`.
/// Each state meets either the good clauses or the bad ones. The definitions give the variables of
/// `fair`, and their own, from the state bits, in one way for each state.
#[derive(Drop)]
pub struct System {
    state_bits: usize,
    all_bits: usize,
    init: Clauses,
    step: Clauses,
    bad: Clauses,
    good: Clauses,
    fair: Clause,
    defs: Clauses,
}

impl Model for System {
    ghost use Rattle.clause_core.specs.Systems.{TransitionSystem, IsSystem};

    ghost Value = { TransitionSystem };

    ghost view = { λ s. record { state_bits = s.state_bits; all_bits = s.all_bits; init = s.init; step = s.step; bad = s.bad; good = s.good; fair = s.fair; defs = s.defs } };

    ghost invariant = { λ s. IsSystem record { state_bits = s.state_bits; all_bits = s.all_bits; init = s.init; step = s.step; bad = s.bad; good = s.good; fair = s.fair; defs = s.defs } };
}

/// The parts of a system, by name.
#[derive(Drop)]
pub struct Parts {
    pub state_bits: usize,
    pub all_bits: usize,
    pub init: Clauses,
    pub step: Clauses,
    pub bad: Clauses,
    pub good: Clauses,
    pub fair: Clause,
    pub defs: Clauses,
}

impl System {
    ghost use Rattle.std.specs.Prelude.{◌≡◌, ◌*◌, ◌≤◌, [], ◌∷◌, All, IfOk, map};
    ghost use Rattle.clause_core.specs.Literals.{Within, negate, units};
    ghost use Rattle.clause_core.specs.Systems.{TransitionSystem, IsSystem};

    /// The system of these parts; takes no memory.
    pub fn new(parts: Parts) -> System
        requires { IsSystem record { state_bits = parts.state_bits; all_bits = parts.all_bits; init = parts.init; step = parts.step; bad = parts.bad; good = parts.good; fair = parts.fair; defs = parts.defs } }
        ensures { result ≡ record { state_bits = parts.state_bits; all_bits = parts.all_bits; init = parts.init; step = parts.step; bad = parts.bad; good = parts.good; fair = parts.fair; defs = parts.defs } }
    {
        let Parts {
            state_bits,
            all_bits,
            init,
            step,
            bad,
            good,
            fair,
            defs,
        } = parts;
        System {
            state_bits,
            all_bits,
            init,
            step,
            bad,
            good,
            fair,
            defs,
        }
    }

    /// The system with no fairness literals and no definitions, whose bad states are those in which each of
    /// these literals is true. The only error is out of memory.
    pub fn plain(
        alloc: Global,
        state_bits: usize,
        all_bits: usize,
        init: Clauses,
        step: Clauses,
        bad: &[Lit],
    ) -> Result<System, AllocError>
        requires room { 2 * state_bits ≤ all_bits }
        requires init_in { All (Within all_bits) init }
        requires step_in { All (Within all_bits) step }
        requires bad_in { Within state_bits bad.now }
        ensures { IfOk result (λ s. s ≡ record { state_bits = state_bits; all_bits = all_bits; init = init; step = step; bad = units bad.now; good = map negate bad.now ∷ []; fair = []; defs = [] }) }
    {
        let good = negation(alloc, bad)?;
        let bad = unit_clauses(alloc, bad)?;
        Ok(System::new(Parts {
            state_bits,
            all_bits,
            init,
            step,
            bad,
            good,
            fair: Clause::from_vec(Vec::new(alloc)),
            defs: Clauses::new(alloc),
        }))
    }

    /// What the type keeps. It does nothing.
    pub fn law(&self)
        ensures { IsSystem self.now }
    {
        let _bits = self.state_bits;
    }

    /// How many state bits there are.
    pub fn state_bits(&self) -> usize
        ensures value { result ≡ self.now.state_bits }
        ensures room { 2 * result ≤ self.now.all_bits }
    {
        self.state_bits
    }

    /// How many variables there are.
    pub fn all_bits(&self) -> usize
        ensures value { result ≡ self.now.all_bits }
        ensures room { 2 * self.now.state_bits ≤ result }
    {
        self.all_bits
    }

    /// The clauses of an initial state.
    pub fn init(&self) -> &Clauses
        ensures { result.now ≡ self.now.init }
    {
        &self.init
    }

    /// The clauses of a step.
    pub fn step(&self) -> &Clauses
        ensures { result.now ≡ self.now.step }
    {
        &self.step
    }

    /// The clauses of a bad state.
    pub fn bad(&self) -> &Clauses
        ensures { result.now ≡ self.now.bad }
    {
        &self.bad
    }

    /// The clauses of a state that is not bad.
    pub fn good(&self) -> &Clauses
        ensures { result.now ≡ self.now.good }
    {
        &self.good
    }

    /// The literals each of which is true infinitely often on a fair run.
    pub fn fair(&self) -> &[Lit]
        ensures { result.now ≡ self.now.fair }
    {
        self.fair.as_slice()
    }

    /// The clauses that give the variables of `fair` and of atoms from the state bits.
    pub fn defs(&self) -> &Clauses
        ensures { result.now ≡ self.now.defs }
    {
        &self.defs
    }
}

// A clause of one literal for each literal.
fn unit_clauses(alloc: Global, lits: &[Lit]) -> Result<Clauses, AllocError>
    ensures { IfOk result (λ cs. cs ≡ units lits.now) }
{
    let mut clauses = Clauses::new(alloc);
    for l in lits {
        clauses.push(&[*l])?;
    }
    Ok(clauses)
}

// The one clause that says that some literal is false.
fn negation(alloc: Global, lits: &[Lit]) -> Result<Clauses, AllocError>
    ensures { IfOk result (λ cs. cs ≡ map negate lits.now ∷ []) }
{
    let negated = negations(alloc, lits)?;
    one_clause(alloc, &negated)
}

fn negations(alloc: Global, lits: &[Lit]) -> Result<Vec<Lit>, AllocError>
    ensures { IfOk result (λ r. r.items ≡ map negate lits.now) }
{
    lits.iter().map(|l| l.negated()).collect(alloc)
}

fn one_clause(alloc: Global, lits: &[Lit]) -> Result<Clauses, AllocError>
    ensures { IfOk result (λ cs. cs ≡ lits.now ∷ []) }
{
    let mut clauses = Clauses::new(alloc);
    clauses.push(lits)?;
    Ok(clauses)
}
