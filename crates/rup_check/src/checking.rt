//! The checker of derivations: by unit propagation (Goldberg and Novikov 2003) or by hints
//! (Cruz-Filipe and others 2017), and hints found for them.

ghost use Rattle.std.specs.Prelude.{◌≡◌, ◌<◌, ◌++◌, All, length, IfOk};
ghost use Rattle.clause_core.specs.Literals.{Within};
ghost use Rattle.clause_core.specs.Derivations.{AllStepsBelow, Derives};
ghost use Rattle.hinted_log.specs.Hints.{IsHinted, Refutes};
ghost use Rattle.rup_check.specs.Chains.{units_of, HintedVerdict};
ghost use Rattle.rup_check.specs.Searches.{Covers, HintsSay};
ghost use Rattle.rup_check.specs.Verdicts.{VerdictSays};

use crate::finder::Finder;
use crate::following::follows;
use crate::searching::{find_hints, hint_all};
use crate::steps::check_steps;
use clause_core::{Clauses, Lit, Log, is_within};
use hinted_log::Hinted;
use std::alloc::{AllocError, Global};
use std::marker::Model;

/// What a check says of a log.
#[derive(Clone, Copy, PartialEq, Eq, Debug)]
pub enum LogVerdict {
    /// Each step follows, and the last is the empty clause.
    Yes,
    /// This is the first step that does not follow; or, with the log's length, its last step is not empty
    /// or it has none.
    No { step: usize },
}

/// What a look for hints gives.
#[derive(Drop)]
pub enum Hints {
    /// The log's steps with their hints, without those that have a literal and its negation.
    Found(Hinted),
    /// The log fails first at this step, as `Checker::check` says it.
    No { step: usize },
}

/// Checks derivations over a number of variables, which is all that contracts see of it.
#[derive(Drop)]
pub struct Checker {
    values: Vec<u8>,
    // What looks for hints, kept for the next log. Contracts do not see it: what it finds is tried.
    finder: Finder,
}

impl Model for Checker {
    ghost use Rattle.std.specs.Prelude.{ℕ, length};

    ghost Value = { ℕ };

    ghost view = { λ c. length c.values.items };

    ghost use Rattle.clause_core.specs.Derivations.{AllStepsBelow, Derives};
    ghost use Rattle.hinted_log.specs.Hints.{IsHinted, Refutes};
    ghost use Rattle.rup_check.specs.Chains.{IsClear};

    ghost invariant = { λ c. IsClear c.values.items };
}

impl Checker {
    /// A checker for clauses over the variables below `vars`: one byte for each. The first look for hints takes
    /// more, in proportion to the variables and the clauses, and keeps it for the next.
    pub fn new(alloc: Global, vars: usize) -> Result<Checker, AllocError>
        ensures { IfOk result (λ c. c ≡ vars) }
    {
        let values = vec![in alloc; 0; vars]?;
        Ok(Checker {
            values,
            finder: Finder::new(alloc),
        })
    }

    /// Whether the log derives the empty clause from the clauses: `Yes` exactly where it does, and `No`
    /// exactly with the first step that fails. A step with a literal past the variables does not follow.
    /// The clauses may be of any length and may repeat.
    ///
    /// Takes no memory. For each step it goes over the clauses and the steps before it until nothing is
    /// left to set. So its time grows with the product of the log's length and the number of all clauses,
    /// times the rounds. These are about ten a step on logs of real solvers: some seconds for ten thousand
    /// steps over a thousand clauses.
    pub fn check(&mut self, clauses: &Clauses, log: &Log) -> LogVerdict
        requires { All (Within self.old) clauses.now }
        ensures vars { self.new ≡ self.old }
        ensures says { VerdictSays self.old clauses.now log.now result }
    {
        let verdict = check_log(&mut self.values, clauses, log);
        self.values.fill(0);
        verdict
    }

    /// Whether the steps follow by their hints from the clauses, and the last is empty: `Yes` exactly where
    /// it is so, and `No` exactly with the first step that fails, or with the number of steps where each
    /// follows and the last is not empty or there is none. A step with a literal past the variables does
    /// not follow.
    ///
    /// Takes no memory. Its time is that of a few looks at each literal of the steps and of the clauses
    /// that they name.
    pub fn check_hinted(&mut self, clauses: &Clauses, log: &Hinted) -> LogVerdict
        requires { All (Within self.old) clauses.now }
        ensures vars { self.new ≡ self.old }
        ensures says { HintedVerdict self.old clauses.now log.now result }
    {
        check_steps(&mut self.values, clauses, &[], log)
    }

    /// The hints by which the log's steps follow from the clauses and the units behind them: `No` exactly
    /// where `check` says it, with the same step. More clauses than the greatest `usize` count as out of
    /// memory.
    pub fn hints(
        &mut self,
        alloc: Global,
        clauses: &Clauses,
        units: &[Lit],
        log: &Log,
    ) -> Result<Hints, AllocError>
        requires clauses { All (Within self.old) clauses.now }
        requires units { Within self.old units.now }
        ensures vars { self.new ≡ self.old }
        ensures says { IfOk result (HintsSay self.old (clauses.now ++ units_of units.now) log.now) }
    {
        let found = find_hints(
            alloc,
            &mut self.values,
            &mut self.finder,
            clauses,
            units,
            log,
        );
        self.values.fill(0);
        found
    }

    /// Hints for the steps of a log that follow one after another from the clauses, whatever the last one is. Steps
    /// with a literal and its negation are left out. More clauses than the greatest `usize` count as out of memory.
    pub fn hint_steps(
        &mut self,
        alloc: Global,
        clauses: &Clauses,
        log: &Log,
    ) -> Result<Hinted, AllocError>
        requires clauses { All (Within self.old) clauses.now }
        requires follow { AllStepsBelow self.old clauses.now log.now (length log.now) }
        ensures vars { self.new ≡ self.old }
        ensures says { IfOk result (λ h. IsHinted self.old clauses.now h) }
        ensures covers { IfOk result (λ h. Covers h.steps log.now) }
    {
        let found = hint_all(alloc, &mut self.values, &mut self.finder, clauses, &[], log);
        self.values.fill(0);
        match found? {
            Hints::Found(hinted) => Ok(hinted),
            // Cannot come, as each step follows.
            Hints::No { .. } => Err(AllocError),
        }
    }

    /// Hints for a log that derives the empty clause from the clauses and the units behind them. More clauses than the
    /// greatest `usize` count as out of memory.
    pub fn hint_refutation(
        &mut self,
        alloc: Global,
        clauses: &Clauses,
        units: &[Lit],
        log: &Log,
    ) -> Result<Hinted, AllocError>
        requires clauses { All (Within self.old) clauses.now }
        requires units { Within self.old units.now }
        requires derives { Derives self.old (clauses.now ++ units_of units.now) log.now }
        ensures vars { self.new ≡ self.old }
        ensures says { IfOk result (λ h. Refutes self.old (clauses.now ++ units_of units.now) h) }
    {
        match self.hints(alloc, clauses, units, log)? {
            Hints::Found(hinted) => Ok(hinted),
            // Cannot come, as the log derives the empty clause.
            Hints::No { .. } => Err(AllocError),
        }
    }

    /// The same as `check_hinted` from the clauses with a clause of one literal for each of the units behind them,
    /// numbered through.
    pub fn check_hinted_with(
        &mut self,
        clauses: &Clauses,
        units: &[Lit],
        log: &Hinted,
    ) -> LogVerdict
        requires clauses { All (Within self.old) clauses.now }
        requires units { Within self.old units.now }
        ensures vars { self.new ≡ self.old }
        ensures says { HintedVerdict self.old (clauses.now ++ units_of units.now) log.now result }
    {
        check_steps(&mut self.values, clauses, units, log)
    }
}

fn check_log(values: &mut [u8], clauses: &Clauses, log: &Log) -> LogVerdict
    requires { All (Within (length values.old)) clauses.now }
    ensures { VerdictSays (length values.old) clauses.now log.now result }
{
    let n = log.len();
    for k in 0..n {
        let step = log.get(k);
        if !is_within(step, values.len()) {
            return LogVerdict::No { step: k };
        }
        if !follows(values, clauses, log, k, step) {
            return LogVerdict::No { step: k };
        }
    }
    if n == 0 {
        return LogVerdict::No { step: 0 };
    }
    if log.get(n - 1).len() != 0 {
        return LogVerdict::No { step: n };
    }
    LogVerdict::Yes
}
