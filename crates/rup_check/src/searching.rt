//! Finds hints for the steps of a derivation: the clauses that unit propagation used.

ghost use Rattle.std.specs.Prelude.{◌≡◌, ◌≤◌, ◌++◌, [], All, length, IfOk, OnOk, IfSome, MatchBool, MatchOption};
ghost use Rattle.clause_core.specs.Literals.{Within};
ghost use Rattle.clause_core.specs.Propagation.{Follows};
ghost use Rattle.clause_core.specs.Values.{Grows, unset};
ghost use Rattle.hinted_log.specs.Hints.{FollowsBy, IsOpen};
ghost use Rattle.rup_check.specs.Chains.{before, units_of, IsClear};
ghost use Rattle.rup_check.specs.declared.checking.Hints.TheVariants.{Found, No};
ghost use Rattle.rup_check.specs.Searches.{SearchSays, FoundSays, NextSays, AllHintsSay, HintsSay};

use crate::chains::{assume_open, clause_at, clear, follows_by};
use crate::checking::Hints;
use crate::finder::Finder;
use crate::numbered::Numbered;
use crate::passes::Pass;
use clause_core::{Clauses, Lit, Log, Scan, is_within, scan_clause, set};
use hinted_log::Hinted;
use std::alloc::{AllocError, Global};

// How many clauses there are in all, if a number can say it.
fn clause_count(clauses: &Clauses, units: &[Lit], steps: &Clauses) -> Option<usize>
    ensures { IfSome result (λ n. n ≡ length (before clauses.now units.now steps.now (length steps.now))) }
{
    let given = clauses.len().checked_add(units.len())?;
    given.checked_add(steps.len())
}

// One pass over all clauses: sets each literal that a clause is unit on, and notes the clause.
fn search_pass(
    values: &mut [u8],
    clauses: &Clauses,
    units: &[Lit],
    steps: &Clauses,
    n: usize,
    found: &mut Vec<usize>,
) -> Result<Pass, AllocError>
    requires all { n ≡ length (before clauses.now units.now steps.now (length steps.now)) }
    requires within { All (Within (length values.old)) (before clauses.now units.now steps.now (length steps.now)) }
    ensures grows { OnOk result (Grows values.old values.new) }
    ensures less { OnOk result (unset values.new ≤ unset values.old) }
    ensures says { IfOk result (SearchSays (before clauses.now units.now steps.now (length steps.now)) values.old found.old.items values.new found.new.items) }
{
    let count = steps.len();
    let mut changed = false;
    for h in 0..n {
        match clause_at(clauses, units, steps, count, h) {
            None => {}
            Some(c) => match scan_clause(values, c) {
                Scan::False => {
                    found.push(h)?;
                    return Ok(Pass::Conflict);
                }
                Scan::UnitOn(l) => {
                    found.push(h)?;
                    set(values, l);
                    changed = true;
                }
                Scan::Rest => {}
            },
        }
    }
    Ok(if changed { Pass::Changed } else { Pass::Still })
}

// Looks for hints that lead from these values to a clause that is false.
fn search(
    values: &mut [u8],
    clauses: &Clauses,
    units: &[Lit],
    steps: &Clauses,
    found: &mut Vec<usize>,
) -> Result<bool, AllocError>
    requires { All (Within (length values.old)) (before clauses.now units.now steps.now (length steps.now)) }
    ensures { IfOk result (FoundSays (before clauses.now units.now steps.now (length steps.now)) values.old values.new found.new.items) }
{
    found.clear();
    let Some(n) = clause_count(clauses, units, steps) else {
        return Err(AllocError);
    };
    'rounds: loop {
        match search_pass(values, clauses, units, steps, n, found)? {
            Pass::Conflict => return Ok(true),
            Pass::Changed => {}
            Pass::Still => return Ok(false),
        }
    }
}

// Finds hints of the step, if it follows.
fn hints_of(
    values: &mut [u8],
    clauses: &Clauses,
    units: &[Lit],
    steps: &Clauses,
    finder: &mut Finder,
    step: &[Lit],
    found: &mut Vec<usize>,
) -> Result<bool, AllocError>
    requires clear { IsClear values.old }
    requires within { All (Within (length values.old)) (before clauses.now units.now steps.now (length steps.now)) }
    requires in_step { Within (length values.old) step.now }
    requires free { IsOpen step.now }
    ensures { IfOk result (λ b. MatchBool b (FollowsBy (before clauses.now units.now steps.now (length steps.now)) step.now found.new.items) (Follows (before clauses.now units.now steps.now (length steps.now)) step.now → ⊥)) }
{
    let lists = Numbered {
        clauses,
        units,
        steps,
    };
    finder.find(lists, step, found)?;
    let count = steps.len();
    if follows_by(values, clauses, units, steps, count, step, found) {
        return Ok(true);
    }
    finder.doubt();
    if !assume_open(values, step) {
        return Ok(false);
    }
    let follows = search(values, clauses, units, steps, found)?;
    Ok(follows)
}

// Adds the step with hints, if it follows. One that has a literal and its negation is left out: no step
// has need of it.
fn hint_next(
    values: &mut [u8],
    clauses: &Clauses,
    units: &[Lit],
    hinted: &mut Hinted,
    finder: &mut Finder,
    step: &[Lit],
    found: &mut Vec<usize>,
) -> Result<bool, AllocError>
    requires in_clauses { All (Within (length values.old)) clauses.now }
    requires in_units { Within (length values.old) units.now }
    requires in_steps { All (Within (length values.old)) hinted.old.steps }
    requires in_step { Within (length values.old) step.now }
    ensures { IfOk result (NextSays (clauses.now ++ units_of units.now) hinted.old step.now hinted.new) }
{
    values.fill(0);
    if !assume_open(values, step) {
        return Ok(true);
    }
    clear(values, step);
    if !hints_of(values, clauses, units, hinted.steps(), finder, step, found)? {
        return Ok(false);
    }
    hinted.push(step, found)?;
    finder.add(step)?;
    Ok(true)
}

// Adds the steps of the log with their hints to an empty log. The first that does not follow, if any; `found` is room
// to work in.
fn push_hinted(
    values: &mut [u8],
    finder: &mut Finder,
    clauses: &Clauses,
    units: &[Lit],
    log: &Log,
    hinted: &mut Hinted,
    found: &mut Vec<usize>,
) -> Result<Option<usize>, AllocError>
    requires in_clauses { All (Within (length values.old)) clauses.now }
    requires in_units { Within (length values.old) units.now }
    requires empty { hinted.old ≡ record { steps = []; hints = [] } }
    ensures { IfOk result (λ o. MatchOption o (AllHintsSay (length values.old) (clauses.now ++ units_of units.now) log.now (Found hinted.new)) (λ step. AllHintsSay (length values.old) (clauses.now ++ units_of units.now) log.now (No step))) }
{
    let n = log.len();
    finder.begin(values.len(), clauses, units)?;
    for k in 0..n {
        let step = log.get(k);
        if !is_within(step, values.len()) {
            return Ok(Some(k));
        }
        if !hint_next(values, clauses, units, hinted, finder, step, found)? {
            return Ok(Some(k));
        }
    }
    Ok(None)
}

// The hints of all steps of the log, whatever the last one is.
pub(crate) fn hint_all(
    alloc: Global,
    values: &mut [u8],
    finder: &mut Finder,
    clauses: &Clauses,
    units: &[Lit],
    log: &Log,
) -> Result<Hints, AllocError>
    requires in_clauses { All (Within (length values.old)) clauses.now }
    requires in_units { Within (length values.old) units.now }
    ensures { IfOk result (AllHintsSay (length values.old) (clauses.now ++ units_of units.now) log.now) }
{
    let mut hinted = Hinted::new(alloc);
    let mut found = Vec::new(alloc);
    match push_hinted(values, finder, clauses, units, log, &mut hinted, &mut found)? {
        None => Ok(Hints::Found(hinted)),
        Some(step) => Ok(Hints::No { step }),
    }
}

// The hints of all steps of the log, of which the last is to be empty.
pub(crate) fn find_hints(
    alloc: Global,
    values: &mut [u8],
    finder: &mut Finder,
    clauses: &Clauses,
    units: &[Lit],
    log: &Log,
) -> Result<Hints, AllocError>
    requires in_clauses { All (Within (length values.old)) clauses.now }
    requires in_units { Within (length values.old) units.now }
    ensures { IfOk result (HintsSay (length values.old) (clauses.now ++ units_of units.now) log.now) }
{
    let n = log.len();
    match hint_all(alloc, values, finder, clauses, units, log)? {
        Hints::No { step } => Ok(Hints::No { step }),
        Hints::Found(hinted) => {
            if n == 0 {
                return Ok(Hints::No { step: 0 });
            }
            if log.get(n - 1).len() != 0 {
                return Ok(Hints::No { step: n });
            }
            Ok(Hints::Found(hinted))
        }
    }
}
