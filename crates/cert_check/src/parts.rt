//! Judges the derivation of one part by unit propagation (Goldberg and Novikov 2003) or by its
//! hints (Cruz-Filipe and others 2017).

ghost use Rattle.std.specs.Prelude.{◌≡◌, ◌<◌, ◌≤◌, ◌*◌, ◌++◌, length, All, IfOk, MatchBool, slice_index_or};
ghost use Rattle.clause_core.specs.Literals.{Within};
ghost use Rattle.hinted_log.specs.Hints.{IsHinted};
ghost use Rattle.cert_core.specs.Blocks.{part_of};
ghost use Rattle.cert_core.specs.Certificates.{unit_clauses, shared_steps, StepsShow, Shows};
ghost use Rattle.cert_check.specs.Judgements.{FirstHolds, KeptHolds, Judges};

use crate::lists::{append, append_units, negate_all, negate_next};
use cert_core::{Certificate, Form, Part};
use clause_core::{Clauses, Lit, System, is_within};
use hinted_log::Hinted;
use rup_check::{Checker, LogVerdict};
use std::alloc::{AllocError, Global};

// Whether the steps derive the empty clause from the clauses and the units.
fn steps_show(
    alloc: Global,
    checker: &mut Checker,
    form: Form,
    clauses: &Clauses,
    units: &[Lit],
    steps: &Hinted,
) -> Result<bool, AllocError>
    requires clauses { All (Within checker.old) clauses.now }
    requires units { Within checker.old units.now }
    ensures vars { checker.new ≡ checker.old }
    ensures says { IfOk result (λ b. MatchBool b (StepsShow form checker.old (clauses.now ++ unit_clauses units.now) steps.now) (StepsShow form checker.old (clauses.now ++ unit_clauses units.now) steps.now → ⊥)) }
{
    match form {
        Form::Plain => {
            let mut given = Clauses::new(alloc);
            append(&mut given, clauses)?;
            append_units(&mut given, units)?;
            match checker.check(&given, steps.steps()) {
                LogVerdict::Yes => Ok(true),
                LogVerdict::No { .. } => Ok(false),
            }
        }
        Form::Hinted => match checker.check_hinted_with(clauses, units, steps) {
            LogVerdict::Yes => Ok(true),
            LogVerdict::No { .. } => Ok(false),
        },
    }
}

// Whether each step follows by its hints, whatever the last one is.
pub(crate) fn all_follow(checker: &mut Checker, clauses: &Clauses, steps: &Hinted) -> bool
    requires { All (Within checker.old) clauses.now }
    ensures vars { checker.new ≡ checker.old }
    ensures says { MatchBool result (IsHinted checker.old clauses.now steps.now) (IsHinted checker.old clauses.now steps.now → ⊥) }
{
    match checker.check_hinted(clauses, steps) {
        LogVerdict::Yes => true,
        LogVerdict::No { step } => step == steps.len(),
    }
}

// Whether the part is there, and its steps derive the empty clause from the clauses and the units.
pub(crate) fn shows(
    alloc: Global,
    checker: &mut Checker,
    cert: &Certificate,
    part: Part,
    clauses: &Clauses,
    units: &[Lit],
) -> Result<bool, AllocError>
    requires clauses { All (Within checker.old) clauses.now }
    requires units { Within checker.old units.now }
    ensures vars { checker.new ≡ checker.old }
    ensures says { IfOk result (λ b. MatchBool b (Shows cert.now.form checker.old (clauses.now ++ unit_clauses units.now) (part_of cert.now part)) (Shows cert.now.form checker.old (clauses.now ++ unit_clauses units.now) (part_of cert.now part) → ⊥)) }
{
    match cert.steps(part) {
        None => Ok(false),
        Some(steps) => steps_show(alloc, checker, cert.form(), clauses, units, steps),
    }
}

// The first of the parts `first` that fails.
pub(crate) fn judge_first(
    alloc: Global,
    checker: &mut Checker,
    system: &System,
    cert: &Certificate,
) -> Result<Option<usize>, AllocError>
    requires { checker.old ≡ system.now.all_bits }
    ensures vars { checker.new ≡ checker.old }
    ensures says { IfOk result (Judges (FirstHolds system.now cert.now) (length cert.now.clauses)) }
{
    system.law();
    let state_bits = system.state_bits();
    let clauses = cert.clauses();
    for k in 0..clauses.len() {
        let c = clauses.get(k);
        if !is_within(c, state_bits) {
            return Ok(Some(k));
        }
        let units = negate_all(alloc, c)?;
        if !shows(alloc, checker, cert, Part::First(k), system.init(), &units)? {
            return Ok(Some(k));
        }
    }
    Ok(None)
}

// The first of the parts `kept` that fails, where `given` is what they all follow from.
pub(crate) fn judge_kept(
    alloc: Global,
    checker: &mut Checker,
    system: &System,
    cert: &Certificate,
    given: &Clauses,
) -> Result<Option<usize>, AllocError>
    requires vars { checker.old ≡ system.now.all_bits }
    requires within { All (Within system.now.state_bits) cert.now.clauses }
    requires given { given.now ≡ cert.now.clauses ++ system.now.step ++ shared_steps cert.now.form cert.now.shared }
    requires given_in { All (Within checker.old) given.now }
    ensures vars { checker.new ≡ checker.old }
    ensures says { IfOk result (Judges (KeptHolds system.now cert.now) (length cert.now.clauses)) }
{
    let _all_bits = system.all_bits();
    let state_bits = system.state_bits();
    let clauses = cert.clauses();
    for k in 0..clauses.len() {
        let c = clauses.get(k);
        let units = negate_next(alloc, state_bits, c)?;
        if !shows(alloc, checker, cert, Part::Kept(k), given, &units)? {
            return Ok(Some(k));
        }
    }
    Ok(None)
}
