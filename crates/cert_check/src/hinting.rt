//! Finds hints for the derivation of each part of a certificate.

ghost use Rattle.std.specs.Prelude.{◌≡◌, ◌≤◌, ◌++◌, [], All, OnOk, OnErr, IfOk, length, slice_index_or};
ghost use Rattle.clause_core.specs.Literals.{Within};
ghost use Rattle.clause_core.specs.Derivations.{Derives};
ghost use Rattle.cert_core.specs.declared.form.Form.TheVariants.{Hinted as Hints};
ghost use Rattle.cert_core.specs.declared.form.Part.TheVariants.{First as OfFirst, Kept as OfKept, Safe as OfSafe};
ghost use Rattle.cert_core.specs.Blocks.{HasPlace, part_of};
ghost use Rattle.cert_core.specs.Certificates.{unit_clauses, first_clauses, kept_clauses, safe_clauses, Shows, Certifies};
ghost use Rattle.cert_check.specs.Judgements.{EachBelow};
ghost use Rattle.cert_check.specs.Upgrades.{log_of, Puts};

use crate::lists::{append, negate_all, negate_next};
use cert_core::{Certificate, Form, MAX_VARS, Part};
use clause_core::{Clauses, Lit, System};
use rup_check::Checker;
use std::alloc::{AllocError, Global};

/// Gives the part the steps of a log that derives the empty clause, with hints.
pub fn hint_part(
    alloc: Global,
    checker: &mut Checker,
    clauses: &Clauses,
    units: &[Lit],
    log: &Clauses,
    to: &mut Certificate,
    part: Part,
) -> Result<(), AllocError>
    requires clauses { All (Within checker.old) clauses.now }
    requires units { Within checker.old units.now }
    requires derives { Derives checker.old (clauses.now ++ unit_clauses units.now) log.now }
    requires room { checker.old ≤ MAX_VARS }
    requires form { to.old.form ≡ Hints }
    requires place { HasPlace to.old part }
    ensures vars { checker.new ≡ checker.old }
    ensures puts { OnOk result (Puts checker.old (clauses.now ++ unit_clauses units.now) part to.old to.new) }
    ensures failed { OnErr result (to.new ≡ to.old) }
{
    let steps = checker.hint_refutation(alloc, clauses, units, log)?;
    to.put(part, steps);
    Ok(())
}

// The steps that the part is shown by.
fn log_in(alloc: Global, cert: &Certificate, part: Part) -> Result<Clauses, AllocError>
    ensures { IfOk result (λ log. log ≡ log_of cert.now part) }
{
    let mut log = Clauses::new(alloc);
    match part {
        Part::Kept(_) => match cert.form() {
            Form::Plain => {}
            Form::Hinted => match cert.steps(Part::Shared) {
                None => {}
                Some(steps) => append(&mut log, steps.steps())?,
            },
        },
        Part::Shared => {}
        Part::First(_) => {}
        Part::Safe => {}
    }
    match cert.steps(part) {
        None => {}
        Some(steps) => append(&mut log, steps.steps())?,
    }
    Ok(log)
}

// Gives each clause's part `first` its steps with hints.
pub(crate) fn hint_first(
    alloc: Global,
    checker: &mut Checker,
    system: &System,
    cert: &Certificate,
    to: &mut Certificate,
) -> Result<(), AllocError>
    requires vars { checker.old ≡ system.now.all_bits }
    requires room { system.now.all_bits ≤ MAX_VARS }
    requires certifies { Certifies system.now cert.now }
    requires form { to.old.form ≡ Hints }
    requires clauses { to.old.clauses ≡ cert.now.clauses }
    ensures vars { checker.new ≡ checker.old }
    ensures shown { OnOk result (EachBelow (λ j. Shows Hints system.now.all_bits (first_clauses system.now (slice_index_or cert.now.clauses j [])) (part_of to.new (OfFirst j))) (length cert.now.clauses)) }
    ensures rest { OnOk result (to.new ≡ record to.old { first = to.new.first }) }
{
    system.law();
    to.law();
    let clauses = cert.clauses();
    for k in 0..clauses.len() {
        let units = negate_all(alloc, clauses.get(k))?;
        let log = log_in(alloc, cert, Part::First(k))?;
        hint_part(
            alloc,
            checker,
            system.init(),
            &units,
            &log,
            to,
            Part::First(k),
        )?;
    }
    Ok(())
}

// Gives each clause's part `kept` its steps with hints, where `given` is what they all follow from.
pub(crate) fn hint_kept(
    alloc: Global,
    checker: &mut Checker,
    system: &System,
    cert: &Certificate,
    given: &Clauses,
    to: &mut Certificate,
) -> Result<(), AllocError>
    requires vars { checker.old ≡ system.now.all_bits }
    requires room { system.now.all_bits ≤ MAX_VARS }
    requires certifies { Certifies system.now cert.now }
    requires given { given.now ≡ cert.now.clauses ++ system.now.step }
    requires given_in { All (Within checker.old) given.now }
    requires form { to.old.form ≡ Hints }
    requires clauses { to.old.clauses ≡ cert.now.clauses }
    ensures vars { checker.new ≡ checker.old }
    ensures shown { OnOk result (EachBelow (λ j. Shows Hints system.now.all_bits (kept_clauses system.now cert.now.clauses [] (slice_index_or cert.now.clauses j [])) (part_of to.new (OfKept j))) (length cert.now.clauses)) }
    ensures rest { OnOk result (to.new ≡ record to.old { kept = to.new.kept }) }
{
    system.law();
    to.law();
    let _all_bits = system.all_bits();
    let state_bits = system.state_bits();
    let clauses = cert.clauses();
    for k in 0..clauses.len() {
        let units = negate_next(alloc, state_bits, clauses.get(k))?;
        let log = log_in(alloc, cert, Part::Kept(k))?;
        hint_part(alloc, checker, given, &units, &log, to, Part::Kept(k))?;
    }
    Ok(())
}

// Gives the part `safe` its steps with hints, where `given` is what they follow from.
pub(crate) fn hint_safe(
    alloc: Global,
    checker: &mut Checker,
    system: &System,
    cert: &Certificate,
    given: &Clauses,
    to: &mut Certificate,
) -> Result<(), AllocError>
    requires vars { checker.old ≡ system.now.all_bits }
    requires room { system.now.all_bits ≤ MAX_VARS }
    requires certifies { Certifies system.now cert.now }
    requires given { given.now ≡ cert.now.clauses ++ system.now.bad }
    requires given_in { All (Within checker.old) given.now }
    requires form { to.old.form ≡ Hints }
    ensures vars { checker.new ≡ checker.old }
    ensures puts { OnOk result (Puts system.now.all_bits (safe_clauses system.now cert.now.clauses) OfSafe to.old to.new) }
{
    let log = log_in(alloc, cert, Part::Safe)?;
    hint_part(alloc, checker, given, &[], &log, to, Part::Safe)?;
    Ok(())
}
