//! Tests of certificates for a system of one bit, right and broken, with hints and without.

ghost use Rattle.std.specs.Prelude.{◌≡◌, IfOk, length};
ghost use Rattle.clause_core.specs.Literals.{Within};
ghost use Rattle.cert_core.specs.declared.form.Form.TheVariants.{Plain, Hinted as Hints};
ghost use Rattle.cert_core.specs.Blocks.{HasPlace, LogFits};

use crate::letters::literals;
use cert_check::{CertVerdict, check};
use cert_core::{Certificate, Form, MAX_VARS, Part};
use clause_core::{Clauses, Lit, System, is_within};
use hinted_log::Hinted;
use std::alloc::{AllocError, Global};
use std::test::Fail;

fn one_clause(alloc: Global, lits: &[Lit]) -> Result<Clauses, AllocError> {
    let mut clauses = Clauses::new(alloc);
    clauses.push(lits)?;
    Ok(clauses)
}

// The system of one bit, bad where it is true, with these clauses.
fn system_of(alloc: Global, init: Clauses, step: Clauses) -> Result<System, AllocError> {
    if init.is_within(2) && step.is_within(2) {
        System::plain(alloc, 1, 2, init, step, &[Lit::new(0, true)])
    } else {
        Err(AllocError)
    }
}

// The one bit is false at first, and stays so; it is bad where it is true.
fn system(alloc: Global) -> Result<System, AllocError> {
    let init = one_clause(alloc, &[Lit::new(0, false)])?;
    let step = one_clause(alloc, &[Lit::new(0, true), Lit::new(1, false)])?;
    system_of(alloc, init, step)
}

// The empty step.
fn plain_step(alloc: Global) -> Result<Hinted, AllocError>
    ensures { IfOk result (LogFits Plain) }
{
    let mut log = Hinted::new(alloc);
    log.push(&[], &[])?;
    Ok(log)
}

// A number for each digit.
fn numbers(alloc: Global, digits: &[u8]) -> Result<Vec<usize>, AllocError> {
    let mut numbers = Vec::new(alloc);
    for digit in digits {
        numbers.push(*digit as usize % 16)?;
    }
    Ok(numbers)
}

// The empty step with these hints.
fn step_by(alloc: Global, hints: &[usize]) -> Result<Hinted, AllocError>
    ensures { IfOk result (LogFits Hints) }
{
    let mut log = Hinted::new(alloc);
    log.push(&[], hints)?;
    Ok(log)
}

// The empty step with these hints, a digit for each.
fn hinted_step(alloc: Global, hints: &[u8]) -> Result<Hinted, AllocError>
    ensures { IfOk result (LogFits Hints) }
{
    let numbers = numbers(alloc, hints)?;
    let log = step_by(alloc, &numbers);
    drop(numbers);
    log
}

// Puts the empty step, without hints.
fn put_plain(alloc: Global, cert: &mut Certificate, part: Part) -> Result<(), AllocError>
    requires place { HasPlace cert.old part }
    requires form { cert.old.form ≡ Plain }
    ensures { cert.new.clauses ≡ cert.old.clauses }
{
    let steps = plain_step(alloc)?;
    cert.put(part, steps);
    Ok(())
}

// Puts the empty step, with these hints.
fn put_hinted(
    alloc: Global,
    cert: &mut Certificate,
    part: Part,
    hints: &[u8],
) -> Result<(), AllocError>
    requires place { HasPlace cert.old part }
    requires form { cert.old.form ≡ Hints }
    ensures { cert.new.clauses ≡ cert.old.clauses }
{
    let steps = hinted_step(alloc, hints)?;
    cert.put(part, steps);
    Ok(())
}

// Gives the part the empty step with these hints; none for a dash.
fn put(alloc: Global, cert: &mut Certificate, part: Part, hints: &[u8]) -> Result<(), AllocError>
    requires { HasPlace cert.old part }
    ensures { cert.new.clauses ≡ cert.old.clauses }
{
    if hints == b"-".as_slice() {
        return Ok(());
    }
    match cert.form() {
        Form::Plain => put_plain(alloc, cert, part),
        Form::Hinted => put_hinted(alloc, cert, part, hints),
    }
}

// The form; the one clause, in letters of which `a` is the state bit and `b` that of the next state; the hints of the
// empty step of its parts `first` and `kept` and of `safe`; and what is said of the certificate.
struct Row(
    Form,
    &'static [u8],
    &'static [u8],
    &'static [u8],
    &'static [u8],
    CertVerdict,
);

const FIRST_FAILS: CertVerdict = CertVerdict::No {
    part: Part::First(0),
};

const KEPT_FAILS: CertVerdict = CertVerdict::No {
    part: Part::Kept(0),
};

const SAFE_FAILS: CertVerdict = CertVerdict::No { part: Part::Safe };

const ROWS: [Row; 13] = [
    Row(Form::Hinted, b"A", b"10", b"201", b"01", CertVerdict::Yes),
    Row(Form::Hinted, b"A", b"0", b"201", b"01", FIRST_FAILS),
    Row(Form::Hinted, b"A", b"-", b"201", b"01", FIRST_FAILS),
    Row(Form::Hinted, b"A", b"10", b"20", b"01", KEPT_FAILS),
    Row(Form::Hinted, b"A", b"10", b"2013", b"01", KEPT_FAILS),
    Row(Form::Hinted, b"A", b"10", b"201", b"0", SAFE_FAILS),
    Row(Form::Hinted, b"A", b"10", b"201", b"-", SAFE_FAILS),
    Row(Form::Hinted, b"B", b"10", b"201", b"01", FIRST_FAILS),
    Row(Form::Plain, b"A", b"", b"", b"", CertVerdict::Yes),
    Row(Form::Plain, b"a", b"", b"", b"", FIRST_FAILS),
    Row(Form::Plain, b"A", b"", b"-", b"", KEPT_FAILS),
    Row(Form::Plain, b"A", b"", b"", b"-", SAFE_FAILS),
    Row(Form::Plain, b"B", b"", b"", b"", FIRST_FAILS),
];

// The certificate of one clause without any step.
fn of_one(alloc: Global, form: Form, lits: &[Lit]) -> Result<Certificate, AllocError>
    requires { Within MAX_VARS lits.now }
    ensures { IfOk result (λ c. length c.clauses ≡ 1) }
{
    let mut cert = Certificate::new(alloc, form, None);
    match cert.push_clause(lits) {
        Ok(()) => Ok(cert),
        Err(error) => {
            drop(cert);
            Err(error)
        }
    }
}

fn of_letters(alloc: Global, form: Form, text: &[u8]) -> Result<Certificate, AllocError>
    ensures { IfOk result (λ c. length c.clauses ≡ 1) }
{
    let lits = literals(alloc, text, 0)?;
    let cert = if is_within(&lits, MAX_VARS) {
        of_one(alloc, form, &lits)
    } else {
        Err(AllocError)
    };
    drop(lits);
    cert
}

fn put_all(alloc: Global, cert: &mut Certificate, row: &Row) -> Result<(), AllocError>
    requires { length cert.old.clauses ≡ 1 }
{
    put(alloc, cert, Part::First(0), row.2)?;
    put(alloc, cert, Part::Kept(0), row.3)?;
    put(alloc, cert, Part::Safe, row.4)
}

fn certificate(alloc: Global, row: &Row) -> Result<Certificate, AllocError> {
    let mut cert = of_letters(alloc, row.0, row.1)?;
    match put_all(alloc, &mut cert, row) {
        Ok(()) => Ok(cert),
        Err(error) => {
            drop(cert);
            Err(error)
        }
    }
}

fn is_checked(alloc: Global, system: &System, row: &Row) -> Result<bool, AllocError> {
    let cert = certificate(alloc, row)?;
    let verdict = check(alloc, system, &cert);
    drop(cert);
    Ok(verdict? == row.5)
}

fn first_wrong(alloc: Global, system: &System) -> Result<Option<usize>, AllocError> {
    for (k, row) in ROWS.iter().enumerate() {
        if !is_checked(alloc, system, row)? {
            return Ok(Some(k));
        }
    }
    Ok(None)
}

fn wrong_row(alloc: Global) -> Result<Option<usize>, AllocError> {
    let system = system(alloc)?;
    let wrong = first_wrong(alloc, &system);
    drop(system);
    wrong
}

#[test]
fn certificates_right_and_broken(rt: HostRuntime) -> Result<(), Fail> {
    assert_eq!(rt; wrong_row(rt.alloc())?, None);
    Ok(())
}
