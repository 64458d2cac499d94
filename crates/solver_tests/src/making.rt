//! Tests of certificates made of an invariant: shared steps that no part needs are left out.

ghost use Rattle.std.specs.Prelude.{◌≡◌, All, IfOk, length};
ghost use Rattle.clause_core.specs.Literals.{Within};
ghost use Rattle.cert_core.specs.declared.form.Form.TheVariants.{Plain};
ghost use Rattle.cert_core.specs.Blocks.{HasPlace, LogFits};
ghost use Rattle.cert_core.specs.Certificates.{IsInvariant};

use crate::letters::clauses_of;
use cert_check::{CertVerdict, check};
use cert_core::inductive_invariants::what_is_certified_is_invariant;
use cert_core::{Certificate, Form, MAX_VARS, Part};
use cert_make::{Made, make};
use clause_core::{Clauses, Lit, System};
use effort_purse::{Draw, PlainPurse, Purse};
use hinted_log::Hinted;
use std::alloc::{AllocError, Global};
use std::test::Fail;

const VARS: usize = 6;

// In letters `a` is the state bit, and `b` that of the next state.

// The bit is bad where it is true.
fn system_of(alloc: Global, init: Clauses, step: Clauses) -> Result<System, AllocError> {
    if init.is_within(VARS) && step.is_within(VARS) {
        System::plain(alloc, 1, VARS, init, step, &[Lit::new(0, true)])
    } else {
        Err(AllocError)
    }
}

// The same, and false at first.
fn system(alloc: Global, step: &[u8]) -> Result<System, AllocError> {
    let init = clauses_of(alloc, b"A.", 0)?;
    let step = clauses_of(alloc, step, 0)?;
    system_of(alloc, init, step)
}

// These steps, without hints.
fn without_hints(alloc: Global, list: &Clauses) -> Result<Hinted, AllocError>
    requires { All (Within MAX_VARS) list.now }
    ensures { IfOk result (LogFits Plain) }
{
    let mut log = Hinted::new(alloc);
    for k in 0..list.len() {
        log.push(list.get(k), &[])?;
    }
    Ok(log)
}

fn plain_steps(alloc: Global, text: &[u8]) -> Result<Hinted, AllocError>
    ensures { IfOk result (LogFits Plain) }
{
    let list = clauses_of(alloc, text, 0)?;
    let log = if list.is_within(MAX_VARS) {
        without_hints(alloc, &list)
    } else {
        Err(AllocError)
    };
    drop(list);
    log
}

// Gives the part these steps.
fn put(alloc: Global, cert: &mut Certificate, part: Part, text: &[u8]) -> Result<(), AllocError>
    requires place { HasPlace cert.old part }
    requires form { cert.old.form ≡ Plain }
    ensures form { cert.new.form ≡ Plain }
    ensures clauses { cert.new.clauses ≡ cert.old.clauses }
{
    let steps = plain_steps(alloc, text)?;
    cert.put(part, steps);
    Ok(())
}

fn put_all(alloc: Global, cert: &mut Certificate, kept: &[u8]) -> Result<(), AllocError>
    requires form { cert.old.form ≡ Plain }
    requires clauses { length cert.old.clauses ≡ 1 }
{
    put(alloc, cert, Part::First(0), b".")?;
    put(alloc, cert, Part::Kept(0), kept)?;
    put(alloc, cert, Part::Safe, b".")
}

// That the bit stays false, without any steps.
fn without_steps(alloc: Global) -> Result<Certificate, AllocError>
    ensures form { IfOk result (λ c. c.form ≡ Plain) }
    ensures clauses { IfOk result (λ c. length c.clauses ≡ 1) }
{
    let mut cert = Certificate::new(alloc, Form::Plain, None);
    match cert.push_clause(&[Lit::new(0, false)]) {
        Ok(()) => Ok(cert),
        Err(error) => {
            drop(cert);
            Err(error)
        }
    }
}

// That the bit stays false, with these steps for the part `kept`.
fn stays_false(alloc: Global, kept: &[u8]) -> Result<Certificate, AllocError> {
    let mut cert = without_steps(alloc)?;
    match put_all(alloc, &mut cert, kept) {
        Ok(()) => Ok(cert),
        Err(error) => {
            drop(cert);
            Err(error)
        }
    }
}

fn count(cert: &Certificate) -> usize {
    match cert.steps(Part::Shared) {
        None => 0,
        Some(steps) => steps.len(),
    }
}

// How many tickets were drawn.
fn tickets(purse: &mut PlainPurse) -> Option<u64> {
    match purse.draw() {
        Draw::Ticket(drawn) => Some(drawn),
        Draw::Spent { .. } => None,
    }
}

// How many shared steps the certificate has, if it certifies.
fn shared(alloc: Global, system: &System, cert: &Certificate) -> Result<Option<usize>, AllocError> {
    match check(alloc, system, cert)? {
        CertVerdict::Yes => Ok(Some(count(cert))),
        CertVerdict::No { .. } => Ok(None),
    }
}

fn shared_of_made(
    alloc: Global,
    system: &System,
    made: &Made,
) -> Result<Option<usize>, AllocError> {
    match made {
        Made::Certificate(cert) => shared(alloc, system, cert),
        Made::Spent { .. } => Ok(None),
    }
}

// Whether a certificate that is made of these clauses certifies, and takes so many tickets and so many shared steps.
fn is_made(alloc: Global, system: &System, clauses: &Clauses, row: &Row) -> Result<bool, AllocError>
    requires within { All (Within system.now.state_bits) clauses.now }
    requires invariant { IsInvariant system.now clauses.now }
{
    let mut purse = PlainPurse::new(100);
    let made = make(alloc, system, clauses, &mut purse)?;
    let steps = shared_of_made(alloc, system, &made);
    drop(made);
    Ok(steps? == Some(row.3) && tickets(&mut purse) == Some(row.2))
}

// The same of the clauses of a certificate that certifies.
fn is_made_of(
    alloc: Global,
    system: &System,
    cert: &Certificate,
    row: &Row,
) -> Result<bool, AllocError> {
    match check(alloc, system, cert)? {
        CertVerdict::No { .. } => Ok(false),
        CertVerdict::Yes => {
            what_is_certified_is_invariant();
            is_made(alloc, system, cert.clauses(), row)
        }
    }
}

// The step clauses, the steps by which the bit stays false, how many tickets are drawn, and how many shared steps there
// are. Each certificate takes three questions; nothing is learned, two clauses are that are both needed, or a third one
// that says nothing of the bit.
struct Row(&'static [u8], &'static [u8], u64, usize);

const ROWS: [Row; 3] = [
    Row(b"aB.", b".", 3, 0),
    Row(b"Bcd.BcD.BCd.BCD.", b"Bc..", 5, 2),
    Row(b"Bcd.BcD.BCd.BCD.ef.eF.Ef.", b"Bc..", 6, 2),
];

fn is_made_in(alloc: Global, system: &System, row: &Row) -> Result<bool, AllocError> {
    let cert = stays_false(alloc, row.1)?;
    let answer = is_made_of(alloc, system, &cert, row);
    drop(cert);
    answer
}

fn is_right(alloc: Global, row: &Row) -> Result<bool, AllocError> {
    let system = system(alloc, row.0)?;
    let answer = is_made_in(alloc, &system, row);
    drop(system);
    answer
}

fn wrong_row(alloc: Global) -> Result<Option<usize>, AllocError> {
    for (k, row) in ROWS.iter().enumerate() {
        if !is_right(alloc, row)? {
            return Ok(Some(k));
        }
    }
    Ok(None)
}

#[test]
fn steps_that_no_part_needs_are_left_out(rt: HostRuntime) -> Result<(), Fail> {
    assert_eq!(rt; wrong_row(rt.alloc())?, None);
    Ok(())
}
