//! Makes of a certificate that certifies one of the same clauses that is judged by hints alone.

ghost use Rattle.std.specs.Prelude.{◌≡◌, ◌≤◌, All, IfOk, OnOk, None, Some};
ghost use Rattle.std.specs.Option.{ForSome};
ghost use Rattle.clause_core.specs.Literals.{Within};
ghost use Rattle.cert_core.specs.declared.form.Form.TheVariants.{Hinted as Hints};
ghost use Rattle.cert_core.specs.Certificates.{Certifies};
ghost use Rattle.cert_check.specs.Upgrades.{IsUpgrade, UpgradeSays};

use crate::hinting::{hint_first, hint_kept, hint_safe};
use crate::judging::{CertVerdict, check};
use crate::lists::joined;
use cert_core::{Certificate, Form, MAX_VARS, Part};
use clause_core::{Clauses, System};
use rup_check::Checker;
use std::alloc::{AllocError, Global};

/// What an upgrade gives.
#[derive(Drop)]
pub enum Upgraded {
    /// The certificate certifies, and this is one of the same clauses that is judged by hints.
    Certificate(Certificate),
    /// This part of the certificate is the first that fails, as `check` says it.
    No { part: Part },
}

// The same clauses and the same counter, with no parts, to be judged by hints.
fn bare(alloc: Global, cert: &Certificate) -> Result<Certificate, AllocError>
    ensures form { IfOk result (λ b. b.form ≡ Hints) }
    ensures counter { IfOk result (λ b. b.counter ≡ cert.now.counter) }
    ensures clauses { IfOk result (λ b. b.clauses ≡ cert.now.clauses) }
    ensures shared { IfOk result (λ b. b.shared ≡ None) }
{
    cert.law();
    let mut bare = Certificate::new(alloc, Form::Hinted, cert.counter());
    let clauses = cert.clauses();
    for k in 0..clauses.len() {
        bare.push_clause(clauses.get(k))?;
    }
    Ok(bare)
}

// Gives all parts their steps with hints.
fn hint_all(
    alloc: Global,
    checker: &mut Checker,
    system: &System,
    cert: &Certificate,
    to: &mut Certificate,
) -> Result<(), AllocError>
    requires vars { checker.old ≡ system.now.all_bits }
    requires room { system.now.all_bits ≤ MAX_VARS }
    requires certifies { Certifies system.now cert.now }
    requires form { to.old.form ≡ Hints }
    requires counter { to.old.counter ≡ cert.now.counter }
    requires clauses { to.old.clauses ≡ cert.now.clauses }
    requires shared { to.old.shared ≡ None }
    ensures certifies { OnOk result (Certifies system.now to.new) }
    ensures upgrade { OnOk result (IsUpgrade cert.now to.new) }
{
    system.law();
    hint_first(alloc, checker, system, cert, to)?;
    let given = joined(alloc, cert.clauses(), system.step())?;
    hint_kept(alloc, checker, system, cert, &given, to)?;
    let given = joined(alloc, cert.clauses(), system.bad())?;
    hint_safe(alloc, checker, system, cert, &given, to)?;
    Ok(())
}

/// Makes of a certificate that certifies one of the same clauses and the same counter that is judged by hints, with no
/// shared part, and that certifies, too; `No` exactly where `check` says it.
///
/// The only error is out of memory; more variables than a text can number count as that. Its time is that of finding
/// hints for each part, from the clauses that it follows from.
pub fn upgrade(alloc: Global, system: &System, cert: &Certificate) -> Result<Upgraded, AllocError>
    ensures { IfOk result (UpgradeSays system.now cert.now) }
{
    match check(alloc, system, cert)? {
        CertVerdict::No { part } => Ok(Upgraded::No { part }),
        CertVerdict::Yes => {
            if system.all_bits() > MAX_VARS {
                return Err(AllocError);
            }
            let mut checker = Checker::new(alloc, system.all_bits())?;
            let mut made = bare(alloc, cert)?;
            hint_all(alloc, &mut checker, system, cert, &mut made)?;
            Ok(Upgraded::Certificate(made))
        }
    }
}
