//! The records of a report: what is said of each specification, with the trace of a run that breaks it, or the
//! certificate of what is true.

ghost use Rattle.std.specs.Prelude.{◌≡◌, ◌++◌, IfOk, OnOk, string_bytes};
ghost use Rattle.smv_cli.specs.Texts.{cause_text, ltl_cause_text, reason_text, record_text, shown_text, verdict_text};

use cert_core::Certificate;
use prove_ltl::LtlCause;
use prove_run::Cause;
use smv_tree::SpecificationKind;
use std::alloc::{AllocError, Global};
use std::fmt::Write;
use trace_replay::{Trace, TraceLines};

/// What is said of a specification.
#[derive(Drop)]
pub enum SpecVerdict {
    /// Nothing breaks it; this certificate shows it, where the words ask for one.
    True(Option<Certificate>),
    /// The run of this trace breaks it, or the lasso of this trace violates it.
    False(Trace),
    /// It is not known, for this reason.
    Unknown(Reason),
}

/// Why a specification is not known to be true or false.
#[derive(Clone, Copy, Debug)]
pub enum Reason {
    /// Of an `INVARSPEC`.
    Invariant(Cause),
    /// Of an `LTLSPEC`.
    Formula(LtlCause),
    /// So many tickets of the effort were drawn before it was known whether an item of the model faults.
    Preparing { drawn: u64, budget: u64 },
}

/// What is said of the specification of this number, counted from 1.
#[derive(Drop)]
pub struct Record {
    pub number: usize,
    pub kind: SpecificationKind,
    pub verdict: SpecVerdict,
}

// Writes the certificate of a specification, where there is one.
fn write_shown(
    alloc: Global,
    out: &mut String,
    number: usize,
    shown: &Option<Certificate>,
) -> Result<(), AllocError>
    ensures { OnOk result (string_bytes out.new ≡ string_bytes out.old ++ shown_text number shown.now) }
{
    match shown {
        None => Ok(()),
        Some(certificate) => {
            let lines = cert_text::print(alloc, number, certificate)?;
            out.push_str(lines.as_str())
        }
    }
}

// Writes why an invariant is unknown.
fn write_cause(out: &mut String, cause: Cause) -> Result<(), AllocError>
    ensures { OnOk result (string_bytes out.new ≡ string_bytes out.old ++ cause_text cause) }
{
    match cause {
        Cause::Conflicts { drawn, budget } => write!(out, "conflicts {drawn} of {budget}"),
        Cause::Frames { frames } => write!(out, "frames {frames}"),
    }
}

// Writes why a formula is unknown.
fn write_ltl_cause(out: &mut String, cause: LtlCause) -> Result<(), AllocError>
    ensures { OnOk result (string_bytes out.new ≡ string_bytes out.old ++ ltl_cause_text cause) }
{
    match cause {
        LtlCause::Conflicts { drawn, budget } => write!(out, "conflicts {drawn} of {budget}"),
        LtlCause::Bound { bound, counter } => write!(out, "bound {bound}, counter {counter}"),
        LtlCause::Frames {
            bound,
            frames,
            counter,
        } => write!(out, "bound {bound}, frames {frames} at {counter}"),
    }
}

// Writes why a specification is unknown.
fn write_reason(out: &mut String, reason: Reason) -> Result<(), AllocError>
    ensures { OnOk result (string_bytes out.new ≡ string_bytes out.old ++ reason_text reason) }
{
    match reason {
        Reason::Invariant(cause) => write_cause(out, cause),
        Reason::Formula(cause) => write_ltl_cause(out, cause),
        Reason::Preparing { drawn, budget } => {
            write!(out, "conflicts {drawn} of {budget} while preparing")
        }
    }
}

// Writes what follows the kind of a specification.
fn write_verdict(
    alloc: Global,
    out: &mut String,
    number: usize,
    verdict: &SpecVerdict,
) -> Result<(), AllocError>
    ensures { OnOk result (string_bytes out.new ≡ string_bytes out.old ++ verdict_text number verdict.now) }
{
    match verdict {
        SpecVerdict::True(shown) => {
            out.push_str("true\n")?;
            write_shown(alloc, out, number, shown)
        }
        SpecVerdict::False(trace) => {
            let lines = TraceLines { number, trace };
            write!(out, "false\n{lines}")
        }
        SpecVerdict::Unknown(reason) => {
            out.push_str("unknown: ")?;
            write_reason(out, *reason)?;
            out.push_str("\n")
        }
    }
}

/// The text of a record. The only error is out of memory. Its time is linear in the text.
pub fn print(alloc: Global, made: &Record) -> Result<String, AllocError>
    ensures { IfOk result (λ text. string_bytes text ≡ record_text made.now) }
{
    let mut out = String::new(alloc);
    let (number, kind) = (made.number, made.kind);
    write!(out, "-- spec {number} {kind} is ")?;
    write_verdict(alloc, &mut out, number, &made.verdict)?;
    Ok(out)
}
