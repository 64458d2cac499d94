//! What is said of one specification.

ghost use Rattle.std.specs.Prelude.{◌≡◌, ◌<◌, ◌≤◌, Contains, IfOk, Some, false, true, option_copied};
ghost use Rattle.smv_tree.specs.declared.tree.SpecificationKind.TheVariants as claim;
ghost use Rattle.smv_resolve.specs.declared.item.ItemKind.TheVariants as item;
ghost use Rattle.smv_resolve.specs.Items.{item_by};
ghost use Rattle.smv_meaning.specs.Runs.{specifications_of};
ghost use Rattle.trace_replay.specs.Tests.{specification_at};
ghost use Rattle.bit_states.specs.Layouts.{bit_limit, bits_of};
ghost use Rattle.smv_recheck.specs.Judging.{IsByBlocks, IsByCertificate, IsByTrace, IsCertified, IsJudged, IsOfFormula, IsOfInvariant};

use crate::counting::counted_system;
use crate::judgement::Judgement;
use cert_check::{CertVerdict, Upgraded, check, upgrade};
use cert_core::{Certificate, Part};
use clause_core::System;
use smv_flat::Flat;
use smv_meaning::Typed;
use smv_resolve::Item;
use smv_tree::SpecificationKind;
use sound_check::SoundVerdict;
use std::alloc::{AllocError, Global};
use trace_replay::{Replayed, Trace, replay};

/// What a text shows of a specification: its trace and its certificate, if they are there, and what the check says of the sound block.
#[derive(Clone, Copy)]
pub struct Exhibit<'a> {
    pub soundness: SoundVerdict,
    pub trace: Option<&'a Trace>,
    pub certificate: Option<&'a Certificate>,
}

// By a trace of the specification of this number, which is of this kind.
fn by_trace(
    alloc: Global,
    typed: &Typed,
    number: usize,
    kind: SpecificationKind,
    spec: &Item,
    trace: &Trace,
) -> Result<Judgement, AllocError>
    requires first { 0 < number }
    requires numbered { specification_at typed.now.scope.program number ≡ Some (item_by typed.now.nodes spec.now) }
    requires kind { spec.now.kind ≡ item.Specification kind }
    ensures { IfOk result (IsByTrace kind typed.now.scope.program (item_by typed.now.nodes spec.now) trace.now) }
{
    match replay(alloc, typed, number, trace)? {
        Replayed::Accepted => Ok(Judgement::ShownFalse),
        Replayed::Rejected { rule, number } => Ok(Judgement::TestRejected { rule, number }),
    }
}

// By a certificate that is not printed again.
fn by_check(
    alloc: Global,
    system: &System,
    certificate: &Certificate,
) -> Result<Judgement, AllocError>
    ensures { IfOk result (IsCertified system.now certificate.now false) }
{
    match check(alloc, system, certificate)? {
        CertVerdict::Yes => Ok(Judgement::ShownTrue(None)),
        CertVerdict::No { part } => Ok(Judgement::PartRejected(part)),
    }
}

// By a certificate that is printed again.
fn by_upgrade(
    alloc: Global,
    system: &System,
    certificate: &Certificate,
) -> Result<Judgement, AllocError>
    ensures { IfOk result (IsCertified system.now certificate.now true) }
{
    match upgrade(alloc, system, certificate)? {
        Upgraded::Certificate(again) => Ok(Judgement::ShownTrue(Some(again))),
        Upgraded::No { part } => Ok(Judgement::PartRejected(part)),
    }
}

// By a certificate of this system.
fn by_system(
    alloc: Global,
    system: &System,
    certificate: &Certificate,
    again: bool,
) -> Result<Judgement, AllocError>
    ensures { IfOk result (IsCertified system.now certificate.now again) }
{
    if again {
        by_upgrade(alloc, system, certificate)
    } else {
        by_check(alloc, system, certificate)
    }
}

// By a certificate of an invariant, which has no counter.
fn of_invariant(
    alloc: Global,
    system: &System,
    certificate: &Certificate,
    again: bool,
) -> Result<Judgement, AllocError>
    ensures { IfOk result (IsOfInvariant certificate.now.counter system.now certificate.now again) }
{
    if certificate.counter().is_some() {
        return Ok(Judgement::PartRejected(Part::Safe));
    }
    by_system(alloc, system, certificate, again)
}

// By a certificate of a temporal formula, which has a counter.
fn of_formula(
    alloc: Global,
    flat: &Flat,
    spec: &Item,
    certificate: &Certificate,
    again: bool,
) -> Result<Judgement, AllocError>
    requires narrow { bits_of flat.now.typed.scope.program ≤ bit_limit }
    requires among { Contains (specifications_of flat.now.typed.scope.program) (item_by flat.now.typed.nodes spec.now) }
    requires temporal { spec.now.kind ≡ item.Specification claim.Temporal }
    ensures { IfOk result (IsOfFormula certificate.now.counter flat.now.typed.scope.program (item_by flat.now.typed.nodes spec.now) certificate.now again) }
{
    let Some(bound) = certificate.counter() else {
        return Ok(Judgement::PartRejected(Part::Safe));
    };
    let counted = counted_system(alloc, flat, spec, bound)?;
    by_system(alloc, &counted, certificate, again)
}

// By a certificate of a specification of this kind.
fn by_certificate(
    alloc: Global,
    flat: &Flat,
    system: &System,
    kind: SpecificationKind,
    spec: &Item,
    certificate: &Certificate,
    again: bool,
) -> Result<Judgement, AllocError>
    requires narrow { bits_of flat.now.typed.scope.program ≤ bit_limit }
    requires among { Contains (specifications_of flat.now.typed.scope.program) (item_by flat.now.typed.nodes spec.now) }
    requires kind { spec.now.kind ≡ item.Specification kind }
    ensures { IfOk result (IsByCertificate kind flat.now.typed.scope.program system.now (item_by flat.now.typed.nodes spec.now) certificate.now again) }
{
    match kind {
        SpecificationKind::Invariant => of_invariant(alloc, system, certificate, again),
        SpecificationKind::Temporal => of_formula(alloc, flat, spec, certificate, again),
    }
}

// By the sound block and then by a certificate.
fn by_blocks(
    alloc: Global,
    flat: &Flat,
    system: &System,
    kind: SpecificationKind,
    spec: &Item,
    soundness: SoundVerdict,
    certificate: &Certificate,
    again: bool,
) -> Result<Judgement, AllocError>
    requires narrow { bits_of flat.now.typed.scope.program ≤ bit_limit }
    requires among { Contains (specifications_of flat.now.typed.scope.program) (item_by flat.now.typed.nodes spec.now) }
    requires kind { spec.now.kind ≡ item.Specification kind }
    ensures { IfOk result (IsByBlocks soundness kind flat.now.typed.scope.program system.now (item_by flat.now.typed.nodes spec.now) certificate.now again) }
{
    match soundness {
        SoundVerdict::Rejected { item } => Ok(Judgement::ItemRejected(item)),
        SoundVerdict::Sound => by_certificate(alloc, flat, system, kind, spec, certificate, again),
    }
}

/// What is said of a specification with this number and kind, by its trace and its certificate: by the trace where there is one, else
/// by the sound block and then by the certificate. That of an invariant is judged by the system of the invariant. That of a temporal formula is judged by the
/// system of the formula with monitor and counter, which is built for it. `again` asks for a certificate that is judged by hints beside
/// each that certifies.
///
/// The only error is out of memory.
pub fn judge(
    alloc: Global,
    flat: &Flat,
    system: &System,
    number: usize,
    kind: SpecificationKind,
    spec: &Item,
    exhibit: Exhibit,
    again: bool,
) -> Result<Judgement, AllocError>
    requires narrow { bits_of flat.now.typed.scope.program ≤ bit_limit }
    requires first { 0 < number }
    requires among { Contains (specifications_of flat.now.typed.scope.program) (item_by flat.now.typed.nodes spec.now) }
    requires numbered { specification_at flat.now.typed.scope.program number ≡ Some (item_by flat.now.typed.nodes spec.now) }
    requires kind { spec.now.kind ≡ item.Specification kind }
    ensures { IfOk result (IsJudged exhibit.entry.soundness kind flat.now.typed.scope.program system.now (item_by flat.now.typed.nodes spec.now) again (option_copied exhibit.entry.trace) (option_copied exhibit.entry.certificate)) }
{
    match exhibit.trace {
        Some(trace) => by_trace(alloc, &flat.typed, number, kind, spec, trace),
        None => match exhibit.certificate {
            Some(certificate) => by_blocks(
                alloc,
                flat,
                system,
                kind,
                spec,
                exhibit.soundness,
                certificate,
                again,
            ),
            None => Ok(Judgement::NothingShown),
        },
    }
}
