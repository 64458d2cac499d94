//! Judges all specifications of a text.

ghost use Rattle.std.specs.Prelude.{◌≡◌, ◌+◌, ◌<◌, ◌≤◌, ◌^◌, ◌&&◌, nat_lt, map, true, None, Some, All, IfOk, IfErr, option_copied, slice_get, slice_index_or, if◌then◌else◌};
ghost use Rattle.std.specs.List.{list_any};
ghost use Rattle.smv_resolve.specs.Items.{item_by};
ghost use Rattle.smv_meaning.specs.Runs.{is_claim, specifications_of};
ghost use Rattle.bit_states.specs.Layouts.{bit_limit, bits_of};
ghost use Rattle.bit_system.specs.Building.{IsBuilt, system_of};
ghost use Rattle.smv_recheck.specs.declared.judgement.Record.{Record};
ghost use Rattle.smv_recheck.specs.Checking.{AreRecords, IsCheckedText, IsSoundness, is_nothing, is_rejected, is_sound, status_of};
ghost use Rattle.smv_recheck.specs.Judging.{IsRecord};
ghost use Rattle.smv_recheck.specs.Refusing.{IsStop};

use crate::beside::{Beside, read_beside};
use crate::judgement::{Judgement, Record};
use crate::judging::{Exhibit, judge};
use bit_faults::fault_questions;
use bit_states::BuildStop;
use bit_system::{Built, build};
use cert_core::{Certificate, Sound};
use smv_flat::Flat;
use smv_front::read_model;
use smv_meaning::specifications;
use smv_resolve::{Item, ItemKind};
use smv_tree::TextStop;
use sound_check::SoundVerdict;
use sqlite_items::Items;
use std::alloc::{AllocError, Global};
use trace_replay::Trace;

/// What is said of the specifications of a text.
#[derive(Drop)]
pub struct Checked {
    /// The systems of the model, by which certificates were judged.
    pub built: Built,
    /// The sound block, where it is to be printed again.
    pub sound: Option<Sound>,
    /// One record for each specification, in their order.
    pub records: Items<Record>,
}

// The systems of a model, whose bits are never too many.
fn systems_of(alloc: Global, flat: &Flat) -> Result<Built, AllocError>
    requires narrow { bits_of flat.now.typed.scope.program ≤ bit_limit }
    ensures { IfOk result (IsBuilt flat.now.typed.scope.program) }
{
    match build(alloc, flat) {
        Ok(built) => Ok(built),
        Err(BuildStop::TooManyBits) => unreachable!(),
        Err(BuildStop::NoMemory) => Err(AllocError),
    }
}

// The trace of a specification, counted from 0.
fn trace_at(traces: &[Option<Trace>], j: usize) -> Option<&Trace>
    ensures { option_copied result ≡ slice_index_or traces.now j None }
{
    if j < traces.len() {
        traces[j].as_ref()
    } else {
        None
    }
}

// The certificate of a specification, counted from 0.
fn certificate_at(certificates: &[Option<Certificate>], j: usize) -> Option<&Certificate>
    ensures { option_copied result ≡ slice_index_or certificates.now j None }
{
    if j < certificates.len() {
        certificates[j].as_ref()
    } else {
        None
    }
}

// What the check says of a sound block, by what is asked about the items of the model.
fn soundness_of(
    alloc: Global,
    flat: &Flat,
    built: &Built,
    sound: Option<&Sound>,
) -> Result<SoundVerdict, AllocError>
    requires narrow { bits_of flat.now.typed.scope.program ≤ bit_limit }
    requires built { IsBuilt flat.now.typed.scope.program built.now }
    ensures { IfOk result (IsSoundness flat.now.typed.scope.program (option_copied sound.entry)) }
{
    let questions = fault_questions(alloc, &flat.typed, built.layout())?;
    sound_check::judge(alloc, &questions, sound)
}

// The record of a specification, counted from 0.
fn record_of(
    alloc: Global,
    flat: &Flat,
    built: &Built,
    beside: &Beside,
    soundness: SoundVerdict,
    j: usize,
    spec: &Item,
    again: bool,
) -> Result<Record, AllocError>
    requires narrow { bits_of flat.now.typed.scope.program ≤ bit_limit }
    requires room { j + 1 < 2 ^ 64 }
    requires claim { is_claim spec.now.kind ≡ true }
    requires here { slice_get (specifications_of flat.now.typed.scope.program) j ≡ Some (item_by flat.now.typed.nodes spec.now) }
    requires built { IsBuilt flat.now.typed.scope.program built.now }
    ensures { IfOk result (IsRecord flat.now.typed.scope.program soundness (system_of built.now j) again (slice_index_or beside.now.traces j None) (slice_index_or beside.now.certificates.items j None) (j + 1) (item_by flat.now.typed.nodes spec.now)) }
{
    let ItemKind::Specification(kind) = spec.kind else {
        unreachable!()
    };
    let number = j + 1;
    let exhibit = Exhibit {
        soundness,
        trace: trace_at(beside.traces.as_slice(), j),
        certificate: certificate_at(&beside.certificates, j),
    };
    let system = built.system_of(j);
    let judgement = judge(alloc, flat, system, number, kind, spec, exhibit, again)?;
    Ok(Record {
        number,
        kind,
        judgement,
    })
}

// The records of the specifications.
fn records_of(
    alloc: Global,
    flat: &Flat,
    built: &Built,
    beside: &Beside,
    soundness: SoundVerdict,
    specs: &[Item],
    again: bool,
) -> Result<Items<Record>, AllocError>
    requires narrow { bits_of flat.now.typed.scope.program ≤ bit_limit }
    requires claims { All (λ spec. is_claim spec.kind ≡ true) specs.now }
    requires listed { map (item_by flat.now.typed.nodes) specs.now ≡ specifications_of flat.now.typed.scope.program }
    requires built { IsBuilt flat.now.typed.scope.program built.now }
    ensures { IfOk result (AreRecords flat.now.typed.scope.program built.now soundness again beside.now.traces beside.now.certificates.items) }
{
    let mut records = Vec::new(alloc);
    for (j, spec) in specs.iter().enumerate() {
        let record = record_of(alloc, flat, built, beside, soundness, j, spec, again)?;
        records.push(record)?;
    }
    Ok(Items::from_vec(records))
}

fn is_sound(soundness: SoundVerdict) -> bool
    ensures { result ≡ is_sound soundness }
{
    matches!(soundness, SoundVerdict::Sound)
}

// The sound block, where it is to be printed again: in front of the first of so many records, where it was accepted.
fn sound_again(
    sound: Option<Sound>,
    soundness: SoundVerdict,
    specs: usize,
    upgrade: bool,
) -> Option<Sound>
    ensures { result ≡ (if upgrade && is_sound soundness && nat_lt 0 specs then sound else None) }
{
    if upgrade && is_sound(soundness) && specs > 0 {
        sound
    } else {
        None
    }
}

/// Judges the printed report of a model again. The text is the model with the lines of a report behind it, or anywhere between its
/// lines: to the language they are comments.
///
/// Of each specification it says: shown true, where the sound block shows that no item faults and its certificate certifies; shown false,
/// where its trace is that of a run that breaks it, or of a lasso that violates it; rejected, with the first part of the sound block or of
/// its certificate, or the first test of its trace that fails; or that nothing is shown. A trace is judged before a certificate. What is
/// shown holds, by the law `what_is_shown_holds`. With `upgrade` each certificate that certifies is made anew in the form that is judged
/// by hints, and a sound block that is accepted is kept.
///
/// No solver is asked. The time is that of reading the text, of building the systems of the model and what is asked about its items, of
/// the tests of each trace, of `sound_check::judge`, and of `cert_check::check` or `cert_check::upgrade` for each certificate. For each certificate of a temporal formula the system of the
/// formula with monitor and counter is built.
///
/// # Errors
///
/// - `Refused` as in `smv_front::read_model`, where the text is no model; else by 701 BadCertificate or 702 BadTrace at the first line
///   of a certificate or of a trace that is not as it should be, in column 1.
/// - `NoMemory` where memory was refused, which may come at any time.
#[tactic(auto, using(crate::proofs::Stopping::stopped_before, crate::proofs::Stopping::stopped_beside))]
pub fn recheck(alloc: Global, text: &[u8], upgrade: bool) -> Result<Checked, TextStop>
    ensures checked { IfOk result (IsCheckedText text.now upgrade) }
    ensures refused { IfErr result (IsStop text.now) }
{
    let flat = read_model(alloc, text)?;
    let built = systems_of(alloc, &flat)?;
    let typed = &flat.typed;
    let specs = specifications(alloc, typed)?;
    let count = specs.len();
    let beside = read_beside(alloc, text, typed, count)?;
    let soundness = soundness_of(alloc, &flat, &built, beside.sound.as_ref())?;
    let records = records_of(
        alloc,
        &flat,
        &built,
        &beside,
        soundness,
        specs.as_slice(),
        upgrade,
    )?;
    let sound = sound_again(beside.sound, soundness, count, upgrade);
    Ok(Checked {
        built,
        sound,
        records,
    })
}

fn is_rejected(judgement: &Judgement) -> bool
    ensures { result ≡ is_rejected judgement.now }
{
    match judgement {
        Judgement::ItemRejected(_) => true,
        Judgement::PartRejected(_) => true,
        Judgement::TestRejected { .. } => true,
        _ => false,
    }
}

fn is_nothing(judgement: &Judgement) -> bool
    ensures { result ≡ is_nothing judgement.now }
{
    match judgement {
        Judgement::NothingShown => true,
        _ => false,
    }
}

fn any_rejected(records: &[Record]) -> bool
    ensures { result ≡ list_any (λ (r : Record). is_rejected r.judgement) records.now }
{
    records.iter().any(|r| is_rejected(&r.judgement))
}

fn any_nothing(records: &[Record]) -> bool
    ensures { result ≡ list_any (λ (r : Record). is_nothing r.judgement) records.now }
{
    records.iter().any(|r| is_nothing(&r.judgement))
}

/// The status of a report with these records: 1 where something is rejected, else 2 where nothing is shown of some specification, else 0.
pub fn status(records: &[Record]) -> u8
    ensures { result ≡ status_of records.now }
{
    if any_rejected(records) {
        1
    } else if any_nothing(records) {
        2
    } else {
        0
    }
}
