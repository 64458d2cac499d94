//! The lines of a report on a text.

ghost use Rattle.std.specs.Prelude.{◌≡◌, ◌++◌, IfOk, OnOk, string_bytes};
ghost use Rattle.std.specs.List.{flat_map};
ghost use Rattle.smv_recheck.specs.Printed as printed;

use crate::checking::Checked;
use crate::judgement::{Judgement, Record};
use cert_core::{Certificate, Part, Sound};
use plain_text::Text;
use std::alloc::{AllocError, Global};
use std::fmt::Write;
use trace_replay::ReplayRule;

// Writes a number that is counted from 0, counted from 1.
fn write_numbered(out: &mut String, name: &str, k: usize) -> Result<(), AllocError>
    ensures { OnOk result (string_bytes out.new ≡ string_bytes out.old ++ name.now ++ printed.number_text k) }
{
    let n = k as u128 + 1;
    write!(out, "{name}{n}")
}

// Writes the name of a part.
fn write_part(out: &mut String, part: Part) -> Result<(), AllocError>
    ensures { OnOk result (string_bytes out.new ≡ string_bytes out.old ++ printed.part_name part) }
{
    match part {
        Part::Shared => out.push_str("shared 0"),
        Part::First(k) => write_numbered(out, "first ", k),
        Part::Kept(k) => write_numbered(out, "kept ", k),
        Part::Safe => out.push_str("safe 0"),
    }
}

// Writes the certificate of a specification, where one is printed again.
fn write_again(
    alloc: Global,
    out: &mut String,
    number: usize,
    again: &Option<Certificate>,
) -> Result<(), AllocError>
    ensures { OnOk result (string_bytes out.new ≡ string_bytes out.old ++ printed.again_text number again.now) }
{
    match again {
        None => Ok(()),
        Some(certificate) => {
            let text = cert_text::print(alloc, number, certificate)?;
            out.push_str(text.as_str())
        }
    }
}

fn write_true(
    alloc: Global,
    out: &mut String,
    number: usize,
    again: &Option<Certificate>,
) -> Result<(), AllocError>
    ensures { OnOk result (string_bytes out.new ≡ string_bytes out.old ++ printed.true_text number again.now) }
{
    out.push_str("is shown true\n")?;
    write_again(alloc, out, number, again)
}

fn write_false(out: &mut String) -> Result<(), AllocError>
    ensures { OnOk result (string_bytes out.new ≡ string_bytes out.old ++ printed.false_text) }
{
    out.push_str("is shown false\n")
}

fn write_part_rejected(out: &mut String, part: Part) -> Result<(), AllocError>
    ensures { OnOk result (string_bytes out.new ≡ string_bytes out.old ++ printed.part_rejected_text part) }
{
    out.push_str("is rejected: part ")?;
    write_part(out, part)?;
    out.push_str("\n")
}

fn write_item_rejected(out: &mut String, item: usize) -> Result<(), AllocError>
    ensures { OnOk result (string_bytes out.new ≡ string_bytes out.old ++ printed.item_rejected_text item) }
{
    write!(out, "is rejected: part item {item}\n")
}

fn write_test_rejected(out: &mut String, rule: ReplayRule, number: usize) -> Result<(), AllocError>
    ensures { OnOk result (string_bytes out.new ≡ string_bytes out.old ++ printed.test_rejected_text rule number) }
{
    write!(out, "is rejected: trace {rule} {number}\n")
}

fn write_nothing(out: &mut String) -> Result<(), AllocError>
    ensures { OnOk result (string_bytes out.new ≡ string_bytes out.old ++ printed.nothing_text) }
{
    out.push_str("has nothing shown\n")
}

// Writes what follows the kind of a specification.
fn write_judgement(
    alloc: Global,
    out: &mut String,
    number: usize,
    judgement: &Judgement,
) -> Result<(), AllocError>
    ensures { OnOk result (string_bytes out.new ≡ string_bytes out.old ++ printed.judgement_text number judgement.now) }
{
    match judgement {
        Judgement::ShownTrue(again) => write_true(alloc, out, number, again),
        Judgement::ShownFalse => write_false(out),
        Judgement::ItemRejected(item) => write_item_rejected(out, *item),
        Judgement::PartRejected(part) => write_part_rejected(out, *part),
        Judgement::TestRejected { rule, number } => write_test_rejected(out, *rule, *number),
        Judgement::NothingShown => write_nothing(out),
    }
}

fn write_record(alloc: Global, out: &mut String, said: &Record) -> Result<(), AllocError>
    ensures { OnOk result (string_bytes out.new ≡ string_bytes out.old ++ printed.record_text said.now) }
{
    let (number, kind) = (said.number, said.kind);
    write!(out, "-- spec {number} {kind} ")?;
    write_judgement(alloc, out, number, &said.judgement)
}

fn write_records(alloc: Global, out: &mut String, records: &[Record]) -> Result<(), AllocError>
    ensures { OnOk result (string_bytes out.new ≡ string_bytes out.old ++ flat_map printed.record_text records.now) }
{
    for said in records {
        write_record(alloc, out, said)?;
    }
    Ok(())
}

// Writes the sound block, where one is printed again.
fn write_sound(alloc: Global, out: &mut String, sound: &Option<Sound>) -> Result<(), AllocError>
    ensures { OnOk result (string_bytes out.new ≡ string_bytes out.old ++ printed.sound_again_text sound.now) }
{
    match sound {
        None => Ok(()),
        Some(sound) => {
            let text = cert_text::print_sound(alloc, sound)?;
            out.push_str(text.as_str())
        }
    }
}

/// The report on a text: a line for each specification, behind which stands the certificate that is printed again; in front of all of
/// them stands the sound block, where it is printed again. The only error is out of memory. Its time is linear in the text.
pub fn print(alloc: Global, checked: &Checked) -> Result<Text, AllocError>
    ensures { IfOk result (λ t. t ≡ printed.report_text checked.now) }
{
    let mut out = String::new(alloc);
    write_sound(alloc, &mut out, &checked.sound)?;
    write_records(alloc, &mut out, checked.records.as_slice())?;
    Text::from_str(alloc, out.as_str())
}
