//! Reads all certificates in a text. The first line that is out of form or out of order is refused.

ghost use Rattle.std.specs.Prelude.{◌≡◌, IfOk, IfErr, MatchOption, IfNone, Ok, Err, map};
ghost use Rattle.cert_text.specs.Reading as reading;
ghost use Rattle.cert_text.specs.Reading.{lines_of, nothing, read_from, read_text, refusal_at, IsStopped};

use crate::reading::Reading;
use crate::scan::pieces;
use cert_core::{Certificate, Sound};
use smv_tree::{Place, Refusal, Rule, TextStop};
use std::alloc::{AllocError, Global};

/// The certificates of a text.
#[derive(Drop)]
pub struct Certificates {
    /// The sound block, if there is one.
    pub sound: Option<Sound>,
    /// The certificate of each specification that has one, one place for each specification.
    pub certificates: Vec<Option<Certificate>>,
}

/// The lines of a text, without the line feeds at which they end; what stands behind the last line feed is a line, too.
/// The only error is out of memory. Its time and memory are linear in the text.
pub fn lines(alloc: Global, text: &[u8]) -> Result<Vec<&[u8]>, AllocError>
    ensures { IfOk result (λ v. map (λ x. x.now) v.items ≡ lines_of text.now) }
{
    pieces(alloc, text, 10)
}

// Whether the line is one of a certificate.
fn is_certificate_line(line: &[u8]) -> bool
    ensures { result ≡ reading.is_certificate_line line.now }
{
    line.starts_with(b"--%")
}

// Reads the lines: the number of the first that is not as it should be, if there is one.
fn add_lines(
    reading: &mut Reading,
    alloc: Global,
    items: usize,
    lines: &[&[u8]],
) -> Result<Option<usize>, AllocError>
    ensures says { IfOk result (λ o. MatchOption o (read_from items 1 1 reading.old (map (λ x. x.now) lines.now) ≡ Ok reading.new) (λ n. read_from items 1 1 reading.old (map (λ x. x.now) lines.now) ≡ Err n)) }
    ensures closed { IfOk result (λ o. IfNone o (reading.new.block ≡ nothing)) }
{
    let mut last = 1;
    for (i, line) in lines.iter().enumerate() {
        if is_certificate_line(line) {
            if !reading.add_line(alloc, items, line)? {
                return Ok(Some(i + 1));
            }
            last = i + 1;
        }
    }
    if reading.is_closed() {
        Ok(None)
    } else {
        Ok(Some(last))
    }
}

// The blocks that were read.
fn finished(reading: Reading) -> Certificates
    ensures { (result.sound ≡ reading.sound) × (result.certificates.items ≡ reading.certificates) }
{
    let (sound, certificates) = reading.finish();
    Certificates {
        sound,
        certificates,
    }
}

fn discard(reading: Reading) {
    drop(finished(reading));
}

// The text is refused at this line.
fn refused(line: usize) -> Refusal
    ensures { result ≡ refusal_at line }
{
    Refusal {
        rule: Rule::BadCertificate,
        place: Place { line, column: 1 },
        detail: None,
    }
}

/// The certificates and the sound block in a text, of which a model with `specs` specifications and `items` items may
/// be a part. Lines that begin with `--%` belong to them, wherever they stand; all others are not looked at.
///
/// Refused by 701 at the first line that is not as it should be: out of form, out of order, given twice, of a
/// specification or an item that does not exist; or at the last line of a block that does not end. The other error is
/// out of memory. Its time and memory are linear in the text.
pub fn read(
    alloc: Global,
    text: &[u8],
    specs: usize,
    items: usize,
) -> Result<Certificates, TextStop>
    ensures whole { IfOk result (λ c. read_text specs items text.now ≡ Ok record { sound = c.sound; certificates = c.certificates.items; block = nothing }) }
    ensures stopped { IfErr result (IsStopped (read_text specs items text.now)) }
{
    let Some(all_items) = items.checked_add(specs) else {
        return Err(TextStop::NoMemory);
    };
    let lines = lines(alloc, text)?;
    let mut reading = Reading::new(alloc, specs)?;
    match add_lines(&mut reading, alloc, all_items, &lines) {
        Err(e) => {
            discard(reading);
            Err(TextStop::from(e))
        }
        Ok(Some(line)) => {
            discard(reading);
            Err(TextStop::Refused(refused(line)))
        }
        Ok(None) => Ok(finished(reading)),
    }
}
