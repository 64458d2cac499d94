//! What a text holds beside its model: traces and certificates.

ghost use Rattle.std.specs.Prelude.{◌≡◌, count_by, not, IfOk, IfErr};
ghost use Rattle.smv_resolve.specs.declared.item.Item.{Item};
ghost use Rattle.smv_meaning.specs.Runs.{is_claim};
ghost use Rattle.smv_recheck.specs.Refusing.{Holdings, IsStopBeside, earlier, item_count, spec_count};

use crate::trace_lines::read_traces;
use cert_core::{Certificate, Sound};
use cert_text::Certificates;
use smv_meaning::{Typed, is_claim};
use smv_resolve::Item;
use smv_tree::TextStop;
use sqlite_items::Items;
use std::alloc::Global;
use trace_replay::Trace;

/// What stands beside a model: of each specification a trace and a certificate, if there is one; and the sound block.
#[derive(Drop)]
pub struct Beside {
    pub traces: Items<Option<Trace>>,
    pub sound: Option<Sound>,
    pub certificates: Vec<Option<Certificate>>,
}

// How many of these items are no specifications.
fn others(items: &[Item]) -> usize
    ensures { result ≡ count_by (λ (x : Item). not (is_claim x.kind)) items.now }
{
    items.iter().filter(|item| !is_claim(item.kind)).count()
}

// How many items of a program are no specifications.
fn item_count(typed: &Typed) -> usize
    ensures { result ≡ item_count typed.now.scope.program }
{
    others(typed.items.as_slice())
}

// Of two stops the one at the earlier line.
fn earlier(trace: TextStop, certificate: TextStop) -> TextStop
    ensures { result ≡ earlier trace certificate }
{
    match trace {
        TextStop::NoMemory => TextStop::NoMemory,
        TextStop::Refused(first) => match certificate {
            TextStop::NoMemory => TextStop::NoMemory,
            TextStop::Refused(second) => {
                if first.place.line < second.place.line {
                    TextStop::Refused(first)
                } else {
                    TextStop::Refused(second)
                }
            }
        },
    }
}

/// What stands beside a model with so many specifications.
///
/// Refused by 702 or by 701, at the first line of a trace or of a certificate that is not as it should be. The only other error is want
/// of memory. Its time and memory are linear in the text.
pub fn read_beside(
    alloc: Global,
    text: &[u8],
    typed: &Typed,
    specs: usize,
) -> Result<Beside, TextStop>
    requires { specs ≡ spec_count typed.now.scope.program }
    ensures held { IfOk result (λ b. Holdings typed.now.scope.program text.now b.traces b.sound b.certificates.items) }
    ensures refused { IfErr result (IsStopBeside typed.now.scope.program text.now) }
{
    let items = item_count(typed);
    let traces = read_traces(alloc, text, specs);
    let found = cert_text::read(alloc, text, specs, items);
    match traces {
        Ok(traces) => match found {
            Ok(
                Certificates {
                    sound,
                    certificates,
                },
            ) => Ok(Beside {
                traces,
                sound,
                certificates,
            }),
            Err(certificate) => Err(certificate),
        },
        Err(trace) => match found {
            Ok(_) => Err(trace),
            Err(certificate) => Err(earlier(trace, certificate)),
        },
    }
}
