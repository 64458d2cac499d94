//! The lines of traces in a text.

ghost use Rattle.std.specs.Prelude.{◌≡◌, map, IfOk, IfErr};
ghost use Rattle.std.specs.Str.{IsAscii};
ghost use Rattle.trace_replay.specs.Reading.{Holds, IsLinesStop, refusal_at, texts};
ghost use Rattle.smv_recheck.specs.Lines.{is_trace_line, trace_lines};
ghost use Rattle.smv_recheck.specs.Cutting.{Cuts};

use cert_text::lines;
use plain_text::Text;
use smv_tree::{Place, Refusal, Rule, TextStop};
use sqlite_items::Items;
use std::alloc::{AllocError, Global};
use trace_replay::{Line, Trace};

/// The lines of traces in front of the first that has other bytes than those of ASCII, and the number of that one.
#[derive(Debug, Drop)]
pub struct Cut {
    pub lines: Vec<Line>,
    pub broken: Option<usize>,
}

fn is_trace_line(line: &[u8]) -> bool
    ensures { result ≡ is_trace_line line.now }
{
    line.starts_with(b"--@")
}

// The lines of traces among these, up to the first that has other bytes than those of ASCII.
fn cut_lines(alloc: Global, lines: &[&[u8]]) -> Result<Cut, AllocError>
    ensures { IfOk result (Cuts (map (λ x. x.now) lines.now)) }
{
    let mut found = Vec::new(alloc);
    for (i, line) in lines.iter().enumerate() {
        if is_trace_line(line) {
            if !line.is_ascii() {
                return Ok(Cut {
                    lines: found,
                    broken: Some(i + 1),
                });
            }
            found.push(Line {
                number: i + 1,
                text: Text::from_ascii(alloc, line)?,
            })?;
        }
    }
    Ok(Cut {
        lines: found,
        broken: None,
    })
}

// The refusal of a line.
fn refused(line: usize) -> Refusal
    ensures { result ≡ refusal_at line }
{
    Refusal {
        rule: Rule::BadTrace,
        place: Place { line, column: 1 },
        detail: None,
    }
}

/// The traces in a text, of each of so many specifications. Lines that begin with `--@` belong to them, wherever they stand; all
/// others are not looked at. They are refused as `trace_replay::read` says; so is a line with other bytes than those of ASCII.
pub fn read_traces(
    alloc: Global,
    text: &[u8],
    specs: usize,
) -> Result<Items<Option<Trace>>, TextStop>
    ensures held { IfOk result (Holds specs (texts (trace_lines text.now))) }
    ensures refused { IfErr result (IsLinesStop specs (trace_lines text.now)) }
{
    let all = lines(alloc, text)?;
    let cut = cut_lines(alloc, &all)?;
    match trace_replay::read(alloc, &cut.lines, specs) {
        Err(stop) => Err(stop),
        Ok(traces) => match cut.broken {
            None => Ok(traces),
            Some(line) => Err(TextStop::Refused(refused(line))),
        },
    }
}
