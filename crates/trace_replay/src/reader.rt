//! Reading traces back.

ghost use Rattle.std.specs.Prelude.{◌≡◌, IfOk, IfErr};
ghost use Rattle.trace_replay.specs.Reading.{Holds, IsLinesStop, refusal_at, texts};
ghost use Rattle.trace_replay.specs.Steps.{IsAfter};

use crate::reading::{Reading, closed, followed, nothing_read};
use crate::words::entry_read;
use crate::{Line, Trace};
use smv_tree::{Place, Refusal, Rule, TextStop};
use sqlite_items::Items;
use std::alloc::{AllocError, Global};

/// The traces that lines hold, of each of so many specifications in their order. The lines are those of a source that
/// begin with `--@`, each with its number.
///
/// They are refused by 702 at the first line that is not as it should be, in column 1: that is out of form, stands
/// where it may not, tells a state or inputs out of order, or begins a second trace of a specification or one of none.
/// Memory may be refused at any time. The time is that of reading each line once.
pub fn read(alloc: Global, lines: &[Line], specs: usize) -> Result<Items<Option<Trace>>, TextStop>
    ensures held { IfOk result (Holds specs (texts lines.now)) }
    ensures refused { IfErr result (IsLinesStop specs lines.now) }
{
    let mut reading = nothing_read(alloc, specs)?;
    for line in lines {
        match after(alloc, reading, line)? {
            None => return Err(refused(line)),
            Some(more) => reading = more,
        }
    }
    Ok(closed(reading))
}

fn refused(line: &Line) -> TextStop
    ensures { result ≡ TextStop.Refused (refusal_at line.now.number) }
{
    TextStop::Refused(Refusal {
        rule: Rule::BadTrace,
        place: Place {
            line: line.number,
            column: 1,
        },
        detail: None,
    })
}

// What is read with one more line, if it is in form and may stand there.
fn after(alloc: Global, reading: Reading, line: &Line) -> Result<Option<Reading>, AllocError>
    ensures { IfOk result (IsAfter reading line.now.text) }
{
    match entry_read(alloc, &line.text)? {
        None => Ok(None),
        Some(entry) => followed(alloc, reading, entry),
    }
}
