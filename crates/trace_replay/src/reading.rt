//! What lines may follow one another.

ghost use Rattle.std.specs.Prelude.{◌≡◌, Some, IfOk, slice_set};
ghost use Rattle.trace_replay.specs.Reading.{begun_with, closed, closed_with, followed, is_unlooped, kept_open, may_begin, nothing_read, with_input, with_loop, with_state};

use crate::{Binding, Trace, TraceLine};
use sqlite_items::Items;
use std::alloc::{AllocError, Global};

/// The trace that is being read, and the number of its specification.
#[derive(Debug, Drop)]
pub struct Block {
    pub spec: usize,
    pub trace: Trace,
}

/// What is read: the traces, by the numbers of their specifications, and the one that is being read.
#[derive(Debug, Drop)]
pub struct Reading {
    pub done: Items<Option<Trace>>,
    pub current: Option<Block>,
}

/// Nothing is read, of so many specifications.
pub fn nothing_read(alloc: Global, specs: usize) -> Result<Reading, AllocError>
    ensures { IfOk result (λ r. r ≡ nothing_read specs) }
{
    let mut done = Vec::new(alloc);
    for _ in 0..specs {
        done.push(None)?;
    }
    Ok(Reading {
        done: Items::from_vec(done),
        current: None,
    })
}

/// The traces that are read.
pub fn closed(reading: Reading) -> Items<Option<Trace>>
    ensures { result ≡ closed reading }
{
    closed_with(reading.done, reading.current)
}

fn closed_with(done: Items<Option<Trace>>, current: Option<Block>) -> Items<Option<Trace>>
    ensures { result ≡ closed_with done current }
{
    let Some(block) = current else { return done };
    let Block { spec, trace } = block;
    put(done, spec.saturating_sub(1), trace)
}

fn put(mut done: Items<Option<Trace>>, at: usize, trace: Trace) -> Items<Option<Trace>>
    ensures { result ≡ slice_set done at (Some trace) }
{
    if at < done.len() {
        done.set(at, Some(trace));
    }
    done
}

/// What is read with one more line, if it may stand there.
pub fn followed(
    alloc: Global,
    reading: Reading,
    entry: TraceLine,
) -> Result<Option<Reading>, AllocError>
    ensures { IfOk result (λ r. r ≡ followed reading entry) }
{
    let Reading { done, current } = reading;
    match entry {
        TraceLine::Spec(n) => Ok(begun_with(alloc, n, closed_with(done, current))),
        TraceLine::State(i, bindings) => {
            let Some(block) = current else {
                return Ok(None)
            };
            let trace = with_state(i, bindings, block.trace)?;
            Ok(kept_open(done, block.spec, trace))
        }
        TraceLine::Input(i, bindings) => {
            let Some(block) = current else {
                return Ok(None)
            };
            let trace = with_input(i, bindings, block.trace)?;
            Ok(kept_open(done, block.spec, trace))
        }
        TraceLine::Loop(n) => {
            let Some(block) = current else {
                return Ok(None)
            };
            Ok(kept_open(done, block.spec, with_loop(n, block.trace)))
        }
    }
}

fn begun_with(alloc: Global, n: usize, done: Items<Option<Trace>>) -> Option<Reading>
    ensures { result ≡ begun_with n done }
{
    if !may_begin(n, done.as_slice()) {
        return None;
    }
    let trace = Trace {
        states: Items::new(alloc),
        inputs: Items::new(alloc),
        start: None,
    };
    Some(Reading {
        done,
        current: Some(Block { spec: n, trace }),
    })
}

fn may_begin(n: usize, done: &[Option<Trace>]) -> bool
    ensures { result ≡ may_begin n done.now }
{
    if n == 0 {
        return false;
    }
    match done.get(n - 1) {
        None => false,
        Some(trace) => trace.is_none(),
    }
}

fn kept_open(done: Items<Option<Trace>>, spec: usize, trace: Option<Trace>) -> Option<Reading>
    ensures { result ≡ kept_open done spec trace }
{
    let trace = trace?;
    Some(Reading {
        done,
        current: Some(Block { spec, trace }),
    })
}

fn is_unlooped(start: Option<usize>) -> bool
    ensures { result ≡ is_unlooped start }
{
    match start {
        None => true,
        Some(_) => false,
    }
}

fn with_state(i: usize, bindings: Items<Binding>, trace: Trace) -> Result<Option<Trace>, AllocError>
    ensures { IfOk result (λ t. t ≡ with_state i bindings trace) }
{
    let Trace {
        mut states,
        inputs,
        start,
    } = trace;
    if !is_unlooped(start) || i != states.len() {
        return Ok(None);
    }
    states.push(bindings)?;
    Ok(Some(Trace {
        states,
        inputs,
        start,
    }))
}

fn with_input(i: usize, bindings: Items<Binding>, trace: Trace) -> Result<Option<Trace>, AllocError>
    ensures { IfOk result (λ t. t ≡ with_input i bindings trace) }
{
    let Trace {
        states,
        mut inputs,
        start,
    } = trace;
    if !is_unlooped(start) || i != inputs.len() {
        return Ok(None);
    }
    inputs.push(bindings)?;
    Ok(Some(Trace {
        states,
        inputs,
        start,
    }))
}

fn with_loop(n: usize, trace: Trace) -> Option<Trace>
    ensures { result ≡ with_loop n trace }
{
    let Trace {
        states,
        inputs,
        start,
    } = trace;
    if !is_unlooped(start) {
        return None;
    }
    Some(Trace {
        states,
        inputs,
        start: Some(n),
    })
}
