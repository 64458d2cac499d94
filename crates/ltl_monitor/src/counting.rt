//! Counts signals, each of which comes once all fairness sets were met, up to a bound. A bad state
//! is one where the count passes the bound (k-liveness, Claessen and Sörensson 2012).

ghost use Rattle.std.specs.Prelude.{◌≡◌, ◌+◌, ◌++◌, ◌∷◌, [], ◌≤◌, IfOk, OnOk, length};
ghost use Rattle.clause_core.specs.Literals.{at};
ghost use Rattle.clause_core.specs.Systems.{IsSystem};
ghost use Rattle.ltl_monitor.specs.Assembly.{assembled};
ghost use Rattle.ltl_monitor.specs.Counted.{IsCounted};
ghost use Rattle.ltl_monitor.specs.Counting.{bit, unset_added, set_fired, fired, set_marked, marked, bit_counted, counted_up, counting, bad_of, good_of, yes_added};

use crate::assembly::{assemble, begin, copied, layout_of};
use crate::draft::Draft;
use crate::layout::{Layout, Space, sum};
use crate::monitored_system::Monitored;
use crate::rules::{push_and_or, push_or_and};
use clause_core::{Clauses, Lit, System};
use std::alloc::{AllocError, Global};

/// The monitored system with a signal, and a counter of signals up to a bound.
///
/// A state has, after the monitored system's bits, one bit for each set, which says that it was seen
/// since the last signal, and one for each number below the bound, which says that there were more
/// signals. The signal is true where each set was seen or holds. A state is bad where the count is at
/// the bound and the signal is true, and else good. So where no bad state is reached, no run has more
/// signals than that (Claessen and Sörensson 2012). Time and memory are linear in the system and the
/// bound. The only error is out of memory, which a number of variables past `usize::MAX` counts as.
pub fn counted(alloc: Global, monitored: &Monitored, bound: usize) -> Result<System, AllocError>
    ensures { IfOk result (λ c. IsCounted monitored.now.system bound c) }
{
    let system = &monitored.system;
    system.law();
    let sets = system.fair().len();
    let bits = sum(sets, bound)?;
    let layout = layout_of(system, bits)?;
    let counting = count(alloc, &layout, system, bound)?;
    with_counting(alloc, &layout, system, &counting)
}

// The system with the rules of a counting, where a full count at a signal is bad.
fn with_counting(
    alloc: Global,
    layout: &Layout,
    system: &System,
    counting: &Counting,
) -> Result<System, AllocError>
    requires valid { IsSystem (assembled layout.now system.now (bad_of layout.now counting.now) (good_of layout.now counting.now) counting.now.draft) }
    requires room { layout.now.given + layout.now.nodes ≤ counting.now.draft.gate }
    ensures { IfOk result (λ c. c ≡ assembled layout.now system.now (bad_of layout.now counting.now) (good_of layout.now counting.now) counting.now.draft) }
{
    let bad = bad(alloc, layout, counting)?;
    let good = good(alloc, layout, counting)?;
    assemble(alloc, layout, system, bad, good, &counting.draft)
}

// The rules of marks, signal and counter.
#[derive(Drop)]
struct Counting {
    draft: Draft,
    // Each set was seen or holds.
    signal: Lit,
    // There were as many signals as the bound.
    full: Lit,
}

fn count(
    alloc: Global,
    layout: &Layout,
    system: &System,
    bound: usize,
) -> Result<Counting, AllocError>
    ensures { IfOk result (λ x. x ≡ counting layout.now system.now bound) }
{
    let sets = layout.moved_all(alloc, Space::Local, system.fair())?;
    let mut draft = begin(alloc, layout, system)?;
    let (signal, full) = count_sets(&mut draft, layout, sets.as_slice(), bound)?;
    Ok(Counting {
        draft,
        signal,
        full,
    })
}

// Adds the rules of marks, signal and counter of these sets, and gives the signal and the literal of a full count.
fn count_sets(
    draft: &mut Draft,
    layout: &Layout,
    sets: &[Lit],
    bound: usize,
) -> Result<(Lit, Lit), AllocError>
    ensures { IfOk result (λ r. let yes = yes_added draft.old in let x = fired layout.now sets.now (length sets.now) yes in record { draft = draft.new; lit = r.1 } ≡ counted_up layout.now (length sets.now) x.lit bound record { draft = marked layout.now x.lit sets.now (length sets.now) x.draft; lit = yes.lit } × (r.0 ≡ x.lit)) }
{
    let yes = draft.constant(true)?;
    let signal = fire(draft, layout, sets, yes)?;
    mark(draft, layout, sets, signal)?;
    let full = count_up(draft, layout, sets.len(), signal, bound, yes)?;
    Ok((signal, full))
}

// The signal of all sets, from one of none.
fn fire(draft: &mut Draft, layout: &Layout, sets: &[Lit], none: Lit) -> Result<Lit, AllocError>
    ensures { IfOk result (λ l. record { draft = draft.new; lit = l } ≡ fired layout.now sets.now (length sets.now) record { draft = draft.old; lit = none }) }
{
    let mut signal = none;
    for j in 0..sets.len() {
        signal = fire_set(draft, layout, j, sets[j], signal)?;
    }
    Ok(signal)
}

fn fire_set(
    draft: &mut Draft,
    layout: &Layout,
    j: usize,
    set: Lit,
    signal: Lit,
) -> Result<Lit, AllocError>
    ensures { IfOk result (λ l. record { draft = draft.new; lit = l } ≡ set_fired layout.now j set record { draft = draft.old; lit = signal }) }
{
    let seen = Lit::new(draft.gate, true);
    draft.or(bit(layout, j)?, set)?;
    let missed = Lit::new(draft.gate, true);
    draft.or(signal.negated(), seen.negated())?;
    Ok(missed.negated())
}

// The bit with a number, after the given ones.
fn bit(layout: &Layout, j: usize) -> Result<Lit, AllocError>
    ensures { IfOk result (λ l. l ≡ bit layout.now j) }
{
    Ok(Lit::new(sum(layout.given, j)?, true))
}

// Adds the rules of all marks.
fn mark(draft: &mut Draft, layout: &Layout, sets: &[Lit], signal: Lit) -> Result<(), AllocError>
    ensures { OnOk result (draft.new ≡ marked layout.now signal sets.now (length sets.now) draft.old) }
{
    for j in 0..sets.len() {
        mark_set(draft, layout, j, sets[j], signal)?;
    }
    Ok(())
}

fn mark_set(
    draft: &mut Draft,
    layout: &Layout,
    j: usize,
    set: Lit,
    signal: Lit,
) -> Result<(), AllocError>
    ensures { OnOk result (draft.new ≡ set_marked layout.now signal j set draft.old) }
{
    let mark = bit(layout, j)?;
    let next = layout.moved(Space::Next, mark)?;
    let no_signal = layout.moved(Space::Now, signal)?.negated();
    let now = layout.moved(Space::Now, mark)?;
    let set = layout.moved(Space::Now, set)?;
    push_and_or(&mut draft.rows, next, no_signal, now, set)?;
    draft.starts.push(&[mark.negated()])
}

// Adds the rules of the counter's bits, and gives the literal of a full count.
fn count_up(
    draft: &mut Draft,
    layout: &Layout,
    sets: usize,
    signal: Lit,
    bound: usize,
    yes: Lit,
) -> Result<Lit, AllocError>
    ensures { IfOk result (λ l. record { draft = draft.new; lit = l } ≡ counted_up layout.now sets signal bound record { draft = draft.old; lit = yes }) }
{
    let mut reached = yes;
    for j in 0..bound {
        reached = count_bit(draft, layout, sum(sets, j)?, signal, reached)?;
    }
    Ok(reached)
}

fn count_bit(
    draft: &mut Draft,
    layout: &Layout,
    number: usize,
    signal: Lit,
    reached: Lit,
) -> Result<Lit, AllocError>
    ensures { IfOk result (λ l. record { draft = draft.new; lit = l } ≡ bit_counted layout.now signal number record { draft = draft.old; lit = reached }) }
{
    let more = bit(layout, number)?;
    let next = layout.moved(Space::Next, more)?;
    let now = layout.moved(Space::Now, more)?;
    let reached = layout.moved(Space::Now, reached)?;
    let signal = layout.moved(Space::Now, signal)?;
    push_or_and(&mut draft.rows, next, now, reached, signal)?;
    draft.starts.push(&[more.negated()])?;
    Ok(more)
}

// Where the count is full and the signal is true.
fn bad(alloc: Global, layout: &Layout, counting: &Counting) -> Result<Clauses, AllocError>
    ensures { IfOk result (λ cs. cs ≡ bad_of layout.now counting.now) }
{
    let signal = layout.moved(Space::Now, counting.signal)?;
    let full = layout.moved(Space::Now, counting.full)?;
    let mut bad = copied(alloc, layout, Space::Now, &counting.draft.defs)?;
    bad.push(&[signal])?;
    bad.push(&[full])?;
    Ok(bad)
}

// Where the count is not full or the signal is false.
fn good(alloc: Global, layout: &Layout, counting: &Counting) -> Result<Clauses, AllocError>
    ensures { IfOk result (λ cs. cs ≡ good_of layout.now counting.now) }
{
    let signal = layout.moved(Space::Now, counting.signal)?;
    let full = layout.moved(Space::Now, counting.full)?;
    let mut good = copied(alloc, layout, Space::Now, &counting.draft.defs)?;
    good.push(&[signal.negated(), full.negated()])?;
    Ok(good)
}
