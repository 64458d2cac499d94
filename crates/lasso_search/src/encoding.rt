//! The clauses of bounded model checking for fair lassos (Biere, Heljanko, Junttila, Latvala and
//! Schuppan 2006). They speak of the initial state, each step, the loop's start and end, and the
//! fairness sets met in the loop.

ghost use Rattle.std.specs.Prelude.{◌≡◌, ◌+◌, ◌++◌, ◌∷◌, [], length, IfOk, OnOk};
ghost use Rattle.clause_core.specs.Literals.{at};
ghost use Rattle.lasso_search.specs.Unrolling.{each, beginning, ending, seeing, seen, unseen, opening, moment, closing_at};

use crate::plan::{Plan, Turn, sum};
use clause_core::{Clauses, Lit, System};
use std::alloc::{AllocError, Global};

// The clauses that speak of the initial state alone.
pub fn opening(alloc: Global, plan: &Plan, system: &System) -> Result<Clauses, AllocError>
    ensures { IfOk result (λ cs. cs ≡ opening plan.now system.now) }
{
    let begun = plan.begun_literal(0)?;
    let mut all = Clauses::new(alloc);
    plan.copy(alloc, Turn::First, system.init(), &mut all)?;
    all.push(&[begun.negated()])?;
    add_all_unseen(plan, system.fair().len(), &mut all)?;
    Ok(all)
}

// None of so many sets was met before the initial state.
fn add_all_unseen(plan: &Plan, sets: usize, out: &mut Clauses) -> Result<(), AllocError>
    ensures { OnOk result (out.new ≡ out.old ++ each (unseen plan.now) sets) }
{
    for set in 0..sets {
        add_unseen(plan, set, out)?;
    }
    Ok(())
}

// No set was met before the initial state.
fn add_unseen(plan: &Plan, set: usize, out: &mut Clauses) -> Result<(), AllocError>
    ensures { OnOk result (out.new ≡ out.old ++ unseen plan.now set) }
{
    out.push(&[plan.seen(set, 0)?.negated()])
}

// The clauses of a state, its step and the state after it.
pub fn moment(
    alloc: Global,
    plan: &Plan,
    system: &System,
    time: usize,
) -> Result<Clauses, AllocError>
    ensures { IfOk result (λ cs. cs ≡ moment plan.now system.now time) }
{
    let mut all = Clauses::new(alloc);
    plan.copy(alloc, Turn::Step(time), system.step(), &mut all)?;
    plan.copy(alloc, Turn::State(time), system.defs(), &mut all)?;
    add_loop(plan, system, time, &mut all)?;
    Ok(all)
}

// Adds what the clauses of a state and its step say of the loop.
fn add_loop(plan: &Plan, system: &System, time: usize, out: &mut Clauses) -> Result<(), AllocError>
    ensures { OnOk result (out.new ≡ out.old ++ each (beginning plan.now time) plan.now.bits ++ each (ending plan.now (time + 1)) plan.now.bits ++ each (λ j. seeing plan.now (at system.now.fair j) time j) (length system.now.fair)) }
{
    add_beginnings(plan, time, out)?;
    add_endings(plan, sum(time, 1)?, out)?;
    add_sightings(plan, system, time, out)
}

// If the loop begins at this time, the copied loop state equals the state at this time.
fn add_beginnings(plan: &Plan, time: usize, out: &mut Clauses) -> Result<(), AllocError>
    ensures { OnOk result (out.new ≡ out.old ++ each (beginning plan.now time) plan.now.bits) }
{
    for bit in 0..plan.bits {
        add_beginning(plan, time, bit, out)?;
    }
    Ok(())
}

// The clauses of that for one bit.
fn add_beginning(plan: &Plan, time: usize, bit: usize, out: &mut Clauses) -> Result<(), AllocError>
    ensures { OnOk result (out.new ≡ out.old ++ beginning plan.now time bit) }
{
    let before = plan.begun_literal(time)?;
    let not_after = plan.begun_literal(sum(time, 1)?)?.negated();
    let start = Lit::new(bit, true);
    let here = Lit::new(plan.spot(bit, time)?, true);
    push_two(
        out,
        &[before, not_after, start, here.negated()],
        &[before, not_after, start.negated(), here],
    )
}

// If the loop ends at this time, the copied loop state equals the state at this time.
fn add_endings(plan: &Plan, time: usize, out: &mut Clauses) -> Result<(), AllocError>
    ensures { OnOk result (out.new ≡ out.old ++ each (ending plan.now time) plan.now.bits) }
{
    for bit in 0..plan.bits {
        add_ending(plan, time, bit, out)?;
    }
    Ok(())
}

// The clauses of that for one bit.
fn add_ending(plan: &Plan, time: usize, bit: usize, out: &mut Clauses) -> Result<(), AllocError>
    ensures { OnOk result (out.new ≡ out.old ++ ending plan.now time bit) }
{
    let not_end = plan.ends(time)?.negated();
    let start = Lit::new(bit, true);
    let here = Lit::new(plan.spot(bit, time)?, true);
    push_two(
        out,
        &[not_end, start, here.negated()],
        &[not_end, start.negated(), here],
    )
}

// A set that was met before the next time was met before this one, or is met at this time, in the loop.
fn add_sightings(
    plan: &Plan,
    system: &System,
    time: usize,
    out: &mut Clauses,
) -> Result<(), AllocError>
    ensures { OnOk result (out.new ≡ out.old ++ each (λ j. seeing plan.now (at system.now.fair j) time j) (length system.now.fair)) }
{
    let fair = system.fair();
    for set in 0..fair.len() {
        add_seeing(plan, fair[set], time, set, out)?;
    }
    Ok(())
}

// The clauses of that for one set.
fn add_seeing(
    plan: &Plan,
    literal: Lit,
    time: usize,
    set: usize,
    out: &mut Clauses,
) -> Result<(), AllocError>
    ensures { OnOk result (out.new ≡ out.old ++ seeing plan.now literal time set) }
{
    let next = sum(time, 1)?;
    let not_after = plan.seen(set, next)?.negated();
    let before = plan.seen(set, time)?;
    let begun = plan.begun_literal(next)?;
    let literal = plan.moved(Turn::State(time), literal)?;
    push_two(
        out,
        &[not_after, before, begun],
        &[not_after, before, literal],
    )
}

// The assumptions of a query for a lasso of so many states: the loop begins before its end, closes there, and meets
// each set.
pub fn closing(alloc: Global, plan: &Plan, states: usize) -> Result<Vec<Lit>, AllocError>
    ensures { IfOk result (λ ls. ls.items ≡ closing_at plan.now states) }
{
    let begun = plan.begun_literal(states)?;
    let ends = plan.ends(states)?;
    let mut literals = Vec::new(alloc);
    literals.push(begun)?;
    literals.push(ends)?;
    add_all_seen(plan, states, &mut literals)?;
    Ok(literals)
}

// That each set was met in the loop before a time.
fn add_all_seen(plan: &Plan, time: usize, out: &mut Vec<Lit>) -> Result<(), AllocError>
    ensures { OnOk result (out.new.items ≡ out.old.items ++ each (λ j. seen plan.now j time ∷ []) plan.now.sets) }
{
    for set in 0..plan.sets {
        out.push(plan.seen(set, time)?)?;
    }
    Ok(())
}

// Adds these two clauses.
fn push_two(out: &mut Clauses, first: &[Lit], second: &[Lit]) -> Result<(), AllocError>
    ensures { OnOk result (out.new ≡ out.old ++ first.now ∷ second.now ∷ []) }
{
    out.push(first)?;
    out.push(second)
}
