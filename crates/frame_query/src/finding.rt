//! Turns what queries found into facts that the frames accept: proofs, steps and bad states.

ghost use Rattle.std.specs.Prelude.{◌≡◌, ◌<◌, ◌≤◌, ℕ, Bool, List, IfOk, All, length};
ghost use Rattle.frame_core.specs.declared.parts.Lemma.{Lemma as ALemma};
ghost use Rattle.clause_core.specs.Literals.{Within};
ghost use Rattle.frame_core.specs.FrameLaw.{AreAlike, system_at};
ghost use Rattle.frame_solver.specs.Groups.{base as base_of, step_heads, state_heads, clauses_of};
ghost use Rattle.frame_solver.specs.Engines.{IsLoaded};
ghost use Rattle.frame_solver.specs.Firsts.{AllFirstsMeet, negation_of};
ghost use Rattle.frame_solver.specs.Bads.{IsBadIn};
ghost use Rattle.frame_query.specs.Findings.{Shows, Tells, FindsRelative, FindsBad, IsTheState, PaysBad, FindsNoted};
ghost use Rattle.frame_solver.specs.Paying.{Steps, Firsts as AskFirsts, PaysOne};

use crate::outcomes::{Bads, Noted, Relative};
use clause_core::{Bits, Clause, Lit, System};
use effort_purse::Purse;
use frame_core::{Clear, Lemma, Proved, StateWitness, Step};
use frame_solver::{
    BadStates, Engine, Flag, Known, Stepping, bads_of, flag_of, steps_of, system_of,
};
use std::alloc::{AllocError, Global};

// The answer of a query about steps, as a fact with its proof.
pub(crate) fn step_outcome<'a>(
    alloc: Global,
    system: &'a System,
    clause: &[Lit],
    level: u32,
    found: Stepping,
) -> Result<Relative<'a>, AllocError>
    requires level { 0 < level }
    requires within { Within system.now.state_bits clause.now }
    requires first { AllFirstsMeet system.now clause.now }
    requires shown { Shows system.now level clause.now found }
    ensures { IfOk result (Tells system.now level clause.now found) }
{
    match found {
        Stepping::Holds { parents, part } => {
            let copy = Clause::from_slice(alloc, clause)?;
            let part = Clause::from_vec(part);
            Ok(Relative::Proved(Proved::new(system, copy, part, level, parents)))
        }
        Stepping::Leaves(values) => Ok(Relative::Step(Step::new(system, values))),
        Stepping::Spent { drawn, budget } => Ok(Relative::Spent { drawn, budget }),
    }
}

// Whether the clause is inductive relative to the frame below the level.
pub(crate) fn relative_of<'a, Q: Purse>(
    alloc: Global,
    systems: &'a [System],
    lemmas: &[Lemma],
    engine: &mut Engine,
    known: &mut Known,
    clause: &[Lit],
    level: u32,
    purse: &mut Q,
) -> Result<Relative<'a>, AllocError>
    requires some { 0 < length systems.now }
    requires lemmas { All (λ (l : ALemma). Within (system_at systems.now 0).state_bits l.clause) lemmas.now }
    requires engine { IsLoaded (base_of (system_at systems.now 0)) (step_heads (system_at systems.now 0)) (clauses_of lemmas.now) engine.old }
    requires within { Within (system_at systems.now 0).state_bits clause.now }
    requires level { 0 < level }
    requires first { AllFirstsMeet (system_at systems.now 0) clause.now }
    requires known { known.old ≡ system_at systems.now 0 }
    requires ready { Q.ready purse.old }
    ensures found { IfOk result (FindsRelative systems.now lemmas.now clause.now level (Q.budget purse.old) (Q.spent purse.new)) }
    ensures pays { PaysOne systems.now lemmas.now engine.old.solver.learned engine.new.solver.learned (Q.tickets purse.old) (Q.tickets purse.new) (Steps level clause.now) }
    ensures engine { IsLoaded (base_of (system_at systems.now 0)) (step_heads (system_at systems.now 0)) (clauses_of lemmas.now) engine.new }
    ensures known { known.new ≡ known.old }
    ensures kept { Q.kept purse.old purse.new }
    ensures ready { Q.ready purse.new }
    ensures budget { Q.budget purse.new ≡ Q.budget purse.old }
{
    let found = steps_of(alloc, systems, lemmas, engine, known, clause, level, purse)?;
    step_outcome(alloc, system_of(systems, 0), clause, level, found)
}

// The bad state of frame `top` that was found, once it is known whether it is an initial one.
fn found_bad<'a, Q: Purse>(
    alloc: Global,
    systems: &'a [System],
    lemmas: &[Lemma],
    engine: &mut Engine,
    known: &mut Known,
    j: usize,
    top: u32,
    values: Bits,
    purse: &mut Q,
) -> Result<Bads<'a>, AllocError>
    requires number { j < length systems.now }
    requires alike { AreAlike systems.now }
    requires lemmas { All (λ (l : ALemma). Within (system_at systems.now 0).state_bits l.clause) lemmas.now }
    requires engine { IsLoaded (base_of (system_at systems.now 0)) (state_heads systems.now) (clauses_of lemmas.now) engine.old }
    requires bad { IsBadIn (system_at systems.now j) lemmas.now top values }
    requires known { known.old ≡ system_at systems.now 0 }
    requires ready { Q.ready purse.old }
    ensures found { IfOk result (FindsBad systems.now lemmas.now j top (Q.budget purse.old) (Q.spent purse.new)) }
    ensures state { IfOk result (IsTheState values) }
    ensures pays { PaysOne systems.now lemmas.now engine.old.solver.learned engine.new.solver.learned (Q.tickets purse.old) (Q.tickets purse.new) (AskFirsts (negation_of values (system_at systems.now 0).state_bits)) }
    ensures engine { IsLoaded (base_of (system_at systems.now 0)) (state_heads systems.now) (clauses_of lemmas.now) engine.new }
    ensures known { known.new ≡ known.old }
    ensures kept { Q.kept purse.old purse.new }
    ensures ready { Q.ready purse.new }
    ensures budget { Q.budget purse.new ≡ Q.budget purse.old }
{
    let system = system_of(systems, j);
    if top == 0 {
        return Ok(Bads::Found(StateWitness::new(system, values, false, true)));
    }
    match flag_of(alloc, systems, lemmas, engine, known, &values, purse)? {
        Flag::Known(first) => Ok(Bads::Found(StateWitness::new(system, values, false, first))),
        Flag::Spent { drawn, budget } => Ok(Bads::Spent { drawn, budget }),
    }
}

// Whether a state of frame `top` is bad for system j.
pub(crate) fn bad_of<'a, Q: Purse>(
    alloc: Global,
    systems: &'a [System],
    lemmas: &[Lemma],
    engine: &mut Engine,
    known: &mut Known,
    j: usize,
    top: u32,
    purse: &mut Q,
) -> Result<Bads<'a>, AllocError>
    requires number { j < length systems.now }
    requires alike { AreAlike systems.now }
    requires lemmas { All (λ (l : ALemma). Within (system_at systems.now 0).state_bits l.clause) lemmas.now }
    requires engine { IsLoaded (base_of (system_at systems.now 0)) (state_heads systems.now) (clauses_of lemmas.now) engine.old }
    requires known { known.old ≡ system_at systems.now 0 }
    requires ready { Q.ready purse.old }
    ensures found { IfOk result (FindsBad systems.now lemmas.now j top (Q.budget purse.old) (Q.spent purse.new)) }
    ensures pays { PaysBad systems.now lemmas.now engine.old.solver.learned engine.new.solver.learned (Q.tickets purse.old) (Q.tickets purse.new) j top (λ values. IfOk result (IsTheState values)) }
    ensures engine { IsLoaded (base_of (system_at systems.now 0)) (state_heads systems.now) (clauses_of lemmas.now) engine.new }
    ensures known { known.new ≡ known.old }
    ensures kept { Q.kept purse.old purse.new }
    ensures ready { Q.ready purse.new }
    ensures budget { Q.budget purse.new ≡ Q.budget purse.old }
{
    match bads_of(alloc, systems, lemmas, engine, j, top, purse)? {
        BadStates::None(parents) => {
            let system = system_of(systems, j);
            Ok(Bads::Clear(Clear::new(system, top, parents)))
        }
        BadStates::Spent { drawn, budget } => Ok(Bads::Spent { drawn, budget }),
        BadStates::Some(values) => found_bad(
            alloc, systems, lemmas, engine, known, j, top, values, purse,
        ),
    }
}

// The state that the step leads from, once it is known whether it is an initial one.
pub(crate) fn noted_of<'a, Q: Purse>(
    alloc: Global,
    systems: &[System],
    lemmas: &[Lemma],
    engine: &mut Engine,
    known: &mut Known,
    step: Step<'a>,
    purse: &mut Q,
) -> Result<Noted<'a>, AllocError>
    requires some { 0 < length systems.now }
    requires alike { AreAlike systems.now }
    requires lemmas { All (λ (l : ALemma). Within (system_at systems.now 0).state_bits l.clause) lemmas.now }
    requires engine { IsLoaded (base_of (system_at systems.now 0)) (state_heads systems.now) (clauses_of lemmas.now) engine.old }
    requires system { step.system ≡ system_at systems.now 0 }
    requires known { known.old ≡ system_at systems.now 0 }
    requires ready { Q.ready purse.old }
    ensures found { IfOk result (FindsNoted step.entry (Q.budget purse.old) (Q.spent purse.new)) }
    ensures pays { PaysOne systems.now lemmas.now engine.old.solver.learned engine.new.solver.learned (Q.tickets purse.old) (Q.tickets purse.new) (AskFirsts (negation_of step.entry.values (system_at systems.now 0).state_bits)) }
    ensures engine { IsLoaded (base_of (system_at systems.now 0)) (state_heads systems.now) (clauses_of lemmas.now) engine.new }
    ensures known { known.new ≡ known.old }
    ensures kept { Q.kept purse.old purse.new }
    ensures ready { Q.ready purse.new }
    ensures budget { Q.budget purse.new ≡ Q.budget purse.old }
{
    let _system = step.system();
    match flag_of(alloc, systems, lemmas, engine, known, step.values(), purse)? {
        Flag::Known(first) => Ok(Noted::Found(StateWitness::of_step(step, first))),
        Flag::Spent { drawn, budget } => Ok(Noted::Spent { drawn, budget }),
    }
}
