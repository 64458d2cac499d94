//! Questions about steps, initial states and bad states. The solver is asked only where earlier
//! answers do not tell.

ghost use Rattle.std.specs.Prelude.{◌≡◌, ◌<◌, ◌≤◌, ℕ, Bool, List, IfOk, All, length};
ghost use Rattle.frame_core.specs.declared.parts.Lemma.{Lemma as ALemma};
ghost use Rattle.clause_core.specs.Literals.{Within};
ghost use Rattle.frame_core.specs.FrameLaw.{AreAlike, system_at};
ghost use Rattle.frame_solver.specs.Groups.{base as base_of, step_heads, state_heads, clauses_of};
ghost use Rattle.frame_solver.specs.Engines.{IsLoaded};
ghost use Rattle.frame_solver.specs.Stepping.{Finds};
ghost use Rattle.frame_solver.specs.Firsts.{AllFirstsMeet, FindsFirsts, negation_of};
ghost use Rattle.frame_solver.specs.Bads.{FindsBads};
ghost use Rattle.frame_solver.specs.Flags.{FlagSays, FlagOf};
ghost use Rattle.frame_solver.specs.Paying.{Steps, Firsts as AskFirsts, Bads as AskBads, PaysOne};

use crate::bad_states::{BadStates, query_bads};
use crate::first_states::{Firsts, query_firsts};
use crate::loading::{Engine, system_of};
use crate::negating::negation;
use crate::recalling::Known;
use crate::renewing::{prepare_states, prepare_steps};
use crate::stepping::{Stepping, query_steps};
use clause_core::{Bits, Lit, System};
use effort_purse::Purse;
use frame_core::{Lemma, Parent};
use std::alloc::{AllocError, Global};

/// Relative induction (Bradley 2011): whether a step from a state that meets the clause, in the frame below the level,
/// leaves the clause. No query is asked where a known step does. The tickets drawn are those of the one query; the
/// error is out of memory.
pub fn steps_of<Q: Purse>(
    alloc: Global,
    systems: &[System],
    lemmas: &[Lemma],
    engine: &mut Engine,
    known: &mut Known,
    clause: &[Lit],
    level: u32,
    purse: &mut Q,
) -> Result<Stepping, AllocError>
    requires some { 0 < length systems.now }
    requires lemmas { All (λ (l : ALemma). Within (system_at systems.now 0).state_bits l.clause) lemmas.now }
    requires engine { IsLoaded (base_of (system_at systems.now 0)) (step_heads (system_at systems.now 0)) (clauses_of lemmas.now) engine.old }
    requires within { Within (system_at systems.now 0).state_bits clause.now }
    requires level { 0 < level }
    requires first { AllFirstsMeet (system_at systems.now 0) clause.now }
    requires known { known.old ≡ system_at systems.now 0 }
    requires ready { Q.ready purse.old }
    ensures found { IfOk result (Finds (system_at systems.now 0) lemmas.now level clause.now (Q.budget purse.old) (Q.spent purse.new)) }
    ensures pays { PaysOne systems.now lemmas.now engine.old.solver.learned engine.new.solver.learned (Q.tickets purse.old) (Q.tickets purse.new) (Steps level clause.now) }
    ensures engine { IsLoaded (base_of (system_at systems.now 0)) (step_heads (system_at systems.now 0)) (clauses_of lemmas.now) engine.new }
    ensures known { known.new ≡ known.old }
    ensures kept { Q.kept purse.old purse.new }
    ensures ready { Q.ready purse.new }
    ensures budget { Q.budget purse.new ≡ Q.budget purse.old }
{
    if let Some(values) = known.step_out(alloc, lemmas, clause, level)? {
        return Ok(Stepping::Leaves(values));
    }
    prepare_steps(alloc, systems, lemmas, engine)?;
    let found = query_steps(alloc, systems, lemmas, engine, clause, level, purse)?;
    known.note_step(alloc, &found, level == 1)?;
    Ok(found)
}

/// Whether all initial states meet the clause, with the part of it that they meet, or one that does not. No query is
/// asked where that is known. The tickets drawn are those of the one query; the error is out of memory.
pub fn firsts_of<Q: Purse>(
    alloc: Global,
    systems: &[System],
    lemmas: &[Lemma],
    engine: &mut Engine,
    known: &mut Known,
    clause: &[Lit],
    purse: &mut Q,
) -> Result<Firsts, AllocError>
    requires some { 0 < length systems.now }
    requires alike { AreAlike systems.now }
    requires lemmas { All (λ (l : ALemma). Within (system_at systems.now 0).state_bits l.clause) lemmas.now }
    requires engine { IsLoaded (base_of (system_at systems.now 0)) (state_heads systems.now) (clauses_of lemmas.now) engine.old }
    requires within { Within (system_at systems.now 0).state_bits clause.now }
    requires known { known.old ≡ system_at systems.now 0 }
    requires ready { Q.ready purse.old }
    ensures found { IfOk result (FindsFirsts (system_at systems.now 0) clause.now (Q.budget purse.old) (Q.spent purse.new)) }
    ensures pays { PaysOne systems.now lemmas.now engine.old.solver.learned engine.new.solver.learned (Q.tickets purse.old) (Q.tickets purse.new) (AskFirsts clause.now) }
    ensures engine { IsLoaded (base_of (system_at systems.now 0)) (state_heads systems.now) (clauses_of lemmas.now) engine.new }
    ensures known { known.new ≡ known.old }
    ensures kept { Q.kept purse.old purse.new }
    ensures ready { Q.ready purse.new }
    ensures budget { Q.budget purse.new ≡ Q.budget purse.old }
{
    if let Some(answer) = known.firsts(alloc, clause)? {
        return Ok(answer);
    }
    prepare_states(alloc, systems, lemmas, engine)?;
    let found = query_firsts(alloc, systems, lemmas, engine, clause, purse)?;
    known.note_firsts(alloc, &found)?;
    Ok(found)
}

/// Whether a state of frame i is bad for system j, by one query on the solver of single states. The error is out of
/// memory.
pub fn bads_of<Q: Purse>(
    alloc: Global,
    systems: &[System],
    lemmas: &[Lemma],
    engine: &mut Engine,
    j: usize,
    i: u32,
    purse: &mut Q,
) -> Result<BadStates, AllocError>
    requires number { j < length systems.now }
    requires alike { AreAlike systems.now }
    requires lemmas { All (λ (l : ALemma). Within (system_at systems.now 0).state_bits l.clause) lemmas.now }
    requires engine { IsLoaded (base_of (system_at systems.now 0)) (state_heads systems.now) (clauses_of lemmas.now) engine.old }
    requires ready { Q.ready purse.old }
    ensures found { IfOk result (FindsBads (system_at systems.now j) lemmas.now i (Q.budget purse.old) (Q.spent purse.new)) }
    ensures pays { PaysOne systems.now lemmas.now engine.old.solver.learned engine.new.solver.learned (Q.tickets purse.old) (Q.tickets purse.new) (AskBads j i) }
    ensures engine { IsLoaded (base_of (system_at systems.now 0)) (state_heads systems.now) (clauses_of lemmas.now) engine.new }
    ensures kept { Q.kept purse.old purse.new }
    ensures ready { Q.ready purse.new }
    ensures budget { Q.budget purse.new ≡ Q.budget purse.old }
{
    prepare_states(alloc, systems, lemmas, engine)?;
    query_bads(alloc, systems, lemmas, engine, j, i, purse)
}

/// Whether a state is an initial state.
#[derive(Drop)]
pub enum Flag {
    /// It is one, or it is none.
    Known(bool),
    /// The purse was spent before it was known.
    Spent { drawn: u64, budget: u64 },
}

// What the answer about the clause that excludes a state says of the state.
fn read_flag(answer: Firsts) -> Flag
    ensures { FlagOf answer result }
{
    match answer {
        Firsts::Meet(_) => Flag::Known(false),
        Firsts::First(_) => Flag::Known(true),
        Firsts::Spent { drawn, budget } => Flag::Spent { drawn, budget },
    }
}

/// Whether the state of these values is an initial state: no query is asked where that is known. The error is out of
/// memory.
pub fn flag_of<Q: Purse>(
    alloc: Global,
    systems: &[System],
    lemmas: &[Lemma],
    engine: &mut Engine,
    known: &mut Known,
    values: &Bits,
    purse: &mut Q,
) -> Result<Flag, AllocError>
    requires some { 0 < length systems.now }
    requires alike { AreAlike systems.now }
    requires lemmas { All (λ (l : ALemma). Within (system_at systems.now 0).state_bits l.clause) lemmas.now }
    requires engine { IsLoaded (base_of (system_at systems.now 0)) (state_heads systems.now) (clauses_of lemmas.now) engine.old }
    requires whole { length values.now ≡ (system_at systems.now 0).all_bits }
    requires known { known.old ≡ system_at systems.now 0 }
    requires ready { Q.ready purse.old }
    ensures found { IfOk result (FlagSays (system_at systems.now 0) values.now (Q.budget purse.old) (Q.spent purse.new)) }
    ensures pays { PaysOne systems.now lemmas.now engine.old.solver.learned engine.new.solver.learned (Q.tickets purse.old) (Q.tickets purse.new) (AskFirsts (negation_of values.now (system_at systems.now 0).state_bits)) }
    ensures engine { IsLoaded (base_of (system_at systems.now 0)) (state_heads systems.now) (clauses_of lemmas.now) engine.new }
    ensures known { known.new ≡ known.old }
    ensures kept { Q.kept purse.old purse.new }
    ensures ready { Q.ready purse.new }
    ensures budget { Q.budget purse.new ≡ Q.budget purse.old }
{
    let system = system_of(systems, 0);
    let clause = negation(alloc, values, system.state_bits())?;
    let answer = firsts_of(alloc, systems, lemmas, engine, known, &clause, purse)?;
    Ok(read_flag(answer))
}
