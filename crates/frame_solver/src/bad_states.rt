//! Queries for a bad state in a frame (Bradley 2011). The core tells which lemmas were needed.

ghost use Rattle.std.specs.Prelude.{◌≡◌, ◌+◌, ◌<◌, ◌≤◌, ℕ, Bool, List, IfOk, All, length, take};
ghost use Rattle.frame_core.specs.declared.parts.Lemma.{Lemma as ALemma};
ghost use Rattle.clause_core.specs.Literals.{Within};
ghost use Rattle.frame_core.specs.FrameLaw.{AreAlike, system_at};
ghost use Rattle.frame_solver.specs.Groups.{base as base_of, state_heads, clauses_of};
ghost use Rattle.frame_solver.specs.Engines.{IsLoaded, IsReady};
ghost use Rattle.frame_solver.specs.Bads.{FindsBads, ReadsBads};
ghost use Rattle.frame_solver.specs.Paying.{Bads as AskBads, PaysOne};

use crate::asking::ask;
use crate::loading::{Engine, system_of};
use crate::stepping::{first_values, parents_of};
use clause_core::{Bits, System};
use effort_purse::Purse;
use frame_core::{Lemma, Parent};
use sat_core::Answer;
use std::alloc::{AllocError, Global};

/// What a query about bad states finds.
#[derive(Drop)]
pub enum BadStates {
    /// No state that meets these lemmas is bad.
    None(Vec<Parent>),
    /// Values of a bad state of the frame.
    Some(Bits),
    /// The purse was spent before it was known.
    Spent { drawn: u64, budget: u64 },
}

// What the solver's answer says of bad states; the activation variable of the first lemma is `first`.
fn read(
    alloc: Global,
    system: &System,
    first: usize,
    lemmas: &[Lemma],
    answer: Answer,
) -> Result<BadStates, AllocError>
    ensures { IfOk result (ReadsBads system.now first lemmas.now answer) }
{
    match answer {
        Answer::Sat(model) => Ok(BadStates::Some(first_values(model, system.all_bits()))),
        Answer::Unsat { core } => {
            let parents = parents_of(alloc, first, lemmas, &core)?;
            Ok(BadStates::None(parents))
        }
        Answer::Spent { drawn, budget } => Ok(BadStates::Spent { drawn, budget }),
    }
}

// Whether a state of frame i is bad for system j.
pub(crate) fn query_bads<Q: Purse>(
    alloc: Global,
    systems: &[System],
    lemmas: &[Lemma],
    engine: &mut Engine,
    j: usize,
    i: u32,
    purse: &mut Q,
) -> Result<BadStates, AllocError>
    requires number { j < length systems.now }
    requires alike { AreAlike systems.now }
    requires lemmas { All (λ (l : ALemma). Within (system_at systems.now 0).state_bits l.clause) lemmas.now }
    requires engine { IsReady (base_of (system_at systems.now 0)) (state_heads systems.now) (clauses_of lemmas.now) engine.old }
    requires ready { Q.ready purse.old }
    ensures found { IfOk result (FindsBads (system_at systems.now j) lemmas.now i (Q.budget purse.old) (Q.spent purse.new)) }
    ensures pays { PaysOne systems.now lemmas.now engine.old.solver.learned engine.new.solver.learned (Q.tickets purse.old) (Q.tickets purse.new) (AskBads j i) }
    ensures engine { IsReady (base_of (system_at systems.now 0)) (state_heads systems.now) (clauses_of lemmas.now) engine.new }
    ensures kept { Q.kept purse.old purse.new }
    ensures ready { Q.ready purse.new }
    ensures budget { Q.budget purse.new ≡ Q.budget purse.old }
{
    let system = system_of(systems, j);
    let answer = ask(alloc, engine, lemmas, i, 1 + j, &[], purse)?;
    read(alloc, system, engine.base + engine.heads, lemmas, answer)
}
