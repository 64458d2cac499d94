//! Initiation: whether all initial states satisfy a clause (Bradley 2011).

ghost use Rattle.std.specs.Prelude.{◌≡◌, ◌+◌, ◌<◌, ◌≤◌, ℕ, Bool, List, IfOk, All, length, take, map};
ghost use Rattle.frame_core.specs.declared.parts.Lemma.{Lemma as ALemma};
ghost use Rattle.clause_core.specs.Literals.{Within, negate};
ghost use Rattle.frame_core.specs.FrameLaw.{system_at};
ghost use Rattle.frame_solver.specs.Groups.{base as base_of, state_heads, clauses_of};
ghost use Rattle.frame_solver.specs.Engines.{IsLoaded, IsReady};
ghost use Rattle.frame_solver.specs.Stepping.{IsCut};
ghost use Rattle.frame_solver.specs.Firsts.{FindsFirsts, ReadsFirsts};
ghost use Rattle.frame_solver.specs.Paying.{Firsts as AskFirsts, PaysOne};

use crate::asking::ask;
use crate::loading::{Engine, system_of};
use crate::marking::{is_marked, marks_of};
use crate::stepping::first_values;
use clause_core::{Bits, Clause, Lit, System};
use effort_purse::Purse;
use frame_core::Lemma;
use sat_core::Answer;
use std::alloc::{AllocError, Global};

/// What a query about initial states finds.
#[derive(Drop)]
pub enum Firsts {
    /// Initial states meet this part of the clause.
    Meet(Clause),
    /// The state bits of an initial state that does not meet the clause.
    First(Bits),
    /// The purse was spent before it was known.
    Spent { drawn: u64, budget: u64 },
}

// The negations of a clause's literals.
fn negated(alloc: Global, clause: &[Lit]) -> Result<Vec<Lit>, AllocError>
    ensures { IfOk result (λ v. v.items ≡ map negate clause.now) }
{
    let mut literals = Vec::new(alloc);
    'literals: for l in clause {
        literals.push(l.negated())?;
    }
    Ok(literals)
}

// The literals of the clause whose variables are in the core.
fn part_of(alloc: Global, bits: usize, core: &[Lit], clause: &[Lit]) -> Result<Vec<Lit>, AllocError>
    requires within { Within bits clause.now }
    ensures { IfOk result (λ v. IsCut negate core.now clause.now v.items) }
{
    let marks = marks_of(alloc, 0, bits, core)?;
    let mut part = Vec::new(alloc);
    'literals: for l in clause {
        if is_marked(&marks, l.var) {
            part.push(*l)?;
        }
    }
    Ok(part)
}

// What the solver's answer says of initial states.
fn read(
    alloc: Global,
    system: &System,
    clause: &[Lit],
    answer: Answer,
) -> Result<Firsts, AllocError>
    requires { Within system.now.state_bits clause.now }
    ensures { IfOk result (ReadsFirsts system.now clause.now answer) }
{
    match answer {
        Answer::Sat(model) => Ok(Firsts::First(first_values(model, system.state_bits()))),
        Answer::Unsat { core } => {
            let part = part_of(alloc, system.state_bits(), &core, clause)?;
            Ok(Firsts::Meet(Clause::from_vec(part)))
        }
        Answer::Spent { drawn, budget } => Ok(Firsts::Spent { drawn, budget }),
    }
}

// Whether all initial states meet the clause.
pub(crate) fn query_firsts<Q: Purse>(
    alloc: Global,
    systems: &[System],
    lemmas: &[Lemma],
    engine: &mut Engine,
    clause: &[Lit],
    purse: &mut Q,
) -> Result<Firsts, AllocError>
    requires some { 0 < length systems.now }
    requires engine { IsReady (base_of (system_at systems.now 0)) (state_heads systems.now) (clauses_of lemmas.now) engine.old }
    requires within { Within (system_at systems.now 0).state_bits clause.now }
    requires ready { Q.ready purse.old }
    ensures found { IfOk result (FindsFirsts (system_at systems.now 0) clause.now (Q.budget purse.old) (Q.spent purse.new)) }
    ensures pays { PaysOne systems.now lemmas.now engine.old.solver.learned engine.new.solver.learned (Q.tickets purse.old) (Q.tickets purse.new) (AskFirsts clause.now) }
    ensures engine { IsReady (base_of (system_at systems.now 0)) (state_heads systems.now) (clauses_of lemmas.now) engine.new }
    ensures kept { Q.kept purse.old purse.new }
    ensures ready { Q.ready purse.new }
    ensures budget { Q.budget purse.new ≡ Q.budget purse.old }
{
    let system = system_of(systems, 0);
    let literals = negated(alloc, clause)?;
    let answer = ask(alloc, engine, lemmas, 0, 0, &literals, purse)?;
    read(alloc, system, clause, answer)
}
