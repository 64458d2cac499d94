//! Relative induction (Bradley 2011): whether a step from the frame below that satisfies the clause
//! leaves it. The core tells which literals and lemmas were needed.

ghost use Rattle.std.specs.Prelude.{◌≡◌, ◌+◌, ◌-◌, ◌*◌, ◌<◌, ◌≤◌, ◌^◌, ◌∷◌, [], ◌++◌, ℕ, Bool, List, IfOk, OnOk, OnErr, All, Contains, MatchBool, length, take, map, true};
ghost use Rattle.frame_core.specs.declared.parts.Lemma.{Lemma as ALemma};
ghost use Rattle.clause_core.specs.Literals.{Within};
ghost use Rattle.clause_core.specs.Assignments.{ClauseTrue};
ghost use Rattle.clause_core.specs.Systems.{FirstBits};
ghost use Rattle.frame_core.specs.FrameLaw.{system_at};
ghost use Rattle.frame_solver.specs.Groups.{base as base_of, step_heads, clauses_of};
ghost use Rattle.frame_solver.specs.Engines.{IsLoaded, IsReady};
ghost use Rattle.frame_solver.specs.Guards.{on};
ghost use Rattle.frame_solver.specs.Stepping.{left, step_literals, Finds, AreParents, IsCut, Reads};
ghost use Rattle.frame_solver.specs.Paying.{Steps, PaysOne};

use crate::asking::ask;
use crate::loading::{Engine, push_guarded, system_of};
use crate::marking::{is_marked, marks_of};
use clause_core::{Bits, Clause, Lit, System};
use effort_purse::Purse;
use frame_core::{Lemma, Parent};
use sat_core::Answer;
use std::alloc::{AllocError, Global};

/// What a query about steps finds.
#[derive(Drop)]
pub enum Stepping {
    /// Each step from a state of the frame that meets the parents and the clause ends in this part of the clause.
    Holds {
        parents: Vec<Parent>,
        part: Vec<Lit>,
    },
    /// Values of a step that leaves the clause.
    Leaves(Bits),
    /// The purse was spent before it was known.
    Spent {
        drawn: u64,
        budget: u64,
    },
}

// The query's own literals.
fn own_literals(
    alloc: Global,
    bits: usize,
    own: usize,
    clause: &[Lit],
) -> Result<Vec<Lit>, AllocError>
    requires within { Within bits clause.now }
    requires small { 2 * bits < 2 ^ 64 }
    ensures { IfOk result (λ v. v.items ≡ step_literals bits own clause.now) }
{
    let mut literals = Vec::new(alloc);
    literals.push(Lit {
        var: own,
        positive: true,
    })?;
    'literals: for l in clause {
        literals.push(Lit {
            var: bits + l.var,
            positive: !l.positive,
        })?;
    }
    Ok(literals)
}

/// Whether the literal is in the list, by a walk over it.
pub fn has(literals: &[Lit], l: Lit) -> bool
    ensures { MatchBool result (Contains literals.now l) (Contains literals.now l → ⊥) }
{
    literals.contains(&l)
}

// The literals of the clause whose variables the core has in the next state.
fn part_of(alloc: Global, bits: usize, core: &[Lit], clause: &[Lit]) -> Result<Vec<Lit>, AllocError>
    requires within { Within bits clause.now }
    requires small { 2 * bits < 2 ^ 64 }
    ensures { IfOk result (λ v. IsCut (left bits) core.now clause.now v.items) }
{
    let marks = marks_of(alloc, bits, bits, core)?;
    let mut part = Vec::new(alloc);
    'literals: for l in clause {
        if is_marked(&marks, l.var) {
            part.push(*l)?;
        }
    }
    Ok(part)
}

// The lemma as a parent.
fn parent(alloc: Global, number: usize, lemma: &Lemma) -> Result<Parent, AllocError>
    ensures number { IfOk result (λ p. p.number ≡ number) }
    ensures clause { IfOk result (λ p. p.clause ≡ lemma.now.clause) }
{
    let clause = Clause::from_slice(alloc, lemma.clause.as_slice())?;
    Ok(Parent { number, clause })
}

// Whether the literal is the activation literal of one of `count` lemmas, the first of which has this variable.
fn is_of_lemma(l: Lit, first: usize, count: usize) -> bool
    ensures { MatchBool result ((l.positive ≡ true) × first ≤ l.var × l.var < first + count) ((n : ℕ) → n < count → l ≡ on (first + n) → ⊥) }
{
    l.positive && first <= l.var && l.var - first < count
}

// The lemmas whose activation literals are in the core; that of the first has this variable.
pub(crate) fn parents_of(
    alloc: Global,
    first: usize,
    lemmas: &[Lemma],
    core: &[Lit],
) -> Result<Vec<Parent>, AllocError>
    ensures { IfOk result (λ v. AreParents first lemmas.now core.now v.items) }
{
    let mut parents = Vec::new(alloc);
    'literals: for l in core {
        if is_of_lemma(*l, first, lemmas.len()) {
            let n = l.var - first;
            parents.push(parent(alloc, n, &lemmas[n])?)?;
        }
    }
    Ok(parents)
}

// The first `count` values.
pub(crate) fn first_values(model: Bits, count: usize) -> Bits
    ensures { result ≡ take count model }
{
    let mut values = model.into_vec();
    values.truncate(count);
    Bits::from_vec(values)
}

// What the solver's answer says of steps; the activation variable of the first lemma is `first`.
fn read(
    alloc: Global,
    system: &System,
    first: usize,
    lemmas: &[Lemma],
    clause: &[Lit],
    answer: Answer,
) -> Result<Stepping, AllocError>
    requires { Within system.now.state_bits clause.now }
    ensures { IfOk result (Reads system.now first lemmas.now clause.now answer) }
{
    let all = system.all_bits();
    match answer {
        Answer::Sat(model) => Ok(Stepping::Leaves(first_values(model, all))),
        Answer::Unsat { core } => {
            let parents = parents_of(alloc, first, lemmas, &core)?;
            let part = part_of(alloc, system.state_bits(), &core, clause)?;
            Ok(Stepping::Holds { parents, part })
        }
        Answer::Spent { drawn, budget } => Ok(Stepping::Spent { drawn, budget }),
    }
}

// Relative induction: whether a step from a state that meets the clause, in the frame below the level, leaves it. The
// clause stands behind the last activation variable that is left, for this query alone.
pub(crate) fn query_steps<Q: Purse>(
    alloc: Global,
    systems: &[System],
    lemmas: &[Lemma],
    engine: &mut Engine,
    clause: &[Lit],
    level: u32,
    purse: &mut Q,
) -> Result<Stepping, AllocError>
    requires some { 0 < length systems.now }
    requires lemmas { All (λ (l : ALemma). Within (system_at systems.now 0).state_bits l.clause) lemmas.now }
    requires engine { IsReady (base_of (system_at systems.now 0)) (step_heads (system_at systems.now 0)) (clauses_of lemmas.now) engine.old }
    requires within { Within (system_at systems.now 0).state_bits clause.now }
    requires level { 0 < level }
    requires first { (x : ℕ → Bool) → FirstBits (system_at systems.now 0) x → ClauseTrue x clause.now }
    requires ready { Q.ready purse.old }
    ensures found { IfOk result (Finds (system_at systems.now 0) lemmas.now level clause.now (Q.budget purse.old) (Q.spent purse.new)) }
    ensures pays { PaysOne systems.now lemmas.now engine.old.solver.learned engine.new.solver.learned (Q.tickets purse.old) (Q.tickets purse.new) (Steps level clause.now) }
    ensures engine { IsLoaded (base_of (system_at systems.now 0)) (step_heads (system_at systems.now 0)) (clauses_of lemmas.now) engine.new }
    ensures kept { Q.kept purse.old purse.new }
    ensures ready { Q.ready purse.new }
    ensures budget { Q.budget purse.new ≡ Q.budget purse.old }
{
    let system = system_of(systems, 0);
    let own = engine.used - 1;
    engine.used = own;
    push_guarded(alloc, &mut engine.solver, own, clause)?;
    let literals = own_literals(alloc, system.state_bits(), own, clause)?;
    let answer = ask(alloc, engine, lemmas, level - 1, 1, &literals, purse)?;
    engine.solver.push(&[Lit {
        var: own,
        positive: false,
    }])?;
    read(
        alloc,
        system,
        engine.base + engine.heads,
        lemmas,
        clause,
        answer,
    )
}
