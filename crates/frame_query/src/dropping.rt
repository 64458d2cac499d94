//! Generalises a proved clause: drops literals while it stays inductive at its level (Bradley
//! 2011).

ghost use Rattle.std.specs.Prelude.{◌≡◌, ◌+◌, ◌-◌, ◌<◌, OnOk, IfSome, ◌≤◌, ◌++◌, ◌∷◌, [], ℕ, Bool, List, IfOk, All, Contains, length, take};
ghost use Rattle.frame_core.specs.declared.parts.Lemma.{Lemma as ALemma};
ghost use Rattle.clause_core.specs.declared.literal.Lit.{Lit as ALit};
ghost use Rattle.clause_core.specs.Literals.{Within};
ghost use Rattle.frame_core.specs.Facts.{IsPart, IsProved};
ghost use Rattle.frame_core.specs.FrameLaw.{AreAlike, system_at};
ghost use Rattle.frame_solver.specs.Groups.{base as base_of, step_heads, state_heads, clauses_of};
ghost use Rattle.frame_solver.specs.Engines.{IsLoaded, known_of};
ghost use Rattle.frame_query.specs.Dropping.{PaysParts, Generalises};
ghost use Rattle.frame_query.specs.Trying.{proof_of, PaysNew, IsGoing, IsCandidate, Fits, DropsTo, TurnSays, EndSays, MovesBy, HintMovesBy};

use crate::attempting::{
    attempt, attempt_new, both, copy_parents, hinted, lacked, needed_of, ordered_by, others,
};
use crate::outcomes::Generalised;
use crate::trying::{Draft, Ending, Trial, Turn, Walk};
use clause_core::{Clause, Lit, System};
use effort_purse::Purse;
use frame_core::{Lemma, Parent, Proved};
use frame_solver::{Engine, Known, system_of};
use state_hints::Hints;
use std::alloc::{AllocError, Global};

// A copy of the proof, taken apart.
fn drafted(alloc: Global, proved: &Proved) -> Result<Draft, AllocError>
    ensures clause { IfOk result (λ d. d.clause.items ≡ proved.now.clause) }
    ensures part { IfOk result (λ d. d.part.items ≡ proved.now.part) }
    ensures parents { IfOk result (λ d. d.parents.items ≡ proved.now.parents) }
{
    let clause = Vec::from_slice(alloc, proved.clause())?;
    let part = Vec::from_slice(alloc, proved.part())?;
    let parents = copy_parents(alloc, proved.parents())?;
    Ok(Draft {
        clause,
        part,
        parents,
    })
}

// After a trial that holds: the smaller proof becomes the draft; `left` are the literals still to be tried. Those of a hint
// that was not tried yet stay, so that its clause is tried whole.
fn dropped(
    alloc: Global,
    walk: &mut Walk,
    left: &[Lit],
    parents: Vec<Parent>,
    part: Vec<Lit>,
    met: Clause,
) -> Result<(), AllocError>
    ensures drops { OnOk result (DropsTo walk.old.kept.items walk.old.failed left.now part.items met parents.items walk.new) }
    ensures same { (walk.new.asks ≡ walk.old.asks) × (walk.new.hint ≡ walk.old.hint) }
{
    let rest = needed_of(alloc, left, &part, met.as_slice(), &walk.hint)?;
    let clause = both(alloc, &walk.kept, &rest)?;
    walk.rest = rest;
    walk.draft = Draft {
        clause,
        part,
        parents,
    };
    Ok(())
}

// After the trial of the clause without the literal: it is dropped or kept; `left` are the literals still to be tried.
fn moved(
    alloc: Global,
    walk: &mut Walk,
    l: Lit,
    left: Vec<Lit>,
    trial: Trial,
) -> Result<Turn, AllocError>
    ensures moves { IfOk result (MovesBy walk.old l left.items trial walk.new) }
{
    walk.asks = walk.asks.saturating_sub(1);
    match trial {
        Trial::Holds { parents, part, met } => {
            dropped(alloc, walk, &left, parents, part, met)?;
            Ok(Turn::Went)
        }
        Trial::Fails => {
            walk.kept.push(l)?;
            walk.rest = left;
            Ok(Turn::Went)
        }
        Trial::Spent { drawn, budget } => Ok(Turn::Spent { drawn, budget }),
    }
}

// After the trial of the hint's clause: it becomes the draft or fails. `left` are the literals still to be tried if it
// holds.
fn hint_moved(
    alloc: Global,
    walk: &mut Walk,
    left: &[Lit],
    candidate: Vec<Lit>,
    trial: Trial,
) -> Result<Turn, AllocError>
    ensures moves { IfOk result (HintMovesBy walk.old left.now candidate.items trial walk.new) }
{
    walk.asks = walk.asks.saturating_sub(1);
    walk.hint.clear();
    match trial {
        Trial::Holds { parents, part, met } => {
            dropped(alloc, walk, left, parents, part, met)?;
            Ok(Turn::Went)
        }
        Trial::Fails => {
            walk.failed = Some(Clause::from_vec(candidate));
            Ok(Turn::Went)
        }
        Trial::Spent { drawn, budget } => Ok(Turn::Spent { drawn, budget }),
    }
}

// Tries the clause without the literal `l`, which was the last of those still to be tried.
fn turn<Q: Purse>(
    alloc: Global,
    systems: &[System],
    lemmas: &[Lemma],
    steps: &mut Engine,
    states: &mut Engine,
    known: &mut Known,
    given: &Proved,
    walk: &mut Walk,
    l: Lit,
    purse: &mut Q,
) -> Result<Turn, AllocError>
    requires some { 0 < length systems.now }
    requires alike { AreAlike systems.now }
    requires lemmas { All (λ (l : ALemma). Within (system_at systems.now 0).state_bits l.clause) lemmas.now }
    requires steps { IsLoaded (base_of (system_at systems.now 0)) (step_heads (system_at systems.now 0)) (clauses_of lemmas.now) steps.old }
    requires states { IsLoaded (base_of (system_at systems.now 0)) (state_heads systems.now) (clauses_of lemmas.now) states.old }
    requires going { IsGoing (system_at systems.now 0) lemmas.now given.now walk.old (walk.old.rest.items ++ l ∷ []) }
    requires known { known.old ≡ system_at systems.now 0 }
    requires ready { Q.ready purse.old }
    ensures pays { (d : List ALit) × IsCandidate walk.old.kept.items (walk.old.rest.items ++ l ∷ []) l d × PaysNew systems.now lemmas.now (known_of steps.old states.old) (known_of steps.new states.new) (Q.tickets purse.old) (Q.tickets purse.new) given.now.level walk.old.failed d × IfOk result (TurnSays (system_at systems.now 0) lemmas.now given.now walk.old walk.new l d (length walk.old.rest.items + 1 + length walk.old.hint.items) (Q.budget purse.old) (Q.spent purse.new)) }
    ensures steps { IsLoaded (base_of (system_at systems.now 0)) (step_heads (system_at systems.now 0)) (clauses_of lemmas.now) steps.new }
    ensures states { IsLoaded (base_of (system_at systems.now 0)) (state_heads systems.now) (clauses_of lemmas.now) states.new }
    ensures known { known.new ≡ known.old }
    ensures kept { Q.kept purse.old purse.new }
    ensures ready { Q.ready purse.new }
    ensures budget { Q.budget purse.new ≡ Q.budget purse.old }
{
    let level = given.level();
    let left = others(alloc, &walk.rest, l)?;
    let candidate = both(alloc, &walk.kept, &left)?;
    let trial = attempt_new(
        alloc,
        systems,
        lemmas,
        steps,
        states,
        known,
        &walk.draft,
        &walk.failed,
        &candidate,
        level,
        purse,
    )?;
    moved(alloc, walk, l, left, trial)
}

// Tries the clause of the needed literals and those of the hint; the literal `l` is not among these.
fn hint_turn<Q: Purse>(
    alloc: Global,
    systems: &[System],
    lemmas: &[Lemma],
    steps: &mut Engine,
    states: &mut Engine,
    known: &mut Known,
    given: &Proved,
    walk: &mut Walk,
    l: Lit,
    purse: &mut Q,
) -> Result<Turn, AllocError>
    requires some { 0 < length systems.now }
    requires alike { AreAlike systems.now }
    requires lemmas { All (λ (l : ALemma). Within (system_at systems.now 0).state_bits l.clause) lemmas.now }
    requires steps { IsLoaded (base_of (system_at systems.now 0)) (step_heads (system_at systems.now 0)) (clauses_of lemmas.now) steps.old }
    requires states { IsLoaded (base_of (system_at systems.now 0)) (state_heads systems.now) (clauses_of lemmas.now) states.old }
    requires going { IsGoing (system_at systems.now 0) lemmas.now given.now walk.old walk.old.rest.items }
    requires fits { Fits walk.old l }
    requires known { known.old ≡ system_at systems.now 0 }
    requires ready { Q.ready purse.old }
    ensures pays { (d : List ALit) × IsCandidate walk.old.kept.items walk.old.rest.items l d × PaysNew systems.now lemmas.now (known_of steps.old states.old) (known_of steps.new states.new) (Q.tickets purse.old) (Q.tickets purse.new) given.now.level walk.old.failed d × IfOk result (TurnSays (system_at systems.now 0) lemmas.now given.now walk.old walk.new l d (length walk.old.rest.items + length walk.old.hint.items) (Q.budget purse.old) (Q.spent purse.new)) }
    ensures steps { IsLoaded (base_of (system_at systems.now 0)) (step_heads (system_at systems.now 0)) (clauses_of lemmas.now) steps.new }
    ensures states { IsLoaded (base_of (system_at systems.now 0)) (state_heads systems.now) (clauses_of lemmas.now) states.new }
    ensures known { known.new ≡ known.old }
    ensures kept { Q.kept purse.old purse.new }
    ensures ready { Q.ready purse.new }
    ensures budget { Q.budget purse.new ≡ Q.budget purse.old }
{
    let level = given.level();
    let left = hinted(alloc, &walk.rest, &walk.hint)?;
    let candidate = both(alloc, &walk.kept, &left)?;
    let trial = attempt(
        alloc,
        systems,
        lemmas,
        steps,
        states,
        known,
        &walk.draft,
        &candidate,
        level,
        purse,
    )?;
    hint_moved(alloc, walk, &left, candidate, trial)
}

// A literal still to be tried that the hint lacks, where there is a hint and one clause more may be asked about.
fn fits(alloc: Global, walk: &Walk) -> Option<Lit>
    ensures { IfSome result (Fits walk.now) }
{
    if walk.hint.is_empty() || walk.asks <= walk.rest.len() {
        return None;
    }
    lacked(alloc, &walk.rest, &walk.hint)
}

// Tries the hint, where that fits, and else the clause without one of the literals still to be tried.
fn next<Q: Purse>(
    alloc: Global,
    systems: &[System],
    lemmas: &[Lemma],
    steps: &mut Engine,
    states: &mut Engine,
    known: &mut Known,
    given: &Proved,
    walk: &mut Walk,
    purse: &mut Q,
) -> Result<Turn, AllocError>
    requires some { 0 < length systems.now }
    requires alike { AreAlike systems.now }
    requires lemmas { All (λ (l : ALemma). Within (system_at systems.now 0).state_bits l.clause) lemmas.now }
    requires steps { IsLoaded (base_of (system_at systems.now 0)) (step_heads (system_at systems.now 0)) (clauses_of lemmas.now) steps.old }
    requires states { IsLoaded (base_of (system_at systems.now 0)) (state_heads systems.now) (clauses_of lemmas.now) states.old }
    requires going { IsGoing (system_at systems.now 0) lemmas.now given.now walk.old walk.old.rest.items }
    requires more { 0 < length walk.old.rest.items }
    requires known { known.old ≡ system_at systems.now 0 }
    requires ready { Q.ready purse.old }
    ensures pays { (l : ALit) × (d : List ALit) × IsCandidate walk.old.kept.items walk.old.rest.items l d × PaysNew systems.now lemmas.now (known_of steps.old states.old) (known_of steps.new states.new) (Q.tickets purse.old) (Q.tickets purse.new) given.now.level walk.old.failed d × IfOk result (TurnSays (system_at systems.now 0) lemmas.now given.now walk.old walk.new l d (length walk.old.rest.items + length walk.old.hint.items) (Q.budget purse.old) (Q.spent purse.new)) }
    ensures steps { IsLoaded (base_of (system_at systems.now 0)) (step_heads (system_at systems.now 0)) (clauses_of lemmas.now) steps.new }
    ensures states { IsLoaded (base_of (system_at systems.now 0)) (state_heads systems.now) (clauses_of lemmas.now) states.new }
    ensures known { known.new ≡ known.old }
    ensures kept { Q.kept purse.old purse.new }
    ensures ready { Q.ready purse.new }
    ensures budget { Q.budget purse.new ≡ Q.budget purse.old }
{
    if let Some(l) = fits(alloc, walk) {
        return hint_turn(
            alloc, systems, lemmas, steps, states, known, given, walk, l, purse,
        );
    }
    match walk.rest.pop() {
        Some(l) => turn(
            alloc, systems, lemmas, steps, states, known, given, walk, l, purse,
        ),
        None => Ok(Turn::Went),
    }
}

// Drops literals from the clause, trying each at most once, as long as what is left is inductive at its level.
pub(crate) fn generalised<Q: Purse>(
    alloc: Global,
    systems: &[System],
    lemmas: &[Lemma],
    steps: &mut Engine,
    states: &mut Engine,
    known: &mut Known,
    hints: &Hints,
    given: &Proved,
    purse: &mut Q,
) -> Result<Ending, AllocError>
    requires some { 0 < length systems.now }
    requires alike { AreAlike systems.now }
    requires lemmas { All (λ (l : ALemma). Within (system_at systems.now 0).state_bits l.clause) lemmas.now }
    requires steps { IsLoaded (base_of (system_at systems.now 0)) (step_heads (system_at systems.now 0)) (clauses_of lemmas.now) steps.old }
    requires states { IsLoaded (base_of (system_at systems.now 0)) (state_heads systems.now) (clauses_of lemmas.now) states.old }
    requires system { given.now.system ≡ system_at systems.now 0 }
    requires known { known.old ≡ system_at systems.now 0 }
    requires ready { Q.ready purse.old }
    ensures ends { IfOk result (EndSays (system_at systems.now 0) lemmas.now given.now (Q.budget purse.old) (Q.spent purse.new)) }
    ensures pays { PaysParts systems.now lemmas.now (known_of steps.old states.old) (known_of steps.new states.new) (Q.tickets purse.old) (Q.tickets purse.new) given.now.level given.now.clause }
    ensures steps { IsLoaded (base_of (system_at systems.now 0)) (step_heads (system_at systems.now 0)) (clauses_of lemmas.now) steps.new }
    ensures states { IsLoaded (base_of (system_at systems.now 0)) (state_heads systems.now) (clauses_of lemmas.now) states.new }
    ensures known { known.new ≡ known.old }
    ensures kept { Q.kept purse.old purse.new }
    ensures ready { Q.ready purse.new }
    ensures budget { Q.budget purse.new ≡ Q.budget purse.old }
{
    let _system = given.system();
    let hint = hints.clause_for(alloc, given.clause())?;
    let rest = ordered_by(alloc, given.clause(), &hint, given.part())?;
    let draft = drafted(alloc, given)?;
    let mut walk = Walk {
        kept: Vec::new(alloc),
        asks: rest.len(),
        rest,
        draft,
        hint,
        failed: None,
    };
    'literals: while !walk.rest.is_empty() {
        if let Turn::Spent { drawn, budget } = next(
            alloc, systems, lemmas, steps, states, known, given, &mut walk, purse,
        )? {
            return Ok(Ending::Spent { drawn, budget });
        }
    }
    let Walk {
        kept: _,
        rest: _,
        draft,
        asks: _,
        hint: _,
        failed: _,
    } = walk;
    Ok(Ending::Done(draft))
}

// Puts a draft together as a proof.
pub(crate) fn finished<'a>(system: &'a System, level: u32, draft: Draft) -> Proved<'a>
    requires { IsProved (proof_of system.now level draft) }
    ensures { result ≡ proof_of system.now level draft }
{
    let Draft {
        clause,
        part,
        parents,
    } = draft;
    let clause = Clause::from_vec(clause);
    let part = Clause::from_vec(part);
    Proved::new(system, clause, part, level, parents)
}

// Generalises a proof; if the purse is spent or memory runs out, gives back the proof that was given.
pub(crate) fn generalise_in<'a, Q: Purse>(
    alloc: Global,
    systems: &'a [System],
    lemmas: &[Lemma],
    steps: &mut Engine,
    states: &mut Engine,
    known: &mut Known,
    hints: &Hints,
    given: Proved<'a>,
    purse: &mut Q,
) -> Generalised<'a>
    requires some { 0 < length systems.now }
    requires alike { AreAlike systems.now }
    requires lemmas { All (λ (l : ALemma). Within (system_at systems.now 0).state_bits l.clause) lemmas.now }
    requires steps { IsLoaded (base_of (system_at systems.now 0)) (step_heads (system_at systems.now 0)) (clauses_of lemmas.now) steps.old }
    requires states { IsLoaded (base_of (system_at systems.now 0)) (state_heads systems.now) (clauses_of lemmas.now) states.old }
    requires system { given.system ≡ system_at systems.now 0 }
    requires known { known.old ≡ system_at systems.now 0 }
    requires ready { Q.ready purse.old }
    ensures found { Generalises (system_at systems.now 0) lemmas.now given.entry (Q.budget purse.old) (Q.spent purse.new) result }
    ensures pays { PaysParts systems.now lemmas.now (known_of steps.old states.old) (known_of steps.new states.new) (Q.tickets purse.old) (Q.tickets purse.new) given.entry.level given.entry.clause }
    ensures steps { IsLoaded (base_of (system_at systems.now 0)) (step_heads (system_at systems.now 0)) (clauses_of lemmas.now) steps.new }
    ensures states { IsLoaded (base_of (system_at systems.now 0)) (state_heads systems.now) (clauses_of lemmas.now) states.new }
    ensures known { known.new ≡ known.old }
    ensures kept { Q.kept purse.old purse.new }
    ensures ready { Q.ready purse.new }
    ensures budget { Q.budget purse.new ≡ Q.budget purse.old }
{
    let level = given.level();
    match generalised(
        alloc, systems, lemmas, steps, states, known, hints, &given, purse,
    ) {
        Ok(ending) => match ending {
            Ending::Done(draft) => {
                let system = system_of(systems, 0);
                Generalised::Smaller(finished(system, level, draft))
            }
            Ending::Spent { drawn, budget } => Generalised::Spent {
                given,
                drawn,
                budget,
            },
        },
        Err(_) => Generalised::NoMemory { given },
    }
}
