//! One trial of a generalisation: whether the smaller clause satisfies initiation and is inductive
//! at its level.

ghost use Rattle.std.specs.Prelude.{◌≡◌, ◌⊎◌, ⊤, MatchBool, ◌-◌, ◌<◌, ◌≤◌, ◌++◌, ℕ, Bool, List, IfOk, All, Contains, length, take, IfSome};
ghost use Rattle.frame_core.specs.declared.parts.Lemma.{Lemma as ALemma};
ghost use Rattle.frame_core.specs.declared.parts.Parent.{Parent as AParent};
ghost use Rattle.clause_core.specs.declared.literal.Lit.{Lit as ALit};
ghost use Rattle.clause_core.specs.Systems.{TransitionSystem};
ghost use Rattle.clause_core.specs.Literals.{Within};
ghost use Rattle.frame_core.specs.Facts.{IsPart, IsProved};
ghost use Rattle.frame_core.specs.FrameLaw.{AreAlike, system_at};
ghost use Rattle.frame_solver.specs.Groups.{base as base_of, step_heads, state_heads, clauses_of};
ghost use Rattle.frame_solver.specs.Engines.{IsLoaded, known_of};
ghost use Rattle.frame_solver.specs.Firsts.{AllFirstsMeet};
ghost use Rattle.frame_solver.specs.Paying.{Steps, PaysOne};
ghost use Rattle.frame_solver.specs.Stepping.{Ends, Finds};
ghost use Rattle.frame_query.specs.Dropping.{IsBroken};
ghost use Rattle.frame_query.specs.Trying.{proof_of, Tries, PaysFor, PaysNew, IsOthers, IsNeeded, IsSplit, IsSame};

use crate::lookups::{Lookup, is_part_of};
use crate::trying::{Draft, Trial};
use clause_core::{Clause, Lit, System};
use effort_purse::Purse;
use frame_core::{Lemma, Parent};
use frame_solver::{Engine, Firsts, Known, Stepping, firsts_of, steps_of};
use std::alloc::{AllocError, Global};

// A copy of the parents.
pub(crate) fn copy_parents(alloc: Global, parents: &[Parent]) -> Result<Vec<Parent>, AllocError>
    ensures { IfOk result (λ v. v.items ≡ parents.now) }
{
    let mut copies = Vec::new(alloc);
    'parents: for p in parents {
        let clause = Clause::from_slice(alloc, p.clause.as_slice())?;
        copies.push(Parent {
            number: p.number,
            clause,
        })?;
    }
    Ok(copies)
}

// The literals but this one.
pub(crate) fn others(alloc: Global, literals: &[Lit], l: Lit) -> Result<Vec<Lit>, AllocError>
    ensures { IfOk result (λ v. IsOthers literals.now l v.items) }
{
    let mut rest = Vec::new(alloc);
    'literals: for m in literals {
        if !m.is_same(l) {
            rest.push(*m)?;
        }
    }
    Ok(rest)
}

// Whether the literal is in one of the two parts.
fn is_needed(part: &Lookup, met: &Lookup, l: Lit) -> bool
    ensures { MatchBool result (Contains part.now l ⊎ Contains met.now l) (Contains part.now l ⊎ Contains met.now l → ⊥) }
{
    if part.has(l) {
        return true;
    }
    met.has(l)
}

// Whether the literal is in one of the two parts, or in the hint.
fn is_wanted(part: &Lookup, met: &Lookup, hint: &Lookup, l: Lit) -> bool
    ensures { MatchBool result ⊤ (Contains part.now l ⊎ Contains met.now l → ⊥) }
{
    if is_needed(part, met, l) {
        return true;
    }
    hint.has(l)
}

// The literals that are in one of the two parts, and those of the hint.
pub(crate) fn needed_of(
    alloc: Global,
    left: &[Lit],
    part: &[Lit],
    met: &[Lit],
    hint: &[Lit],
) -> Result<Vec<Lit>, AllocError>
    ensures { IfOk result (λ v. IsNeeded left.now part.now met.now v.items) }
{
    let part = Lookup::new(alloc, part);
    let met = Lookup::new(alloc, met);
    let hint = Lookup::new(alloc, hint);
    let mut needed = Vec::new(alloc);
    'literals: for l in left {
        if is_wanted(&part, &met, &hint, *l) {
            needed.push(*l)?;
        }
    }
    Ok(needed)
}

// The literals that the hint has too.
pub(crate) fn hinted(alloc: Global, literals: &[Lit], hint: &[Lit]) -> Result<Vec<Lit>, AllocError>
    ensures only { IfOk result (λ v. IsPart v.items literals.now) }
    ensures inside { IfOk result (λ v. IsPart v.items hint.now) }
    ensures fewer { IfOk result (λ v. length v.items ≤ length literals.now) }
{
    let hint = Lookup::new(alloc, hint);
    let mut both = Vec::new(alloc);
    'literals: for l in literals {
        if hint.has(*l) {
            both.push(*l)?;
        }
    }
    Ok(both)
}

// A literal that the hint lacks.
pub(crate) fn lacked(alloc: Global, literals: &[Lit], hint: &[Lit]) -> Option<Lit>
    ensures { IfSome result (λ l. Contains literals.now l × (Contains hint.now l → ⊥)) }
{
    let hint = Lookup::new(alloc, hint);
    'literals: for l in literals {
        if !hint.has(*l) {
            return Some(*l);
        }
    }
    None
}

// Whether the clause has just the literals of the one that failed.
pub(crate) fn has_failed(alloc: Global, failed: &Option<Clause>, clause: &[Lit]) -> bool
    ensures { MatchBool result (IsSame failed.now clause.now) (IsSame failed.now clause.now → ⊥) }
{
    match failed {
        Some(other) => {
            is_part_of(alloc, other.as_slice(), clause)
                && is_part_of(alloc, clause, other.as_slice())
        }
        None => false,
    }
}

// The literals of the clause in an order in which those of the part come first.
fn ordered(alloc: Global, clause: &[Lit], part: &[Lit]) -> Result<Vec<Lit>, AllocError>
    ensures enough { IfOk result (λ v. IsPart clause.now v.items) }
    ensures only { IfOk result (λ v. IsPart v.items clause.now) }
    ensures many { IfOk result (λ v. length v.items ≡ length clause.now) }
{
    let part = Lookup::new(alloc, part);
    let mut inside = Vec::new(alloc);
    let mut outside = Vec::new(alloc);
    'literals: for l in clause {
        if part.has(*l) {
            inside.push(*l)?;
        } else {
            outside.push(*l)?;
        }
    }
    both(alloc, &inside, &outside)
}

// The literals of the clause in an order in which those of the part come first, and among these and the others those of the
// hint. The last ones are tried first, so that what is kept is of the hint where it can be.
pub(crate) fn ordered_by(
    alloc: Global,
    clause: &[Lit],
    hint: &[Lit],
    part: &[Lit],
) -> Result<Vec<Lit>, AllocError>
    ensures enough { IfOk result (λ v. IsPart clause.now v.items) }
    ensures only { IfOk result (λ v. IsPart v.items clause.now) }
    ensures many { IfOk result (λ v. length v.items ≡ length clause.now) }
{
    let likely = ordered(alloc, clause, hint)?;
    let literals = ordered(alloc, &likely, part)?;
    Ok(literals)
}

// The literals of both lists.
pub(crate) fn both(alloc: Global, a: &[Lit], b: &[Lit]) -> Result<Vec<Lit>, AllocError>
    ensures { IfOk result (λ v. v.items ≡ a.now ++ b.now) }
{
    let mut all = Vec::from_slice(alloc, a)?;
    all.extend_from_slice(b)?;
    Ok(all)
}

// What the draft shows of a clause that has its part, where initial states meet `met`.
fn shown_by_draft(alloc: Global, draft: &Draft, met: Clause) -> Result<Trial, AllocError>
    ensures { IfOk result (λ t. (sys : TransitionSystem) (lemmas : List ALemma) (level : ℕ) (d : List ALit) (b : ℕ) (over : Bool) → Ends sys level d draft.now.parents.items draft.now.part.items → IsPart draft.now.part.items d → AllFirstsMeet sys met → IsPart met d → Tries sys lemmas level draft.now.parents.items d b over t) }
{
    let parents = copy_parents(alloc, &draft.parents)?;
    let part = Vec::from_slice(alloc, &draft.part)?;
    Ok(Trial::Holds { parents, part, met })
}

// The outcome of a trial, by what was found of steps, where initial states meet `met`.
fn trial_of(found: Stepping, met: Clause) -> Trial
    ensures { (sys : TransitionSystem) (lemmas : List ALemma) (level : ℕ) (given : List AParent) (d : List ALit) (b : ℕ) (over : Bool) → Finds sys lemmas level d b over found → AllFirstsMeet sys met → IsPart met d → Tries sys lemmas level given d b over result }
{
    match found {
        Stepping::Holds { parents, part } => Trial::Holds { parents, part, met },
        Stepping::Leaves(_) => Trial::Fails,
        Stepping::Spent { drawn, budget } => Trial::Spent { drawn, budget },
    }
}

// Whether a step leaves the clause, a part of the draft's that initial states meet. Where it has the draft's own
// part, no query is needed: the draft shows it.
fn steps_or_draft<Q: Purse>(
    alloc: Global,
    systems: &[System],
    lemmas: &[Lemma],
    steps: &mut Engine,
    known: &mut Known,
    draft: &Draft,
    clause: &[Lit],
    met: Clause,
    level: u32,
    purse: &mut Q,
) -> Result<Trial, AllocError>
    requires some { 0 < length systems.now }
    requires lemmas { All (λ (l : ALemma). Within (system_at systems.now 0).state_bits l.clause) lemmas.now }
    requires steps { IsLoaded (base_of (system_at systems.now 0)) (step_heads (system_at systems.now 0)) (clauses_of lemmas.now) steps.old }
    requires draft { IsProved (proof_of (system_at systems.now 0) level draft.now) }
    requires part { IsPart clause.now draft.now.clause.items }
    requires within { Within (system_at systems.now 0).state_bits clause.now }
    requires meets { AllFirstsMeet (system_at systems.now 0) met }
    requires met { IsPart met clause.now }
    requires known { known.old ≡ system_at systems.now 0 }
    requires ready { Q.ready purse.old }
    ensures tried { IfOk result (Tries (system_at systems.now 0) lemmas.now level draft.now.parents.items clause.now (Q.budget purse.old) (Q.spent purse.new)) }
    ensures pays { PaysOne systems.now lemmas.now steps.old.solver.learned steps.new.solver.learned (Q.tickets purse.old) (Q.tickets purse.new) (Steps level clause.now) }
    ensures steps { IsLoaded (base_of (system_at systems.now 0)) (step_heads (system_at systems.now 0)) (clauses_of lemmas.now) steps.new }
    ensures known { known.new ≡ known.old }
    ensures kept { Q.kept purse.old purse.new }
    ensures ready { Q.ready purse.new }
    ensures budget { Q.budget purse.new ≡ Q.budget purse.old }
{
    if is_part_of(alloc, &draft.part, clause) {
        return shown_by_draft(alloc, draft, met);
    }
    let found = steps_of(alloc, systems, lemmas, steps, known, clause, level, purse)?;
    Ok(trial_of(found, met))
}

// Whether the clause, a part of the draft's, is inductive at the level: first whether initial states meet it, then
// whether a step leaves it.
pub(crate) fn attempt<Q: Purse>(
    alloc: Global,
    systems: &[System],
    lemmas: &[Lemma],
    steps: &mut Engine,
    states: &mut Engine,
    known: &mut Known,
    draft: &Draft,
    clause: &[Lit],
    level: u32,
    purse: &mut Q,
) -> Result<Trial, AllocError>
    requires some { 0 < length systems.now }
    requires alike { AreAlike systems.now }
    requires lemmas { All (λ (l : ALemma). Within (system_at systems.now 0).state_bits l.clause) lemmas.now }
    requires steps { IsLoaded (base_of (system_at systems.now 0)) (step_heads (system_at systems.now 0)) (clauses_of lemmas.now) steps.old }
    requires states { IsLoaded (base_of (system_at systems.now 0)) (state_heads systems.now) (clauses_of lemmas.now) states.old }
    requires draft { IsProved (proof_of (system_at systems.now 0) level draft.now) }
    requires part { IsPart clause.now draft.now.clause.items }
    requires within { Within (system_at systems.now 0).state_bits clause.now }
    requires known { known.old ≡ system_at systems.now 0 }
    requires ready { Q.ready purse.old }
    ensures tried { IfOk result (Tries (system_at systems.now 0) lemmas.now level draft.now.parents.items clause.now (Q.budget purse.old) (Q.spent purse.new)) }
    ensures pays { PaysFor systems.now lemmas.now (known_of steps.old states.old) (known_of steps.new states.new) (Q.tickets purse.old) (Q.tickets purse.new) level clause.now }
    ensures steps { IsLoaded (base_of (system_at systems.now 0)) (step_heads (system_at systems.now 0)) (clauses_of lemmas.now) steps.new }
    ensures states { IsLoaded (base_of (system_at systems.now 0)) (state_heads systems.now) (clauses_of lemmas.now) states.new }
    ensures known { known.new ≡ known.old }
    ensures kept { Q.kept purse.old purse.new }
    ensures ready { Q.ready purse.new }
    ensures budget { Q.budget purse.new ≡ Q.budget purse.old }
{
    match firsts_of(alloc, systems, lemmas, states, known, clause, purse)? {
        Firsts::First(_) => Ok(Trial::Fails),
        Firsts::Spent { drawn, budget } => Ok(Trial::Spent { drawn, budget }),
        Firsts::Meet(met) => steps_or_draft(
            alloc, systems, lemmas, steps, known, draft, clause, met, level, purse,
        ),
    }
}

// As `attempt`; no query is asked about a clause that has just the literals of one that failed.
pub(crate) fn attempt_new<Q: Purse>(
    alloc: Global,
    systems: &[System],
    lemmas: &[Lemma],
    steps: &mut Engine,
    states: &mut Engine,
    known: &mut Known,
    draft: &Draft,
    failed: &Option<Clause>,
    clause: &[Lit],
    level: u32,
    purse: &mut Q,
) -> Result<Trial, AllocError>
    requires some { 0 < length systems.now }
    requires alike { AreAlike systems.now }
    requires lemmas { All (λ (l : ALemma). Within (system_at systems.now 0).state_bits l.clause) lemmas.now }
    requires steps { IsLoaded (base_of (system_at systems.now 0)) (step_heads (system_at systems.now 0)) (clauses_of lemmas.now) steps.old }
    requires states { IsLoaded (base_of (system_at systems.now 0)) (state_heads systems.now) (clauses_of lemmas.now) states.old }
    requires draft { IsProved (proof_of (system_at systems.now 0) level draft.now) }
    requires failed { IfSome failed.now (IsBroken (system_at systems.now 0) lemmas.now level) }
    requires part { IsPart clause.now draft.now.clause.items }
    requires within { Within (system_at systems.now 0).state_bits clause.now }
    requires known { known.old ≡ system_at systems.now 0 }
    requires ready { Q.ready purse.old }
    ensures tried { IfOk result (Tries (system_at systems.now 0) lemmas.now level draft.now.parents.items clause.now (Q.budget purse.old) (Q.spent purse.new)) }
    ensures pays { PaysNew systems.now lemmas.now (known_of steps.old states.old) (known_of steps.new states.new) (Q.tickets purse.old) (Q.tickets purse.new) level failed.now clause.now }
    ensures steps { IsLoaded (base_of (system_at systems.now 0)) (step_heads (system_at systems.now 0)) (clauses_of lemmas.now) steps.new }
    ensures states { IsLoaded (base_of (system_at systems.now 0)) (state_heads systems.now) (clauses_of lemmas.now) states.new }
    ensures known { known.new ≡ known.old }
    ensures kept { Q.kept purse.old purse.new }
    ensures ready { Q.ready purse.new }
    ensures budget { Q.budget purse.new ≡ Q.budget purse.old }
{
    if has_failed(alloc, failed, clause) {
        return Ok(Trial::Fails);
    }
    attempt(
        alloc, systems, lemmas, steps, states, known, draft, clause, level, purse,
    )
}
