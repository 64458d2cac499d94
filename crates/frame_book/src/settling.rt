//! What the frames make of the outcome of a claim (Een, Mishchenko, Brayton 2011, section 5).

ghost use Rattle.std.specs.Prelude.{◌≡◌, ◌≢◌, ◌⊎◌, ◌↔◌, ◌<◌, ◌≤◌, ◌+◌, ◌++◌, ◌∷◌, [], ◌^◌, ℕ, Bool, List, false, true, length, slice_index_or, vec_len, vec_capacity, All, IfOk, IfErr, OnOk, OnErr, IsTrue, Some, None, is_none, IsOk};
ghost use Rattle.clause_core.specs.Assignments.{ClauseTrue, assignment_of};
ghost use Rattle.clause_core.specs.Systems.{NextIs};
ghost use Rattle.frame_core.specs.Differences.{IsSameSystem};
ghost use Rattle.frame_core.specs.Facts.{IsPart};
ghost use Rattle.frame_core.specs.FrameLaw.{FrameState, InFrame, system_at, top_at, lemma_at, obligation_at};
ghost use Rattle.frame_core.specs.Looking.{AreCoveredBy, parent_at};
ghost use Rattle.frame_core.specs.Changes.{IsOfSystem, InsertsSame, MayHaveParent, NotesSame, with_obligation};
ghost use Rattle.frame_history.specs.declared.entries.Change.{Change as AChange};
ghost use Rattle.frame_history.specs.declared.entries.Lag.TheVariants as lag_of;
ghost use Rattle.frame_history.specs.declared.entries.Subject.TheVariants as asked;
ghost use Rattle.frame_book.specs.Claims.{IsOfSubject};
ghost use Rattle.frame_book.specs.Outcomes.{EndsIn, IsOutcomeOf};
ghost use Rattle.frame_book.specs.Book.{IsPush};
ghost use Rattle.frame_book.specs.Pages.{FitsIn};
ghost use Rattle.frame_book.specs.Steps.{adds, Comes, Retires, IsCoveredBy, AreSameLemmas, HasSettled};

use crate::claim::{Claim, ClaimOutcome};
use book_agenda::Levels;
use clause_core::{Bits, Clause};
use frame_core::{
    Clear, Insertion, Noting, Opening, Parent, Proved, ProvedParts, Raising, StateWitness, Step,
};
use frame_history::{Change, Lag, Made, Subject};
use std::alloc::{AllocError, Global};

// A parent that has this level here, taken from those that a query used.
fn lag(mut parents: Vec<Parent>, k: usize, level: u32) -> Change
    requires { k < length parents.items }
    ensures { result ≡ Change.Behind (Lag.Parent (parent_at parents.items k) level) }
{
    let parent = parents.swap_remove(k);
    Change::Behind(Lag::Parent { parent, level })
}

// Inserts a copy of the clause. If memory runs out, the levels are as before.
fn insert_copy<'a>(
    alloc: Global,
    levels: &mut Levels<'a>,
    proved: &Proved,
) -> Result<Insertion, AllocError>
    requires { IsOfSystem levels.old 0 false proved.now.system }
    ensures done { IfOk result (λ r. InsertsSame levels.old proved.now r levels.new) }
    ensures err { OnErr result (levels.new ≡ levels.old) }
{
    let clause = Clause::from_slice(alloc, proved.clause())?;
    levels.insert(proved, clause)
}

// A clause that is false in the state of obligation `o` is proved at the level of the claim.
pub(crate) fn block<'a>(
    alloc: Global,
    levels: &mut Levels<'a>,
    made: &Made,
    o: usize,
    proved: Proved<'a>,
) -> Result<Change, ClaimOutcome<'a>>
    requires subject { made.now.subject ≡ asked.Block o }
    requires level { proved.level ≡ made.now.level }
    requires unmet { ClauseTrue (assignment_of (obligation_at levels.old.obligations o).values) proved.clause → ⊥ }
    requires same { IsSameSystem false (system_at levels.old.systems 0) proved.system }
    ensures done { IfOk result (λ d. Comes levels.old made.now (ClaimOutcome.Proved proved.entry) d levels.new) }
    ensures err { IfErr result (λ r. (r ≡ ClaimOutcome.Proved proved.entry) × (levels.new ≡ levels.old)) }
{
    let Ok(insertion) = insert_copy(alloc, levels, &proved) else {
        return Err(ClaimOutcome::Proved(proved));
    };
    let level = proved.level();
    let ProvedParts {
        clause,
        part: _,
        parents,
    } = proved.into_parts();
    match insertion {
        Insertion::Added(_) => Ok(Change::Add {
            clause,
            level,
            parents,
        }),
        Insertion::Held(lemma) => Ok(Change::Held {
            lemma,
            clause,
            level,
        }),
        Insertion::Behind { parent, level } => Ok(lag(parents, parent, level)),
        Insertion::OtherSystem { .. } => unreachable!(),
    }
}

// The clause of lemma `n` is proved at the level of the claim. Takes no memory.
pub(crate) fn push<'a>(levels: &mut Levels<'a>, made: &Made, n: usize, proved: Proved<'a>) -> Change
    requires subject { made.now.subject ≡ asked.Push n }
    requires in_range { n < length levels.old.lemmas }
    requires level { proved.level ≡ made.now.level }
    requires clause { proved.clause ≡ (lemma_at levels.old.lemmas n).clause }
    requires same { IsSameSystem false (system_at levels.old.systems 0) proved.system }
    ensures { Comes levels.old made.now (ClaimOutcome.Proved proved.entry) result levels.new }
{
    let raising = levels.raise(n, &proved);
    let level = proved.level();
    let ProvedParts {
        clause: _,
        part: _,
        parents,
    } = proved.into_parts();
    match raising {
        Raising::Raised => Change::Raise {
            lemma: n,
            level,
            parents,
        },
        Raising::Dropped => Change::Dropped,
        Raising::Behind { parent, level } => lag(parents, parent, level),
        Raising::OtherSystem { .. } => unreachable!(),
    }
}

// A step leads out of lemma `n`, from a state of the frame below the level of the claim, if it is there
// still. Takes no memory.
pub(crate) fn leave<'a>(levels: &Levels<'a>, made: &Made, n: usize, step: Step<'a>) -> Change
    requires subject { made.now.subject ≡ asked.Push n }
    requires above { 1 < made.now.level }
    requires leaves { (y : ℕ → Bool) → NextIs step.system.state_bits (assignment_of step.values) y → ClauseTrue y (lemma_at levels.now.lemmas n).clause → ⊥ }
    requires same { IsSameSystem false (system_at levels.now.systems 0) step.system }
    ensures { Comes levels.now made.now (ClaimOutcome.Step step.entry) result levels.now }
{
    let level = made.level - 1;
    let _system = step.system();
    if levels.meets_from(level, step.values().as_slice()) {
        Change::PushFailed { lemma: n, level }
    } else {
        Change::Behind(Lag::State(step.into_values()))
    }
}

// The frame of the top of system `j` has no bad state, if it is the level of the claim still.
pub(crate) fn clear<'a>(
    levels: &mut Levels<'a>,
    made: &Made,
    j: usize,
    clear: Clear<'a>,
) -> Result<Change, ClaimOutcome<'a>>
    requires subject { made.now.subject ≡ asked.Bad j }
    requires in_range { j < length levels.old.systems }
    requires room { made.now.level + 1 < 2 ^ 32 }
    requires level { clear.level ≡ made.now.level }
    requires same { IsSameSystem true (system_at levels.old.systems j) clear.system }
    ensures done { IfOk result (λ d. Comes levels.old made.now (ClaimOutcome.Clear clear.entry) d levels.new) }
    ensures err { IfErr result (λ r. (r ≡ ClaimOutcome.Clear clear.entry) × (levels.new ≡ levels.old)) }
{
    if levels.frames().top(j) != made.level {
        return Ok(Change::Dropped);
    }
    let Ok(opening) = levels.open(j, &clear) else {
        return Err(ClaimOutcome::Clear(clear));
    };
    let parents = clear.into_parents();
    match opening {
        Opening::Opened => Ok(Change::Open(j)),
        Opening::Dropped => Ok(Change::Dropped),
        Opening::Behind { parent, level } => Ok(lag(parents, parent, level)),
        Opening::OtherSystem { .. } => unreachable!(),
    }
}

// Whether the state found is in the frame of this level.
fn is_inside<'a>(levels: &Levels<'a>, level: u32, found: &StateWitness) -> bool
    ensures { IsTrue result ↔ InFrame found.now.system levels.now.lemmas level (assignment_of found.now.values) }
{
    let _system = found.system();
    if level == 0 {
        found.is_first()
    } else {
        levels.meets_from(level, found.values().as_slice())
    }
}

// Notes a copy of the state found, which is of system `j`. If memory runs out, the levels are as before.
fn note_copy<'a>(
    alloc: Global,
    levels: &mut Levels<'a>,
    j: usize,
    found: &StateWitness,
    parent: Option<usize>,
) -> Result<Noting, AllocError>
    requires in_range { j < length levels.old.systems }
    requires parent { MayHaveParent levels.old j found.now parent }
    requires same { IsOfSystem levels.old j (is_none parent) found.now.system }
    ensures done { IfOk result (λ r. NotesSame levels.old j found.now parent r levels.new) }
    ensures err { OnErr result (levels.new ≡ levels.old) }
{
    let values = Bits::from_slice(alloc, found.values().as_slice())?;
    let copy = StateWitness::new(found.system(), values, found.is_step(), found.is_first());
    levels.note(j, copy, parent)
}

// Notes the state found, which is of system `j`, as an obligation.
fn note<'a>(
    alloc: Global,
    levels: &mut Levels<'a>,
    j: usize,
    found: StateWitness<'a>,
    parent: Option<usize>,
) -> Result<Change, StateWitness<'a>>
    requires in_range { j < length levels.old.systems }
    requires parent { MayHaveParent levels.old j found parent }
    requires same { IsOfSystem levels.old j (is_none parent) found.system }
    ensures done { IfOk result (λ d. (d ≡ Change.Note j found.entry.values parent found.entry.first) × (levels.new ≡ with_obligation levels.old j found.entry parent)) }
    ensures err { IfErr result (λ r. (r ≡ found.entry) × (levels.new ≡ levels.old)) }
{
    let Ok(_) = note_copy(alloc, levels, j, &found, parent) else {
        return Err(found);
    };
    let first = found.is_first();
    Ok(Change::Note {
        system: j,
        values: found.into_values(),
        parent,
        first,
    })
}

// What comes of the state found, which is of system `j`: it is noted if it is in the frame of this level, and is
// behind if not.
fn note_inside<'a>(
    alloc: Global,
    levels: &mut Levels<'a>,
    level: u32,
    j: usize,
    found: StateWitness<'a>,
    parent: Option<usize>,
) -> Result<Change, ClaimOutcome<'a>>
    requires in_range { j < length levels.old.systems }
    requires parent { MayHaveParent levels.old j found parent }
    requires same { IsOfSystem levels.old j (is_none parent) found.system }
    ensures done { IfOk result (λ d. ((InFrame found.entry.system levels.old.lemmas level (assignment_of found.entry.values) → ⊥) × (d ≡ Change.Behind (lag_of.State found.entry.values)) × (levels.new ≡ levels.old)) ⊎ (InFrame found.entry.system levels.old.lemmas level (assignment_of found.entry.values) × (d ≡ Change.Note j found.entry.values parent found.entry.first) × (levels.new ≡ with_obligation levels.old j found.entry parent))) }
    ensures err { IfErr result (λ r. (r ≡ ClaimOutcome.Found found.entry) × (levels.new ≡ levels.old)) }
{
    if !is_inside(levels, level, &found) {
        return Ok(Change::Behind(Lag::State(found.into_values())));
    }
    match note(alloc, levels, j, found, parent) {
        Ok(change) => Ok(change),
        Err(found) => Err(ClaimOutcome::Found(found)),
    }
}

// A bad state of system `j` was found: one of the frame of the top, if the top is the level of the claim still.
pub(crate) fn bad<'a>(
    alloc: Global,
    levels: &mut Levels<'a>,
    made: &Made,
    j: usize,
    found: StateWitness<'a>,
) -> Result<Change, ClaimOutcome<'a>>
    requires subject { made.now.subject ≡ asked.Bad j }
    requires in_range { j < length levels.old.systems }
    requires kind { found.is_step ≡ false }
    requires same { IsSameSystem true (system_at levels.old.systems j) found.system }
    ensures done { IfOk result (λ d. Comes levels.old made.now (ClaimOutcome.Found found.entry) d levels.new) }
    ensures err { IfErr result (λ r. (r ≡ ClaimOutcome.Found found.entry) × (levels.new ≡ levels.old)) }
{
    let _system = found.system();
    if levels.frames().top(j) != made.level {
        return Ok(Change::Dropped);
    }
    note_inside(alloc, levels, made.level, j, found, None)
}

// A state with a step to obligation `o` was found: one of the frame below the level of the claim, if it is
// there still.
pub(crate) fn precede<'a>(
    alloc: Global,
    levels: &mut Levels<'a>,
    made: &Made,
    o: usize,
    found: StateWitness<'a>,
) -> Result<Change, ClaimOutcome<'a>>
    requires subject { made.now.subject ≡ asked.Block o }
    requires in_range { o < length levels.old.obligations }
    requires above { 0 < made.now.level }
    requires kind { found.is_step ≡ true }
    requires ends { EndsIn found (obligation_at levels.old.obligations o).values }
    requires same { IsSameSystem false (system_at levels.old.systems 0) found.system }
    ensures done { IfOk result (λ d. Comes levels.old made.now (ClaimOutcome.Found found.entry) d levels.new) }
    ensures err { IfErr result (λ r. (r ≡ ClaimOutcome.Found found.entry) × (levels.new ≡ levels.old)) }
{
    let _system = found.system();
    let _systems = levels.frames().systems();
    let j = levels.frames().obligation(o).system;
    note_inside(alloc, levels, made.level - 1, j, found, Some(o))
}

// Retires lemma `n`, which lemma `m` covers, if it is live.
fn retire_one<'a>(levels: &mut Levels<'a>, m: usize, n: usize, changes: &mut Vec<Change>)
    requires in_range { m < length levels.old.lemmas }
    requires live { (lemma_at levels.old.lemmas m).live ≡ true }
    requires covered { IsCoveredBy levels.old.lemmas m n }
    requires room { vec_len changes.old < vec_capacity changes.old }
    ensures done { (ds : List AChange) × (changes.new.items ≡ changes.old.items ++ ds) × Retires levels.old ds levels.new }
    ensures room { vec_len changes.new ≤ vec_len changes.old + 1 }
    ensures capacity { vec_capacity changes.new ≡ vec_capacity changes.old }
    ensures same { AreSameLemmas levels.old.lemmas levels.new.lemmas }
    ensures live { (lemma_at levels.new.lemmas m).live ≡ true }
{
    if levels.frames().lemma(n).live {
        levels.retire(n);
        changes.push_reserved(Change::Retire(n));
    }
}

// Retires the live ones of these lemmas, which lemma `m` covers.
fn retire<'a>(levels: &mut Levels<'a>, m: usize, covered: &[usize], changes: &mut Vec<Change>)
    requires in_range { m < length levels.old.lemmas }
    requires live { (lemma_at levels.old.lemmas m).live ≡ true }
    requires covered { All (IsCoveredBy levels.old.lemmas m) covered.now }
    requires room { vec_len changes.old + length covered.now ≤ vec_capacity changes.old }
    ensures done { (ds : List AChange) × (changes.new.items ≡ changes.old.items ++ ds) × Retires levels.old ds levels.new }
    ensures room { vec_len changes.new ≤ vec_len changes.old + length covered.now }
    ensures capacity { vec_capacity changes.new ≡ vec_capacity changes.old }
{
    for n in covered {
        retire_one(levels, m, *n, changes);
    }
}

fn is_addition(change: &Change) -> bool
    ensures { result ≡ adds change.now }
{
    matches!(change, Change::Add { .. })
}

// The lemmas that the clause covers at its level, and room in `changes` for them and so many more.
fn make_room<'a>(
    levels: &Levels<'a>,
    proved: &Proved,
    changes: &mut Vec<Change>,
    more: usize,
) -> Result<Vec<usize>, AllocError>
    ensures covered { IfOk result (λ v. AreCoveredBy levels.now.lemmas proved.now.clause proved.now.level (length levels.now.lemmas) v.items) }
    ensures room { IfOk result (λ v. vec_len changes.new + (length v.items + (more + 1)) ≤ vec_capacity changes.new) }
    ensures same { changes.new.items ≡ changes.old.items }
    ensures capacity { vec_capacity changes.old ≤ vec_capacity changes.new }
{
    let lemmas = levels.frames().all_lemmas();
    let covered = lemmas.covered_by(proved.clause(), proved.level())?;
    let room = covered.len().saturating_add(more);
    changes.reserve(room.saturating_add(1))?;
    Ok(covered)
}

// Enters the change; where it adds lemma `m`, retires the lemmas that this one covers.
fn enter_change<'a>(
    levels: &mut Levels<'a>,
    m: usize,
    covered: &[usize],
    change: Change,
    changes: &mut Vec<Change>,
)
    requires empty { changes.old.items ≡ [] }
    requires added { adds change ≡ true → (m < length levels.old.lemmas) × ((lemma_at levels.old.lemmas m).live ≡ true) × All (IsCoveredBy levels.old.lemmas m) covered.now }
    requires room { vec_len changes.old + (length covered.now + 1) ≤ vec_capacity changes.old }
    ensures done { (ds : List AChange) × (changes.new.items ≡ change ∷ ds) × Retires levels.old ds levels.new }
    ensures room { vec_len changes.new ≤ vec_len changes.old + (length covered.now + 1) }
    ensures capacity { vec_capacity changes.new ≡ vec_capacity changes.old }
{
    let added = is_addition(&change);
    changes.push_reserved(change);
    if added {
        retire(levels, m, covered, changes);
    }
}

// The same as `block`; and the lemmas that a new one covers are retired. The changes go into `changes`, and
// leave room for so many more.
pub(crate) fn block_and_retire<'a>(
    alloc: Global,
    levels: &mut Levels<'a>,
    made: &Made,
    o: usize,
    proved: Proved<'a>,
    changes: &mut Vec<Change>,
    more: usize,
) -> Result<(), ClaimOutcome<'a>>
    requires empty { changes.old.items ≡ [] }
    requires subject { made.now.subject ≡ asked.Block o }
    requires level { proved.level ≡ made.now.level }
    requires unmet { ClauseTrue (assignment_of (obligation_at levels.old.obligations o).values) proved.clause → ⊥ }
    requires same { IsSameSystem false (system_at levels.old.systems 0) proved.system }
    ensures done { OnOk result (HasSettled levels.old made.now (ClaimOutcome.Proved proved.entry) changes.new.items levels.new) }
    ensures room { OnOk result (vec_len changes.new + more ≤ vec_capacity changes.new) }
    ensures err { IfErr result (λ r. (r ≡ ClaimOutcome.Proved proved.entry) × (levels.new ≡ levels.old) × (changes.new.items ≡ [])) }
    ensures capacity { vec_capacity changes.old ≤ vec_capacity changes.new }
{
    let Ok(covered) = make_room(levels, &proved, changes, more) else {
        return Err(ClaimOutcome::Proved(proved));
    };
    let m = levels.frames().lemmas();
    let change = block(alloc, levels, made, o, proved)?;
    enter_change(levels, m, &covered, change, changes);
    Ok(())
}

// What comes of the outcome of a claim on this subject; the changes are as for `block_and_retire`. For a
// lemma that is pushed it takes no memory, where there is room for them.
pub(crate) fn come<'a>(
    alloc: Global,
    levels: &mut Levels<'a>,
    made: &Made,
    claim: &Claim,
    outcome: ClaimOutcome<'a>,
    changes: &mut Vec<Change>,
    more: usize,
) -> Result<(), ClaimOutcome<'a>>
    requires empty { changes.old.items ≡ [] }
    requires room { vec_len changes.old + (more + 1) ≤ vec_capacity changes.old }
    requires fits { FitsIn levels.old made.now.subject made.now.level }
    requires subject { made.now.subject ≡ claim.now.subject }
    requires level { made.now.level ≡ claim.now.level }
    requires target { IsOfSubject levels.old claim.now.subject claim.now.values claim.now.clause }
    requires outcome { IsOutcomeOf levels.old.systems claim.now claim.now.subject outcome }
    ensures done { OnOk result (HasSettled levels.old made.now outcome.entry changes.new.items levels.new) }
    ensures room { OnOk result (vec_len changes.new + more ≤ vec_capacity changes.new) }
    ensures err { IfErr result (λ r. (r ≡ outcome.entry) × (levels.new ≡ levels.old) × (changes.new.items ≡ [])) }
    ensures capacity { vec_capacity changes.old ≤ vec_capacity changes.new }
    ensures push { IsPush claim.now.subject → IsOk result }
{
    let change = match (claim.subject, outcome) {
        (_, ClaimOutcome::Spent { .. }) => Change::Spent,
        (Subject::Bad(j), ClaimOutcome::Found(found)) => bad(alloc, levels, made, j, found)?,
        (Subject::Bad(j), ClaimOutcome::Clear(proof)) => clear(levels, made, j, proof)?,
        (Subject::Block(o), ClaimOutcome::Proved(proved)) => {
            return block_and_retire(alloc, levels, made, o, proved, changes, more);
        }
        (Subject::Block(o), ClaimOutcome::Found(found)) => precede(alloc, levels, made, o, found)?,
        (Subject::Push(n), ClaimOutcome::Proved(proved)) => push(levels, made, n, proved),
        (Subject::Push(n), ClaimOutcome::Step(step)) => leave(levels, made, n, step),
        _ => unreachable!(),
    };
    changes.push_reserved(change);
    Ok(())
}
