//! Tests of frames: lemmas, tops, and runs.

ghost use Rattle.std.specs.Prelude.{◌≡◌, ◌<◌, [], ◌∷◌, OnOk, IsTrue, length};
ghost use Rattle.frame_core.specs.Changes.{IsCovered};
ghost use Rattle.frame_tests.specs.ThreeBits.{latch, register, last, middle, register_frames};

use crate::three_bits::{
    clear, either_proof, first_state, has_the_run, is_same_clause, last_state, latch_system,
    latch_with, low_proof, middle_state, no, over_itself, register_system, verdict, yes,
};
use clause_core::{Lit, System};
use frame_core::reached_states::{
    a_level_without_live_lemmas_is_an_invariant, lemmas_hold_in_reached_states,
};
use frame_core::{
    Frames, FramesVerdict, Insertion, Lemmas, Noting, Opening, Place, Proved, Raising,
    first_unlike, is_part_of,
};
use std::alloc::{AllocError, Global};
use std::test::Fail;

// Whether the insertion has this answer.
fn inserts(frames: &mut Frames, proof: Proved, wanted: Insertion) -> Result<bool, AllocError> {
    let answer = frames.insert(proof)?;
    Ok(answer == wanted)
}

fn inserts_low(
    alloc: Global,
    frames: &mut Frames,
    system: &System,
    level: u32,
) -> Result<bool, AllocError>
    requires system { system.now ≡ latch }
    requires level { 0 < level }
{
    let proof = low_proof(alloc, system, level, Vec::new(alloc))?;
    inserts(frames, proof, Insertion::Added(0))
}

fn inserts_over_itself(
    alloc: Global,
    frames: &mut Frames,
    system: &System,
    level: u32,
    wanted: Insertion,
) -> Result<bool, AllocError>
    requires system { system.now ≡ latch }
    requires level { 0 < level }
{
    let proof = over_itself(alloc, system, level)?;
    inserts(frames, proof, wanted)
}

fn inserts_either(
    alloc: Global,
    frames: &mut Frames,
    system: &System,
    wanted: Insertion,
) -> Result<bool, AllocError>
    requires { system.now ≡ latch }
{
    let proof = either_proof(alloc, system)?;
    inserts(frames, proof, wanted)
}

// The latch's frames with one lemma, at this level.
fn one_lemma<'a>(alloc: Global, system: &'a System, level: u32) -> Result<Frames<'a>, AllocError>
    requires system { system.now ≡ latch }
    requires level { 0 < level }
{
    let mut frames = Frames::of_one(alloc, system)?;
    match inserts_low(alloc, &mut frames, system, level) {
        Ok(_) => Ok(frames),
        Err(error) => {
            drop(frames);
            Err(error)
        }
    }
}

// Below, each answer is as worked by hand.

fn held_by_a_shorter_lemma(alloc: Global, system: &System) -> Result<bool, AllocError>
    requires { system.now ≡ latch }
{
    let mut frames = one_lemma(alloc, system, 1)?;
    let answer = inserts_either(alloc, &mut frames, system, Insertion::Held(0));
    drop(frames);
    answer
}

fn behind_where_the_parent_is_no_lemma(alloc: Global, system: &System) -> Result<bool, AllocError>
    requires { system.now ≡ latch }
{
    let mut frames = Frames::of_one(alloc, system)?;
    let behind = Insertion::Behind {
        parent: 0,
        level: 0,
    };
    let answer = inserts_over_itself(alloc, &mut frames, system, 2, behind);
    drop(frames);
    answer
}

fn not_added_to_another_system(
    alloc: Global,
    system: &System,
    other: &System,
) -> Result<bool, AllocError>
    requires { system.now ≡ latch }
{
    let mut frames = Frames::of_one(alloc, other)?;
    let place = Place::Init(0);
    let refused = Insertion::OtherSystem { place };
    let answer = inserts_over_itself(alloc, &mut frames, system, 1, refused);
    drop(frames);
    answer
}

// Whether lemma 1 is live, has a part of the literals of lemma 0, and at least its level.
fn is_covered(frames: &Frames) -> bool
    ensures in_range { IsTrue result → 0 < length frames.now.lemmas }
    ensures covered { IsTrue result → IsCovered frames.now 0 }
{
    if frames.lemmas() < 2 {
        return false;
    }
    let lemma = frames.lemma(0);
    let other = frames.lemma(1);
    if !other.live {
        return false;
    }
    if lemma.level > other.level {
        return false;
    }
    is_part_of(other.clause.as_slice(), lemma.clause.as_slice())
}

// Whether the lemmas have these levels and are live or not as given here.
fn has(lemmas: &Lemmas, wanted: &[(u32, bool)]) -> bool {
    if lemmas.len() != wanted.len() {
        return false;
    }
    for n in 0..lemmas.len() {
        let lemma = lemmas.lemma(n);
        if lemma.level != wanted[n].0 || lemma.live != wanted[n].1 {
            return false;
        }
    }
    true
}

// Whether the copy, brought up to date, has these levels and is live or not as given here.
fn follows(
    copy: &mut Lemmas,
    frames: &Frames,
    changed: &[usize],
    wanted: &[(u32, bool)],
) -> Result<bool, AllocError> {
    copy.follow(frames.all_lemmas(), changed)?;
    Ok(has(copy, wanted) && has(frames.all_lemmas(), wanted))
}

// Retires lemma 0, which lemma 1 covers; the copy, from before, is brought up to date.
fn retires_with(frames: &mut Frames, copy: &mut Lemmas) -> Result<bool, AllocError> {
    if !is_covered(frames) {
        return Ok(false);
    }
    let before = follows(copy, frames, &[], &[(1, true), (2, true)])?;
    frames.retire(0);
    let after = follows(copy, frames, &[0], &[(1, false), (2, true)])?;
    Ok(before && after)
}

fn retires(alloc: Global, frames: &mut Frames) -> Result<bool, AllocError> {
    let mut copy = Lemmas::new(alloc);
    let answer = retires_with(frames, &mut copy);
    drop(copy);
    answer
}

fn retires_first(alloc: Global, frames: &mut Frames, system: &System) -> Result<bool, AllocError>
    requires { system.now ≡ latch }
{
    let added = inserts_over_itself(alloc, frames, system, 2, Insertion::Added(1))?;
    let retired = retires(alloc, frames)?;
    Ok(added && retired)
}

fn retired_where_another_covers(alloc: Global, system: &System) -> Result<bool, AllocError>
    requires { system.now ≡ latch }
{
    let mut frames = one_lemma(alloc, system, 1)?;
    let answer = retires_first(alloc, &mut frames, system);
    drop(frames);
    answer
}

// What becomes of lemma 0 with this proof of it.
fn raise(frames: &mut Frames, proof: Proved) -> Option<Raising> {
    if frames.lemmas() > 0 && is_same_clause(proof.clause(), frames.lemma(0).clause.as_slice()) {
        Some(frames.raise(0, proof))
    } else {
        drop(proof);
        None
    }
}

fn raising_in(
    alloc: Global,
    frames: &mut Frames,
    system: &System,
    level: u32,
) -> Result<Option<Raising>, AllocError>
    requires system { system.now ≡ latch }
    requires level { 0 < level }
{
    let proof = over_itself(alloc, system, level)?;
    Ok(raise(frames, proof))
}

// What becomes of the lemma of level 1 with a proof of this level over itself.
fn raising(alloc: Global, system: &System, level: u32) -> Result<Option<Raising>, AllocError>
    requires system { system.now ≡ latch }
    requires level { 0 < level }
{
    let mut frames = one_lemma(alloc, system, 1)?;
    let raising = raising_in(alloc, &mut frames, system, level);
    drop(frames);
    raising
}

fn raised_by_a_proof_alone(alloc: Global, system: &System) -> Result<bool, AllocError>
    requires { system.now ≡ latch }
{
    let same = raising(alloc, system, 1)?;
    let next = raising(alloc, system, 2)?;
    let far = raising(alloc, system, 3)?;
    let behind = Raising::Behind {
        parent: 0,
        level: 1,
    };
    Ok(same == Some(Raising::Dropped) && next == Some(Raising::Raised) && far == Some(behind))
}

// Whether the top is opened with this answer, by a proof of this level.
fn opens(
    alloc: Global,
    frames: &mut Frames,
    system: &System,
    level: u32,
    wanted: Opening,
) -> Result<bool, AllocError>
    requires { system.now ≡ latch }
{
    if frames.systems().is_empty() || frames.top(0) > 9 {
        return Ok(false);
    }
    let proof = clear(alloc, system, level)?;
    let opening = frames.open(0, proof)?;
    Ok(opening == wanted)
}

// Opens the top twice; before, a proof of the next level is dropped.
fn opens_twice(alloc: Global, frames: &mut Frames, system: &System) -> Result<bool, AllocError>
    requires { system.now ≡ latch }
{
    let early = opens(alloc, frames, system, 1, Opening::Dropped)?;
    let first = opens(alloc, frames, system, 0, Opening::Opened)?;
    let second = opens(alloc, frames, system, 1, Opening::Opened)?;
    Ok(early && first && second)
}

fn opens_to_an_invariant(
    alloc: Global,
    frames: &mut Frames,
    system: &System,
) -> Result<bool, AllocError>
    requires { system.now ≡ latch }
{
    let before = verdict(frames);
    let opened = opens_twice(alloc, frames, system)?;
    Ok(opened && before.is_none() && verdict(frames) == Some(FramesVerdict::Invariant(1)))
}

fn an_invariant_where_a_level_is_left(alloc: Global, system: &System) -> Result<bool, AllocError>
    requires { system.now ≡ latch }
{
    let mut frames = one_lemma(alloc, system, 2)?;
    let answer = opens_to_an_invariant(alloc, &mut frames, system);
    drop(frames);
    answer
}

fn opens_once(alloc: Global, frames: &mut Frames, system: &System) -> Result<bool, AllocError>
    requires { system.now ≡ latch }
{
    let behind = Opening::Behind {
        parent: 0,
        level: 0,
    };
    let first = opens(alloc, frames, system, 0, Opening::Opened)?;
    let second = opens(alloc, frames, system, 1, behind)?;
    Ok(first && second)
}

fn not_opened_without_its_parents(alloc: Global, system: &System) -> Result<bool, AllocError>
    requires { system.now ≡ latch }
{
    let mut frames = Frames::of_one(alloc, system)?;
    let answer = opens_once(alloc, &mut frames, system);
    drop(frames);
    answer
}

// The latch with more bad states.
fn other_bad(alloc: Global) -> Result<System, AllocError> {
    latch_with(alloc, &[yes(0), yes(1)])
}

fn not_opened_in(alloc: Global, system: &System, other: &System) -> Result<bool, AllocError>
    requires { system.now ≡ latch }
{
    let mut frames = Frames::of_one(alloc, other)?;
    let place = Place::Bad(2);
    let wanted = Opening::OtherSystem { place };
    let refused = opens(alloc, &mut frames, system, 0, wanted);
    drop(frames);
    refused
}

fn not_opened_with_other_bad_states(alloc: Global, system: &System) -> Result<bool, AllocError>
    requires { system.now ≡ latch }
{
    let other = other_bad(alloc)?;
    let answer = not_opened_in(alloc, system, &other);
    drop(other);
    answer
}

// Whether these are the lemmas that a clause covers at a level.
fn covers(
    lemmas: &Lemmas,
    clause: &[Lit],
    level: u32,
    wanted: &[usize],
) -> Result<bool, AllocError> {
    let covered = lemmas.covered_by(clause, level)?;
    let answer = covered.as_slice() == wanted;
    drop(covered);
    Ok(answer)
}

fn low_covers(lemmas: &Lemmas) -> Result<bool, AllocError> {
    let low = [no(0)];
    let same = covers(lemmas, &low, 1, &[0])?;
    let lower = covers(lemmas, &low, 0, &[])?;
    Ok(same && lower)
}

fn low_covers_either(
    alloc: Global,
    frames: &mut Frames,
    system: &System,
) -> Result<bool, AllocError>
    requires { system.now ≡ latch }
{
    let added = inserts_either(alloc, frames, system, Insertion::Added(0))?;
    let covered = low_covers(frames.all_lemmas())?;
    Ok(added && covered)
}

// The lemma that a longer clause is covered by, and the lemmas that the shorter one covers.
fn covered_by_a_shorter_clause(alloc: Global, system: &System) -> Result<bool, AllocError>
    requires { system.now ≡ latch }
{
    let mut frames = Frames::of_one(alloc, system)?;
    let answer = low_covers_either(alloc, &mut frames, system);
    drop(frames);
    answer
}

// Whether the top is 0, and the only lemma is of level 2.
fn has_one_of_level_two(frames: &Frames) -> bool {
    !frames.systems().is_empty()
        && frames.lemmas() == 1
        && frames.top(0) == 0
        && frames.lemma(0).level == 2
}

// Whether the frames' lemma is carried to the same system.
fn carries(frames: Frames) -> bool {
    let same = frames.systems();
    let later = frames.carry(same);
    let answer = has_one_of_level_two(&later);
    drop(later);
    answer
}

// The lemma of the latch, carried to the same latch.
fn carried(alloc: Global, system: &System) -> Result<bool, AllocError>
    requires { system.now ≡ latch }
{
    let mut frames = one_lemma(alloc, system, 2)?;
    let opened = opens(alloc, &mut frames, system, 0, Opening::Opened);
    let carried = carries(frames);
    Ok(opened? && carried)
}

fn add_last(alloc: Global, frames: &mut Frames, system: &System) -> Result<(), AllocError>
    requires system { system.now ≡ register }
    requires frames { frames.old ≡ register_frames [] }
    ensures { OnOk result (frames.new ≡ register_frames (last ∷ [])) }
{
    let found = last_state(alloc, system)?;
    match frames.add_obligation(0, found, None)? {
        Noting::Noted(_) => Ok(()),
        Noting::OtherSystem { .. } => Err(AllocError),
    }
}

fn add_middle(alloc: Global, frames: &mut Frames, system: &System) -> Result<(), AllocError>
    requires system { system.now ≡ register }
    requires frames { frames.old ≡ register_frames (last ∷ []) }
    ensures { OnOk result (frames.new ≡ register_frames (last ∷ middle ∷ [])) }
{
    let found = middle_state(alloc, system)?;
    match frames.add_obligation(0, found, Some(0))? {
        Noting::Noted(_) => Ok(()),
        Noting::OtherSystem { .. } => Err(AllocError),
    }
}

fn add_first(alloc: Global, frames: &mut Frames, system: &System) -> Result<(), AllocError>
    requires system { system.now ≡ register }
    requires frames { frames.old ≡ register_frames (last ∷ middle ∷ []) }
{
    let found = first_state(alloc, system)?;
    match frames.add_obligation(0, found, Some(1))? {
        Noting::Noted(_) => Ok(()),
        Noting::OtherSystem { .. } => Err(AllocError),
    }
}

// The bad state as obligation 0, the state before it as obligation 1, and the initial one before that as obligation 2.
fn add_all(alloc: Global, frames: &mut Frames, system: &System) -> Result<(), AllocError>
    requires system { system.now ≡ register }
    requires frames { frames.old ≡ register_frames [] }
{
    add_last(alloc, frames, system)?;
    add_middle(alloc, frames, system)?;
    add_first(alloc, frames, system)
}

fn has_all_and_the_run(
    alloc: Global,
    frames: &mut Frames,
    system: &System,
) -> Result<bool, AllocError>
    requires system { system.now ≡ register }
    requires frames { frames.old ≡ register_frames [] }
{
    add_all(alloc, frames, system)?;
    has_the_run(alloc, frames)
}

fn a_run_from_its_first_state_to_the_bad_one(
    alloc: Global,
    system: &System,
) -> Result<bool, AllocError>
    requires { system.now ≡ register }
{
    let mut frames = Frames::of_one(alloc, system)?;
    let answer = has_all_and_the_run(alloc, &mut frames, system);
    drop(frames);
    answer
}

fn notes_last(alloc: Global, frames: &mut Frames, system: &System) -> Result<Noting, AllocError>
    requires system { system.now ≡ register }
    requires one { length frames.old.systems ≡ 1 }
{
    let state = last_state(alloc, system)?;
    frames.add_obligation(0, state, None)
}

fn not_noted_in_another_system(
    alloc: Global,
    system: &System,
    other: &System,
) -> Result<bool, AllocError>
    requires { system.now ≡ register }
{
    let mut frames = Frames::of_one(alloc, other)?;
    let answer = notes_last(alloc, &mut frames, system);
    drop(frames);
    let place = Place::Init(0);
    Ok(answer? == Noting::OtherSystem { place })
}

fn lemmas_of(alloc: Global, system: &System) -> Result<bool, AllocError>
    requires { system.now ≡ latch }
{
    let held = held_by_a_shorter_lemma(alloc, system)?;
    let behind = behind_where_the_parent_is_no_lemma(alloc, system)?;
    let covered = covered_by_a_shorter_clause(alloc, system)?;
    let carried = carried(alloc, system)?;
    let retired = retired_where_another_covers(alloc, system)?;
    let raised = raised_by_a_proof_alone(alloc, system)?;
    Ok(held && behind && covered && carried && retired && raised)
}

fn lemmas(alloc: Global) -> Result<bool, AllocError> {
    let system = latch_system(alloc)?;
    let answer = lemmas_of(alloc, &system);
    drop(system);
    answer
}

fn top_of(alloc: Global, system: &System) -> Result<bool, AllocError>
    requires { system.now ≡ latch }
{
    let invariant = an_invariant_where_a_level_is_left(alloc, system)?;
    let behind = not_opened_without_its_parents(alloc, system)?;
    let refused = not_opened_with_other_bad_states(alloc, system)?;
    Ok(invariant && behind && refused)
}

fn top(alloc: Global) -> Result<bool, AllocError> {
    let system = latch_system(alloc)?;
    let answer = top_of(alloc, &system);
    drop(system);
    answer
}

fn run(alloc: Global) -> Result<bool, AllocError> {
    let system = register_system(alloc)?;
    let answer = a_run_from_its_first_state_to_the_bad_one(alloc, &system);
    drop(system);
    answer
}

fn refused_of(alloc: Global, system: &System, other: &System) -> Result<bool, AllocError>
    requires latch { system.now ≡ latch }
    requires register { other.now ≡ register }
{
    let added = not_added_to_another_system(alloc, system, other)?;
    let noted = not_noted_in_another_system(alloc, other, system)?;
    Ok(added && noted)
}

fn refused_by_the_register(alloc: Global, system: &System) -> Result<bool, AllocError>
    requires { system.now ≡ latch }
{
    let other = register_system(alloc)?;
    let answer = refused_of(alloc, system, &other);
    drop(other);
    answer
}

// One system is made here and the other in the call: a function that owns both has a long proof.
fn refused(alloc: Global) -> Result<bool, AllocError> {
    let system = latch_system(alloc)?;
    let answer = refused_by_the_register(alloc, &system);
    drop(system);
    answer
}

// Adds the latch with more bad states.
fn push_other(alloc: Global, systems: &mut Vec<System>) -> Result<(), AllocError> {
    let other = other_bad(alloc)?;
    systems.push(other)?;
    Ok(())
}

fn push_latch(alloc: Global, systems: &mut Vec<System>) -> Result<(), AllocError> {
    let latch = latch_system(alloc)?;
    systems.push(latch)?;
    Ok(())
}

fn push_register(alloc: Global, systems: &mut Vec<System>) -> Result<(), AllocError> {
    let register = register_system(alloc)?;
    systems.push(register)?;
    Ok(())
}

// Whether the first top is 2, with an invariant below it, and the second is 0.
fn are_apart(frames: &Frames) -> bool {
    if frames.systems().len() < 2 {
        return false;
    }
    frames.top(0) == 2
        && frames.top(1) == 0
        && frames.verdict(0) == Some(FramesVerdict::Invariant(1))
        && frames.verdict(1).is_none()
}

// Whether the second top is not opened by a proof of the first system.
fn is_refused_by_second(
    alloc: Global,
    frames: &mut Frames,
    system: &System,
) -> Result<bool, AllocError>
    requires { system.now ≡ latch }
{
    if frames.systems().len() < 2 || frames.top(1) > 9 {
        return Ok(false);
    }
    let proof = clear(alloc, system, 0)?;
    let opening = frames.open(1, proof)?;
    let place = Place::Bad(2);
    Ok(opening == Opening::OtherSystem { place })
}

fn opens_first_alone(
    alloc: Global,
    frames: &mut Frames,
    system: &System,
) -> Result<bool, AllocError>
    requires { system.now ≡ latch }
{
    let added = inserts_low(alloc, frames, system, 2)?;
    let refused = is_refused_by_second(alloc, frames, system)?;
    let opened = opens_twice(alloc, frames, system)?;
    Ok(added && refused && opened && are_apart(frames))
}

// One lemma for two systems, and a top for each.
fn tops_of_two(alloc: Global, system: &System, systems: &[System]) -> Result<bool, AllocError>
    requires { system.now ≡ latch }
{
    if systems.is_empty() {
        return Ok(false);
    }
    if first_unlike(systems).is_some() {
        return Ok(false);
    }
    let mut frames = Frames::new(alloc, systems)?;
    let answer = opens_first_alone(alloc, &mut frames, system);
    drop(frames);
    answer
}

fn tops_of_latches(alloc: Global, systems: &[System]) -> Result<bool, AllocError> {
    let system = latch_system(alloc)?;
    let answer = tops_of_two(alloc, &system, systems);
    drop(system);
    answer
}

fn two_in(alloc: Global, systems: &mut Vec<System>) -> Result<bool, AllocError> {
    push_latch(alloc, systems)?;
    push_other(alloc, systems)?;
    tops_of_latches(alloc, systems)
}

fn two(alloc: Global) -> Result<bool, AllocError> {
    let mut systems = Vec::new(alloc);
    let answer = two_in(alloc, &mut systems);
    drop(systems);
    answer
}

// Whether the latch and the register differ at their first clause of an initial state.
fn are_unlike_in(alloc: Global, systems: &mut Vec<System>) -> Result<bool, AllocError> {
    push_latch(alloc, systems)?;
    push_register(alloc, systems)?;
    Ok(first_unlike(systems) == Some((1, Place::Init(0))))
}

fn is_unlike_register(alloc: Global) -> Result<bool, AllocError> {
    let mut systems = Vec::new(alloc);
    let answer = are_unlike_in(alloc, &mut systems);
    drop(systems);
    answer
}

#[test]
fn lemmas_are_added_raised_and_retired(rt: HostRuntime) -> Result<(), Fail> {
    assert!(rt; lemmas(rt.alloc())?);
    Ok(())
}

#[test]
fn the_top_is_opened_up_to_an_invariant(rt: HostRuntime) -> Result<(), Fail> {
    assert!(rt; top(rt.alloc())?);
    assert!(rt; two(rt.alloc())?);
    assert!(rt; is_unlike_register(rt.alloc())?);
    Ok(())
}

#[test]
fn a_state_that_is_reached_has_its_run(rt: HostRuntime) -> Result<(), Fail> {
    assert!(rt; run(rt.alloc())?);
    Ok(())
}

#[test]
fn facts_of_another_system_are_refused(rt: HostRuntime) -> Result<(), Fail> {
    assert!(rt; refused(rt.alloc())?);
    lemmas_hold_in_reached_states();
    a_level_without_live_lemmas_is_an_invariant();
    Ok(())
}
