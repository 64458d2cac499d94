//! A bounded list of steps that queries found. One that leaves a clause is a counterexample to its
//! induction, and saves a query.
//!
//! Most steps are ruled out by 64 bits of the state that they lead to, which stand in one word: those among which one
//! ruled the step out before. The others are mostly ruled out by another word, or by the lemma that did so before.
//! All of this is kept beside each step, and tested first.

ghost use Rattle.std.specs.Prelude.{◌≡◌, ◌+◌, ◌-◌, ◌<◌, ◌≤◌, ℕ, Bool, not, true, All, IfNone, IfOk, IfSome, IsTrue, length};
ghost use Rattle.std.specs.List.{HoldsAt};
ghost use Rattle.clause_core.specs.declared.literal.Lit.{Lit as ALit};
ghost use Rattle.clause_core.specs.Literals.{Within};
ghost use Rattle.clause_core.specs.Assignments.{ClauseTrue, assignment_of};
ghost use Rattle.clause_core.specs.Systems.{TransitionSystem};
ghost use Rattle.frame_core.specs.declared.parts.Lemma.{Lemma as ALemma};
ghost use Rattle.frame_core.specs.FrameLaw.{MeetsFrom};
ghost use Rattle.frame_solver.specs.Stepping.{IsStepOut};
ghost use Rattle.frame_solver.specs.Recalling.{IsKnownStep, LeadsOut};

use clause_core::{Bits, Lit, System, met};
use frame_core::Lemma;
use std::alloc::{AllocError, Global};

// How many steps are kept.
const MOST: usize = 1024;

// Values of a step that a query found, and whether it is known to lead from an initial state.
#[derive(Drop)]
pub struct KnownStep {
    pub values: Bits,
    pub first: bool,
}

// What is kept beside a step to rule it out fast. Contracts do not see it: a step that it lets through is tested.
#[derive(Drop)]
pub struct StepHint {
    // The bits of the state that the step leads to, 64 in a word, the first one lowest.
    pub words: Vec<u64>,
    // The place of the word that ruled the step out last.
    pub place: usize,
    // That word.
    pub next: u64,
    // The place of the lemma that ruled the step out last.
    pub bar: usize,
}

// The bits of a clause's literals, in a word of 64 bits: those of positive ones, and those of negative ones.
#[derive(Clone, Copy, Drop)]
pub(crate) struct Mask {
    positive: u64,
    negative: u64,
}

// The bits of this number of a word, where `k` is one.
fn bit(k: usize) -> u64 {
    if k < 64 { 1 << k } else { 0 }
}

// The first 64 bits from place `from` on, in a word.
fn word_from(values: &[bool], from: usize) -> u64 {
    let mut word: u64 = 0;
    let end = values.len().min(from.saturating_add(64));
    for k in from..end {
        if values[k] {
            word |= bit(k - from);
        }
    }
    word
}

// Sets the literal's bit.
fn note_literal(masks: &mut [Mask], l: Lit) {
    let place = l.var / 64;
    if place < masks.len() {
        let own = bit(l.var % 64);
        if l.positive {
            masks[place].positive |= own;
        } else {
            masks[place].negative |= own;
        }
    }
}

// The bits of the clause's literals, 64 state bits in a word.
fn masks_of(alloc: Global, bits: usize, clause: &[Lit]) -> Result<Vec<Mask>, AllocError> {
    let none = Mask {
        positive: 0,
        negative: 0,
    };
    let count = (bits / 64).saturating_add(1);
    let mut masks = vec![in alloc; none; count]?;
    for l in clause {
        note_literal(&mut masks, *l);
    }
    Ok(masks)
}

// Whether the word at this place makes a literal of the clause true.
fn is_ruled_by(masks: &[Mask], place: usize, word: u64) -> bool {
    if place < masks.len() {
        let mask = masks[place];
        (word & mask.positive) | (!word & mask.negative) != 0
    } else {
        false
    }
}

// The place of the first word that makes a literal of the clause true.
fn ruling_place(masks: &[Mask], words: &[u64]) -> Option<usize> {
    for place in 0..words.len() {
        if is_ruled_by(masks, place, words[place]) {
            return Some(place);
        }
    }
    None
}

// Whether the state that the step leads to makes a literal of the clause true, by what is kept beside the step. The
// word that tells it is tested first the next time.
fn is_ruled_out(masks: &[Mask], hint: &mut StepHint) -> bool {
    if is_ruled_by(masks, hint.place, hint.next) {
        return true;
    }
    match ruling_place(masks, &hint.words) {
        Some(place) => {
            if place < hint.words.len() {
                hint.next = hint.words[place];
                hint.place = place;
            }
            true
        }
        None => false,
    }
}

// Whether the values from place `from` on make each literal false.
pub(crate) fn is_outside(values: &[bool], from: usize, clause: &[Lit]) -> bool
    requires { All (λ (l : ALit). from + l.var < length values.now) clause.now }
    ensures { IsTrue result → All (λ (l : ALit). assignment_of values.now (from + l.var) ≡ not l.positive) clause.now }
{
    'literals: for l in clause {
        if values[from + l.var] == l.positive {
            return false;
        }
    }
    true
}

// Whether these values meet the clause.
fn meets(values: &[bool], clause: &[Lit]) -> bool
    requires { Within (length values.now) clause.now }
    ensures { IsTrue result → ClauseTrue (assignment_of values.now) clause.now }
{
    'literals: for l in clause {
        if values[l.var] == l.positive {
            return true;
        }
    }
    false
}

// Whether these values do not meet the lemma at this place, and it has at least this level.
fn is_barred(values: &Bits, lemmas: &[Lemma], bar: usize, least: u32) -> bool
    requires { All (λ (l : ALemma). Within (length values.now) l.clause) lemmas.now }
{
    bar < lemmas.len() && least <= lemmas[bar].level && !met(&lemmas[bar].clause, values)
}

// The place of the first lemma of at least this level that these values do not meet.
fn first_bar(values: &Bits, lemmas: &[Lemma], least: u32) -> Option<usize>
    requires { All (λ (l : ALemma). Within (length values.now) l.clause) lemmas.now }
    ensures { IfNone result (MeetsFrom lemmas.now least (assignment_of values.now)) }
{
    'lemmas: for k in 0..lemmas.len() {
        let lemma = &lemmas[k];
        if least <= lemma.level && !met(&lemma.clause, values) {
            return Some(k);
        }
    }
    None
}

// Whether the step is known to lead from a state of frame i. The bar is the place of the lemma that ruled the
// step out last.
fn leads_from(step: &KnownStep, lemmas: &[Lemma], i: u32, bar: &mut usize) -> bool
    requires { All (λ (l : ALemma). Within (length step.now.values) l.clause) lemmas.now }
    ensures first { IsTrue result → i ≡ 0 → step.now.first ≡ true }
    ensures later { IsTrue result → 0 < i → MeetsFrom lemmas.now i (assignment_of step.now.values) }
{
    if i == 0 {
        return step.first;
    }
    if is_barred(&step.values, lemmas, *bar, i) {
        return false;
    }
    match first_bar(&step.values, lemmas, i) {
        Some(k) => {
            *bar = k;
            false
        }
        None => true,
    }
}

// Whether the step is known to lead from a state of the frame below the level, that meets the clause, to one
// that does not. The tests that rule out most steps come first.
fn leads_out(
    system: &System,
    lemmas: &[Lemma],
    step: &KnownStep,
    clause: &[Lit],
    level: u32,
    bar: &mut usize,
) -> bool
    requires known { IsKnownStep system.now step.now }
    requires lemmas { All (λ (l : ALemma). Within system.now.state_bits l.clause) lemmas.now }
    requires within { Within system.now.state_bits clause.now }
    requires level { 0 < level }
    ensures { IsTrue result → LeadsOut system.now lemmas.now level clause.now step.now }
{
    system.law();
    let values = step.values.as_slice();
    is_outside(values, system.state_bits(), clause)
        && meets(values, clause)
        && leads_from(step, lemmas, level - 1, bar)
}

// Whether what is kept beside the step at this place rules it out.
fn is_ruled_out_at(masks: &[Mask], hints: &mut [StepHint], k: usize) -> bool {
    k < hints.len() && is_ruled_out(masks, &mut hints[k])
}

// The place of the lemma that ruled out the step at this place last.
fn bar_at(hints: &[StepHint], k: usize) -> usize {
    if k < hints.len() { hints[k].bar } else { 0 }
}

// Remembers the lemma that ruled out the step at this place.
fn note_bar(hints: &mut [StepHint], k: usize, bar: usize) {
    if k < hints.len() {
        hints[k].bar = bar;
    }
}

// The place of the last of these steps that is known to lead out of the clause at the level. The masks are those of
// the clause.
fn last_by(
    system: &System,
    lemmas: &[Lemma],
    steps: &[KnownStep],
    hints: &mut [StepHint],
    masks: &[Mask],
    clause: &[Lit],
    level: u32,
) -> Option<usize>
    requires known { All (IsKnownStep system.now) steps.now }
    requires lemmas { All (λ (l : ALemma). Within system.now.state_bits l.clause) lemmas.now }
    requires within { Within system.now.state_bits clause.now }
    requires level { 0 < level }
    ensures { IfSome result (λ k. (k < length steps.now) × HoldsAt (LeadsOut system.now lemmas.now level clause.now) steps.now k) }
{
    'steps: for k in (0..steps.len()).rev() {
        if !is_ruled_out_at(masks, hints, k) {
            let mut bar = bar_at(hints, k);
            if leads_out(system, lemmas, &steps[k], clause, level, &mut bar) {
                return Some(k);
            }
            note_bar(hints, k, bar);
        }
    }
    None
}

// The place of the last of these steps that is known to lead out of the clause at the level.
pub(crate) fn last_out(
    alloc: Global,
    system: &System,
    lemmas: &[Lemma],
    steps: &[KnownStep],
    hints: &mut [StepHint],
    clause: &[Lit],
    level: u32,
) -> Result<Option<usize>, AllocError>
    requires known { All (IsKnownStep system.now) steps.now }
    requires lemmas { All (λ (l : ALemma). Within system.now.state_bits l.clause) lemmas.now }
    requires within { Within system.now.state_bits clause.now }
    requires level { 0 < level }
    ensures { IfOk result (λ r. IfSome r (λ k. (k < length steps.now) × HoldsAt (LeadsOut system.now lemmas.now level clause.now) steps.now k)) }
{
    let masks = masks_of(alloc, system.state_bits(), clause)?;
    Ok(last_by(system, lemmas, steps, hints, &masks, clause, level))
}

// The step at this place goes to the end. If memory runs out, it is gone.
pub(crate) fn put_last(steps: &mut Vec<KnownStep>, k: usize) -> Result<(), AllocError>
    requires { k < length steps.old.items }
    ensures { (sys : TransitionSystem) → All (IsKnownStep sys) steps.old.items → All (IsKnownStep sys) steps.new.items }
{
    let step = steps.remove(k);
    steps.push(step)?;
    Ok(())
}

// What is kept beside the step at this place goes to the end, as the step does. If memory runs out, it is gone.
pub(crate) fn put_hint_last(hints: &mut Vec<StepHint>, k: usize) -> Result<(), AllocError> {
    if k < hints.len() {
        let hint = hints.remove(k);
        hints.push(hint)?;
    }
    Ok(())
}

// Adds what is kept beside a step at the end; where there is no room for one more, the first one goes.
fn keep_hint(hints: &mut Vec<StepHint>, hint: StepHint) -> Result<(), AllocError> {
    if hints.len() >= MOST {
        let _ = hints.remove(0);
    }
    hints.push(hint)?;
    Ok(())
}

// So many bits from place `from` on, 64 in a word.
fn words_of(
    alloc: Global,
    values: &[bool],
    from: usize,
    bits: usize,
) -> Result<Vec<u64>, AllocError> {
    let mut words = Vec::new(alloc);
    for place in 0..(bits / 64).saturating_add(1) {
        words.push(word_from(values, from.saturating_add(place.saturating_mul(64))))?;
    }
    Ok(words)
}

// What is to be kept beside a step of these values at first.
fn new_hint(
    alloc: Global,
    values: &[bool],
    from: usize,
    bits: usize,
) -> Result<StepHint, AllocError> {
    let words = words_of(alloc, values, from, bits)?;
    Ok(StepHint {
        words,
        place: 0,
        next: word_from(values, from),
        bar: 0,
    })
}

// Adds the step at the end, and what is kept beside it; where there is no room for one more, the first one goes. The
// bits of the state that it leads to stand from place `bits` on, as many as that.
pub(crate) fn keep(
    alloc: Global,
    steps: &mut Vec<KnownStep>,
    hints: &mut Vec<StepHint>,
    bits: usize,
    step: KnownStep,
) -> Result<(), AllocError>
    ensures { (sys : TransitionSystem) → All (IsKnownStep sys) steps.old.items → IsKnownStep sys step → All (IsKnownStep sys) steps.new.items }
{
    let hint = new_hint(alloc, step.values.as_slice(), bits, bits)?;
    keep_hint(hints, hint)?;
    if steps.len() >= MOST {
        let _ = steps.remove(0);
    }
    steps.push(step)?;
    Ok(())
}
