//! Books played by hand over the latch and the register: to an invariant, to a limit and to a run, by one worker and by
//! two, and to a spent purse. A row of a play is a worker that asks for a task, and what becomes of it.

ghost use Rattle.std.specs.Prelude.{◌≡◌, ◌<◌, [], ◌∷◌, IfOk, IsTrue};
ghost use Rattle.clause_core.specs.Assignments.{ClauseTrue, assignment_of};
ghost use Rattle.frame_book.specs.declared.claim.ClaimOutcome.TheVariants.{Spent};
ghost use Rattle.frame_book.specs.Outcomes.{EndsIn, Leaves, IsOutcomeOf, IsProofFor, IsFoundFor, IsStepFor, IsClearFor};
ghost use Rattle.frame_tests.specs.Plays.{played, IsOf};
ghost use Rattle.frame_tests.specs.ThreeBits.{latch, register};

use crate::three_bits::{
    clear, first_state, has_the_run, high_clear, high_proof, high_step, is_same_clause, last_state,
    latch_last, latch_system, middle_state, no, over_itself, register_system, verdict,
};
use clause_core::{Bits, Clause, Lit, System, is_within, met};
use frame_book::{Book, Claim, ClaimOutcome, Claiming, Returning, Settling, Unsettled};
use frame_core::{Clear, Frames, FramesVerdict, Proved, StateWitness, Step};
use frame_history::{Change, Entry, Limits, Subject};
use std::alloc::{AllocError, Global};
use std::marker::Brand;
use std::sync::ledger::{self, Blank, Ledger, Share};
use std::test::Fail;

// The play. The worker that asks, and its claim: `b` for the bad states of the top's frame, `o` to block an
// obligation, `p` to push a lemma; its number, and the level.
//
// What is shown for the claim: `c` for a frame without bad states, `l` for the bad state with all bits true, `m` for
// a step to it, `f` for a step from an initial state to the state before; `p` for a proof, `s` for a step out of the
// lemma; `x` for a spent purse; `g` where the claim is given back.
//
// What comes of it: `o` for a top that is opened, `n` for an obligation, `a` for a lemma, `r` for one that is raised,
// `f` for a push that failed; `b` for a proof that is behind, `d` for one that is dropped; `x` for a spent purse; `g`
// for a claim that is back. Without a claim: `i` where there is none now; where the book is closed `v` for an
// invariant of the level, `e` for the run that is worked by hand, `t` for the limit, `x` for a spent purse.
//
// Whether the row comes by itself, or its claim is out while the next row comes (`h`), or the row before is out
// (`w`).
#[derive(Clone, Copy)]
struct Row(char, u32, char, usize, u32, char, char, char);

// An answer that no row has.
const OTHER: char = '?';

// Memory ran out in a settlement, and the frames stayed as they were.
const REFUSED: char = '!';

const ROWS: [Row; 39] = [
    // The latch to an invariant: bit 0 is false in each state that is reached.
    Row('v', 0, 'b', 0, 0, 'c', 'o', ' '),
    Row('v', 0, 'b', 0, 1, 'c', 'b', ' '),
    Row('v', 0, 'b', 0, 1, 'l', 'n', ' '),
    Row('v', 0, 'o', 0, 1, 'p', 'a', ' '),
    Row('v', 0, 'b', 0, 1, 'c', 'o', ' '),
    Row('v', 0, 'p', 0, 2, 'p', 'r', ' '),
    Row('v', 0, ' ', 0, 1, ' ', 'v', ' '),
    // The same by two workers: while one pushes the lemma, the other adds one that covers it.
    Row('u', 0, 'b', 0, 0, 'c', 'o', ' '),
    Row('u', 1, 'b', 0, 1, 'l', 'n', ' '),
    Row('u', 0, 'o', 0, 1, 'p', 'a', ' '),
    Row('u', 1, 'b', 0, 1, 'c', 'o', ' '),
    Row('u', 0, 'p', 0, 2, 'p', 'd', 'h'),
    Row('u', 1, 'o', 0, 2, 'p', 'a', 'w'),
    Row('u', 1, ' ', 0, 1, ' ', 'v', ' '),
    // The register to a limit: bit 2 is false after one step, and not after two.
    Row('t', 0, 'b', 0, 0, 'c', 'o', ' '),
    Row('t', 0, 'b', 0, 1, 'l', 'n', ' '),
    Row('t', 0, 'o', 0, 1, 'p', 'a', ' '),
    Row('t', 0, 'b', 0, 1, 'c', 'o', ' '),
    Row('t', 0, 'p', 0, 2, 's', 'f', ' '),
    Row('t', 0, ' ', 0, 0, ' ', 't', ' '),
    // The register to a run: two steps lead from an initial state to the bad one.
    Row('e', 0, 'b', 0, 0, 'c', 'o', ' '),
    Row('e', 0, 'b', 0, 1, 'l', 'n', ' '),
    Row('e', 0, 'o', 0, 1, 'p', 'a', ' '),
    Row('e', 0, 'b', 0, 1, 'c', 'o', ' '),
    Row('e', 0, 'p', 0, 2, 's', 'f', ' '),
    Row('e', 0, 'o', 0, 2, 'm', 'n', ' '),
    Row('e', 0, 'o', 1, 1, 'f', 'n', ' '),
    Row('e', 0, ' ', 0, 0, ' ', 'e', ' '),
    // The same by two workers: one blocks the obligation while the other pushes the lemma.
    Row('w', 0, 'b', 0, 0, 'c', 'o', ' '),
    Row('w', 1, 'b', 0, 1, 'l', 'n', ' '),
    Row('w', 0, 'o', 0, 1, 'p', 'a', ' '),
    Row('w', 1, 'b', 0, 1, 'c', 'o', ' '),
    Row('w', 0, 'p', 0, 2, 's', 'f', 'h'),
    Row('w', 1, 'o', 0, 2, 'm', 'n', 'w'),
    Row('w', 1, 'o', 1, 1, 'f', 'n', ' '),
    // The register: a claim is given back; one is out while there is none for another worker; and its purse is spent.
    Row('x', 0, 'b', 0, 0, 'g', 'g', ' '),
    Row('x', 1, 'b', 0, 0, 'x', 'x', 'h'),
    Row('x', 2, ' ', 0, 0, ' ', 'i', 'w'),
    Row('x', 2, ' ', 0, 0, ' ', 'x', ' '),
];

// The name of a play, whether it is over the latch, its limit, and how many entries its history has in the end.
#[derive(Clone, Copy)]
struct Play(char, bool, u8, usize);

const PLAYS: [Play; 6] = [
    Play('v', true, 2, 12),
    Play('u', true, 2, 12),
    Play('t', false, 1, 10),
    Play('e', false, 5, 14),
    Play('w', false, 5, 14),
    Play('x', false, 2, 4),
];

fn subject_of(row: &Row) -> Subject {
    match row.2 {
        'b' => Subject::Bad(row.3),
        'o' => Subject::Block(row.3),
        _ => Subject::Push(row.3),
    }
}

fn is_row(claim: &Claim, row: &Row) -> bool {
    claim.worker() == row.1 && claim.level() == row.4 && claim.subject() == subject_of(row)
}

fn spent<'a>() -> ClaimOutcome<'a>
    ensures { result ≡ Spent 1 1 }
{
    ClaimOutcome::Spent {
        drawn: 1,
        budget: 1,
    }
}

// What is shown for a claim on the latch.
fn of_latch<'a>(
    alloc: Global,
    system: &'a System,
    row: &Row,
) -> Result<ClaimOutcome<'a>, AllocError>
    requires { system.now ≡ latch }
    ensures { IfOk result (IsOf system.now) }
{
    match row.5 {
        'c' => Ok(ClaimOutcome::Clear(clear(alloc, system, row.4)?)),
        'l' => Ok(ClaimOutcome::Found(latch_last(alloc, system)?)),
        'p' if row.4 > 0 => Ok(ClaimOutcome::Proved(over_itself(alloc, system, row.4)?)),
        _ => Ok(spent()),
    }
}

// What is shown for a claim on the register.
fn of_register<'a>(
    alloc: Global,
    system: &'a System,
    row: &Row,
) -> Result<ClaimOutcome<'a>, AllocError>
    requires { system.now ≡ register }
    ensures { IfOk result (IsOf system.now) }
{
    match row.5 {
        'c' => Ok(ClaimOutcome::Clear(high_clear(alloc, system, row.4)?)),
        'l' => Ok(ClaimOutcome::Found(last_state(alloc, system)?)),
        'm' => Ok(ClaimOutcome::Found(middle_state(alloc, system)?)),
        'f' => Ok(ClaimOutcome::Found(first_state(alloc, system)?)),
        'p' => Ok(ClaimOutcome::Proved(high_proof(alloc, system)?)),
        's' => Ok(ClaimOutcome::Step(high_step(alloc, system)?)),
        _ => Ok(spent()),
    }
}

fn outcome_of<'a>(
    alloc: Global,
    system: &'a System,
    is_latch: bool,
    row: &Row,
) -> Result<ClaimOutcome<'a>, AllocError>
    requires { system.now ≡ played is_latch }
    ensures { IfOk result (IsOf system.now) }
{
    if is_latch {
        of_latch(alloc, system, row)
    } else {
        of_register(alloc, system, row)
    }
}

// Whether these values make the clause false; not where memory runs out.
fn is_unmet(alloc: Global, clause: &[Lit], values: &Bits) -> bool
    ensures { IsTrue result → ClauseTrue (assignment_of values.now) clause.now → ⊥ }
{
    if !is_within(clause, values.len()) {
        return false;
    }
    match Clause::from_slice(alloc, clause) {
        Ok(copy) => !met(&copy, values),
        Err(_) => false,
    }
}

// Whether the step that was found, of three bits, ends in the state of the claim.
#[tactic(auto, using(crate::proofs::OfPlays::three_next))]
fn ends_in(system: &System, found: &StateWitness, values: &Bits) -> bool
    requires { found.now.system ≡ system.now }
    ensures { IsTrue result → EndsIn found.now values.now }
{
    let from = found.values();
    if system.state_bits() != 3 || from.len() != 6 || values.len() != 6 {
        return false;
    }
    from.get(3) == values.get(0) && from.get(4) == values.get(1) && from.get(5) == values.get(2)
}

// Whether the step leads out of the claim's clause, which says that bit 2 is false.
#[tactic(auto, using(crate::proofs::OfPlays::leaves_high))]
fn leaves(system: &System, step: &Step, claim: &Claim) -> bool
    requires { step.now.system ≡ system.now }
    ensures { IsTrue result → Leaves step.now claim.now }
{
    let values = step.values();
    if system.state_bits() != 3 || values.len() != 6 {
        return false;
    }
    values.get(5) && is_same_clause(claim.clause(), &[no(2)])
}

#[tactic(auto, using(crate::proofs::OfPlays::same_as))]
fn suits_proof(alloc: Global, system: &System, claim: &Claim, proved: &Proved) -> bool
    requires { proved.now.system ≡ system.now }
    ensures { IsTrue result → IsProofFor (system.now ∷ []) claim.now claim.now.subject proved.now }
{
    if proved.level() != claim.level() {
        return false;
    }
    match claim.subject() {
        Subject::Bad(_) => false,
        Subject::Block(_) => is_unmet(alloc, proved.clause(), claim.values()),
        Subject::Push(_) => is_same_clause(proved.clause(), claim.clause()),
    }
}

#[tactic(auto, using(crate::proofs::OfPlays::same_as))]
fn suits_found(system: &System, claim: &Claim, found: &StateWitness) -> bool
    requires { found.now.system ≡ system.now }
    ensures { IsTrue result → IsFoundFor (system.now ∷ []) claim.now claim.now.subject found.now }
{
    match claim.subject() {
        Subject::Bad(j) => j == 0 && !found.is_step(),
        Subject::Block(_) => found.is_step() && ends_in(system, found, claim.values()),
        Subject::Push(_) => false,
    }
}

#[tactic(auto, using(crate::proofs::OfPlays::same_as))]
fn suits_step(system: &System, claim: &Claim, step: &Step) -> bool
    requires { step.now.system ≡ system.now }
    ensures { IsTrue result → IsStepFor (system.now ∷ []) claim.now claim.now.subject step.now }
{
    match claim.subject() {
        Subject::Bad(_) => false,
        Subject::Block(_) => false,
        Subject::Push(_) => leaves(system, step, claim),
    }
}

#[tactic(auto, using(crate::proofs::OfPlays::same_as))]
fn suits_clear(system: &System, claim: &Claim, clear: &Clear) -> bool
    requires { clear.now.system ≡ system.now }
    ensures { IsTrue result → IsClearFor (system.now ∷ []) claim.now claim.now.subject clear.now }
{
    match claim.subject() {
        Subject::Bad(j) => j == 0 && clear.level() == claim.level(),
        Subject::Block(_) => false,
        Subject::Push(_) => false,
    }
}

// Whether the outcome is one of this claim on the system.
fn suits(alloc: Global, system: &System, claim: &Claim, outcome: &ClaimOutcome) -> bool
    requires { IsOf system.now outcome.now }
    ensures { IsTrue result → IsOutcomeOf (system.now ∷ []) claim.now claim.now.subject outcome.now }
{
    match outcome {
        ClaimOutcome::Proved(proved) => suits_proof(alloc, system, claim, proved),
        ClaimOutcome::Step(step) => suits_step(system, claim, step),
        ClaimOutcome::Found(found) => suits_found(system, claim, found),
        ClaimOutcome::Clear(clear) => suits_clear(system, claim, clear),
        ClaimOutcome::Spent { .. } => true,
    }
}

fn told_of_change(change: &Change) -> char {
    match change {
        Change::Open(_) => 'o',
        Change::Note { .. } => 'n',
        Change::Add { .. } => 'a',
        Change::Raise { .. } => 'r',
        Change::PushFailed { .. } => 'f',
        Change::Behind(_) => 'b',
        Change::Dropped => 'd',
        Change::Limit(_) => 't',
        Change::Spent => 'x',
        _ => OTHER,
    }
}

fn changes_of(entry: &Entry) -> &[Change] {
    match entry {
        Entry::Settle {
            worker: _,
            claim: _,
            changes,
        } => changes.as_slice(),
        _ => &[],
    }
}

// The first change of the claim that was settled last.
fn first_change(history: &[Entry]) -> char {
    match history.last() {
        Some(entry) => match changes_of(entry).first() {
            Some(change) => told_of_change(change),
            None => OTHER,
        },
        None => OTHER,
    }
}

// The last change of the claim that was settled last.
fn last_change(history: &[Entry]) -> char {
    match history.last() {
        Some(entry) => match changes_of(entry).last() {
            Some(change) => told_of_change(change),
            None => OTHER,
        },
        None => OTHER,
    }
}

// How a closed book ended.
fn end_of<L: Ledger>(alloc: Global, book: &Book<L>, row: &Row) -> Result<char, AllocError> {
    match verdict(book.frames()) {
        Some(FramesVerdict::Invariant(level)) => Ok(if level == row.4 { 'v' } else { OTHER }),
        Some(FramesVerdict::Reached(_)) => Ok(if has_the_run(alloc, book.frames())? {
            'e'
        } else {
            OTHER
        }),
        None => Ok(last_change(book.history())),
    }
}

// Takes the claim back.
fn take_back<L: Ledger>(book: &mut Book<L>, claim: Claim) -> char
    ensures { book.new.systems ≡ book.old.systems }
{
    match book.give_back(claim) {
        Returning::Back => 'g',
        Returning::NotOut(_) => OTHER,
    }
}

// Takes back a claim that is not as it should be.
fn refuse<L: Ledger>(book: &mut Book<L>, claim: Claim) -> char
    ensures { book.new.systems ≡ book.old.systems }
{
    take_back(book, claim);
    OTHER
}

// Takes a claim back that found no memory, where the frames have as many lemmas and obligations as before.
fn take_back_from<L: Ledger>(
    book: &mut Book<L>,
    unsettled: Unsettled,
    lemmas: usize,
    obligations: usize,
) -> char
    ensures { book.new.systems ≡ book.old.systems }
{
    let Unsettled { claim, outcome } = unsettled;
    drop(outcome);
    let frames = book.frames();
    let same = frames.lemmas() == lemmas && frames.obligations() == obligations;
    if take_back(book, claim) == 'g' && same {
        REFUSED
    } else {
        OTHER
    }
}

// What comes of a claim with an outcome that suits it.
fn settle<'a, L: Ledger>(
    system: &'a System,
    book: &mut Book<'a, L>,
    share: &mut Share<L>,
    claim: Claim,
    outcome: ClaimOutcome<'a>,
) -> char
    requires outcome { IsOutcomeOf (system.now ∷ []) claim claim.subject outcome }
    requires systems { book.old.systems ≡ system.now ∷ [] }
    requires part { 0 < share.old.parts }
    ensures systems { book.new.systems ≡ book.old.systems }
    ensures parts { share.new.parts ≡ share.old.parts }
{
    let lemmas = book.frames().lemmas();
    let obligations = book.frames().obligations();
    match book.settle(claim, outcome, share) {
        Ok(Settling::Settled) => first_change(book.history()),
        Ok(Settling::NotOut(_)) => OTHER,
        Err(unsettled) => take_back_from(book, unsettled, lemmas, obligations),
    }
}

fn settle_if_it_suits<'a, L: Ledger>(
    alloc: Global,
    system: &'a System,
    book: &mut Book<'a, L>,
    share: &mut Share<L>,
    claim: Claim,
    outcome: ClaimOutcome<'a>,
) -> char
    requires of { IsOf system.now outcome }
    requires systems { book.old.systems ≡ system.now ∷ [] }
    requires part { 0 < share.old.parts }
    ensures systems { book.new.systems ≡ book.old.systems }
    ensures parts { share.new.parts ≡ share.old.parts }
{
    if suits(alloc, system, &claim, &outcome) {
        settle(system, book, share, claim, outcome)
    } else {
        drop(outcome);
        refuse(book, claim)
    }
}

// What comes of the claim, if it is that of the row.
fn told_of_claim<'a, L: Ledger>(
    alloc: Global,
    system: &'a System,
    is_latch: bool,
    book: &mut Book<'a, L>,
    share: &mut Share<L>,
    row: &Row,
    claim: Claim,
) -> char
    requires played { system.now ≡ played is_latch }
    requires systems { book.old.systems ≡ system.now ∷ [] }
    requires part { 0 < share.old.parts }
    ensures systems { book.new.systems ≡ book.old.systems }
    ensures parts { share.new.parts ≡ share.old.parts }
{
    if !is_row(&claim, row) {
        return refuse(book, claim);
    }
    if row.5 == 'g' {
        return take_back(book, claim);
    }
    match outcome_of(alloc, system, is_latch, row) {
        Ok(outcome) => settle_if_it_suits(alloc, system, book, share, claim, outcome),
        Err(_) => refuse(book, claim),
    }
}

// What comes of the worker that asks for a task.
fn told<'a, L: Ledger>(
    alloc: Global,
    system: &'a System,
    is_latch: bool,
    book: &mut Book<'a, L>,
    share: &mut Share<L>,
    row: &Row,
) -> Result<char, AllocError>
    requires played { system.now ≡ played is_latch }
    requires systems { book.old.systems ≡ system.now ∷ [] }
    requires part { 0 < share.old.parts }
    ensures systems { book.new.systems ≡ book.old.systems }
    ensures parts { share.new.parts ≡ share.old.parts }
{
    match book.claim(row.1)? {
        Claiming::Task(claim) => {
            Ok(told_of_claim(alloc, system, is_latch, book, share, row, claim))
        }
        Claiming::Idle => Ok('i'),
        Claiming::Closed => end_of(alloc, book, row),
    }
}

// Whether the row comes as it says. Where a settlement found no memory it is tried once more.
fn comes<'a, L: Ledger>(
    alloc: Global,
    system: &'a System,
    is_latch: bool,
    book: &mut Book<'a, L>,
    share: &mut Share<L>,
    row: &Row,
) -> Result<bool, AllocError>
    requires played { system.now ≡ played is_latch }
    requires systems { book.old.systems ≡ system.now ∷ [] }
    requires part { 0 < share.old.parts }
    ensures systems { book.new.systems ≡ book.old.systems }
    ensures parts { share.new.parts ≡ share.old.parts }
{
    let first = told(alloc, system, is_latch, book, share, row)?;
    if first != REFUSED {
        return Ok(first == row.6);
    }
    let second = told(alloc, system, is_latch, book, share, row)?;
    Ok(second == row.6)
}

// Whether the next row comes while this one's claim is out, and then this one as it says.
fn comes_around<'a, L: Ledger>(
    alloc: Global,
    system: &'a System,
    is_latch: bool,
    book: &mut Book<'a, L>,
    share: &mut Share<L>,
    row: &Row,
    next: &Row,
) -> Result<bool, AllocError>
    requires played { system.now ≡ played is_latch }
    requires systems { book.old.systems ≡ system.now ∷ [] }
    requires part { 0 < share.old.parts }
    ensures systems { book.new.systems ≡ book.old.systems }
    ensures parts { share.new.parts ≡ share.old.parts }
{
    match book.claim(row.1)? {
        Claiming::Task(claim) => {
            let within = comes(alloc, system, is_latch, book, share, next);
            let told = told_of_claim(alloc, system, is_latch, book, share, row, claim);
            Ok(within? && told == row.6)
        }
        Claiming::Idle => Ok(false),
        Claiming::Closed => Ok(false),
    }
}

// Whether the row comes as it says; one whose claim is out while the next one comes, with that one.
fn is_right<'a, L: Ledger>(
    alloc: Global,
    system: &'a System,
    is_latch: bool,
    book: &mut Book<'a, L>,
    share: &mut Share<L>,
    row: &Row,
    next: Option<&Row>,
) -> Result<bool, AllocError>
    requires played { system.now ≡ played is_latch }
    requires systems { book.old.systems ≡ system.now ∷ [] }
    requires part { 0 < share.old.parts }
    ensures systems { book.new.systems ≡ book.old.systems }
    ensures parts { share.new.parts ≡ share.old.parts }
{
    if row.7 == 'w' {
        return Ok(true);
    }
    match next {
        Some(next) if row.7 == 'h' => {
            comes_around(alloc, system, is_latch, book, share, row, next)
        }
        _ => comes(alloc, system, is_latch, book, share, row),
    }
}

// The first row of the play that does not come as it says.
fn wrong_in<'a, L: Ledger>(
    alloc: Global,
    system: &'a System,
    play: &Play,
    book: &mut Book<'a, L>,
    share: &mut Share<L>,
) -> Result<Option<usize>, AllocError>
    requires played { system.now ≡ played play.now.1 }
    requires systems { book.old.systems ≡ system.now ∷ [] }
    requires part { 0 < share.old.parts }
{
    'rows: for k in 0..ROWS.len() {
        let row = &ROWS[k];
        let next = ROWS.get(k + 1);
        if row.0 == play.0 && !is_right(alloc, system, play.1, book, share, row, next)? {
            return Ok(Some(k));
        }
    }
    Ok(None)
}

// A book of the system with this limit.
fn open<'a, L: Ledger>(
    alloc: Global,
    system: &'a System,
    frames: u32,
    ledger: ledger::Book<L>,
) -> Result<Book<'a, L>, AllocError>
    requires limit { frames < 256 }
    requires total { ledger.total ≡ 0 }
    ensures { IfOk result (λ b. b.systems ≡ system.now ∷ []) }
{
    let limits = Limits { frames };
    let frames = Frames::of_one(alloc, system)?;
    Book::new(alloc, frames, limits, ledger)
}

// The same of a new book; the number of rows where it has not as many entries in the end.
fn wrong_over<L: Ledger>(
    alloc: Global,
    system: &System,
    play: &Play,
    blank: Blank,
) -> Result<Option<usize>, AllocError>
    requires played { system.now ≡ played play.now.1 }
    requires name { blank.name ≡ L.name }
    requires parts { blank.parts ≡ L.parts }
    requires some { 0 < blank.parts }
{
    let (ledger, mut share) = blank.open::<L>();
    let mut book = open(alloc, system, u32::from(play.2), ledger)?;
    let wrong = wrong_in(alloc, system, play, &mut book, &mut share);
    let as_many = entries(book) == play.3;
    match wrong? {
        None if !as_many => Ok(Some(ROWS.len())),
        wrong => Ok(wrong),
    }
}

// How many entries the book has.
fn entries<L: Ledger>(book: Book<L>) -> usize {
    let parts = book.into_parts();
    let entries = parts.history.len();
    drop(parts);
    entries
}

fn system_of(alloc: Global, is_latch: bool) -> Result<System, AllocError>
    ensures { IfOk result (λ s. s ≡ played is_latch) }
{
    if is_latch {
        latch_system(alloc)
    } else {
        register_system(alloc)
    }
}

fn wrong_of(alloc: Global, play: &Play) -> Result<Option<usize>, AllocError> {
    let system = system_of(alloc, play.1)?;
    let wrong = wrong_over::<Brand>(alloc, &system, play, Blank::new(1));
    drop(system);
    wrong
}

// The first row that does not come as it says.
fn first_wrong(alloc: Global) -> Result<Option<usize>, AllocError> {
    'plays: for play in &PLAYS {
        if let Some(row) = wrong_of(alloc, play)? {
            return Ok(Some(row));
        }
    }
    Ok(None)
}

#[test]
fn each_row_comes_as_it_is_worked_by_hand(rt: HostRuntime) -> Result<(), Fail> {
    assert_eq!(rt; first_wrong(rt.alloc())?, None);
    Ok(())
}

// Whether the claim of the first book is not out in the second, where nothing is entered, and stays out in the first.
fn is_not_out<L: Ledger, M: Ledger>(
    first: &mut Book<L>,
    second: &mut Book<M>,
    share: &mut Share<M>,
    claim: Claim,
) -> bool
    requires { 0 < share.old.parts }
{
    match second.settle(claim, spent(), share) {
        Ok(settling) => {
            settling == Settling::NotOut(0) && second.history().is_empty() && is_idle(first)
        }
        Err(unsettled) => {
            take_back_from(first, unsettled, 0, 0);
            false
        }
    }
}

// Whether there is no task now.
fn is_idle<L: Ledger>(book: &mut Book<L>) -> bool {
    match book.claim(0) {
        Ok(Claiming::Idle) => true,
        Ok(Claiming::Closed) => false,
        Ok(Claiming::Task(claim)) => {
            refuse(book, claim);
            false
        }
        Err(_) => false,
    }
}

fn is_refused<L: Ledger, M: Ledger>(
    first: &mut Book<L>,
    second: &mut Book<M>,
    share: &mut Share<M>,
) -> Result<bool, AllocError>
    requires { 0 < share.old.parts }
{
    match first.claim(0)? {
        Claiming::Task(claim) => Ok(is_not_out(first, second, share, claim)),
        Claiming::Idle => Ok(false),
        Claiming::Closed => Ok(false),
    }
}

fn is_refused_by_another<L: Ledger, M: Ledger>(
    alloc: Global,
    system: &System,
    first: &mut Book<L>,
    blank: Blank,
) -> Result<bool, AllocError>
    requires name { blank.name ≡ M.name }
    requires parts { blank.parts ≡ M.parts }
    requires some { 0 < blank.parts }
{
    let (ledger, mut share) = blank.open::<M>();
    let mut second = open(alloc, system, 1, ledger)?;
    let refused = is_refused(first, &mut second, &mut share);
    drop(second);
    refused
}

fn are_apart<L: Ledger>(alloc: Global, system: &System, blank: Blank) -> Result<bool, AllocError>
    requires name { blank.name ≡ L.name }
    requires parts { blank.parts ≡ L.parts }
{
    let (ledger, _share) = blank.open::<L>();
    let mut first = open(alloc, system, 1, ledger)?;
    let refused = is_refused_by_another::<L, Brand>(alloc, system, &mut first, Blank::new(1));
    drop(first);
    refused
}

// Whether a second book of the same system refuses a claim of the first.
fn two_are_apart(alloc: Global) -> Result<bool, AllocError> {
    let system = latch_system(alloc)?;
    let apart = are_apart::<Brand>(alloc, &system, Blank::new(1));
    drop(system);
    apart
}

#[test]
fn a_claim_of_another_book_is_refused(rt: HostRuntime) -> Result<(), Fail> {
    assert!(rt; two_are_apart(rt.alloc())?);
    Ok(())
}
