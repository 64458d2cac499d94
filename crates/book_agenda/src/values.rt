//! States that do not meet clauses (Bradley 2011). Most that meet one are told by tables of literals, 64 at a time.

ghost use Rattle.std.specs.Prelude.{◌≡◌, ◌↔◌, ◌<◌, ◌≤◌, ◌+◌, ◌*◌, ◌^◌, ◌++◌, ◌∷◌, [], ℕ, length, slice_index_or, vec_len, vec_capacity, true, false, IsTrue};
ghost use Rattle.std.specs.Int.{bit_at};
ghost use Rattle.clause_core.specs.Assignments.{ClauseTrue, assignment_of};
ghost use Rattle.frame_core.specs.FrameLaw.{MeetsFrom, lemma_at, obligation_at};
ghost use Rattle.book_agenda.specs.Tables.{HoldsClauses, HoldsStates};
ghost use Rattle.book_agenda.specs.Values.{IsBlockedLive, IsBlockedTo, MeetsAt, MeetsLive, IsLifted, AreFloors, AreMetBelow, blocked_at};

use crate::literal_table::{LiteralTable, is_set};
use clause_core::Lit;
use frame_core::{Frames, Lemma, Lemmas};

fn value_of(values: &[bool], var: usize) -> bool
    ensures { result ≡ assignment_of values.now var }
{
    if var < values.len() {
        values[var]
    } else {
        false
    }
}

// Whether these values make one of the literals true; past their end they are false.
fn is_true(clause: &[Lit], values: &[bool]) -> bool
    ensures { IsTrue result ↔ ClauseTrue (assignment_of values.now) clause.now }
{
    for l in clause {
        if value_of(values, l.var) == l.positive {
            return true;
        }
    }
    false
}

// How many parts of 64 are looked at for so many lemmas.
fn parts_of(count: usize) -> usize
    ensures enough { count ≤ result * 64 }
    ensures tight { (c : ℕ) → c < result → c * 64 + 64 ≤ 2 ^ 64 }
{
    count / 64 + 1
}

// The greatest level of a live lemma that the state does not meet, 0 where it meets them all.
fn blocked_live(lemmas: &Lemmas, clauses: &LiteralTable, values: &[bool]) -> u32
    requires { HoldsClauses lemmas.now clauses.now }
    ensures { IsBlockedLive lemmas.now (length lemmas.now) result (assignment_of values.now) }
{
    let mut level = 0;
    'parts: for c in 0..parts_of(lemmas.len()) {
        level = blocked_part(level, lemmas, clauses, c, values);
    }
    level
}

// The level to which the state is blocked with the lemmas of part `c` too. Those are passed over of which the table
// tells that the state meets them.
fn blocked_part(
    level: u32,
    lemmas: &Lemmas,
    clauses: &LiteralTable,
    c: usize,
    values: &[bool],
) -> u32
    requires table { HoldsClauses lemmas.now clauses.now }
    requires part { c * 64 + 64 ≤ 2 ^ 64 }
    requires before { IsBlockedLive lemmas.now (c * 64) level (assignment_of values.now) }
    ensures { IsBlockedLive lemmas.now (c * 64 + 64) result (assignment_of values.now) }
{
    let met = clauses.having_value(c, values);
    if met == u64::MAX {
        level
    } else {
        blocked_rows(level, lemmas, c * 64, met, values)
    }
}

// The same for the 64 lemmas from `begin` on, of which those are met whose bits are set.
fn blocked_rows(level: u32, lemmas: &Lemmas, begin: usize, met: u64, values: &[bool]) -> u32
    requires met { (b : ℕ) → b < 64 → bit_at met b ≡ 1 → ClauseTrue (assignment_of values.now) (lemma_at lemmas.now (begin + b)).clause }
    requires part { begin + 64 ≤ 2 ^ 64 }
    requires before { IsBlockedLive lemmas.now begin level (assignment_of values.now) }
    ensures { IsBlockedLive lemmas.now (begin + 64) result (assignment_of values.now) }
{
    let mut now = level;
    'rows: for b in 0..64 {
        now = blocked_row(now, lemmas, begin + b, is_set(met, b), values);
    }
    now
}

// The level to which the state is blocked with lemma `n` too, if there is one.
fn blocked_row(level: u32, lemmas: &Lemmas, n: usize, met: bool, values: &[bool]) -> u32
    requires met { met ≡ true → ClauseTrue (assignment_of values.now) (lemma_at lemmas.now n).clause }
    requires before { IsBlockedLive lemmas.now n level (assignment_of values.now) }
    ensures { IsBlockedLive lemmas.now (n + 1) result (assignment_of values.now) }
{
    if met {
        level
    } else if n < lemmas.len() {
        lifted_live(level, lemmas.lemma(n), values)
    } else {
        level
    }
}

/// The greatest level of a lemma that the state does not meet, 0 where it meets them all. Retired lemmas are passed
/// over, since a live one covers each of them. Takes no memory.
pub(crate) fn blocked_to(frames: &Frames, clauses: &LiteralTable, values: &[bool]) -> u32
    requires { HoldsClauses frames.now.lemmas clauses.now }
    ensures { IsBlockedTo frames.now.lemmas result (assignment_of values.now) }
{
    blocked_live(frames.all_lemmas(), clauses, values)
}

// Whether the state meets each live lemma of this level or more.
fn meets_live(lemmas: &Lemmas, clauses: &LiteralTable, level: u32, values: &[bool]) -> bool
    requires { HoldsClauses lemmas.now clauses.now }
    ensures { IsTrue result ↔ MeetsLive lemmas.now level (assignment_of values.now) }
{
    'parts: for c in 0..parts_of(lemmas.len()) {
        if !meets_part(lemmas, clauses, c, level, values) {
            return false;
        }
    }
    true
}

// The same of the lemmas of part `c` alone.
fn meets_part(
    lemmas: &Lemmas,
    clauses: &LiteralTable,
    c: usize,
    level: u32,
    values: &[bool],
) -> bool
    requires table { HoldsClauses lemmas.now clauses.now }
    requires part { c * 64 + 64 ≤ 2 ^ 64 }
    ensures { IsTrue result ↔ ((b : ℕ) → b < 64 → MeetsAt (lemma_at lemmas.now (c * 64 + b)) level (assignment_of values.now)) }
{
    let met = clauses.having_value(c, values);
    met == u64::MAX || meets_rows(lemmas, c * 64, met, level, values)
}

// The same of the 64 lemmas from `begin` on, of which those are met whose bits are set.
fn meets_rows(lemmas: &Lemmas, begin: usize, met: u64, level: u32, values: &[bool]) -> bool
    requires met { (b : ℕ) → b < 64 → bit_at met b ≡ 1 → ClauseTrue (assignment_of values.now) (lemma_at lemmas.now (begin + b)).clause }
    requires part { begin + 64 ≤ 2 ^ 64 }
    ensures { IsTrue result ↔ ((b : ℕ) → b < 64 → MeetsAt (lemma_at lemmas.now (begin + b)) level (assignment_of values.now)) }
{
    'rows: for b in 0..64 {
        if !meets_row(lemmas, begin + b, is_set(met, b), level, values) {
            return false;
        }
    }
    true
}

// The same of lemma `n`, if there is one.
fn meets_row(lemmas: &Lemmas, n: usize, met: bool, level: u32, values: &[bool]) -> bool
    requires { met ≡ true → ClauseTrue (assignment_of values.now) (lemma_at lemmas.now n).clause }
    ensures { IsTrue result ↔ MeetsAt (lemma_at lemmas.now n) level (assignment_of values.now) }
{
    met || n >= lemmas.len() || meets_at(level, lemmas.lemma(n), values)
}

/// Whether the state meets each lemma of this level or more. It ends at the first live one that it does not meet.
/// Retired lemmas are passed over, since a live one covers each of them. Takes no memory.
pub(crate) fn meets_from(
    frames: &Frames,
    clauses: &LiteralTable,
    level: u32,
    values: &[bool],
) -> bool
    requires { HoldsClauses frames.now.lemmas clauses.now }
    ensures { IsTrue result ↔ MeetsFrom frames.now.lemmas level (assignment_of values.now) }
{
    meets_live(frames.all_lemmas(), clauses, level, values)
}

// Whether the lemma is retired or below the level, or the state meets it.
fn meets_at(level: u32, lemma: &Lemma, values: &[bool]) -> bool
    ensures { IsTrue result ↔ MeetsAt lemma.now level (assignment_of values.now) }
{
    !lemma.live || lemma.level < level || is_true(lemma.clause.as_slice(), values)
}

// The level to which the state is blocked with this lemma too, if it is live.
fn lifted_live(level: u32, lemma: &Lemma, values: &[bool]) -> u32
    ensures live { lemma.now.live ≡ true → IsLifted lemma.now (assignment_of values.now) level result }
    ensures retired { lemma.now.live ≡ false → result ≡ level }
{
    if lemma.live {
        lifted(level, lemma, values)
    } else {
        level
    }
}

// The level to which the state is blocked with this lemma too.
fn lifted(level: u32, lemma: &Lemma, values: &[bool]) -> u32
    ensures { IsLifted lemma.now (assignment_of values.now) level result }
{
    if level < lemma.level && !is_true(lemma.clause.as_slice(), values) {
        lemma.level
    } else {
        level
    }
}

fn least(a: u32, b: u32) -> u32
    ensures { (result ≤ a) × (result ≤ b) }
{
    if a < b { a } else { b }
}

// The level to which obligation `o` is blocked with lemma `n` too, which is met by each state that is blocked
// below level `from`, and by this one where `meets` says so.
fn lifted_at(blocked: &[u32], frames: &Frames, n: usize, from: u32, o: usize, meets: bool) -> u32
    requires lemma { n < length frames.now.lemmas }
    requires meets { meets ≡ true → ClauseTrue (assignment_of (obligation_at frames.now.obligations o).values) (lemma_at frames.now.lemmas n).clause }
    requires as_many { length blocked.now ≡ length frames.now.obligations }
    requires met { AreMetBelow frames.now n from blocked.now }
    requires in_range { o < length blocked.now }
    ensures { IsLifted (lemma_at frames.now.lemmas n) (assignment_of (obligation_at frames.now.obligations o).values) (blocked_at blocked.now o) result }
{
    let level = blocked[o];
    if meets || level < from {
        return level;
    }
    lifted(
        level,
        frames.lemma(n),
        frames.obligation(o).values.as_slice(),
    )
}

// Brings the levels to which the obligations from `begin` to `end` are blocked up to date with lemma `n`, and
// says the least of them. Those meet the lemma whose bits are set.
fn lift_between(
    blocked: &mut Vec<u32>,
    frames: &Frames,
    n: usize,
    from: u32,
    begin: usize,
    end: usize,
    met: u64,
) -> u32
    requires lemma { n < length frames.now.lemmas }
    requires as_many { length blocked.old.items ≡ length frames.now.obligations }
    requires met { AreMetBelow frames.now n from blocked.old.items }
    requires end { (begin ≤ end) × (end ≤ length blocked.old.items) × (end ≤ begin + 64) }
    requires each { (b : ℕ) → b < 64 → bit_at met b ≡ 1 → ClauseTrue (assignment_of (obligation_at frames.now.obligations (begin + b)).values) (lemma_at frames.now.lemmas n).clause }
    ensures length { length blocked.new.items ≡ length blocked.old.items }
    ensures each { (o : ℕ) → begin ≤ o → o < end → IsLifted (lemma_at frames.now.lemmas n) (assignment_of (obligation_at frames.now.obligations o).values) (blocked_at blocked.old.items o) (blocked_at blocked.new.items o) }
    ensures before { (o : ℕ) → o < begin → blocked_at blocked.new.items o ≡ blocked_at blocked.old.items o }
    ensures behind { (o : ℕ) → end ≤ o → blocked_at blocked.new.items o ≡ blocked_at blocked.old.items o }
    ensures floor { (o : ℕ) → begin ≤ o → o < end → result ≤ blocked_at blocked.new.items o }
{
    let mut floor = u32::MAX;
    for o in begin..end {
        let level = lifted_at(blocked, frames, n, from, o, is_set(met, o - begin));
        blocked[o] = level;
        floor = least(floor, level);
    }
    floor
}

// The same for part `c` of the obligations, if one of them may be blocked below the lemma's level, and the table does
// not tell that all of them meet it.
fn lift_part(
    blocked: &mut Vec<u32>,
    floors: &mut Vec<u32>,
    frames: &Frames,
    states: &LiteralTable,
    n: usize,
    from: u32,
    c: usize,
)
    requires lemma { n < length frames.now.lemmas }
    requires as_many { length blocked.old.items ≡ length frames.now.obligations }
    requires floors { AreFloors floors.old.items blocked.old.items }
    requires part { c < length floors.old.items }
    requires table { HoldsStates frames.now.obligations states.now }
    requires met { AreMetBelow frames.now n from blocked.old.items }
    ensures length { length blocked.new.items ≡ length blocked.old.items }
    ensures parts { length floors.new.items ≡ length floors.old.items }
    ensures floors { AreFloors floors.new.items blocked.new.items }
    ensures each { (o : ℕ) → c * 64 ≤ o → o < c * 64 + 64 → o < length blocked.old.items → IsLifted (lemma_at frames.now.lemmas n) (assignment_of (obligation_at frames.now.obligations o).values) (blocked_at blocked.old.items o) (blocked_at blocked.new.items o) }
    ensures before { (o : ℕ) → o < c * 64 → blocked_at blocked.new.items o ≡ blocked_at blocked.old.items o }
    ensures behind { (o : ℕ) → c * 64 + 64 ≤ o → blocked_at blocked.new.items o ≡ blocked_at blocked.old.items o }
{
    if floors[c] < frames.lemma(n).level {
        let met = states.having(c, frames.lemma(n).clause.as_slice());
        if met != u64::MAX {
            let begin = c * 64;
            let end = end_of(begin, blocked.len());
            floors[c] = lift_between(blocked, frames, n, from, begin, end, met);
        }
    }
}

// Where the part ends that begins here, of so many obligations.
fn end_of(begin: usize, count: usize) -> usize
    requires { begin < count }
    ensures begin { begin ≤ result }
    ensures low { result ≤ begin + 64 }
    ensures count { result ≤ count }
    ensures all { (o : ℕ) → o < begin + 64 → o < count → o < result }
{
    if count - begin < 64 {
        count
    } else {
        begin + 64
    }
}

// Brings the levels to which obligations are blocked up to date with lemma `n`, which is met by each state that
// is blocked below level `from`. It looks at those parts of the obligations alone in which one may be blocked
// below the lemma's level, and there at those alone of which the table does not tell that they meet it.
pub(crate) fn lift(
    blocked: &mut Vec<u32>,
    floors: &mut Vec<u32>,
    frames: &Frames,
    states: &LiteralTable,
    n: usize,
    from: u32,
)
    requires lemma { n < length frames.now.lemmas }
    requires as_many { length blocked.old.items ≡ length frames.now.obligations }
    requires floors { AreFloors floors.old.items blocked.old.items }
    requires met { AreMetBelow frames.now n from blocked.old.items }
    requires table { HoldsStates frames.now.obligations states.now }
    ensures length { length blocked.new.items ≡ length blocked.old.items }
    ensures floors { AreFloors floors.new.items blocked.new.items }
    ensures each { (o : ℕ) → o < length blocked.old.items → IsLifted (lemma_at frames.now.lemmas n) (assignment_of (obligation_at frames.now.obligations o).values) (blocked_at blocked.old.items o) (blocked_at blocked.new.items o) }
{
    for c in 0..floors.len() {
        lift_part(blocked, floors, frames, states, n, from, c);
    }
}

// Brings the floors up to date with one obligation more, which is blocked to this level. Takes no memory.
pub(crate) fn lower(floors: &mut Vec<u32>, blocked: &[u32], level: u32)
    requires floors { AreFloors floors.old.items blocked.now }
    requires room { vec_len floors.old < vec_capacity floors.old }
    ensures { AreFloors floors.new.items (blocked.now ++ level ∷ []) }
{
    let last = blocked.len() / 64;
    if last < floors.len() {
        floors[last] = least(floors[last], level);
    } else {
        floors.push_reserved(level);
    }
}

// Adds rows for the lemmas that have none yet, as far as there is memory for them.
pub(crate) fn add_clauses(clauses: &mut LiteralTable, lemmas: &Lemmas)
    requires { HoldsClauses lemmas.now clauses.old }
    ensures { HoldsClauses lemmas.now clauses.new }
{
    for n in clauses.rows()..lemmas.len() {
        if clauses.push(lemmas.lemma(n).clause.as_slice()).is_err() {
            return;
        }
    }
}

// Adds rows for the obligations that have none yet, as far as there is memory for them.
pub(crate) fn add_states(states: &mut LiteralTable, frames: &Frames)
    requires { HoldsStates frames.now.obligations states.old }
    ensures { HoldsStates frames.now.obligations states.new }
{
    for o in states.rows()..frames.obligations() {
        if states
            .push_values(frames.obligation(o).values.as_slice())
            .is_err()
        {
            return;
        }
    }
}
