//! What may be claimed: a policy on the order, and no lawful claim left out (Een, Mishchenko, Brayton 2011,
//! section 5; Bradley 2011, section 4).

ghost use Rattle.std.specs.Prelude.{◌≡◌, ◌⊎◌, ◌↔◌, ◌<◌, ◌≤◌, ◌+◌, ◌*◌, ℕ, length, slice_index_or, false, IsTrue, IsSome, MatchOption, Some, None};
ghost use Rattle.frame_core.specs.Changes.{VerdictSays};
ghost use Rattle.frame_history.specs.declared.entries.Subject.{Subject as ASubject};
ghost use Rattle.frame_book.specs.declared.picking.Task.{Task as ATask};
ghost use Rattle.frame_history.specs.History.{IsDecided, IsClosed, IsOpenTask, IsNew};
ghost use Rattle.frame_core.specs.FrameLaw.{top_at, obligation_at};
ghost use Rattle.frame_history.specs.declared.entries.Subject.TheVariants as asked;
ghost use Rattle.frame_book.specs.Pages.{state_of, AreSane};
ghost use Rattle.frame_book.specs.Picking.{IsOpenSystem, IsOffered, IsNotOffered, HasNoTask, IsGreatest};

use crate::marks::Marks;
use book_agenda::{Levels, Register};
use frame_history::{Limits, Subject};

/// What may be claimed.
#[derive(Clone, Copy)]
pub(crate) struct Task {
    pub(crate) subject: Subject,
    pub(crate) level: u32,
}

// Whether system `j` has its verdict or its limit.
fn is_decided(levels: &Levels, register: &Register, marks: &Marks, j: usize) -> bool
    requires { j < length levels.now.systems }
    ensures value { IsTrue result ↔ IsDecided (state_of levels.now register.now marks.now) j }
    ensures says { result ≡ false → (slice_index_or marks.now.limited j false ≡ false) × VerdictSays levels.now j None }
{
    if marks.is_limited(j) {
        return true;
    }
    match levels.frames().verdict(j) {
        None => false,
        Some(_) => true,
    }
}

/// A system that has neither its verdict nor its limit, where the purse is not spent; none where the history
/// is closed.
pub(crate) fn open_system(levels: &Levels, register: &Register, marks: &Marks) -> Option<usize>
    ensures { MatchOption result (IsClosed (state_of levels.now register.now marks.now)) (IsOpenSystem (state_of levels.now register.now marks.now)) }
{
    if marks.is_spent() {
        return None;
    }
    for j in 0..levels.frames().systems().len() {
        if !is_decided(levels, register, marks, j) {
            return Some(j);
        }
    }
    None
}

// The level at which the top of system `j`, which is not decided, may be asked for bad states.
fn bad_task(
    levels: &Levels,
    register: &Register,
    marks: &Marks,
    limits: Limits,
    j: usize,
) -> Option<u32>
    requires in_range { j < length levels.now.systems }
    requires sane { AreSane levels.now register.now }
    requires undecided { IsDecided (state_of levels.now register.now marks.now) j → ⊥ }
    ensures { MatchOption result (IsNotOffered limits (state_of levels.now register.now marks.now) (asked.Bad j)) (IsOffered limits (state_of levels.now register.now marks.now) (asked.Bad j)) }
{
    let top = levels.frames().top(j);
    if top <= limits.frames && register.is_new(Subject::Bad(j), top) {
        Some(top)
    } else {
        None
    }
}

// The level at which obligation `o`, whose system is not decided, may be blocked.
fn block_task(
    levels: &Levels,
    register: &Register,
    marks: &Marks,
    limits: Limits,
    o: usize,
) -> Option<u32>
    requires in_range { o < length levels.now.obligations }
    requires sane { AreSane levels.now register.now }
    requires undecided { IsDecided (state_of levels.now register.now marks.now) (obligation_at levels.now.obligations o).system → ⊥ }
    ensures { MatchOption result (IsNotOffered limits (state_of levels.now register.now marks.now) (asked.Block o)) (IsOffered limits (state_of levels.now register.now marks.now) (asked.Block o)) }
{
    let _systems = levels.frames().systems();
    let j = levels.frames().obligation(o).system;
    let top = levels.frames().top(j);
    let blocked = levels.blocked(o);
    if top > limits.frames || blocked >= top {
        return None;
    }
    if register.is_new(Subject::Block(o), blocked + 1) {
        Some(blocked + 1)
    } else {
        None
    }
}

// The level to which lemma `n` may be pushed, where `top` is the greatest top.
fn push_task(
    levels: &Levels,
    register: &Register,
    marks: &Marks,
    limits: Limits,
    n: usize,
    top: u32,
) -> Option<u32>
    requires in_range { n < length levels.now.lemmas }
    requires sane { AreSane levels.now register.now }
    requires greatest { IsGreatest levels.now top }
    ensures { MatchOption result (IsNotOffered limits (state_of levels.now register.now marks.now) (asked.Push n)) (IsOffered limits (state_of levels.now register.now marks.now) (asked.Push n)) }
{
    let lemma = levels.frames().lemma(n);
    if lemma.live && lemma.level < top && register.is_new(Subject::Push(n), lemma.level + 1) {
        Some(lemma.level + 1)
    } else {
        None
    }
}

fn higher(a: u32, b: u32) -> u32
    ensures above { (a ≤ result) × (b ≤ result) }
    ensures one { (result ≡ a) ⊎ (result ≡ b) }
{
    if a < b { b } else { a }
}

// The greatest top.
fn greatest_top(levels: &Levels) -> u32
    ensures { IsGreatest levels.now result }
{
    let frames = levels.frames();
    let systems = frames.systems();
    let mut greatest = frames.top(0);
    for j in 1..systems.len() {
        greatest = higher(greatest, frames.top(j));
    }
    greatest
}

// Whether an obligation that is blocked to at least this level is no better than the best task so far, which is
// a newer one.
fn is_worse(blocked: u32, best: Option<Task>) -> bool
    ensures { IsTrue result → IsSome best }
{
    match best {
        None => false,
        Some(task) => task.level <= blocked.saturating_add(1),
    }
}

// The best task so far, with obligation `o`, if it is of system `j` and may be blocked.
fn with_block(
    levels: &Levels,
    register: &Register,
    marks: &Marks,
    limits: Limits,
    j: usize,
    o: usize,
    best: Option<Task>,
) -> Option<Task>
    requires in_range { o < length levels.now.obligations }
    requires sane { AreSane levels.now register.now }
    requires undecided { IsDecided (state_of levels.now register.now marks.now) j → ⊥ }
    ensures some { (t : ATask) → result ≡ Some t → (best ≡ Some t) ⊎ IsOffered limits (state_of levels.now register.now marks.now) t.subject t.level }
    ensures none { result ≡ None → (best ≡ None) × ((obligation_at levels.now.obligations o).system ≡ j → IsNotOffered limits (state_of levels.now register.now marks.now) (asked.Block o)) }
{
    if is_worse(levels.blocked(o), best) {
        return best;
    }
    if levels.frames().obligation(o).system != j {
        return best;
    }
    match block_task(levels, register, marks, limits, o) {
        None => best,
        Some(level) => {
            let subject = Subject::Block(o);
            Some(Task { subject, level })
        }
    }
}

// The best task so far, with the obligations of system `j` from number `begin` on to the one before `end`, the
// newest first.
fn with_blocks(
    levels: &Levels,
    register: &Register,
    marks: &Marks,
    limits: Limits,
    j: usize,
    begin: usize,
    end: usize,
    best: Option<Task>,
) -> Option<Task>
    requires in_range { end ≤ length levels.now.obligations }
    requires sane { AreSane levels.now register.now }
    requires undecided { IsDecided (state_of levels.now register.now marks.now) j → ⊥ }
    ensures some { (t : ATask) → result ≡ Some t → (best ≡ Some t) ⊎ IsOffered limits (state_of levels.now register.now marks.now) t.subject t.level }
    ensures none { result ≡ None → (best ≡ None) × ((o : ℕ) → begin ≤ o → o < end → (obligation_at levels.now.obligations o).system ≡ j → IsNotOffered limits (state_of levels.now register.now marks.now) (asked.Block o)) }
{
    let mut best = best;
    let mut o = end;
    while o > begin {
        o -= 1;
        best = with_block(levels, register, marks, limits, j, o, best);
    }
    best
}

// Where the part ends that begins here, of so many obligations.
fn end_of(begin: usize, count: usize) -> usize
    requires { begin < count }
    ensures count { result ≤ count }
    ensures all { (o : ℕ) → o < begin + 64 → o < count → o < result }
{
    if count - begin < 64 {
        count
    } else {
        begin + 64
    }
}

// The same with part `c` of the obligations, if one of them may be better.
fn with_part(
    levels: &Levels,
    register: &Register,
    marks: &Marks,
    limits: Limits,
    j: usize,
    c: usize,
    best: Option<Task>,
) -> Option<Task>
    requires in_range { j < length levels.now.systems }
    requires part { c * 64 < length levels.now.obligations }
    requires sane { AreSane levels.now register.now }
    requires undecided { IsDecided (state_of levels.now register.now marks.now) j → ⊥ }
    ensures some { (t : ATask) → result ≡ Some t → (best ≡ Some t) ⊎ IsOffered limits (state_of levels.now register.now marks.now) t.subject t.level }
    ensures none { result ≡ None → (best ≡ None) × ((o : ℕ) → c * 64 ≤ o → o < c * 64 + 64 → o < length levels.now.obligations → (obligation_at levels.now.obligations o).system ≡ j → IsNotOffered limits (state_of levels.now register.now marks.now) (asked.Block o)) }
{
    let floor = levels.floor(c);
    if is_worse(floor, best) {
        return best;
    }
    if levels.frames().top(j) <= floor {
        return best;
    }
    let count = levels.frames().obligations();
    let begin = c * 64;
    let end = end_of(begin, count);
    with_blocks(levels, register, marks, limits, j, begin, end, best)
}

// An obligation of system `j`, which is not decided, that may be blocked: one of the least level, of these
// the newest. It looks at those parts of the obligations alone in which one may be better than those before,
// and at none where the top is past the limit.
fn block_of(
    levels: &Levels,
    register: &Register,
    marks: &Marks,
    limits: Limits,
    j: usize,
) -> Option<Task>
    requires in_range { j < length levels.now.systems }
    requires sane { AreSane levels.now register.now }
    requires undecided { IsDecided (state_of levels.now register.now marks.now) j → ⊥ }
    ensures { MatchOption result ((o : ℕ) → o < length levels.now.obligations → (obligation_at levels.now.obligations o).system ≡ j → IsNotOffered limits (state_of levels.now register.now marks.now) (asked.Block o)) (λ t. IsOffered limits (state_of levels.now register.now marks.now) t.subject t.level) }
{
    if levels.frames().top(j) > limits.frames {
        return None;
    }
    let mut best = None;
    let mut c = levels.parts();
    while c > 0 {
        c -= 1;
        best = with_part(levels, register, marks, limits, j, c, best);
    }
    best
}

// A lemma that may be pushed, where `top` is the greatest top: the first of them.
fn push_of(
    levels: &Levels,
    register: &Register,
    marks: &Marks,
    limits: Limits,
    top: u32,
) -> Option<Task>
    requires sane { AreSane levels.now register.now }
    requires greatest { IsGreatest levels.now top }
    ensures { MatchOption result ((n : ℕ) → n < length levels.now.lemmas → IsNotOffered limits (state_of levels.now register.now marks.now) (asked.Push n)) (λ t. IsOffered limits (state_of levels.now register.now marks.now) t.subject t.level) }
{
    for n in 0..levels.frames().lemmas() {
        if let Some(level) = push_task(levels, register, marks, limits, n, top) {
            let subject = Subject::Push(n);
            return Some(Task { subject, level });
        }
    }
    None
}

// The first lemma from number `from` on that may be pushed, where `top` is the greatest top.
fn push_from(
    levels: &Levels,
    register: &Register,
    marks: &Marks,
    limits: Limits,
    top: u32,
    from: usize,
) -> Option<Task>
    requires sane { AreSane levels.now register.now }
    requires greatest { IsGreatest levels.now top }
    ensures { (t : ATask) → result ≡ Some t → IsOffered limits (state_of levels.now register.now marks.now) t.subject t.level }
{
    for n in from..levels.frames().lemmas() {
        if let Some(level) = push_task(levels, register, marks, limits, n, top) {
            let subject = Subject::Push(n);
            return Some(Task { subject, level });
        }
    }
    None
}

// What may be claimed of system `j`, which is not decided: an obligation, else the frame of the top.
fn task_of(
    levels: &Levels,
    register: &Register,
    marks: &Marks,
    limits: Limits,
    j: usize,
) -> Option<Task>
    requires in_range { j < length levels.now.systems }
    requires sane { AreSane levels.now register.now }
    requires undecided { IsDecided (state_of levels.now register.now marks.now) j → ⊥ }
    ensures { MatchOption result (HasNoTask limits (state_of levels.now register.now marks.now) j) (λ t. IsOffered limits (state_of levels.now register.now marks.now) t.subject t.level) }
{
    if let Some(task) = block_of(levels, register, marks, limits, j) {
        return Some(task);
    }
    match bad_task(levels, register, marks, limits, j) {
        None => None,
        Some(level) => Some(Task {
            subject: Subject::Bad(j),
            level,
        }),
    }
}

/// What may be claimed, where the history is not closed: a lemma from number `from` on to push, else of a
/// system that is not decided, else any lemma to push.
pub(crate) fn pick(
    levels: &Levels,
    register: &Register,
    marks: &Marks,
    limits: Limits,
    from: usize,
) -> Option<Task>
    requires sane { AreSane levels.now register.now }
    ensures { MatchOption result ((u : ASubject) → IsNotOffered limits (state_of levels.now register.now marks.now) u) (λ t. IsOffered limits (state_of levels.now register.now marks.now) t.subject t.level) }
{
    let top = greatest_top(levels);
    if let Some(task) = push_from(levels, register, marks, limits, top, from) {
        return Some(task);
    }
    let systems = levels.frames().systems().len();
    for j in 0..systems {
        if is_decided(levels, register, marks, j) {
            continue;
        }
        if let Some(task) = task_of(levels, register, marks, limits, j) {
            return Some(task);
        }
    }
    push_of(levels, register, marks, limits, top)
}
