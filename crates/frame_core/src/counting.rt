//! What the frames keep so that a verdict looks at no lemma and no obligation: the number of live lemmas
//! of each level, and the first obligation that is an initial state.

ghost use Rattle.std.specs.Prelude.{◌≡◌, ◌≢◌, ◌<◌, ◌≤◌, ◌+◌, ◌^◌, ℕ, length, slice_index, count_by, replicate, cond, None, OnOk, MatchOption, slice_index_or, slice_set};
ghost use Rattle.frame_core.specs.Counting.{is_live_at, AreCounts, more_at, less_at, first_of, marked_at};

use crate::parts::Lemma;
use std::alloc::AllocError;

// 1 where the lemma is live and has this level, else 0.
fn counts_as(lemma: &Lemma, level: usize) -> usize
    ensures value { result ≡ cond (is_live_at level lemma.now) 1 0 }
    ensures small { result ≤ 1 }
{
    if lemma.live && lemma.level as usize == level {
        1
    } else {
        0
    }
}

// How many live lemmas have this level.
fn count_at(lemmas: &[Lemma], level: usize) -> usize
    ensures { result ≡ count_by (is_live_at level) lemmas.now }
{
    let mut count: usize = 0;
    for n in 0..lemmas.len() {
        count += counts_as(&lemmas[n], level);
    }
    count
}

// Counts the lemmas of further levels, until there are so many counts.
pub(crate) fn count_below(
    counts: &mut Vec<usize>,
    lemmas: &[Lemma],
    levels: u32,
) -> Result<(), AllocError>
    requires { AreCounts lemmas.now counts.old.items }
    ensures counted { AreCounts lemmas.now counts.new.items }
    ensures longer { length counts.old.items ≤ length counts.new.items }
    ensures enough { OnOk result (levels ≤ length counts.new.items) }
{
    let from = counts.len();
    'levels: for i in from..levels as usize {
        counts.push(count_at(lemmas, i))?;
    }
    Ok(())
}

// One live lemma more of this level.
pub(crate) fn count_more(counts: &mut Vec<usize>, level: u32)
    requires { level < length counts.old.items → slice_index counts.old.items level + 1 < 2 ^ 64 }
    ensures { counts.new.items ≡ more_at counts.old.items level }
{
    let at = level as usize;
    if at < counts.len() {
        counts[at] += 1;
    }
}

// One live lemma less of this level, where the lemma was live.
pub(crate) fn count_less(counts: &mut Vec<usize>, live: bool, level: u32)
    ensures { counts.new.items ≡ less_at live counts.old.items level }
{
    let at = level as usize;
    if live && at < counts.len() {
        counts[at] = counts[at].saturating_sub(1);
    }
}

// The first level from 1 below the top that has no live lemma.
pub(crate) fn empty_level(counts: &[usize], top: u32) -> Option<u32>
    requires { top ≤ length counts.now }
    ensures { MatchOption result ((i : ℕ) → 0 < i → i < top → slice_index counts.now i ≢ 0) (λ i. (0 < i) × (i < top) × (slice_index counts.now i ≡ 0)) }
{
    for i in 1..top {
        if counts[i as usize] == 0 {
            return Some(i);
        }
    }
    None
}

fn earlier(mark: Option<usize>, first: bool, n: usize) -> Option<usize>
    ensures { result ≡ first_of mark first n }
{
    match mark {
        Some(m) => Some(m),
        None => { if first { Some(n) } else { None } }
    }
}

// Marks obligation `n` of system `j`, where it is the first that is an initial state.
pub(crate) fn mark(marks: &mut Vec<Option<usize>>, j: usize, first: bool, n: usize)
    requires { j < length marks.old.items }
    ensures { marks.new.items ≡ marked_at marks.old.items j first n }
{
    marks[j] = earlier(marks[j], first, n);
}

// Takes all marks away.
pub(crate) fn unmark(marks: &mut Vec<Option<usize>>)
    ensures length { length marks.new.items ≡ length marks.old.items }
    ensures none { (j : ℕ) → j < length marks.new.items → slice_index_or marks.new.items j None ≡ None }
{
    marks.fill(None);
}

pub(crate) fn set_top(tops: &mut Vec<u32>, j: usize, top: u32)
    requires { j < length tops.old.items }
    ensures { tops.new.items ≡ slice_set tops.old.items j top }
{
    tops[j] = top;
}

// Sets all tops to 0.
pub(crate) fn lower(tops: &mut Vec<u32>)
    ensures { tops.new.items ≡ replicate (length tops.old.items) 0 }
{
    tops.fill(0);
}
