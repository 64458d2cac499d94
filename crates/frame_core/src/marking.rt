//! One word for each four lemmas tells their levels and which are live. So two lists of lemmas are compared four
//! lemmas at a time.

ghost use Rattle.std.specs.Prelude.{◌≡◌, ◌↔◌, ◌<◌, ◌+◌, ◌^◌, List, slice_index, IsTrue};
ghost use Rattle.frame_core.specs.declared.parts.Lemma.{Lemma as ALemma};
ghost use Rattle.frame_core.specs.Copies.{AreLevel};
ghost use Rattle.frame_core.specs.FrameLaw.{lemma_at};
ghost use Rattle.frame_core.specs.Marks.{mark_of, part_of, HasMarks, AreMarked, AreSameBut};

use crate::parts::Lemma;
use std::alloc::AllocError;

// The level of lemma `n` and whether it is live, as one number; 0 past the last lemma. The answer is 65535 where
// that number takes more than 16 bits.
fn mark_at(lemmas: &[Lemma], n: usize) -> u64
    ensures small { result < 65536 }
    ensures mark { result < 65535 → result ≡ mark_of (lemma_at lemmas.now n) }
{
    if n >= lemmas.len() {
        return 0;
    }
    let lemma = &lemmas[n];
    if lemma.level >= 32767 {
        return 65535;
    }
    let twice = 2 * (lemma.level as u64);
    if lemma.live { twice + 1 } else { twice }
}

// The word of these four parts, the first lowest.
fn word_with(first: u64, second: u64, third: u64, fourth: u64) -> u64
    requires first { first < 65536 }
    requires second { second < 65536 }
    requires third { third < 65536 }
    requires fourth { fourth < 65536 }
    ensures first { part_of result 0 ≡ first }
    ensures second { part_of result 1 ≡ second }
    ensures third { part_of result 2 ≡ third }
    ensures fourth { part_of result 3 ≡ fourth }
{
    first + 65536 * (second + 65536 * (third + 65536 * fourth))
}

// The word of the four lemmas from number `from` on; 0 where one has too high a level for its part.
fn word_of(lemmas: &[Lemma], from: usize) -> u64
    requires { from + 3 < 2 ^ 64 }
    ensures { 0 < result → HasMarks lemmas.now from result }
{
    let first = mark_at(lemmas, from);
    let second = mark_at(lemmas, from + 1);
    let third = mark_at(lemmas, from + 2);
    let fourth = mark_at(lemmas, from + 3);
    if first == 65535 || second == 65535 || third == 65535 || fourth == 65535 {
        return 0;
    }
    word_with(first, second, third, fourth)
}

// Makes room in the words for lemma `n`, where it is the first of four.
pub(crate) fn add_word(words: &mut Vec<u64>, n: usize) -> Result<(), AllocError>
    ensures { (lemmas : List ALemma) → AreMarked lemmas words.old.items → AreMarked lemmas words.new.items }
{
    if words.len() <= n / 4 {
        words.push(0)?;
    }
    Ok(())
}

// Lemma `n` is new or has changed: the word of the four of which it is one tells how they are now.
pub(crate) fn mark_anew(words: &mut Vec<u64>, lemmas: &[Lemma], n: usize)
    ensures { (old : List ALemma) → AreSameBut n old lemmas.now → AreMarked old words.old.items → AreMarked lemmas.now words.new.items }
{
    let group = n / 4;
    if group < words.len() {
        words[group] = word_of(lemmas, n - n % 4);
    }
}

// Whether both lists have the same word at this place, and one that tells something.
pub(crate) fn is_same_word(words: &[u64], others: &[u64], group: usize) -> bool
    ensures same { IsTrue result → slice_index words.now group ≡ slice_index others.now group }
    ensures told { IsTrue result → 0 < slice_index words.now group }
{
    group < words.len()
        && group < others.len()
        && words[group] == others[group]
        && words[group] != 0
}

// Whether the lemmas have the same level, and both are live or both retired.
pub(crate) fn is_level_with(lemma: &Lemma, other: &Lemma) -> bool
    ensures { IsTrue result ↔ AreLevel lemma.now other.now }
{
    lemma.level == other.level && lemma.live == other.live
}
