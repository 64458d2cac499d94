//! Brings a copy of the lemmas up to date: lemmas that were added, raised or retired.

ghost use Rattle.std.specs.Prelude.{◌≡◌, ◌<◌, ◌≤◌, ◌++◌, [], ◌∷◌, true, OnOk, OnErr, length, take, slice_set};
ghost use Rattle.frame_core.specs.FrameLaw.{lemma_at};
ghost use Rattle.frame_query.specs.Findings.{IsOlder};

use clause_core::Clause;
use frame_core::{Lemma, Lemmas};
use std::alloc::AllocError;

// Lemma n of the copy becomes that of the lemmas, whose clause it has.
fn follow_at(copy: &mut Lemmas, lemmas: &Lemmas, n: usize)
    requires in_copy { n < length copy.old }
    requires in_lemmas { n < length lemmas.now }
    requires clause { (lemma_at copy.old n).clause ≡ (lemma_at lemmas.now n).clause }
    requires live { (lemma_at lemmas.now n).live ≡ true → (lemma_at copy.old n).live ≡ true }
    ensures { copy.new ≡ slice_set copy.old n (lemma_at lemmas.now n) }
{
    let lemma = lemmas.lemma(n);
    copy.raise(n, lemma.level);
    if !lemma.live {
        copy.retire(n);
    }
}

// The lemmas of the copy get the levels that they have now, and are retired where they are now. Those that are
// the same are passed over four at a time.
pub(crate) fn follow_levels(copy: &mut Lemmas, lemmas: &Lemmas)
    requires { IsOlder copy.old lemmas.now }
    ensures { copy.new ≡ take (length copy.old) lemmas.now }
{
    let mut n = copy.next_change(lemmas, 0);
    'changes: while n < copy.len() {
        follow_at(copy, lemmas, n);
        n = copy.next_change(lemmas, n + 1);
    }
}

// Adds a copy of the lemma. If memory runs out, all is as before.
fn add_copy(copy: &mut Lemmas, lemma: &Lemma) -> Result<(), AllocError>
    ensures done { OnOk result (copy.new ≡ copy.old ++ lemma.now ∷ []) }
    ensures failed { OnErr result (copy.new ≡ copy.old) }
{
    let n = copy.len();
    let clause = Clause::from_slice(copy.alloc(), lemma.clause.as_slice())?;
    copy.push(clause, lemma.level)?;
    if !lemma.live {
        copy.retire(n);
    }
    Ok(())
}

// Adds the lemmas that the copy lacks. If memory runs out, it has some of them.
pub(crate) fn follow_adds(copy: &mut Lemmas, lemmas: &Lemmas) -> Result<(), AllocError>
    requires { copy.old ≡ take (length copy.old) lemmas.now }
    ensures done { OnOk result (copy.new ≡ lemmas.now) }
    ensures part { copy.new ≡ take (length copy.new) lemmas.now }
    ensures more { length copy.old ≤ length copy.new }
{
    'lemmas: for n in copy.len()..lemmas.len() {
        add_copy(copy, lemmas.lemma(n))?;
    }
    Ok(())
}
