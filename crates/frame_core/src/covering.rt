//! Subsumption of lemmas: one covers another if its literals are a part of that one's, and its
//! level is at least as high.

ghost use Rattle.std.specs.Prelude.{◌<◌, ◌↔◌, length, Contains, IsTrue};
ghost use Rattle.frame_core.specs.Facts.{IsPart};
ghost use Rattle.frame_core.specs.Looking.{CoversAt};
ghost use Rattle.frame_core.specs.Signatures.{IsSignature};

use crate::lemma_list::Lemmas;
use clause_core::Lit;

fn has_literal(clause: &[Lit], l: Lit) -> bool
    ensures { IsTrue result ↔ Contains clause.now l }
{
    for m in clause {
        if m.is_same(l) {
            return true;
        }
    }
    false
}

/// Whether each literal of the first clause is in the second.
pub fn is_part_of(part: &[Lit], whole: &[Lit]) -> bool
    ensures { IsTrue result ↔ IsPart part.now whole.now }
{
    for l in part {
        if !has_literal(whole, *l) {
            return false;
        }
    }
    true
}

// Whether lemma `n` is live and covered by a lemma with this clause, of this signature, and level.
pub(crate) fn covers_at(
    lemmas: &Lemmas,
    n: usize,
    clause: &[Lit],
    signature: u64,
    level: u32,
) -> bool
    requires in_range { n < length lemmas.now }
    requires signature { IsSignature clause.now signature }
    ensures { IsTrue result ↔ CoversAt lemmas.now clause.now level n }
{
    if !lemmas.may_have(n, signature) {
        return false;
    }
    let lemma = lemmas.lemma(n);
    if !lemma.live {
        return false;
    }
    if lemma.level > level {
        return false;
    }
    is_part_of(clause, lemma.clause.as_slice())
}
