//! The list of lemmas with levels and signatures, how a copy of it is brought up to date, and what changed
//! since it was.

ghost use Rattle.std.specs.Prelude.{◌≡◌, ◌<◌, vec_len, vec_capacity, OnOk};
ghost use Rattle.frame_core.specs.FrameLaw.{raised_at, retired_at};

use crate::covering::covers_at;
use crate::marking::{add_word, is_level_with, is_same_word, mark_anew};
use crate::parts::Lemma;
use crate::signing::signature_of;
use clause_core::{Clause, Lit};
use std::alloc::{AllocError, Global};
use std::marker::Model;

/// Lemmas with their levels, numbered in the order in which they came; contracts see their list. It knows
/// of no system: what the lemmas say of one is the law of the frames.
#[derive(Drop)]
pub struct Lemmas {
    items: Vec<Lemma>,
    // for each lemma the signature of its clause
    signatures: Vec<u64>,
    // for each four lemmas a word that tells their levels, and which are live
    marks: Vec<u64>,
}

impl Model for Lemmas {
    ghost use Rattle.std.specs.Prelude.{List};
    ghost use Rattle.frame_core.specs.declared.parts.Lemma.{Lemma as ALemma};
    ghost use Rattle.frame_core.specs.Signatures.{AreSigned};
    ghost use Rattle.frame_core.specs.Marks.{AreMarked};

    ghost Value = { List ALemma };

    ghost view = { λ l. l.items.items };

    ghost invariant = { λ l. AreSigned l.items.items l.signatures.items × AreMarked l.items.items l.marks.items };
}

impl Lemmas {
    ghost use Rattle.std.specs.Prelude.{◌≡◌, ◌<◌, ◌≤◌, ◌+◌, ◌++◌, ◌∷◌, [], Bool, true, ℕ, List, length, IfOk, OnOk, OnErr, IsTrue};
    ghost use Rattle.clause_core.specs.declared.literal.Lit.{Lit as ALit};
    ghost use Rattle.frame_core.specs.Copies.{LagsBehind, AreLevel, IsNextChange};
    ghost use Rattle.frame_core.specs.Facts.{IsPart};
    ghost use Rattle.frame_core.specs.Looking.{AreCoveredBy};
    ghost use Rattle.frame_core.specs.FrameLaw.{lemma_at, raised_at, retired_at};
    ghost use Rattle.frame_core.specs.Signatures.{IsSignature};

    /// No lemmas; takes no memory.
    pub fn new(alloc: Global) -> Lemmas
        ensures { result ≡ [] }
    {
        Lemmas {
            items: Vec::new(alloc),
            signatures: Vec::new(alloc),
            marks: Vec::new(alloc),
        }
    }

    /// How many there are, retired ones too.
    pub fn len(&self) -> usize
        ensures { result ≡ length self.now }
    {
        self.items.len()
    }

    /// Lemma number `n`.
    pub fn lemma(&self, n: usize) -> &Lemma
        requires { n < length self.now }
        ensures { result.now ≡ lemma_at self.now n }
    {
        &self.items[n]
    }

    /// All of them.
    pub fn as_slice(&self) -> &[Lemma]
        ensures { result.now ≡ self.now }
    {
        &self.items
    }

    /// The numbers of the live lemmas that a lemma with this clause and level covers, from the lowest on:
    /// those that have all its literals and no higher level. It looks at one word of each lemma, and at the
    /// literals of those alone whose word does not rule them out.
    pub fn covered_by(&self, clause: &[Lit], level: u32) -> Result<Vec<usize>, AllocError>
        ensures { IfOk result (λ v. AreCoveredBy self.now clause.now level (length self.now) v.items) }
    {
        let signature = signature_of(clause);
        let mut numbers = Vec::new(self.alloc());
        for n in 0..self.len() {
            if covers_at(self, n, clause, signature, level) {
                numbers.push(n)?;
            }
        }
        Ok(numbers)
    }

    /// The allocator.
    pub fn alloc(&self) -> Global {
        *self.items.allocator()
    }

    // Whether lemma `n` may have a part of the literals of a clause with this signature: where it has one,
    // the answer is yes.
    pub(crate) fn may_be_part(&self, n: usize, signature: u64) -> bool
        requires { n < length self.now }
        ensures { (clause : List ALit) → IsSignature clause signature → IsPart (lemma_at self.now n).clause clause → IsTrue result }
    {
        self.signatures[n] & signature == self.signatures[n]
    }

    // Whether lemma `n` may have all literals of a clause with this signature: where it has them, the answer
    // is yes.
    pub(crate) fn may_have(&self, n: usize, signature: u64) -> bool
        requires { n < length self.now }
        ensures { (clause : List ALit) → IsSignature clause signature → IsPart clause (lemma_at self.now n).clause → IsTrue result }
    {
        signature & self.signatures[n] == signature
    }

    /// Adds a live lemma.
    pub fn push(&mut self, clause: Clause, level: u32) -> Result<(), AllocError>
        ensures done { OnOk result (self.new ≡ self.old ++ record { clause = clause; level = level; live = true } ∷ []) }
        ensures failed { OnErr result (self.new ≡ self.old) }
    {
        self.add(Lemma {
            clause,
            level,
            live: true,
        })
    }

    fn add(&mut self, lemma: Lemma) -> Result<(), AllocError>
        ensures done { OnOk result (self.new ≡ self.old ++ lemma ∷ []) }
        ensures failed { OnErr result (self.new ≡ self.old) }
    {
        let n = self.len();
        let signature = signature_of(lemma.clause.as_slice());
        add_word(&mut self.marks, n)?;
        reserve_one(&mut self.items, &mut self.signatures)?;
        self.items.push_reserved(lemma);
        self.signatures.push_reserved(signature);
        mark_anew(&mut self.marks, &self.items, n);
        Ok(())
    }

    /// Gives lemma `n` this level; takes no memory.
    pub fn raise(&mut self, n: usize, level: u32)
        requires { n < length self.old }
        ensures { self.new ≡ raised_at self.old n level }
    {
        set_level(&mut self.items, n, level);
        mark_anew(&mut self.marks, &self.items, n);
    }

    /// Makes lemma `n` a retired one; takes no memory.
    pub fn retire(&mut self, n: usize)
        requires { n < length self.old }
        ensures { self.new ≡ retired_at self.old n }
    {
        set_retired(&mut self.items, n);
        mark_anew(&mut self.marks, &self.items, n);
    }

    /// Brings this copy of the lemmas up to date, where `changed` names those that were raised or retired
    /// since it was; what was added since is found by the lengths. If memory runs out, the copy has a
    /// part of that, and the same call brings it up to date. It costs a step for each number in `changed`
    /// and a copy of each clause that was added.
    pub fn follow(&mut self, lemmas: &Lemmas, changed: &[usize]) -> Result<(), AllocError>
        ensures done { OnOk result (LagsBehind lemmas.now changed.now self.old → self.new ≡ lemmas.now) }
        ensures failed { OnErr result (LagsBehind lemmas.now changed.now self.old → LagsBehind lemmas.now changed.now self.new) }
    {
        'changes: for n in changed {
            self.follow_at(lemmas, *n);
        }
        'adds: for n in self.len()..lemmas.len() {
            self.add_copy(lemmas.lemma(n))?;
        }
        Ok(())
    }

    /// The first lemma, from number `from` on, that has another level in `later` or is live in one of the two
    /// alone; where there is none, how many lemmas there are. It looks at one word for each four lemmas that
    /// are the same.
    pub fn next_change(&self, later: &Lemmas, from: usize) -> usize
        requires from { from ≤ length self.now }
        requires longer { length self.now ≤ length later.now }
        ensures { IsNextChange self.now later.now from result }
    {
        let mut n = from;
        'lemmas: while n < self.len() {
            let alike = self.alike_at(later, n);
            if alike == 0 {
                return n;
            }
            n += alike;
        }
        n
    }

    // How many lemmas, from lemma `n` on, one look shows to be the same there: four by their word, else lemma
    // `n` alone, or none.
    fn alike_at(&self, later: &Lemmas, n: usize) -> usize
        requires in_range { n < length self.now }
        requires longer { length self.now ≤ length later.now }
        ensures within { n + result ≤ length self.now }
        ensures same { (m : ℕ) → n ≤ m → m < n + result → AreLevel (lemma_at self.now m) (lemma_at later.now m) }
        ensures changed { result ≡ 0 → AreLevel (lemma_at self.now n) (lemma_at later.now n) → ⊥ }
    {
        if self.are_four_alike(later, n) {
            return 4;
        }
        if is_level_with(self.lemma(n), later.lemma(n)) {
            1
        } else {
            0
        }
    }

    // Whether lemma `n` is the first of four whose word is the same there.
    fn are_four_alike(&self, later: &Lemmas, n: usize) -> bool
        requires { n < length self.now }
        ensures within { IsTrue result → n + 4 ≤ length self.now }
        ensures same { IsTrue result → (m : ℕ) → n ≤ m → m < n + 4 → AreLevel (lemma_at self.now m) (lemma_at later.now m) }
    {
        if n % 4 != 0 {
            return false;
        }
        if self.len() - n < 4 {
            return false;
        }
        is_same_word(&self.marks, &later.marks, n / 4)
    }

    // Adds a copy of this lemma.
    fn add_copy(&mut self, lemma: &Lemma) -> Result<(), AllocError>
        ensures done { OnOk result (self.new ≡ self.old ++ lemma.now ∷ []) }
        ensures failed { OnErr result (self.new ≡ self.old) }
    {
        let clause = Clause::from_slice(self.alloc(), lemma.clause.as_slice())?;
        self.add(Lemma {
            clause,
            level: lemma.level,
            live: lemma.live,
        })
    }

    // Lemma `n` is brought up to date.
    fn follow_at(&mut self, lemmas: &Lemmas, n: usize)
        ensures { (changed : List ℕ) → LagsBehind lemmas.now (n ∷ changed) self.old → LagsBehind lemmas.now changed self.new }
    {
        if n < self.len() && n < lemmas.len() {
            let lemma = lemmas.lemma(n);
            self.raise(n, lemma.level);
            if !lemma.live {
                self.retire(n);
            }
        }
    }
}

// Makes room for one lemma more and its signature.
fn reserve_one(lemmas: &mut Vec<Lemma>, signatures: &mut Vec<u64>) -> Result<(), AllocError>
    ensures lemmas { lemmas.new.items ≡ lemmas.old.items }
    ensures signatures { signatures.new.items ≡ signatures.old.items }
    ensures room { OnOk result ((vec_len lemmas.new < vec_capacity lemmas.new) × (vec_len signatures.new < vec_capacity signatures.new)) }
{
    lemmas.reserve(1)?;
    signatures.reserve(1)
}

fn set_level(lemmas: &mut Vec<Lemma>, n: usize, level: u32)
    requires { n < vec_len lemmas.old }
    ensures { lemmas.new.items ≡ raised_at lemmas.old.items n level }
{
    lemmas[n].level = level;
}

fn set_retired(lemmas: &mut Vec<Lemma>, n: usize)
    requires { n < vec_len lemmas.old }
    ensures { lemmas.new.items ≡ retired_at lemmas.old.items n }
{
    lemmas[n].live = false;
}
