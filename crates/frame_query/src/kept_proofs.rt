//! The proof of each lemma's last push. While its parents hold at that level, a push needs no
//! query.

ghost use Rattle.std.specs.Prelude.{◌≡◌, ◌+◌, ◌-◌, ◌<◌, ◌≤◌, ◌^◌, ℕ, List, All, Option, None, map, length, slice_index_or, IfOk, IfSome, IsTrue, OnOk};
ghost use Rattle.clause_core.specs.Systems.{TransitionSystem};
ghost use Rattle.clause_core.specs.Literals.{Within};
ghost use Rattle.frame_core.specs.declared.parts.Lemma.{Lemma as ALemma};
ghost use Rattle.frame_core.specs.declared.parts.Parent.{Parent as AParent};
ghost use Rattle.frame_core.specs.FrameLaw.{lemma_at, system_at, AllStand};
ghost use Rattle.frame_query.specs.KeptProofs.{parent_at, proof_at, IsKeptProof, AreKept, IsOfPush};

use clause_core::{Clause, System};
use frame_core::{Lemma, Parent, Proved};
use std::alloc::{AllocError, Global};

// What a proof of a lemma's clause used: the lemmas of these numbers, and a part of the clause. It stays right as
// lemmas are added, raised and retired.
#[derive(Drop)]
pub struct KeptProof {
    pub numbers: Vec<usize>,
    pub part: Clause,
}

// Whether each lemma of these numbers has at least this level.
fn all_stand(lemmas: &[Lemma], numbers: &[usize], least: u32) -> bool
    requires { All (λ k. k < length lemmas.now) numbers.now }
    ensures { IsTrue result → All (λ k. least ≤ (lemma_at lemmas.now k).level) numbers.now }
{
    'numbers: for k in numbers {
        if lemmas[*k].level < least {
            return false;
        }
    }
    true
}

// The lemmas of these numbers as parents.
fn parents_at(alloc: Global, lemmas: &[Lemma], numbers: &[usize]) -> Result<Vec<Parent>, AllocError>
    requires { All (λ k. k < length lemmas.now) numbers.now }
    ensures { IfOk result (λ v. v.items ≡ map (parent_at lemmas.now) numbers.now) }
{
    let mut parents = Vec::new(alloc);
    'numbers: for k in numbers {
        let clause = Clause::from_slice(alloc, lemmas[*k].clause.as_slice())?;
        parents.push(Parent { number: *k, clause })?;
    }
    Ok(parents)
}

// The kept proof of the clause, at this level.
fn issued<'a>(
    alloc: Global,
    system: &'a System,
    lemmas: &[Lemma],
    clause: &Clause,
    proof: &KeptProof,
    level: u32,
) -> Result<Proved<'a>, AllocError>
    requires kept { IsKeptProof system.now lemmas.now clause.now proof.now }
    requires level { 1 < level }
    ensures { IfOk result (λ p. p ≡ proof_at system.now lemmas.now clause.now proof.now level) }
{
    let parents = parents_at(alloc, lemmas, &proof.numbers)?;
    let clause = Clause::from_slice(alloc, clause.as_slice())?;
    let part = Clause::from_slice(alloc, proof.part.as_slice())?;
    Ok(Proved::new(system, clause, part, level, parents))
}

// The kept proof of lemma n one level higher, where its parents stand there.
fn standing<'a>(
    alloc: Global,
    system: &'a System,
    lemmas: &[Lemma],
    n: usize,
    proof: &KeptProof,
) -> Result<Option<Proved<'a>>, AllocError>
    requires number { n < length lemmas.now }
    requires level { (lemma_at lemmas.now n).level + 1 < 2 ^ 32 }
    requires kept { IsKeptProof system.now lemmas.now (lemma_at lemmas.now n).clause proof.now }
    ensures { IfOk result (λ r. IfSome r (IsOfPush system.now lemmas.now n)) }
{
    let lemma = &lemmas[n];
    if lemma.level == 0 || !all_stand(lemmas, &proof.numbers, lemma.level) {
        return Ok(None);
    }
    let proved = issued(alloc, system, lemmas, &lemma.clause, proof, lemma.level + 1)?;
    Ok(Some(proved))
}

// A proof of lemma n one level higher without a query: the one that is kept, where its parents stand there.
pub(crate) fn proof_again<'a>(
    alloc: Global,
    system: &'a System,
    lemmas: &[Lemma],
    proofs: &[Option<KeptProof>],
    n: usize,
) -> Result<Option<Proved<'a>>, AllocError>
    requires number { n < length lemmas.now }
    requires level { (lemma_at lemmas.now n).level + 1 < 2 ^ 32 }
    requires kept { AreKept system.now lemmas.now proofs.now }
    ensures { IfOk result (λ r. IfSome r (IsOfPush system.now lemmas.now n)) }
{
    if n >= proofs.len() {
        return Ok(None);
    }
    match &proofs[n] {
        Some(proof) => standing(alloc, system, lemmas, n, proof),
        None => Ok(None),
    }
}

// The numbers of the parents.
fn numbers_of(alloc: Global, parents: &[Parent]) -> Result<Vec<usize>, AllocError>
    ensures { IfOk result (λ v. v.items ≡ map (λ (p : AParent). p.number) parents.now) }
{
    let mut numbers = Vec::new(alloc);
    'parents: for p in parents {
        numbers.push(p.number)?;
    }
    Ok(numbers)
}

// Makes room for so many proofs.
fn make_room(proofs: &mut Vec<Option<KeptProof>>, count: usize) -> Result<(), AllocError>
    ensures room { OnOk result (count ≤ length proofs.new.items) }
    ensures same { (m : ℕ) → slice_index_or proofs.new.items m None ≡ slice_index_or proofs.old.items m None }
{
    'room: for _k in proofs.len()..count {
        proofs.push(None)?;
    }
    Ok(())
}

// Keeps the proof of lemma n, in place of the one before. One at level 1 speaks of steps from initial states alone, and
// is not kept.
pub(crate) fn keep_proof(
    alloc: Global,
    lemmas: &[Lemma],
    proofs: &mut Vec<Option<KeptProof>>,
    n: usize,
    proved: &Proved,
) -> Result<(), AllocError>
    requires number { n < length lemmas.now }
    requires clause { proved.now.clause ≡ (lemma_at lemmas.now n).clause }
    requires stand { AllStand lemmas.now (proved.now.level - 1) proved.now.parents }
    requires kept { AreKept proved.now.system lemmas.now proofs.old.items }
    ensures { AreKept proved.now.system lemmas.now proofs.new.items }
{
    let _system = proved.system();
    if proved.level() < 2 {
        return Ok(());
    }
    let numbers = numbers_of(alloc, proved.parents())?;
    let part = Clause::from_slice(alloc, proved.part())?;
    make_room(proofs, lemmas.len())?;
    proofs[n] = Some(KeptProof { numbers, part });
    Ok(())
}
