//! Pushes a lemma one level higher where it is inductive there (Bradley 2011).

ghost use Rattle.std.specs.Prelude.{◌≡◌, ◌+◌, ◌<◌, ◌^◌, ℕ, Bool, IfOk, All, length};
ghost use Rattle.frame_core.specs.declared.parts.Lemma.{Lemma as ALemma};
ghost use Rattle.clause_core.specs.Literals.{Within};
ghost use Rattle.frame_core.specs.FrameLaw.{system_at, lemma_at};
ghost use Rattle.frame_solver.specs.Groups.{base as base_of, step_heads, clauses_of};
ghost use Rattle.frame_solver.specs.Engines.{IsLoaded};
ghost use Rattle.frame_solver.specs.Firsts.{AllFirstsMeet};
ghost use Rattle.frame_solver.specs.Paying.{Steps, PaysOne};
ghost use Rattle.frame_query.specs.Findings.{FindsRelative};
ghost use Rattle.frame_query.specs.KeptProofs.{AreKept};

use crate::finding::relative_of;
use crate::kept_proofs::{KeptProof, keep_proof, proof_again};
use crate::outcomes::Relative;
use clause_core::System;
use effort_purse::Purse;
use frame_core::Lemma;
use frame_solver::{Engine, Known, system_of};
use std::alloc::{AllocError, Global};

// Keeps what was found of lemma n one level higher, where that is a proof.
fn keep_found(
    alloc: Global,
    systems: &[System],
    lemmas: &[Lemma],
    proofs: &mut Vec<Option<KeptProof>>,
    n: usize,
    level: u32,
    found: &Relative,
) -> Result<(), AllocError>
    requires number { n < length lemmas.now }
    requires found { (b : ℕ) × (over : Bool) × FindsRelative systems.now lemmas.now (lemma_at lemmas.now n).clause level b over found.now }
    requires kept { AreKept (system_at systems.now 0) lemmas.now proofs.old.items }
    ensures { AreKept (system_at systems.now 0) lemmas.now proofs.new.items }
{
    if let Relative::Proved(proved) = found {
        keep_proof(alloc, lemmas, proofs, n, proved)?;
    }
    Ok(())
}

// Asks whether lemma n is inductive one level higher, and keeps the proof.
fn asked<'a, Q: Purse>(
    alloc: Global,
    systems: &'a [System],
    lemmas: &[Lemma],
    engine: &mut Engine,
    known: &mut Known,
    proofs: &mut Vec<Option<KeptProof>>,
    n: usize,
    purse: &mut Q,
) -> Result<Relative<'a>, AllocError>
    requires some { 0 < length systems.now }
    requires lemmas { All (λ (l : ALemma). Within (system_at systems.now 0).state_bits l.clause) lemmas.now }
    requires engine { IsLoaded (base_of (system_at systems.now 0)) (step_heads (system_at systems.now 0)) (clauses_of lemmas.now) engine.old }
    requires number { n < length lemmas.now }
    requires level { (lemma_at lemmas.now n).level + 1 < 2 ^ 32 }
    requires first { AllFirstsMeet (system_at systems.now 0) (lemma_at lemmas.now n).clause }
    requires known { known.old ≡ system_at systems.now 0 }
    requires proofs { AreKept (system_at systems.now 0) lemmas.now proofs.old.items }
    requires ready { Q.ready purse.old }
    ensures found { IfOk result (FindsRelative systems.now lemmas.now (lemma_at lemmas.now n).clause ((lemma_at lemmas.now n).level + 1) (Q.budget purse.old) (Q.spent purse.new)) }
    ensures pays { PaysOne systems.now lemmas.now engine.old.solver.learned engine.new.solver.learned (Q.tickets purse.old) (Q.tickets purse.new) (Steps ((lemma_at lemmas.now n).level + 1) (lemma_at lemmas.now n).clause) }
    ensures engine { IsLoaded (base_of (system_at systems.now 0)) (step_heads (system_at systems.now 0)) (clauses_of lemmas.now) engine.new }
    ensures known { known.new ≡ known.old }
    ensures proofs { AreKept (system_at systems.now 0) lemmas.now proofs.new.items }
    ensures kept { Q.kept purse.old purse.new }
    ensures ready { Q.ready purse.new }
    ensures budget { Q.budget purse.new ≡ Q.budget purse.old }
{
    let level = lemmas[n].level + 1;
    let clause = lemmas[n].clause.as_slice();
    let found = relative_of(alloc, systems, lemmas, engine, known, clause, level, purse)?;
    keep_found(alloc, systems, lemmas, proofs, n, level, &found)?;
    Ok(found)
}

// Whether lemma n is inductive one level higher; no query is asked where the proof that is kept stands there.
pub(crate) fn push_of<'a, Q: Purse>(
    alloc: Global,
    systems: &'a [System],
    lemmas: &[Lemma],
    engine: &mut Engine,
    known: &mut Known,
    proofs: &mut Vec<Option<KeptProof>>,
    n: usize,
    purse: &mut Q,
) -> Result<Relative<'a>, AllocError>
    requires some { 0 < length systems.now }
    requires lemmas { All (λ (l : ALemma). Within (system_at systems.now 0).state_bits l.clause) lemmas.now }
    requires engine { IsLoaded (base_of (system_at systems.now 0)) (step_heads (system_at systems.now 0)) (clauses_of lemmas.now) engine.old }
    requires number { n < length lemmas.now }
    requires level { (lemma_at lemmas.now n).level + 1 < 2 ^ 32 }
    requires first { AllFirstsMeet (system_at systems.now 0) (lemma_at lemmas.now n).clause }
    requires known { known.old ≡ system_at systems.now 0 }
    requires proofs { AreKept (system_at systems.now 0) lemmas.now proofs.old.items }
    requires ready { Q.ready purse.old }
    ensures found { IfOk result (FindsRelative systems.now lemmas.now (lemma_at lemmas.now n).clause ((lemma_at lemmas.now n).level + 1) (Q.budget purse.old) (Q.spent purse.new)) }
    ensures pays { PaysOne systems.now lemmas.now engine.old.solver.learned engine.new.solver.learned (Q.tickets purse.old) (Q.tickets purse.new) (Steps ((lemma_at lemmas.now n).level + 1) (lemma_at lemmas.now n).clause) }
    ensures engine { IsLoaded (base_of (system_at systems.now 0)) (step_heads (system_at systems.now 0)) (clauses_of lemmas.now) engine.new }
    ensures known { known.new ≡ known.old }
    ensures proofs { AreKept (system_at systems.now 0) lemmas.now proofs.new.items }
    ensures kept { Q.kept purse.old purse.new }
    ensures ready { Q.ready purse.new }
    ensures budget { Q.budget purse.new ≡ Q.budget purse.old }
{
    if let Some(proved) = proof_again(alloc, system_of(systems, 0), lemmas, proofs, n)? {
        return Ok(Relative::Proved(proved));
    }
    asked(alloc, systems, lemmas, engine, known, proofs, n, purse)
}
