//! What is said of a specification: its system is proved to reach no bad state, or a run that breaks it is replayed.

ghost use Rattle.std.specs.Prelude.{◌≡◌, ◌<◌, ◌≤◌, ◌-◌, ◌++◌, ◌∷◌, [], if◌then◌else◌, IfOk, List, OnOk, None, Some, false, length, map, true};
ghost use Rattle.smv_resolve.specs.declared.node.ExprNode.{ExprNode};
ghost use Rattle.smv_resolve.specs.Items.{item_by};
ghost use Rattle.smv_resolve.specs.declared.item.ItemKind.TheVariants as item;
ghost use Rattle.smv_meaning.specs.Faults.{IsFaultFree};
ghost use Rattle.smv_meaning.specs.Runs.{Breaks, specifications_of};
ghost use Rattle.trace_replay.specs.Tests.{ShowsBroken, specification_at};
ghost use Rattle.bit_system.specs.Building.{system_of};
ghost use Rattle.bit_conditions.specs.Asked.{is_invariant};
ghost use Rattle.smv_cli.specs.Records.{IsRight, IsRightInvariant, prover_effort};
ghost use Rattle.smv_cli.specs.Written.{IsAnswered, IsPool, IsReady, item_in, pooled, program_in};

use crate::checking::Checking;
use crate::formulas::judge_formula;
use crate::inhabited::some_inputs;
use crate::record::{Reason, Record, SpecVerdict};
use bit_runs::{run_of, what_is_built_is_alike};
use bit_system::{Built, copied, what_is_never_bad_is_unbroken};
use cert_core::Certificate;
use cert_core::inductive_invariants::no_run_reaches_bad;
use clause_core::System;
use command_words::Effort;
use outside::Gate;
use prove_run::{Answer, prove_all, prove_invariant};
use smv_meaning::{Inputs, State, Typed};
use smv_resolve::{Item, ItemKind};
use smv_tree::SpecificationKind;
use std::alloc::{AllocError, Global};
use std::sync::Wait;
use std::thread::Threads;
use trace_replay::{Replayed, Trace, replay_run};

// How much the prover may do.
fn prover_effort(effort: &Effort) -> prove_run::Effort
    ensures { result ≡ prover_effort effort.now }
{
    prove_run::Effort {
        conflicts: effort.conflicts,
        frames: effort.frames,
    }
}

fn is_invariant(kind: ItemKind) -> bool
    ensures { result ≡ is_invariant kind }
{
    match kind {
        ItemKind::Specification(SpecificationKind::Invariant) => true,
        ItemKind::Specification(SpecificationKind::Temporal) => false,
        ItemKind::Constraint(_) | ItemKind::Assignment(_) => false,
    }
}

// Adds a copy of the system of an INVARSPEC.
fn push_invariant(
    alloc: Global,
    systems: &mut Vec<System>,
    kind: ItemKind,
    system: &System,
) -> Result<(), AllocError>
    ensures { OnOk result (systems.new.items ≡ systems.old.items ++ (if is_invariant kind then system.now ∷ [] else [])) }
{
    if is_invariant(kind) {
        systems.push(copied(alloc, system)?)?;
    }
    Ok(())
}

// The systems of the INVARSPECs among these specifications, copied, in their order.
fn pooled(alloc: Global, built: &Built, specs: &[Item]) -> Result<Vec<System>, AllocError>
    requires { length specs.now ≤ length built.now.systems }
    ensures { (nodes : List ExprNode) → IfOk result (λ r. r.items ≡ pooled (map (item_by nodes) specs.now) built.now.systems) }
{
    let mut systems = Vec::new(alloc);
    for (j, spec) in specs.iter().enumerate() {
        push_invariant(alloc, &mut systems, spec.kind, built.system_of(j))?;
    }
    Ok(systems)
}

/// What is answered of all INVARSPECs at once, the first one last, where the effort says so; else nothing.
pub fn ask_together<R: Threads + Wait + Sync, G: Gate + Sync>(
    rt: &R,
    alloc: Global,
    model: &Checking,
    specs: &[Item],
    gate: &G,
) -> Result<Vec<Answer>, AllocError>
    requires ready { IsReady model.now }
    requires listed { map (item_in model.now) specs.now ≡ specifications_of (program_in model.now) }
    ensures { IfOk result (λ pool. IsPool (program_in model.now) model.now.built.systems model.now.effort 0 pool.items) }
{
    if !model.effort.together {
        return Ok(Vec::new(alloc));
    }
    let systems = pooled(alloc, &model.built, specs)?;
    what_is_built_is_alike();
    let (effort, workers) = (prover_effort(&model.effort), model.effort.workers);
    let done = prove_all(rt, alloc, &systems, &effort, workers, gate)?;
    let mut pool = done.answers;
    pool.reverse();
    Ok(pool)
}

/// The record of the specification of this number, by the next of the answers of all at once, or else by an answer of
/// its own.
pub fn judge<R: Threads + Wait + Sync, G: Gate + Sync>(
    rt: &R,
    alloc: Global,
    model: &Checking,
    number: usize,
    kind: SpecificationKind,
    spec: &Item,
    pool: &mut Vec<Answer>,
    gate: &G,
) -> Result<Record, AllocError>
    requires ready { IsReady model.now }
    requires first { 0 < number }
    requires kind { spec.now.kind ≡ item.Specification kind }
    requires numbered { specification_at (program_in model.now) number ≡ Some (item_in model.now spec.now) }
    requires pool { IsPool (program_in model.now) model.now.built.systems model.now.effort (number - 1) pool.old.items }
    ensures number { IfOk result (λ r. r.number ≡ number) }
    ensures kind { IfOk result (λ r. r.kind ≡ kind) }
    ensures right { IfOk result (λ r. IsRight kind (program_in model.now) model.now.effort (item_in model.now spec.now) r.verdict) }
    ensures pool { OnOk result (IsPool (program_in model.now) model.now.built.systems model.now.effort number pool.new.items) }
{
    let verdict = judge_by_kind(rt, alloc, model, number, kind, spec, pool, gate)?;
    Ok(Record {
        number,
        kind,
        verdict,
    })
}

// What is said of a specification of this kind.
fn judge_by_kind<R: Threads + Wait + Sync, G: Gate + Sync>(
    rt: &R,
    alloc: Global,
    model: &Checking,
    number: usize,
    kind: SpecificationKind,
    spec: &Item,
    pool: &mut Vec<Answer>,
    gate: &G,
) -> Result<SpecVerdict, AllocError>
    requires ready { IsReady model.now }
    requires first { 0 < number }
    requires kind { spec.now.kind ≡ item.Specification kind }
    requires numbered { specification_at (program_in model.now) number ≡ Some (item_in model.now spec.now) }
    requires pool { IsPool (program_in model.now) model.now.built.systems model.now.effort (number - 1) pool.old.items }
    ensures right { IfOk result (IsRight kind (program_in model.now) model.now.effort (item_in model.now spec.now)) }
    ensures pool { OnOk result (IsPool (program_in model.now) model.now.built.systems model.now.effort number pool.new.items) }
{
    match kind {
        SpecificationKind::Invariant => {
            judge_invariant(rt, alloc, model, number, spec, pool, gate)
        }
        SpecificationKind::Temporal => judge_formula(rt, alloc, model, number, spec, gate),
    }
}

// What is said of an INVARSPEC, by the next of the answers of all at once, or else by an answer of its own.
fn judge_invariant<R: Threads + Wait + Sync, G: Gate + Sync>(
    rt: &R,
    alloc: Global,
    model: &Checking,
    number: usize,
    spec: &Item,
    pool: &mut Vec<Answer>,
    gate: &G,
) -> Result<SpecVerdict, AllocError>
    requires ready { IsReady model.now }
    requires first { 0 < number }
    requires invariant { is_invariant spec.now.kind ≡ true }
    requires numbered { specification_at (program_in model.now) number ≡ Some (item_in model.now spec.now) }
    requires pool { IsPool (program_in model.now) model.now.built.systems model.now.effort (number - 1) pool.old.items }
    ensures right { IfOk result (IsRightInvariant (program_in model.now) model.now.effort (item_in model.now spec.now)) }
    ensures pool { OnOk result (IsPool (program_in model.now) model.now.built.systems model.now.effort number pool.new.items) }
{
    let answer = answer_of(rt, alloc, model, number, spec, pool, gate)?;
    verdict_of(alloc, model, number, spec, answer)
}

// The last of these answers.
fn last_of(answers: &mut Vec<Answer>) -> Answer
    requires { 0 < length answers.old.items }
    ensures { answers.old.items ≡ answers.new.items ++ result ∷ [] }
{
    match answers.pop() {
        Some(answer) => answer,
        None => unreachable!(),
    }
}

// What is answered of a specification: the next of the answers of all at once, or what is answered of it alone.
fn answer_of<R: Threads + Wait + Sync, G: Gate + Sync>(
    rt: &R,
    alloc: Global,
    model: &Checking,
    number: usize,
    spec: &Item,
    pool: &mut Vec<Answer>,
    gate: &G,
) -> Result<Answer, AllocError>
    requires ready { IsReady model.now }
    requires first { 0 < number }
    requires invariant { is_invariant spec.now.kind ≡ true }
    requires numbered { specification_at (program_in model.now) number ≡ Some (item_in model.now spec.now) }
    requires pool { IsPool (program_in model.now) model.now.built.systems model.now.effort (number - 1) pool.old.items }
    ensures answered { IfOk result (IsAnswered (program_in model.now) model.now.effort (system_of model.now.built (number - 1)) (item_in model.now spec.now)) }
    ensures pool { OnOk result (IsPool (program_in model.now) model.now.built.systems model.now.effort number pool.new.items) }
{
    if model.effort.together {
        Ok(last_of(pool))
    } else {
        ask_alone(rt, alloc, model, number, spec, gate)
    }
}

// What is answered of a specification that is asked alone.
fn ask_alone<R: Threads + Wait + Sync, G: Gate + Sync>(
    rt: &R,
    alloc: Global,
    model: &Checking,
    number: usize,
    spec: &Item,
    gate: &G,
) -> Result<Answer, AllocError>
    requires ready { IsReady model.now }
    requires alone { model.now.effort.together ≡ false }
    requires first { 0 < number }
    requires invariant { is_invariant spec.now.kind ≡ true }
    requires numbered { specification_at (program_in model.now) number ≡ Some (item_in model.now spec.now) }
    ensures { IfOk result (IsAnswered (program_in model.now) model.now.effort (system_of model.now.built (number - 1)) (item_in model.now spec.now)) }
{
    let system = model.built.system_of(number - 1);
    let (effort, workers) = (prover_effort(&model.effort), model.effort.workers);
    let done = prove_invariant(rt, alloc, system, &effort, workers, gate)?;
    let mut answers = done.answers;
    Ok(last_of(&mut answers))
}

/// A certificate, where one is wanted.
pub fn if_wanted(wanted: bool, certificate: Certificate) -> Option<Certificate>
    ensures { result ≡ (if wanted then Some certificate else None) }
{
    if wanted { Some(certificate) } else { None }
}

// What is said of a specification of whose system this was answered.
fn verdict_of(
    alloc: Global,
    model: &Checking,
    number: usize,
    spec: &Item,
    answer: Answer,
) -> Result<SpecVerdict, AllocError>
    requires ready { IsReady model.now }
    requires first { 0 < number }
    requires invariant { is_invariant spec.now.kind ≡ true }
    requires numbered { specification_at (program_in model.now) number ≡ Some (item_in model.now spec.now) }
    requires answered { IsAnswered (program_in model.now) model.now.effort (system_of model.now.built (number - 1)) (item_in model.now spec.now) answer }
    ensures { IfOk result (IsRightInvariant (program_in model.now) model.now.effort (item_in model.now spec.now)) }
{
    match answer {
        Answer::True(certificate) => {
            no_run_reaches_bad();
            what_is_never_bad_is_unbroken();
            Ok(SpecVerdict::True(if_wanted(model.effort.cert, certificate)))
        }
        Answer::False(run) => {
            let run = run_of(alloc, &model.built, &run)?;
            let (states, inputs) = (run.states.as_slice(), run.inputs.as_slice());
            let trace = replayed(alloc, &model.flat.typed, number, spec, states, inputs)?;
            Ok(SpecVerdict::False(trace))
        }
        Answer::Unknown(cause) => Ok(SpecVerdict::Unknown(Reason::Invariant(cause))),
    }
}

// The trace of a run that breaks a specification. It is replayed before it is printed, and the replay accepts it: no
// item faults.
fn replayed(
    alloc: Global,
    typed: &Typed,
    number: usize,
    spec: &Item,
    states: &[State],
    inputs: &[Inputs],
) -> Result<Trace, AllocError>
    requires fault_free { IsFaultFree typed.now.scope.program }
    requires first { 0 < number }
    requires numbered { specification_at typed.now.scope.program number ≡ Some (item_by typed.now.nodes spec.now) }
    requires broken { Breaks typed.now.scope.program (item_by typed.now.nodes spec.now) states.now inputs.now }
    ensures { IfOk result (ShowsBroken typed.now.scope.program (item_by typed.now.nodes spec.now)) }
{
    some_inputs(alloc, typed)?;
    let trace = Trace::of_run(alloc, typed, states, inputs)?;
    match replay_run(alloc, typed, number, &trace)? {
        Replayed::Accepted => Ok(trace),
        Replayed::Rejected { .. } => unreachable!(),
    }
}
