//! What is said of an LTLSPEC: no fair lasso violates it, or one that does is replayed.

ghost use Rattle.std.specs.Prelude.{◌≡◌, ◌<◌, IfOk, Some};
ghost use Rattle.smv_tree.specs.declared.tree.Program.{Program};
ghost use Rattle.smv_resolve.specs.Items.{ResolvedItem};
ghost use Rattle.ltl_meaning.specs.Unfolded.{unfolded};
ghost use Rattle.ltl_lassos.specs.Violating.{AreViolating};
ghost use Rattle.smv_resolve.specs.Items.{item_by};
ghost use Rattle.smv_resolve.specs.declared.item.ItemKind.TheVariants as item;
ghost use Rattle.smv_tree.specs.declared.tree.SpecificationKind.TheVariants as claim;
ghost use Rattle.smv_meaning.specs.Faults.{IsFaultFree};
ghost use Rattle.smv_meaning.specs.Lassos.{Violates};
ghost use Rattle.bit_formula.specs.Standing.{StandsForFormula};
ghost use Rattle.bit_runs.specs.Running.{lasso_at};
ghost use Rattle.trace_replay.specs.Lassos.{ShowsViolated};
ghost use Rattle.trace_replay.specs.Tests.{specification_at};
ghost use Rattle.smv_cli.specs.Records.{IsRightFormula, ltl_effort};
ghost use Rattle.smv_cli.specs.Written.{IsFormulaAnswered, IsInRange, IsReady, item_in, program_in};

use crate::checking::Checking;
use crate::judging::if_wanted;
use crate::record::{Reason, SpecVerdict};
use bit_formula::{FormulaSystem, build_formula};
use bit_lassos::what_is_never_violated;
use bit_runs::{Lasso, lasso_of};
use command_words::Effort;
use lasso_search::BitLasso;
use outside::Gate;
use prove_ltl::{LtlAnswer, LtlDone, LtlEffort, prove_ltl};
use smv_meaning::Typed;
use smv_resolve::Item;
use std::alloc::{AllocError, Global};
use std::sync::Wait;
use std::thread::Threads;
use trace_replay::{Replayed, Trace, replay};

// How much the prover of formulas may do.
fn ltl_effort(effort: &Effort) -> LtlEffort
    ensures { result ≡ ltl_effort effort.now }
{
    LtlEffort {
        conflicts: effort.conflicts,
        frames: effort.frames,
        counter: effort.counter,
        bound: effort.bound,
    }
}

/// What is said of the LTLSPEC of this number.
///
/// Its system is built anew, with the inputs that its formula reads. The only error is out of memory.
pub fn judge_formula<R: Threads + Wait + Sync, G: Gate + Sync>(
    rt: &R,
    alloc: Global,
    model: &Checking,
    number: usize,
    spec: &Item,
    gate: &G,
) -> Result<SpecVerdict, AllocError>
    requires ready { IsReady model.now }
    requires first { 0 < number }
    requires temporal { spec.now.kind ≡ item.Specification claim.Temporal }
    requires numbered { specification_at (program_in model.now) number ≡ Some (item_in model.now spec.now) }
    ensures { IfOk result (IsRightFormula (program_in model.now) model.now.effort (item_in model.now spec.now)) }
{
    let formula = build_formula(alloc, &model.flat, spec)?;
    let answer = ask(rt, alloc, &formula, &model.effort, gate)?;
    formula_verdict(alloc, model, number, spec, &formula, answer)
}

// What is said of an LTLSPEC of whose formula this was answered.
fn formula_verdict(
    alloc: Global,
    model: &Checking,
    number: usize,
    spec: &Item,
    formula: &FormulaSystem,
    answer: LtlAnswer,
) -> Result<SpecVerdict, AllocError>
    requires fault_free { IsFaultFree (program_in model.now) }
    requires first { 0 < number }
    requires temporal { spec.now.kind ≡ item.Specification claim.Temporal }
    requires numbered { specification_at (program_in model.now) number ≡ Some (item_in model.now spec.now) }
    requires stands { StandsForFormula (program_in model.now) (item_in model.now spec.now) formula.now }
    requires answered { IsFormulaAnswered model.now.effort formula.now answer }
    ensures { IfOk result (IsRightFormula (program_in model.now) model.now.effort (item_in model.now spec.now)) }
{
    what_is_never_violated();
    match answer {
        LtlAnswer::True(certificate) => {
            Ok(SpecVerdict::True(if_wanted(model.effort.cert, certificate)))
        }
        LtlAnswer::False(lasso) => {
            let trace = shown(alloc, &model.flat.typed, number, spec, formula, &lasso)?;
            Ok(SpecVerdict::False(trace))
        }
        LtlAnswer::Unknown(cause) => Ok(SpecVerdict::Unknown(Reason::Formula(cause))),
    }
}

// What is answered of a system and its formula.
fn ask<R: Threads + Wait + Sync, G: Gate + Sync>(
    rt: &R,
    alloc: Global,
    formula: &FormulaSystem,
    effort: &Effort,
    gate: &G,
) -> Result<LtlAnswer, AllocError>
    requires stands { (p : Program) × ((spec : ResolvedItem) × StandsForFormula p spec formula.now) }
    requires range { IsInRange effort.now }
    ensures { IfOk result (IsFormulaAnswered effort.now formula.now) }
{
    let (stated, atoms) = (formula.formula(), formula.atoms());
    let (system, limits) = (formula.system(), ltl_effort(effort));
    let done = prove_ltl(
        rt,
        alloc,
        system,
        stated,
        atoms,
        &limits,
        effort.workers,
        gate,
    )?;
    let LtlDone { answer, work: _ } = done;
    Ok(answer)
}

// The trace of a lasso that violates a specification, by a lasso over bits.
fn shown(
    alloc: Global,
    typed: &Typed,
    number: usize,
    spec: &Item,
    formula: &FormulaSystem,
    lasso: &BitLasso,
) -> Result<Trace, AllocError>
    requires fault_free { IsFaultFree typed.now.scope.program }
    requires first { 0 < number }
    requires temporal { spec.now.kind ≡ item.Specification claim.Temporal }
    requires numbered { specification_at typed.now.scope.program number ≡ Some (item_by typed.now.nodes spec.now) }
    requires stands { StandsForFormula typed.now.scope.program (item_by typed.now.nodes spec.now) formula.now }
    requires violates { AreViolating formula.now.system (unfolded formula.now.formula) formula.now.atoms lasso.now.rows lasso.now.start }
    ensures { IfOk result (ShowsViolated typed.now.scope.program (item_by typed.now.nodes spec.now)) }
{
    let lasso = lasso_of(alloc, formula, lasso)?;
    replayed_lasso(alloc, typed, number, spec, &lasso)
}

// The trace of a lasso that violates a specification. It is replayed before it is printed, and the replay accepts it:
// no item faults.
fn replayed_lasso(
    alloc: Global,
    typed: &Typed,
    number: usize,
    spec: &Item,
    lasso: &Lasso,
) -> Result<Trace, AllocError>
    requires fault_free { IsFaultFree typed.now.scope.program }
    requires first { 0 < number }
    requires temporal { spec.now.kind ≡ item.Specification claim.Temporal }
    requires numbered { specification_at typed.now.scope.program number ≡ Some (item_by typed.now.nodes spec.now) }
    requires violates { Violates typed.now.scope.program (item_by typed.now.nodes spec.now) (lasso_at lasso.now) }
    ensures { IfOk result (ShowsViolated typed.now.scope.program (item_by typed.now.nodes spec.now)) }
{
    let (states, inputs) = (lasso.states.as_slice(), lasso.inputs.as_slice());
    let trace = Trace::of_lasso(alloc, typed, states, inputs, lasso.start)?;
    match replay(alloc, typed, number, &trace)? {
        Replayed::Accepted => Ok(trace),
        Replayed::Rejected { .. } => unreachable!(),
    }
}
