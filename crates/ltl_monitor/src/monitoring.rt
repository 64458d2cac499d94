//! Puts the monitor of a formula beside a system (Lichtenstein, Pnueli and Zuck 1985). The fair
//! runs that it keeps are those on which the formula is false.

ghost use Rattle.std.specs.Prelude.{◌≡◌, ◌+◌, ◌≤◌, ◌↔◌, [], ◌∷◌, IfOk, OnOk, IsTrue, length};
ghost use Rattle.clause_core.specs.Literals.{Within, negate};
ghost use Rattle.clause_core.specs.Systems.{IsSystem, Gives};
ghost use Rattle.ltl_meaning.specs.Temporal.{formula_of};
ghost use Rattle.ltl_meaning.specs.Unfolded.{unfolded};
ghost use Rattle.ltl_monitor.specs.Monitor.{binary_bits, nodes};
ghost use Rattle.ltl_monitor.specs.States.{AtomsBelow, IsMonitor};
ghost use Rattle.ltl_monitor.specs.Assembly.{layout_of, scene_of, draft_of, assembled};
ghost use Rattle.ltl_monitor.specs.declared.layout.Space.{Space};
ghost use Rattle.ltl_monitor.specs.Drafting.{all_moved, start_added, drafted};

use crate::assembly::{assemble, begin, copied, layout_of, scene};
use crate::draft::{Draft, binary_bits, unary_bits};
use crate::layout::{Layout, Space, sum};
use crate::monitored_system::Monitored;
use clause_core::{Lit, System};
use ltl_meaning::formula::Formula;
use ltl_meaning::node::{BinaryOperator, FormulaNode};
use std::alloc::{AllocError, Global};

/// The system with the monitor of a formula beside it, where the formula is false at first.
///
/// `atoms` are the literals of the formula's atoms. A state has, after the system's bits, one bit for each temporal
/// operator (Lichtenstein, Pnueli and Zuck 1985), where one with bounds counts as many as its upper bound says; each
/// Boolean operator has a gate (Tseitin 1968). The formula is taken without bounds. Time and memory are linear in the
/// formula's size and the system's. The stack grows with the nesting of nodes, which callers keep to 2000; a chain
/// takes none of it. The only error is out of memory, which a number of variables past `usize::MAX` counts as.
pub fn monitored(
    alloc: Global,
    system: &System,
    formula: &Formula,
    atoms: &[Lit],
) -> Result<Monitored, AllocError>
    requires numbers { AtomsBelow (length atoms.now) (unfolded (formula_of formula.now.root)) }
    requires within { Within system.now.all_bits atoms.now }
    requires given { Gives system.now.state_bits atoms.now system.now.defs }
    ensures { IfOk result (λ m. IsMonitor system.now (unfolded (formula_of formula.now.root)) atoms.now m.system) }
{
    system.law();
    let nodes = count_nodes(&formula.root)?;
    let layout = layout_of(system, nodes)?;
    let draft = draft(alloc, layout, system, formula, atoms)?;
    with_draft(alloc, &layout, system, &draft)
}

// The system with the rules of a draft.
fn with_draft(
    alloc: Global,
    layout: &Layout,
    system: &System,
    draft: &Draft,
) -> Result<Monitored, AllocError>
    requires valid { IsSystem (assembled layout.now system.now (all_moved layout.now Space.System system.now.bad) (all_moved layout.now Space.System system.now.good) draft.now) }
    requires room { layout.now.given + layout.now.nodes ≤ draft.now.gate }
    ensures { IfOk result (λ m. m.system ≡ assembled layout.now system.now (all_moved layout.now Space.System system.now.bad) (all_moved layout.now Space.System system.now.good) draft.now) }
{
    let bad = copied(alloc, layout, Space::System, system.bad())?;
    let good = copied(alloc, layout, Space::System, system.good())?;
    let system = assemble(alloc, layout, system, bad, good, draft)?;
    Ok(Monitored { system })
}

/// Whether each atom's number in a formula is below a bound.
pub fn atoms_below(formula: &Formula, bound: usize) -> bool
    ensures { IsTrue result ↔ AtomsBelow bound (unfolded (formula_of formula.now.root)) }
{
    are_below(&formula.root, bound)
}

fn are_below(node: &FormulaNode, bound: usize) -> bool
    ensures { IsTrue result ↔ AtomsBelow bound (unfolded (formula_of node.now)) }
{
    match node {
        FormulaNode::Constant(_) => true,
        FormulaNode::Atom(number) => *number < bound,
        FormulaNode::Unary(_, operand) => are_below(operand.get(), bound),
        FormulaNode::Bounded(_, _, operand) => are_below(operand.get(), bound),
        FormulaNode::Implies(left, right) => {
            are_below(left.get(), bound) && are_below(right.get(), bound)
        }
        FormulaNode::Chain(first, links) => {
            let mut all = are_below(first.get(), bound);
            for link in links.as_slice() {
                all = are_below(&link.operand, bound) && all;
            }
            all
        }
    }
}

// The rules of a formula that is false in the first state.
fn draft(
    alloc: Global,
    layout: Layout,
    system: &System,
    formula: &Formula,
    atoms: &[Lit],
) -> Result<Draft, AllocError>
    ensures { IfOk result (λ d. d ≡ draft_of layout system.now (unfolded (formula_of formula.now.root)) atoms.now) }
{
    let mut draft = begin(alloc, &layout, system)?;
    deny(alloc, &mut draft, layout, system, formula, atoms)?;
    Ok(draft)
}

// Adds a formula, and that it is false in the first state.
fn deny(
    alloc: Global,
    draft: &mut Draft,
    layout: Layout,
    system: &System,
    formula: &Formula,
    atoms: &[Lit],
) -> Result<(), AllocError>
    ensures { OnOk result (draft.new ≡ (let x = drafted (scene_of layout system.now atoms.now) (unfolded (formula_of formula.now.root)) draft.old in start_added ((negate x.lit ∷ []) ∷ []) x.draft)) }
{
    let scene = scene(alloc, layout, system, atoms)?;
    draft.deny(&scene, &formula.root)
}

// How many temporal operators there are.
fn count_nodes(node: &FormulaNode) -> Result<usize, AllocError>
    ensures { IfOk result (λ n. n ≡ nodes (unfolded (formula_of node.now))) }
{
    match node {
        FormulaNode::Constant(_) | FormulaNode::Atom(_) => Ok(0),
        FormulaNode::Unary(operator, operand) => sum(
            count_nodes(operand.get())?,
            unary_bits(*operator),
        ),
        FormulaNode::Bounded(_, window, operand) => {
            sum(count_nodes(operand.get())?, window.high as usize)
        }
        FormulaNode::Implies(left, right) => {
            let left = count_nodes(left.get())?;
            count_joined(left, BinaryOperator::Implies, count_nodes(right.get())?)
        }
        FormulaNode::Chain(first, links) => {
            let mut all = count_nodes(first.get())?;
            for link in links.as_slice() {
                all = count_joined(all, link.operator, count_nodes(&link.operand)?)?;
            }
            Ok(all)
        }
    }
}

// How many there are in all, where the operands of an operator have so many.
fn count_joined(left: usize, operator: BinaryOperator, right: usize) -> Result<usize, AllocError>
    ensures { IfOk result (λ n. n ≡ left + (right + binary_bits operator)) }
{
    sum(left, sum(right, binary_bits(operator))?)
}
