//! What is built for an LTLSPEC.

ghost use Rattle.std.specs.Prelude.{◌≡◌, ◌≤◌, IfOk};
ghost use Rattle.std.specs.List.{Contains};
ghost use Rattle.clause_core.specs.Assignments.{assignment_of};
ghost use Rattle.ltl_meaning.specs.Temporal.{formula_of};
ghost use Rattle.smv_resolve.specs.Items.{item_by};
ghost use Rattle.smv_tree.specs.declared.tree.SpecificationKind.TheVariants as claim;
ghost use Rattle.smv_resolve.specs.declared.item.ItemKind.TheVariants as item;
ghost use Rattle.smv_meaning.specs.Runs.{specifications_of};
ghost use Rattle.bit_states.specs.Coding.{decoded};
ghost use Rattle.bit_states.specs.Layouts.{bit_limit, bits_of, input_types};
ghost use Rattle.bit_formula.specs.Coding.{input_count, joint_layout, joint_named, joint_width};
ghost use Rattle.bit_formula.specs.Numbers.{AreInOrder};
ghost use Rattle.bit_formula.specs.Standing.{StandsForFormula};

use crate::joining::{JointSystem, joint_system};
use crate::places::{Places, joint_places};
use crate::reading::reads_of;
use bit_states::{Layout, input_types, state_types, width_of_all};
use clause_core::{Bits, Lit, System};
use ltl_meaning::formula::Formula;
use ltl_monitor::atoms_below;
use smv_flat::Flat;
use smv_formulas::formula_of;
use smv_meaning::{Inputs, State, Typed};
use smv_resolve::Item;
use sqlite_items::Items;
use std::alloc::{AllocError, Global};
use std::marker::Model;
use value_types::ValueType;

/// What stands for an LTLSPEC over bits: a system, the formula, and a literal for each of its atoms. A state has a bit
/// for each of its slots, and behind them one for each input that the formula reads. Contracts see these, and where the
/// bits stand.
#[derive(Drop)]
pub struct FormulaSystem {
    reads: Vec<usize>,
    layout: Layout,
    system: System,
    formula: Formula,
    atoms: Vec<Lit>,
}

impl Model for FormulaSystem {
    ghost use Rattle.std.specs.Coded.{codes};
    ghost use Rattle.ltl_meaning.specs.contracts.node.FormulaNode as node;
    ghost use Rattle.ltl_meaning.specs.Temporal.{formula_of};
    ghost use Rattle.bit_formula.specs.Standing as standing;
    ghost use Rattle.bit_formula.specs.Stored.{formula_code};

    ghost Value = { standing.FormulaSystem };

    ghost coded = { Prim.hlevel (codes, formula_code node.the_row.coded) };

    ghost view = { λ b. record { reads = b.reads.items; layout = b.layout; system = b.system; formula = formula_of b.formula.root; atoms = b.atoms.items } };
}

impl FormulaSystem {
    // The parts as one; takes no memory.
    fn new(reads: Vec<usize>, layout: Layout, joint: JointSystem, formula: Formula) -> FormulaSystem
        ensures { result ≡ record { reads = reads.items; layout = layout; system = joint.system; formula = formula_of formula.root; atoms = joint.atoms.items } }
    {
        let JointSystem { system, atoms } = joint;
        FormulaSystem {
            reads,
            layout,
            system,
            formula,
            atoms,
        }
    }

    /// The system. No state is bad.
    pub fn system(&self) -> &System
        ensures { result.now ≡ self.now.system }
    {
        &self.system
    }

    /// The formula over the atoms.
    pub fn formula(&self) -> &Formula
        ensures { formula_of result.now.root ≡ self.now.formula }
    {
        &self.formula
    }

    /// The literals of the atoms, in their order.
    pub fn atoms(&self) -> &[Lit]
        ensures { result.now ≡ self.now.atoms }
    {
        &self.atoms
    }

    /// The numbers of the inputs that the formula reads, in their order.
    pub fn reads(&self) -> &[usize]
        ensures { result.now ≡ self.now.reads }
    {
        &self.reads
    }

    /// Where the bits of states and of the inputs of steps stand. The bits of inputs that the formula reads are among
    /// those of the state.
    pub fn layout(&self) -> &Layout
        ensures { result.now ≡ self.now.layout }
    {
        &self.layout
    }

    /// The state that the bits are; bits past the end of the list are false. The only error is running out of memory.
    pub fn decode(&self, alloc: Global, bits: &Bits) -> Result<State, AllocError>
        ensures { IfOk result (λ s. s ≡ decoded self.now.layout.state_types self.now.layout.state (assignment_of bits.now)) }
    {
        self.layout.decode(alloc, bits.as_slice())
    }

    /// The inputs of a step that the values of all bits are. The only error is running out of memory.
    pub fn decode_inputs(&self, alloc: Global, bits: &Bits) -> Result<Inputs, AllocError>
        ensures { IfOk result (λ u. u ≡ decoded self.now.layout.input_types self.now.layout.inputs (assignment_of bits.now)) }
    {
        self.layout.decode_inputs(alloc, bits.as_slice())
    }
}

/// The system over bits for the formula of a specification.
///
/// The first variables are the bits of a state: those of its slots, and then those of the inputs that the formula
/// reads. Both are in the order of the slots. Those of the next state follow, those of the other inputs of the step,
/// and then those that clauses need. Time and memory grow with the nodes of the program, and with the formula in which
/// each name stands for what it leads to. Where the formula reads an input, the time grows with the nodes times the
/// inputs.
///
/// # Errors
///
/// Only running out of memory. So counts what `formula_of` says, and a formula with more atoms than literals, which
/// none has.
pub fn build_formula(alloc: Global, flat: &Flat, spec: &Item) -> Result<FormulaSystem, AllocError>
    requires narrow { bits_of flat.now.typed.scope.program ≤ bit_limit }
    requires among { Contains (specifications_of flat.now.typed.scope.program) (item_by flat.now.typed.nodes spec.now) }
    requires temporal { spec.now.kind ≡ item.Specification claim.Temporal }
    ensures { IfOk result (StandsForFormula flat.now.typed.scope.program (item_by flat.now.typed.nodes spec.now)) }
{
    let typed = &flat.typed;
    let specified = formula_of(alloc, typed, spec)?;
    let atoms = specified.atoms.as_slice();
    let given = input_types(alloc, typed)?;
    let reads = reads_of(alloc, typed, atoms, given.as_slice().len())?;
    let places = places_of(alloc, typed, given, &reads)?;
    let joint = joint_system(alloc, typed, &places, &reads, atoms)?;
    if !atoms_below(&specified.formula, joint.atoms.as_slice().len()) {
        return Err(AllocError);
    }
    Ok(FormulaSystem::new(reads, places.layout, joint, specified.formula))
}

// Where the bits of states with the inputs of these numbers stand, where these are the types of all inputs.
fn places_of(
    alloc: Global,
    typed: &Typed,
    given: Items<ValueType>,
    reads: &[usize],
) -> Result<Places, AllocError>
    requires narrow { bits_of typed.now.scope.program ≤ bit_limit }
    requires given { given ≡ input_types typed.now.scope.program }
    requires order { AreInOrder (input_count typed.now.scope.program) reads.now }
    ensures layout { IfOk result (λ r. r.layout ≡ joint_layout typed.now.scope.program reads.now) }
    ensures joint { IfOk result (λ r. r.joint ≡ joint_width typed.now.scope.program reads.now) }
    ensures named { IfOk result (λ r. r.named ≡ joint_named typed.now.scope.program reads.now) }
{
    let slots = state_types(alloc, typed)?;
    match width_of_all(slots.as_slice()) {
        None => Err(AllocError),
        Some(width) => joint_places(alloc, width, slots, given, reads),
    }
}
