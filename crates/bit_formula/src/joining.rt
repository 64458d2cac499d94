//! The system of the clauses of states and steps.

ghost use Rattle.std.specs.Prelude.{◌≡◌, IfOk};
ghost use Rattle.smv_formulas.specs.Says.{atom_parts};
ghost use Rattle.bit_formula.specs.Coding.{joint_layout, joint_named, joint_width};
ghost use Rattle.bit_formula.specs.Conditions.{AreGiven};
ghost use Rattle.bit_formula.specs.Sides.{CanBeJoined, IsJointSystem, joined_system};

use crate::places::Places;
use crate::sides::{JointSide, joint_side, step_side};
use crate::states::state_conditions;
use bit_clauses::Decided;
use clause_core::{Clauses, Lit, Parts, System};
use smv_meaning::Typed;
use std::alloc::{AllocError, Global};

/// A system, and the literals of atoms that it defines.
#[derive(Drop)]
pub struct JointSystem {
    pub system: System,
    pub atoms: Vec<Lit>,
}

// The system of these clauses, with states of so many bits, none of which is bad.
fn joined(
    alloc: Global,
    width: usize,
    steps: Decided,
    side: JointSide,
) -> Result<JointSystem, AllocError>
    requires { CanBeJoined width steps side }
    ensures system { IfOk result (λ r. r.system ≡ joined_system width steps side) }
    ensures atoms { IfOk result (λ r. r.atoms.items ≡ side.atoms.items) }
{
    let mut bad = Clauses::new(alloc);
    bad.push(&[])?;
    let system = System::new(Parts {
        state_bits: width,
        all_bits: side.vars,
        init: side.init,
        step: steps.clauses,
        bad,
        good: Clauses::new(alloc),
        fair: side.fair,
        defs: side.defs,
    });
    Ok(JointSystem {
        system,
        atoms: side.atoms,
    })
}

/// The system of a program with the inputs of these numbers in its states, and the literals of the atoms, which are
/// numbers of nodes.
pub fn joint_system(
    alloc: Global,
    typed: &Typed,
    places: &Places,
    reads: &[usize],
    atoms: &[usize],
) -> Result<JointSystem, AllocError>
    requires layout { places.now.layout ≡ joint_layout typed.now.scope.program reads.now }
    requires joint { places.now.joint ≡ joint_width typed.now.scope.program reads.now }
    requires named { places.now.named ≡ joint_named typed.now.scope.program reads.now }
    requires given { AreGiven typed.now.scope.program (atom_parts typed.now.nodes atoms.now) }
    ensures { IfOk result (IsJointSystem typed.now.scope.program reads.now (atom_parts typed.now.nodes atoms.now)) }
{
    let layout = &places.layout;
    let joint = places.joint;
    let parts = state_conditions(alloc, typed, layout, reads, atoms, joint)?;
    parts.graph.one_way();
    let steps = step_side(alloc, typed, layout, reads, joint, places.named)?;
    let side = joint_side(alloc, &parts, joint, steps.vars - joint)?;
    let system = joined(alloc, joint, steps, side)?;
    Ok(system)
}
