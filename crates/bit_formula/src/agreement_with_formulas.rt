//! Laws of the coding of states with inputs, and of systems that stand for a program and a formula.

ghost use Rattle.std.specs.Prelude.{List};
ghost use Rattle.smv_tree.specs.declared.tree.Program.{Program};
ghost use Rattle.smv_resolve.specs.Items.{ResolvedItem};
ghost use Rattle.smv_resolve.specs.Resolved.{Resolved};
ghost use Rattle.bit_states.specs.Layouts.{HasTypes};
ghost use Rattle.bit_formula.specs.Agreeing.{AreAllRead, FormulaAgrees, IsJointCoding};
ghost use Rattle.bit_formula.specs.Reading.{reads_of};
ghost use Rattle.bit_formula.specs.Standing.{FormulaSystem, StandsForFormula};

/// The law of the coding: states with the inputs that some expressions read go to bits and back, where the types of a
/// program are types.
pub fn is_joint_coding()
    ensures { (p : Program) (parts : List Resolved) → HasTypes p → IsJointCoding p (reads_of p parts) }
{}

/// Inputs that agree where expressions read them give each of these the same outcome.
pub fn what_is_read()
    ensures { (p : Program) (parts : List Resolved) → AreAllRead p parts }
{}

/// A system that stands for a program and the formula of a specification has the program's initial states and steps.
/// Its literals tell where JUSTICE and the atoms of the formula are TRUE.
pub fn what_stands_agrees_with_formulas()
    ensures { (p : Program) (spec : ResolvedItem) (r : FormulaSystem) (stands : StandsForFormula p spec r) → FormulaAgrees p r stands.parts }
{}
