//! Laws from lassos over bits to lassos of a program, by a system that stands for the program and a formula.

ghost use Rattle.std.specs.Prelude.{ℕ, Bool, List};
ghost use Rattle.ltl_meaning.specs.Unfolded.{unfolded};
ghost use Rattle.smv_tree.specs.declared.tree.Program.{Program};
ghost use Rattle.smv_resolve.specs.Items.{ResolvedItem};
ghost use Rattle.smv_meaning.specs.Lassos.{Violates};
ghost use Rattle.bit_formula.specs.Standing.{FormulaSystem, StandsForFormula};
ghost use Rattle.ltl_lassos.specs.Violating.{AreViolating, NeverViolated, NeverViolatedWithin};
ghost use Rattle.bit_lassos.specs.Claims.{IsUnviolated, IsUnviolatedWithin, lasso_in};

use bit_formula::{is_joint_coding, what_is_read, what_stands_agrees_with_formulas};

/// Where rows of bits violate the formula of a specification, the lasso of the program that they are violates the
/// specification.
pub fn what_violates_over_bits()
    ensures { (p : Program) (spec : ResolvedItem) (r : FormulaSystem) (rows : List (List Bool)) (start : ℕ) → StandsForFormula p spec r
        → AreViolating r.system (unfolded r.formula) r.atoms rows start → Violates p spec (lasso_in r rows start) }
{
    is_joint_coding();
    what_is_read();
    what_stands_agrees_with_formulas();
}

/// Where no lasso over bits violates the formula of a specification, no lasso of the program violates the
/// specification. The same holds of the lassos whose states, with so many passes more of the loop, are at most so many.
pub fn what_is_never_violated()
    ensures all { (p : Program) (spec : ResolvedItem) (r : FormulaSystem) → StandsForFormula p spec r
        → NeverViolated r.system (unfolded r.formula) r.atoms → IsUnviolated p spec }
    ensures within { (p : Program) (spec : ResolvedItem) (r : FormulaSystem) (h bound : ℕ) → StandsForFormula p spec r
        → NeverViolatedWithin r.system (unfolded r.formula) r.atoms h bound → IsUnviolatedWithin p spec h bound }
{
    is_joint_coding();
    what_is_read();
    what_stands_agrees_with_formulas();
}
