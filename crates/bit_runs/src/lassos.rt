//! The lasso of a program that a lasso over bits is.

ghost use Rattle.std.specs.Prelude.{◌≡◌, Bool, List, map, true, IfOk};
ghost use Rattle.clause_core.specs.Assignments.{assignment_of};
ghost use Rattle.ltl_meaning.specs.Unfolded.{unfolded};
ghost use Rattle.smv_tree.specs.declared.tree.Program.{Program};
ghost use Rattle.smv_resolve.specs.Items.{ResolvedItem};
ghost use Rattle.smv_meaning.specs.Lassos.{Violates};
ghost use Rattle.ltl_lassos.specs.Violating.{AreViolating};
ghost use Rattle.std.specs.List.{list_all};
ghost use Rattle.value_types.specs.Types.{is_type};
ghost use Rattle.bit_states.specs.Coding.{decoded};
ghost use Rattle.bit_formula.specs.Standing.{StandsForFormula};
ghost use Rattle.bit_lassos.specs.Claims.{lasso_in};
ghost use Rattle.bit_runs.specs.Running.{lasso_at};

use bit_formula::FormulaSystem;
use bit_lassos::what_violates_over_bits;
use bit_states::decoded;
use lasso_search::BitLasso;
use smv_meaning::{Inputs, State};
use smv_value::Value;
use sqlite_items::Items;
use std::alloc::{AllocError, Global};
use value_types::ValueType;

/// A lasso of a program: its states, the inputs of the step from each, and the number of the state at which it goes on
/// after the last.
#[derive(Debug, Drop)]
pub struct Lasso {
    pub states: Items<State>,
    pub inputs: Items<Inputs>,
    pub start: usize,
}

/// The lasso of the program that a lasso over bits is.
///
/// Where the lasso over bits violates the formula of a specification, that lasso violates the specification. Time and
/// memory grow with the values of the states and inputs. The only error is running out of memory.
pub fn lasso_of(
    alloc: Global,
    system: &FormulaSystem,
    lasso: &BitLasso,
) -> Result<Lasso, AllocError>
    ensures same { IfOk result (λ w. lasso_at w ≡ lasso_in system.now lasso.now.rows lasso.now.start) }
    ensures violates { (p : Program) (spec : ResolvedItem) → StandsForFormula p spec system.now
        → AreViolating system.now.system (unfolded system.now.formula) system.now.atoms lasso.now.rows lasso.now.start → IfOk result (λ w. Violates p spec (lasso_at w)) }
{
    what_violates_over_bits();
    let layout = system.layout();
    let states = decoded_rows(alloc, layout.state_types(), layout.state(), lasso)?;
    let inputs = decoded_rows(alloc, layout.input_types(), layout.inputs(), lasso)?;
    Ok(Lasso {
        states,
        inputs,
        start: lasso.start(),
    })
}

// The values of these types that these bits of each row are.
fn decoded_rows(
    alloc: Global,
    types: &[ValueType],
    places: &[usize],
    lasso: &BitLasso,
) -> Result<Items<Items<Value>>, AllocError>
    requires { list_all is_type types.now ≡ true }
    ensures { IfOk result (λ rows. rows ≡ map (λ (row : List Bool). decoded types.now places.now (assignment_of row)) lasso.now.rows) }
{
    let mut rows = Vec::new(alloc);
    for k in 0..lasso.len() {
        rows.push(decoded(alloc, types, places, lasso.row(k).as_slice())?)?;
    }
    Ok(Items::from_vec(rows))
}
