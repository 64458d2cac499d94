//! The systems of a program.

ghost use Rattle.std.specs.Prelude.{◌≡◌, ◌≤◌, IfOk, IfErr};
ghost use Rattle.bit_states.specs.Layouts.{IsBuildStop, bit_limit, bits_of, layout_of};
ghost use Rattle.bit_system.specs.Building.{IsBuilt};
ghost use Rattle.bit_system.specs.Conditions.{TellsStates};
ghost use Rattle.bit_system.specs.Sharing.{IsShared};

use crate::coding::Built;
use crate::sides::{StateConditions, state_side, state_side_conditions, step_side};
use crate::systems::{Shared, claims, highest, systems};
use bit_states::{BuildStop, Layout, layout_of};
use smv_flat::Flat;
use smv_meaning::{Typed, specifications};
use std::alloc::{AllocError, Global};

// What all systems of the program share.
fn shared_side(
    alloc: Global,
    typed: &Typed,
    layout: &Layout,
    parts: &StateConditions,
) -> Result<Shared, AllocError>
    requires layout { layout.now ≡ layout_of typed.now.scope.program }
    requires small { bits_of typed.now.scope.program ≤ bit_limit }
    requires parts { TellsStates typed.now.scope.program parts.now }
    ensures { IfOk result (IsShared typed.now.scope.program) }
{
    let width = layout.state().len();
    let steps = step_side(alloc, typed, layout, width + width + layout.inputs().len())?;
    let states = state_side(alloc, typed, parts, width, steps.vars - width)?;
    Ok(Shared {
        width,
        steps,
        states,
    })
}

// The systems over what they share.
fn built_on(
    alloc: Global,
    typed: &Typed,
    layout: Layout,
    parts: &StateConditions,
    shared: &Shared,
) -> Result<Built, AllocError>
    requires layout { layout ≡ layout_of typed.now.scope.program }
    requires parts { TellsStates typed.now.scope.program parts.now }
    requires shared { IsShared typed.now.scope.program shared.now }
    ensures { IfOk result (IsBuilt typed.now.scope.program) }
{
    let width = shared.width;
    let by = shared.steps.vars - width;
    parts.graph.one_way();
    let claims = claims(alloc, &parts.graph, width, by, &parts.bad)?;
    let vars = highest(shared.states.vars, &claims);
    let systems = systems(alloc, shared, vars, &claims)?;
    Ok(Built::new(layout, systems))
}

/// The systems of a program over bits.
///
/// There is one graph for states and one for steps, and their clauses are made once. The variables of each system are
/// the bits of a state in the order of the slots, those of the next state, those of the inputs, and then those that
/// clauses need. Bits that are the code of no values are of no initial state, no step and no bad state. Time and memory
/// grow with the nodes of the program and the bits of their values, and the copies of clauses with the specifications.
///
/// # Errors
///
/// - `TooManyBits` just where a state and the inputs of a step have more than 65536 bits together.
/// - `NoMemory` if memory is refused.
pub fn build(alloc: Global, flat: &Flat) -> Result<Built, BuildStop>
    ensures built { IfOk result (IsBuilt flat.now.typed.scope.program) }
    ensures small { IfOk result (λ b. bits_of flat.now.typed.scope.program ≤ bit_limit) }
    ensures refused { IfErr result (IsBuildStop flat.now.typed.scope.program) }
{
    let typed = &flat.typed;
    let layout = layout_of(alloc, typed)?;
    let specs = specifications(alloc, typed)?;
    let parts = state_side_conditions(alloc, typed, &layout, specs.as_slice())?;
    let shared = shared_side(alloc, typed, &layout, &parts)?;
    let built = built_on(alloc, typed, layout, &parts, &shared)?;
    Ok(built)
}
