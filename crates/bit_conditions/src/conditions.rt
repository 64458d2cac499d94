//! What is asked of initial states and steps, as conditions of edges.

ghost use Rattle.std.specs.Prelude.{◌≡◌, ◌&&◌, ℕ, Bool, true, IfOk, OnOk};
ghost use Rattle.std.specs.List.{list_all};
ghost use Rattle.bit_graph.specs.Growth.{Extends};
ghost use Rattle.bit_graph.specs.Meaning.{Consistent};
ghost use Rattle.bit_clauses.specs.Asserted.{EithersStand, all_hold};
ghost use Rattle.smv_slots.specs.Slots.{slots_of};
ghost use Rattle.smv_layout.specs.Layout.{items_of};
ghost use Rattle.smv_meaning.specs.Runs.{allows_first, allows_step, are_inputs, is_first_state, is_state, is_step, keeps_frozen, meets_invariants};
ghost use Rattle.bit_conditions.specs.Told.{Tells, TellsInputs, TellsState, inputs_under, state_under};

use crate::asking::ask_items;
use crate::demands::When;
use crate::keeping::ask_kept;
use crate::told::{ToldInputs, ToldState, told_step};
use bit_clauses::{Either, ask};
use bit_graph::Graph;
use bit_states::state_types;
use smv_meaning::{Typed, state_slots};
use std::alloc::{AllocError, Global};

// Asks what the items ask of an initial state.
fn ask_first(
    alloc: Global,
    graph: &mut Graph,
    asked: &mut Vec<Either>,
    typed: &Typed,
    state: &ToldState,
) -> Result<(), AllocError>
    requires state { TellsState graph.old typed.now state.now }
    requires stand { EithersStand graph.old asked.old.items }
    ensures extends { Extends graph.old graph.new }
    ensures stand { OnOk result (EithersStand graph.new asked.new.items) }
    ensures holds { OnOk result ((v : ℕ → Bool) → Consistent v graph.new → is_state typed.now.scope.program (state_under typed.now.scope.program v state.now.bits) ≡ true →
        all_hold v asked.new.items ≡ (all_hold v asked.old.items && list_all (allows_first (slots_of typed.now.scope.program) (state_under typed.now.scope.program v state.now.bits)) (items_of typed.now.scope.program))) }
{
    let here = state.told.as_slice();
    ask_items(
        alloc,
        graph,
        asked,
        When::First,
        here,
        here,
        typed.items.as_slice(),
    )?;
    Ok(())
}

// Asks what the items ask of each state.
fn ask_always(
    alloc: Global,
    graph: &mut Graph,
    asked: &mut Vec<Either>,
    typed: &Typed,
    state: &ToldState,
) -> Result<(), AllocError>
    requires state { TellsState graph.old typed.now state.now }
    requires stand { EithersStand graph.old asked.old.items }
    ensures extends { Extends graph.old graph.new }
    ensures stand { OnOk result (EithersStand graph.new asked.new.items) }
    ensures holds { OnOk result ((v : ℕ → Bool) → Consistent v graph.new → is_state typed.now.scope.program (state_under typed.now.scope.program v state.now.bits) ≡ true →
        all_hold v asked.new.items ≡ (all_hold v asked.old.items && meets_invariants typed.now.scope.program (state_under typed.now.scope.program v state.now.bits))) }
{
    let here = state.told.as_slice();
    ask_items(
        alloc,
        graph,
        asked,
        When::Always,
        here,
        here,
        typed.items.as_slice(),
    )?;
    Ok(())
}

// Asks what the items ask of a step alone.
fn ask_step(
    alloc: Global,
    graph: &mut Graph,
    asked: &mut Vec<Either>,
    typed: &Typed,
    from: &ToldState,
    inputs: &ToldInputs,
    to: &ToldState,
) -> Result<(), AllocError>
    requires from { TellsState graph.old typed.now from.now }
    requires inputs { TellsInputs graph.old typed.now inputs.now }
    requires to { TellsState graph.old typed.now to.now }
    requires stand { EithersStand graph.old asked.old.items }
    ensures extends { Extends graph.old graph.new }
    ensures stand { OnOk result (EithersStand graph.new asked.new.items) }
    ensures holds { OnOk result ((v : ℕ → Bool) → Consistent v graph.new → is_state typed.now.scope.program (state_under typed.now.scope.program v from.now.bits) ≡ true →
        are_inputs typed.now.scope.program (inputs_under typed.now.scope.program v inputs.now.bits) ≡ true → is_state typed.now.scope.program (state_under typed.now.scope.program v to.now.bits) ≡ true →
        all_hold v asked.new.items ≡ (all_hold v asked.old.items && list_all (allows_step (slots_of typed.now.scope.program) (state_under typed.now.scope.program v from.now.bits)
        (inputs_under typed.now.scope.program v inputs.now.bits) (state_under typed.now.scope.program v to.now.bits)) (items_of typed.now.scope.program))) }
{
    let here = told_step(alloc, graph, typed, from, inputs, to)?;
    let there = to.told.as_slice();
    ask_items(
        alloc,
        graph,
        asked,
        When::Step,
        there,
        here.as_slice(),
        typed.items.as_slice(),
    )?;
    Ok(())
}

// Asks that frozen slots keep their values.
fn ask_frozen(
    alloc: Global,
    graph: &Graph,
    asked: &mut Vec<Either>,
    typed: &Typed,
    from: &ToldState,
    to: &ToldState,
) -> Result<(), AllocError>
    requires from { TellsState graph.now typed.now from.now }
    requires to { TellsState graph.now typed.now to.now }
    requires stand { EithersStand graph.now asked.old.items }
    ensures stand { OnOk result (EithersStand graph.now asked.new.items) }
    ensures holds { OnOk result ((v : ℕ → Bool) → Consistent v graph.now → is_state typed.now.scope.program (state_under typed.now.scope.program v from.now.bits) ≡ true →
        is_state typed.now.scope.program (state_under typed.now.scope.program v to.now.bits) ≡ true →
        all_hold v asked.new.items ≡ (all_hold v asked.old.items && keeps_frozen (slots_of typed.now.scope.program) (state_under typed.now.scope.program v from.now.bits) (state_under typed.now.scope.program v to.now.bits))) }
{
    let slots = state_slots(alloc, typed.slots.as_slice())?;
    let types = state_types(alloc, typed)?;
    ask_kept(
        graph,
        asked,
        slots.as_slice(),
        types.as_slice(),
        from.bits.as_slice(),
        to.bits.as_slice(),
    )?;
    Ok(())
}

/// What is asked of an initial state: what its items ask, and that its bits are those of a state.
///
/// Conditions grow with the items, and gates with what assignments choose from. The only error is running out of
/// memory, or outcomes of which nothing is told, which in a typed program do not come.
pub fn first_conditions(
    alloc: Global,
    graph: &mut Graph,
    typed: &Typed,
    state: &ToldState,
) -> Result<Vec<Either>, AllocError>
    requires { TellsState graph.old typed.now state.now }
    ensures extends { Extends graph.old graph.new }
    ensures asked { IfOk result (λ r. Tells graph.new r.items (λ v. is_first_state typed.now.scope.program (state_under typed.now.scope.program v state.now.bits))) }
{
    let mut asked = Vec::new(alloc);
    ask_first(alloc, graph, &mut asked, typed, state)?;
    ask(graph, &mut asked, state.valid)?;
    Ok(asked)
}

/// What is asked of a step with these inputs from the one state to the other: what frozen slots, the items and the
/// domains ask. It grows as `first_conditions`, and so are its errors.
pub fn step_conditions(
    alloc: Global,
    graph: &mut Graph,
    typed: &Typed,
    from: &ToldState,
    inputs: &ToldInputs,
    to: &ToldState,
) -> Result<Vec<Either>, AllocError>
    requires from { TellsState graph.old typed.now from.now }
    requires inputs { TellsInputs graph.old typed.now inputs.now }
    requires to { TellsState graph.old typed.now to.now }
    ensures extends { Extends graph.old graph.new }
    ensures asked { IfOk result (λ r. Tells graph.new r.items (λ v. is_step typed.now.scope.program (state_under typed.now.scope.program v from.now.bits) (inputs_under typed.now.scope.program v inputs.now.bits) (state_under typed.now.scope.program v to.now.bits))) }
{
    let mut asked = Vec::new(alloc);
    ask_frozen(alloc, graph, &mut asked, typed, from, to)?;
    ask_step(alloc, graph, &mut asked, typed, from, inputs, to)?;
    ask_always(alloc, graph, &mut asked, typed, from)?;
    ask_always(alloc, graph, &mut asked, typed, to)?;
    ask(graph, &mut asked, from.valid)?;
    ask(graph, &mut asked, inputs.valid)?;
    ask(graph, &mut asked, to.valid)?;
    Ok(asked)
}
