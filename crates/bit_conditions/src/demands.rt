//! What an item demands of the outcomes of what it assigns and of its value.

ghost use Rattle.std.specs.Prelude.{◌≡◌};
ghost use Rattle.bit_conditions.specs.Demands.{always_demand, demand_of, first_demand, step_demand};

use smv_resolve::ItemKind;
use smv_tree::{AssignmentKind, ConstraintKind};

/// When items ask: of an initial state, of both states of a step, or of the step.
#[derive(Clone, Copy, Debug, Drop)]
pub enum When {
    First,
    Always,
    Step,
}

/// What an item demands: nothing, that the variable has a value of the expression, or that the expression is TRUE.
#[derive(Clone, Copy, Debug, Drop)]
pub enum Demand {
    Nothing,
    Takes,
    IsTrue,
}

/// What an item of the kind demands then.
pub fn demand_of(when: When, kind: ItemKind) -> Demand
    ensures { result ≡ demand_of when kind }
{
    match when {
        When::First => first_demand(kind),
        When::Always => always_demand(kind),
        When::Step => step_demand(kind),
    }
}

fn first_demand(kind: ItemKind) -> Demand
    ensures { result ≡ first_demand kind }
{
    match kind {
        ItemKind::Assignment(AssignmentKind::Init | AssignmentKind::Current) => Demand::Takes,
        ItemKind::Assignment(AssignmentKind::Next) => Demand::Nothing,
        ItemKind::Constraint(ConstraintKind::Init | ConstraintKind::Invar) => Demand::IsTrue,
        ItemKind::Constraint(ConstraintKind::Trans | ConstraintKind::Justice) => Demand::Nothing,
        ItemKind::Specification(_) => Demand::Nothing,
    }
}

fn always_demand(kind: ItemKind) -> Demand
    ensures { result ≡ always_demand kind }
{
    match kind {
        ItemKind::Assignment(AssignmentKind::Current) => Demand::Takes,
        ItemKind::Assignment(AssignmentKind::Init | AssignmentKind::Next) => Demand::Nothing,
        ItemKind::Constraint(ConstraintKind::Invar) => Demand::IsTrue,
        ItemKind::Constraint(
            ConstraintKind::Init | ConstraintKind::Trans | ConstraintKind::Justice,
        ) => Demand::Nothing,
        ItemKind::Specification(_) => Demand::Nothing,
    }
}

fn step_demand(kind: ItemKind) -> Demand
    ensures { result ≡ step_demand kind }
{
    match kind {
        ItemKind::Assignment(AssignmentKind::Next) => Demand::Takes,
        ItemKind::Assignment(AssignmentKind::Init | AssignmentKind::Current) => Demand::Nothing,
        ItemKind::Constraint(ConstraintKind::Trans) => Demand::IsTrue,
        ItemKind::Constraint(
            ConstraintKind::Init | ConstraintKind::Invar | ConstraintKind::Justice,
        ) => Demand::Nothing,
        ItemKind::Specification(_) => Demand::Nothing,
    }
}
