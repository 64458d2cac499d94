//! The items of a program.

ghost use Rattle.std.specs.Prelude.{◌≡◌, ℕ, ◌≤◌, [], ◌∷◌, map, OnOk};
ghost use Rattle.std.specs.List.{flat_map};
ghost use Rattle.smv_resolve.specs.Finding.{Grows, AllKnown};
ghost use Rattle.smv_scope.specs.Lookup.{depth_limit};
ghost use Rattle.smv_scope.specs.Modules.{sections_of};
ghost use Rattle.smv_resolve.specs.Resolved.{resolved, levelled, wholly_resolved};
ghost use Rattle.smv_resolve.specs.Items.{left_levels, resolved_left, resolved_assignment, resolved_constraint, resolved_specification, items_in, items_below};
ghost use Rattle.smv_resolve.specs.Listing.{FindsRoot, AllStand, Adds, told_at};
ghost use Rattle.smv_resolve.specs.StuckParts.{FindsOrTells, first_stuck_part, first_part_wholly_stuck, stuck_part};

use crate::expressions::find;
use crate::first_places::first_place;
use crate::memo::{Memo, ResolveError};
use crate::pending::find_named;
use crate::{Item, ItemKind, ResolveStop};
use smv_scope::{Instance, Scope};
use smv_tree::{Assignment, AssignmentKind, Constraint, Expr, Place, Section, Specification};
use sqlite_items::Items;

// So many levels may be open at one place of an expression, those of what names stand for among them.
const LEVELS: usize = 2000;

// More nodes than stand one in another in an expression that is parsed, where what it names was found before. It is
// four nodes for each level, so that what leads to itself is told as too deep, unless its expressions are larger.
const ROOM: usize = 4 * (LEVELS + 1);

/// The node of an expression. Where it is stuck, its first stuck part is told.
pub fn find_expression(
    scope: &Scope,
    memo: &mut Memo,
    at: usize,
    e: &Expr,
) -> Result<usize, ResolveStop>
    requires { AllKnown scope.now.program memo.old }
    ensures known { OnOk result (AllKnown scope.now.program memo.new) }
    ensures grows { OnOk result (Grows memo.old.nodes memo.new.nodes) }
    ensures finds { FindsOrTells memo.new.nodes (resolved scope.now.program at e.now) (first_stuck_part scope.now.program at e.now) result }
{
    find_within(scope, memo, LEVELS, at, e)
}

/// The same where names are followed as far as they lead.
pub fn find_wholly(
    scope: &Scope,
    memo: &mut Memo,
    at: usize,
    e: &Expr,
) -> Result<usize, ResolveStop>
    requires { AllKnown scope.now.program memo.old }
    ensures known { OnOk result (AllKnown scope.now.program memo.new) }
    ensures grows { OnOk result (Grows memo.old.nodes memo.new.nodes) }
    ensures finds { FindsOrTells memo.new.nodes (wholly_resolved scope.now.program at e.now) (first_part_wholly_stuck scope.now.program at e.now) result }
{
    find_within(scope, memo, usize::MAX, at, e)
}

// The node of an expression of an item. One that is stuck is told at the place of the item.
fn find_root(
    scope: &Scope,
    memo: &mut Memo,
    at: usize,
    e: &Expr,
    place: Place,
) -> Result<usize, ResolveStop>
    requires { AllKnown scope.now.program memo.old }
    ensures known { OnOk result (AllKnown scope.now.program memo.new) }
    ensures grows { OnOk result (Grows memo.old.nodes memo.new.nodes) }
    ensures finds { FindsRoot memo.new.nodes (resolved scope.now.program at e.now) place result }
{
    match find_expression(scope, memo, at, e) {
        Ok(node) => Ok(node),
        Err(stop) => Err(told_at(stop, place)),
    }
}

// What stopped, told at this place.
fn told_at(stop: ResolveStop, place: Place) -> ResolveStop
    ensures { result ≡ told_at stop place }
{
    match stop {
        ResolveStop::Stuck(_) => ResolveStop::Stuck(place),
        ResolveStop::NoMemory => ResolveStop::NoMemory,
    }
}

// What is assigned: `init(` and `next(` open a level before it.
fn find_left(
    scope: &Scope,
    memo: &mut Memo,
    at: usize,
    kind: AssignmentKind,
    e: &Expr,
    place: Place,
) -> Result<usize, ResolveStop>
    requires { AllKnown scope.now.program memo.old }
    ensures known { OnOk result (AllKnown scope.now.program memo.new) }
    ensures grows { OnOk result (Grows memo.old.nodes memo.new.nodes) }
    ensures finds { FindsRoot memo.new.nodes (resolved_left scope.now.program at kind e.now) place result }
{
    match find_within(scope, memo, left_levels(kind), at, e) {
        Ok(node) => Ok(node),
        Err(stop) => Err(told_at(stop, place)),
    }
}

// How many levels may be opened in what is assigned.
fn left_levels(kind: AssignmentKind) -> usize
    ensures levels { result ≡ left_levels kind }
    ensures few { result ≤ depth_limit }
{
    match kind {
        AssignmentKind::Current => LEVELS,
        AssignmentKind::Init => LEVELS - 1,
        AssignmentKind::Next => LEVELS - 1,
    }
}

// The node of an expression, where so many levels may be opened.
fn find_within(
    scope: &Scope,
    memo: &mut Memo,
    levels: usize,
    at: usize,
    e: &Expr,
) -> Result<usize, ResolveStop>
    requires { AllKnown scope.now.program memo.old }
    ensures known { OnOk result (AllKnown scope.now.program memo.new) }
    ensures grows { OnOk result (Grows memo.old.nodes memo.new.nodes) }
    ensures finds { (names : ℕ) → levels ≤ names → FindsOrTells memo.new.nodes (levelled scope.now.program names at e.now levels) (stuck_part scope.now.program names at e.now levels) result }
{
    find_named(scope, memo, at, e)?;
    match find(scope, memo, ROOM, levels, at, e) {
        Ok(found) => Ok(found.node),
        Err(ResolveError::Stuck(place)) => Err(ResolveStop::Stuck(place)),
        Err(ResolveError::NoMemory) => Err(ResolveStop::NoMemory),
    }
}

/// The items of instances, the first of which has number 0.
pub fn add_instances(
    scope: &Scope,
    memo: &mut Memo,
    items: &mut Items<Item>,
    tree: &[Instance],
) -> Result<(), ResolveStop>
    requires known { AllKnown scope.now.program memo.old }
    requires stand { AllStand memo.old.nodes items.old }
    ensures known { OnOk result (AllKnown scope.now.program memo.new) }
    ensures stand { OnOk result (AllStand memo.new.nodes items.new) }
    ensures adds { Adds memo.old.nodes memo.new.nodes items.old items.new (items_below scope.now.program 0 tree.now) result }
{
    for (at, instance) in tree.iter().enumerate() {
        add_instance(scope, memo, items, at, instance)?;
    }
    Ok(())
}

fn add_instance(
    scope: &Scope,
    memo: &mut Memo,
    items: &mut Items<Item>,
    at: usize,
    instance: &Instance,
) -> Result<(), ResolveStop>
    requires known { AllKnown scope.now.program memo.old }
    requires stand { AllStand memo.old.nodes items.old }
    ensures known { OnOk result (AllKnown scope.now.program memo.new) }
    ensures stand { OnOk result (AllStand memo.new.nodes items.new) }
    ensures adds { Adds memo.old.nodes memo.new.nodes items.old items.new (flat_map (items_in scope.now.program at) (sections_of scope.now.program instance.now.of_module)) result }
{
    match scope.program.modules.get(instance.of_module) {
        None => add_sections(scope, memo, items, at, &[]),
        Some(module) => add_sections(scope, memo, items, at, module.sections.as_slice()),
    }
}

fn add_sections(
    scope: &Scope,
    memo: &mut Memo,
    items: &mut Items<Item>,
    at: usize,
    sections: &[Section],
) -> Result<(), ResolveStop>
    requires known { AllKnown scope.now.program memo.old }
    requires stand { AllStand memo.old.nodes items.old }
    ensures known { OnOk result (AllKnown scope.now.program memo.new) }
    ensures stand { OnOk result (AllStand memo.new.nodes items.new) }
    ensures adds { Adds memo.old.nodes memo.new.nodes items.old items.new (flat_map (items_in scope.now.program at) sections.now) result }
{
    for section in sections {
        add_section(scope, memo, items, at, section)?;
    }
    Ok(())
}

fn add_section(
    scope: &Scope,
    memo: &mut Memo,
    items: &mut Items<Item>,
    at: usize,
    section: &Section,
) -> Result<(), ResolveStop>
    requires known { AllKnown scope.now.program memo.old }
    requires stand { AllStand memo.old.nodes items.old }
    ensures known { OnOk result (AllKnown scope.now.program memo.new) }
    ensures stand { OnOk result (AllStand memo.new.nodes items.new) }
    ensures adds { Adds memo.old.nodes memo.new.nodes items.old items.new (items_in scope.now.program at section.now) result }
{
    match section {
        Section::Variables(..) | Section::Definitions(_) | Section::Constants(_) => {
            add_assignments(scope, memo, items, at, &[])
        }
        Section::Assignments(list) => add_assignments(scope, memo, items, at, list.as_slice()),
        Section::Constraint(c) => add_constraint(scope, memo, items, at, c),
        Section::Specification(s) => add_specification(scope, memo, items, at, s),
    }
}

fn add_assignments(
    scope: &Scope,
    memo: &mut Memo,
    items: &mut Items<Item>,
    at: usize,
    assignments: &[Assignment],
) -> Result<(), ResolveStop>
    requires known { AllKnown scope.now.program memo.old }
    requires stand { AllStand memo.old.nodes items.old }
    ensures known { OnOk result (AllKnown scope.now.program memo.new) }
    ensures stand { OnOk result (AllStand memo.new.nodes items.new) }
    ensures adds { Adds memo.old.nodes memo.new.nodes items.old items.new (map (resolved_assignment scope.now.program at) assignments.now) result }
{
    for assignment in assignments {
        add_assignment(scope, memo, items, at, assignment)?;
    }
    Ok(())
}

fn add_assignment(
    scope: &Scope,
    memo: &mut Memo,
    items: &mut Items<Item>,
    at: usize,
    a: &Assignment,
) -> Result<(), ResolveStop>
    requires known { AllKnown scope.now.program memo.old }
    requires stand { AllStand memo.old.nodes items.old }
    ensures known { OnOk result (AllKnown scope.now.program memo.new) }
    ensures stand { OnOk result (AllStand memo.new.nodes items.new) }
    ensures adds { Adds memo.old.nodes memo.new.nodes items.old items.new (resolved_assignment scope.now.program at a.now ∷ []) result }
{
    let target = find_left(scope, memo, at, a.kind, &a.target, a.place)?;
    let value = find_root(scope, memo, at, &a.value, a.place)?;
    let item = Item {
        at,
        kind: ItemKind::Assignment(a.kind),
        place: a.place,
        begins: first_place(&a.value),
        target: Some(target),
        value,
    };
    items.push(item)?;
    Ok(())
}

fn add_constraint(
    scope: &Scope,
    memo: &mut Memo,
    items: &mut Items<Item>,
    at: usize,
    c: &Constraint,
) -> Result<(), ResolveStop>
    requires known { AllKnown scope.now.program memo.old }
    requires stand { AllStand memo.old.nodes items.old }
    ensures known { OnOk result (AllKnown scope.now.program memo.new) }
    ensures stand { OnOk result (AllStand memo.new.nodes items.new) }
    ensures adds { Adds memo.old.nodes memo.new.nodes items.old items.new (resolved_constraint scope.now.program at c.now ∷ []) result }
{
    let value = find_root(scope, memo, at, &c.formula, c.place)?;
    let item = Item {
        at,
        kind: ItemKind::Constraint(c.kind),
        place: c.place,
        begins: first_place(&c.formula),
        target: None,
        value,
    };
    items.push(item)?;
    Ok(())
}

fn add_specification(
    scope: &Scope,
    memo: &mut Memo,
    items: &mut Items<Item>,
    at: usize,
    s: &Specification,
) -> Result<(), ResolveStop>
    requires known { AllKnown scope.now.program memo.old }
    requires stand { AllStand memo.old.nodes items.old }
    ensures known { OnOk result (AllKnown scope.now.program memo.new) }
    ensures stand { OnOk result (AllStand memo.new.nodes items.new) }
    ensures adds { Adds memo.old.nodes memo.new.nodes items.old items.new (resolved_specification scope.now.program at s.now ∷ []) result }
{
    let value = find_root(scope, memo, at, &s.formula, s.place)?;
    let item = Item {
        at,
        kind: ItemKind::Specification(s.kind),
        place: s.place,
        begins: first_place(&s.formula),
        target: None,
        value,
    };
    items.push(item)?;
    Ok(())
}
