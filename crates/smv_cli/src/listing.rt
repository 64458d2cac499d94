//! The listing of the slots and items of a model, and how many these are.

ghost use Rattle.std.specs.Prelude.{◌≡◌, ◌++◌, filter, length, map, not, IfOk, List, IfSome, OnOk, Some, codes};
ghost use Rattle.std.specs.Fmt.{decimal};
ghost use Rattle.std.specs.Option.{option_copied};
ghost use Rattle.smv_resolve.specs.declared.item.ItemKind.TheVariants as item;
ghost use Rattle.smv_resolve.specs.declared.node.ExprNode.{ExprNode};
ghost use Rattle.smv_resolve.specs.Items.{ResolvedItem, item_by};
ghost use Rattle.smv_layout.specs.Layout.{items_of};
ghost use Rattle.smv_scope.specs.Paths.{path_of, shown_path};
ghost use Rattle.smv_slots.specs.Names.{slot_name};
ghost use Rattle.smv_slots.specs.Slots.{slots_of};
ghost use Rattle.smv_tree.specs.Texts.{line_end, place_text};
ghost use Rattle.smv_meaning.specs.Runs.{is_claim};
ghost use Rattle.smv_cli.specs.Listing.{declared_text, item_kind_text, item_line, items_text, listing_text, slot_line, slots_text, sort_text, summary_text};

use plain_text::Text;
use smv_meaning::{Typed, is_claim};
use smv_resolve::{Item, ItemKind};
use smv_scope::{Scope, path_of};
use smv_slots::{Slot, slot_name};
use smv_tree::{AssignmentKind, ConstraintKind, Place, SpecificationKind, VariableKind};
use std::alloc::{AllocError, Global};
use std::fmt;
use value_types::{ShownType, ValueType};

// The line of a slot.
#[derive(Drop)]
struct SlotLine<'a> {
    number: usize,
    kind: VariableKind,
    name: &'a Text,
    declared: &'a Text,
}

impl fmt::Display for SlotLine<'_> {
    ghost output = { λ l. Some (codes "-- slot " ++ decimal l.number ++ codes " " ++ sort_text l.kind ++ codes " " ++ l.name.now ++ codes " : " ++ l.declared.now ++ line_end) };

    fn fmt<W: fmt::Write>(&self, f: &mut fmt::Formatter<W>) -> fmt::Result {
        let (number, kind, name, declared) = (
            self.number,
            sort(self.kind),
            self.name,
            self.declared,
        );
        writeln!(f, "-- slot {number} {kind} {name} : {declared}")
    }
}

fn sort(kind: VariableKind) -> &'static str
    ensures { result.now ≡ sort_text kind }
{
    match kind {
        VariableKind::State => "state",
        VariableKind::Frozen => "frozen",
        VariableKind::Input => "input",
    }
}

// A type as it is printed; empty where there is none.
fn declared_text(
    alloc: Global,
    names: &[Text],
    declared: Option<&ValueType>,
) -> Result<Text, AllocError>
    ensures { IfOk result (λ text. text ≡ declared_text names.now (option_copied declared.entry)) }
{
    match declared {
        None => Text::from_str(alloc, ""),
        Some(declared) => {
            let shown = ShownType { declared, names };
            let text = shown.to_string(alloc)?;
            Text::from_str(alloc, text.as_str())
        }
    }
}

// The line of an item; the path of `main` is empty.
#[derive(Drop)]
struct ItemLine<'a> {
    number: usize,
    kind: ItemKind,
    place: Place,
    path: &'a Text,
}

impl fmt::Display for ItemLine<'_> {
    ghost output = { λ l. Some (codes "-- item " ++ decimal l.number ++ codes " " ++ item_kind_text l.kind ++ codes " at " ++ place_text l.place ++ codes " of " ++ shown_path l.path.now ++ line_end) };

    fn fmt<W: fmt::Write>(&self, f: &mut fmt::Formatter<W>) -> fmt::Result {
        let (number, kind, place, path) = (
            self.number,
            item_kind(self.kind),
            self.place,
            shown(self.path),
        );
        writeln!(f, "-- item {number} {kind} at {place} of {path}")
    }
}

fn item_kind(kind: ItemKind) -> &'static str
    ensures { result.now ≡ item_kind_text kind }
{
    match kind {
        ItemKind::Constraint(kind) => constraint_kind(kind),
        ItemKind::Assignment(AssignmentKind::Init) => "init",
        ItemKind::Assignment(AssignmentKind::Next) => "next",
        ItemKind::Assignment(AssignmentKind::Current) => "now",
        ItemKind::Specification(SpecificationKind::Invariant) => "INVARSPEC",
        ItemKind::Specification(SpecificationKind::Temporal) => "LTLSPEC",
    }
}

fn constraint_kind(kind: ConstraintKind) -> &'static str
    ensures { result.now ≡ item_kind_text (item.Constraint kind) }
{
    match kind {
        ConstraintKind::Init => "INIT",
        ConstraintKind::Invar => "INVAR",
        ConstraintKind::Trans => "TRANS",
        ConstraintKind::Justice => "JUSTICE",
    }
}

fn shown(path: &Text) -> &str
    ensures { result.now ≡ shown_path path.now }
{
    if path.as_str().is_empty() {
        "main"
    } else {
        path.as_str()
    }
}

/// The line with how many slots a model has, and how many items but for specifications.
#[derive(Drop)]
pub(crate) struct Summary {
    slots: usize,
    items: usize,
}

impl fmt::Display for Summary {
    ghost output = { λ s. Some (codes "-- model slots " ++ decimal s.slots ++ codes " items " ++ decimal s.items ++ line_end) };

    fn fmt<W: fmt::Write>(&self, f: &mut fmt::Formatter<W>) -> fmt::Result {
        let (slots, items) = (self.slots, self.items);
        writeln!(f, "-- model slots {slots} items {items}")
    }
}

/// How many slots a model has, and how many items but for specifications.
pub(crate) fn sum_up(typed: &Typed) -> Summary
    ensures { codes "-- model slots " ++ decimal result.slots ++ codes " items " ++ decimal result.items ++ line_end ≡ summary_text typed.now.scope.program }
{
    Summary {
        slots: typed.slots.len(),
        items: count_listed(typed.items.as_slice()),
    }
}

// How many of these items are no specifications.
fn count_listed(items: &[Item]) -> usize
    ensures { (nodes : List ExprNode) → result ≡ length (filter (λ (x : ResolvedItem). not (is_claim x.kind)) (map (item_by nodes) items.now)) }
{
    let mut number = 0;
    for item in items {
        if !is_claim(item.kind) {
            number += 1;
        }
    }
    number
}

/// The lines of the slots of a model and then of its items, but for specifications.
pub(crate) fn listing(alloc: Global, typed: &Typed) -> Result<Vec<u8>, AllocError>
    ensures { IfOk result (λ text. text.items ≡ listing_text typed.now.scope.program) }
{
    let mut text = Vec::new(alloc);
    push_slots(alloc, &mut text, typed, typed.slots.as_slice())?;
    push_items(alloc, &mut text, typed, typed.items.as_slice())?;
    Ok(text)
}

// Adds the lines of these slots, numbered from 0 on.
fn push_slots(
    alloc: Global,
    text: &mut Vec<u8>,
    typed: &Typed,
    slots: &[Slot],
) -> Result<(), AllocError>
    ensures { OnOk result (text.new.items ≡ text.old.items ++ slots_text typed.now.scope.program 0 slots.now) }
{
    for (number, slot) in slots.iter().enumerate() {
        push_slot(alloc, text, typed, number, slot)?;
    }
    Ok(())
}

fn push_slot(
    alloc: Global,
    text: &mut Vec<u8>,
    typed: &Typed,
    number: usize,
    slot: &Slot,
) -> Result<(), AllocError>
    ensures { OnOk result (text.new.items ≡ text.old.items ++ slot_line typed.now.scope.program number slot.now) }
{
    let name = slot_name(alloc, &typed.scope, typed.variables.as_slice(), slot)?;
    let names = typed.scope.symbol_names.as_slice();
    let declared = declared_text(alloc, names, typed.types.get(slot.declared))?;
    let line = SlotLine {
        number,
        kind: slot.kind,
        name: &name,
        declared: &declared,
    };
    push_line(alloc, text, &line)
}

// Adds the lines of these items but for specifications, numbered from 0 on.
fn push_items(
    alloc: Global,
    text: &mut Vec<u8>,
    typed: &Typed,
    items: &[Item],
) -> Result<(), AllocError>
    ensures { OnOk result (text.new.items ≡ text.old.items ++ items_text typed.now.scope.program 0 (filter (λ (x : ResolvedItem). not (is_claim x.kind)) (map (item_by typed.now.nodes) items.now))) }
{
    let mut number = 0;
    for item in items {
        if !is_claim(item.kind) {
            push_item(alloc, text, &typed.scope, number, item)?;
            number += 1;
        }
    }
    Ok(())
}

fn push_item(
    alloc: Global,
    text: &mut Vec<u8>,
    scope: &Scope,
    number: usize,
    item: &Item,
) -> Result<(), AllocError>
    ensures { (r : ResolvedItem) → r.at ≡ item.now.at → r.kind ≡ item.now.kind → r.place ≡ item.now.place → OnOk result (text.new.items ≡ text.old.items ++ item_line scope.now.program number r) }
{
    let path = path_of(alloc, scope, item.at)?;
    let line = ItemLine {
        number,
        kind: item.kind,
        place: item.place,
        path: &path,
    };
    push_line(alloc, text, &line)
}

// Adds what is printed of a line.
fn push_line<D: fmt::Display>(alloc: Global, text: &mut Vec<u8>, line: &D) -> Result<(), AllocError>
    ensures { OnOk result (IfSome (D.output line.now) (λ printed. text.new.items ≡ text.old.items ++ printed)) }
{
    let printed = line.to_string(alloc)?;
    text.extend_from_slice(printed.as_bytes())?;
    Ok(())
}
