//! The rules of depth, types and kinds, in the order in which they are judged.

ghost use Rattle.std.specs.Prelude.{◌≡◌, map, IfOk};
ghost use Rattle.smv_resolve.specs.Items.{item_by, items_of as resolved_items};
ghost use Rattle.smv_layout.specs.Layout.{items_of};
ghost use Rattle.smv_slots.specs.Slots.{slots_of, types_of};
ghost use Rattle.smv_verdicts.specs.Verdicts.{Judges, first_of};
ghost use Rattle.smv_types.specs.Kinds.{item_refusal, misused, too_deep};
ghost use Rattle.smv_types.specs.Rules.{kinds_refusal};

use crate::items::misused;
use crate::kinds::judge_nodes;
use crate::limits::variable_types;
use smv_declared::constants_of;
use smv_layout::lay_out_items;
use smv_meaning::Typed;
use smv_resolve::{Resolution, ResolveStop};
use smv_scope::Scope;
use smv_slots::{Slot, slots_of, types_of};
use smv_tree::{Program, Rule, TextStop};
use smv_verdicts::refused;
use std::alloc::Global;
use value_types::ValueType;

/// The items of the program, with what their names lead to, where none nests too deep.
///
/// - `UnfoldedDepth`: more than 2000 levels are open in an expression, where names are followed. At the item that it
///   stands in, with no detail.
///
/// `NoMemory` comes where memory was refused, which may be at any time.
pub fn resolve_items(alloc: Global, scope: &Scope) -> Result<Resolution, TextStop>
    ensures right { IfOk result (λ r. map (item_by r.nodes) r.items ≡ resolved_items scope.now.program) }
    ensures judged { Judges result (too_deep scope.now.program) }
{
    match smv_resolve::resolve_items(alloc, scope) {
        Ok(resolution) => Ok(resolution),
        Err(ResolveStop::Stuck(place)) => Err(refused(Rule::UnfoldedDepth, place)),
        Err(ResolveStop::NoMemory) => Err(TextStop::NoMemory),
    }
}

/// The program with its instances, its slots, their types and its items, where it breaks no rule of types and kinds;
/// else the first rule that it breaks, at that rule's first place. These are judged where no rule of names is broken
/// and no item nests too deep.
///
/// Their order is an own choice of this project, as their numbers and places are (NuSMV 2.6 User Manual, chapter 2, says
/// what is asked, and not in which order). Of the items of all instances, in preorder and in the order of the text:
///
/// - The rules of declared types, as `smv_declared::declared_types` says.
/// - `TooManySlots`: there are more than 65536 variables and elements of arrays. At the first byte, with no detail.
///
/// And then item by item, operands before their operator, and at one place in this order, with no detail but for the
/// last:
///
/// - `NextHere`: `next` stands elsewhere than in the right side of `next(x) := e` and in TRANS, or it stands under
///   `next` or in what a name stands for (2.3.5, 2.3.7, 2.3.8). At the `next`.
/// - `InputHere`: an input stands where no step and no path is spoken of (2.3.5, 2.3.6). At its name.
/// - `TemporalHere`: a temporal operator stands elsewhere than in LTLSPEC, or there under what is neither a proposition
///   nor a temporal operator, or in what a name stands for (2.4.3). At the operator.
/// - `SetHere`: a set stands elsewhere than in what is assigned and on the right of `in` (2.3.8). At the operator that
///   makes it.
/// - `TypeMismatch`: the operands of an operator are of other kinds, or there are more or fewer of them, as `smv_kinds`
///   says; what is assigned and its value are not both boolean, of one word type, or both discrete; what is asked for
///   or claimed is no boolean; an instance or an array stands where a value is wanted. At the operator, the assignment
///   or the whole expression.
/// - `WordWidth`: an operator gives a word wider than 128 bits, `resize` takes bits from a signed word, or a word
///   constant is not in the range of its type. At the operator.
/// - `NotConstant`: what is no constant stands where one is asked. At the operator that asks for it, of an element that
///   is assigned at the `[` of its index.
/// - `BadSelection`: bits are taken that a word does not have, or an element is assigned that its array does not have.
///   At the operator.
/// - `NotAssignable`: what is assigned is no variable that may be assigned so (2.3.8). At the assignment.
/// - `IntWidth`: an operator may give integers of more than 32 bits. At the operator.
/// - `BadBound`: the bounds of a temporal operator are out of order, or greater than 255. At the operator, with the
///   bounds.
///
/// Linear in the nodes of all expressions, where what several items name counts once.
///
/// `NoMemory` comes where memory was refused, which may be at any time.
pub fn check(alloc: Global, scope: Scope, resolution: &Resolution) -> Result<Typed, TextStop>
    requires { map (item_by resolution.now.nodes) resolution.now.items ≡ resolved_items scope.program }
    ensures same { IfOk result (λ t. t.scope.program ≡ scope.program) }
    ensures judged { Judges result (kinds_refusal scope.program) }
{
    let variables = variable_types(alloc, &scope)?;
    let slots = slots_of(alloc, &scope, variables.as_slice())?;
    let types = types_of(alloc, variables.as_slice())?;
    let laid = lay_out_items(alloc, variables.as_slice(), resolution)?;
    no_misuse(alloc, &scope, slots.as_slice(), types.as_slice(), &laid)?;
    Ok(Typed {
        scope,
        variables,
        slots,
        types,
        nodes: laid.nodes,
        items: laid.items,
    })
}

// The items of the program, which are laid out, break no rule of kinds.
fn no_misuse(
    alloc: Global,
    _scope: &Scope,
    slots: &[Slot],
    types: &[ValueType],
    laid: &Resolution,
) -> Result<(), TextStop>
    requires slots { slots.now ≡ slots_of _scope.now.program }
    requires types { types.now ≡ types_of _scope.now.program }
    requires items { map (item_by laid.now.nodes) laid.now.items ≡ items_of _scope.now.program }
    ensures { Judges result (misused _scope.now.program) }
{
    kinds(alloc, slots, types, laid)
}

// These items break no rule of kinds.
fn kinds(
    alloc: Global,
    slots: &[Slot],
    types: &[ValueType],
    laid: &Resolution,
) -> Result<(), TextStop>
    ensures { Judges result (first_of (item_refusal slots.now types.now) (map (item_by laid.now.nodes) laid.now.items)) }
{
    let nodes = laid.nodes.as_slice();
    let constants = constants_of(alloc, nodes)?;
    let table = judge_nodes(alloc, slots, types, nodes, constants.as_slice())?;
    misused(alloc, slots, types, nodes, &table, laid.items.as_slice())
}
