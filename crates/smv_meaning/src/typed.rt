//! A program with its instances, its slots, their types and its items.

ghost use Rattle.std.specs.Prelude.{◌≡◌, map, true};
ghost use Rattle.std.specs.List.{list_all};
ghost use Rattle.std.proofs.Props.{props};
ghost use Rattle.value_types.specs.Types.{is_type};
ghost use Rattle.smv_declared.specs.Types.{variable_types_of};
ghost use Rattle.smv_slots.specs.Slots.{slots_of, types_of};
ghost use Rattle.smv_resolve.specs.Items.{item_by};
ghost use Rattle.smv_layout.specs.Layout.{items_of};
ghost use Rattle.smv_resolve.proofs.Sets.{Resolved-set};
ghost use Rattle.smv_meaning.specs.Runs.{AllKnown};

use smv_declared::VariableType;
use smv_resolve::{ExprNode, Item};
use smv_scope::Scope;
use smv_slots::Slot;
use sqlite_items::Items;
use value_types::ValueType;

/// A program with its instances, its slots and their types, and its items in the order of the source, whose expressions
/// are nodes of one list. A variable has one slot, and an array one for each element. What its items assign has values
/// or faults in each state and step of the declared types; what they ask for and claim is TRUE or FALSE or faults
/// there.
#[derive(Debug, Drop)]
pub struct Typed {
    pub scope: Scope,
    /// The types of the variables that have values, instance by instance.
    pub variables: Items<VariableType>,
    /// The slots, in their order.
    pub slots: Items<Slot>,
    /// The type of each slot.
    pub types: Items<ValueType>,
    pub nodes: Items<ExprNode>,
    pub items: Items<Item>,
    pub ghost known: { AllKnown scope.program } by { Prim.hlevel (props) },
    pub ghost right_types: { list_all is_type (types_of scope.program) ≡ true } by { Prim.hlevel (props) },
    pub ghost written: { variables ≡ variable_types_of scope.program } by { Prim.hlevel (props) },
    pub ghost laid_out: { slots ≡ slots_of scope.program } by { Prim.hlevel (props) },
    pub ghost declared: { types ≡ types_of scope.program } by { Prim.hlevel (props) },
    pub ghost resolved: { map (item_by nodes) items ≡ items_of scope.program } by { Prim.hlevel (props, Resolved-set) },
}
