//! Laws of slots and their types.

ghost use Rattle.std.specs.Prelude.{◌≡◌, ℕ, length, true, None, Some, slice_get};
ghost use Rattle.std.specs.List.{list_all};
ghost use Rattle.smv_tree.specs.declared.tree.Program.{Program};
ghost use Rattle.value_types.specs.Types.{is_type};
ghost use Rattle.smv_declared.specs.Refusals.{declared_refusal};
ghost use Rattle.smv_slots.specs.declared.slot.Slot.{Slot};
ghost use Rattle.smv_slots.specs.Slots.{slots_of, types_of};
ghost use Rattle.smv_slots.specs.Standing.{NamesLeadToSlots};

/// Where no rule of declared types is broken, what slots are declared as are types: integers of 32 bits, words of 1 to
/// 128, bounds in their order, and no element twice. It does nothing: its contract is the law.
pub fn types_are_types()
    ensures { (p : Program) → declared_refusal p ≡ None → list_all is_type (types_of p) ≡ true }
{}

/// There is one type for each slot, and the slot's own number is the number of its type. It does nothing: its contract
/// is the law.
pub fn slots_have_types()
    ensures counted { (p : Program) → length (types_of p) ≡ length (slots_of p) }
    ensures numbered { (p : Program) (n : ℕ) (slot : Slot) → slice_get (slots_of p) n ≡ Some slot → slot.declared ≡ n }
{}

/// The number that the names of a variable lead to is that of its slots: from the first slot of that number on stand
/// the elements of this variable, in their order, and each has their type. It does nothing: its contract is the law.
pub fn names_lead_to_slots()
    ensures { (p : Program) → NamesLeadToSlots p }
{}
