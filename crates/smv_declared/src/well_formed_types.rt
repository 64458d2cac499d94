//! Laws of declared types.

ghost use Rattle.std.specs.Prelude.{◌≡◌, true, None};
ghost use Rattle.std.specs.List.{list_all};
ghost use Rattle.smv_tree.specs.declared.tree.Program.{Program};
ghost use Rattle.smv_declared.specs.Refusals.{declared_refusal};
ghost use Rattle.smv_declared.specs.Types.{is_variable_type, variable_types_of};

/// Where no rule of declared types is broken, what variables are declared as are types: integers of 32 bits, words of 1 to 128,
/// bounds in their order, no element twice, and of each dimension one index at least. It does nothing: its contract is the law.
pub fn types_are_types()
    ensures { (p : Program) → declared_refusal p ≡ None → list_all is_variable_type (variable_types_of p) ≡ true }
{}
