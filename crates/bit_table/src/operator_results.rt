//! The law of operators: what one gives of values is a value.

ghost use Rattle.std.specs.Prelude.{◌≡◌, List, Some, true};
ghost use Rattle.std.specs.List.{list_all};
ghost use Rattle.smv_value.specs.declared.operator.Operator.{Operator};
ghost use Rattle.smv_value.specs.declared.value.Value.{Value};
ghost use Rattle.smv_value.specs.Results.{is_value, value_of};

/// What an operator gives of values is a value: an integer of 32 bits, or a word of 1 to 128.
pub fn what_operators_give()
    ensures { (o : Operator) (xs : List Value) (z : Value) → list_all is_value xs ≡ true → value_of o xs ≡ Some z → is_value z ≡ true }
{}
