//! The law of texts of values: each value is read from its text, and only from it.

ghost use Rattle.std.specs.Prelude.{◌≡◌, ℕ, List, true};
ghost use Rattle.value_types.specs.declared.value_type.ValueType.{ValueType};
ghost use Rattle.value_types.specs.Types.{is_type};
ghost use Rattle.value_texts.specs.Read.{IsReading};

/// Each value of a declared type is read from its text, and only from it, whatever symbols are named.
pub fn what_is_read_of_a_value()
    ensures { (names : List (List ℕ)) (t : ValueType) → is_type t ≡ true → IsReading names t }
{}
