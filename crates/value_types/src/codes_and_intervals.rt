//! Laws of types: values and codes are each other's, and the interval of a type has its integers.

ghost use Rattle.std.specs.Prelude.{◌≡◌, ℤ, true};
ghost use Rattle.smv_value.specs.declared.value.Value.TheVariants.{Int};
ghost use Rattle.value_types.specs.declared.value_type.ValueType.{ValueType};
ghost use Rattle.value_types.specs.Types.{is_of_type, is_type};
ghost use Rattle.value_types.specs.Codes.{IsCoding};
ghost use Rattle.value_types.specs.Intervals.{interval_of, is_in};

/// The values of a declared type and the numbers below its count are each other's codes, one by one.
pub fn what_a_code_is()
    ensures { (t : ValueType) → is_type t ≡ true → IsCoding t }
{}

/// The interval of a type has each of its integers.
pub fn what_an_interval_holds()
    ensures { (t : ValueType) (z : ℤ) → is_of_type (Int z) t ≡ true → is_in z (interval_of t) ≡ true }
{}
