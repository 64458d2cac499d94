//! Laws of values as bits: the width of a type, and one list of bits for each value.

ghost use Rattle.std.specs.Prelude.{◌≡◌, ℕ, true};
ghost use Rattle.value_types.specs.declared.value_type.ValueType.{ValueType};
ghost use Rattle.value_types.specs.Types.{is_type};
ghost use Rattle.bit_values.specs.Bits.{AreBitsOf, IsLeastWidth, least_bits};

/// The width that counts m codes is the least number of bits that does.
pub fn what_a_width_is()
    ensures { (m : ℕ) → IsLeastWidth m (least_bits m) }
{}

/// The values of a declared type have bits, one list of the type's width each.
pub fn what_bits_are()
    ensures { (t : ValueType) → is_type t ≡ true → AreBitsOf t }
{}
