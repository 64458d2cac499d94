//! Laws of the table: what operators give is of the kinds that it gives.

ghost use Rattle.std.specs.Prelude.{◌≡◌, ◌∷◌, ◌≤ℤ◌, IsTrue, List, Ok, Some, ℤ, []};
ghost use Rattle.smv_value.specs.declared.operator.Operator.{Operator};
ghost use Rattle.smv_value.specs.declared.operator.Operator.TheVariants as operator;
ghost use Rattle.smv_value.specs.declared.operator.Temporal.{Temporal};
ghost use Rattle.smv_value.specs.declared.value.FaultRule.{FaultRule};
ghost use Rattle.smv_value.specs.declared.value.Value.{Value};
ghost use Rattle.smv_value.specs.declared.value.Value.TheVariants as value;
ghost use Rattle.smv_value.specs.Results.{is_value, result_of};
ghost use Rattle.smv_kinds.specs.declared.kind.Kind.{Kind};
ghost use Rattle.smv_kinds.specs.declared.kind.Kind.TheVariants as kind;
ghost use Rattle.smv_kinds.specs.declared.kind.Operand.{Operand};
ghost use Rattle.smv_kinds.specs.Constants.{constant_given, constant_of};
ghost use Rattle.smv_kinds.specs.Kinds.{kind_given, kind_of_value, next_kind, takes};
ghost use Rattle.smv_kind_laws.specs.Values.{AreOperands, Gives, HasAll, branches, gives_value, is_like, is_of_kind};

/// Where the table gives a kind, the operator gives a value of this kind or a fault, of any values of the operands'
/// kinds. So an integer that it gives is within the kind's interval. It does nothing: its contract is the law.
pub fn kinds_have_values()
    ensures { (o : Operator) (xs : List Operand) (vs : List Value) (k : Kind) → IsTrue (gives_value o) → AreOperands xs vs → kind_given o xs ≡ Ok k → Gives k (result_of o vs) }
{}

/// A set's kind has the values of each operand, a range's those between its ends, and a choice's those of each branch.
/// It does nothing: its contract is the law.
pub fn kinds_have_members()
    ensures members { (xs : List Operand) (k : Kind) → kind_given operator.Members xs ≡ Ok k → HasAll k xs }
    ensures union { (xs : List Operand) (k : Kind) → kind_given operator.Union xs ≡ Ok k → HasAll k xs }
    ensures range { (x y : Operand) (k : Kind) (a b z : ℤ) → kind_given operator.Range (x ∷ y ∷ []) ≡ Ok k → IsTrue (is_of_kind x.kind (value.Int a)) → IsTrue (is_of_kind y.kind (value.Int b)) → a ≤ℤ z → z ≤ℤ b → IsTrue (is_of_kind k (value.Int z)) }
    ensures choice { (f : FaultRule) (xs : List Operand) (k : Kind) → kind_given (operator.Choice f) xs ≡ Ok k → HasAll k (branches xs) }
{}

/// What operators give that give neither a number nor a set: `in` and temporal operators a boolean, an array that names
/// no element an array, and `next` what it is of. It does nothing: its contract is the law.
pub fn kinds_of_formulas()
    ensures sought { (xs : List Operand) (k : Kind) → kind_given operator.In xs ≡ Ok k → k ≡ kind.Boolean }
    ensures temporal { (o : Temporal) (xs : List Operand) (k : Kind) → kind_given (operator.Temporal o) xs ≡ Ok k → k ≡ kind.Boolean }
    ensures whole { (xs : List Operand) (k : Kind) → kind_given operator.WholeArray xs ≡ Ok k → k ≡ kind.Array }
    ensures indexed { (xs : List Operand) (k : Kind) → kind_given operator.Index xs ≡ Ok k → k ≡ kind.Array }
    ensures next { (j k : Kind) → next_kind j ≡ Ok k → j ≡ k }
{}

/// A value that may be assigned is a boolean, a word of the target's type, or discrete as the target is. It does
/// nothing: its contract is the law.
pub fn what_is_taken_is_alike()
    ensures { (x y : Kind) (v : Value) → IsTrue (takes x y) → IsTrue (is_of_kind y v) → IsTrue (is_like x v) }
{}

/// A constant is what its expression gives, and one value is of its own kind. It does nothing: its contract is the law.
pub fn constants_are_values()
    ensures folded { (o : Operator) (vs : List Value) (v : Value) → constant_of o vs ≡ Some v → result_of o vs ≡ Ok (Some v) }
    ensures told { (o : Operator) (xs : List Operand) (vs : List Value) (z : ℤ) → AreOperands xs vs → constant_given o xs ≡ Some z → result_of o vs ≡ Ok (Some (value.Int z)) }
    ensures own { (v : Value) → IsTrue (is_value v) → IsTrue (is_of_kind (kind_of_value v) v) }
{}
