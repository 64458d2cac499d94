//! The law of refusals by faults.

ghost use Rattle.std.specs.Prelude.{◌≡◌};
ghost use Rattle.smv_tree.specs.declared.refusal.Refusal.{Refusal};
ghost use Rattle.smv_tree.specs.declared.tree.Program.{Program};
ghost use Rattle.smv_meaning.specs.Faults.{IsFaultFree};
ghost use Rattle.smv_prepare.specs.Preparing.{IsRefusedByFaults};

/// Two refusals of one program by faults tell of one item. The item and the valuation give the rule, the place and the
/// text, so at one valuation the two are equal. Which valuation each tells is left open. A program that is refused so
/// is not free of faults. It does nothing: its contract is the law.
pub fn one_item_is_refused()
    ensures number { (p : Program) (r s : Refusal) (a : IsRefusedByFaults p r) (b : IsRefusedByFaults p s) → a.number ≡ b.number }
    ensures item { (p : Program) (r s : Refusal) (a : IsRefusedByFaults p r) (b : IsRefusedByFaults p s) → a.item ≡ b.item }
    ensures refusal { (p : Program) (r s : Refusal) (a : IsRefusedByFaults p r) (b : IsRefusedByFaults p s)
        → a.told.s ≡ b.told.s → a.told.u ≡ b.told.u → a.told.t ≡ b.told.t → r ≡ s }
    ensures apart { (p : Program) (r : Refusal) → IsFaultFree p → IsRefusedByFaults p r → ⊥ }
{}
