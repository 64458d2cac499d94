//! The law of sources: bytes are one model at most, or are refused in one way.

ghost use Rattle.std.specs.Prelude.{◌≡◌, ℕ, List};
ghost use Rattle.smv_tree.specs.declared.refusal.Refusal.{Refusal};
ghost use Rattle.smv_tree.specs.declared.tree.Program.{Program};
ghost use Rattle.smv_front.specs.Sources.{AreAlike, IsModel, IsRefusedBy};

/// The law of sources: bytes are a model of one program at most, and are refused by no rule where they are one. They
/// are refused in one way at most, but for which cycle of assignments is told.
pub fn is_read_once()
    ensures program { (bytes : List ℕ) (first second : Program) → IsModel bytes first → IsModel bytes second → first ≡ second }
    ensures refusal { (bytes : List ℕ) (first second : Refusal) → IsRefusedBy bytes first → IsRefusedBy bytes second → AreAlike first second }
    ensures apart { (bytes : List ℕ) (p : Program) (r : Refusal) → IsModel bytes p → IsRefusedBy bytes r → ⊥ }
{}
