//! The law of tokens: a text has one list of tokens at most, or is refused in one way.

ghost use Rattle.std.specs.Prelude.{◌≡◌, ℕ, List};
ghost use Rattle.smv_tree.specs.declared.token.Tokens.{Tokens};
ghost use Rattle.smv_tree.specs.declared.refusal.Refusal.{Refusal};
ghost use Rattle.smv_text.specs.Texts.{IsText, IsRefusedText};

/// The law of tokens: a text has one list of tokens at most, or is refused in one way at most, and never both.
pub fn are_tokens_once()
    ensures tokens { (bytes : List ℕ) (first second : Tokens) → IsText bytes first → IsText bytes second → first ≡ second }
    ensures refusal { (bytes : List ℕ) (first second : Refusal) → IsRefusedText bytes first → IsRefusedText bytes second → first ≡ second }
    ensures apart { (bytes : List ℕ) (tokens : Tokens) (refusal : Refusal) → IsText bytes tokens → IsRefusedText bytes refusal → ⊥ }
{}
