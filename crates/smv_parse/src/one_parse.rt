//! The law of parsing: tokens spell one program at most, or are refused in one way.

ghost use Rattle.std.specs.Prelude.{◌≡◌, ◌⊎◌, List};
ghost use Rattle.smv_tree.specs.declared.token.Token.{Token};
ghost use Rattle.smv_tree.specs.declared.token.Tokens.{Tokens};
ghost use Rattle.smv_tree.specs.declared.refusal.Refusal.{Refusal};
ghost use Rattle.smv_tree.specs.declared.tree.Program.{Program};
ghost use Rattle.smv_parse.specs.Spelling.{IsSpelling, IsRefusedTokens};

/// The law of parsing: tokens spell one program at most, or are refused in one way at most; they do one of the two, and
/// never both.
pub fn is_parsed_once()
    ensures program { (tokens : List Token) (first second : Program) → IsSpelling tokens first → IsSpelling tokens second → first ≡ second }
    ensures refusal { (tokens : Tokens) (first second : Refusal) → IsRefusedTokens tokens first → IsRefusedTokens tokens second → first ≡ second }
    ensures apart { (tokens : Tokens) (program : Program) (refusal : Refusal) → IsSpelling tokens.items program → IsRefusedTokens tokens refusal → ⊥ }
    ensures either { (tokens : Tokens) → ((program : Program) × IsSpelling tokens.items program) ⊎ ((refusal : Refusal) × IsRefusedTokens tokens refusal) }
{}
