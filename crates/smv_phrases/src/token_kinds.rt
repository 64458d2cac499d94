//! The law of kinds: each token is of one kind alone.

ghost use Rattle.std.specs.Prelude.{◌≡◌, true};
ghost use Rattle.smv_tree.specs.declared.token.Token.{Token};
ghost use Rattle.smv_tree.specs.declared.token.TokenKind.{TokenKind};
ghost use Rattle.smv_tree.specs.Kinds.{is_kind};

/// The law of kinds: each token is of its own kind, and of no other.
pub fn kinds_are_told_apart()
    ensures own { (t : Token) → is_kind t.kind t ≡ true }
    ensures no_other { (k : TokenKind) (t : Token) → is_kind k t ≡ true → t.kind ≡ k }
{}
