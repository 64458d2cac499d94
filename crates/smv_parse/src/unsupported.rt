//! Words of NuSMV that have no place in the language.

ghost use Rattle.std.specs.Prelude.{◌≡◌};
ghost use Rattle.std.specs.Option.{option_copied};
ghost use Rattle.smv_parse.specs.Spelling.{first_unsupported};

use smv_phrases::is_kind;
use smv_tree::{Token, TokenKind};

/// The first token that is a word of NuSMV without a place in the language.
pub fn first_unsupported(tokens: &[Token]) -> Option<&Token>
    ensures { option_copied result ≡ first_unsupported tokens.now }
{
    tokens
        .iter()
        .find(|token| is_kind(TokenKind::Unsupported, token))
}
