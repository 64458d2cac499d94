//! The first tokens of phrases, and the token behind one.

ghost use Rattle.std.specs.Prelude.{◌≡◌};
ghost use Rattle.phrase_forms.specs.Forms.{to, head};
ghost use Rattle.smv_tree.specs.Kinds.{is_identifier};
ghost use Rattle.smv_phrases.specs.Names.{just, begins_name};
ghost use Rattle.smv_phrases.specs.Reading.{Gives};

use smv_phrases::{Stop, begins_name, is_identifier, just};
use smv_tree::{Token, TokenKind};

/// Whether an identifier stands here.
pub fn begins_identifier(tokens: &[Token]) -> bool
    ensures { result ≡ head is_identifier tokens.now }
{
    match tokens {
        [first, ..] => is_identifier(first),
        [] => false,
    }
}

/// Whether a name begins here.
pub fn name_begins(tokens: &[Token]) -> bool
    ensures { result ≡ head begins_name tokens.now }
{
    match tokens {
        [first, ..] => begins_name(first),
        [] => false,
    }
}

/// What was read, if a token of this kind stands behind it, and the tokens behind that one.
pub fn followed_by<'a, T: Drop>(
    kind: TokenKind,
    read: T,
    tokens: &'a [Token],
) -> Result<(T, &'a [Token]), Stop<'a>>
    ensures { Gives (λ x. (x.0, x.1.now)) result ((to (λ t. read) (just kind)).parse tokens.now) }
{
    let (_, tokens) = just(kind, tokens)?;
    Ok((read, tokens))
}
