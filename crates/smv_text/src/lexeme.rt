//! What a lexeme is.

use smv_tree::{Rule, TokenKind};

/// What a word of bytes is that stands in a text.
#[derive(Clone, Copy, Debug, PartialEq, Eq)]
pub enum Lexeme {
    /// White space or a comment.
    Blank,
    /// A token of this kind.
    Token(TokenKind),
    /// A word that breaks this rule.
    Flaw(Rule),
}
