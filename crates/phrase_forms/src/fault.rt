//! Why tokens are no phrase.

/// Why reading stops at a token.
#[derive(Clone, Copy, Debug, PartialEq, Eq)]
pub enum Fault {
    /// The tokens before it begin a phrase, and with it they do not; or they end too early.
    Unexpected,
    /// It opens one level too many.
    TooDeep,
}
