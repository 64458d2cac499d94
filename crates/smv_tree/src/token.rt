//! The tokens of a source.

use crate::Place;
use plain_text::Text;
use sqlite_items::Items;

/// What a token is. Reserved words have kinds of their own, so that an identifier is never one of them
/// (NuSMV 2.6 User Manual, 2.1, Lexical Structure).
#[derive(Clone, Copy, Debug, PartialEq, Eq)]
pub enum TokenKind {
    // The words of modules and sections.
    Module,
    Var,
    Ivar,
    FrozenVar,
    Define,
    Constants,
    Assign,
    /// `INIT`
    InitSection,
    Invar,
    Trans,
    Justice,
    Fairness,
    Invarspec,
    Ltlspec,
    Name,
    // The words of types.
    Boolean,
    Word,
    Unsigned,
    Signed,
    Array,
    Of,
    // The words of expressions.
    /// `self`
    SelfName,
    /// `init`
    Init,
    /// `next`
    Next,
    True,
    False,
    Case,
    Esac,
    Mod,
    Union,
    In,
    Xor,
    Xnor,
    Word1,
    /// `bool`
    Bool,
    Extend,
    Resize,
    Sizeof,
    Uwconst,
    Swconst,
    // The temporal operators.
    /// `X`
    NextTime,
    /// `F`
    Finally,
    /// `G`
    Globally,
    /// `U`
    Until,
    /// `V`
    Releases,
    /// `Y`
    PreviousTime,
    /// `Z`
    WeakPreviousTime,
    /// `O`
    Once,
    /// `H`
    Historically,
    /// `S`
    Since,
    /// `T`
    Triggered,
    // The words that name a function before `(`, and are identifiers elsewhere.
    Abs,
    Max,
    Min,
    Count,
    /// A reserved word of NuSMV that the language does without.
    Unsupported,
    /// Any other word: a letter or `_`, then letters, digits, `_`, `$`, `#` and `-`.
    Identifier,
    /// Decimal digits, of a number up to 2147483647.
    Integer,
    /// `0`, `u` or `s` or neither, a base, a width or none, `_` and digits.
    WordConstant,
    // The symbols.
    LeftParen,
    RightParen,
    LeftBracket,
    RightBracket,
    LeftBrace,
    RightBrace,
    Comma,
    Semicolon,
    Colon,
    Dot,
    DotDot,
    /// `:=`
    Becomes,
    /// `::`
    Concat,
    Equal,
    NotEqual,
    Less,
    Greater,
    LessEqual,
    GreaterEqual,
    Plus,
    Minus,
    Times,
    Divide,
    And,
    Or,
    /// `!`
    Not,
    /// `?`
    Question,
    /// `->`
    Implies,
    /// `<->`
    Iff,
    ShiftLeft,
    ShiftRight,
}

/// A token with its text and the place of its first byte.
#[derive(Debug, Drop)]
pub struct Token {
    pub kind: TokenKind,
    pub text: Text,
    pub place: Place,
}

/// The tokens of a whole source in order, and the place just past its last byte.
#[derive(Debug, Drop)]
pub struct Tokens {
    pub items: Items<Token>,
    pub end: Place,
}
