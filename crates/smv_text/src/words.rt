//! The words and symbols of the language.

ghost use Rattle.std.specs.Prelude.{◌≡◌, [], slice_index_or};
ghost use Rattle.std.specs.Str.{bytes_eq};
ghost use Rattle.smv_text.specs.Words.{kind_in, kind_of_word, symbol_of};
ghost use Rattle.smv_text.specs.Rows.{kind_among, read_row, read_rows};

use smv_tree::TokenKind;

/// The first letter of the first row of words.
const FIRST_LETTER: u8 = b'A';

/// The words with a meaning: the reserved words, the names of functions, and the words of NuSMV that the language does
/// without. Each row has those that begin with one letter, from `A` on to `x`.
static WORDS: [&[(&[u8], TokenKind)]; 56] = [
    &[
        (b"ASSIGN", TokenKind::Assign),
        (b"A", TokenKind::Unsupported),
        (b"AX", TokenKind::Unsupported),
        (b"AF", TokenKind::Unsupported),
        (b"AG", TokenKind::Unsupported),
        (b"ABF", TokenKind::Unsupported),
        (b"ABG", TokenKind::Unsupported),
    ],
    &[(b"BU", TokenKind::Unsupported)],
    &[
        (b"CONSTANTS", TokenKind::Constants),
        (b"COMPASSION", TokenKind::Unsupported),
        (b"COMPUTE", TokenKind::Unsupported),
        (b"CTLSPEC", TokenKind::Unsupported),
    ],
    &[(b"DEFINE", TokenKind::Define)],
    &[
        (b"E", TokenKind::Unsupported),
        (b"EX", TokenKind::Unsupported),
        (b"EF", TokenKind::Unsupported),
        (b"EG", TokenKind::Unsupported),
        (b"EBF", TokenKind::Unsupported),
        (b"EBG", TokenKind::Unsupported),
    ],
    &[
        (b"FROZENVAR", TokenKind::FrozenVar),
        (b"FAIRNESS", TokenKind::Fairness),
        (b"FALSE", TokenKind::False),
        (b"F", TokenKind::Finally),
    ],
    &[(b"G", TokenKind::Globally)],
    &[(b"H", TokenKind::Historically)],
    &[
        (b"IVAR", TokenKind::Ivar),
        (b"INIT", TokenKind::InitSection),
        (b"INVAR", TokenKind::Invar),
        (b"INVARSPEC", TokenKind::Invarspec),
        (b"ISA", TokenKind::Unsupported),
    ],
    &[(b"JUSTICE", TokenKind::Justice)],
    &[],
    &[(b"LTLSPEC", TokenKind::Ltlspec)],
    &[
        (b"MODULE", TokenKind::Module),
        (b"MIRROR", TokenKind::Unsupported),
        (b"MDEFINE", TokenKind::Unsupported),
    ],
    &[(b"NAME", TokenKind::Name)],
    &[(b"O", TokenKind::Once)],
    &[
        (b"PSLSPEC", TokenKind::Unsupported),
        (b"PRED", TokenKind::Unsupported),
    ],
    &[],
    &[],
    &[(b"S", TokenKind::Since), (b"SPEC", TokenKind::Unsupported)],
    &[
        (b"TRANS", TokenKind::Trans),
        (b"TRUE", TokenKind::True),
        (b"T", TokenKind::Triggered),
    ],
    &[(b"U", TokenKind::Until)],
    &[(b"VAR", TokenKind::Var), (b"V", TokenKind::Releases)],
    &[],
    &[(b"X", TokenKind::NextTime)],
    &[(b"Y", TokenKind::PreviousTime)],
    &[(b"Z", TokenKind::WeakPreviousTime)],
    &[],
    &[],
    &[],
    &[],
    &[],
    &[],
    &[(b"array", TokenKind::Array), (b"abs", TokenKind::Abs)],
    &[(b"boolean", TokenKind::Boolean), (b"bool", TokenKind::Bool)],
    &[(b"case", TokenKind::Case), (b"count", TokenKind::Count)],
    &[],
    &[(b"esac", TokenKind::Esac), (b"extend", TokenKind::Extend)],
    &[],
    &[],
    &[],
    &[
        (b"init", TokenKind::Init),
        (b"in", TokenKind::In),
        (b"integer", TokenKind::Unsupported),
    ],
    &[],
    &[],
    &[],
    &[
        (b"mod", TokenKind::Mod),
        (b"max", TokenKind::Max),
        (b"min", TokenKind::Min),
    ],
    &[(b"next", TokenKind::Next)],
    &[(b"of", TokenKind::Of)],
    &[(b"process", TokenKind::Unsupported)],
    &[],
    &[
        (b"resize", TokenKind::Resize),
        (b"real", TokenKind::Unsupported),
    ],
    &[
        (b"signed", TokenKind::Signed),
        (b"self", TokenKind::SelfName),
        (b"sizeof", TokenKind::Sizeof),
        (b"swconst", TokenKind::Swconst),
    ],
    &[(b"toint", TokenKind::Unsupported)],
    &[
        (b"unsigned", TokenKind::Unsigned),
        (b"union", TokenKind::Union),
        (b"uwconst", TokenKind::Uwconst),
    ],
    &[],
    &[(b"word", TokenKind::Word), (b"word1", TokenKind::Word1)],
    &[(b"xor", TokenKind::Xor), (b"xnor", TokenKind::Xnor)],
];

/// The first byte of the first row of symbols.
const FIRST_SIGN: u8 = b'!';

/// The symbols. Each row has those that begin with one byte, from `!` on to `}`.
static SYMBOLS: [&[(&[u8], TokenKind)]; 93] = [
    &[(b"!=", TokenKind::NotEqual), (b"!", TokenKind::Not)],
    &[],
    &[],
    &[],
    &[],
    &[(b"&", TokenKind::And)],
    &[],
    &[(b"(", TokenKind::LeftParen)],
    &[(b")", TokenKind::RightParen)],
    &[(b"*", TokenKind::Times)],
    &[(b"+", TokenKind::Plus)],
    &[(b",", TokenKind::Comma)],
    &[(b"-", TokenKind::Minus), (b"->", TokenKind::Implies)],
    &[(b".", TokenKind::Dot), (b"..", TokenKind::DotDot)],
    &[(b"/", TokenKind::Divide)],
    &[],
    &[],
    &[],
    &[],
    &[],
    &[],
    &[],
    &[],
    &[],
    &[],
    &[
        (b":", TokenKind::Colon),
        (b":=", TokenKind::Becomes),
        (b"::", TokenKind::Concat),
    ],
    &[(b";", TokenKind::Semicolon)],
    &[
        (b"<", TokenKind::Less),
        (b"<=", TokenKind::LessEqual),
        (b"<->", TokenKind::Iff),
        (b"<<", TokenKind::ShiftLeft),
    ],
    &[(b"=", TokenKind::Equal)],
    &[
        (b">", TokenKind::Greater),
        (b">=", TokenKind::GreaterEqual),
        (b">>", TokenKind::ShiftRight),
    ],
    &[(b"?", TokenKind::Question)],
    &[],
    &[],
    &[],
    &[],
    &[],
    &[],
    &[],
    &[],
    &[],
    &[],
    &[],
    &[],
    &[],
    &[],
    &[],
    &[],
    &[],
    &[],
    &[],
    &[],
    &[],
    &[],
    &[],
    &[],
    &[],
    &[],
    &[],
    &[(b"[", TokenKind::LeftBracket)],
    &[],
    &[(b"]", TokenKind::RightBracket)],
    &[],
    &[],
    &[],
    &[],
    &[],
    &[],
    &[],
    &[],
    &[],
    &[],
    &[],
    &[],
    &[],
    &[],
    &[],
    &[],
    &[],
    &[],
    &[],
    &[],
    &[],
    &[],
    &[],
    &[],
    &[],
    &[],
    &[],
    &[],
    &[],
    &[(b"{", TokenKind::LeftBrace)],
    &[(b"|", TokenKind::Or)],
    &[(b"}", TokenKind::RightBrace)],
];

/// Whether two texts are equal. Most have different lengths, which is seen first.
fn is_same(a: &[u8], b: &[u8]) -> bool
    ensures { result ≡ bytes_eq a.now b.now }
{
    a.len() == b.len() && a == b
}

/// The kind beside the text in a table.
fn kind_in(mut table: &[(&[u8], TokenKind)], text: &[u8]) -> Option<TokenKind>
    ensures { result ≡ kind_in (read_row table.entry.now) text.now }
{
    while let [entry, rest @ ..] = table {
        if is_same(entry.0, text) {
            return Some(entry.1);
        }
        table = rest;
    }
    None
}

/// The kind beside the text in the row of this number; there is none behind the last.
fn kind_in_row(rows: &[&[(&[u8], TokenKind)]], number: usize, text: &[u8]) -> Option<TokenKind>
    ensures { result ≡ kind_in (slice_index_or (read_rows rows.now) number []) text.now }
{
    match rows.get(number) {
        Some(row) => kind_in(*row, text),
        None => None,
    }
}

/// The kind beside the text in the row of its first byte, where the first row is that of the byte `low`.
fn kind_among(low: u8, rows: &[&[(&[u8], TokenKind)]], text: &[u8]) -> Option<TokenKind>
    ensures { result ≡ kind_among low (read_rows rows.now) text.now }
{
    match text {
        [first, ..] if low <= *first => kind_in_row(rows, usize::from(*first - low), text),
        _ => None,
    }
}

/// What a word of letters is.
pub fn kind_of_word(word: &[u8]) -> TokenKind
    ensures { result ≡ kind_of_word word.now }
{
    match kind_among(FIRST_LETTER, &WORDS, word) {
        Some(kind) => kind,
        None => TokenKind::Identifier,
    }
}

/// The symbol that the text is.
pub fn symbol_of(text: &[u8]) -> Option<TokenKind>
    ensures { result ≡ symbol_of text.now }
{
    kind_among(FIRST_SIGN, &SYMBOLS, text)
}
