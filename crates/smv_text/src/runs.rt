//! Runs of bytes.

ghost use Rattle.std.specs.Prelude.{◌≡◌, ◌≤◌, length};
ghost use Rattle.std.specs.List.{prefix_len};
ghost use Rattle.smv_text.specs.Lexemes.{begins_word, in_word};
ghost use Rattle.smv_text.specs.Numbers.{in_constant};
ghost use Rattle.smv_text.specs.Runs.{in_run};

/// A run of bytes of one sort.
#[derive(Clone, Copy)]
pub enum Run {
    /// What goes on a word.
    Word,
    /// Decimal digits.
    Digits,
    /// What stands behind the base of a word constant.
    Constant,
    /// What stands in one line.
    Line,
}

/// Whether a word begins with this byte.
pub fn begins_word(byte: u8) -> bool
    ensures { result ≡ begins_word byte }
{
    byte.is_ascii_alphabetic() || byte == b'_'
}

fn in_word(byte: u8) -> bool
    ensures { result ≡ in_word byte }
{
    byte.is_ascii_alphanumeric() || byte == b'_' || byte == b'$' || byte == b'#' || byte == b'-'
}

fn in_constant(byte: u8) -> bool
    ensures { result ≡ in_constant byte }
{
    byte.is_ascii_alphanumeric() || byte == b'_'
}

fn in_run(run: Run, byte: u8) -> bool
    ensures { result ≡ in_run run byte }
{
    match run {
        Run::Word => in_word(byte),
        Run::Digits => byte.is_ascii_digit(),
        Run::Constant => in_constant(byte),
        Run::Line => byte != b'\n',
    }
}

/// How many bytes at the front go on the run.
pub fn run_len(run: Run, bytes: &[u8]) -> usize
    ensures within { result ≤ length bytes.now }
    ensures run { result ≡ prefix_len (in_run run) bytes.now }
{
    let mut n = 0;
    while n < bytes.len() && in_run(run, bytes[n]) {
        n += 1;
    }
    n
}
