//! Formulas in the DIMACS format for conjunctive normal form.
ghost use Rattle.std.specs.Prelude.{◌<◌, ◌≤◌, All, IfOk, length};
ghost use Rattle.clause_core.specs.Literals.{Within};

use clause_core::{Clauses, Lit};
use std::alloc::Global;
use std::io;
use std::io::ErrorKind;

/// A formula in conjunctive normal form, whose literals are of the variables below `vars`.
#[derive(Drop)]
pub struct Formula {
    pub vars: usize,
    pub clauses: Clauses,
}

// Reads a formula, whose text is at hand as a whole.
#[derive(Drop)]
struct Reader {
    vars: usize,
    clauses: Clauses,
    open: Vec<Lit>,
}

// The error of a text that is no formula.
fn malformed() -> io::Error {
    io::Error::from(ErrorKind::InvalidData)
}

// Whether the byte stands between words.
fn is_blank(byte: u8) -> bool {
    matches!(byte, b' ' | b'\t'..=b'\r')
}

// Where the line ends that goes on at `from`.
fn line_end(text: &[u8], from: usize) -> usize
    ensures { from ≤ length text.now → (from ≤ result) × (result ≤ length text.now) }
{
    for i in from..text.len() {
        if text[i] == b'\n' {
            return i;
        }
    }
    text.len()
}

// Where the word ends that begins at `from`, and is a byte at least.
fn word_end(text: &[u8], from: usize) -> usize
    requires { from < length text.now }
    ensures more { from < result }
    ensures within { result ≤ length text.now }
{
    for i in from + 1..text.len() {
        if is_blank(text[i]) {
            return i;
        }
    }
    text.len()
}

// The number that the digits spell, if they are digits and it is an `i32`.
fn number_of(digits: &[u8]) -> Option<u64> {
    if digits.is_empty() {
        return None;
    }
    let mut value: u64 = 0;
    for byte in digits {
        let digit = byte.wrapping_sub(b'0');
        if digit > 9 || value > i32::MAX as u64 {
            return None;
        }
        value = value.wrapping_mul(10).wrapping_add(digit as u64);
    }
    if value > i32::MAX as u64 {
        None
    } else {
        Some(value)
    }
}

// The number of variables in a header.
fn header_vars(header: &[u8]) -> io::Result<usize> {
    let Ok(text) = std::str::from_utf8(header) else {
        return Err(malformed());
    };
    let Some(counts) = text.strip_prefix("p cnf") else {
        return Err(malformed());
    };
    let Some(word) = counts.split_whitespace().next() else {
        return Err(malformed());
    };
    match word.parse::<u32>() {
        Ok(vars) => Ok(vars as usize),
        Err(_) => Err(malformed()),
    }
}

impl Reader {
    // Reads a literal, or the 0 that ends a clause: variables are counted from 1, and a negative number negates.
    fn read_word(&mut self, word: &[u8]) -> io::Result<()> {
        let negative = word.first() == Some(&b'-');
        let digits = match word.first() {
            Some(b'-' | b'+') => &word[1..],
            _ => word,
        };
        let Some(number) = number_of(digits) else {
            return Err(malformed());
        };
        match number.checked_sub(1) {
            Some(var) => self.open.push(Lit::new(var as usize, !negative))?,
            None => {
                self.clauses.push(&self.open)?;
                self.open.clear();
            }
        }
        Ok(())
    }

    // Reads what begins at `from`: a comment, a header or a word. Where it ends.
    fn read_part(&mut self, text: &[u8], from: usize, is_first: bool) -> io::Result<usize>
        requires { from < length text.now }
        ensures more { IfOk result (λ end. from < end) }
        ensures within { IfOk result (λ end. end ≤ length text.now) }
    {
        if is_first && text[from] == b'c' {
            return Ok(line_end(text, from + 1));
        }
        if is_first && text[from] == b'p' {
            let end = line_end(text, from + 1);
            let vars = header_vars(&text[from..end])?;
            self.vars = vars;
            return Ok(end);
        }
        let end = word_end(text, from);
        self.read_word(&text[from..end])?;
        Ok(end)
    }

    // Reads the text to its end.
    fn read(&mut self, text: &[u8]) -> io::Result<()> {
        let mut at = 0;
        let mut is_first = true;
        'text: while at < text.len() {
            if is_blank(text[at]) {
                is_first = text[at] == b'\n';
                at += 1;
            } else {
                at = self.read_part(text, at, is_first)?;
                is_first = false;
            }
        }
        Ok(())
    }
}

/// The formula of a text: lines that begin with `c` are comments, one that begins with `p cnf` and a number tells how
/// many variables there are, and of the other words each is a literal, or the 0 that ends a clause.
///
/// The errors: out of memory; and `InvalidData` for a word that is no number, a clause without an end, or a literal
/// past the header's variables.
pub fn parse(alloc: Global, text: &[u8]) -> io::Result<Formula>
    ensures { IfOk result (λ f. All (Within f.vars) f.clauses) }
{
    let mut reader = Reader {
        vars: 0,
        clauses: Clauses::new(alloc),
        open: Vec::new(alloc),
    };
    reader.read(text)?;
    let Reader {
        vars,
        clauses,
        open,
    } = reader;
    if !open.is_empty() || !clauses.is_within(vars) {
        return Err(malformed());
    }
    Ok(Formula { vars, clauses })
}
