//! Values as they are printed.

ghost use Rattle.std.specs.Prelude.{Some, ◌++◌, codes, cond};
ghost use Rattle.std.specs.Fmt.{WritesOnOk, decimal};
ghost use Rattle.smv_value.specs.Texts.{name_of, value_text};

use crate::Value;
use plain_text::Text;
use std::fmt;

/// A value beside the names of symbols.
#[derive(Drop)]
pub struct Shown<'a> {
    pub value: Value,
    pub names: &'a [Text],
}

impl fmt::Display for Shown<'_> {
    ghost output = { λ s. Some (value_text s.names.now s.value) };

    fn fmt<W: fmt::Write>(&self, f: &mut fmt::Formatter<W>) -> fmt::Result {
        match self.value {
            Value::Bool(b) => f.write_str(if b { "TRUE" } else { "FALSE" }),
            Value::Int(z) => write!(f, "{z}"),
            Value::Sym(n) => write_name(f, self.names, n),
            Value::Word {
                signed,
                width,
                bits,
            } => write_word(f, signed, width, bits),
        }
    }
}

fn write_name<W: fmt::Write>(f: &mut fmt::Formatter<W>, names: &[Text], n: u32) -> fmt::Result
    ensures { WritesOnOk W.Write.write_str_gives f.old result (name_of names.now n) f.new }
{
    match names.get(n as usize) {
        Some(name) => f.write_str(name.as_str()),
        None => Ok(()),
    }
}

fn write_word<W: fmt::Write>(
    f: &mut fmt::Formatter<W>,
    signed: bool,
    width: u32,
    bits: u128,
) -> fmt::Result
    ensures { WritesOnOk W.Write.write_str_gives f.old result (cond signed (codes "0sd") (codes "0ud") ++ decimal width ++ codes "_" ++ decimal bits) f.new }
{
    let kind = if signed { "0sd" } else { "0ud" };
    write!(f, "{kind}{width}_{bits}")
}
