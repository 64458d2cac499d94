//! Types as they are printed.

ghost use Rattle.std.specs.Prelude.{Some};
ghost use Rattle.std.specs.Fmt.{WritesOnOk};
ghost use Rattle.value_types.specs.Shown.{elements_text, more_elements, type_text};

use crate::{Element, ValueType};
use plain_text::Text;
use smv_value::Shown;
use std::fmt;

/// A type beside the names of symbols.
#[derive(Drop)]
pub struct ShownType<'a> {
    pub declared: &'a ValueType,
    pub names: &'a [Text],
}

impl fmt::Display for ShownType<'_> {
    ghost output = { λ s. Some (type_text s.names.now s.declared.now) };

    fn fmt<W: fmt::Write>(&self, f: &mut fmt::Formatter<W>) -> fmt::Result {
        match self.declared {
            ValueType::Boolean => write!(f, "boolean"),
            ValueType::Word { signed, width } => {
                let sign = if *signed { "signed" } else { "unsigned" };
                write!(f, "{sign} word[{width}]")
            }
            ValueType::Range { low, high } => write!(f, "{low}..{high}"),
            ValueType::Enumeration(elements) => {
                write!(f, "{{")?;
                write_elements(f, self.names, elements.as_slice())?;
                write!(f, "}}")
            }
        }
    }
}

fn write_elements<W: fmt::Write>(
    f: &mut fmt::Formatter<W>,
    names: &[Text],
    elements: &[Element],
) -> fmt::Result
    ensures { WritesOnOk W.Write.write_str_gives f.old result (elements_text names.now elements.now) f.new }
{
    let [first, more @ ..] = elements else {
        return Ok(());
    };
    let shown = Shown {
        value: first.value(),
        names,
    };
    write!(f, "{shown}")?;
    write_more_elements(f, names, more)
}

// Each behind a comma.
fn write_more_elements<W: fmt::Write>(
    f: &mut fmt::Formatter<W>,
    names: &[Text],
    elements: &[Element],
) -> fmt::Result
    ensures { WritesOnOk W.Write.write_str_gives f.old result (more_elements names.now elements.now) f.new }
{
    for e in elements {
        let shown = Shown {
            value: e.value(),
            names,
        };
        write!(f, ", {shown}")?;
    }
    Ok(())
}
