//! The integers of a type.

ghost use Rattle.std.specs.Prelude.{◌≡◌, fold};
ghost use Rattle.value_types.specs.Intervals.{interval_of, widened};

use crate::{Element, ValueType};

/// The integers from `low` to `high`, both among them.
#[derive(Clone, Copy, Debug, Drop, PartialEq, Eq)]
pub struct Interval {
    pub low: i32,
    pub high: i32,
}

impl ValueType {
    /// From the least integer of the type to the greatest; `None` where it has no integer.
    pub fn interval(&self) -> Option<Interval>
        ensures { result ≡ interval_of self.now }
    {
        match self {
            ValueType::Boolean | ValueType::Word { .. } => None,
            ValueType::Range { low, high } => Some(Interval {
                low: *low,
                high: *high,
            }),
            ValueType::Enumeration(elements) => hull(elements.as_slice()),
        }
    }
}

fn hull(elements: &[Element]) -> Option<Interval>
    ensures { result ≡ fold widened None elements.now }
{
    elements.iter().fold(None, |hull, e| widened(hull, *e))
}

// The interval with the element in it too, if that is an integer.
fn widened(interval: Option<Interval>, e: Element) -> Option<Interval>
    ensures { result ≡ widened interval e }
{
    match (interval, e) {
        (_, Element::Sym(_)) => interval,
        (None, Element::Int(z)) => Some(Interval { low: z, high: z }),
        (Some(i), Element::Int(z)) => Some(Interval {
            low: i.low.min(z),
            high: i.high.max(z),
        }),
    }
}
