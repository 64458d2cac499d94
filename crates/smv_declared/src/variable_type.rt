//! The types of variables that hold values: of an array its dimensions, and the type of its elements.

use sqlite_items::Items;
use value_types::ValueType;

/// The indices of a dimension of an array.
#[derive(Clone, Copy, Debug, PartialEq, Eq)]
pub struct Bounds {
    /// The first index.
    pub low: i32,
    /// How many there are.
    pub count: usize,
}

/// The type of a variable that holds values (manual 2.1.6, Array Types).
#[derive(Debug, Drop)]
pub struct VariableType {
    /// Those of an array, the outermost first; none of what is no array.
    pub dimensions: Items<Bounds>,
    /// The type of the variable, or of each element of an array.
    pub element: ValueType,
}

/// The types of all variables that hold values, if those are few.
#[derive(Debug, Drop)]
pub enum Declared {
    /// They are these, instance by instance in the order of the source. They have at most 65536 slots, one for each variable that
    /// is no array and one for each element of an array.
    Types(Items<VariableType>),
    /// They have more slots.
    TooMany,
}
