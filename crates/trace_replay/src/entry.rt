//! The lines of a trace.

use plain_text::Text;
use sqlite_items::Items;

/// A name and a value, as they stand in a line.
#[derive(Debug, Drop)]
pub struct Binding {
    pub name: Text,
    pub value: Text,
}

/// What a line of a trace says.
#[derive(Debug, Drop)]
pub enum TraceLine {
    /// A trace of the specification of this number begins.
    Spec(usize),
    /// The state of this number has these values.
    State(usize, Items<Binding>),
    /// The step from the state of this number has these inputs.
    Input(usize, Items<Binding>),
    /// The loop begins at the state of this number.
    Loop(usize),
}
