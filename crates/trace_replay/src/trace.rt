//! Traces.

use crate::Binding;
use sqlite_items::Items;

/// A run as it is printed: the bindings of each state, those of the inputs of each step, and where its loop begins, if
/// it is a lasso. Without input slots no inputs are told.
#[derive(Debug, Drop)]
pub struct Trace {
    pub states: Items<Items<Binding>>,
    pub inputs: Items<Items<Binding>>,
    pub start: Option<usize>,
}
