//! Traces.

use crate::Binding;
use sqlite_items::Items;

/// A counterexample as a report has it: the number of its specification, the values of each state, those of the inputs
/// of each step, and the state at which its loop begins, if it has one. All states have the same names, and so have all
/// inputs.
#[derive(Debug, Drop)]
pub struct Trace {
    pub spec: usize,
    pub states: Items<Items<Binding>>,
    pub inputs: Items<Items<Binding>>,
    pub start: Option<usize>,
}
