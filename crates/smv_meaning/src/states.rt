//! States and inputs.

use plain_text::Text;
use smv_value::Value;
use sqlite_items::Items;

/// The path of an instance: the names of the variables that lead to it from `main`.
pub type Path = Items<Text>;

/// A state: one value for each slot that is no input, in their order.
pub type State = Items<Value>;

/// The inputs of a step: one value for each input slot, in their order.
pub type Inputs = Items<Value>;
