//! Variables that have values, and their slots.

use smv_tree::VariableKind;

/// A variable of an instance that has a value, or an array of values.
#[derive(Clone, Copy, Debug, PartialEq, Eq)]
pub struct Holder {
    /// The number of the instance.
    pub instance: usize,
    /// The number of the variable among those of the instance's module.
    pub variable: usize,
    pub kind: VariableKind,
}

/// One value of a state, or of the inputs: that of a variable, or of an element of an array.
#[derive(Clone, Copy, Debug, PartialEq, Eq)]
pub struct Slot {
    /// The number of the instance.
    pub instance: usize,
    /// The number of the variable among those of the instance's module.
    pub variable: usize,
    pub kind: VariableKind,
    /// Its number among the elements of its array, the last index fastest; 0 where there is no array.
    pub element: usize,
    /// Its number among all slots, by which a table of types has its type.
    pub declared: usize,
    /// Its number among the inputs, or among the slots of the state.
    pub index: usize,
}
