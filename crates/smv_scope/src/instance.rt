//! Instances of modules.

/// A variable of an instance, as which another instance may be declared.
#[derive(Clone, Copy, Debug, PartialEq, Eq, Hash)]
pub struct Parent {
    /// The number of the instance that declares it.
    pub instance: usize,
    /// Its number among the variables of that instance's module.
    pub variable: usize,
}

/// An instance of a module. Instances are numbered in preorder, and `main` is the first.
#[derive(Clone, Copy, Debug, PartialEq, Eq)]
pub struct Instance {
    /// The number of its module.
    pub of_module: usize,
    /// As what it is declared; `main` is declared nowhere.
    pub parent: Option<Parent>,
}
