//! A program with its instances, and the tables by which names are looked up.

ghost use Rattle.std.specs.Prelude.{◌≡◌, ◌≤◌, ℕ, List, slice_get};
ghost use Rattle.std.specs.HashMap.{get, get_by_text};
ghost use Rattle.smv_scope.specs.declared.instance.Parent.{Parent};
ghost use Rattle.smv_scope.specs.Modules.{parameters_of, sections_of};
ghost use Rattle.smv_scope.specs.Instances.{instances_of, child_number};
ghost use Rattle.smv_scope.specs.Holders.{held_in};
ghost use Rattle.smv_scope.specs.Enumerated.{symbols_of, symbol_number};
ghost use Rattle.smv_scope.specs.Symbols.{IsTableOf, first_holders_from, same_variable};

use crate::{Instance, Parent, SymbolTable};
use indexmap::IndexMap;
use plain_text::Text;
use smv_tree::Program;
use sqlite_items::Items;
use std::collections::HashMap;

/// A program with its instances in preorder, and the tables by which names are looked up.
#[derive(Debug, Drop)]
pub struct Scope {
    pub program: Program,
    pub tree: Items<Instance>,
    /// What the names of each module are.
    pub symbols: Items<SymbolTable>,
    /// How many variables have values in the instances before each one.
    pub first_holders: Items<usize>,
    /// The instances that variables are.
    pub child_numbers: HashMap<Parent, usize>,
    /// The symbols in the order of the source, as often as they are named.
    pub symbol_names: Items<Text>,
    /// The number of each symbol.
    pub symbol_numbers: IndexMap<String, usize>,
    pub ghost unfolded: { tree ≡ instances_of program },
    pub ghost tabled: { (m : ℕ) → IsTableOf (parameters_of program m) (sections_of program m) (slice_get symbols m) },
    pub ghost counted: { first_holders ≡ first_holders_from program 0 tree },
    pub ghost few: { held_in program tree ≤ 18446744073709551615 },
    pub ghost children_numbered: { (x : Parent) → get same_variable child_numbers x ≡ child_number program x.instance x.variable },
    pub ghost named: { symbol_names ≡ symbols_of program },
    pub ghost symbols_numbered: { (name : List ℕ) → get_by_text symbol_numbers name ≡ symbol_number program name },
}
