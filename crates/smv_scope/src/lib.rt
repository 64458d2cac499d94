//! Where names lead: the modules of a program, their instances, the variables that have values, and what a name stands
//! for in an instance (NuSMV 2.6 User Manual, 2.3). The definitions are in `specs/`.
//!
//! The only error of a call but `lay_out` is running out of memory.
#![tactic(auto)]

mod enumerated;
mod holders;
mod instance;
mod instances;
mod instantiations;
mod layout;
mod lookup;
mod modules;
mod named;
mod paths;
mod scope;
mod symbols;
mod target;

pub use holders::{holds, is_array};
pub use instance::{Instance, Parent};
pub use layout::{LayoutStop, lay_out};
pub use lookup::{
    DEPTH_LIMIT, arguments_by, holder_number, instance_of, member_target, module_at, name_target,
    own_target, start_target, symbol_number,
};
pub use modules::{definitions_of, sections_of, variable_at, variables_in, variables_of};
pub use paths::{path_of, variable_name};
pub use scope::Scope;
pub use symbols::{ModuleNumbers, Spot, SymbolTable, module_numbers, number_first};
pub use target::{NameTarget, Shared};
