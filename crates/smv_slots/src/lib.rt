//! The slots of a program: its values one by one, those of arrays element by element (NuSMV 2.6 User Manual, 2.1.6,
//! Array Types; 2.3.1, Variable Declarations). The definitions are in `specs/`.
#![tactic(auto)]

mod names;
mod sizes;
mod slot;
mod slots;
mod slots_and_types;
mod types;

pub use names::slot_name;
pub use slot::{Holder, Slot};
pub use slots::slots_of;
pub use slots_and_types::{names_lead_to_slots, slots_have_types, types_are_types};
pub use types::types_of;
