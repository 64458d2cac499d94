//! A model as systems over bits, one for each specification: its initial states, its steps, the states in which the
//! specification is FALSE and those in which it is not, as clauses (Biere and others 1999; Een, Mishchenko and
//! Sorensson 2007).
#![tactic(auto)]

mod agreement_with_programs;
mod building;
mod claims;
mod coding;
mod framing;
mod sides;
mod systems;

pub use agreement_with_programs::{what_is_never_bad_is_unbroken, what_stands_agrees};
pub use building::build;
pub use coding::Built;
pub use framing::{edges_of, framed_inputs, framed_state};
pub use sides::{StepConditions, higher};
pub use systems::copied;
