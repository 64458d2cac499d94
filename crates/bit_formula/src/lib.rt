//! A model and the formula of an LTLSPEC as a system over bits, with a literal for each atom of the formula. A state
//! has one bit more for each input that the formula reads (Biere and others 1999).
#![tactic(auto)]

mod agreement_with_formulas;
mod formula_system;
mod joining;
mod places;
mod reading;
mod sides;
mod states;

pub use agreement_with_formulas::{
    is_joint_coding, what_is_read, what_stands_agrees_with_formulas,
};
pub use formula_system::{FormulaSystem, build_formula};
