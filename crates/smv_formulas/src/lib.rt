//! The temporal formula of a specification, whose atoms are parts of the program's expressions, and the words of lassos
//! on which it is true or false (NuSMV 2.6 User Manual, 2.4.3, LTL Specifications). The definitions are in `specs/`.
#![tactic(auto)]

mod formed;
mod forms;
mod marks;
mod numbering;
mod pieces;
mod specified;
mod trees;
mod words;

pub use specified::{Specified, formula_of};
pub use words::word_of;
