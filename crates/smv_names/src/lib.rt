//! The rules of names: a program whose modules, declarations and names all lead somewhere, or the first rule that it
//! breaks. The definitions are in `specs/`.
#![tactic(auto)]

mod declared;
mod defined;
mod definition_lists;
mod entries;
mod expressions;
mod graph;
mod known;
mod names;
mod numbers;
mod one_judgement;
mod open_names;
mod order;
mod reached;

pub use one_judgement::are_names_judged_once;
pub use order::{check_modules, check_names, lay_out_instances};
pub use smv_verdicts::{START, refused};
