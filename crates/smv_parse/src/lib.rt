//! The grammar of the language: from the tokens of a source to its program (NuSMV 2.6 User Manual, chapter 2).
#![tactic(auto)]

mod declarations;
mod edges;
mod one_parse;
mod parsing;
mod programs;
mod types;
mod unsupported;

pub use one_parse::is_parsed_once;
pub use parsing::parse;
