//! The words of the command line, and what they ask for.
//!
//! The grammar is a table of commands and options in `specs/Grammar.antt`; `clap` reads the words by it.
#![tactic(auto)]

mod command;
mod one_command;
mod reading;
mod table;

pub use command::{Command, Effort, Ring, default_effort};
pub use one_command::is_said_once;
pub use reading::{WordsStop, read_words};
