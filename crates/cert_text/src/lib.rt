//! The text of certificates: lines that are comments of the model, each made of words with one space between.
#![tactic(auto)]

pub mod line;
pub mod open;
pub mod open_sound;
pub mod printing;
mod reading;
mod scan;
pub mod token;
pub mod whole;
mod words;

pub use line::Head;
pub use printing::{print, print_sound};
pub use token::Token;
pub use whole::{Certificates, lines, read};
