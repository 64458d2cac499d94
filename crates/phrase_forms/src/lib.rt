//! Phrases of a language: what they spell, and how one is read from the front of a list of tokens.
#![tactic(auto)]

mod fault;

pub use fault::Fault;
