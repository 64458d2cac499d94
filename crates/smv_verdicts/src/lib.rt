//! What is said of a program by rules: the first refusal, or what is right to say. The definitions are in `specs/`.
#![tactic(auto)]

mod refusals;

pub use refusals::{START, refuse_by, refuse_name, refused};
