//! The truth of a formula of linear temporal logic at every time of a word that ends in a loop.
#![tactic(auto)]

mod column;
mod constant;
mod loops;
mod operators;
mod pointwise;
mod rules;
pub mod table;
