//! Laws of the kinds of expressions: where kinds fit, operators give values of the kinds that are told.
#![tactic(auto)]

mod kinds_of_results;

pub use kinds_of_results::{
    constants_are_values, kinds_have_members, kinds_have_values, kinds_of_formulas,
    what_is_taken_is_alike,
};
