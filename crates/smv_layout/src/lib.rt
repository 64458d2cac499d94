//! Expressions over slots: elements of arrays by their indices, and bounds of temporal operators by their constants
//! (NuSMV 2.6 User Manual, 2.1.6, Array Types; 2.2.3, Index Subscript Operator). The definitions are in `specs/`.
//!
//! The only error of a call is running out of memory.
#![tactic(auto)]

mod elements;
mod entries;
mod expressions;
mod indices;
mod laid;
mod layout;
mod nodes;
mod operators;
mod sizes;

pub use layout::{lay_out_expression, lay_out_items};
