//! Expressions, and the limits of types and of temporal operators: from tokens to their trees (NuSMV 2.6 User Manual,
//! 2.2).
//!
//! A call refuses tokens at the first that is out of place, or that opens a level too many. The other error is running
//! out of memory.
#![tactic(auto)]

mod expressions;
mod nodes;
mod ranks;
mod temporal;
mod tokens;

pub use expressions::{expression, indexed, is_closed, limit, limit_start, limited, listed};
pub use tokens::{begins_expression, goes_on_limit, names_function};
