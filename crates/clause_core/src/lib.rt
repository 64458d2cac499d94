//! Literals, clauses and transition systems over bits; what unit propagation finds in clauses, and does
//! at one clause under a partial assignment; and what a derivation shows.
//!
//! The only error of a call is running out of memory.
#![tactic(auto)]

pub mod assignment;
pub mod bits;
pub mod clause;
pub mod literal;
pub mod satisfied_clauses;
pub mod scanning;
pub mod soundness_of_derivations;
pub mod system;

pub use assignment::{is_false, is_set, set};
pub use bits::{Bits, met};
pub use clause::{Clause, Clauses, Log, is_within};
pub use literal::Lit;
pub use scanning::{Scan, scan_clause};
pub use system::{Parts, System};
