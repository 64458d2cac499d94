//! Lassos of a system over bits and lassos of the model that it stands for (Biere and others 1999). One over bits that
//! violates the formula is one that violates the specification. Where none does, no lasso of the model violates the
//! specification.
#![tactic(auto)]

mod violations_over_bits;

pub use violations_over_bits::{what_is_never_violated, what_violates_over_bits};
