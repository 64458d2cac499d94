//! One history that threads share and that only grows: who has seen a beginning of it knows that for good.
//!
//! The entries exist in proofs alone, beside one word in memory, their number (a log with tokens, as in
//! Jung, Krebbers, Jourdan, Bizjak, Birkedal and Dreyer 2018).
#![tactic(auto)]

mod counting_rule;
mod front;
mod line;

pub use counting_rule::Law;
pub use front::Front;
pub use line::{Line, Naming, Opened};
