//! Judges a printed report again, by the text of a model and its report alone: each trace is replayed, and each certificate judged
//! by unit propagation or by hints. No solver stands below this crate (after checkers of proofs of unsatisfiability: Wetzler, Heule
//! and Hunt 2014; Cruz-Filipe and others 2017).
#![tactic(auto)]

mod beside;
mod checking;
mod counting;
mod judgement;
mod judging;
mod printing;
mod soundness_of_checking;
mod trace_lines;

pub use checking::{Checked, recheck, status};
pub use judgement::{Judgement, Record};
pub use printing::print;
pub use soundness_of_checking::{
    full_items_are_rejected_for_a_reason, full_parts_are_rejected_for_a_reason, what_is_shown_holds,
};
