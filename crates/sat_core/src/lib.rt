//! A solver for clauses that learns from conflicts, answers queries under assumptions, and shows each
//! answer: by a model, or by a core of the assumptions and a log that derives the empty clause.
#![tactic(auto)]

mod answer;
mod learn;
mod marks;
mod order;
mod positives;
mod query;
mod refute;
mod search;
mod shorten;
mod solver;

pub use answer::Answer;
pub use solver::Solver;
