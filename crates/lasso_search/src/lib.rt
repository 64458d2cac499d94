//! Fair lassos of a transition system, as a monitored one, looked for length by length: by queries to one solver
//! that is kept over all lengths, and a book of what was found at which length.
//!
//! The only error of a call is running out of memory.
//!
//! # Variables and clauses
//!
//! A lasso of n states is a run of n steps whose last state, at time n, is one that came before. The query for n
//! assumes that the loop begins before time n and ends at it, and that each fairness set was met in it by then. So
//! all clauses are shared by all lengths (Biere, Heljanko, Junttila, Latvala and Schuppan 2006), and those that a
//! longer one loaded say nothing of a shorter one: a lasso goes on round its loop.
//!
//! With S state bits, A variables and F fairness literals the first A variables are a copy of the state at which
//! the loop begins, and those that only `init` has. Then each time has 2A - 2S + 2 + F: the system's variables,
//! those that only a step has, and what the query assumes. The bits of a next state are those of the time after.
//! The clauses of `init` stand once, those of `step` and of `defs` for each step. Beside them each step has:
//!
//! - two clauses of four literals for each state bit: where the loop begins here, the bit is that of the copy;
//! - two of three literals for each state bit: where it ends after the step, the bit there is that of the copy;
//! - two of three literals for each set: met by the time after, it was by this one, or holds here, in the loop.
//!
//! So a length more costs one step more. `defs` has its own copy at each time: a step's values need not meet it.
#![tactic(auto)]

mod along;
mod book;
mod encoding;
mod lasso;
mod lasso_solver;
mod loading;
mod plan;
mod reading;
mod searched;
mod searching;
pub mod soundness_of_search;

pub use along::lasso_along;
pub use book::LassoBook;
pub use lasso::BitLasso;
pub use lasso_solver::LassoSolver;
pub use searched::Searched;
