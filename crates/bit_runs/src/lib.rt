//! Runs of a system over bits and runs of the model that it stands for: where no bad state is reached no run breaks the
//! specification, and a run to a bad state is a counterexample (Bradley 2011, section 2; Biere and others 1999). The
//! same of a lasso.
#![tactic(auto)]

mod frames_and_runs;
mod lassos;
mod runs;

pub use frames_and_runs::{what_frames_say_of_runs, what_is_built_is_alike};
pub use lassos::{Lasso, lasso_of};
pub use runs::{Run, run_of};
