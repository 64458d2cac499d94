//! Trails of literals, and propagators: what keeps clauses and does unit propagation. `Scan` looks at
//! every clause each time; `Watched` watches two literals of each.
#![tactic(auto)]

mod acts;
mod attach;
mod cover;
mod lists;
mod propagator;
mod queue;
mod rows;
mod scan;
mod settle;
mod steps;
mod sweep;
mod trail;
mod visit;
mod watch;
mod watched;
mod words;

pub use propagator::Propagator;
pub use scan::Scan;
pub use trail::Trail;
pub use watched::Watched;
