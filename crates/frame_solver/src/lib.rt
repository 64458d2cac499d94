//! Solvers that are kept over many queries about the frames of IC3 (Bradley 2011): clauses in groups behind
//! activation literals, what is known without a query, and the questions about steps, initial states and bad states.
#![tactic(auto)]

mod asking;
pub mod bad_states;
pub mod first_states;
mod known_steps;
pub mod loading;
mod marking;
mod negating;
pub mod querying;
pub mod recalling;
mod renewing;
pub mod stepping;

pub use bad_states::BadStates;
pub use first_states::Firsts;
pub use loading::{Engine, system_of};
pub use negating::negation;
pub use querying::{Flag, bads_of, firsts_of, flag_of, steps_of};
pub use recalling::Known;
pub use renewing::{fresh_states, fresh_steps};
pub use stepping::{Stepping, has};
