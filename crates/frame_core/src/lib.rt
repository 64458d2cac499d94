//! The frames of IC3 (Bradley 2011): lemmas with levels, the top, and obligations, whose law every value
//! of `Frames` keeps; and what queries show of a system, as types.
//!
//! The only error of a call is running out of memory.
#![tactic(auto)]

mod comparing;
mod counting;
mod covering;
pub mod facts;
pub mod keeping;
pub mod lemma_list;
mod looking;
mod marking;
pub mod outcomes;
pub mod parts;
pub mod reached_states;
pub mod runs;
mod signing;
mod subset;

pub use comparing::{Place, first_unlike};
pub use covering::is_part_of;
pub use facts::{Clear, Proved, ProvedParts, StateWitness, Step};
pub use keeping::Frames;
pub use lemma_list::Lemmas;
pub use outcomes::{FramesVerdict, Insertion, Noting, Opening, Raising};
pub use parts::{Lemma, Obligation, Parent};
pub use runs::BitRun;
