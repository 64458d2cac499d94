//! What a book looks up to tell what may be claimed: the frames with the level to which each obligation is blocked
//! (Bradley 2011, section 4), and the claims that were made with the last one of each subject.
#![tactic(auto)]

mod latest;
pub mod levels;
mod literal_table;
pub mod register;
mod values;

pub use levels::Levels;
pub use register::Register;
