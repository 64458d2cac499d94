//! Tests of queries about frames, through the public calls of their crates: systems of three bits worked by hand, and
//! each call once with ample memory.
#![tactic(auto)]

#[cfg(test)]
mod frame_queries;
#[cfg(test)]
mod hints_of_states;
