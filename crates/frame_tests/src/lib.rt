//! Tests of frames and of the book that workers share, through the public calls of their crates: systems of three bits
//! worked by hand, and each call once with ample memory.
#![tactic(auto)]

#[cfg(test)]
mod frames;
#[cfg(test)]
mod plays;
#[cfg(test)]
mod three_bits;
