//! What a token of each kind is in the grammar, by one table with a line for each kind.
#![tactic(auto)]

mod one_role;

pub use one_role::kinds_have_their_roles;
