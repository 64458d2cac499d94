//! The rules of types and kinds: a program whose names lead to what they may, or the first rule that it breaks. They
//! come after those of names, which are those of `smv_names`. Those of declared types are of `smv_declared`; those of
//! depth, kinds and contexts are here. The definitions are in `specs/`.
#![tactic(auto)]

mod items;
mod judged;
mod judged_list;
mod kinds;
mod limits;
mod notes;
mod one_judgement;
mod order;
mod told;

pub use one_judgement::is_judged_once;
pub use order::{check, resolve_items};
