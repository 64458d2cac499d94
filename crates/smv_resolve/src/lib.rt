//! Expressions without names: in the place of each name stands what it leads to, and all expressions of a program are
//! nodes of one list (NuSMV 2.6 User Manual, 2.3). The definitions are in `specs/`.
//!
//! A call fails where a part of an expression is stuck, which it tells by its place, or where memory runs out.
#![tactic(auto)]

mod dots;
mod expressions;
mod first_places;
mod item;
mod listing;
mod memo;
mod node;
mod pending;
mod resolve;
mod tables;

pub use first_places::first_place;
pub use item::{Item, ItemKind};
pub use node::{ExprNode, Naming};
pub use resolve::{
    Resolution, ResolveStop, Single, resolve_expression, resolve_items, resolve_wholly,
};
pub use tables::{first, last};
