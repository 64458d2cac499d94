//! Where expressions begin.

ghost use Rattle.std.specs.Prelude.{◌≡◌};
ghost use Rattle.smv_resolve.specs.FirstPlaces.{first_place};

use crate::expressions::place_of_start;
use smv_tree::{Expr, Place};
use sqlite_items::at;

/// The place of the first token of an expression, its parentheses included.
#[tactic(auto, using(crate::proofs::FirstPlaces::first_places))]
pub fn first_place(e: &Expr) -> Place
    ensures { result ≡ first_place e.now }
{
    match e {
        Expr::Constant(place, _) => *place,
        Expr::Name(name) => place_of_start(&name.start),
        Expr::Group(place, _) => *place,
        Expr::Next(place, _) => *place,
        Expr::Chain(first, _) => first_place(first.get()),
        Expr::Apply(place, _, beside, _) => match at(beside.as_slice(), 0) {
            None => *place,
            Some(first) => first_place(first),
        },
    }
}
