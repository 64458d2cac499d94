//! The places of expressions, as refusals tell them.

ghost use Rattle.std.specs.Prelude.{◌≡◌};
ghost use Rattle.smv_resolve.specs.Resolved.{place_of_start};
ghost use Rattle.smv_declared.specs.Refusals.{last_place, place_of};

use smv_tree::{Expr, Place, Start};
use smv_value::Operator;

// The place of an operator, or else of the first token. Parentheses have none.
#[tactic(auto, using(crate::proofs::Places::places))]
pub(crate) fn place_of(e: &Expr) -> Place
    ensures { result ≡ place_of e.now }
{
    match e {
        Expr::Constant(place, _) => *place,
        Expr::Name(name) => place_of_start(&name.start),
        Expr::Group(_, inner) => place_of(inner.get()),
        Expr::Next(place, _) => *place,
        Expr::Apply(place, _, _, _) => *place,
        Expr::Chain(first, links) => last_place(place_of(first.get()), links.as_slice()),
    }
}

fn place_of_start(start: &Start) -> Place
    ensures { result ≡ place_of_start start.now }
{
    match start {
        Start::Own(x) => x.place,
        Start::Itself(place) => *place,
    }
}

// That of the last link, if there is one.
fn last_place(first: Place, links: &[(Place, Operator, Expr)]) -> Place
    ensures { result ≡ last_place first links.now }
{
    let mut place = first;
    for link in links {
        place = link.0;
    }
    place
}
