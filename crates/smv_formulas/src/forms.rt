//! The operators of a program's formulas as those of temporal logic.

ghost use Rattle.std.specs.Prelude.{◌≡◌};
ghost use Rattle.smv_formulas.specs.Forms.{connective, form_of, tense_form, within};

use ltl_meaning::node::{BinaryOperator, BoundedOperator, UnaryOperator};
use smv_value::{Bounded, Logic, Operator, Temporal};

/// What an operator is over formulas.
#[derive(Clone, Copy, Debug)]
pub enum Form {
    /// An operator over one.
    One(UnaryOperator),
    /// An operator over one, with these bounds.
    Within(BoundedOperator, u32, u32),
    /// An operator between two.
    Two(BinaryOperator),
    /// No operator over formulas.
    Neither,
}

/// What an operator is over formulas.
pub fn form_of(operator: Operator) -> Form
    ensures { result ≡ form_of operator }
{
    match operator {
        Operator::Not => Form::One(UnaryOperator::Not),
        Operator::Logic(logic) => Form::Two(connective(logic)),
        Operator::Temporal(temporal) => tense_form(temporal),
        Operator::Bounded(bounded, low, high) => Form::Within(within(bounded), low, high),
        _ => Form::Neither,
    }
}

fn connective(logic: Logic) -> BinaryOperator
    ensures { result ≡ connective logic }
{
    match logic {
        Logic::And => BinaryOperator::And,
        Logic::Or => BinaryOperator::Or,
        Logic::Xor => BinaryOperator::Xor,
        Logic::Xnor => BinaryOperator::Xnor,
        Logic::Implies => BinaryOperator::Implies,
        Logic::Iff => BinaryOperator::Iff,
    }
}

fn tense_form(temporal: Temporal) -> Form
    ensures { result ≡ tense_form temporal }
{
    match temporal {
        Temporal::Next => Form::One(UnaryOperator::Next),
        Temporal::Finally => Form::One(UnaryOperator::Finally),
        Temporal::Globally => Form::One(UnaryOperator::Globally),
        Temporal::Previously => Form::One(UnaryOperator::Yesterday),
        Temporal::WeaklyPreviously => Form::One(UnaryOperator::WeakYesterday),
        Temporal::Once => Form::One(UnaryOperator::Once),
        Temporal::Historically => Form::One(UnaryOperator::Historically),
        Temporal::Until => Form::Two(BinaryOperator::Until),
        Temporal::Releases => Form::Two(BinaryOperator::Releases),
        Temporal::Since => Form::Two(BinaryOperator::Since),
        Temporal::Triggered => Form::Two(BinaryOperator::Triggered),
    }
}

fn within(bounded: Bounded) -> BoundedOperator
    ensures { result ≡ within bounded }
{
    match bounded {
        Bounded::Finally => BoundedOperator::Finally,
        Bounded::Globally => BoundedOperator::Globally,
        Bounded::Once => BoundedOperator::Once,
        Bounded::Historically => BoundedOperator::Historically,
    }
}
