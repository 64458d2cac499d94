//! Operators that stand between any number of operands, by their levels of precedence.

ghost use Rattle.std.specs.Prelude.{◌≡◌};
ghost use Rattle.phrase_forms.specs.Forms.{head};
ghost use Rattle.smv_phrases.specs.Reading.{Gives};
ghost use Rattle.smv_expressions.specs.Operators.{concatenation_operator, product_operator, sum_operator, shift_operator, union_operator, membership_operator, relation_operator, connection_operator, conjunction_operator, disjunction_operator, equivalence_operator, operator_of, is_operator, operator_form};

use phrase_forms::Fault;
use smv_phrases::Stop;
use smv_tree::{Place, Token, TokenKind};
use smv_value::{Arithmetic, Division, Logic, Operator, Order, Shift, Temporal};

/// A level of precedence whose operators stand between any number of operands, from the tightest on.
#[derive(Clone, Copy, Debug, PartialEq, Eq)]
pub enum Rank {
    /// `::`
    Concatenation,
    /// `* / mod`
    Product,
    /// `+ -`
    Sum,
    /// `<< >>`
    Shift,
    /// `union`
    Union,
    /// `in`
    Membership,
    /// `= != < > <= >=`
    Relation,
    /// `U V S T`
    Connection,
    /// `&`
    Conjunction,
    /// `| xor xnor`
    Disjunction,
    /// `<->`
    Equivalence,
    /// `* / mod` in the limit of a type
    LimitProduct,
    /// `+ -` in the limit of a type
    LimitSum,
}

impl Rank {
    /// The operator of this rank that tokens of a kind are.
    pub fn operator_of(self, kind: TokenKind) -> Option<Operator>
        ensures { result ≡ operator_of self kind }
    {
        match self {
            Rank::Concatenation => concatenation_operator(kind),
            Rank::Product => product_operator(kind),
            Rank::Sum => sum_operator(kind),
            Rank::Shift => shift_operator(kind),
            Rank::Union => union_operator(kind),
            Rank::Membership => membership_operator(kind),
            Rank::Relation => relation_operator(kind),
            Rank::Connection => connection_operator(kind),
            Rank::Conjunction => conjunction_operator(kind),
            Rank::Disjunction => disjunction_operator(kind),
            Rank::Equivalence => equivalence_operator(kind),
            Rank::LimitProduct => product_operator(kind),
            Rank::LimitSum => sum_operator(kind),
        }
    }

    /// Whether an operator of this rank stands at the front.
    pub fn goes_on(self, tokens: &[Token]) -> bool
        ensures { result ≡ head (is_operator self) tokens.now }
    {
        match tokens {
            [first, ..] => self.operator_of(first.kind).is_some(),
            [] => false,
        }
    }

    /// An operator of this rank and its place, and the tokens behind it. Where another token stands at the front, or
    /// none, it is refused there as unexpected.
    pub fn operator(self, tokens: &[Token]) -> Result<((Place, Operator), &[Token]), Stop<'_>>
        ensures { Gives (λ x. ((x.0.0, x.0.1), x.1.now)) result ((operator_form self).parse tokens.now) }
    {
        match tokens {
            [first, rest @ ..] => match self.operator_of(first.kind) {
                Some(operator) => Ok(((first.place, operator), rest)),
                None => Err(Stop::Refused(Fault::Unexpected, tokens)),
            },
            [] => Err(Stop::Refused(Fault::Unexpected, tokens)),
        }
    }
}

fn concatenation_operator(kind: TokenKind) -> Option<Operator>
    ensures { result ≡ concatenation_operator kind }
{
    match kind {
        TokenKind::Concat => Some(Operator::Join),
        _ => None,
    }
}

fn product_operator(kind: TokenKind) -> Option<Operator>
    ensures { result ≡ product_operator kind }
{
    match kind {
        TokenKind::Times => Some(Operator::Arithmetic(Arithmetic::Multiply)),
        TokenKind::Divide => Some(Operator::Division(Division::Quotient)),
        TokenKind::Mod => Some(Operator::Division(Division::Remainder)),
        _ => None,
    }
}

fn sum_operator(kind: TokenKind) -> Option<Operator>
    ensures { result ≡ sum_operator kind }
{
    match kind {
        TokenKind::Plus => Some(Operator::Arithmetic(Arithmetic::Add)),
        TokenKind::Minus => Some(Operator::Arithmetic(Arithmetic::Subtract)),
        _ => None,
    }
}

fn shift_operator(kind: TokenKind) -> Option<Operator>
    ensures { result ≡ shift_operator kind }
{
    match kind {
        TokenKind::ShiftLeft => Some(Operator::Shift(Shift::Left)),
        TokenKind::ShiftRight => Some(Operator::Shift(Shift::Right)),
        _ => None,
    }
}

fn union_operator(kind: TokenKind) -> Option<Operator>
    ensures { result ≡ union_operator kind }
{
    match kind {
        TokenKind::Union => Some(Operator::Union),
        _ => None,
    }
}

fn membership_operator(kind: TokenKind) -> Option<Operator>
    ensures { result ≡ membership_operator kind }
{
    match kind {
        TokenKind::In => Some(Operator::In),
        _ => None,
    }
}

fn relation_operator(kind: TokenKind) -> Option<Operator>
    ensures { result ≡ relation_operator kind }
{
    match kind {
        TokenKind::Equal => Some(Operator::Equal),
        TokenKind::NotEqual => Some(Operator::NotEqual),
        TokenKind::Less => Some(Operator::Order(Order::Less)),
        TokenKind::Greater => Some(Operator::Order(Order::Greater)),
        TokenKind::LessEqual => Some(Operator::Order(Order::AtMost)),
        TokenKind::GreaterEqual => Some(Operator::Order(Order::AtLeast)),
        _ => None,
    }
}

fn connection_operator(kind: TokenKind) -> Option<Operator>
    ensures { result ≡ connection_operator kind }
{
    match kind {
        TokenKind::Until => Some(Operator::Temporal(Temporal::Until)),
        TokenKind::Releases => Some(Operator::Temporal(Temporal::Releases)),
        TokenKind::Since => Some(Operator::Temporal(Temporal::Since)),
        TokenKind::Triggered => Some(Operator::Temporal(Temporal::Triggered)),
        _ => None,
    }
}

fn conjunction_operator(kind: TokenKind) -> Option<Operator>
    ensures { result ≡ conjunction_operator kind }
{
    match kind {
        TokenKind::And => Some(Operator::Logic(Logic::And)),
        _ => None,
    }
}

fn disjunction_operator(kind: TokenKind) -> Option<Operator>
    ensures { result ≡ disjunction_operator kind }
{
    match kind {
        TokenKind::Or => Some(Operator::Logic(Logic::Or)),
        TokenKind::Xor => Some(Operator::Logic(Logic::Xor)),
        TokenKind::Xnor => Some(Operator::Logic(Logic::Xnor)),
        _ => None,
    }
}

fn equivalence_operator(kind: TokenKind) -> Option<Operator>
    ensures { result ≡ equivalence_operator kind }
{
    match kind {
        TokenKind::Iff => Some(Operator::Logic(Logic::Iff)),
        _ => None,
    }
}
