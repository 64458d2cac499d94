//! What expressions give.

ghost use Rattle.std.specs.Prelude.{◌≡◌, IfOk};
ghost use Rattle.smv_meaning.specs.Outcomes.{failed, given, one, truth, truth_of, value_in, valued};

use smv_tree::Place;
use smv_value::{FaultRule, Value};
use std::alloc::{AllocError, Global};
use value_sets::ValueSet;

/// What an expression gives in a state.
#[derive(Debug, Drop)]
pub enum Evaluation {
    /// An operand is of another kind, or inputs or a next state are looked at that are not there. In a typed program
    /// this does not come.
    Nothing,
    /// One value, or the members of a set.
    Values(ValueSet),
    /// The evaluation stops by this rule at this place.
    Fault(FaultRule, Place),
}

impl Evaluation {
    /// The same outcome. One value takes no memory.
    pub fn copied(&self, alloc: Global) -> Result<Evaluation, AllocError>
        ensures { IfOk result (λ copy. copy ≡ self.now) }
    {
        match self {
            Evaluation::Nothing => Ok(Evaluation::Nothing),
            Evaluation::Values(values) => {
                let copy = values.copied(alloc)?;
                Ok(Evaluation::Values(copy))
            }
            Evaluation::Fault(rule, place) => Ok(Evaluation::Fault(*rule, *place)),
        }
    }

    /// The value, if there is just one.
    pub fn value(&self) -> Option<Value>
        ensures { result ≡ value_in self.now }
    {
        match self {
            Evaluation::Nothing => None,
            Evaluation::Values(values) => values.single(),
            Evaluation::Fault(..) => None,
        }
    }

    /// TRUE or FALSE, if it is one of these.
    pub fn truth(&self) -> Option<bool>
        ensures { result ≡ truth self.now }
    {
        match self.value() {
            None => None,
            Some(v) => truth_of(v),
        }
    }
}

fn truth_of(v: Value) -> Option<bool>
    ensures { result ≡ truth_of v }
{
    match v {
        Value::Bool(b) => Some(b),
        Value::Int(_) => None,
        Value::Sym(_) => None,
        Value::Word { .. } => None,
    }
}

// One value.
pub fn one(v: Value) -> Evaluation
    ensures { result ≡ one v }
{
    Evaluation::Values(ValueSet::one(v))
}

// The value, if it is there.
pub fn valued(v: Option<Value>) -> Evaluation
    ensures { result ≡ valued v }
{
    match v {
        Some(v) => one(v),
        None => Evaluation::Nothing,
    }
}

// What an operator gives of single values, at this place.
pub fn given(place: Place, answer: Result<Option<Value>, FaultRule>) -> Evaluation
    ensures { result ≡ given place answer }
{
    match answer {
        Ok(v) => valued(v),
        Err(rule) => Evaluation::Fault(rule, place),
    }
}

// The fault, or nothing.
pub fn failed(outcome: &Evaluation) -> Evaluation
    ensures { result ≡ failed outcome.now }
{
    match outcome {
        Evaluation::Nothing => Evaluation::Nothing,
        Evaluation::Values(_) => Evaluation::Nothing,
        Evaluation::Fault(rule, place) => Evaluation::Fault(*rule, *place),
    }
}
