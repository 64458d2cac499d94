//! Members that stand one after another.

ghost use Rattle.std.specs.Prelude.{◌≡◌, ◌&&◌, ◌||◌, int_le, int_lt};
ghost use Rattle.std.specs.List.{flat_map, list_all, list_any};
ghost use Rattle.smv_value.specs.Results.{same};
ghost use Rattle.value_types.specs.declared.value_type.ValueType.TheVariants.{Range};
ghost use Rattle.value_types.specs.Types.{is_of_type};
ghost use Rattle.value_sets.specs.Members.{IsFew, only, run, span_values, together};

use smv_value::{Value, same};
use value_types::ValueType;

/// Members that stand one after another.
#[derive(Clone, Copy, Debug, Drop)]
pub enum Span {
    One(Value),
    /// The integers from the first to the last, both among them; none where the last is less.
    Run(i64, i64),
}

/// How many members there are.
#[derive(Clone, Copy, Debug, Drop)]
pub enum Few {
    Nothing,
    One(Value),
    More,
}

// Whether the value is a member of some span.
pub fn some_has(spans: &[Span], v: Value) -> bool
    ensures { result ≡ list_any (same v) (flat_map span_values spans.now) }
{
    for span in spans {
        if has(*span, v) {
            return true;
        }
    }
    false
}

fn has(span: Span, v: Value) -> bool
    ensures { result ≡ list_any (same v) (span_values span) }
{
    match span {
        Span::One(w) => same(v, w),
        Span::Run(low, high) => in_run(low, high, v),
    }
}

fn in_run(low: i64, high: i64, v: Value) -> bool
    ensures { result ≡ list_any (same v) (run low high) }
{
    match v {
        Value::Int(z) => is_within(low, high, z),
        Value::Bool(_) => false,
        Value::Sym(_) => false,
        Value::Word { .. } => false,
    }
}

fn is_within(low: i64, high: i64, z: i64) -> bool
    ensures { result ≡ (int_le low z && int_le z high) }
{
    low <= z && z <= high
}

// Whether the members of all spans are values of the type.
pub fn all_of(spans: &[Span], t: &ValueType) -> bool
    ensures { result ≡ list_all (λ v. is_of_type v t.now) (flat_map span_values spans.now) }
{
    for span in spans {
        if !is_of(*span, t) {
            return false;
        }
    }
    true
}

fn is_of(span: Span, t: &ValueType) -> bool
    ensures { result ≡ list_all (λ v. is_of_type v t.now) (span_values span) }
{
    match span {
        Span::One(v) => t.contains(v),
        Span::Run(low, high) => run_is_of(low, high, t),
    }
}

fn run_is_of(low: i64, high: i64, t: &ValueType) -> bool
    ensures { result ≡ list_all (λ v. is_of_type v t.now) (run low high) }
{
    match t {
        ValueType::Range {
            low: least,
            high: greatest,
        } => run_is_between(low, high, i64::from(*least), i64::from(*greatest)),
        ValueType::Boolean => each_is_of(low, high, t),
        ValueType::Word { .. } => each_is_of(low, high, t),
        ValueType::Enumeration(_) => each_is_of(low, high, t),
    }
}

fn run_is_between(low: i64, high: i64, least: i64, greatest: i64) -> bool
    ensures { result ≡ (int_lt high low || (int_le least low && int_le high greatest)) }
{
    high < low || (least <= low && high <= greatest)
}

// The same, by each integer of the run up to the first that is none of the type.
fn each_is_of(low: i64, high: i64, t: &ValueType) -> bool
    ensures { result ≡ list_all (λ v. is_of_type v t.now) (run low high) }
{
    let mut z = low;
    while z <= high {
        if !t.contains(Value::Int(z)) {
            return false;
        }
        if high <= z {
            return true;
        }
        z += 1;
    }
    true
}

// The only member, if there is just one.
pub fn only_of(spans: &[Span]) -> Option<Value>
    ensures { result ≡ only (flat_map span_values spans.now) }
{
    match number_in_all(spans) {
        Few::Nothing => None,
        Few::One(v) => Some(v),
        Few::More => None,
    }
}

fn number_in_all(spans: &[Span]) -> Few
    ensures { IsFew result (flat_map span_values spans.now) }
{
    let mut number = Few::Nothing;
    for span in spans {
        number = together(number, number_in(*span));
    }
    number
}

fn together(a: Few, b: Few) -> Few
    ensures { result ≡ together a b }
{
    match (a, b) {
        (Few::Nothing, b) => b,
        (a, Few::Nothing) => a,
        (Few::One(_), Few::One(_)) => Few::More,
        (Few::One(_), Few::More) => Few::More,
        (Few::More, Few::One(_)) => Few::More,
        (Few::More, Few::More) => Few::More,
    }
}

fn number_in(span: Span) -> Few
    ensures { IsFew result (span_values span) }
{
    match span {
        Span::One(v) => Few::One(v),
        Span::Run(low, high) => number_between(low, high),
    }
}

fn number_between(low: i64, high: i64) -> Few
    ensures { IsFew result (run low high) }
{
    if high < low {
        Few::Nothing
    } else if low < high {
        Few::More
    } else {
        Few::One(Value::Int(low))
    }
}
