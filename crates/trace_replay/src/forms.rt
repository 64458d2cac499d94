//! The forms of names and values, as finite automata over bytes.

ghost use Rattle.std.specs.Prelude.{◌≡◌, if◌then◌else◌};
ghost use Rattle.trace_replay.specs.Forms.{begins_identifier, begins_number, behind_part, ends_name, ends_value, in_identifier, is_name, is_value, name_after, number_from, value_after};

/// How far a name has been read.
#[derive(Clone, Copy, Debug)]
pub enum NameState {
    Start,
    Identifier,
    /// Behind `[`.
    Open,
    /// Behind the `-` of a subscript.
    Minus,
    Digits,
    Zero,
    /// Behind `]`.
    Closed,
    Wrong,
}

/// How far a value has been read.
#[derive(Clone, Copy, Debug)]
pub enum ValueState {
    Start,
    Identifier,
    Minus,
    /// In an integer, or in the bits of a word.
    Digits,
    /// Behind the first `0`.
    Zero,
    /// Behind the `u` or `s` of a word.
    Sign,
    /// Behind the `d` of a word.
    Base,
    Width,
    /// Behind the `_` of a word.
    Bar,
    /// The bits of a word are `0`.
    NoBits,
    Wrong,
}

/// Whether a text may stand as a name.
pub fn is_name(text: &[u8]) -> bool
    ensures { result ≡ is_name text.now }
{
    let mut state = NameState::Start;
    for b in text {
        state = name_after(state, *b);
    }
    ends_name(state)
}

/// Whether a text may stand as a value.
pub fn is_value(text: &[u8]) -> bool
    ensures { result ≡ is_value text.now }
{
    let mut state = ValueState::Start;
    for b in text {
        state = value_after(state, *b);
    }
    ends_value(state)
}

fn begins_identifier(b: u8) -> bool
    ensures { result ≡ begins_identifier b }
{
    b.is_ascii_alphabetic() || b == b'_'
}

fn in_identifier(b: u8) -> bool
    ensures { result ≡ in_identifier b }
{
    b.is_ascii_alphanumeric() || b == b'_' || b == b'$' || b == b'#' || b == b'-'
}

fn begins_number(b: u8) -> bool
    ensures { result ≡ begins_number b }
{
    b'1' <= b && b <= b'9'
}

fn behind_part(b: u8) -> NameState
    ensures { result ≡ behind_part b }
{
    if b == b'.' {
        NameState::Start
    } else if b == b'[' {
        NameState::Open
    } else {
        NameState::Wrong
    }
}

fn in_subscript(b: u8) -> NameState
    ensures { result ≡ name_after NameState.Open b }
{
    if b == b'0' {
        NameState::Zero
    } else if b == b'-' {
        NameState::Minus
    } else if begins_number(b) {
        NameState::Digits
    } else {
        NameState::Wrong
    }
}

fn in_digits(b: u8) -> NameState
    ensures { result ≡ name_after NameState.Digits b }
{
    if b.is_ascii_digit() {
        NameState::Digits
    } else if b == b']' {
        NameState::Closed
    } else {
        NameState::Wrong
    }
}

fn name_if(test: bool, state: NameState) -> NameState
    ensures { result ≡ (if test then state else NameState.Wrong) }
{
    if test { state } else { NameState::Wrong }
}

fn name_after(state: NameState, b: u8) -> NameState
    ensures { result ≡ name_after state b }
{
    match state {
        NameState::Start => name_if(begins_identifier(b), NameState::Identifier),
        NameState::Identifier if in_identifier(b) => NameState::Identifier,
        NameState::Identifier => behind_part(b),
        NameState::Open => in_subscript(b),
        NameState::Minus => name_if(begins_number(b), NameState::Digits),
        NameState::Digits => in_digits(b),
        NameState::Zero => name_if(b == b']', NameState::Closed),
        NameState::Closed => behind_part(b),
        NameState::Wrong => NameState::Wrong,
    }
}

fn ends_name(state: NameState) -> bool
    ensures { result ≡ ends_name state }
{
    match state {
        NameState::Identifier | NameState::Closed => true,
        NameState::Start
        | NameState::Open
        | NameState::Minus
        | NameState::Digits
        | NameState::Zero
        | NameState::Wrong => false,
    }
}

fn value_if(test: bool, state: ValueState) -> ValueState
    ensures { result ≡ (if test then state else ValueState.Wrong) }
{
    if test { state } else { ValueState::Wrong }
}

fn number_from(zero: ValueState, digits: ValueState, b: u8) -> ValueState
    ensures { result ≡ number_from zero digits b }
{
    if b == b'0' {
        zero
    } else if begins_number(b) {
        digits
    } else {
        ValueState::Wrong
    }
}

fn at_start(b: u8) -> ValueState
    ensures { result ≡ value_after ValueState.Start b }
{
    if begins_identifier(b) {
        ValueState::Identifier
    } else if b == b'-' {
        ValueState::Minus
    } else {
        number_from(ValueState::Zero, ValueState::Digits, b)
    }
}

fn in_width(b: u8) -> ValueState
    ensures { result ≡ value_after ValueState.Width b }
{
    if b.is_ascii_digit() {
        ValueState::Width
    } else if b == b'_' {
        ValueState::Bar
    } else {
        ValueState::Wrong
    }
}

fn value_after(state: ValueState, b: u8) -> ValueState
    ensures { result ≡ value_after state b }
{
    match state {
        ValueState::Start => at_start(b),
        ValueState::Identifier => value_if(in_identifier(b), ValueState::Identifier),
        ValueState::Minus => value_if(begins_number(b), ValueState::Digits),
        ValueState::Digits => value_if(b.is_ascii_digit(), ValueState::Digits),
        ValueState::Zero => value_if(b == b'u' || b == b's', ValueState::Sign),
        ValueState::Sign => value_if(b == b'd', ValueState::Base),
        ValueState::Base => value_if(begins_number(b), ValueState::Width),
        ValueState::Width => in_width(b),
        ValueState::Bar => number_from(ValueState::NoBits, ValueState::Digits, b),
        ValueState::NoBits => ValueState::Wrong,
        ValueState::Wrong => ValueState::Wrong,
    }
}

fn ends_value(state: ValueState) -> bool
    ensures { result ≡ ends_value state }
{
    match state {
        ValueState::Identifier | ValueState::Digits | ValueState::Zero | ValueState::NoBits => true,
        ValueState::Start
        | ValueState::Minus
        | ValueState::Sign
        | ValueState::Base
        | ValueState::Width
        | ValueState::Bar
        | ValueState::Wrong => false,
    }
}
