//! Rules that operands break, and kinds that they give.
use smv_kinds::{
    Discrete, Interval, Kind, KindRule, Operand, constant_given, constant_of, kind_given,
    kind_in_context, kind_of_value, next_kind, takes, takes_sets,
};
use smv_value::{Arithmetic, Bounded, Division, FaultRule, Operator, Value};
use std::test::Fail;

const ADD: Operator = Operator::Arithmetic(Arithmetic::Add);

const MULTIPLY: Operator = Operator::Arithmetic(Arithmetic::Multiply);

const QUOTIENT: Operator = Operator::Division(Division::Quotient);

// An integer of 0..9, and constants.
const DIGIT: Kind = Kind::Discrete(Discrete {
    integers: Some(Interval { low: 0, high: 9 }),
    symbols: false,
});

const DIGITS: Kind = Kind::DiscreteSet(Discrete {
    integers: Some(Interval { low: 0, high: 9 }),
    symbols: false,
});

const MOST: Kind = Kind::Discrete(Discrete {
    integers: Some(Interval {
        low: 2147483647,
        high: 2147483647,
    }),
    symbols: false,
});

const LEAST: Kind = Kind::Discrete(Discrete {
    integers: Some(Interval {
        low: -2147483648,
        high: 0,
    }),
    symbols: false,
});

const LONG_RANGE: Kind = Kind::Discrete(Discrete {
    integers: Some(Interval {
        low: 0,
        high: 65536,
    }),
    symbols: false,
});

const BYTE: Kind = Kind::Word {
    signed: false,
    width: 8,
};

const SIGNED_BYTE: Kind = Kind::Word {
    signed: true,
    width: 8,
};

const LONG: Kind = Kind::Word {
    signed: false,
    width: 121,
};

// An operator, the kinds of two operands, the second perhaps a constant, and the rule that they break.
#[derive(Clone, Copy)]
struct Row(Operator, Kind, Kind, Option<i64>, KindRule);

const ROWS: [Row; 16] = [
    Row(ADD, MOST, DIGIT, None, KindRule::IntWidth),
    Row(ADD, BYTE, SIGNED_BYTE, None, KindRule::TypeMismatch),
    Row(Operator::Equal, DIGIT, DIGITS, None, KindRule::TypeMismatch),
    Row(Operator::Join, LONG, BYTE, None, KindRule::WordWidth),
    Row(Operator::Extend, BYTE, DIGIT, None, KindRule::NotConstant),
    Row(Operator::Extend, BYTE, DIGIT, Some(-1), KindRule::WordWidth),
    Row(Operator::Extend, BYTE, DIGITS, None, KindRule::TypeMismatch),
    Row(
        Operator::Resize,
        SIGNED_BYTE,
        DIGIT,
        Some(7),
        KindRule::WordWidth,
    ),
    Row(
        Operator::UnsignedConstant,
        DIGIT,
        DIGIT,
        Some(129),
        KindRule::WordWidth,
    ),
    Row(Operator::In, DIGITS, DIGITS, None, KindRule::TypeMismatch),
    Row(MULTIPLY, LONG_RANGE, LONG_RANGE, None, KindRule::IntWidth),
    // A quotient may be as far from 0 as what is divided, on both sides.
    Row(QUOTIENT, LEAST, DIGIT, None, KindRule::IntWidth),
    Row(QUOTIENT, BYTE, DIGIT, None, KindRule::TypeMismatch),
    Row(
        Operator::Equal,
        Kind::Array,
        Kind::Array,
        None,
        KindRule::TypeMismatch,
    ),
    Row(
        Operator::Index,
        Kind::Array,
        BYTE,
        None,
        KindRule::TypeMismatch,
    ),
    Row(Operator::Index, DIGIT, DIGIT, None, KindRule::TypeMismatch),
];

fn operand(kind: Kind, constant: Option<i64>) -> Operand {
    Operand { kind, constant }
}

fn is_right(row: &Row) -> bool {
    let operands = [operand(row.1, None), operand(row.2, row.3)];
    kind_given(row.0, &operands) == Err(row.4)
}

// The number of the first row that is wrong.
fn wrong_row() -> Option<usize> {
    ROWS.iter().position(|row| !is_right(row))
}

// Bits of a byte, by constants.
fn selected(high: i64, low: i64) -> Result<Kind, KindRule> {
    let operands = [
        operand(BYTE, None),
        operand(DIGIT, Some(high)),
        operand(DIGIT, Some(low)),
    ];
    kind_given(Operator::Select, &operands)
}

// A window from `low` to `high` as it is written, over what has this kind.
fn window(low: Option<i64>, high: Option<i64>, over: Kind) -> Result<Kind, KindRule> {
    let operands = [
        operand(DIGIT, low),
        operand(DIGIT, high),
        operand(over, None),
    ];
    kind_given(Operator::Window(Bounded::Once), &operands)
}

// The element of an array that has two, by an index.
fn element(first: Kind, second: Kind) -> Result<Kind, KindRule> {
    let operands = [
        operand(Kind::Boolean, None),
        operand(first, None),
        operand(Kind::Boolean, None),
        operand(second, None),
    ];
    kind_given(Operator::Choice(FaultRule::IndexOutside), &operands)
}

// A set of two digits, where one may stand or not.
fn set(sets: bool) -> Result<Kind, KindRule> {
    let operands = [operand(DIGIT, None), operand(DIGIT, None)];
    kind_in_context(sets, Operator::Members, &operands)
}

fn bounded(low: u32, high: u32) -> Result<Kind, KindRule> {
    let operands = [operand(Kind::Boolean, None)];
    kind_given(Operator::Bounded(Bounded::Finally, low, high), &operands)
}

#[test]
fn rules_are_told_in_their_order(rt: HostRuntime) -> Result<(), Fail> {
    assert_eq!(rt; wrong_row(), None);
    assert!(rt;
        selected(7, 4)
            == Ok(Kind::Word {
                signed: false,
                width: 4
            })
    );
    assert!(rt; selected(8, 0) == Err(KindRule::BadSelection));
    assert!(rt; bounded(2, 1) == Err(KindRule::BadBound));
    assert!(rt; window(Some(-1), Some(3), Kind::Boolean) == Err(KindRule::BadBound));
    assert!(rt; window(Some(0), None, Kind::Boolean) == Err(KindRule::NotConstant));
    assert!(rt; window(Some(0), None, BYTE) == Err(KindRule::TypeMismatch));
    Ok(())
}

#[test]
fn arrays_are_no_values(rt: HostRuntime) -> Result<(), Fail> {
    assert!(rt; kind_given(Operator::WholeArray, &[]) == Ok(Kind::Array));
    assert!(rt; kind_given(Operator::Subscript, &[operand(DIGIT, None)]) == Ok(DIGIT));
    assert!(rt; element(BYTE, BYTE) == Ok(BYTE));
    assert!(rt; element(Kind::Array, Kind::Array) == Err(KindRule::TypeMismatch));
    Ok(())
}

#[test]
fn sets_stand_where_they_may(rt: HostRuntime) -> Result<(), Fail> {
    assert!(rt; set(true) == Ok(DIGITS));
    assert!(rt; set(false) == Err(KindRule::SetHere));
    assert!(rt; takes_sets(Operator::In, 1, false));
    assert!(rt; takes(DIGIT, DIGITS));
    assert!(rt; next_kind(DIGITS) == Err(KindRule::TypeMismatch));
    Ok(())
}

#[test]
fn constants_are_folded(rt: HostRuntime) -> Result<(), Fail> {
    let two = operand(DIGIT, Some(2));
    let most = operand(MOST, Some(2147483647));
    assert_eq!(rt; constant_given(ADD, &[two, two]), Some(4));
    assert_eq!(rt; constant_given(ADD, &[most, two]), None);
    assert_eq!(rt; constant_given(Operator::Subscript, &[two]), Some(2));
    assert_eq!(rt; constant_of(Operator::Absolute, &[Value::Int(2)]), None);
    assert!(rt; kind_of_value(Value::Int(2147483647)) == MOST);
    Ok(())
}
