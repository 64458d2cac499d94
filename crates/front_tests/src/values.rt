//! What operators give of values that were worked by hand, of words with a sign most of all, and how values are
//! printed.
use plain_text::Text;
use smv_value::{
    Arithmetic, Division, FaultRule, Logic, Operator, Order, Shift, Shown, Value, apply, same,
};
use std::alloc::{AllocError, Global};
use std::test::Fail;

// Two words of one type, by their bits, and the word that an operator gives of them.
#[derive(Clone, Copy)]
struct WordRow {
    operator: Operator,
    signed: bool,
    width: u32,
    a: u128,
    b: u128,
    gives: u128,
}

const ADD: Operator = Operator::Arithmetic(Arithmetic::Add);

const SUBTRACT: Operator = Operator::Arithmetic(Arithmetic::Subtract);

const MULTIPLY: Operator = Operator::Arithmetic(Arithmetic::Multiply);

const QUOTIENT: Operator = Operator::Division(Division::Quotient);

const REMAINDER: Operator = Operator::Division(Division::Remainder);

const LEFT: Operator = Operator::Shift(Shift::Left);

const RIGHT: Operator = Operator::Shift(Shift::Right);

const WORDS: [WordRow; 8] = [
    WordRow {
        operator: ADD,
        signed: false,
        width: 8,
        a: 200,
        b: 100,
        gives: 44,
    },
    WordRow {
        operator: SUBTRACT,
        signed: false,
        width: 1,
        a: 0,
        b: 1,
        gives: 1,
    },
    WordRow {
        operator: MULTIPLY,
        signed: true,
        width: 128,
        a: u128::MAX,
        b: u128::MAX,
        gives: 1,
    },
    WordRow {
        operator: MULTIPLY,
        signed: false,
        width: 64,
        a: 9223372036854775808,
        b: 2,
        gives: 0,
    },
    // The least word by -1.
    WordRow {
        operator: QUOTIENT,
        signed: true,
        width: 8,
        a: 128,
        b: 255,
        gives: 128,
    },
    WordRow {
        operator: REMAINDER,
        signed: true,
        width: 8,
        a: 128,
        b: 255,
        gives: 0,
    },
    // -7 by 2.
    WordRow {
        operator: QUOTIENT,
        signed: true,
        width: 8,
        a: 249,
        b: 2,
        gives: 253,
    },
    WordRow {
        operator: REMAINDER,
        signed: true,
        width: 8,
        a: 249,
        b: 2,
        gives: 255,
    },
];

fn word(signed: bool, width: u32, bits: u128) -> Value {
    Value::Word {
        signed,
        width,
        bits,
    }
}

// Whether this is the one value that the operator gives.
fn gives(operator: Operator, a: Value, b: Value, wanted: Value) -> bool {
    match apply(operator, &[a, b]) {
        Ok(Some(v)) => same(v, wanted),
        _ => false,
    }
}

fn is_right_word(row: &WordRow) -> bool {
    let a = word(row.signed, row.width, row.a);
    let b = word(row.signed, row.width, row.b);
    gives(row.operator, a, b, word(row.signed, row.width, row.gives))
}

// The number of the first row that is wrong.
fn wrong_word() -> Option<usize> {
    WORDS.iter().position(|row| !is_right_word(row))
}

// Two integers, and the one that an operator gives of them.
#[derive(Clone, Copy)]
struct IntegerRow {
    operator: Operator,
    a: i64,
    b: i64,
    gives: i64,
}

const INTEGERS: [IntegerRow; 4] = [
    IntegerRow {
        operator: QUOTIENT,
        a: -7,
        b: 2,
        gives: -3,
    },
    IntegerRow {
        operator: REMAINDER,
        a: -7,
        b: 2,
        gives: -1,
    },
    IntegerRow {
        operator: REMAINDER,
        a: 7,
        b: -2,
        gives: 1,
    },
    IntegerRow {
        operator: ADD,
        a: 2147483646,
        b: 1,
        gives: 2147483647,
    },
];

fn is_right_integer(row: &IntegerRow) -> bool {
    gives(
        row.operator,
        Value::Int(row.a),
        Value::Int(row.b),
        Value::Int(row.gives),
    )
}

fn wrong_integer() -> Option<usize> {
    INTEGERS.iter().position(|row| !is_right_integer(row))
}

// A word, by its bits, and the one that it becomes where it is shifted so far.
#[derive(Clone, Copy)]
struct ShiftRow {
    operator: Operator,
    signed: bool,
    width: u32,
    bits: u128,
    by: i64,
    gives: u128,
}

const SHIFTS: [ShiftRow; 4] = [
    ShiftRow {
        operator: RIGHT,
        signed: true,
        width: 8,
        bits: 240,
        by: 2,
        gives: 252,
    },
    ShiftRow {
        operator: RIGHT,
        signed: true,
        width: 8,
        bits: 240,
        by: 8,
        gives: 255,
    },
    ShiftRow {
        operator: RIGHT,
        signed: false,
        width: 128,
        bits: u128::MAX,
        by: 128,
        gives: 0,
    },
    ShiftRow {
        operator: LEFT,
        signed: false,
        width: 64,
        bits: 3,
        by: 63,
        gives: 9223372036854775808,
    },
];

fn is_right_shift(row: &ShiftRow) -> bool {
    gives(
        row.operator,
        word(row.signed, row.width, row.bits),
        Value::Int(row.by),
        word(row.signed, row.width, row.gives),
    )
}

fn wrong_shift() -> Option<usize> {
    SHIFTS.iter().position(|row| !is_right_shift(row))
}

// Whether the operator faults by this rule.
fn faults(operator: Operator, a: Value, b: Value, rule: FaultRule) -> bool {
    match apply(operator, &[a, b]) {
        Ok(_) => false,
        Err(found) => found == rule,
    }
}

fn is_printed(names: &[Text], alloc: Global, value: Value, text: &str) -> Result<bool, AllocError> {
    let printed = Shown { value, names }.to_string(alloc)?;
    Ok(printed.as_str() == text)
}

// A value of a row: a boolean, an integer, a symbol by its number, or a word without a sign or with one by its width
// and its bits.
#[derive(Clone, Copy)]
enum Given {
    Bool(bool),
    Int(i64),
    Sym(u32),
    Unsigned(u32, u128),
    Signed(u32, u128),
}

use Given::{Bool, Int, Signed, Sym, Unsigned};

fn made(given: Given) -> Value {
    match given {
        Given::Bool(b) => Value::Bool(b),
        Given::Int(n) => Value::Int(n),
        Given::Sym(n) => Value::Sym(n),
        Given::Unsigned(width, bits) => word(false, width, bits),
        Given::Signed(width, bits) => word(true, width, bits),
    }
}

// Whether the operator gives this value of these operands; or nothing, where none is wanted.
fn is_given(operator: Operator, operands: &[Value], wanted: Option<Given>) -> bool {
    match (apply(operator, operands), wanted) {
        (Ok(Some(v)), Some(w)) => same(v, made(w)),
        (Ok(None), None) => true,
        _ => false,
    }
}

const ALL_64: u128 = 0xffff_ffff_ffff_ffff;

const HIGH_64: u128 = 0x8000_0000_0000_0000;

const HIGH_128: u128 = 0x8000_0000_0000_0000_0000_0000_0000_0000;

// An operator on two truths: what it gives of FALSE and FALSE, FALSE and TRUE, TRUE and FALSE, TRUE and TRUE.
const TRUTHS: [(Operator, [bool; 4]); 8] = [
    (Operator::Logic(Logic::And), [false, false, false, true]),
    (Operator::Logic(Logic::Or), [false, true, true, true]),
    (Operator::Logic(Logic::Xor), [false, true, true, false]),
    (Operator::Logic(Logic::Xnor), [true, false, false, true]),
    (Operator::Logic(Logic::Implies), [true, true, false, true]),
    (Operator::Logic(Logic::Iff), [true, false, false, true]),
    (Operator::Equal, [true, false, false, true]),
    (Operator::NotEqual, [false, true, true, false]),
];

// Of these four pairs, whether the operator gives what is wanted.
fn is_right_truth(operator: Operator, wanted: [bool; 4]) -> bool {
    for (pair, truth) in wanted.iter().enumerate() {
        let operands = [Value::Bool(pair >= 2), Value::Bool(pair % 2 == 1)];
        if !is_given(operator, &operands, Some(Given::Bool(*truth))) {
            return false;
        }
    }
    true
}

fn wrong_truth() -> Option<usize> {
    TRUTHS
        .iter()
        .position(|(operator, wanted)| !is_right_truth(*operator, *wanted))
}

// Two words of a type, by the number of their bits and the bits, and what `& | xor xnor -> <->` give of them.
const BITS: [(u32, u128, u128, [u128; 6]); 5] = [
    (1, 1, 0, [0, 1, 1, 0, 0, 0]),
    (1, 0, 0, [0, 0, 0, 1, 1, 1]),
    (8, 0xf0, 0xcc, [0xc0, 0xfc, 0x3c, 0xc3, 0xcf, 0xc3]),
    (
        64,
        0xffff_ffff_0000_0000,
        0xffff_0000_ffff_0000,
        [
            0xffff_0000_0000_0000,
            0xffff_ffff_ffff_0000,
            0x0000_ffff_ffff_0000,
            0xffff_0000_0000_ffff,
            0xffff_0000_ffff_ffff,
            0xffff_0000_0000_ffff,
        ],
    ),
    (
        128,
        u128::MAX,
        1,
        [
            1,
            u128::MAX,
            0xffff_ffff_ffff_ffff_ffff_ffff_ffff_fffe,
            1,
            1,
            1,
        ],
    ),
];

const CONNECTIVES: [Operator; 6] = [
    Operator::Logic(Logic::And),
    Operator::Logic(Logic::Or),
    Operator::Logic(Logic::Xor),
    Operator::Logic(Logic::Xnor),
    Operator::Logic(Logic::Implies),
    Operator::Logic(Logic::Iff),
];

// Whether each connective gives its bits of these, with a sign and without.
fn are_right_bits(width: u32, a: u128, b: u128, wanted: [u128; 6]) -> bool {
    for (operator, bits) in CONNECTIVES.iter().zip(wanted) {
        for signed in [false, true] {
            let operands = [word(signed, width, a), word(signed, width, b)];
            match apply(*operator, &operands) {
                Ok(Some(v)) if same(v, word(signed, width, bits)) => {}
                _ => return false,
            }
        }
    }
    true
}

fn wrong_bits() -> Option<usize> {
    BITS.iter().position(|(width, a, b, wanted)| !are_right_bits(*width, *a, *b, *wanted))
}

// An operator, its operand, and what it gives.
const ONES: [(Operator, Given, Option<Given>); 52] = [
    (Operator::Not, Bool(true), Some(Bool(false))),
    (Operator::Not, Bool(false), Some(Bool(true))),
    (Operator::Not, Unsigned(1, 0), Some(Unsigned(1, 1))),
    (Operator::Not, Unsigned(8, 0xf0), Some(Unsigned(8, 0x0f))),
    (Operator::Not, Signed(64, 0), Some(Signed(64, ALL_64))),
    (
        Operator::Not,
        Unsigned(128, u128::MAX),
        Some(Unsigned(128, 0)),
    ),
    (Operator::Not, Int(0), None),
    (Operator::Negate, Int(5), Some(Int(-5))),
    (Operator::Negate, Int(-2147483647), Some(Int(2147483647))),
    (Operator::Negate, Int(-2147483648), None),
    (Operator::Negate, Unsigned(1, 1), Some(Unsigned(1, 1))),
    (Operator::Negate, Unsigned(8, 1), Some(Unsigned(8, 255))),
    (Operator::Negate, Unsigned(8, 0), Some(Unsigned(8, 0))),
    // The least word with a sign is its own negation.
    (Operator::Negate, Signed(8, 128), Some(Signed(8, 128))),
    (
        Operator::Negate,
        Unsigned(64, 1),
        Some(Unsigned(64, ALL_64)),
    ),
    (
        Operator::Negate,
        Signed(128, u128::MAX),
        Some(Signed(128, 1)),
    ),
    (Operator::Negate, Bool(true), None),
    (Operator::Absolute, Int(-5), Some(Int(5))),
    (Operator::Absolute, Int(5), Some(Int(5))),
    (Operator::Absolute, Int(0), Some(Int(0))),
    (Operator::Absolute, Int(-2147483648), None),
    (Operator::Absolute, Signed(8, 255), None),
    (Operator::ToWord, Bool(true), Some(Unsigned(1, 1))),
    (Operator::ToWord, Bool(false), Some(Unsigned(1, 0))),
    (Operator::ToWord, Unsigned(1, 1), None),
    (Operator::ToBoolean, Unsigned(1, 1), Some(Bool(true))),
    (Operator::ToBoolean, Unsigned(1, 0), Some(Bool(false))),
    (Operator::ToBoolean, Signed(1, 1), Some(Bool(true))),
    (Operator::ToBoolean, Bool(true), None),
    (Operator::Signed, Unsigned(1, 1), Some(Signed(1, 1))),
    (Operator::Signed, Unsigned(8, 200), Some(Signed(8, 200))),
    (
        Operator::Signed,
        Signed(64, HIGH_64),
        Some(Signed(64, HIGH_64)),
    ),
    (
        Operator::Signed,
        Unsigned(128, u128::MAX),
        Some(Signed(128, u128::MAX)),
    ),
    (Operator::Signed, Int(1), None),
    (Operator::Unsigned, Signed(1, 1), Some(Unsigned(1, 1))),
    (Operator::Unsigned, Signed(8, 200), Some(Unsigned(8, 200))),
    (
        Operator::Unsigned,
        Unsigned(64, HIGH_64),
        Some(Unsigned(64, HIGH_64)),
    ),
    (
        Operator::Unsigned,
        Signed(128, HIGH_128),
        Some(Unsigned(128, HIGH_128)),
    ),
    (Operator::Unsigned, Bool(true), None),
    (Operator::Size, Unsigned(1, 1), Some(Int(1))),
    (Operator::Size, Signed(8, 200), Some(Int(8))),
    (Operator::Size, Unsigned(64, 0), Some(Int(64))),
    (Operator::Size, Unsigned(128, 0), Some(Int(128))),
    (Operator::Size, Int(8), None),
    (Operator::Count, Bool(true), Some(Int(1))),
    (Operator::Count, Bool(false), Some(Int(0))),
    // One operand more is wanted, or one is no value.
    (Operator::Equal, Bool(true), None),
    (Operator::Maximum, Int(1), None),
    (Operator::Not, Unsigned(0, 0), None),
    (Operator::Not, Unsigned(129, 0), None),
    (Operator::Not, Unsigned(8, 256), None),
    (Operator::Negate, Int(2147483648), None),
];

fn wrong_one() -> Option<usize> {
    ONES.iter().position(|(operator, a, wanted)| !is_given(*operator, &[made(*a)], *wanted))
}

const LESS: Operator = Operator::Order(Order::Less);

const AT_MOST: Operator = Operator::Order(Order::AtMost);

const GREATER: Operator = Operator::Order(Order::Greater);

const AT_LEAST: Operator = Operator::Order(Order::AtLeast);

// An operator that compares, its operands, and what it gives.
const COMPARED: [(Operator, Given, Given, Option<Given>); 58] = [
    (Operator::Equal, Int(-1), Int(-1), Some(Bool(true))),
    (Operator::Equal, Int(-1), Int(1), Some(Bool(false))),
    (Operator::Equal, Sym(0), Sym(0), Some(Bool(true))),
    (Operator::Equal, Sym(0), Sym(1), Some(Bool(false))),
    (Operator::Equal, Sym(1), Int(1), Some(Bool(false))),
    (
        Operator::Equal,
        Unsigned(1, 1),
        Unsigned(1, 1),
        Some(Bool(true)),
    ),
    (
        Operator::Equal,
        Signed(8, 255),
        Signed(8, 254),
        Some(Bool(false)),
    ),
    (
        Operator::Equal,
        Unsigned(64, ALL_64),
        Unsigned(64, ALL_64),
        Some(Bool(true)),
    ),
    (
        Operator::Equal,
        Unsigned(128, HIGH_128),
        Unsigned(128, 0),
        Some(Bool(false)),
    ),
    (Operator::NotEqual, Int(-1), Int(1), Some(Bool(true))),
    (Operator::NotEqual, Sym(3), Sym(3), Some(Bool(false))),
    (
        Operator::NotEqual,
        Unsigned(1, 1),
        Unsigned(1, 0),
        Some(Bool(true)),
    ),
    (
        Operator::NotEqual,
        Unsigned(128, 7),
        Unsigned(128, 7),
        Some(Bool(false)),
    ),
    (LESS, Int(-1), Int(0), Some(Bool(true))),
    (LESS, Int(0), Int(0), Some(Bool(false))),
    (LESS, Int(-2147483648), Int(2147483647), Some(Bool(true))),
    (AT_MOST, Int(3), Int(3), Some(Bool(true))),
    (AT_MOST, Int(4), Int(3), Some(Bool(false))),
    (GREATER, Int(3), Int(-4), Some(Bool(true))),
    (GREATER, Int(3), Int(3), Some(Bool(false))),
    (AT_LEAST, Int(3), Int(3), Some(Bool(true))),
    (AT_LEAST, Int(-3), Int(3), Some(Bool(false))),
    // With a sign, the only bit counts -1.
    (LESS, Unsigned(1, 0), Unsigned(1, 1), Some(Bool(true))),
    (LESS, Signed(1, 0), Signed(1, 1), Some(Bool(false))),
    (LESS, Signed(1, 1), Signed(1, 0), Some(Bool(true))),
    (LESS, Unsigned(8, 200), Unsigned(8, 100), Some(Bool(false))),
    (LESS, Signed(8, 200), Signed(8, 100), Some(Bool(true))),
    (AT_MOST, Signed(8, 128), Signed(8, 128), Some(Bool(true))),
    (AT_MOST, Signed(8, 127), Signed(8, 128), Some(Bool(false))),
    (
        GREATER,
        Unsigned(8, 128),
        Unsigned(8, 127),
        Some(Bool(true)),
    ),
    (
        GREATER,
        Unsigned(64, HIGH_64),
        Unsigned(64, 1),
        Some(Bool(true)),
    ),
    (
        GREATER,
        Signed(64, HIGH_64),
        Signed(64, 1),
        Some(Bool(false)),
    ),
    (
        AT_LEAST,
        Signed(64, 0),
        Signed(64, ALL_64),
        Some(Bool(true)),
    ),
    (
        AT_LEAST,
        Unsigned(128, u128::MAX),
        Unsigned(128, 0),
        Some(Bool(true)),
    ),
    (
        AT_LEAST,
        Signed(128, u128::MAX),
        Signed(128, 0),
        Some(Bool(false)),
    ),
    (
        LESS,
        Signed(128, HIGH_128),
        Signed(128, u128::MAX),
        Some(Bool(true)),
    ),
    (
        Operator::NotEqual,
        Signed(8, 255),
        Signed(8, 254),
        Some(Bool(true)),
    ),
    (
        Operator::NotEqual,
        Unsigned(64, HIGH_64),
        Unsigned(64, HIGH_64),
        Some(Bool(false)),
    ),
    // With a sign, the highest bit alone is the least word, and all bits are -1.
    (
        LESS,
        Unsigned(64, 1),
        Unsigned(64, HIGH_64),
        Some(Bool(true)),
    ),
    (LESS, Signed(64, 1), Signed(64, HIGH_64), Some(Bool(false))),
    (AT_MOST, Unsigned(1, 1), Unsigned(1, 0), Some(Bool(false))),
    (AT_MOST, Signed(1, 1), Signed(1, 0), Some(Bool(true))),
    (
        AT_MOST,
        Unsigned(64, ALL_64),
        Unsigned(64, ALL_64),
        Some(Bool(true)),
    ),
    (
        AT_MOST,
        Signed(64, 0),
        Signed(64, ALL_64),
        Some(Bool(false)),
    ),
    (
        AT_MOST,
        Unsigned(128, HIGH_128),
        Unsigned(128, 1),
        Some(Bool(false)),
    ),
    (
        AT_MOST,
        Signed(128, HIGH_128),
        Signed(128, 1),
        Some(Bool(true)),
    ),
    (GREATER, Unsigned(1, 1), Unsigned(1, 0), Some(Bool(true))),
    (GREATER, Signed(1, 1), Signed(1, 0), Some(Bool(false))),
    (
        GREATER,
        Unsigned(128, HIGH_128),
        Unsigned(128, 1),
        Some(Bool(true)),
    ),
    (
        GREATER,
        Signed(128, HIGH_128),
        Signed(128, 1),
        Some(Bool(false)),
    ),
    (AT_LEAST, Unsigned(1, 0), Unsigned(1, 1), Some(Bool(false))),
    (AT_LEAST, Signed(1, 0), Signed(1, 1), Some(Bool(true))),
    (
        AT_LEAST,
        Unsigned(8, 200),
        Unsigned(8, 100),
        Some(Bool(true)),
    ),
    (AT_LEAST, Signed(8, 200), Signed(8, 100), Some(Bool(false))),
    // Kinds that do not fit.
    (LESS, Unsigned(8, 1), Signed(8, 1), None),
    (LESS, Unsigned(8, 1), Unsigned(9, 1), None),
    (LESS, Sym(0), Sym(1), None),
    (LESS, Bool(false), Bool(true), None),
];

fn wrong_pair(rows: &[(Operator, Given, Given, Option<Given>)]) -> Option<usize> {
    rows.iter().position(|(operator, a, b, wanted)| {
        !is_given(*operator, &[made(*a), made(*b)], *wanted)
    })
}

// An operator on numbers, its operands, and what it gives.
const NUMBERS: [(Operator, Given, Given, Option<Given>); 50] = [
    (ADD, Int(2147483647), Int(1), None),
    (SUBTRACT, Int(-2147483647), Int(1), Some(Int(-2147483648))),
    (SUBTRACT, Int(-2147483648), Int(1), None),
    (MULTIPLY, Int(-46341), Int(46340), Some(Int(-2147441940))),
    (MULTIPLY, Int(65536), Int(32768), None),
    (MULTIPLY, Int(-65536), Int(32768), Some(Int(-2147483648))),
    (ADD, Unsigned(1, 1), Unsigned(1, 1), Some(Unsigned(1, 0))),
    (ADD, Signed(8, 127), Signed(8, 1), Some(Signed(8, 128))),
    (
        ADD,
        Unsigned(64, ALL_64),
        Unsigned(64, 2),
        Some(Unsigned(64, 1)),
    ),
    (
        ADD,
        Unsigned(128, u128::MAX),
        Unsigned(128, 1),
        Some(Unsigned(128, 0)),
    ),
    (
        SUBTRACT,
        Unsigned(8, 100),
        Unsigned(8, 200),
        Some(Unsigned(8, 156)),
    ),
    (SUBTRACT, Signed(8, 128), Signed(8, 1), Some(Signed(8, 127))),
    (
        SUBTRACT,
        Unsigned(64, 0),
        Unsigned(64, 1),
        Some(Unsigned(64, ALL_64)),
    ),
    (
        SUBTRACT,
        Unsigned(128, 0),
        Unsigned(128, 1),
        Some(Unsigned(128, u128::MAX)),
    ),
    (
        MULTIPLY,
        Unsigned(1, 1),
        Unsigned(1, 1),
        Some(Unsigned(1, 1)),
    ),
    (
        MULTIPLY,
        Unsigned(8, 20),
        Unsigned(8, 20),
        Some(Unsigned(8, 144)),
    ),
    // -3 by 5.
    (MULTIPLY, Signed(8, 253), Signed(8, 5), Some(Signed(8, 241))),
    (
        MULTIPLY,
        Unsigned(128, HIGH_128),
        Unsigned(128, 2),
        Some(Unsigned(128, 0)),
    ),
    (QUOTIENT, Int(7), Int(-2), Some(Int(-3))),
    (QUOTIENT, Int(-7), Int(-2), Some(Int(3))),
    (REMAINDER, Int(-7), Int(-2), Some(Int(-1))),
    (REMAINDER, Int(-8), Int(2), Some(Int(0))),
    (QUOTIENT, Int(-2147483648), Int(1), Some(Int(-2147483648))),
    (QUOTIENT, Int(-2147483648), Int(-1), None),
    (REMAINDER, Int(-2147483648), Int(-1), Some(Int(0))),
    (
        QUOTIENT,
        Unsigned(1, 1),
        Unsigned(1, 1),
        Some(Unsigned(1, 1)),
    ),
    (QUOTIENT, Signed(1, 1), Signed(1, 1), Some(Signed(1, 1))),
    (REMAINDER, Signed(1, 1), Signed(1, 1), Some(Signed(1, 0))),
    (
        QUOTIENT,
        Unsigned(8, 200),
        Unsigned(8, 7),
        Some(Unsigned(8, 28)),
    ),
    (
        REMAINDER,
        Unsigned(8, 200),
        Unsigned(8, 7),
        Some(Unsigned(8, 4)),
    ),
    // 7 by -2, and -7 by -2.
    (QUOTIENT, Signed(8, 7), Signed(8, 254), Some(Signed(8, 253))),
    (REMAINDER, Signed(8, 7), Signed(8, 254), Some(Signed(8, 1))),
    (QUOTIENT, Signed(8, 249), Signed(8, 254), Some(Signed(8, 3))),
    (
        REMAINDER,
        Signed(8, 249),
        Signed(8, 254),
        Some(Signed(8, 255)),
    ),
    (
        QUOTIENT,
        Unsigned(64, ALL_64),
        Unsigned(64, 10),
        Some(Unsigned(64, 1844674407370955161)),
    ),
    (
        REMAINDER,
        Unsigned(64, ALL_64),
        Unsigned(64, 10),
        Some(Unsigned(64, 5)),
    ),
    // -9 by 4.
    (
        QUOTIENT,
        Signed(64, 0xffff_ffff_ffff_fff7),
        Signed(64, 4),
        Some(Signed(64, 0xffff_ffff_ffff_fffe)),
    ),
    (
        REMAINDER,
        Signed(64, 0xffff_ffff_ffff_fff7),
        Signed(64, 4),
        Some(Signed(64, ALL_64)),
    ),
    (
        QUOTIENT,
        Unsigned(128, u128::MAX),
        Unsigned(128, 2),
        Some(Unsigned(128, 0x7fff_ffff_ffff_ffff_ffff_ffff_ffff_ffff)),
    ),
    (
        QUOTIENT,
        Signed(128, u128::MAX),
        Signed(128, 2),
        Some(Signed(128, 0)),
    ),
    (
        REMAINDER,
        Signed(128, u128::MAX),
        Signed(128, 2),
        Some(Signed(128, u128::MAX)),
    ),
    (Operator::Maximum, Int(-3), Int(2), Some(Int(2))),
    (Operator::Maximum, Int(-3), Int(-4), Some(Int(-3))),
    (Operator::Minimum, Int(-3), Int(2), Some(Int(-3))),
    (Operator::Minimum, Int(5), Int(5), Some(Int(5))),
    (Operator::Minimum, Unsigned(8, 1), Unsigned(8, 2), None),
    (ADD, Unsigned(8, 1), Signed(8, 1), None),
    (ADD, Unsigned(8, 1), Int(1), None),
    (Operator::Count, Bool(true), Bool(true), Some(Int(2))),
    (Operator::Count, Bool(false), Bool(true), Some(Int(1))),
];

// An operator that makes other words, its operands, and what it gives.
const WIDTHS: [(Operator, Given, Given, Option<Given>); 44] = [
    (
        Operator::Join,
        Unsigned(1, 1),
        Unsigned(1, 0),
        Some(Unsigned(2, 2)),
    ),
    (
        Operator::Join,
        Unsigned(4, 10),
        Unsigned(4, 3),
        Some(Unsigned(8, 163)),
    ),
    (
        Operator::Join,
        Unsigned(1, 1),
        Unsigned(8, 0),
        Some(Unsigned(9, 256)),
    ),
    (
        Operator::Join,
        Signed(8, 255),
        Signed(8, 1),
        Some(Unsigned(16, 65281)),
    ),
    (
        Operator::Join,
        Signed(8, 255),
        Unsigned(8, 1),
        Some(Unsigned(16, 65281)),
    ),
    (
        Operator::Join,
        Unsigned(64, 1),
        Unsigned(64, 2),
        Some(Unsigned(128, 0x1_0000_0000_0000_0002)),
    ),
    (Operator::Join, Unsigned(128, 0), Unsigned(1, 0), None),
    (Operator::Join, Unsigned(8, 1), Int(1), None),
    (
        Operator::Extend,
        Unsigned(1, 1),
        Int(127),
        Some(Unsigned(128, 1)),
    ),
    (
        Operator::Extend,
        Signed(1, 1),
        Int(127),
        Some(Signed(128, u128::MAX)),
    ),
    (
        Operator::Extend,
        Unsigned(8, 200),
        Int(8),
        Some(Unsigned(16, 200)),
    ),
    (
        Operator::Extend,
        Signed(8, 200),
        Int(8),
        Some(Signed(16, 65480)),
    ),
    (
        Operator::Extend,
        Signed(8, 100),
        Int(8),
        Some(Signed(16, 100)),
    ),
    (
        Operator::Extend,
        Unsigned(8, 200),
        Int(0),
        Some(Unsigned(8, 200)),
    ),
    (
        Operator::Extend,
        Signed(64, HIGH_64),
        Int(64),
        Some(Signed(128, 0xffff_ffff_ffff_ffff_8000_0000_0000_0000)),
    ),
    (
        Operator::Extend,
        Unsigned(64, HIGH_64),
        Int(64),
        Some(Unsigned(128, HIGH_64)),
    ),
    (Operator::Extend, Unsigned(128, 1), Int(1), None),
    (
        Operator::Resize,
        Unsigned(8, 200),
        Int(4),
        Some(Unsigned(4, 8)),
    ),
    (
        Operator::Resize,
        Unsigned(8, 200),
        Int(16),
        Some(Unsigned(16, 200)),
    ),
    (
        Operator::Resize,
        Signed(8, 200),
        Int(8),
        Some(Signed(8, 200)),
    ),
    (
        Operator::Resize,
        Signed(8, 200),
        Int(16),
        Some(Signed(16, 65480)),
    ),
    (
        Operator::Resize,
        Signed(1, 1),
        Int(128),
        Some(Signed(128, u128::MAX)),
    ),
    (
        Operator::Resize,
        Unsigned(128, u128::MAX),
        Int(1),
        Some(Unsigned(1, 1)),
    ),
    (
        Operator::Resize,
        Unsigned(128, u128::MAX),
        Int(64),
        Some(Unsigned(64, ALL_64)),
    ),
    (Operator::Resize, Unsigned(8, 200), Int(0), None),
    (Operator::Resize, Unsigned(8, 200), Int(129), None),
    (
        Operator::UnsignedConstant,
        Int(5),
        Int(4),
        Some(Unsigned(4, 5)),
    ),
    (
        Operator::UnsignedConstant,
        Int(1),
        Int(1),
        Some(Unsigned(1, 1)),
    ),
    (
        Operator::UnsignedConstant,
        Int(255),
        Int(8),
        Some(Unsigned(8, 255)),
    ),
    (
        Operator::UnsignedConstant,
        Int(2147483647),
        Int(128),
        Some(Unsigned(128, 2147483647)),
    ),
    (
        Operator::UnsignedConstant,
        Int(2147483647),
        Int(64),
        Some(Unsigned(64, 2147483647)),
    ),
    (Operator::UnsignedConstant, Int(0), Int(129), None),
    (
        Operator::SignedConstant,
        Int(-1),
        Int(1),
        Some(Signed(1, 1)),
    ),
    (
        Operator::SignedConstant,
        Int(-3),
        Int(4),
        Some(Signed(4, 13)),
    ),
    (
        Operator::SignedConstant,
        Int(-128),
        Int(8),
        Some(Signed(8, 128)),
    ),
    (
        Operator::SignedConstant,
        Int(-1),
        Int(64),
        Some(Signed(64, ALL_64)),
    ),
    (
        Operator::SignedConstant,
        Int(-1),
        Int(128),
        Some(Signed(128, u128::MAX)),
    ),
    (LEFT, Unsigned(1, 1), Int(1), Some(Unsigned(1, 0))),
    (LEFT, Unsigned(8, 129), Int(1), Some(Unsigned(8, 2))),
    (LEFT, Signed(8, 129), Unsigned(4, 3), Some(Signed(8, 8))),
    (
        LEFT,
        Unsigned(128, 1),
        Int(127),
        Some(Unsigned(128, HIGH_128)),
    ),
    (RIGHT, Signed(1, 1), Int(1), Some(Signed(1, 1))),
    (
        RIGHT,
        Signed(64, HIGH_64),
        Int(63),
        Some(Signed(64, ALL_64)),
    ),
    (RIGHT, Unsigned(8, 200), Int(0), Some(Unsigned(8, 200))),
];

// An operator, its three operands, and what it gives.
const THREES: [(Operator, Given, Given, Given, Option<Given>); 15] = [
    (
        Operator::Select,
        Unsigned(1, 1),
        Int(0),
        Int(0),
        Some(Unsigned(1, 1)),
    ),
    // 172 is 10101100 in base two.
    (
        Operator::Select,
        Unsigned(8, 172),
        Int(5),
        Int(2),
        Some(Unsigned(4, 11)),
    ),
    (
        Operator::Select,
        Unsigned(8, 172),
        Int(7),
        Int(7),
        Some(Unsigned(1, 1)),
    ),
    (
        Operator::Select,
        Unsigned(8, 172),
        Int(0),
        Int(0),
        Some(Unsigned(1, 0)),
    ),
    (
        Operator::Select,
        Signed(8, 172),
        Int(7),
        Int(4),
        Some(Unsigned(4, 10)),
    ),
    (
        Operator::Select,
        Unsigned(64, HIGH_64),
        Int(63),
        Int(63),
        Some(Unsigned(1, 1)),
    ),
    (
        Operator::Select,
        Unsigned(128, 0x1_0000_0000_0000_0000),
        Int(65),
        Int(64),
        Some(Unsigned(2, 1)),
    ),
    (
        Operator::Select,
        Unsigned(128, u128::MAX),
        Int(127),
        Int(0),
        Some(Unsigned(128, u128::MAX)),
    ),
    (Operator::Select, Unsigned(8, 172), Int(8), Int(0), None),
    (Operator::Select, Unsigned(8, 172), Int(0), Int(1), None),
    (Operator::Select, Unsigned(8, 172), Int(0), Int(-1), None),
    (Operator::Select, Int(8), Int(0), Int(0), None),
    (
        Operator::Count,
        Bool(true),
        Bool(false),
        Bool(true),
        Some(Int(2)),
    ),
    (
        Operator::Count,
        Bool(false),
        Bool(false),
        Bool(false),
        Some(Int(0)),
    ),
    (Operator::Not, Bool(true), Bool(true), Bool(true), None),
];

fn wrong_three() -> Option<usize> {
    THREES.iter().position(|(operator, a, b, c, wanted)| {
        !is_given(*operator, &[made(*a), made(*b), made(*c)], *wanted)
    })
}

// An operator, operands on which it faults, and by which rule.
const FAULTING: [(Operator, Given, Given, FaultRule); 12] = [
    (QUOTIENT, Int(1), Int(0), FaultRule::DivisorZero),
    (REMAINDER, Int(0), Int(0), FaultRule::DivisorZero),
    (
        QUOTIENT,
        Unsigned(1, 1),
        Unsigned(1, 0),
        FaultRule::DivisorZero,
    ),
    (
        REMAINDER,
        Signed(8, 255),
        Signed(8, 0),
        FaultRule::DivisorZero,
    ),
    (
        QUOTIENT,
        Unsigned(64, 0),
        Unsigned(64, 0),
        FaultRule::DivisorZero,
    ),
    (
        REMAINDER,
        Unsigned(128, 1),
        Unsigned(128, 0),
        FaultRule::DivisorZero,
    ),
    (RIGHT, Unsigned(8, 1), Int(9), FaultRule::ShiftTooFar),
    (LEFT, Unsigned(8, 1), Int(-1), FaultRule::ShiftTooFar),
    (LEFT, Unsigned(1, 1), Int(2), FaultRule::ShiftTooFar),
    (LEFT, Signed(8, 1), Unsigned(4, 9), FaultRule::ShiftTooFar),
    (RIGHT, Unsigned(64, 1), Int(65), FaultRule::ShiftTooFar),
    (RIGHT, Signed(128, 1), Int(129), FaultRule::ShiftTooFar),
];

fn wrong_fault() -> Option<usize> {
    FAULTING.iter().position(|(operator, a, b, rule)| !faults(*operator, made(*a), made(*b), *rule))
}

#[test]
fn truths_and_bits_are_joined(rt: HostRuntime) -> Result<(), Fail> {
    assert_eq!(rt; wrong_truth(), None);
    assert_eq!(rt; wrong_bits(), None);
    Ok(())
}

#[test]
fn each_operator_gives_what_was_worked_by_hand(rt: HostRuntime) -> Result<(), Fail> {
    assert_eq!(rt; wrong_one(), None);
    assert_eq!(rt; wrong_pair(&COMPARED), None);
    assert_eq!(rt; wrong_pair(&NUMBERS), None);
    assert_eq!(rt; wrong_pair(&WIDTHS), None);
    assert_eq!(rt; wrong_three(), None);
    Ok(())
}

#[test]
fn operators_fault(rt: HostRuntime) -> Result<(), Fail> {
    assert_eq!(rt; wrong_fault(), None);
    Ok(())
}

#[test]
fn operators_give_what_was_worked_by_hand(rt: HostRuntime) -> Result<(), Fail> {
    assert_eq!(rt; wrong_word(), None);
    assert_eq!(rt; wrong_integer(), None);
    assert_eq!(rt; wrong_shift(), None);
    assert!(rt;
        faults(
            QUOTIENT,
            Value::Int(1),
            Value::Int(0),
            FaultRule::DivisorZero
        )
    );
    assert!(rt;
        faults(
            RIGHT,
            word(false, 8, 1),
            Value::Int(9),
            FaultRule::ShiftTooFar
        )
    );
    Ok(())
}

#[test]
fn values_are_printed(rt: HostRuntime) -> Result<(), Fail> {
    let alloc = rt.alloc();
    let names = [
        Text::from_str(alloc, "idle")?,
        Text::from_str(alloc, "busy")?,
    ];
    assert!(rt; is_printed(&names, alloc, word(false, 8, 255), "0ud8_255")?);
    assert!(rt; is_printed(&names, alloc, word(true, 8, 255), "0sd8_255")?);
    assert!(rt; is_printed(&names, alloc, Value::Int(-5), "-5")?);
    assert!(rt; is_printed(&names, alloc, Value::Sym(1), "busy")?);
    Ok(())
}
