//! Intervals that operators give of intervals.
use smv_kinds::{Discrete, Interval, Kind, Operand, kind_given};
use smv_value::{Arithmetic, Division, Operator};
use std::test::Fail;

// An operator, the ends of two intervals, and those of the one that it gives of them.
#[derive(Clone, Copy)]
struct Row(Operator, i32, i32, i32, i32, i32, i32);

const ADD: Operator = Operator::Arithmetic(Arithmetic::Add);

const SUBTRACT: Operator = Operator::Arithmetic(Arithmetic::Subtract);

const MULTIPLY: Operator = Operator::Arithmetic(Arithmetic::Multiply);

const QUOTIENT: Operator = Operator::Division(Division::Quotient);

const REMAINDER: Operator = Operator::Division(Division::Remainder);

const ROWS: [Row; 9] = [
    Row(ADD, 1, 2, 3, 4, 4, 6),
    Row(SUBTRACT, 1, 2, 3, 4, -3, -1),
    Row(MULTIPLY, -1, 3, 4, 5, -5, 15),
    Row(MULTIPLY, -3, -2, -5, 4, -12, 15),
    Row(QUOTIENT, -7, 3, 0, 2, -7, 7),
    Row(REMAINDER, 0, 100, -3, 2, -2, 2),
    Row(REMAINDER, 0, 100, 0, 0, 0, 0),
    Row(Operator::Maximum, -2, 5, 0, 1, 0, 5),
    Row(Operator::Minimum, -2, 5, 0, 1, -2, 1),
];

fn integers(low: i32, high: i32) -> Kind {
    Kind::Discrete(Discrete {
        integers: Some(Interval { low, high }),
        symbols: false,
    })
}

fn integer(low: i32, high: i32) -> Operand {
    Operand {
        kind: integers(low, high),
        constant: None,
    }
}

fn is_right(row: &Row) -> bool {
    let left = integer(row.1, row.2);
    let right = integer(row.3, row.4);
    kind_given(row.0, &[left, right]) == Ok(integers(row.5, row.6))
}

// The number of the first row that is wrong.
fn wrong_row() -> Option<usize> {
    ROWS.iter().position(|row| !is_right(row))
}

#[test]
fn intervals_are_those_worked_by_hand(rt: HostRuntime) -> Result<(), Fail> {
    assert_eq!(rt; wrong_row(), None);
    Ok(())
}
