//! Operators on values as edges, for all operands of a few bits. The edges give what the operator gives of the values,
//! and tell where it faults.

ghost use Rattle.std.specs.Prelude.{IfOk};
ghost use Rattle.bit_graph.specs.Meaning.{Stands};
ghost use Rattle.bit_arith.specs.Number.{AllStand};
ghost use Rattle.bit_operators.specs.Denoting.{StandsIn};
ghost use Rattle.bit_numbers.specs.Counts.{AllStandIn};

use bit_graph::{Edge, Graph, evaluate};
use bit_numbers::constant;
use bit_operators::{Discrete, Symbolic, integer};
use bit_table::apply as apply_edges;
use smv_value::{Arithmetic, Division, Logic, Operator, Order, Shift, Value, apply, same};
use sqlite_items::Items;
use std::alloc::{AllocError, Global};
use std::test::Fail;

// An operand: any value of a kind, or one value.
#[derive(Clone, Copy)]
enum Operand {
    Boolean,
    Word { signed: bool, width: u32 },
    // An integer of so many bits in two's complement.
    Integer(u32),
    Constant(Value),
}

// How many bits tell which value an operand has.
fn bits_of(operand: Operand) -> u32 {
    match operand {
        Operand::Boolean => 1,
        Operand::Word { signed: _, width } => width,
        Operand::Integer(width) => width,
        Operand::Constant(_) => 0,
    }
}

fn all_bits_of(operands: &[Operand]) -> u32 {
    let mut bits = 0u32;
    for operand in operands {
        bits = bits.saturating_add(bits_of(*operand));
    }
    bits
}

// The number of these bits, the lowest first.
fn number_of(bits: &[bool]) -> u128 {
    let mut number = 0u128;
    for bit in bits.iter().rev() {
        number = number.saturating_mul(2).saturating_add(u128::from(*bit));
    }
    number
}

// The integer of these bits in two's complement, the lowest first.
fn integer_of(bits: &[bool]) -> i64 {
    let mut number = 0i64;
    for (n, bit) in bits.iter().rev().enumerate() {
        let more = if n == 0 {
            0i64.saturating_sub(i64::from(*bit))
        } else {
            i64::from(*bit)
        };
        number = number.saturating_mul(2).saturating_add(more);
    }
    number
}

// The value of these bits.
fn value_of(operand: Operand, bits: &[bool]) -> Value {
    match operand {
        Operand::Boolean => Value::Bool(number_of(bits) == 1),
        Operand::Word { signed, width } => Value::Word {
            signed,
            width,
            bits: number_of(bits),
        },
        Operand::Integer(_) => Value::Int(integer_of(bits)),
        Operand::Constant(value) => value,
    }
}

// The bits of a number, the lowest first.
fn bits_in(alloc: Global, number: u32, count: u32) -> Result<Vec<bool>, AllocError> {
    let mut bits = Vec::new(alloc);
    let mut rest = number;
    for _bit in 0..count {
        bits.push(rest % 2 == 1)?;
        rest /= 2;
    }
    Ok(bits)
}

// The values of the operands, one behind the other.
fn values_of(
    alloc: Global,
    operands: &[Operand],
    inputs: &[bool],
) -> Result<Vec<Value>, AllocError> {
    let mut values = Vec::new(alloc);
    let mut rest = inputs;
    for operand in operands {
        let (bits, others) = rest.split_at((bits_of(*operand) as usize).min(rest.len()));
        values.push(value_of(*operand, bits))?;
        rest = others;
    }
    Ok(values)
}

// An edge to this node, if there is such a node.
fn edge_to(graph: &Graph, node: usize) -> Edge
    ensures { Stands graph.now result }
{
    if node < graph.len() {
        Edge::to(node)
    } else {
        graph.constant(false)
    }
}

fn edges_from(
    alloc: Global,
    graph: &Graph,
    from: usize,
    count: u32,
) -> Result<Vec<Edge>, AllocError>
    ensures { IfOk result (λ r. AllStand graph.now r.items) }
{
    let mut edges = Vec::new(alloc);
    'edges: for n in 0..count {
        edges.push(edge_to(graph, from.saturating_add(n as usize)))?;
    }
    Ok(edges)
}

// The operand by the inputs from this one on.
fn edges_of(
    alloc: Global,
    graph: &Graph,
    operand: Operand,
    from: usize,
) -> Result<Symbolic, AllocError>
    ensures { IfOk result (λ s. StandsIn graph.now s) }
{
    match operand {
        Operand::Boolean => Ok(Symbolic::Boolean(edge_to(graph, from))),
        Operand::Word { signed, width } => {
            let edges = edges_from(alloc, graph, from, width)?;
            Ok(Symbolic::Word {
                signed,
                bits: Items::from_vec(edges),
            })
        }
        Operand::Integer(width) => {
            let edges = edges_from(alloc, graph, from, width)?;
            Ok(integer(alloc, graph, edges))
        }
        Operand::Constant(value) => {
            let value = constant(alloc, graph, value)?;
            Ok(value)
        }
    }
}

fn all_symbolic(
    alloc: Global,
    graph: &Graph,
    operands: &[Operand],
) -> Result<Vec<Symbolic>, AllocError>
    ensures { IfOk result (λ r. AllStandIn graph.now r.items) }
{
    let mut made = Vec::new(alloc);
    let mut from = 0usize;
    'operands: for operand in operands {
        let next = edges_of(alloc, graph, *operand, from)?;
        made.push(next)?;
        from = from.saturating_add(bits_of(*operand) as usize);
    }
    Ok(made)
}

// Whether the edge is true where the nodes have these values.
fn is_true(known: &[bool], edge: Edge) -> bool {
    known.get(edge.node).is_some_and(|v| *v != edge.negated)
}

fn truths(alloc: Global, known: &[bool], edges: &[Edge]) -> Result<Vec<bool>, AllocError> {
    let mut bits = Vec::new(alloc);
    for edge in edges {
        bits.push(is_true(known, *edge))?;
    }
    Ok(bits)
}

// The integer or symbol that edges stand for.
fn discrete_read(
    alloc: Global,
    known: &[bool],
    edges: &Discrete,
) -> Result<Option<Value>, AllocError> {
    if is_true(known, edges.is_symbol) {
        let code = number_of(&truths(alloc, known, edges.code.as_slice())?);
        let mut place = 0u128;
        for symbol in edges.symbols.as_slice() {
            if place == code {
                return Ok(Some(Value::Sym(*symbol)));
            }
            place = place.saturating_add(1);
        }
        Ok(None)
    } else {
        let bits = truths(alloc, known, edges.number.as_slice())?;
        Ok(Some(Value::Int(integer_of(&bits))))
    }
}

// The value that edges stand for where the nodes have these values.
fn read(alloc: Global, known: &[bool], edges: &Symbolic) -> Result<Option<Value>, AllocError> {
    match edges {
        Symbolic::Boolean(e) => Ok(Some(Value::Bool(is_true(known, *e)))),
        Symbolic::Word { signed, bits } => {
            let bits = truths(alloc, known, bits.as_slice())?;
            let width = u32::try_from(bits.len()).unwrap_or(0);
            Ok(Some(Value::Word {
                signed: *signed,
                width,
                bits: number_of(&bits),
            }))
        }
        Symbolic::Discrete(d) => discrete_read(alloc, known, d),
    }
}

// What an operator gives as edges, and the edge that tells where it faults.
#[derive(Drop)]
struct Made {
    gives: Symbolic,
    faults: Edge,
}

// Whether edges give what the operator gives of the values: a value, or a fault.
fn agrees(
    alloc: Global,
    operator: Operator,
    values: &[Value],
    known: &[bool],
    made: &Made,
) -> Result<bool, AllocError> {
    let faults = is_true(known, made.faults);
    match apply(operator, values) {
        Ok(Some(wanted)) => match read(alloc, known, &made.gives)? {
            Some(value) => Ok(!faults && same(value, wanted)),
            None => Ok(false),
        },
        Ok(None) => Ok(false),
        Err(_) => Ok(faults),
    }
}

// Whether they agree for all values of the operands.
fn agrees_always(
    alloc: Global,
    graph: &Graph,
    operator: Operator,
    operands: &[Operand],
    made: &Made,
) -> Result<bool, AllocError> {
    let bits = all_bits_of(operands);
    for number in 0..2u32.saturating_pow(bits) {
        let inputs = bits_in(alloc, number, bits)?;
        let known = evaluate(alloc, graph, &inputs)?;
        let values = values_of(alloc, operands, &inputs)?;
        if !agrees(alloc, operator, &values, &known, made)? {
            return Ok(false);
        }
    }
    Ok(true)
}

// Whether the operator is right on all values of the operands.
fn is_right(alloc: Global, operator: Operator, operands: &[Operand]) -> Result<bool, AllocError> {
    let mut graph = Graph::new(alloc, all_bits_of(operands) as usize)?;
    let edges = all_symbolic(alloc, &graph, operands)?;
    let (gives, faults) = apply_edges(alloc, &mut graph, operator, &edges)?;
    let made = Made { gives, faults };
    agrees_always(alloc, &graph, operator, operands, &made)
}

// The first of these operators that is wrong on some values of the operands, by its place.
fn first_wrong(
    alloc: Global,
    operators: &[Operator],
    operands: &[Operand],
) -> Result<Option<usize>, AllocError> {
    for (n, operator) in operators.iter().enumerate() {
        if !is_right(alloc, *operator, operands)? {
            return Ok(Some(n));
        }
    }
    Ok(None)
}

// Operators on two words of one type.
const ON_WORDS: [Operator; 17] = [
    Operator::Logic(Logic::And),
    Operator::Logic(Logic::Or),
    Operator::Logic(Logic::Xor),
    Operator::Logic(Logic::Xnor),
    Operator::Logic(Logic::Implies),
    Operator::Logic(Logic::Iff),
    Operator::Equal,
    Operator::NotEqual,
    Operator::Order(Order::Less),
    Operator::Order(Order::AtMost),
    Operator::Order(Order::Greater),
    Operator::Order(Order::AtLeast),
    Operator::Arithmetic(Arithmetic::Add),
    Operator::Arithmetic(Arithmetic::Subtract),
    Operator::Arithmetic(Arithmetic::Multiply),
    Operator::Division(Division::Quotient),
    Operator::Division(Division::Remainder),
];

// Operators on a word.
const ON_WORD: [Operator; 5] = [
    Operator::Not,
    Operator::Negate,
    Operator::Signed,
    Operator::Unsigned,
    Operator::Size,
];

// Operators on two truths.
const ON_TRUTHS: [Operator; 9] = [
    Operator::Logic(Logic::And),
    Operator::Logic(Logic::Or),
    Operator::Logic(Logic::Xor),
    Operator::Logic(Logic::Xnor),
    Operator::Logic(Logic::Implies),
    Operator::Logic(Logic::Iff),
    Operator::Equal,
    Operator::NotEqual,
    Operator::Count,
];

// Operators on a truth.
const ON_TRUTH: [Operator; 3] = [Operator::Not, Operator::ToWord, Operator::Count];

// Operators on two integers.
const ON_INTEGERS: [Operator; 13] = [
    Operator::Equal,
    Operator::NotEqual,
    Operator::Order(Order::Less),
    Operator::Order(Order::AtMost),
    Operator::Order(Order::Greater),
    Operator::Order(Order::AtLeast),
    Operator::Arithmetic(Arithmetic::Add),
    Operator::Arithmetic(Arithmetic::Subtract),
    Operator::Arithmetic(Arithmetic::Multiply),
    Operator::Division(Division::Quotient),
    Operator::Division(Division::Remainder),
    Operator::Maximum,
    Operator::Minimum,
];

// Operators on an integer.
const ON_INTEGER: [Operator; 3] = [Operator::Negate, Operator::Absolute, Operator::Subscript];

const ON_SHIFTED: [Operator; 2] = [Operator::Shift(Shift::Left), Operator::Shift(Shift::Right)];

// An operator's place, and the widths of its operands, on which it is wrong.
type Wrong = (usize, u32, u32);

// Of two words of one type, and of one.
fn wrong_on_words(alloc: Global) -> Result<Option<Wrong>, AllocError> {
    for signed in [false, true] {
        for width in 1..5u32 {
            let word = Operand::Word { signed, width };
            if let Some(n) = first_wrong(alloc, &ON_WORDS, &[word, word])? {
                return Ok(Some((n, width, width)));
            }
            if let Some(n) = first_wrong(alloc, &ON_WORD, &[word])? {
                return Ok(Some((n, width, 0)));
            }
        }
    }
    Ok(None)
}

fn wrong_on_integers(alloc: Global) -> Result<Option<Wrong>, AllocError> {
    for a in 1..5u32 {
        for b in 1..5u32 {
            let operands = [Operand::Integer(a), Operand::Integer(b)];
            if let Some(n) = first_wrong(alloc, &ON_INTEGERS, &operands)? {
                return Ok(Some((n, a, b)));
            }
        }
        if let Some(n) = first_wrong(alloc, &ON_INTEGER, &[Operand::Integer(a)])? {
            return Ok(Some((n, a, 0)));
        }
    }
    Ok(None)
}

// Of a word that is shifted by an integer, or by an unsigned word.
fn wrong_on_shifts(alloc: Global, signed: bool) -> Result<Option<Wrong>, AllocError> {
    for width in 1..5u32 {
        let word = Operand::Word { signed, width };
        for by in 1..5u32 {
            if let Some(n) = first_wrong(alloc, &ON_SHIFTED, &[word, Operand::Integer(by)])? {
                return Ok(Some((n, width, by)));
            }
            let amount = Operand::Word {
                signed: false,
                width: by,
            };
            if let Some(n) = first_wrong(alloc, &ON_SHIFTED, &[word, amount])? {
                return Ok(Some((n, width, by)));
            }
        }
    }
    Ok(None)
}

// Of two words with these signs, one behind the other.
fn wrong_on_joins(alloc: Global, high: bool, low: bool) -> Result<Option<Wrong>, AllocError> {
    for a in 1..5u32 {
        for b in 1..5u32 {
            let operands = [
                Operand::Word {
                    signed: high,
                    width: a,
                },
                Operand::Word {
                    signed: low,
                    width: b,
                },
            ];
            if let Some(n) = first_wrong(alloc, &[Operator::Join], &operands)? {
                return Ok(Some((n, a, b)));
            }
        }
    }
    Ok(None)
}

fn number(n: u32) -> Operand {
    Operand::Constant(Value::Int(i64::from(n)))
}

// Of a word, and bits of it.
fn wrong_on_parts(alloc: Global, signed: bool) -> Result<Option<Wrong>, AllocError> {
    for width in 1..5u32 {
        let word = Operand::Word { signed, width };
        for high in 0..width {
            for low in 0..high.saturating_add(1) {
                let operands = [word, number(high), number(low)];
                if let Some(n) = first_wrong(alloc, &[Operator::Select], &operands)? {
                    return Ok(Some((n, high, low)));
                }
            }
        }
    }
    Ok(None)
}

// Of a word that is made longer or shorter, and of a constant that is made a word.
fn wrong_on_widths(alloc: Global, signed: bool) -> Result<Option<Wrong>, AllocError> {
    for width in 1..5u32 {
        let word = Operand::Word { signed, width };
        for count in 1..9u32 {
            let to = [Operator::Resize, Operator::Extend];
            if let Some(n) = first_wrong(alloc, &to, &[word, number(count)])? {
                return Ok(Some((n, width, count)));
            }
        }
        if let Some(n) = first_wrong(alloc, &[Operator::Extend], &[word, number(0)])? {
            return Ok(Some((n, width, 0)));
        }
    }
    Ok(None)
}

fn wrong_on_constants(alloc: Global) -> Result<Option<Wrong>, AllocError> {
    let to = [Operator::UnsignedConstant, Operator::SignedConstant];
    for width in 1..5u32 {
        for z in -8..16i64 {
            let operands = [Operand::Constant(Value::Int(z)), number(width)];
            if let Some(n) = first_wrong(alloc, &to, &operands)? {
                return Ok(Some((n, width, 0)));
            }
        }
    }
    Ok(None)
}

// Values of which equality is asked beside an integer of three bits.
const CONSTANTS: [Value; 4] = [Value::Sym(0), Value::Sym(1), Value::Int(3), Value::Int(-9)];

fn wrong_on_equalities(alloc: Global) -> Result<Option<usize>, AllocError> {
    let equalities = [Operator::Equal, Operator::NotEqual];
    for (n, a) in CONSTANTS.iter().enumerate() {
        let operand = Operand::Constant(*a);
        if first_wrong(alloc, &equalities, &[operand, Operand::Integer(3)])?.is_some() {
            return Ok(Some(n));
        }
        for b in CONSTANTS.iter() {
            let operands = [operand, Operand::Constant(*b)];
            if first_wrong(alloc, &equalities, &operands)?.is_some() {
                return Ok(Some(n));
            }
        }
    }
    Ok(None)
}

#[test]
fn words_as_edges_are_as_their_values(rt: HostRuntime) -> Result<(), Fail> {
    assert_eq!(rt; wrong_on_words(rt.alloc())?, None);
    Ok(())
}

#[test]
fn integers_as_edges_are_as_their_values(rt: HostRuntime) -> Result<(), Fail> {
    assert_eq!(rt; wrong_on_integers(rt.alloc())?, None);
    assert_eq!(rt; wrong_on_equalities(rt.alloc())?, None);
    Ok(())
}

#[test]
fn truths_as_edges_are_as_their_values(rt: HostRuntime) -> Result<(), Fail> {
    let alloc = rt.alloc();
    let truth = Operand::Boolean;
    assert_eq!(rt; first_wrong(alloc, &ON_TRUTHS, &[truth, truth])?, None);
    assert_eq!(rt; first_wrong(alloc, &ON_TRUTH, &[truth])?, None);
    let many = [truth, truth, truth, truth];
    assert_eq!(rt; first_wrong(alloc, &[Operator::Count], &many)?, None);
    for signed in [false, true] {
        let word = Operand::Word { signed, width: 1 };
        assert_eq!(rt; first_wrong(alloc, &[Operator::ToBoolean], &[word])?, None);
    }
    Ok(())
}

#[test]
fn shifted_words_are_as_their_values(rt: HostRuntime) -> Result<(), Fail> {
    assert_eq!(rt; wrong_on_shifts(rt.alloc(), false)?, None);
    assert_eq!(rt; wrong_on_shifts(rt.alloc(), true)?, None);
    Ok(())
}

#[test]
fn words_of_other_widths_are_as_their_values(rt: HostRuntime) -> Result<(), Fail> {
    let alloc = rt.alloc();
    for signed in [false, true] {
        assert_eq!(rt; wrong_on_joins(alloc, signed, false)?, None);
        assert_eq!(rt; wrong_on_joins(alloc, signed, true)?, None);
        assert_eq!(rt; wrong_on_parts(alloc, signed)?, None);
        assert_eq!(rt; wrong_on_widths(alloc, signed)?, None);
    }
    assert_eq!(rt; wrong_on_constants(alloc)?, None);
    Ok(())
}
