//! How operators group: the first formula or claim of a source, each node of it in parentheses; and what arrays are
//! declared.

use crate::program_of;
use smv_tree::{Dimension, Expr, Name, Place, Program, Section, Start, TypeExpr, Variable};
use smv_value::{Arithmetic, Bounded, Division, Logic, Operator, Order, Shift, Temporal, Value};
use std::alloc::{AllocError, Global};
use std::test::Fail;

/// A source of one formula, and the formula with each node in parentheses; what stands in parentheses itself, in
/// brackets.
type Shape = (&'static str, &'static str);

const SHAPES: [Shape; 23] = [
    ("MODULE main INVAR a -> b -> c", "(a -> (b -> c))"),
    ("MODULE main INVAR (a -> b) -> c", "([(a -> b)] -> c)"),
    ("MODULE main INVAR !a = b", "((! a) = b)"),
    ("MODULE main INVAR !!a & FALSE", "((! (! a)) & FALSE)"),
    ("MODULE main INVAR a = b != c", "(a = b != c)"),
    ("MODULE main INVAR a | b & c", "(a | (b & c))"),
    (
        "MODULE main INVAR a & b | c xor d xnor e",
        "((a & b) | c xor d xnor e)",
    ),
    (
        "MODULE main INVAR a <-> b | c <-> d -> e",
        "((a <-> (b | c) <-> d) -> e)",
    ),
    (
        "MODULE main TRANS next(a | b) = TRUE",
        "((next (a | b)) = TRUE)",
    ),
    ("MODULE main INVAR ((a))", "[[a]]"),
    ("MODULE main INVAR count & a;", "(count & a)"),
    (
        "MODULE main INVAR a ? b : c ? d : e",
        "(a ? b : (c ? d : e))",
    ),
    (
        "MODULE main INVAR a ? b ? c : d : e",
        "(a ? (b ? c : d) : e)",
    ),
    (
        "MODULE main INVAR a | b ? c -> d : e <-> f",
        "(((a | b) ? (c -> d) : e) <-> f)",
    ),
    ("MODULE main INVAR self.a.b = c.d", "(self.a.b = c.d)"),
    ("MODULE main INVAR (a) & (b) -> c", "(([a] & [b]) -> c)"),
    ("MODULE main INVAR a ? b : c -> d", "((a ? b : c) -> d)"),
    (
        "MODULE main INVAR a + b * c = -d",
        "((a + (b * c)) = (- d))",
    ),
    ("MODULE main INVAR -a * b :: c", "((- a) * (b :: c))"),
    (
        "MODULE main INVAR a + b in c union d",
        "((a + b) in (c union d))",
    ),
    ("MODULE main INVAR !w[h:l][i]", "(! ((w [ h : l) [ i))"),
    (
        "MODULE main INVAR case a : b; c : {d, e}; esac",
        "(? a : b : c : ({ d : e))",
    ),
    (
        "MODULE main INVAR a << b + c < max(d, e)",
        "((a << (b + c)) < (max d : e))",
    ),
];

const TEMPORAL_SHAPES: [Shape; 34] = [
    ("MODULE main LTLSPEC F a & b", "((F a) & b)"),
    ("MODULE main LTLSPEC F a = b", "(F (a = b))"),
    ("MODULE main LTLSPEC a U b & c", "((a U b) & c)"),
    ("MODULE main LTLSPEC a & b U c & d", "(a & (b U c) & d)"),
    ("MODULE main LTLSPEC a U b U c", "(a U b U c)"),
    ("MODULE main LTLSPEC a S b T c V d", "(a S b T c V d)"),
    ("MODULE main LTLSPEC a U (b U c)", "(a U [(b U c)])"),
    ("MODULE main LTLSPEC !X a = b", "(! (X (a = b)))"),
    ("MODULE main LTLSPEC !a = b U c", "(((! a) = b) U c)"),
    ("MODULE main LTLSPEC !a U b", "((! a) U b)"),
    ("MODULE main LTLSPEC !!F a U b", "((! (! (F a))) U b)"),
    ("MODULE main LTLSPEC X !!a & b", "((X (! (! a))) & b)"),
    ("MODULE main LTLSPEC X a U b", "((X a) U b)"),
    ("MODULE main LTLSPEC a U X b", "(a U (X b))"),
    ("MODULE main LTLSPEC a U !X b V c", "(a U (! (X b)) V c)"),
    ("MODULE main LTLSPEC G F [1,2] a", "(G (F.. [1] : [2] : a))"),
    (
        "MODULE main LTLSPEC O [0,0] H [3,255] a | b",
        "((O.. [0] : [0] : (H.. [3] : [255] : a)) | b)",
    ),
    (
        "MODULE main LTLSPEC G [1,2] a = b",
        "(G.. [1] : [2] : (a = b))",
    ),
    (
        "MODULE main LTLSPEC F [a.b - 1, 2 * n] p & q",
        "((F.. [(a.b - 1)] : [(2 * n)] : p) & q)",
    ),
    (
        "MODULE main LTLSPEC G [-1, (n)] !p U q",
        "((G.. [(- 1)] : [[n]] : (! p)) U q)",
    ),
    ("MODULE main LTLSPEC F w[h:l] = c", "(F ((w [ h : l) = c))"),
    ("MODULE main LTLSPEC Y Z O H a", "(Y (Z (O (H a))))"),
    ("MODULE main LTLSPEC a -> X b U c", "(a -> ((X b) U c))"),
    ("MODULE main LTLSPEC G a -> F b", "((G a) -> (F b))"),
    ("MODULE main LTLSPEC G (a -> F b)", "(G [(a -> (F b))])"),
    (
        "MODULE main LTLSPEC F a <-> G b | H c",
        "((F a) <-> ((G b) | (H c)))",
    ),
    ("MODULE main LTLSPEC a xor F b U c", "(a xor ((F b) U c))"),
    ("MODULE main LTLSPEC X a ? b : c", "((X a) ? b : c)"),
    ("MODULE main LTLSPEC F -a < b", "(F ((- a) < b))"),
    (
        "MODULE main LTLSPEC F a + b * c < d & e",
        "((F ((a + (b * c)) < d)) & e)",
    ),
    (
        "MODULE main LTLSPEC F a in b union c",
        "(F (a in (b union c)))",
    ),
    (
        "MODULE main LTLSPEC F a :: b = c << d U e",
        "((F ((a :: b) = (c << d))) U e)",
    ),
    (
        "MODULE main LTLSPEC NAME n := F a & G b;",
        "((F a) & (G b))",
    ),
    (
        "MODULE main LTLSPEC F case a : b; c : d; esac & e",
        "((F (? a : b : c : d)) & e)",
    ),
];

fn temporal_text(operator: Temporal) -> &'static str {
    match operator {
        Temporal::Next => "X",
        Temporal::Finally => "F",
        Temporal::Globally => "G",
        Temporal::Previously => "Y",
        Temporal::WeaklyPreviously => "Z",
        Temporal::Once => "O",
        Temporal::Historically => "H",
        Temporal::Until => "U",
        Temporal::Releases => "V",
        Temporal::Since => "S",
        Temporal::Triggered => "T",
    }
}

fn bounded_text(operator: Bounded) -> &'static str {
    match operator {
        Bounded::Finally => "F..",
        Bounded::Globally => "G..",
        Bounded::Once => "O..",
        Bounded::Historically => "H..",
    }
}

fn operator_text(operator: Operator) -> &'static str {
    match operator {
        Operator::Logic(Logic::Iff) => "<->",
        Operator::Logic(Logic::Or) => "|",
        Operator::Logic(Logic::Xor) => "xor",
        Operator::Logic(Logic::Xnor) => "xnor",
        Operator::Logic(Logic::And) => "&",
        Operator::Equal => "=",
        Operator::NotEqual => "!=",
        Operator::Not => "!",
        Operator::Logic(Logic::Implies) => "->",
        Operator::Choice(_) => "?",
        Operator::Arithmetic(Arithmetic::Add) => "+",
        Operator::Arithmetic(Arithmetic::Subtract) => "-",
        Operator::Division(Division::Remainder) => "mod",
        Operator::Arithmetic(Arithmetic::Multiply) => "*",
        Operator::Negate => "-",
        Operator::Join => "::",
        Operator::Shift(Shift::Left) => "<<",
        Operator::Order(Order::Less) => "<",
        Operator::In => "in",
        Operator::Union => "union",
        Operator::Members => "{",
        Operator::Index | Operator::Select => "[",
        Operator::Maximum => "max",
        Operator::Temporal(o) => temporal_text(o),
        Operator::Window(o) => bounded_text(o),
        _ => "",
    }
}

// Writes a name, its parts with dots between them.
fn put_name(out: &mut String, name: &Name) -> Result<(), AllocError> {
    match &name.start {
        Start::Own(first) => out.push_str(first.name.as_str())?,
        Start::Itself(_) => out.push_str("self")?,
    }
    for member in name.members.as_slice() {
        out.push_str(".")?;
        out.push_str(member.name.as_str())?;
    }
    Ok(())
}

// Writes an operator over operands that stand beside it and others below it, where parts may nest this deep.
#[cycle(put)]
fn put_applied(
    out: &mut String,
    depth: usize,
    operator: Operator,
    beside: &[Expr],
    below: &[Expr],
) -> Result<(), AllocError> {
    out.push_str("(")?;
    for operand in beside {
        put(out, depth, operand)?;
        out.push_str(" ")?;
    }
    out.push_str(operator_text(operator))?;
    for (n, operand) in below.iter().enumerate() {
        out.push_str(if n == 0 { " " } else { " : " })?;
        put(out, depth, operand)?;
    }
    out.push_str(")")
}

// Writes a chain.
#[cycle(put)]
fn put_chain(
    out: &mut String,
    depth: usize,
    first: &Expr,
    links: &[(Place, Operator, Expr)],
) -> Result<(), AllocError> {
    out.push_str("(")?;
    put(out, depth, first)?;
    for (_, operator, operand) in links {
        out.push_str(" ")?;
        out.push_str(operator_text(*operator))?;
        out.push_str(" ")?;
        put(out, depth, operand)?;
    }
    out.push_str(")")
}

// Writes what stands in these brackets.
#[cycle(put)]
fn put_within(
    out: &mut String,
    depth: usize,
    open: &str,
    inner: &Expr,
    close: &str,
) -> Result<(), AllocError> {
    out.push_str(open)?;
    put(out, depth, inner)?;
    out.push_str(close)
}

// Writes an expression, as far as its parts nest this deep.
#[cycle(put)]
fn put(out: &mut String, depth: usize, expr: &Expr) -> Result<(), AllocError> {
    if depth == 0 {
        return out.push_str("..");
    }
    let depth = depth - 1;
    match expr {
        Expr::Constant(_, Value::Bool(true)) => out.push_str("TRUE"),
        Expr::Constant(_, Value::Bool(false)) => out.push_str("FALSE"),
        Expr::Constant(_, Value::Int(n)) => write!(out, "{n}"),
        Expr::Constant(..) => out.push_str("?"),
        Expr::Name(name) => put_name(out, name),
        Expr::Group(_, inner) => put_within(out, depth, "[", inner.get(), "]"),
        Expr::Next(_, inner) => put_within(out, depth, "(next ", inner.get(), ")"),
        Expr::Apply(_, operator, beside, below) => {
            put_applied(out, depth, *operator, beside.as_slice(), below.as_slice())
        }
        Expr::Chain(first, links) => put_chain(out, depth, first.get(), links.as_slice()),
    }
}

// The formula of the first section of the first module.
fn formula_of(program: &Program) -> Option<&Expr> {
    match program.modules.get(0)?.sections.get(0)? {
        Section::Constraint(constraint) => Some(&constraint.formula),
        Section::Specification(specification) => Some(&specification.formula),
        _ => None,
    }
}

fn is_shaped(alloc: Global, formula: &Expr, wanted: &str) -> bool {
    let mut out = String::new(alloc);
    match put(&mut out, 20, formula) {
        Ok(()) => out.as_str() == wanted,
        Err(_) => false,
    }
}

fn holds(alloc: Global, source: &str, wanted: &str) -> bool {
    match program_of(alloc, source.as_bytes()) {
        Ok(program) => match formula_of(&program) {
            Some(formula) => is_shaped(alloc, formula, wanted),
            None => false,
        },
        Err(_) => false,
    }
}

const TYPES: [Shape; 8] = [
    ("MODULE main VAR x : boolean;", "boolean"),
    (
        "MODULE main VAR x : array 0..3 of boolean;",
        "0 .. 3 of boolean",
    ),
    (
        "MODULE main VAR x : array -1..2 of array 4..(n) of word[m + 1];",
        "(- 1) .. 2 of 4 .. [n] of word (m + 1)",
    ),
    (
        "MODULE main VAR x : array a.n - 1..2 * self.n of signed word[4];",
        "(a.n - 1) .. (2 * self.n) of signed word 4",
    ),
    (
        "MODULE main VAR x : array n..m of cell(y, 1);",
        "n .. m of cell y 1",
    ),
    (
        "MODULE main VAR x : array 1..2 of array 3..4 of array 5..6 of m;",
        "1 .. 2 of 3 .. 4 of 5 .. 6 of m",
    ),
    (
        "MODULE main VAR x : array 0..1 of {p, -1};",
        "0 .. 1 of p -1",
    ),
    (
        "MODULE main VAR x : array 0..1 of n..m mod 2;",
        "0 .. 1 of n .. (m mod 2)",
    ),
];

// Writes the two ends of a range.
fn put_range(out: &mut String, low: &Expr, high: &Expr) -> Result<(), AllocError> {
    put(out, 20, low)?;
    out.push_str(" .. ")?;
    put(out, 20, high)
}

fn put_type(out: &mut String, declared: &TypeExpr) -> Result<(), AllocError> {
    match declared {
        TypeExpr::Boolean(_) => out.push_str("boolean"),
        TypeExpr::Word(_, signed, width) => {
            out.push_str(if *signed { "signed word " } else { "word " })?;
            put(out, 20, width)
        }
        TypeExpr::Range(_, low, high) => put_range(out, low, high),
        TypeExpr::Enumeration(_, elements) => {
            for (n, element) in elements.as_slice().iter().enumerate() {
                out.push_str(if n == 0 { "" } else { " " })?;
                out.push_str(element.text.as_str())?;
            }
            Ok(())
        }
        TypeExpr::Instance(_, name, given) => {
            out.push_str(name.as_str())?;
            for actual in given.as_slice() {
                out.push_str(" ")?;
                put(out, 20, actual)?;
            }
            Ok(())
        }
    }
}

// Writes what a variable is declared as: the dimensions of an array, and the type of its elements.
fn put_declared(
    out: &mut String,
    dimensions: &[Dimension],
    declared: &TypeExpr,
) -> Result<(), AllocError> {
    for dimension in dimensions {
        put_range(out, &dimension.low, &dimension.high)?;
        out.push_str(" of ")?;
    }
    put_type(out, declared)
}

fn is_declared(alloc: Global, variable: &Variable, wanted: &str) -> bool {
    let mut out = String::new(alloc);
    match put_declared(&mut out, variable.dimensions.as_slice(), &variable.declared) {
        Ok(()) => out.as_str() == wanted,
        Err(_) => false,
    }
}

// The first variable of the first section of the first module.
fn variable_of(program: &Program) -> Option<&Variable> {
    match program.modules.get(0)?.sections.get(0)? {
        Section::Variables(_, variables) => variables.get(0),
        _ => None,
    }
}

fn declares(alloc: Global, source: &str, wanted: &str) -> bool {
    match program_of(alloc, source.as_bytes()) {
        Ok(program) => match variable_of(&program) {
            Some(variable) => is_declared(alloc, variable, wanted),
            None => false,
        },
        Err(_) => false,
    }
}

// The first type that is wrong.
fn first_wrong_type(alloc: Global) -> Option<&'static str> {
    for (source, wanted) in &TYPES {
        if !declares(alloc, source, wanted) {
            return Some(*wanted);
        }
    }
    None
}

#[test]
fn arrays_have_dimensions(rt: HostRuntime) -> Result<(), Fail> {
    let wrong = first_wrong_type(rt.alloc());
    assert_eq!(rt; wrong, None);
    Ok(())
}

// The first shape that is wrong.
fn first_wrong(alloc: Global, shapes: &[Shape]) -> Option<&'static str> {
    for (source, wanted) in shapes {
        if !holds(alloc, source, wanted) {
            return Some(*wanted);
        }
    }
    None
}

#[test]
fn operators_group(rt: HostRuntime) -> Result<(), Fail> {
    let wrong = first_wrong(rt.alloc(), &SHAPES);
    assert_eq!(rt; wrong, None);
    Ok(())
}

#[test]
fn temporal_operators_group(rt: HostRuntime) -> Result<(), Fail> {
    let wrong = first_wrong(rt.alloc(), &TEMPORAL_SHAPES);
    assert_eq!(rt; wrong, None);
    Ok(())
}
