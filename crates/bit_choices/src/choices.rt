//! One of two values.

ghost use Rattle.std.specs.Prelude.{◌≡◌, ℕ, Bool, IfOk, IfSome, Some, if◌then◌else◌, is_some, slice_get};
ghost use Rattle.bit_graph.specs.Meaning.{Consistent, Stands, edge_value};
ghost use Rattle.bit_graph.specs.Growth.{Extends};
ghost use Rattle.bit_arith.specs.Number.{AllStand, number_of};
ghost use Rattle.smv_value.specs.declared.value.Value.{Value};
ghost use Rattle.bit_operators.specs.Denoting.{DiscreteStands, StandsIn, denoted, discrete_value};
ghost use Rattle.bit_operators.specs.Kinds.{are_alike};
ghost use Rattle.bit_choices.specs.Symbols.{AreIn};

use crate::symbols::{recoded, united};
use bit_arith::select;
use bit_graph::{Edge, Graph};
use bit_numbers::choose_integer;
use bit_operators::{Discrete, Symbolic};
use bit_values::least_bits;
use sqlite_items::Items;
use std::alloc::{AllocError, Global};

/// The value `a` where the condition is true, else `b`.
///
/// It is `None` where the operands are neither two booleans, nor two words of one type, nor two discrete values. The
/// only error is running out of memory.
pub fn choose(
    alloc: Global,
    graph: &mut Graph,
    condition: Edge,
    a: &Symbolic,
    b: &Symbolic,
) -> Result<Option<Symbolic>, AllocError>
    requires condition_stands { Stands graph.old condition }
    requires a_stands { StandsIn graph.old a.now }
    requires b_stands { StandsIn graph.old b.now }
    ensures extends { Extends graph.old graph.new }
    ensures stands { IfOk result (λ r. IfSome r (λ s. StandsIn graph.new s)) }
    ensures value { IfOk result (λ r. IfSome r (λ s. (v : ℕ → Bool) (x : Value) → Consistent v graph.new →
        (if edge_value v condition then denoted v a.now else denoted v b.now) ≡ Some x → denoted v s ≡ Some x)) }
    ensures kinds { IfOk result (λ r. is_some r ≡ are_alike a.now b.now) }
{
    match (a, b) {
        (Symbolic::Boolean(x), Symbolic::Boolean(y)) => {
            let e = graph.choose(condition, *x, *y)?;
            Ok(Some(Symbolic::Boolean(e)))
        }
        (
            Symbolic::Word { signed, bits },
            Symbolic::Word {
                signed: other_signed,
                bits: other_bits,
            },
        ) => if signed == other_signed && bits.len() == other_bits.len() {
            let chosen = select(
                alloc,
                graph,
                condition,
                bits.as_slice(),
                other_bits.as_slice(),
            )?;
            Ok(Some(Symbolic::Word {
                signed: *signed,
                bits: Items::from_vec(chosen),
            }))
        } else {
            Ok(None)
        },
        (Symbolic::Discrete(x), Symbolic::Discrete(y)) => {
            let d = choose_discrete(alloc, graph, condition, x, y)?;
            Ok(Some(Symbolic::Discrete(d)))
        }
        _ => Ok(None),
    }
}

// The longer list of symbols keeps its codes.
pub fn choose_discrete(
    alloc: Global,
    graph: &mut Graph,
    condition: Edge,
    x: &Discrete,
    y: &Discrete,
) -> Result<Discrete, AllocError>
    requires condition_stands { Stands graph.old condition }
    requires x_stands { DiscreteStands graph.old x.now }
    requires y_stands { DiscreteStands graph.old y.now }
    ensures extends { Extends graph.old graph.new }
    ensures stands { IfOk result (λ d. DiscreteStands graph.new d) }
    ensures value { IfOk result (λ d. (v : ℕ → Bool) (p : Value) → Consistent v graph.new →
        (if edge_value v condition then discrete_value v x.now else discrete_value v y.now) ≡ Some p → discrete_value v d ≡ Some p) }
{
    if x.symbols.len() < y.symbols.len() {
        let d = chosen(alloc, graph, condition.negation(), y, x)?;
        Ok(d)
    } else {
        let d = chosen(alloc, graph, condition, x, y)?;
        Ok(d)
    }
}

// The first list of symbols keeps its codes.
fn chosen(
    alloc: Global,
    graph: &mut Graph,
    condition: Edge,
    x: &Discrete,
    y: &Discrete,
) -> Result<Discrete, AllocError>
    requires condition_stands { Stands graph.old condition }
    requires x_stands { DiscreteStands graph.old x.now }
    requires y_stands { DiscreteStands graph.old y.now }
    ensures extends { Extends graph.old graph.new }
    ensures stands { IfOk result (λ d. DiscreteStands graph.new d) }
    ensures value { IfOk result (λ d. (v : ℕ → Bool) (p : Value) → Consistent v graph.new →
        (if edge_value v condition then discrete_value v x.now else discrete_value v y.now) ≡ Some p → discrete_value v d ≡ Some p) }
{
    let is_symbol = graph.choose(condition, x.is_symbol, y.is_symbol)?;
    let integers = choose_integer(
        alloc,
        graph,
        condition,
        x.number.as_slice(),
        y.number.as_slice(),
    )?;
    let all = united(alloc, x.symbols.as_slice(), y.symbols.as_slice())?;
    let codes = chosen_code(alloc, graph, condition, x, y, &all)?;
    let number = Items::from_vec(integers);
    let symbols = Items::from_vec(all);
    let code = Items::from_vec(codes);
    Ok(Discrete {
        is_symbol,
        number,
        symbols,
        code,
    })
}

// The code among these symbols.
fn chosen_code(
    alloc: Global,
    graph: &mut Graph,
    condition: Edge,
    x: &Discrete,
    y: &Discrete,
    symbols: &[u32],
) -> Result<Vec<Edge>, AllocError>
    requires condition_stands { Stands graph.old condition }
    requires x_stands { AllStand graph.old x.now.code }
    requires y_stands { AllStand graph.old y.now.code }
    requires x_known { AreIn x.now.symbols symbols.now }
    requires y_known { AreIn y.now.symbols symbols.now }
    ensures extends { Extends graph.old graph.new }
    ensures stands { IfOk result (λ r. AllStand graph.new r.items) }
    ensures value { IfOk result (λ r. (v : ℕ → Bool) (s : ℕ) → Consistent v graph.new →
        (if edge_value v condition then slice_get x.now.symbols (number_of v x.now.code) else slice_get y.now.symbols (number_of v y.now.code)) ≡ Some s →
        slice_get symbols.now (number_of v r.items) ≡ Some s) }
{
    let width = least_bits(symbols.len() as u64);
    let left = recoded(
        alloc,
        graph,
        x.symbols.as_slice(),
        x.code.as_slice(),
        symbols,
        width,
    )?;
    let right = recoded(
        alloc,
        graph,
        y.symbols.as_slice(),
        y.code.as_slice(),
        symbols,
        width,
    )?;
    let code = select(alloc, graph, condition, &left, &right)?;
    Ok(code)
}
