//! The table of the operators.

ghost use Rattle.std.specs.Prelude.{◌≡◌, ◌∷◌, [], ◌||◌, ◌++◌, ℕ, Bool, List, IfOk, IfSome, Some, true};
ghost use Rattle.bit_graph.specs.Growth.{Extends};
ghost use Rattle.bit_graph.specs.Meaning.{Consistent, Stands, edge_value};
ghost use Rattle.smv_tree.specs.declared.place.Place.{Place};
ghost use Rattle.smv_value.specs.declared.value.Value.TheVariants.{Int};
ghost use Rattle.smv_value.specs.Results.{result_of};
ghost use Rattle.smv_meaning.specs.declared.outcome.Evaluation.{Evaluation};
ghost use Rattle.smv_meaning.specs.declared.outcome.Evaluation.TheVariants.{Values};
ghost use Rattle.smv_meaning.specs.Outcomes.{applied, given, included, operated, ranged, two};
ghost use Rattle.bit_operators.specs.declared.symbolic.Symbolic.{Symbolic};
ghost use Rattle.bit_operators.specs.Denoting.{StandsIn, denoted};
ghost use Rattle.bit_numbers.specs.Counts.{AllStandIn};
ghost use Rattle.bit_outcomes.specs.Gathering.{TellsEach, beside, bound};
ghost use Rattle.bit_outcomes.specs.Telling.{AllTold, MembersStand, Tells, TellsAll, TellsOne, ToldStands};
ghost use Rattle.bit_outcomes.specs.declared.told.Which.TheVariants as which;

use crate::choosing::choice;
use crate::members::{among, as_row, united};
use crate::told::{Member, Told, Which, copied_value};
use bit_graph::{Edge, Graph};
use bit_numbers::known_integer;
use bit_operators::Symbolic;
use bit_table::apply;
use smv_value::Operator;
use sqlite_items::Items;
use std::alloc::{AllocError, Global};

/// What is told of an operator over operands, wherever it stands. Kinds that do not fit count as running out of memory,
/// or nothing is told.
pub fn applied(
    alloc: Global,
    graph: &mut Graph,
    operator: Operator,
    operands: &[Told],
) -> Result<Told, AllocError>
    requires { AllTold graph.old operands.now }
    ensures extends { Extends graph.old graph.new }
    ensures stands { IfOk result (λ t. ToldStands graph.new t) }
    ensures told { IfOk result (λ t. (place : Place) (v : ℕ → Bool) (os : List Evaluation) → Consistent v graph.new → TellsAll v operands.now os → Tells v t (applied operator place os)) }
{
    match operator {
        Operator::Choice(_) => choice(alloc, graph, operands),
        Operator::Members => united(alloc, graph, operands),
        Operator::Union => united(alloc, graph, operands),
        Operator::Range => range(alloc, graph, operands),
        Operator::In => inclusion(alloc, graph, operands),
        Operator::Temporal(_) => Ok(Told::Untold),
        Operator::Bounded(..) => Ok(Told::Untold),
        Operator::Window(_) => Ok(Told::Untold),
        Operator::WholeArray => Ok(Told::Untold),
        Operator::Index => Ok(Told::Untold),
        other => operated(alloc, graph, other, operands),
    }
}

fn range(alloc: Global, graph: &mut Graph, operands: &[Told]) -> Result<Told, AllocError>
    requires { AllTold graph.old operands.now }
    ensures extends { Extends graph.old graph.new }
    ensures stands { IfOk result (λ t. ToldStands graph.new t) }
    ensures told { IfOk result (λ t. (v : ℕ → Bool) (os : List Evaluation) → Consistent v graph.new → TellsAll v operands.now os → Tells v t (two ranged os)) }
{
    match operands {
        [a, b] => {
            let told = ranged(alloc, graph, a, b)?;
            Ok(told)
        }
        _ => Ok(Told::Untold),
    }
}

fn inclusion(alloc: Global, graph: &mut Graph, operands: &[Told]) -> Result<Told, AllocError>
    requires { AllTold graph.old operands.now }
    ensures extends { Extends graph.old graph.new }
    ensures stands { IfOk result (λ t. ToldStands graph.new t) }
    ensures told { IfOk result (λ t. (v : ℕ → Bool) (os : List Evaluation) → Consistent v graph.new → TellsAll v operands.now os → Tells v t (two included os)) }
{
    match operands {
        [a, b] => {
            let told = included(alloc, graph, a, b)?;
            Ok(told)
        }
        _ => Ok(Told::Untold),
    }
}

// The integers between two constants.
fn ranged(alloc: Global, graph: &mut Graph, a: &Told, b: &Told) -> Result<Told, AllocError>
    requires a_stands { ToldStands graph.old a.now }
    requires b_stands { ToldStands graph.old b.now }
    ensures extends { Extends graph.old graph.new }
    ensures stands { IfOk result (λ t. ToldStands graph.new t) }
    ensures told { IfOk result (λ t. (v : ℕ → Bool) (p q : Evaluation) → Consistent v graph.new → Tells v a.now p → Tells v b.now q → Tells v t (ranged p q)) }
{
    match (a, b) {
        (Told::One(f, x), Told::One(g, y)) => {
            let first = known_integer(graph, x);
            let second = known_integer(graph, y);
            match (first, second) {
                (Some(low), Some(high)) => {
                    let told = between(alloc, graph, *f, *g, low, high)?;
                    Ok(told)
                }
                _ => Ok(Told::Untold),
            }
        }
        _ => Ok(Told::Untold),
    }
}

// The integers from `low` to `high`, or a fault where one of the edges is true.
fn between(
    alloc: Global,
    graph: &mut Graph,
    f: Edge,
    g: Edge,
    low: i64,
    high: i64,
) -> Result<Told, AllocError>
    requires f_stands { Stands graph.old f }
    requires g_stands { Stands graph.old g }
    ensures extends { Extends graph.old graph.new }
    ensures stands { IfOk result (λ t. ToldStands graph.new t) }
    ensures told { IfOk result (λ t. (v : ℕ → Bool) (x y : Symbolic) (p q : Evaluation) → Consistent v graph.new → denoted v x ≡ Some (Int low) → denoted v y ≡ Some (Int high) →
        TellsOne v f x p → TellsOne v g y q → Tells v t (ranged p q)) }
{
    let fault = graph.or(f, g)?;
    let members = only_run(alloc, graph, low, high)?;
    Ok(Told::Set(fault, members))
}

// The member that is always there and is one of these integers.
fn only_run(alloc: Global, graph: &Graph, low: i64, high: i64) -> Result<Items<Member>, AllocError>
    ensures stands { IfOk result (λ ms. MembersStand graph.now ms) }
    ensures is { IfOk result (λ ms. (e : Edge) × ((ms ≡ record { present = e; which = which.Run low high } ∷ []) × ((v : ℕ → Bool) → Consistent v graph.now → edge_value v e ≡ true))) }
{
    let member = Member {
        present: graph.constant(true),
        which: Which::Run(low, high),
    };
    let mut members = Items::new(alloc);
    members.push(member)?;
    Ok(members)
}

// Whether the one value is among the others.
fn included(alloc: Global, graph: &mut Graph, a: &Told, b: &Told) -> Result<Told, AllocError>
    requires a_stands { ToldStands graph.old a.now }
    requires b_stands { ToldStands graph.old b.now }
    ensures extends { Extends graph.old graph.new }
    ensures stands { IfOk result (λ t. ToldStands graph.new t) }
    ensures told { IfOk result (λ t. (v : ℕ → Bool) (p q : Evaluation) → Consistent v graph.new → Tells v a.now p → Tells v b.now q → Tells v t (included p q)) }
{
    match a {
        Told::One(f, x) => {
            let told = is_among(alloc, graph, *f, x, b)?;
            Ok(told)
        }
        Told::Untold => Ok(Told::Untold),
        Told::Set(..) => Ok(Told::Untold),
    }
}

fn is_among(
    alloc: Global,
    graph: &mut Graph,
    f: Edge,
    x: &Symbolic,
    b: &Told,
) -> Result<Told, AllocError>
    requires f_stands { Stands graph.old f }
    requires x_stands { StandsIn graph.old x.now }
    requires b_stands { ToldStands graph.old b.now }
    ensures extends { Extends graph.old graph.new }
    ensures stands { IfOk result (λ t. ToldStands graph.new t) }
    ensures told { IfOk result (λ t. (v : ℕ → Bool) (p q : Evaluation) → Consistent v graph.new → TellsOne v f x.now p → Tells v b.now q → Tells v t (included p q)) }
{
    match as_row(alloc, graph, b)? {
        None => Ok(Told::Untold),
        Some(row) => {
            let e = among(alloc, graph, x, row.members.as_slice())?;
            let fault = graph.or(f, row.fault)?;
            Ok(Told::One(fault, Symbolic::Boolean(e)))
        }
    }
}

// An operator over operands that have one value each.
fn operated(
    alloc: Global,
    graph: &mut Graph,
    operator: Operator,
    operands: &[Told],
) -> Result<Told, AllocError>
    requires { AllTold graph.old operands.now }
    ensures extends { Extends graph.old graph.new }
    ensures stands { IfOk result (λ t. ToldStands graph.new t) }
    ensures told { IfOk result (λ t. (place : Place) (v : ℕ → Bool) (os : List Evaluation) → Consistent v graph.new → TellsAll v operands.now os →
        Tells v t (operated (λ vs. given place (result_of operator vs)) [] os)) }
{
    match operands {
        [a] => {
            let told = of_one(alloc, graph, operator, a)?;
            Ok(told)
        }
        [a, b] => {
            let told = of_two(alloc, graph, operator, a, b)?;
            Ok(told)
        }
        _ => {
            let told = of_many(alloc, graph, operator, operands)?;
            Ok(told)
        }
    }
}

// An operator over one operand.
fn of_one(
    alloc: Global,
    graph: &mut Graph,
    operator: Operator,
    a: &Told,
) -> Result<Told, AllocError>
    requires { ToldStands graph.old a.now }
    ensures extends { Extends graph.old graph.new }
    ensures stands { IfOk result (λ t. ToldStands graph.new t) }
    ensures told { IfOk result (λ t. (place : Place) (v : ℕ → Bool) (p : Evaluation) → Consistent v graph.new → Tells v a.now p →
        Tells v t (operated (λ vs. given place (result_of operator vs)) [] (p ∷ []))) }
{
    match a {
        Told::One(f, x) => {
            let value = copied_value(alloc, x)?;
            let told = computed(alloc, graph, operator, *f, &[value])?;
            Ok(told)
        }
        Told::Untold => Ok(Told::Untold),
        Told::Set(..) => Ok(Told::Untold),
    }
}

// An operator over two operands.
fn of_two(
    alloc: Global,
    graph: &mut Graph,
    operator: Operator,
    a: &Told,
    b: &Told,
) -> Result<Told, AllocError>
    requires a_stands { ToldStands graph.old a.now }
    requires b_stands { ToldStands graph.old b.now }
    ensures extends { Extends graph.old graph.new }
    ensures stands { IfOk result (λ t. ToldStands graph.new t) }
    ensures told { IfOk result (λ t. (place : Place) (v : ℕ → Bool) (p q : Evaluation) → Consistent v graph.new → Tells v a.now p → Tells v b.now q →
        Tells v t (operated (λ vs. given place (result_of operator vs)) [] (p ∷ q ∷ []))) }
{
    match (a, b) {
        (Told::One(f, x), Told::One(g, y)) => {
            let one = copied_value(alloc, x)?;
            let other = copied_value(alloc, y)?;
            let fault = graph.or(*f, *g)?;
            let told = computed(alloc, graph, operator, fault, &[one, other])?;
            Ok(told)
        }
        _ => Ok(Told::Untold),
    }
}

// An operator over operands, however many.
fn of_many(
    alloc: Global,
    graph: &mut Graph,
    operator: Operator,
    operands: &[Told],
) -> Result<Told, AllocError>
    requires { AllTold graph.old operands.now }
    ensures extends { Extends graph.old graph.new }
    ensures stands { IfOk result (λ t. ToldStands graph.new t) }
    ensures told { IfOk result (λ t. (place : Place) (v : ℕ → Bool) (os : List Evaluation) → Consistent v graph.new → TellsAll v operands.now os →
        Tells v t (operated (λ vs. given place (result_of operator vs)) [] os)) }
{
    match gathered(alloc, graph, operands)? {
        None => Ok(Told::Untold),
        Some(each) => {
            let Each { fault, values } = each;
            let told = computed(alloc, graph, operator, fault, values.as_slice())?;
            Ok(told)
        }
    }
}

// An operator over these values, where no operand faults.
fn computed(
    alloc: Global,
    graph: &mut Graph,
    operator: Operator,
    fault: Edge,
    values: &[Symbolic],
) -> Result<Told, AllocError>
    requires fault { Stands graph.old fault }
    requires values { AllStandIn graph.old values.now }
    ensures extends { Extends graph.old graph.new }
    ensures stands { IfOk result (λ t. ToldStands graph.new t) }
    ensures told { IfOk result (λ t. (place : Place) (v : ℕ → Bool) (x : Evaluation) → Consistent v graph.new → TellsEach v fault values.now x →
        Tells v t (bound (λ vs. given place (result_of operator vs)) x)) }
{
    let (value, edge) = apply(alloc, graph, operator, values)?;
    let either = graph.or(fault, edge)?;
    Ok(Told::One(either, value))
}

// The one value of each operand, and where one faults.
#[derive(Debug, Drop)]
struct Each {
    fault: Edge,
    values: Items<Symbolic>,
}

fn gathered(alloc: Global, graph: &mut Graph, operands: &[Told]) -> Result<Option<Each>, AllocError>
    requires { AllTold graph.old operands.now }
    ensures extends { Extends graph.old graph.new }
    ensures stands { IfOk result (λ r. IfSome r (λ each. Stands graph.new each.fault × AllStandIn graph.new each.values)) }
    ensures told { IfOk result (λ r. IfSome r (λ each. (v : ℕ → Bool) (os : List Evaluation) → Consistent v graph.new → TellsAll v operands.now os →
        TellsEach v each.fault each.values (operated Values [] os))) }
{
    let mut made = Each {
        fault: graph.constant(false),
        values: Items::new(alloc),
    };
    'operands: for i in 0..operands.len() {
        match with_value(alloc, graph, made, &operands[i])? {
            Some(each) => made = each,
            None => return Ok(None),
        }
    }
    Ok(Some(made))
}

// The values and that of one operand more.
fn with_value(
    alloc: Global,
    graph: &mut Graph,
    made: Each,
    operand: &Told,
) -> Result<Option<Each>, AllocError>
    requires made_stands { Stands graph.old made.fault × AllStandIn graph.old made.values }
    requires operand_stands { ToldStands graph.old operand.now }
    ensures extends { Extends graph.old graph.new }
    ensures stands { IfOk result (λ r. IfSome r (λ each. Stands graph.new each.fault × AllStandIn graph.new each.values)) }
    ensures told { IfOk result (λ r. IfSome r (λ each. (v : ℕ → Bool) (x o : Evaluation) → Consistent v graph.new → TellsEach v made.fault made.values x → Tells v operand.now o →
        TellsEach v each.fault each.values (beside x o))) }
{
    match operand {
        Told::One(f, x) => {
            let each = with_this(alloc, graph, made, *f, x)?;
            Ok(Some(each))
        }
        Told::Untold => Ok(None),
        Told::Set(..) => Ok(None),
    }
}

fn with_this(
    alloc: Global,
    graph: &mut Graph,
    made: Each,
    f: Edge,
    x: &Symbolic,
) -> Result<Each, AllocError>
    requires made_stands { Stands graph.old made.fault × AllStandIn graph.old made.values }
    requires f_stands { Stands graph.old f }
    requires x_stands { StandsIn graph.old x.now }
    ensures extends { Extends graph.old graph.new }
    ensures stands { IfOk result (λ each. Stands graph.new each.fault × AllStandIn graph.new each.values) }
    ensures fault { IfOk result (λ each. (v : ℕ → Bool) → Consistent v graph.new → edge_value v each.fault ≡ (edge_value v made.fault || edge_value v f)) }
    ensures values { IfOk result (λ each. each.values ≡ made.values ++ x.now ∷ []) }
{
    let copy = copied_value(alloc, x)?;
    let fault = graph.or(made.fault, f)?;
    let mut values = made.values;
    values.push(copy)?;
    Ok(Each { fault, values })
}
