//! The questions of faults, one for each item that may fault.

ghost use Rattle.std.specs.Prelude.{◌≡◌, ◌<◌, ◌≤◌, ◌&&◌, false, length, map, All, IfOk, IsTrue, OnOk, slice_index_or};
ghost use Rattle.std.specs.List.{list_all};
ghost use Rattle.bit_graph.specs.Growth.{Extends};
ghost use Rattle.bit_graph.specs.Meaning.{Denotes, HasInputs, Stands};
ghost use Rattle.bit_graph.specs.Values.{value_under};
ghost use Rattle.bit_graph.specs.declared.edge.Edge.{Edge as EdgeOf};
ghost use Rattle.bit_arith.specs.Number.{AllStand};
ghost use Rattle.clause_core.specs.Literals.{Within};
ghost use Rattle.bit_clauses.specs.Deciding.{Decides};
ghost use Rattle.smv_resolve.specs.declared.item.Item.{Item};
ghost use Rattle.smv_resolve.specs.Items.{item_by};
ghost use Rattle.smv_resolve.specs.Resolved.{parts_of};
ghost use Rattle.smv_meaning.specs.Faults.{slot_assigned};
ghost use Rattle.bit_states.specs.Layouts.{bit_limit, bits_of, layout_of, named_width};
ghost use Rattle.bit_faults.specs.Cones.{Copies};
ghost use Rattle.bit_faults.specs.Questions.{AreFaultQuestions, AreQuestions, IsAsked, IsFaultQuestion, IsKnown};
ghost use Rattle.bit_faults.specs.Valuations.{TellsDomains, TellsValuation};

use crate::cones::{Cone, take_over};
use crate::domains::{all_have_codes, domain_at, step_domains};
use crate::faults::fault_of_item;
use crate::judged::judged_items;
use crate::targets::slots_assigned;
use crate::valuation::{Valuation, valuation_of};
use bit_clauses::{Decided, ask, decide};
use bit_graph::{Edge, Graph};
use bit_states::Layout;
use smv_meaning::Typed;
use smv_resolve::Item;
use std::alloc::{AllocError, Global};

/// For each item that may fault clauses that are met where it does, at a valuation of the declared types, or `None`
/// where the edge that tells its fault is the constant false. Their order is that of `judged_items`.
///
/// The first variables are the bits of the state, of the next one and of the inputs, as in `layout`; those of gates
/// follow. All items share one graph. The clauses of an item ask for its fault, and for values in the slots that the
/// fault reads: bits that meet them are `mended` to those of a valuation. So for each item that is asked for, time and
/// memory grow with the gates that its fault stands on, and with the number of bits. The only error is running out of
/// memory, which is answered too where a slot is of a type with no value, an enumeration with no element, which no
/// source can write.
pub fn fault_questions(
    alloc: Global,
    typed: &Typed,
    layout: &Layout,
) -> Result<Vec<Option<Decided>>, AllocError>
    requires layout { layout.now ≡ layout_of typed.now.scope.program }
    requires small { bits_of typed.now.scope.program ≤ bit_limit }
    ensures { IfOk result (λ r. AreFaultQuestions typed.now.scope.program r.items) }
{
    let named = layout.state().len() + layout.next().len() + layout.inputs().len();
    let mut graph = Graph::new(alloc, named)?;
    let valuation = valuation_of(alloc, &mut graph, typed, layout)?;
    let domains = known_domains(alloc, &mut graph, typed, layout)?;
    let slots = slots_assigned(alloc, typed.nodes.as_slice())?;
    let items = judged_items(alloc, typed)?;
    let questions = questions_of(
        alloc,
        &mut graph,
        typed,
        &slots,
        &valuation,
        &domains,
        named,
        items.as_slice(),
    )?;
    Ok(questions)
}

// For each bit of a step the edge that is true where the bits of its slot are those of a value, if each slot has some.
fn known_domains(
    alloc: Global,
    graph: &mut Graph,
    typed: &Typed,
    layout: &Layout,
) -> Result<Vec<Edge>, AllocError>
    requires layout { layout.now ≡ layout_of typed.now.scope.program }
    requires room { named_width typed.now.scope.program ≤ length graph.old }
    ensures extends { Extends graph.old graph.new }
    ensures domains { IfOk result (λ r. TellsDomains graph.new typed.now.scope.program r.items) }
{
    if !all_have_codes(layout.state_types()) {
        return Err(AllocError);
    }
    if !all_have_codes(layout.input_types()) {
        return Err(AllocError);
    }
    let domains = step_domains(alloc, graph, typed, layout)?;
    Ok(domains)
}

// The questions of these items.
fn questions_of(
    alloc: Global,
    graph: &mut Graph,
    typed: &Typed,
    slots: &[Option<usize>],
    valuation: &Valuation,
    domains: &[Edge],
    named: usize,
    items: &[Item],
) -> Result<Vec<Option<Decided>>, AllocError>
    requires named { named ≡ named_width typed.now.scope.program }
    requires inputs { HasInputs named graph.old }
    requires valuation { TellsValuation graph.old typed.now valuation.now }
    requires domains { TellsDomains graph.old typed.now.scope.program domains.now }
    requires slots { slots.now ≡ map slot_assigned (parts_of typed.now.nodes) }
    requires known { All (λ (item : Item). IsKnown typed.now.scope.program (item_by typed.now.nodes item)) items.now }
    ensures { IfOk result (λ r. AreQuestions typed.now.scope.program (map (item_by typed.now.nodes) items.now) r.items) }
{
    let mut made = Vec::new(alloc);
    for item in items {
        let question = question_of(alloc, graph, typed, slots, valuation, domains, named, item)?;
        made.push(question)?;
    }
    Ok(made)
}

// The question of an item.
fn question_of(
    alloc: Global,
    graph: &mut Graph,
    typed: &Typed,
    slots: &[Option<usize>],
    valuation: &Valuation,
    domains: &[Edge],
    named: usize,
    item: &Item,
) -> Result<Option<Decided>, AllocError>
    requires named { named ≡ named_width typed.now.scope.program }
    requires inputs { HasInputs named graph.old }
    requires valuation { TellsValuation graph.old typed.now valuation.now }
    requires domains { TellsDomains graph.old typed.now.scope.program domains.now }
    requires slots { slots.now ≡ map slot_assigned (parts_of typed.now.nodes) }
    requires known { IsKnown typed.now.scope.program (item_by typed.now.nodes item.now) }
    ensures extends { Extends graph.old graph.new }
    ensures question { IfOk result (IsFaultQuestion typed.now.scope.program (item_by typed.now.nodes item.now)) }
{
    let edge = fault_of_item(alloc, graph, typed, slots, valuation, item)?;
    graph.one_way();
    if is_never(graph, edge) {
        Ok(None)
    } else {
        let decided = decided(alloc, graph, domains, named, edge)?;
        Ok(Some(decided))
    }
}

// Whether the edge is the constant false.
fn is_never(graph: &Graph, edge: Edge) -> bool
    requires { Stands graph.now edge }
    ensures { IsTrue result → Denotes graph.now edge (λ v. false) }
{
    match graph.as_constant(edge) {
        Some(value) => !value,
        None => false,
    }
}

// The clauses that ask for the edge, and for values in the slots that it reads.
fn decided(
    alloc: Global,
    graph: &Graph,
    domains: &[Edge],
    named: usize,
    edge: Edge,
) -> Result<Decided, AllocError>
    requires inputs { HasInputs named graph.now }
    requires stand { AllStand graph.now domains.now }
    requires long { length domains.now ≡ named }
    requires edge { Stands graph.now edge }
    ensures { IfOk result (IsAsked named graph.now domains.now edge) }
{
    graph.one_way();
    let mut cone = Cone::new(alloc, named)?;
    let own = take_over(alloc, graph, &mut cone, named, edge)?;
    let read = Vec::from_slice(alloc, &cone.read)?;
    let valid = valid_where(alloc, graph, &mut cone, domains, named, &read)?;
    cone.graph.one_way();
    let decided = decided_both(alloc, &cone.graph, named, valid, own)?;
    Ok(decided)
}

// The edge in the cone that is true where the slots with these bits have values.
fn valid_where(
    alloc: Global,
    graph: &Graph,
    cone: &mut Cone,
    domains: &[Edge],
    named: usize,
    read: &[usize],
) -> Result<Edge, AllocError>
    requires inputs { HasInputs named graph.now }
    requires copies { Copies named graph.now cone.old }
    requires stand { AllStand graph.now domains.now }
    requires long { length domains.now ≡ named }
    requires read { All (λ k. k < named) read.now }
    ensures inputs { OnOk result (HasInputs named cone.new.graph) }
    ensures extends { OnOk result (Extends cone.old.graph cone.new.graph) }
    ensures stands { IfOk result (λ e. Stands cone.new.graph e) }
    ensures value { IfOk result (λ e. (d : EdgeOf) → Denotes cone.new.graph e (λ v. list_all (λ k. value_under v graph.now (slice_index_or domains.now k d)) read.now)) }
{
    let mut valid = cone.graph.constant(true);
    for k in read {
        let domain = domain_at(domains, *k);
        let copy = take_over(alloc, graph, cone, named, domain)?;
        let both = cone.graph.and(valid, copy)?;
        valid = both;
    }
    Ok(valid)
}

// The clauses that are met where both edges are true.
fn decided_both(
    alloc: Global,
    graph: &Graph,
    named: usize,
    one: Edge,
    other: Edge,
) -> Result<Decided, AllocError>
    requires inputs { HasInputs named graph.now }
    requires one { Stands graph.now one }
    requires other { Stands graph.now other }
    ensures decides { IfOk result (λ r. Decides named r.clauses (λ y. value_under y graph.now one && value_under y graph.now other)) }
    ensures within { IfOk result (λ r. All (Within r.vars) r.clauses) }
    ensures room { IfOk result (λ r. named ≤ r.vars) }
{
    graph.one_way();
    let mut asked = Vec::new(alloc);
    ask(graph, &mut asked, one)?;
    ask(graph, &mut asked, other)?;
    let decided = decide(alloc, graph, named, &asked, 0)?;
    Ok(decided)
}
