//! The inputs that expressions read.

ghost use Rattle.std.specs.Prelude.{◌≡◌, ℕ, Bool, List, Some, filter, slice_get, IfOk};
ghost use Rattle.std.specs.List.{list_any, range_with_len};
ghost use Rattle.smv_slots.specs.Slots.{is_input, slots_of};
ghost use Rattle.smv_formulas.specs.Says.{atom_parts};
ghost use Rattle.bit_formula.specs.Coding.{input_count};
ghost use Rattle.bit_formula.specs.Marks.{is_asked, mark_at, mark_by, marks_of};
ghost use Rattle.bit_formula.specs.Reading.{is_read, reads_of, reads_slot};

use smv_meaning::{Typed, slots};
use smv_resolve::{ExprNode, last};
use smv_slots::Slot;
use smv_tree::VariableKind;
use std::alloc::{AllocError, Global};

/// The inputs that are asked for.
#[derive(Clone, Copy, Debug, Drop)]
pub enum Asked {
    Every,
    /// The one of this number among the inputs.
    One(usize),
}

fn is_input(kind: VariableKind) -> bool
    ensures { result ≡ is_input kind }
{
    match kind {
        VariableKind::Input => true,
        VariableKind::State | VariableKind::Frozen => false,
    }
}

// Whether the slot is an input that is asked for.
fn passes(slot: &Slot, asked: Asked) -> bool
    ensures { result ≡ is_asked asked (Some slot.now) }
{
    match asked {
        Asked::Every => is_input(slot.kind),
        Asked::One(k) => is_input(slot.kind) && slot.index == k,
    }
}

// The same of the slot of this number, if there is one.
fn is_asked(slots: &[Slot], n: usize, asked: Asked) -> bool
    ensures { result ≡ is_asked asked (slice_get slots.now n) }
{
    match slots.get(n) {
        None => false,
        Some(slot) => passes(slot, asked),
    }
}

// The mark of the node of this number.
fn mark_at(marks: &[bool], k: usize) -> bool
    ensures { result ≡ mark_at marks.now k }
{
    k < marks.len() && marks[k]
}

fn is_some_marked(marks: &[bool]) -> bool
    ensures { result ≡ list_any (λ (mark : Bool). mark) marks.now }
{
    marks.iter().any(|mark| *mark)
}

// Whether a node reads an input that is asked for, by the marks of the nodes before it.
fn mark_by(slots: &[Slot], asked: Asked, marks: &[bool], node: &ExprNode) -> bool
    ensures { result ≡ mark_by (is_asked asked) slots.now marks.now node.now }
{
    match *node {
        ExprNode::Constant(..) => false,
        ExprNode::Slot(_, n) => is_asked(slots, n, asked),
        ExprNode::Whole(..) => false,
        ExprNode::Named(_, _, a) => mark_at(marks, a),
        ExprNode::Next(..) => false,
        ExprNode::Operand(a) => mark_at(marks, a),
        ExprNode::Apply(_, _, count) => is_some_marked(last(marks, count)),
        ExprNode::Link(_, _, a, b) => mark_at(marks, a) || mark_at(marks, b),
    }
}

// Whether each node reads an input that is asked for.
fn marks_of(
    alloc: Global,
    slots: &[Slot],
    nodes: &[ExprNode],
    asked: Asked,
) -> Result<Vec<bool>, AllocError>
    ensures { IfOk result (λ marks. marks.items ≡ marks_of (is_asked asked) slots.now nodes.now) }
{
    let mut marks = Vec::new(alloc);
    for node in nodes {
        let mark = mark_by(slots, asked, marks.as_slice(), node);
        marks.push(mark)?;
    }
    Ok(marks)
}

// Whether one of these nodes is marked.
fn is_one_marked(marks: &[bool], nodes: &[usize]) -> bool
    ensures { result ≡ list_any (λ (k : ℕ). mark_at marks.now k) nodes.now }
{
    nodes.iter().any(|k| mark_at(marks, *k))
}

// Whether one of the atoms, which are numbers of nodes, reads an input that is asked for.
fn is_read(
    alloc: Global,
    slots: &[Slot],
    nodes: &[ExprNode],
    atoms: &[usize],
    asked: Asked,
) -> Result<bool, AllocError>
    ensures { IfOk result (λ read. read ≡ list_any (reads_slot (is_asked asked) slots.now) (atom_parts nodes.now atoms.now)) }
{
    let marks = marks_of(alloc, slots, nodes, asked)?;
    let read = is_one_marked(&marks, atoms);
    Ok(read)
}

// The inputs, of which there are so many, that the atoms read.
fn all_read(
    alloc: Global,
    slots: &[Slot],
    nodes: &[ExprNode],
    atoms: &[usize],
    given: usize,
) -> Result<Vec<usize>, AllocError>
    ensures { IfOk result (λ reads. reads.items ≡ filter (λ (k : ℕ). list_any (is_read slots.now k) (atom_parts nodes.now atoms.now)) (range_with_len 0 given)) }
{
    let mut reads = Vec::new(alloc);
    for k in 0..given {
        let read = is_read(alloc, slots, nodes, atoms, Asked::One(k))?;
        if read {
            reads.push(k)?;
        }
    }
    Ok(reads)
}

/// The numbers of the inputs, of which there are `given`, that the atoms read, in their order; atoms are numbers of
/// nodes.
///
/// Time and memory grow with the nodes. Where some input is read, the time grows with the nodes times the inputs. The
/// only error is running out of memory.
pub fn reads_of(
    alloc: Global,
    typed: &Typed,
    atoms: &[usize],
    given: usize,
) -> Result<Vec<usize>, AllocError>
    requires { given ≡ input_count typed.now.scope.program }
    ensures { IfOk result (λ reads. reads.items ≡ reads_of typed.now.scope.program (atom_parts typed.now.nodes atoms.now)) }
{
    let slots = slots(typed);
    let nodes = typed.nodes.as_slice();
    let read = is_read(alloc, slots, nodes, atoms, Asked::Every)?;
    if read {
        all_read(alloc, slots, nodes, atoms, given)
    } else {
        Ok(Vec::new(alloc))
    }
}
