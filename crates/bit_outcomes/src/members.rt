//! Members of sets.

ghost use Rattle.std.specs.Prelude.{◌≡◌, ◌&&◌, ◌||◌, ◌∷◌, ◌++◌, [], ℕ, Bool, List, All, IfOk, IfSome, Some, true};
ghost use Rattle.std.specs.List.{list_any};
ghost use Rattle.bit_graph.specs.Growth.{Extends};
ghost use Rattle.bit_graph.specs.Meaning.{Consistent, Stands, edge_value};
ghost use Rattle.smv_value.specs.declared.value.Value.{Value};
ghost use Rattle.smv_meaning.specs.declared.outcome.Evaluation.{Evaluation};
ghost use Rattle.smv_meaning.specs.Outcomes.{united};
ghost use Rattle.bit_operators.specs.Denoting.{StandsIn, denoted};
ghost use Rattle.bit_outcomes.specs.Telling.{AllTold, IsThere, MemberStands, MembersStand, Tells, TellsAll, TellsSet, ToldStands, both, is_member};
ghost use Rattle.bit_outcomes.specs.declared.told.Which.TheVariants as which;

use crate::told::{Member, Told, Which, copied, copied_members, copied_value, copied_which};
use bit_choices::equal;
use bit_graph::{Edge, Graph};
use bit_numbers::is_between;
use bit_operators::Symbolic;
use sqlite_items::Items;
use std::alloc::{AllocError, Global};

/// What is told of a set.
#[derive(Debug, Drop)]
pub struct Row {
    pub fault: Edge,
    pub members: Items<Member>,
}

/// What is told of the outcome as of a set; `None` where nothing is told. The only error is running out of memory.
pub fn as_row(alloc: Global, graph: &Graph, told: &Told) -> Result<Option<Row>, AllocError>
    requires { ToldStands graph.now told.now }
    ensures stands { IfOk result (λ r. IfSome r (λ row. Stands graph.now row.fault × MembersStand graph.now row.members)) }
    ensures told { IfOk result (λ r. IfSome r (λ row. (v : ℕ → Bool) (o : Evaluation) → Consistent v graph.now → Tells v told.now o → TellsSet v row.fault row.members o)) }
{
    match told {
        Told::Untold => Ok(None),
        Told::One(fault, value) => {
            let members = only_member(alloc, graph, value)?;
            Ok(Some(Row {
                fault: *fault,
                members,
            }))
        }
        Told::Set(fault, members) => {
            let copy = copied_members(alloc, members.as_slice())?;
            Ok(Some(Row {
                fault: *fault,
                members: copy,
            }))
        }
    }
}

// The member that is always there and has this value.
fn only_member(alloc: Global, graph: &Graph, value: &Symbolic) -> Result<Items<Member>, AllocError>
    requires { StandsIn graph.now value.now }
    ensures stands { IfOk result (λ ms. MembersStand graph.now ms) }
    ensures is { IfOk result (λ ms. (e : Edge) × ((ms ≡ record { present = e; which = which.Value value.now } ∷ []) × ((v : ℕ → Bool) → Consistent v graph.now → edge_value v e ≡ true))) }
{
    let copy = copied_value(alloc, value)?;
    let member = Member {
        present: graph.constant(true),
        which: Which::Value(copy),
    };
    let mut members = Items::new(alloc);
    members.push(member)?;
    Ok(members)
}

// The members, and each of more members where the condition is true too. The only error is running out of memory.
pub fn with_members(
    alloc: Global,
    graph: &mut Graph,
    made: Items<Member>,
    condition: Edge,
    more: &[Member],
) -> Result<Items<Member>, AllocError>
    requires made_stand { MembersStand graph.old made }
    requires condition_stands { Stands graph.old condition }
    requires more_stand { MembersStand graph.old more.now }
    ensures extends { Extends graph.old graph.new }
    ensures stands { IfOk result (λ r. MembersStand graph.new r) }
    ensures there { IfOk result (λ r. (v : ℕ → Bool) → Consistent v graph.new → All (IsThere v) made → (edge_value v condition ≡ true → All (IsThere v) more.now) → All (IsThere v) r) }
    ensures value { IfOk result (λ r. (v : ℕ → Bool) (w : Value) → Consistent v graph.new →
        list_any (is_member v w) r ≡ (list_any (is_member v w) made || (edge_value v condition && list_any (is_member v w) more.now))) }
{
    let mut all = made;
    'more: for i in 0..more.len() {
        let member = guarded(alloc, graph, condition, &more[i])?;
        all.push(member)?;
    }
    Ok(all)
}

// The member where the condition is true too.
fn guarded(
    alloc: Global,
    graph: &mut Graph,
    condition: Edge,
    member: &Member,
) -> Result<Member, AllocError>
    requires condition_stands { Stands graph.old condition }
    requires member_stands { MemberStands graph.old member.now }
    ensures extends { Extends graph.old graph.new }
    ensures stands { IfOk result (λ r. MemberStands graph.new r) }
    ensures present { IfOk result (λ r. (v : ℕ → Bool) → Consistent v graph.new → edge_value v r.present ≡ (edge_value v condition && edge_value v member.now.present)) }
    ensures which { IfOk result (λ r. r.which ≡ member.now.which) }
{
    let which = copied_which(alloc, &member.which)?;
    let present = graph.and(condition, member.present)?;
    Ok(Member { present, which })
}

/// The edge that is true where the value is among the members. Kinds that do not fit count as running out of memory.
pub fn among(
    alloc: Global,
    graph: &mut Graph,
    x: &Symbolic,
    members: &[Member],
) -> Result<Edge, AllocError>
    requires x_stands { StandsIn graph.old x.now }
    requires members_stand { MembersStand graph.old members.now }
    ensures extends { Extends graph.old graph.new }
    ensures stands { IfOk result (λ e. Stands graph.new e) }
    ensures value { IfOk result (λ e. (v : ℕ → Bool) (w : Value) → Consistent v graph.new → denoted v x.now ≡ Some w → All (IsThere v) members.now →
        edge_value v e ≡ list_any (is_member v w) members.now) }
{
    let mut any = graph.constant(false);
    'members: for i in 0..members.len() {
        let here = is_here(alloc, graph, x, &members[i])?;
        let more = graph.or(any, here)?;
        any = more;
    }
    Ok(any)
}

// The edge that is true where the value is this member.
fn is_here(
    alloc: Global,
    graph: &mut Graph,
    x: &Symbolic,
    member: &Member,
) -> Result<Edge, AllocError>
    requires x_stands { StandsIn graph.old x.now }
    requires member_stands { MemberStands graph.old member.now }
    ensures extends { Extends graph.old graph.new }
    ensures stands { IfOk result (λ e. Stands graph.new e) }
    ensures value { IfOk result (λ e. (v : ℕ → Bool) (w : Value) → Consistent v graph.new → denoted v x.now ≡ Some w → IsThere v member.now →
        edge_value v e ≡ is_member v w member.now) }
{
    match &member.which {
        Which::Value(value) => match equal(alloc, graph, x, value)? {
            Some(same) => {
                let here = graph.and(member.present, same)?;
                Ok(here)
            }
            None => Err(AllocError),
        },
        Which::Run(low, high) => {
            let within = is_between(alloc, graph, *low, *high, x)?;
            let here = graph.and(member.present, within)?;
            Ok(here)
        }
    }
}

/// The values of all operands one after another. The only error is running out of memory.
pub fn united(alloc: Global, graph: &mut Graph, operands: &[Told]) -> Result<Told, AllocError>
    requires { AllTold graph.old operands.now }
    ensures extends { Extends graph.old graph.new }
    ensures stands { IfOk result (λ t. ToldStands graph.new t) }
    ensures told { IfOk result (λ t. (v : ℕ → Bool) (os : List Evaluation) → Consistent v graph.new → TellsAll v operands.now os → Tells v t (united [] os)) }
{
    match operands {
        [a] => {
            let copy = copied(alloc, a)?;
            Ok(copy)
        }
        _ => match all_united(alloc, graph, operands)? {
            Some(row) => Ok(Told::Set(row.fault, row.members)),
            None => Ok(Told::Untold),
        },
    }
}

fn all_united(
    alloc: Global,
    graph: &mut Graph,
    operands: &[Told],
) -> Result<Option<Row>, AllocError>
    requires { AllTold graph.old operands.now }
    ensures extends { Extends graph.old graph.new }
    ensures stands { IfOk result (λ r. IfSome r (λ row. Stands graph.new row.fault × MembersStand graph.new row.members)) }
    ensures told { IfOk result (λ r. IfSome r (λ row. (v : ℕ → Bool) (os : List Evaluation) → Consistent v graph.new → TellsAll v operands.now os →
        TellsSet v row.fault row.members (united [] os))) }
{
    let mut made = Row {
        fault: graph.constant(false),
        members: Items::new(alloc),
    };
    'operands: for i in 0..operands.len() {
        match with_row(alloc, graph, made, &operands[i])? {
            Some(row) => made = row,
            None => return Ok(None),
        }
    }
    Ok(Some(made))
}

// The members and those of one operand more.
fn with_row(
    alloc: Global,
    graph: &mut Graph,
    made: Row,
    operand: &Told,
) -> Result<Option<Row>, AllocError>
    requires made_stands { Stands graph.old made.fault × MembersStand graph.old made.members }
    requires operand_stands { ToldStands graph.old operand.now }
    ensures extends { Extends graph.old graph.new }
    ensures stands { IfOk result (λ r. IfSome r (λ row. Stands graph.new row.fault × MembersStand graph.new row.members)) }
    ensures told { IfOk result (λ r. IfSome r (λ row. (v : ℕ → Bool) (x o : Evaluation) → Consistent v graph.new → TellsSet v made.fault made.members x → Tells v operand.now o →
        TellsSet v row.fault row.members (both x o))) }
{
    match as_row(alloc, graph, operand)? {
        None => Ok(None),
        Some(more) => {
            let row = with_all(graph, made, more)?;
            Ok(Some(row))
        }
    }
}

fn with_all(graph: &mut Graph, made: Row, more: Row) -> Result<Row, AllocError>
    requires made_stands { Stands graph.old made.fault × MembersStand graph.old made.members }
    requires more_stands { Stands graph.old more.fault × MembersStand graph.old more.members }
    ensures extends { Extends graph.old graph.new }
    ensures stands { IfOk result (λ row. Stands graph.new row.fault × MembersStand graph.new row.members) }
    ensures fault { IfOk result (λ row. (v : ℕ → Bool) → Consistent v graph.new → edge_value v row.fault ≡ (edge_value v made.fault || edge_value v more.fault)) }
    ensures members { IfOk result (λ row. row.members ≡ made.members ++ more.members) }
{
    let fault = graph.or(made.fault, more.fault)?;
    let mut members = made.members;
    members.append(more.members)?;
    Ok(Row { fault, members })
}
