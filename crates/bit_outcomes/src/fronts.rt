//! The first conditions and branches of a choice, with members of sets.

ghost use Rattle.std.specs.Prelude.{◌≡◌, ◌&&◌, ◌||◌, ℕ, Bool, All, IfOk, IfSome, false, not, true};
ghost use Rattle.std.specs.List.{list_any};
ghost use Rattle.bit_graph.specs.Growth.{Extends};
ghost use Rattle.bit_graph.specs.Meaning.{Consistent, Denotes, Stands, edge_value};
ghost use Rattle.smv_value.specs.declared.value.Value.{Value};
ghost use Rattle.smv_meaning.specs.declared.outcome.Evaluation.{Evaluation};
ghost use Rattle.smv_meaning.specs.Outcomes.{taken, truth};
ghost use Rattle.bit_operators.specs.declared.symbolic.Symbolic.TheVariants as symbolic;
ghost use Rattle.bit_outcomes.specs.Fronts.{FrontStands, TellsFront};
ghost use Rattle.bit_outcomes.specs.Telling.{IsThere, MembersStand, Tells, TellsOne, TellsSet, ToldStands, is_member};

use crate::choosing::is_always;
use crate::members::{Row, as_row, with_members};
use crate::told::{Member, Told};
use bit_graph::{Edge, Graph};
use bit_operators::Symbolic;
use sqlite_items::Items;
use std::alloc::{AllocError, Global};

/// What is told of the first conditions and branches. Where `undecided` is true, each of these conditions is FALSE;
/// else a fault where the edge is true, and else the values of these members.
#[derive(Debug, Drop)]
pub struct Front {
    pub undecided: Edge,
    pub fault: Edge,
    pub members: Items<Member>,
}

impl Front {
    /// That of no condition.
    pub fn new(alloc: Global, graph: &Graph) -> Front
        ensures stands { FrontStands graph.now result }
        ensures told { (v : ℕ → Bool) → Consistent v graph.now → TellsFront v result (λ r. r) }
    {
        Front {
            undecided: graph.constant(true),
            fault: graph.constant(false),
            members: Items::new(alloc),
        }
    }
}

/// One condition more, and its branch; `None` where nothing is told of them. The only error is running out of memory.
pub fn with_branch(
    alloc: Global,
    graph: &mut Graph,
    front: Front,
    condition: &Told,
    branch: &Told,
) -> Result<Option<Front>, AllocError>
    requires front_stands { FrontStands graph.old front }
    requires condition_stands { ToldStands graph.old condition.now }
    requires branch_stands { ToldStands graph.old branch.now }
    ensures extends { Extends graph.old graph.new }
    ensures stands { IfOk result (λ r. IfSome r (λ x. FrontStands graph.new x)) }
    ensures told { IfOk result (λ r. IfSome r (λ x. (v : ℕ → Bool) (f : Evaluation → Evaluation) (c a : Evaluation) → Consistent v graph.new → TellsFront v front f → Tells v condition.now c →
        Tells v branch.now a → TellsFront v x (λ r. f (taken (truth c) c a r)))) }
{
    match condition {
        Told::One(failed, value) => match value {
            Symbolic::Boolean(b) => match as_row(alloc, graph, branch)? {
                Some(row) => {
                    let next = with_row(alloc, graph, front, *failed, *b, row)?;
                    Ok(Some(next))
                }
                None => Ok(None),
            },
            Symbolic::Word { .. } => Ok(None),
            Symbolic::Discrete(_) => Ok(None),
        },
        Told::Untold => Ok(None),
        Told::Set(..) => Ok(None),
    }
}

// The same, where the condition is told by the edges `failed` and `b`.
fn with_row(
    alloc: Global,
    graph: &mut Graph,
    front: Front,
    failed: Edge,
    b: Edge,
    row: Row,
) -> Result<Front, AllocError>
    requires front_stands { FrontStands graph.old front }
    requires failed_stands { Stands graph.old failed }
    requires b_stands { Stands graph.old b }
    requires row_stands { Stands graph.old row.fault × MembersStand graph.old row.members }
    ensures extends { Extends graph.old graph.new }
    ensures stands { IfOk result (λ x. FrontStands graph.new x) }
    ensures told { IfOk result (λ x. (v : ℕ → Bool) (f : Evaluation → Evaluation) (c a : Evaluation) → Consistent v graph.new → TellsFront v front f → TellsOne v failed (symbolic.Boolean b) c →
        TellsSet v row.fault row.members a → TellsFront v x (λ r. f (taken (truth c) c a r))) }
{
    let here = graph.and(front.undecided, b)?;
    let fault = fault_with(graph, front.fault, front.undecided, failed, here, row.fault)?;
    let undecided = undecided_behind(graph, front.undecided, failed, b)?;
    let members = members_with(alloc, graph, front.members, here, row)?;
    Ok(Front {
        undecided,
        fault,
        members,
    })
}

// The edge of a fault so far, or of that of the next condition, or of that of its branch.
fn fault_with(
    graph: &mut Graph,
    fault: Edge,
    undecided: Edge,
    failed: Edge,
    here: Edge,
    other: Edge,
) -> Result<Edge, AllocError>
    requires fault_stands { Stands graph.old fault }
    requires undecided_stands { Stands graph.old undecided }
    requires failed_stands { Stands graph.old failed }
    requires here_stands { Stands graph.old here }
    requires other_stands { Stands graph.old other }
    ensures extends { Extends graph.old graph.new }
    ensures stands { IfOk result (λ e. Stands graph.new e) }
    ensures value { IfOk result (λ e. Denotes graph.new e (λ v. (edge_value v fault || (edge_value v undecided && edge_value v failed)) || (edge_value v here && edge_value v other))) }
{
    let of_condition = graph.and(undecided, failed)?;
    let of_branch = graph.and(here, other)?;
    let first = graph.or(fault, of_condition)?;
    let all = graph.or(first, of_branch)?;
    Ok(all)
}

// The edge that is true where the next condition is FALSE too.
fn undecided_behind(
    graph: &mut Graph,
    undecided: Edge,
    failed: Edge,
    b: Edge,
) -> Result<Edge, AllocError>
    requires undecided_stands { Stands graph.old undecided }
    requires failed_stands { Stands graph.old failed }
    requires b_stands { Stands graph.old b }
    ensures extends { Extends graph.old graph.new }
    ensures stands { IfOk result (λ e. Stands graph.new e) }
    ensures value { IfOk result (λ e. Denotes graph.new e (λ v. (edge_value v undecided && not (edge_value v failed)) && not (edge_value v b))) }
{
    let sound = graph.and(undecided, failed.negation())?;
    let behind = graph.and(sound, b.negation())?;
    Ok(behind)
}

// The members, and those of the set where the condition is true: of one that always faults none is asked.
fn members_with(
    alloc: Global,
    graph: &mut Graph,
    made: Items<Member>,
    condition: Edge,
    row: Row,
) -> Result<Items<Member>, AllocError>
    requires made_stand { MembersStand graph.old made }
    requires condition_stands { Stands graph.old condition }
    requires row_stands { Stands graph.old row.fault × MembersStand graph.old row.members }
    ensures extends { Extends graph.old graph.new }
    ensures stands { IfOk result (λ r. MembersStand graph.new r) }
    ensures there { IfOk result (λ r. (v : ℕ → Bool) → Consistent v graph.new → (edge_value v condition ≡ true → edge_value v row.fault ≡ false) → All (IsThere v) made →
        (edge_value v condition ≡ true → All (IsThere v) row.members) → All (IsThere v) r) }
    ensures value { IfOk result (λ r. (v : ℕ → Bool) (w : Value) → Consistent v graph.new → (edge_value v condition ≡ true → edge_value v row.fault ≡ false) →
        list_any (is_member v w) r ≡ (list_any (is_member v w) made || (edge_value v condition && list_any (is_member v w) row.members))) }
{
    if is_always(graph, row.fault) {
        Ok(made)
    } else {
        let members = with_members(alloc, graph, made, condition, row.members.as_slice())?;
        Ok(members)
    }
}

/// The first conditions and branches, and what is told of the rest. The only error is running out of memory.
pub fn closed(
    alloc: Global,
    graph: &mut Graph,
    front: Front,
    rest: &Told,
) -> Result<Told, AllocError>
    requires front_stands { FrontStands graph.old front }
    requires rest_stands { ToldStands graph.old rest.now }
    ensures extends { Extends graph.old graph.new }
    ensures stands { IfOk result (λ t. ToldStands graph.new t) }
    ensures told { IfOk result (λ t. (v : ℕ → Bool) (f : Evaluation → Evaluation) (r : Evaluation) → Consistent v graph.new → TellsFront v front f → Tells v rest.now r → Tells v t (f r)) }
{
    match as_row(alloc, graph, rest)? {
        None => Ok(Told::Untold),
        Some(row) => {
            let of_rest = graph.and(front.undecided, row.fault)?;
            let fault = graph.or(front.fault, of_rest)?;
            let members = members_with(alloc, graph, front.members, front.undecided, row)?;
            Ok(Told::Set(fault, members))
        }
    }
}
