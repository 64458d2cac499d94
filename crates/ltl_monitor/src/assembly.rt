//! Puts the clauses of a system and those of its monitor together as one transition system.

ghost use Rattle.std.specs.Prelude.{◌≡◌, ◌+◌, ◌-◌, ◌*◌, ◌++◌, ◌≤◌, List, map, IfOk, OnOk};
ghost use Rattle.clause_core.specs.declared.literal.Lit.{Lit};
ghost use Rattle.clause_core.specs.Systems.{IsSystem};
ghost use Rattle.ltl_monitor.specs.Assembly.{layout_of, scene_of, empty_draft, assembled};
ghost use Rattle.ltl_monitor.specs.declared.layout.Space.{Space};
ghost use Rattle.ltl_monitor.specs.Drafting.{moved, all_moved};

use crate::draft::{Draft, Scene};
use crate::layout::{Layout, Space, sum};
use clause_core::{Clause, Clauses, Lit, Parts, System};
use std::alloc::{AllocError, Global};

// The layout of a system with more bits.
pub fn layout_of(system: &System, nodes: usize) -> Result<Layout, AllocError>
    ensures { IfOk result (λ p. p ≡ layout_of system.now nodes) }
{
    let inner = sum(system.all_bits(), sum(nodes, nodes)?)?;
    Ok(Layout {
        given: system.state_bits(),
        nodes,
        inner,
    })
}

pub fn scene(
    alloc: Global,
    layout: Layout,
    system: &System,
    literals: &[Lit],
) -> Result<Scene, AllocError>
    ensures { IfOk result (λ s. s ≡ scene_of layout system.now literals.now) }
{
    let mut atoms = layout.moved_all(alloc, Space::Local, literals)?;
    atoms.append(layout.moved_all(alloc, Space::Local, system.fair())?)?;
    Ok(Scene { layout, atoms })
}

pub fn begin(alloc: Global, layout: &Layout, system: &System) -> Result<Draft, AllocError>
    ensures { IfOk result (λ d. d ≡ empty_draft layout.now system.now) }
{
    let mut defs = Clauses::new(alloc);
    layout.copy(alloc, Space::Local, system.defs(), &mut defs)?;
    Ok(Draft {
        node: 0,
        gate: sum(system.all_bits(), layout.nodes)?,
        defs,
        starts: Clauses::new(alloc),
        rows: Clauses::new(alloc),
        sets: layout.moved_all(alloc, Space::Local, system.fair())?,
    })
}

// A copy of these clauses, where their variables go.
pub fn copied(
    alloc: Global,
    layout: &Layout,
    space: Space,
    clauses: &Clauses,
) -> Result<Clauses, AllocError>
    ensures { IfOk result (λ cs. cs ≡ all_moved layout.now space clauses.now) }
{
    let mut copy = Clauses::new(alloc);
    layout.copy(alloc, space, clauses, &mut copy)?;
    Ok(copy)
}

// What a draft makes of a system, but for the bad states and the good ones.
#[derive(Drop)]
struct Rules {
    state_bits: usize,
    all_bits: usize,
    init: Clauses,
    step: Clauses,
    fair: Clause,
    defs: Clauses,
}

pub fn assemble(
    alloc: Global,
    layout: &Layout,
    system: &System,
    bad: Clauses,
    good: Clauses,
    draft: &Draft,
) -> Result<System, AllocError>
    requires valid { IsSystem (assembled layout.now system.now bad good draft.now) }
    requires room { layout.now.given + layout.now.nodes ≤ draft.now.gate }
    ensures { IfOk result (λ m. m ≡ assembled layout.now system.now bad good draft.now) }
{
    let rules = all_rules(alloc, layout, system, draft)?;
    Ok(System::new(Parts {
        state_bits: rules.state_bits,
        all_bits: rules.all_bits,
        init: rules.init,
        step: rules.step,
        bad,
        good,
        fair: rules.fair,
        defs: rules.defs,
    }))
}

fn all_rules(
    alloc: Global,
    layout: &Layout,
    system: &System,
    draft: &Draft,
) -> Result<Rules, AllocError>
    requires { layout.now.given + layout.now.nodes ≤ draft.now.gate }
    ensures { IfOk result (λ r. (bad good : List (List Lit)) → assembled layout.now system.now bad good draft.now ≡ record { state_bits = r.state_bits; all_bits = r.all_bits; init = r.init; step = r.step; bad = bad; good = good; fair = r.fair; defs = r.defs }) }
{
    let state_bits = sum(layout.given, layout.nodes)?;
    let all_bits = all_bits(layout, draft.gate, state_bits)?;
    let init = initial(alloc, layout, system, draft)?;
    let step = steps(alloc, layout, system, draft)?;
    let fair = fairness(alloc, layout, draft)?;
    let defs = copied(alloc, layout, Space::Now, &draft.defs)?;
    Ok(Rules {
        state_bits,
        all_bits,
        init,
        step,
        fair,
        defs,
    })
}

// The clauses of an initial state.
fn initial(
    alloc: Global,
    layout: &Layout,
    system: &System,
    draft: &Draft,
) -> Result<Clauses, AllocError>
    ensures { IfOk result (λ cs. cs ≡ all_moved layout.now Space.System system.now.init ++ all_moved layout.now Space.Now draft.now.defs ++ all_moved layout.now Space.Now draft.now.starts) }
{
    let mut init = copied(alloc, layout, Space::System, system.init())?;
    layout.copy(alloc, Space::Now, &draft.defs, &mut init)?;
    layout.copy(alloc, Space::Now, &draft.starts, &mut init)?;
    Ok(init)
}

// The clauses of a step.
fn steps(
    alloc: Global,
    layout: &Layout,
    system: &System,
    draft: &Draft,
) -> Result<Clauses, AllocError>
    ensures { IfOk result (λ cs. cs ≡ all_moved layout.now Space.System system.now.step ++ all_moved layout.now Space.Now draft.now.defs ++ all_moved layout.now Space.Next draft.now.defs ++ draft.now.rows) }
{
    let mut step = copied(alloc, layout, Space::System, system.step())?;
    layout.copy(alloc, Space::Now, &draft.defs, &mut step)?;
    layout.copy(alloc, Space::Next, &draft.defs, &mut step)?;
    append(&mut step, &draft.rows)?;
    Ok(step)
}

// The fairness literals.
fn fairness(alloc: Global, layout: &Layout, draft: &Draft) -> Result<Clause, AllocError>
    ensures { IfOk result (λ ls. ls ≡ map (moved layout.now Space.Now) draft.now.sets) }
{
    let fair = layout.moved_all(alloc, Space::Now, draft.sets.as_slice())?;
    Clause::from_slice(alloc, fair.as_slice())
}

// How many variables the monitored system has, where those of one state end at `gate`.
fn all_bits(layout: &Layout, gate: usize, state_bits: usize) -> Result<usize, AllocError>
    requires { state_bits ≤ gate }
    ensures { IfOk result (λ n. n ≡ layout.now.inner + 2 * (gate - state_bits)) }
{
    let given = gate - state_bits;
    sum(layout.inner, sum(given, given)?)
}

// Adds clauses at the end.
pub fn append(clauses: &mut Clauses, more: &Clauses) -> Result<(), AllocError>
    ensures { OnOk result (clauses.new ≡ clauses.old ++ more.now) }
{
    for k in 0..more.len() {
        clauses.push(more.get(k))?;
    }
    Ok(())
}
