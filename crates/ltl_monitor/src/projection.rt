//! Cuts values of the monitored system down to the bits of the system that is monitored.

ghost use Rattle.std.specs.Prelude.{◌≡◌, ◌<◌, ◌-◌, ℕ, List, length, IfOk, slice_index_or};
ghost use Rattle.clause_core.specs.declared.literal.Lit.{Lit};
ghost use Rattle.clause_core.specs.Assignments.{assignment_of};
ghost use Rattle.ltl_meaning.specs.Ltl.{Ltl};
ghost use Rattle.ltl_monitor.specs.declared.layout.Space.{Space};
ghost use Rattle.ltl_monitor.specs.Drafting.{place};
ghost use Rattle.ltl_monitor.specs.States.{own_values, IsMonitor, IsOwnRow};

use crate::layout::{Layout, Space};
use crate::monitored_system::Monitored;
use clause_core::{Bits, System};
use std::alloc::{AllocError, Global};

/// The values of a system's own bits among the values of all bits of its monitored system; a bit past the
/// end of these is false.
///
/// Where the values are those of a step of the monitored system, what comes are those of a step of the
/// system, with its inputs. The only error is out of memory.
pub fn own_row(
    alloc: Global,
    system: &System,
    monitored: &Monitored,
    row: &Bits,
) -> Result<Bits, AllocError>
    ensures full { IfOk result (λ own. length own ≡ system.now.all_bits) }
    ensures values { IfOk result (λ own. (v : ℕ) → v < system.now.all_bits → assignment_of own v ≡ own_values system.now monitored.now.system (assignment_of row.now) v) }
    ensures step { IfOk result (λ own. (f : Ltl) (atoms : List Lit) → IsMonitor system.now f atoms monitored.now.system → IsOwnRow system.now monitored.now.system row.now own) }
{
    let given = system.state_bits();
    let layout = Layout {
        given,
        nodes: monitored.system.state_bits().saturating_sub(given),
        inner: 0,
    };
    system.law();
    let values = values(alloc, &layout, system.all_bits(), row)?;
    Ok(Bits::from_vec(values))
}

// The values of so many variables of the system, each read where it goes.
fn values(alloc: Global, layout: &Layout, count: usize, row: &Bits) -> Result<Vec<bool>, AllocError>
    ensures full { IfOk result (λ values. length values.items ≡ count) }
    ensures each { IfOk result (λ values. (v : ℕ) → v < count → assignment_of values.items v ≡ assignment_of row.now (place layout.now Space.System v)) }
{
    let mut values = Vec::new(alloc);
    for var in 0..count {
        let place = layout.place(Space::System, var)?;
        values.push(value(row, place))?;
    }
    Ok(values)
}

// The value of a variable, false past the end.
fn value(row: &Bits, var: usize) -> bool
    ensures { result ≡ assignment_of row.now var }
{
    match row.as_slice().get(var) {
        Some(value) => *value,
        None => false,
    }
}
