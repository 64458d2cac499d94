//! A lasso over bits: values for each state, and the state to which it returns after the last.

ghost use Rattle.std.specs.Prelude.{◌≡◌, ◌<◌, ℕ, [], List, length, slice_index_or, IfOk};
ghost use Rattle.clause_core.specs.declared.literal.Lit.{Lit};
ghost use Rattle.ltl_meaning.specs.Ltl.{Ltl};
ghost use Rattle.ltl_monitor.specs.States.{IsMonitor, IsOwnRow};
ghost use Rattle.lasso_search.specs.Lassos.{IsOwnLasso};

use clause_core::{Bits, System};
use ltl_monitor::{Monitored, own_row};
use std::alloc::{AllocError, Global};
use std::marker::Model;

/// A lasso: for each of its states values of all bits, with which the step clauses are met, and the
/// state at which it goes on after the last. Contracts see these values and that state's number.
#[derive(Drop)]
pub struct BitLasso {
    rows: Vec<Bits>,
    start: usize,
}

impl Model for BitLasso {
    ghost use Rattle.lasso_search.specs.Lassos.{Lasso};

    ghost Value = { Lasso };

    ghost view = { λ r. record { rows = r.rows.items; start = r.start } };
}

impl BitLasso {
    /// The lasso with these values that goes on at state `start`; takes no memory.
    pub fn from_vec(rows: Vec<Bits>, start: usize) -> BitLasso
        ensures { result ≡ record { rows = rows.items; start = start } }
    {
        BitLasso { rows, start }
    }

    /// How many states it has.
    pub fn len(&self) -> usize
        ensures { result ≡ length self.now.rows }
    {
        self.rows.as_slice().len()
    }

    /// The state that comes after the last.
    pub fn start(&self) -> usize
        ensures { result ≡ self.now.start }
    {
        self.start
    }

    /// The values at state `k`.
    pub fn row(&self, k: usize) -> &Bits
        requires { k < length self.now.rows }
        ensures { result.now ≡ slice_index_or self.now.rows k [] }
    {
        &self.rows[k]
    }

    /// This lasso of a monitored system, with the values of the bits of the system that is monitored: its
    /// states, and the inputs of its steps. The only error is out of memory.
    pub fn own(
        &self,
        alloc: Global,
        system: &System,
        monitored: &Monitored,
    ) -> Result<BitLasso, AllocError>
        ensures { IfOk result (λ own. (f : Ltl) (atoms : List Lit) → IsMonitor system.now f atoms monitored.now.system → IsOwnLasso system.now monitored.now.system self.now own) }
    {
        let rows = own_rows(alloc, system, monitored, &self.rows)?;
        Ok(BitLasso {
            rows,
            start: self.start,
        })
    }
}

// The values of the system's own bits in each row.
fn own_rows(
    alloc: Global,
    system: &System,
    monitored: &Monitored,
    rows: &[Bits],
) -> Result<Vec<Bits>, AllocError>
    ensures size { IfOk result (λ own. length own.items ≡ length rows.now) }
    ensures each { IfOk result (λ own. (f : Ltl) (atoms : List Lit) → IsMonitor system.now f atoms monitored.now.system → (i : ℕ) → i < length rows.now → IsOwnRow system.now monitored.now.system (slice_index_or rows.now i []) (slice_index_or own.items i [])) }
{
    let mut all = Vec::new(alloc);
    for row in rows {
        all.push(own_row(alloc, system, monitored, row)?)?;
    }
    Ok(all)
}
