//! The transition system of a monitor beside the system that it watches.

use clause_core::System;

/// A system with the monitor of a formula beside it: runs on which the formula is false.
///
/// The fairness literals of the system tell its sets, one each: those of JUSTICE first, and one for
/// each operator `F`, `G`, `U` or `V`.
#[derive(Drop)]
pub struct Monitored {
    pub system: System,
}
