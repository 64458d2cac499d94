//! The monitor of a formula of linear temporal logic: bits beside a run that tell its truth, and the
//! transition system that has them (Lichtenstein, Pnueli and Zuck 1985).
//!
//! # Variables and clauses
//!
//! The variables of a monitored system stand in this order: the system's state bits and one for each
//! temporal operator; these again for the next state; the system's other variables. After these come, in
//! turns, what is defined of the state before a step and of the one after it.
//!
//! A formula is drafted in one walk from its operands up. It gives a gate for each constant, for each Boolean
//! operator but negation, and for each fairness set (Tseitin 1968). It gives rules for an initial state, and
//! rules for a step. A gate is two variables, before and after a step. Its clauses stand four times: in `init`,
//! in `defs`, and twice in `step`. A temporal operator has two variables (its bit, before and after a step), and
//! two to four clauses in `step`.
//!
//! | Node | State bits | Gates | Clauses of its own in `step` | in `init` | of its gate, each copy |
//! |---|---|---|---|---|---|
//! | atom, not | | | | | |
//! | constant | | 1 | | | 1 |
//! | and, or, `->` | | 1 | | | 3 |
//! | `xor`, `xnor`, `<->` | | 1 | | | 4 |
//! | `X` | 1 | | 2 | | |
//! | `Y`, `Z` | 1 | | 2 | 1 | |
//! | `O`, `H` | 1 | | 3 | 2 | |
//! | `F`, `G` | 1 | 1 (the set) | 3 | | 3 |
//! | `U`, `V` | 1 | 1 (the set) | 4 | | 3 |
//! | `S`, `T` | 1 | | 4 | 2 | |
//!
//! The root is one clause in `init`. The system itself, with A variables, S state bits and N temporal
//! operators, takes A + 2N variables, and 2 (A - S) more for what is defined of the two states. Those that
//! `defs` does not name stand in no clause. `defs` stands once in `init`, twice in `step` and once in `defs`;
//! each other list stands once.
//!
//! `counted` goes the same way over the monitored system. A fairness set takes one state bit, two gates of
//! three clauses (each copy; five copies, one of them in `bad`), four clauses in `step` and one in `init`. A
//! number of the counter takes one state bit, four clauses in `step` and one in `init`. Beside these there are
//! one gate that is true and two clauses in `bad`.
#![tactic(auto)]

mod assembly;
mod counting;
mod draft;
mod layout;
pub mod monitor_correctness;
mod monitored_system;
mod monitoring;
mod projection;
mod rules;

pub use counting::counted;
pub use monitored_system::Monitored;
pub use monitoring::{atoms_below, monitored};
pub use projection::own_row;
