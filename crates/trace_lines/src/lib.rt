//! The counterexamples of a report, read from its text alone: no model is needed, and none is asked for.
//!
//! The only error of a call but `report_read` is running out of memory.
#![tactic(auto)]

mod entry;
mod exact_lines;
mod reading;
mod trace;

pub use entry::{Binding, TraceLine, entry_read, is_trace_line, number_of, pieces};
pub use exact_lines::is_said_exactly;
pub use reading::{ReadStop, Reading, head_row, report_read};
pub use trace::Trace;
