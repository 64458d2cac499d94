//! Traces of runs and lassos: their text, printed and read back, and their replay by the meaning of the program.
#![tactic(auto)]

mod columns;
mod entry;
mod faultless;
mod forms;
mod lassos;
mod printing;
mod readable_traces;
mod reader;
mod reading;
mod replaying;
mod rule;
mod run;
mod source;
mod telling;
mod trace;
mod words;

pub use entry::{Binding, TraceLine};
pub use printing::{TraceLines, print};
pub use readable_traces::{is_lasso_readable, is_read_once, is_run_readable};
pub use reader::read;
pub use replaying::{replay, replay_run};
pub use rule::{ReplayRule, Replayed};
pub use source::Line;
pub use trace::Trace;
