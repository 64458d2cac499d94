//! Counterexamples as tables, value change dumps and pictures: what is written for a report.
#![tactic(auto)]

mod answer;
mod command;
mod svg;
mod vcd;
mod well_formed_pictures;

pub use answer::{Answer, answer_of};
pub use command::{Command, Form, command_of};
pub use svg::{Grid, write_svg};
pub use vcd::write_vcd;
pub use well_formed_pictures::{is_escaped, is_well_formed};
