//! What is written for words and a report.

use std::alloc::Global;
use std::test::Fail;
use trace_view::{answer_of, command_of};

/// Whether this is written for the words and the report, with this status.
pub fn is_written(
    alloc: Global,
    words: &[&str],
    report: &str,
    status: u8,
    text: &str,
) -> Result<bool, Fail> {
    match command_of(words) {
        None => Err("no command line".into()),
        Some(command) => {
            let answer = answer_of(alloc, command, report.as_bytes())?;
            Ok(answer.status == status && answer.text.as_str() == text)
        }
    }
}
