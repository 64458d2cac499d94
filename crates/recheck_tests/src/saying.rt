//! What is said of a text, as text.

use plain_text::Text;
use smv_recheck::{print, recheck, status};
use smv_tree::TextStop;
use std::alloc::Global;
use std::test::Fail;

/// What is printed, and the status.
#[derive(Drop)]
pub struct Answer {
    pub text: Text,
    pub status: u8,
}

/// What is said of a text.
pub fn said(alloc: Global, text: &[u8], upgrade: bool) -> Result<Answer, Fail> {
    match recheck(alloc, text, upgrade) {
        Ok(checked) => Ok(Answer {
            text: print(alloc, &checked)?,
            status: status(checked.records.as_slice()),
        }),
        Err(TextStop::Refused(refusal)) => {
            let line = refusal.to_string(alloc)?;
            Ok(Answer {
                text: Text::from_str(alloc, line.as_str())?,
                status: 3,
            })
        }
        Err(TextStop::NoMemory) => Err("no memory".into()),
    }
}

/// Two texts, one behind the other.
pub fn both(alloc: Global, first: &str, second: &str) -> Result<Vec<u8>, Fail> {
    let mut text = Vec::new(alloc);
    text.extend_from_slice(first.as_bytes())?;
    text.extend_from_slice(second.as_bytes())?;
    Ok(text)
}
