//! Laws of the text of certificates: what is printed is read back.
#![tactic(auto)]

mod reading_back;

pub use reading_back::{
    other_lines_are_passed_over, printed_certificates_are_read, printed_sound_blocks_are_read,
    printed_texts_are_read,
};
