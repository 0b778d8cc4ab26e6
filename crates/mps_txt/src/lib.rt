//! The readable text of a portable text: each line of numbers becomes a line of words.
#![tactic(auto)]

mod bad_text_line;
mod labels;
mod laws;
mod readable_line;
mod record_line;
mod text_reader;
mod words;

pub use bad_text_line::BadTextLine;
pub use laws::labels_are_a_map;
pub use text_reader::txt;
