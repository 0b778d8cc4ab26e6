//! The answer line of a reply.
#![tactic(auto)]

mod laws;
mod text;

pub use laws::answers_are_read_back;
pub use text::{MAX_ANSWER_BYTES, digit_line, put_text};
