//! What the readers of a log and of its text share: the input, read in pieces into a buffer, the header, what is bad in a
//! log, the room for what is printed, and the end.
#![tactic(auto)]

mod bad_log;
mod input;
mod reading;

pub use bad_log::BadLog;
pub use input::Input;
pub use reading::{
    MAX_RECORD_BYTES, after_the_last, flush_after, make_room, open_log, put_first_line,
};
