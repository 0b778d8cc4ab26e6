//! The blocks that are live at the end of a log: its records are replayed, and what is left is listed.
#![tactic(auto)]

mod bad_replay;
mod command;
mod laws;
mod listing;
mod replay;

pub use bad_replay::BadReplay;
pub use command::blocks;
pub use laws::{live_blocks_ascend, version_one_records_blocks_alone};
