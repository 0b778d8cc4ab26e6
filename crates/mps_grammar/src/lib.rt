//! The grammar of commands: the forms of all of them as a table, and what several of them read.
#![tactic(auto)]

mod ends;
mod ranges;

pub use ends::alone;
pub use ranges::{MAX_GRAINS, grains, grains_limit, name_length};
