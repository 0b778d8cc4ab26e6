//! The script language: the call of a line, and which lines are a script.
#![tactic(auto)]

mod commands;
mod laws;
mod line;
mod script;

pub use laws::a_script_grows_line_by_line;
pub use line::{BadLine, call_of};
pub use script::next_call;
