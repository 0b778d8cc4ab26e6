//! The run of a script: line after line over any machine that answers commands, with its answers and its log, on any desk.
#![tactic(auto)]

mod bad_script_line;
mod laws;
mod lines;
mod log;
mod log_moves;
mod print;
mod progress;
mod run;
mod step;

pub use bad_script_line::BadScriptLine;
pub use laws::{
    a_good_script_ends_well, a_run_is_its_output, a_whole_run_leaves_one_history,
    answers_are_whole, the_file_of_the_log,
};
pub use lines::settle;
pub use log::log_header;
pub use progress::Progress;
pub use run::run_script;
pub use step::{log_line, print_answer};
