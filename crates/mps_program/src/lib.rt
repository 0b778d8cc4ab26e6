//! What the words of the command line ask for, done over any desk: `mps run` runs a script over a heap, prints its answers
//! and logs what happened; `mps cnv`, `mps txt` and `mps blocks` read logs; `mps gen` prints a generated script, or runs it.
#![tactic(auto)]

mod command;
mod laws;
mod over;

pub use command::{NoWords, mps, start};
pub use laws::{a_good_input_is_read_to_its_end, a_run_by_its_words, a_runs_log_can_be_read};
pub use over::start_over;
