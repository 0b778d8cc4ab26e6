//! Generated scripts: a law of them, and their run, which prints only the last two answers.
#![tactic(auto)]

mod all_lines;
mod laws;
mod run;

pub use laws::generated_scripts_are_grammatical;
pub use run::run_generated;
