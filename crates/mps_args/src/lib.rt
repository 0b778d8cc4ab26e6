//! The words of the command line, and what they mean.
#![tactic(auto)]

mod command;
#[cfg(test)]
mod tests;
mod words;

pub use command::Command;
pub use words::command_of;
