//! The generator of workloads: scripts of any length, each given by a seed and a number of steps.
#![tactic(auto)]

mod generator;
mod lines;
mod script_lines;

pub use generator::generate;
pub use lines::GenLines;
