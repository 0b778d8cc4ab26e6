//! The tools of a log: its portable text, the readable text of that, the blocks that are live at its end, and workloads that
//! are generated. Each has a crate of its own, and is passed on from there.
#![tactic(auto)]

#[cfg(test)]
mod tests;

pub use mps_blocks::blocks;
pub use mps_cnv::cnv;
pub use mps_event::Kinds;
pub use mps_txt::txt;
pub use mps_workload::{GenLines, generate};
