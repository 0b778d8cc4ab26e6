//! The calls of a heap on labels of the log, and on dependencies.
#![tactic(auto)]

pub mod depending;
pub mod labelling;
