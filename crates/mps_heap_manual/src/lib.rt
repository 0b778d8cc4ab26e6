//! The calls of a heap on manual blocks, and the words that are borrowed.
#![tactic(auto)]

pub mod lending;
pub mod manual;
