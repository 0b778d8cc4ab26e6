//! The calls of a heap that make and drop things.
#![tactic(auto)]

pub mod making;
pub mod results;
