//! The calls of a heap on the frames of pools.
#![tactic(auto)]

pub mod framing;
