//! The calls of a heap on transforms.
#![tactic(auto)]

pub mod transforming;
