//! The calls of a heap on pairs of holders and dependents.
#![tactic(auto)]

pub mod pairing;
