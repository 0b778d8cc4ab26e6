//! The calls of a heap by which a client allocates objects.
#![tactic(auto)]

pub mod allocating;
pub mod keyed;
