//! The calls of a heap that collect and finalize objects, that have a collection in progress do units, and those on the arena.
#![tactic(auto)]

pub mod arena;
pub mod collecting;
pub mod finalizing;
pub mod steps;
