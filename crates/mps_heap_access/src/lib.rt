//! The calls of a heap on slots and objects, and on the words of areas.
#![tactic(auto)]

pub mod areas;
pub mod keyed;
pub mod objects;
