//! The table of a heap's pools, as its calls, its manual blocks and its collector know them.
#![tactic(auto)]

mod pools;

pub use pools::Pools;
