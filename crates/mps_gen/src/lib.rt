//! Chains of generations: to which generation the survivors of a pool go, and which generation is due for collection.
#![tactic(auto)]

mod chains;

pub use chains::{Chains, DueGeneration, MAX_CHAINS, MAX_GENERATIONS, MAX_POOLS};

#[cfg(test)]
mod tests;
