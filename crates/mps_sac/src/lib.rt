//! Allocation caches: blocks that a client freed, kept by size over a pool for its next requests.
#![tactic(auto)]

mod cache;
mod caches;
mod class;

pub use cache::MAX_CLASSES;
pub use caches::{Caches, MAX_CACHES};
pub use class::{ClassSize, MAX_CACHED};

#[cfg(test)]
mod tests;
