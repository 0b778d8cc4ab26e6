//! What a heap keeps beside its blocks and roots: dependents, transforms, allocation caches and frames.
#![tactic(auto)]

mod neighbours;

pub use neighbours::Neighbours;

#[cfg(test)]
mod tests;
