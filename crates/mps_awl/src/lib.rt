//! The pools with weak blocks: a collection keeps a block where it lies, and clears weak references to what it didn't keep.
#![tactic(auto)]

mod awl;

pub use awl::Awl;

#[cfg(test)]
mod tests;
