//! The pools that mark: a collection keeps a block where it lies, and frees what it didn't keep.
#![tactic(auto)]

mod mark;

pub use mark::Mark;

#[cfg(test)]
mod tests;
