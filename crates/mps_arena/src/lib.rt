//! The words of the arena, the grains that are held, and the commit limit.
#![tactic(auto)]

mod arena;
mod grains;
mod memory;

pub use arena::Arena;

#[cfg(test)]
mod tests;
