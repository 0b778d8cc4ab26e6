//! Roots: tables of slots, which are exact, and areas of words, which are ambiguous; and the tables of places for manual blocks.
#![tactic(auto)]

mod roots;

pub use roots::{Roots, Stored};

#[cfg(test)]
mod tests;
