//! A table of a fixed number of bits, which its callers see as a list of booleans. After it is made no call allocates, and each search
//! and each write goes 64 bits a step.
#![tactic(auto)]

mod bits;
mod word;
mod words;

pub use bits::Bits;
pub use word::{lowest_one, without_bit};

#[cfg(test)]
mod tests;
