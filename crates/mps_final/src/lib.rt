//! Finalization: which blocks are registered, and which messages wait for the client.
#![tactic(auto)]

mod entries;
mod finals;
mod row;

pub use finals::{Finals, MAX_FINALS};

#[cfg(test)]
mod tests;
