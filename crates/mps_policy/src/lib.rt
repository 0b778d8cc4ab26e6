//! Which generation a poll collects.
#![tactic(auto)]

mod due;

pub use due::due_now;

#[cfg(test)]
mod tests;
