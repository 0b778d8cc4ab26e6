//! The names of a client's things. All names share one name space, and a name represents at most one thing.
#![tactic(auto)]

mod key;
mod names;
mod numbers;
mod tables;

pub use mps_keys::{AreaKey, PointKey, TableKey};
pub use names::{Names, Thing};

#[cfg(test)]
mod tests;
