//! The keys by which a client's calls find tables, areas and points without their names: which were given out, and for which names.
#![tactic(auto)]

mod bytes;
mod given;
mod keys;

pub use bytes::are_same;
pub use keys::{AreaKey, Keys, PointKey, TableKey};

#[cfg(test)]
mod tests;
