//! The manual pools: a client allocates their blocks and frees them.
#![tactic(auto)]

mod manual;

pub use manual::Manual;
