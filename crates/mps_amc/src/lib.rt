//! The copying pools: a collection keeps a block by moving it, or if there is no room, in its place.
#![tactic(auto)]

mod amc;
mod moving;
mod reclaiming;

pub use amc::{Amc, forwarded_from};
