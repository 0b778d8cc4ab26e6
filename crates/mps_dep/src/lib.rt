//! Dependent blocks: where a reference of a weak block becomes null, so does the reference of the same number in its dependent.
#![tactic(auto)]

mod dependents;
mod follow;
mod marks;

pub use dependents::{Dependents, MAX_PAIRS, Pair};
