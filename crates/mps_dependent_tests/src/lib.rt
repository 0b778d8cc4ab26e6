//! Tests of dependents, and of following moves. They stand here since a crate that has tests is proved twice.
#![tactic(auto)]

#[cfg(test)]
mod dependents;
#[cfg(test)]
mod following;
