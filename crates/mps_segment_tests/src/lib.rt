//! Tests of segments, beside plain tables. They stand here since a crate that has tests is proved twice.
#![tactic(auto)]

#[cfg(test)]
mod tests;
