//! Tests of heads, and of the methods of formats. They stand here since a crate that has tests is proved twice.
#![tactic(auto)]

#[cfg(test)]
mod formats;
#[cfg(test)]
mod methods;
