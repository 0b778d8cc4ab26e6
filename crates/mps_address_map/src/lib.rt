//! A map by addresses, whose hashes nobody can foresee who chooses addresses.
#![tactic(auto)]

mod map;
mod secret;
mod words;

pub use map::AddressMap;

#[cfg(test)]
mod tests;
