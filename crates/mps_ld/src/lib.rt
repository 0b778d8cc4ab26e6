//! Location dependencies. A client that keys a table by addresses adds each address to a dependency and asks it later whether what lay
//! there may have moved since.
#![tactic(auto)]

mod dependency;
mod epochs;

pub use dependency::Ld;
pub use epochs::Epochs;

#[cfg(test)]
mod tests;
