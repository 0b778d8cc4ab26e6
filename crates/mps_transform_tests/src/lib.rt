//! Tests of transforms, and of applying them. They stand here since a crate that has tests is proved twice.
#![tactic(auto)]

#[cfg(test)]
mod applying;
#[cfg(test)]
mod blocking;
#[cfg(test)]
mod slots;
#[cfg(test)]
mod transforms;
