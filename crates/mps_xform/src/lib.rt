//! Transforms: old blocks of a parked arena, each with the new block to which all references to it are to lead instead.
#![tactic(auto)]

mod applying;
mod blocking;
mod replacements;
mod slots;
mod transforms;

pub use transforms::{AddRefusal, MAX_PAIRS, MAX_TRANSFORMS, Pair, Transforms};
