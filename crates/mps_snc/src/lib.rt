//! Pools of frames: which blocks were made since which frame was opened, and where they are held.
#![tactic(auto)]

mod frames;
mod pool;

pub use frames::{Frames, MAX_FRAMES, MAX_NOTES, MAX_POOLS};
pub use pool::{Block, Place, Pool};

#[cfg(test)]
mod tests;
