//! A bound of the gaps at each index, and a search for the lowest index whose bound is enough.
#![tactic(auto)]

mod gap_bounds;

pub use gap_bounds::GapBounds;
