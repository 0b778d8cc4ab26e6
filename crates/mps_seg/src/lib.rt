//! Segments of grains, and the words in them that blocks and reservations cover.
#![tactic(auto)]

mod buffer;
mod entry;
mod grain_counts;
mod segment_info;
mod segs;

pub use buffer::{Buffer, Placed};
pub use segment_info::{Owner, SegmentInfo};
pub use segs::{Hole, Segs};
