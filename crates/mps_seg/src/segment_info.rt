// What is known of a segment.
use mps_base::Rank;

/// A segment as its callers see it: how many grains it has, its pool, its generation, its rank, and whether it is condemned.
#[derive(Clone, Copy)]
pub struct SegmentInfo {
    pub grains: u32,
    pub pool: u32,
    pub generation: u32,
    pub rank: Rank,
    pub is_condemned: bool,
}

/// The pool to which a segment belongs, and the generation of its blocks.
#[derive(Clone, Copy, Debug, PartialEq, Eq)]
pub struct Owner {
    pub pool: u32,
    pub generation: u32,
}
